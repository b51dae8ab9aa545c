//! A run of a code depth first, with stamps.
ghost use Rattle.std.specs.Prelude.{[], ◌≡◌, ◌++◌, ◌∷◌, ◌<◌, ◌≤◌, ◌^◌, ◌+◌, ℕ, IfOk, List, OnOk};
ghost use Rattle.std.specs.Prelude.{false, length, replicate};
ghost use Rattle.ppm_strands.specs.Run.{none};
ghost use Rattle.ppm_strands.specs.Tree.{Words};
ghost use Rattle.ppm_code.specs.Sizes.{size_at};
ghost use Rattle.ppm_code.specs.Tidy.{IsTidy};
ghost use Rattle.ppm_code.specs.declared.code.CodeParts.{CodeParts as CodeOf};
ghost use Rattle.ppm_depth.specs.Moves.{AreSlotsThere};
ghost use Rattle.ppm_depth.specs.Stack.{Strands};
ghost use Rattle.ppm_depth.specs.Start.{words_of};
ghost use Rattle.ppm_depth.specs.Turns.{AreFew, ShowsTree, counts_of};
ghost use Rattle.ppm_depth.specs.declared.frame.Now.TheVariants.{At, Over};
ghost use Rattle.ppm_races.specs.Beside.{AreInOrder, stands_beside};
ghost use Rattle.ppm_races.specs.Walks.{AreSeen, Chains, HasChain, HasTold, IsAt, IsAtWith};
ghost use Rattle.ppm_races.specs.Walks.{IsLogged};
ghost use Rattle.ppm_races.specs.Walks.{KeptBy, MarksResumed, ResumedSo, TurnedTo, marks_with};
ghost use Rattle.ppm_races.specs.Walks.{opens_fork};
ghost use Rattle.ppm_races.specs.declared.stamps.Mark.{Mark as MarkOf};

use crate::capsule::run_logged;
use crate::stamps::{Mark, Met, Visits, first_met, leave_marks};
use crate::touch::Touch;
use ppm_code::{Code, End};
use ppm_depth::{Finish, For, Frame, Now, Place, Strand, Waiting, block_words, counted, instrs_of};
use ppm_words::NoMemory;
use std::alloc::Global;

/// A run under way: its strand, which capsules touched the array words, the forks that are open,
/// the outermost first, and what the last capsule touched.
#[derive(Drop)]
pub struct Walk {
    pub strand: Strand,
    pub visits: Visits,
    pub marks: Vec<Mark>,
    pub log: Vec<Touch>,
}

/// A capsule that meets another one: its number in the run, from 1 on, and in the code, and whom it
/// meets by which touch.
#[derive(Clone, Copy, Debug, PartialEq, Eq)]
pub struct Meeting {
    pub run: u64,
    pub capsule: u32,
    pub met: Met,
}

/// What comes of a capsule: the strand goes on, or it meets another one.
#[derive(Clone, Copy, Debug, PartialEq, Eq)]
pub enum Turn {
    Goes(Now),
    Meets(Meeting),
}

/// How a run is left: it is over, a capsule meets another one, or one more would be run, at which a
/// frame stands.
#[derive(Clone, Copy, Debug, PartialEq, Eq)]
pub enum Told {
    Ended(Finish),
    Meets(Meeting),
    Next(Frame),
}

/// The right branch of the innermost fork begins with a capsule.
fn turn_right(marks: &mut Vec<Mark>, time: u64) -> Result<(), NoMemory>
    ensures { OnOk result ((front : List MarkOf) (start mid : ℕ)
        → marks.old.items ≡ front ++ (record { start = start; mid = mid } ∷ [])
        → marks.new.items ≡ front ++ (record { start = start; mid = time } ∷ [])) }
{
    if let Some(mark) = marks.pop() {
        marks.push(Mark {
            start: mark.start,
            mid: time,
        })?;
    }
    Ok(())
}

/// The innermost fork is closed.
fn close(marks: &mut Vec<Mark>)
    ensures { (front : List MarkOf) (mark : MarkOf)
        → marks.old.items ≡ front ++ (mark ∷ []) → marks.new.items ≡ front }
{
    let _ = marks.pop();
}

/// Notes a fork, if an end opens one; its left branch begins with a capsule.
fn open_fork(marks: &mut Vec<Mark>, end: End, time: u64) -> Result<(), NoMemory>
    ensures { OnOk result (marks.new.items ≡ marks_with (opens_fork end) time marks.old.items) }
{
    match end {
        End::Fork { .. } => {
            marks.push(Mark {
                start: time,
                mid: 0,
            })?;
            Ok(())
        }
        End::Next { .. } => Ok(()),
        End::Finish => Ok(()),
        End::Trap { .. } => Ok(()),
        End::Call { .. } => Ok(()),
    }
}

/// The open forks where that for which a frame waits is over: a capsule with this number is next.
fn resume_marks(marks: &mut Vec<Mark>, on: For, time: u64) -> Result<(), NoMemory>
    ensures { OnOk result (MarksResumed time on marks.old.items marks.new.items) }
{
    match on {
        For::Callee { .. } => Ok(()),
        For::Left { .. } => {
            turn_right(marks, time)?;
            Ok(())
        }
        For::Right { .. } => {
            close(marks);
            Ok(())
        }
    }
}

/// Zeros, of the given number.
fn zeros(alloc: Global, count: usize) -> Result<Vec<u64>, NoMemory>
    ensures { IfOk result (λ zeros. zeros.items ≡ replicate count 0) }
{
    let mut zeros = Vec::new(alloc);
    for _ in 0..count {
        zeros.push(0)?;
    }
    Ok(zeros)
}

impl Walk {
    /// A run of a strand, over so many array words, of which nobody has touched one.
    pub(crate) fn new(alloc: Global, strand: Strand, words: usize) -> Result<Walk, NoMemory>
        ensures strand { IfOk result (λ walk. walk.strand ≡ strand) }
        ensures wrote { IfOk result (λ walk. walk.visits.wrote.items ≡ replicate words 0) }
        ensures touched { IfOk result (λ walk. walk.visits.touched.items ≡ replicate words 0) }
        ensures marks { IfOk result (λ walk. walk.marks.items ≡ []) }
    {
        let wrote = zeros(alloc, words)?;
        let touched = zeros(alloc, words)?;
        Ok(Walk {
            strand,
            visits: Visits { wrote, touched },
            marks: Vec::new(alloc),
            log: Vec::new(alloc),
        })
    }

    /// Runs the capsule at which a frame stands, and notes what it touches.
    pub(crate) fn advance(&mut self, code: &Code, frame: Frame) -> Result<Turn, NoMemory>
        requires tidy { IsTidy code.now }
        requires there { frame.capsule < length code.now.capsules }
        requires stack { frame.base + size_at code.now frame.capsule
            ≤ length self.old.strand.store.blocks.items }
        requires few { AreFew self.old.strand.counts }
        requires capsules { self.old.strand.counts.capsules < 2 ^ 40 }
        requires seen { AreSeen self.old }
        requires now { stands_beside self.old.marks.items (self.old.strand.counts.capsules + 1)
            ≡ false }
        requires sorted { AreInOrder self.old.marks.items }
        ensures turn { IfOk result (λ turn. (root : Strands) (input : Words)
            → IsAt code.now root input self.old (At frame)
            → TurnedTo code.now root input self.old self.new turn) }
        ensures log { OnOk result ((root : Strands) (input : Words)
            → IsAt code.now root input self.old (At frame)
            → IsLogged code.now root input (length self.old.strand.store.words.items)
            (self.old.strand.counts.capsules + 1) frame.capsule self.new.log.items) }
        ensures chain { IfOk result (Chains code.now self.old self.new (At frame)) }
        ensures kept { IfOk result (KeptBy self.old self.new) }
    {
        let block = self.strand.store.blocks.len();
        let words = block_words(instrs_of(code, frame.capsule));
        self.strand.store.open_block(words)?;
        let place = Place {
            frame: frame.base,
            block,
        };
        let done = run_logged(
            code,
            frame.capsule,
            place,
            &mut self.strand.store,
            &mut self.log,
        )?;
        let time = self.strand.counts.capsules + 1;
        if let Some(met) = first_met(&self.visits, &self.marks, &self.log) {
            return Ok(Turn::Meets(Meeting {
                run: time,
                capsule: frame.capsule,
                met,
            }));
        }
        leave_marks(&mut self.visits, &self.marks, &self.log, time);
        open_fork(&mut self.marks, done.end, time + 1)?;
        let now = self.strand.follow(code, frame, block, done.end)?;
        self.strand.counts = counted(self.strand.counts, done);
        Ok(Turn::Goes(now))
    }

    /// What follows where that for which a frame waits is over.
    fn resume(&mut self, waiting: Waiting, finish: Finish) -> Result<Now, NoMemory>
        requires block { waiting.block ≤ length self.old.strand.store.blocks.items }
        requires slots { AreSlotsThere waiting.frame waiting.on waiting.block }
        requires few { self.old.strand.counts.capsules ≤ 2 ^ 40 }
        ensures now { IfOk result (λ now. (code : CodeOf) (root : Strands) (input : Words)
            → IsAtWith code root input self.old.strand.store.blocks.items
            (self.old.strand.waiting.items ++ (waiting ∷ [])) self.old (Over finish)
            → IsAt code root input self.new now) }
        ensures kept { IfOk result (λ now. ResumedSo waiting finish self.old self.new now) }
    {
        let time = self.strand.counts.capsules + 1;
        resume_marks(&mut self.marks, waiting.on, time)?;
        let now = self.strand.resume(waiting, finish)?;
        Ok(now)
    }

    /// Runs a code from a frame until it is over, a capsule meets another one, or more capsules
    /// would be run than that.
    pub(crate) fn run(&mut self, code: &Code, root: Frame, limit: u64) -> Result<Told, NoMemory>
        requires tidy { IsTidy code.now }
        requires limit { limit ≤ 2 ^ 40 }
        requires counts { counts_of self.old.strand.counts ≡ none }
        requires seen { AreSeen self.old }
        requires began { (tree : Strands)
            × ((input : Words) × IsAt code.now tree input self.old (At root)) }
        ensures told { (tree : Strands) (input : Words)
            → IsAt code.now tree input self.old (At root)
            → IfOk result (HasTold code.now tree input limit self.new) }
        ensures chain { (t : Strands) → ShowsTree code.now self.old.strand (At root) t
            → IfOk result (HasChain code.now (length self.old.strand.store.words.items) limit t
            (words_of self.old.strand.store.words.items) self.new) }
        ensures words { OnOk result (length self.new.strand.store.words.items
            ≡ length self.old.strand.store.words.items) }
    {
        let mut now = Now::At(root);
        loop {
            match now {
                Now::At(frame) => {
                    if self.strand.counts.capsules == limit {
                        return Ok(Told::Next(frame));
                    }
                    let turn = self.advance(code, frame)?;
                    match turn {
                        Turn::Goes(next) => now = next,
                        Turn::Meets(meeting) => return Ok(Told::Meets(meeting)),
                    }
                }
                Now::Over(finish) => match self.strand.waiting.pop() {
                    Some(waiting) => now = self.resume(waiting, finish)?,
                    None => return Ok(Told::Ended(finish)),
                },
            }
        }
    }
}
