//! All strands of a code, and the array words.
ghost use Rattle.std.specs.Prelude.{◌≡◌, ◌<◌, [], ℕ, IfOk, OnOk, length, get_or, set, slice_get, Some, None};
ghost use Rattle.ppm_strands.specs.Tree.{Words};
ghost use Rattle.ppm_code.specs.declared.location.FrameWord.{FrameWord};
ghost use Rattle.ppm_depth.specs.declared.frame.Finish.TheVariants.{Gave};
ghost use Rattle.ppm_racy.specs.declared.code.RacyParts.{RacyParts};
ghost use Rattle.ppm_interleaving.specs.declared.deed.Turn.TheVariants.{Step, Fault};
ghost use Rattle.ppm_interleaving.specs.declared.strand.Strand.TheVariants.{Tells as IsTelling};
ghost use Rattle.ppm_interleaving.specs.Shows.{MakesTurn, Shows, finish_in};
ghost use Rattle.ppm_interleaving.specs.Stepping.{PutsBack};
ghost use Rattle.ppm_interleaving.specs.Owns.{AreRootWords};

use crate::deed::{Deed, Turn};
use crate::ending::begun;
use crate::own::Own;
use crate::stepped::{Stepped, failed, finish_among, step};
use crate::strand::Strand;
use ppm_depth::Finish;
use ppm_racy::RacyCode;
use ppm_words::NoMemory;
use std::alloc::Global;
use std::mem;

/// The strands in the order of forks, and the words of the arrays.
#[derive(Debug, Drop)]
pub struct Machine {
    pub strands: Vec<Strand>,
    pub words: Vec<u64>,
}

impl Machine {
    /// The root's strand alone, with these words in its slots, and the words of the arrays.
    pub fn new(
        alloc: Global,
        code: &RacyCode,
        slots: Vec<u64>,
        words: Vec<u64>,
    ) -> Result<Machine, NoMemory>
        ensures { IfOk result (λ machine. (root : FrameWord → ℕ) (arrays : Words)
            → AreRootWords slots.items root → ((x : ℕ) → arrays x ≡ get_or words.items x 0)
            → Shows code.now (length words.items) root arrays [] machine) }
    {
        let own = Own {
            slots,
            value: 0,
            block: Vec::new(alloc),
        };
        let root = begun(alloc, code, code.parts().root, own);
        let mut strands = Vec::new(alloc);
        strands.push(Strand::Running(root))?;
        Ok(Machine { strands, words })
    }

    /// How the root's strand is over, if it is.
    pub fn finish(&self) -> Option<Finish>
        ensures { result ≡ finish_in self.now.strands.items 0 }
    {
        finish_among(&self.strands, 0)
    }

    /// Takes out the strand with a number, which is there.
    fn take(&mut self, strand: usize) -> Strand
        requires { strand < length self.old.strands.items }
        ensures there { slice_get self.old.strands.items strand ≡ Some result }
        ensures strands { self.new.strands.items ≡ set self.old.strands.items strand (IsTelling (Gave 0)) }
        ensures words { self.new.words.items ≡ self.old.words.items }
    {
        mem::replace(&mut self.strands[strand], Strand::Tells(Finish::Gave(0)))
    }

    /// Puts a strand back where it is after a step, with the branches that it forked; what others
    /// see of that.
    fn put_back(&mut self, strand: usize, stepped: Stepped) -> Result<Option<Deed>, NoMemory>
        requires { strand < length self.old.strands.items }
        ensures strands { IfOk result (λ told. PutsBack self.old.strands.items strand stepped told self.new.strands.items) }
        ensures words { OnOk result (self.new.words.items ≡ self.old.words.items) }
    {
        let first = self.strands.len() as u64;
        match stepped {
            Stepped::Goes(now) => {
                self.strands[strand] = now;
                Ok(None)
            }
            Stepped::Changed {
                running,
                word,
                was,
                is,
            } => {
                self.strands[strand] = Strand::Running(running);
                Ok(Some(Deed::Changed { word, was, is }))
            }
            Stepped::Calls(callee, waiting) => {
                self.strands[strand] = Strand::Waiting(waiting);
                self.strands.push(Strand::Running(callee))?;
                Ok(Some(Deed::Forked { first, branches: 1 }))
            }
            Stepped::Forks(left, right, waiting) => {
                self.strands[strand] = Strand::Waiting(waiting);
                self.strands.push(Strand::Running(left))?;
                self.strands.push(Strand::Running(right))?;
                Ok(Some(Deed::Forked { first, branches: 2 }))
            }
            Stepped::Closes(finish) => {
                self.strands[strand] = Strand::Over(finish);
                Ok(Some(Deed::Finished(finish)))
            }
        }
    }

    /// A step of the strand with a number, which is there and isn't over.
    fn step(
        &mut self,
        alloc: Global,
        code: &RacyCode,
        strand: usize,
    ) -> Result<Option<Deed>, NoMemory>
        requires there { strand < length self.old.strands.items }
        requires not_over { finish_in self.old.strands.items strand ≡ None }
        ensures { IfOk result (λ told. (root : FrameWord → ℕ) (arrays : Words)
            → MakesTurn code.now (length self.old.words.items) root arrays (Step strand) told self.old self.new) }
    {
        let taken = self.take(strand);
        let stepped = step(alloc, code, taken, &mut self.words, &self.strands)?;
        self.put_back(strand, stepped)
    }

    /// A soft fault of the strand with a number, which is there.
    fn fail(&mut self, alloc: Global, strand: usize)
        requires { strand < length self.old.strands.items }
        ensures { (code : RacyParts) (root : FrameWord → ℕ) (arrays : Words)
            → MakesTurn code (length self.old.words.items) root arrays (Fault strand) None self.old self.new }
    {
        let taken = self.take(strand);
        self.strands[strand] = failed(alloc, taken);
    }

    /// Makes a turn, and tells what others see of it. A turn of a strand that isn't forked yet,
    /// waits for branches that aren't over, or is over, passes.
    pub fn turn(
        &mut self,
        alloc: Global,
        code: &RacyCode,
        turn: Turn,
    ) -> Result<Option<Deed>, NoMemory>
        ensures { IfOk result (λ told. (root : FrameWord → ℕ) (arrays : Words)
            → MakesTurn code.now (length self.old.words.items) root arrays turn told self.old self.new) }
    {
        match turn {
            Turn::Step { strand } => {
                if self.strands.len() <= strand as usize {
                    return Ok(None);
                }
                if finish_among(&self.strands, strand as usize).is_some() {
                    return Ok(None);
                }
                self.step(alloc, code, strand as usize)
            }
            Turn::Fault { strand } => {
                if (strand as usize) < self.strands.len() {
                    self.fail(alloc, strand as usize);
                }
                Ok(None)
            }
        }
    }
}
