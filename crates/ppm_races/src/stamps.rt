//! Who wrote and touched the words of the arrays, by the numbers of capsules in the run.
ghost use Rattle.std.specs.Prelude.{◌≡◌, ◌<◌, ◌≤◌, ◌↔◌, IfNone, IfSome, nat_le, true, false};
ghost use Rattle.std.specs.Prelude.{get_or, length};
ghost use Rattle.std.specs.List.Sorted.{IsPartitionPoint};
ghost use Rattle.ppm_strands.specs.Tree.{Has};
ghost use Rattle.ppm_races.specs.Beside.{AreInOrder, AreMarked, HasLeft, HasMet, IsFirstMet};
ghost use Rattle.ppm_races.specs.Beside.{NoneMeets, meets, stands_beside, touched_with, wrote_with};
ghost use Rattle.ppm_races.specs.Touches.{AreThere, written_in};

use crate::touch::Touch;

/// A fork that is open: the number of the capsule with which its left branch began, and of that
/// with which its right one did, or 0 where it has not.
#[derive(Clone, Copy, Debug, PartialEq, Eq)]
pub struct Mark {
    pub start: u64,
    pub mid: u64,
}

/// Of each array word the number of the capsule that wrote it last, and of one that touched it; 0
/// is none.
#[derive(Drop)]
pub struct Visits {
    pub wrote: Vec<u64>,
    pub touched: Vec<u64>,
}

/// An earlier capsule of the run that a touch meets: its number, and the fork in whose left branch
/// it ran.
#[derive(Clone, Copy, Debug, PartialEq, Eq)]
pub struct Met {
    pub touch: Touch,
    pub left: u64,
    pub fork: Mark,
}

/// How many of the open forks began no later than a capsule.
fn count_begun(marks: &[Mark], stamp: u64) -> usize
    requires sorted { AreInOrder marks.now }
    ensures bound { result ≤ length marks.now }
    ensures point { IsPartitionPoint (λ mark. nat_le mark.start stamp ≡ true)
        (λ mark. nat_le mark.start stamp ≡ false) marks.now result }
{
    marks.partition_point(
        |mark: &Mark| -> bool
            ensures { result ≡ nat_le mark.now.start stamp }
        { mark.start <= stamp },
    )
}

/// The open fork in whose left branch a capsule ran, where its right one is run now. Each fork
/// began after the left branches of those outside of it, so one look is enough.
fn fork_with(marks: &[Mark], stamp: u64) -> Option<Mark>
    requires sorted { AreInOrder marks.now }
    ensures none { IfNone result (stands_beside marks.now stamp ≡ false) }
    ensures some { IfSome result (HasLeft marks.now stamp) }
{
    let count = count_begun(marks, stamp);
    if count == 0 {
        return None;
    }
    let mark = marks[count - 1];
    if stamp < mark.mid {
        return Some(mark);
    }
    None
}

/// Whether a capsule stands beside what is run now.
fn is_beside(marks: &[Mark], stamp: u64) -> bool
    requires sorted { AreInOrder marks.now }
    ensures { result ≡ stands_beside marks.now stamp }
{
    fork_with(marks, stamp).is_some()
}

/// The capsule that a touch meets: who wrote its word last, where that stands beside, else, where
/// the touch writes, one that touched it.
fn met_by(visits: &Visits, marks: &[Mark], touch: Touch) -> Option<Met>
    requires sorted { AreInOrder marks.now }
    requires wrote { touch.word < length visits.now.wrote.items }
    requires touched { touch.word < length visits.now.touched.items }
    ensures none { IfNone result (meets (stands_beside marks.now) visits.now.wrote.items
        visits.now.touched.items touch ≡ false) }
    ensures some { IfSome result (HasMet marks.now visits.now.wrote.items
        visits.now.touched.items touch) }
{
    let wrote = visits.wrote[touch.word as usize];
    if let Some(fork) = fork_with(marks, wrote) {
        return Some(Met {
            touch,
            left: wrote,
            fork,
        });
    }
    if !touch.writes {
        return None;
    }
    let left = visits.touched[touch.word as usize];
    let fork = fork_with(marks, left)?;
    Some(Met { touch, left, fork })
}

/// What the first touch of a log meets that meets anything.
pub(crate) fn first_met(visits: &Visits, marks: &[Mark], log: &[Touch]) -> Option<Met>
    requires sorted { AreInOrder marks.now }
    requires wrote { AreThere (length visits.now.wrote.items) log.now }
    requires touched { AreThere (length visits.now.touched.items) log.now }
    ensures none { IfNone result (NoneMeets (stands_beside marks.now) visits.now.wrote.items
        visits.now.touched.items log.now) }
    ensures some { IfSome result (IsFirstMet marks.now visits.now.wrote.items
        visits.now.touched.items log.now) }
{
    let mut left = log;
    while let [touch, rest @ ..] = left {
        if let Some(met) = met_by(visits, marks, *touch) {
            return Some(met);
        }
        left = rest;
    }
    None
}

/// Whether a log has a touch that writes a word.
pub(crate) fn is_written(log: &[Touch], word: u64) -> bool
    ensures { (result ≡ true) ↔ Has word (written_in log.now) }
{
    let mut left = log;
    while let [touch, rest @ ..] = left {
        if is_write_of(*touch, word) {
            return true;
        }
        left = rest;
    }
    false
}

/// Whether a touch writes a word.
fn is_write_of(touch: Touch, word: u64) -> bool
    ensures yes { result ≡ true → (touch.writes ≡ true) × (word ≡ touch.word) }
    ensures no { result ≡ false → touch.writes ≡ true → word ≡ touch.word → ⊥ }
{
    touch.writes && touch.word == word
}

/// Marks one touch with the number of its capsule.
fn leave_mark(visits: &mut Visits, marks: &[Mark], touch: Touch, time: u64)
    requires sorted { AreInOrder marks.now }
    requires wrote { touch.word < length visits.old.wrote.items }
    requires touched { touch.word < length visits.old.touched.items }
    ensures wrote { visits.new.wrote.items
        ≡ wrote_with touch.writes touch.word time visits.old.wrote.items }
    ensures touched { visits.new.touched.items
        ≡ touched_with (stands_beside marks.now (get_or visits.old.touched.items touch.word 0))
        touch.word time visits.old.touched.items }
{
    let word = touch.word as usize;
    if touch.writes {
        visits.wrote[word] = time;
    }
    if !is_beside(marks, visits.touched[word]) {
        visits.touched[word] = time;
    }
}

/// Marks the touches of a log with the number of its capsule.
pub(crate) fn leave_marks(visits: &mut Visits, marks: &[Mark], log: &[Touch], time: u64)
    requires sorted { AreInOrder marks.now }
    requires wrote { AreThere (length visits.old.wrote.items) log.now }
    requires touched { AreThere (length visits.old.touched.items) log.now }
    requires now { stands_beside marks.now time ≡ false }
    ensures { AreMarked (stands_beside marks.now) visits.old.wrote.items visits.old.touched.items
        time log.now visits.new.wrote.items visits.new.touched.items }
{
    let mut left = log;
    while let [touch, rest @ ..] = left {
        leave_mark(visits, marks, *touch, time);
        left = rest;
    }
}
