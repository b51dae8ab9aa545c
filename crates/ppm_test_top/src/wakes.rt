//! Who has parked is woken, which no clause says: to take a branch while the keeper waits for it,
//! and to see the end through soft faults.
ghost use Rattle.std.specs.Prelude.{None};

use crate::calls::call;
use ppm_answers::Status;
use ppm_cells::Entry;
use ppm_ports::{Silent, Watch};
use ppm_test_threads::comes;
use ppm_top::WATCHERS;
use ppm_words::{Event, NoMemory};
use std::alloc::Global;
use std::sync::atomic::{AtomicU64, Ordering};
use std::test::Fail;

/// One of two branches counts for long, the other one is short.
const LONG_AND_SHORT: &str =
    "array a[1]; array b[1]; proc f(mut x, int n) { let i = 0; while i < n { i = i + 1; } x[0] = i; }\n\
      proc main(mut a, mut b) { fork f(a, 4000) and f(b, 7); }";

/// As many steps as surely end each row of steps that has the fork in it.
const PAST_THE_FORK: u64 = 10_000;

/// What the second of two processors has done: it parked, and then it took a branch.
#[derive(Drop)]
struct Done {
    parked: AtomicU64,
    took: AtomicU64,
}

/// A watcher of one of two processors. That of the keeper waits at its first event until the other
/// processor has parked, and past the fork until that one has taken a branch.
#[derive(Drop)]
struct Waiting<'a> {
    keeper: bool,
    told: u64,
    done: &'a Done,
}

impl<'a> Waiting<'a> {
    /// Whether the keeper may go on. It may not where the wait is in vain.
    fn may_go_on(&self) -> bool {
        match self.told {
            0 => comes(&self.done.parked, 1),
            PAST_THE_FORK => comes(&self.done.took, 1),
            _ => true,
        }
    }

    /// Notes that the other one parks, and that it then takes a branch.
    fn note(&self, event: Event) {
        if event.step == 7 {
            self.done.parked.store(1, Ordering::SeqCst);
        }
        let parked = self.done.parked.load(Ordering::SeqCst) == 1;
        let taken = matches!(Entry::unpack(event.value), Some(Entry::Taken { .. }));
        if parked && event.step == 3 && taken {
            self.done.took.store(1, Ordering::SeqCst);
        }
    }
}

impl<'a> Watch for Waiting<'a> {
    ghost told = { λ _. None };

    fn turn(&mut self, event: Event) -> Result<(), NoMemory> {
        if !self.keeper {
            self.note(event);
            return Ok(());
        }
        if !self.may_go_on() {
            return Err(NoMemory);
        }
        self.told = self.told.saturating_add(1);
        Ok(())
    }
}

#[test]
fn one_that_parked_takes_a_branch(rt: HostRuntime) -> Result<(), Fail> {
    let alloc = rt.alloc();
    let done = Done {
        parked: AtomicU64::new(0),
        took: AtomicU64::new(0),
    };
    let mut watch = Vec::new(alloc);
    for number in 0..WATCHERS {
        watch.push(Waiting {
            keeper: number == 0,
            told: 0,
            done: &done,
        })?;
    }
    let words = ["ppm", "run", "--processors=2", "--idle=park", "--looks=100"];
    let shown = call(&rt, alloc, &words, LONG_AND_SHORT, &mut watch)?;
    assert_eq!(&rt; done.parked.load(Ordering::SeqCst), 1);
    assert_eq!(&rt; done.took.load(Ordering::SeqCst), 1);
    assert_eq!(&rt; shown.status, Status::Ended);
    assert_eq!(&rt; shown.out.as_slice(), b"a 4000\nb 7\n".as_slice());
    Ok(())
}

/// Soft faults of processor 1, of the given number, from its third act on each third one. Whenever it is woken it
/// meets one of them, loads where it stood, and parks again, until none is left.
fn soft_faults(alloc: Global, count: u64) -> Result<String, Fail> {
    let mut plan = String::new(alloc);
    for number in 0..count {
        let ahead = if number == 0 { "" } else { "," };
        let act = number.saturating_mul(3).saturating_add(2);
        plan.push_str(&format!(in alloc; "{ahead}1@{act}s")?)?;
    }
    Ok(plan)
}

#[test]
fn one_with_a_soft_fault_at_each_wake_sees_the_end(rt: HostRuntime) -> Result<(), Fail> {
    let alloc = rt.alloc();
    let mut silent = vec![in alloc; Silent; WATCHERS]?;
    let faults = soft_faults(alloc, 400)?;
    let words = [
        "ppm",
        "run",
        "--processors=2",
        "--idle=park",
        "--looks=1",
        "--faults",
        faults.as_str(),
    ];
    let fork =
        "array a[1]; array b[1]; proc f(mut x) { x[0] = 1; }\nproc main(mut a, mut b) { fork f(a) and f(b); }";
    let shown = call(&rt, alloc, &words, fork, &mut silent)?;
    assert_eq!(&rt; shown.status, Status::Ended);
    assert_eq!(&rt; shown.out.as_slice(), b"a 1\nb 1\n".as_slice());
    Ok(())
}
