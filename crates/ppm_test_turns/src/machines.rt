//! Machines over listings: alone, with faults, and two beside one another.
ghost use Rattle.std.specs.Prelude.{◌↔◌, IfSome, IsTrue};
ghost use Rattle.ppm_core.specs.Acts.{IsActAmong, IsTurnAmong};

use crate::listings::{FORK, FORKED, SUM, code_of, four_words};
use ppm_cells::{Ending, Finish, Shape};
use ppm_core::{Act, Machine, Next, Told, Turn, Why, done_is_done, turns_follow_on, turns_tell_on};
use ppm_layout::image;
use std::alloc::Global;
use std::test::Fail;

/// Each capsule after the first puts a register into its array that the first one has set and it
/// has not: the last of the eight that all capsules set to 0, then the first after them.
const HELD: &str = "ppm 1\nroot 0 0\nproc 0 slots 1 entry 0\n\
capsule 0 proc 0\nconst r7 5\nconst r8 6\nnext 1\n\
capsule 1 proc 0\nloadslot r0 0\nconst r1 2\nput r0 r1 r7 1\nnext 2\n\
capsule 2 proc 0\nloadslot r0 0\nconst r1 3\nput r0 r1 r8 1\nend\n";

/// A machine's sizes, and an act that comes in the place of a step: whose, at which turn, and what.
#[derive(Clone, Copy)]
struct Trial {
    processors: u32,
    by_entries: bool,
    processor: u32,
    at: u32,
    act: Act,
}

/// A machine for a listing and this array, with so many slots.
pub(crate) fn machine_of(
    alloc: Global,
    listing: &str,
    processors: u32,
    slots: u32,
    by_entries: bool,
) -> Result<Machine, Fail> {
    let code = code_of(alloc, listing)?;
    let input = four_words(alloc, FORKED)?;
    let mut shape = Shape::new(processors, 128, slots, 4).ok_or("within the limits")?;
    if by_entries {
        shape = shape.stealing();
    }
    let made = image(alloc, &code, &input, shape, 0).map_err(|_| "memory")?;
    Ok(Machine::load(alloc, made, code).map_err(|_| "memory")?)
}

/// A machine for the listing with one fork, with four slots.
fn fork_machine(alloc: Global, processors: u32, by_entries: bool) -> Result<Machine, Fail> {
    machine_of(alloc, FORK, processors, 4, by_entries)
}

/// Whether the victim of an act is there.
fn is_among(processors: u32, act: Act) -> bool
    ensures { IsTrue result ↔ IsActAmong processors act }
{
    match act {
        Act::Step { victim } => victim < processors,
        Act::Soft | Act::Hard | Act::Quit(_) => true,
    }
}

/// One turn, if there are such processors.
pub(crate) fn take_turn(machine: &mut Machine, processor: u32, act: Act) -> Option<Told> {
    let processors = machine.processors();
    if processor >= processors || !is_among(processors, act) || machine.turns() > 100_000 {
        return None;
    }
    Some(machine.turn(Turn { processor, act }))
}

/// Whether the processor and the victim of a turn are there.
fn is_turn_among(processors: u32, turn: &Turn) -> bool
    ensures { IsTrue result ↔ IsTurnAmong processors turn.now }
{
    turn.processor < processors && is_among(processors, turn.act)
}

/// The turns of a list, if there are such processors.
fn take_turns(machine: &mut Machine, turns: &[Turn]) -> bool {
    let processors = machine.processors();
    let all = turns.iter().all(|turn| is_turn_among(processors, turn));
    if !all || turns.len() > 1000 || machine.turns() > 100_000 {
        return false;
    }
    machine.run_along(turns);
    true
}

/// Processors in turn, until the finish word isn't 0; how many turns there were.
fn run(machine: &mut Machine, trial: Trial) -> u32 {
    let processors = machine.processors();
    for at in 0..3000u32 {
        if machine.finish_word() != 0 {
            return at;
        }
        if at == trial.at {
            let _told = take_turn(machine, trial.processor, trial.act);
        }
        let processor = at % processors;
        let victim = if processor == 0 { processors - 1 } else { 0 };
        let _told = take_turn(machine, processor, Act::Step { victim });
    }
    3000
}

/// Whether the trial comes to 1, 2, 7 and 4, by one fork that is taken once.
fn is_right(alloc: Global, trial: Trial) -> Result<bool, Fail> {
    let mut machine = fork_machine(alloc, trial.processors, trial.by_entries)?;
    run(&mut machine, trial);
    if machine.outcome() != Ending::With(Finish::Ended) || machine.arrays() != 1 {
        return Ok(false);
    }
    Ok(machine.array(0) == [1, 2, 7, 4].as_slice() && machine.forks() == 1 && machine.takes() == 1)
}

/// With no fault.
const ALONE: Trial = Trial {
    processors: 1,
    by_entries: false,
    processor: 0,
    at: 5000,
    act: Act::Soft,
};

#[test]
fn one_runs_both_branches(rt: HostRuntime) -> Result<(), Fail> {
    let alloc = rt.alloc();
    let mut machine = fork_machine(alloc, 1, false)?;
    assert_eq!(rt; machine.outcome(), Ending::NotYet);
    let turns = run(&mut machine, ALONE);
    assert_eq!(rt; machine.turns(), u64::from(turns));
    assert!(rt; machine.work() < machine.turns());
    assert_eq!(rt; machine.words().len(), 144);
    assert_eq!(rt; machine.shape().slots, 4);
    assert_eq!(rt; machine.code().parts().root, 0);
    Ok(())
}

/// Processor 0 by so many steps in a row at most, and by a turn where it makes none, until the
/// finish word isn't 0; how many steps were made in a row.
fn run_in_rows(machine: &mut Machine, most: u64) -> u64 {
    let mut in_rows = 0u64;
    for _ in 0..3000u32 {
        let many = machine.turns() > 100_000 || most > 1000;
        if machine.finish_word() != 0 || machine.processors() < 1 || many {
            return in_rows;
        }
        let made = machine.steps(0, most);
        if made == 0 {
            let _told = take_turn(machine, 0, Act::Step { victim: 0 });
        }
        in_rows = in_rows.saturating_add(made);
    }
    in_rows
}

#[test]
fn steps_in_a_row_are_turns(rt: HostRuntime) -> Result<(), Fail> {
    let alloc = rt.alloc();
    let mut turn_by_turn = fork_machine(alloc, 1, false)?;
    run(&mut turn_by_turn, ALONE);
    // In a row come all but the two loads by which the processor finds where it goes on. One by one
    // come 16 of the root's first capsule (a room counter, a slot, four words of the new block, nine
    // stores of the fork, and the restart word), 4 of each branch and 1 of the root's last capsule:
    // one step is never the first of a capsule, since its second comes at once with it, nor of a row
    // of work, which is made whole.
    let all = turn_by_turn.turns().saturating_sub(2);
    for (most, want) in [(1000, all), (1, 16 + 2 * 4 + 1), (0, 0)] {
        let mut machine = fork_machine(alloc, 1, false)?;
        let in_rows = run_in_rows(&mut machine, most);
        assert_eq!(rt; in_rows, want);
        assert!(rt; are_alike(&machine, &turn_by_turn));
    }
    Ok(())
}

/// Whether two machines have the same words and have counted the same.
fn are_alike(one: &Machine, other: &Machine) -> bool {
    one.words() == other.words()
        && one.turns() == other.turns()
        && one.work() == other.work()
        && one.forks() == other.forks()
        && one.takes() == other.takes()
}

#[test]
fn rows_of_any_length_are_turns(rt: HostRuntime) -> Result<(), Fail> {
    let alloc = rt.alloc();
    let rows = [
        (FORK, [1, 2, 7, 4]),
        (SUM, [11, 0, 11, 4]),
        (HELD, [0, 0, 0, 0]),
    ];
    for (listing, want) in rows {
        let mut turn_by_turn = machine_of(alloc, listing, 1, 4, false)?;
        run(&mut turn_by_turn, ALONE);
        assert_eq!(rt; turn_by_turn.outcome(), Ending::With(Finish::Ended));
        for most in [1, 2, 3, 4, 5, 7, 1000] {
            let mut machine = machine_of(alloc, listing, 1, 4, false)?;
            run_in_rows(&mut machine, most);
            assert!(rt; are_alike(&machine, &turn_by_turn), "{most}");
            assert_eq!(rt; machine.arrays(), 1, "{most}");
            if machine.arrays() == 1 {
                assert!(rt; machine.array(0) == want.as_slice(), "{most}");
            }
        }
    }
    Ok(())
}

#[test]
fn soft_faults_do_not_show(rt: HostRuntime) -> Result<(), Fail> {
    let alloc = rt.alloc();
    assert!(rt; is_right(alloc, ALONE)?);
    for at in 0..95u32 {
        let trial = Trial { at, ..ALONE };
        assert!(rt; is_right(alloc, trial)?);
    }
    Ok(())
}

#[test]
fn one_of_two_dies(rt: HostRuntime) -> Result<(), Fail> {
    let alloc = rt.alloc();
    for at in 0..160u32 {
        let trial = Trial {
            processors: 2,
            processor: at % 2,
            at,
            act: Act::Hard,
            ..ALONE
        };
        assert!(rt; is_right(alloc, trial)?);
        let closed = Trial {
            by_entries: true,
            ..trial
        };
        assert!(rt; is_right(alloc, closed)?);
    }
    Ok(())
}

#[test]
fn one_gives_up(rt: HostRuntime) -> Result<(), Fail> {
    let alloc = rt.alloc();
    let mut machine = fork_machine(alloc, 1, false)?;
    let trial = Trial {
        at: 20,
        act: Act::Quit(Why::Turns),
        ..ALONE
    };
    run(&mut machine, trial);
    let end = Finish::OutOfTurns { processor: 0 };
    assert_eq!(rt; machine.outcome(), Ending::With(end));
    Ok(())
}

#[test]
fn a_dead_one_is_done(rt: HostRuntime) -> Result<(), Fail> {
    let alloc = rt.alloc();
    let mut machine = fork_machine(alloc, 1, false)?;
    let told = take_turn(&mut machine, 0, Act::Hard).ok_or("a processor")?;
    assert_eq!(rt; told.next, Next::Done);
    let told = take_turn(&mut machine, 0, Act::Step { victim: 0 }).ok_or("a processor")?;
    assert_eq!(rt; told.event, None);
    assert_eq!(rt; machine.turns(), 2);
    Ok(())
}

#[test]
fn two_begin(rt: HostRuntime) -> Result<(), Fail> {
    let alloc = rt.alloc();
    let mut machine = fork_machine(alloc, 2, false)?;
    // Carry and restart word, and then the finish word.
    let first = Turn {
        processor: 0,
        act: Act::Step { victim: 1 },
    };
    let second = Turn {
        processor: 1,
        act: Act::Step { victim: 0 },
    };
    let turns = [first, second, first, second];
    assert!(rt; take_turns(&mut machine, &turns));
    assert!(rt; machine.processors() > 1);
    if machine.processors() > 1 {
        assert_eq!(rt; machine.next(0), Next::Look);
        assert_eq!(rt; machine.next(1), Next::Seek);
        assert!(rt; !machine.seeks_holder(1));
    }
    assert!(rt; take_turns(&mut machine, &[first, second]));
    if machine.processors() > 1 {
        assert_eq!(rt; machine.next(0), Next::Work);
        assert!(rt; machine.seeks_holder(1));
        assert!(rt; !machine.is_done(1));
    }
    assert_eq!(rt; machine.turns(), 6);
    Ok(())
}

#[test]
fn laws_are_called() {
    turns_follow_on();
    turns_tell_on();
    done_is_done();
}
