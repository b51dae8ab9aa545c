//! Answers that no small case of a command gives: their texts and statuses.
ghost use Rattle.std.specs.Prelude.{◌<◌};

use crate::case_answers::case_answer_of;
use crate::said::number_at;
use ppm_answers::{Answer, Class, Conflict, Pass, Refusal, Sums, Tally, deliver};
use ppm_ports::MemorySink;
use ppm_sheets::{Call, Fault, Shown};
use ppm_words::Trap;
use std::alloc::Global;

/// The bytes for which a sink has room.
const ROOM: usize = 1000;

/// `answer KIND ..`: an answer, delivered to sinks that take as many bytes at a time as the case says
/// and fail where it says so.
pub(crate) fn answer(alloc: Global, call: &Call) -> Result<Shown, Fault> {
    let answer = answer_of(alloc, call)?;
    let most = most_of(call);
    let mut out = sink(alloc, most, &call.outs)?;
    let mut err = sink(alloc, most, &call.errs)?;
    let status = deliver(alloc, &answer, &mut out, &mut err);
    Ok(Shown {
        out: out.bytes().to_vec(alloc)?,
        err: err.bytes().to_vec(alloc)?,
        status: status.number(),
        told: 0,
    })
}

/// The answer that the words after the first give.
fn answer_of(alloc: Global, call: &Call) -> Result<Answer, Fault> {
    let Some(kind) = call.words.get(1) else {
        return Err(Fault::Line("an answer is wanted"));
    };
    match kind.as_str() {
        "conflict" => Ok(Answer::Conflicting(conflict_of(call)?)),
        "summed" => Ok(Answer::Summed(sums_of(call)?)),
        "trapped" => Ok(Answer::TrappedWith(Trap::DivZero, number_at(call, 2)?, tally_of(call)?)),
        "room" => Ok(Answer::OutOfRoom(number_at(call, 2)?)),
        "ram" => Ok(Answer::SourceRefused(Refusal {
            pass: Pass::Ram,
            number: number_at(call, 2)?,
            place: number_at(call, 3)?,
        })),
        "within" => Ok(Answer::NotWithin(u64::from(number_at(call, 2)?))),
        kind => case_answer_of(alloc, call, kind),
    }
}

/// `CAPSULE READ WRITE CLASS`, and a number after the class of a slot or of a word of a new block.
pub(crate) fn conflict_of(call: &Call) -> Result<Conflict, Fault> {
    Ok(Conflict {
        capsule: number_at(call, 2)?,
        read_at: number_at(call, 3)?,
        write_at: number_at(call, 4)?,
        class: class_of(call)?,
    })
}

/// The class of words of a conflict.
fn class_of(call: &Call) -> Result<Class, Fault> {
    let Some(class) = call.words.get(5) else {
        return Err(Fault::Line("a class is wanted"));
    };
    match class.as_str() {
        "cur" => Ok(Class::Cur(number_at(call, 6)?)),
        "new" => Ok(Class::New(number_at(call, 6)?)),
        "value" => Ok(Class::Value),
        "room" => Ok(Class::Room),
        "array" => Ok(Class::Array),
        _ => Err(Fault::Line("a class is wanted")),
    }
}

/// `SIZE FORKS SUM LAST`, of which the last two may be negative.
fn sums_of(call: &Call) -> Result<Sums, Fault> {
    Ok(Sums {
        size: number_at(call, 2)?,
        forks: u64::from(number_at(call, 3)?),
        sum: signed_at(call, 4)?,
        last: signed_at(call, 5)?,
    })
}

/// `FORKS TAKES` after the line of the trap.
fn tally_of(call: &Call) -> Result<Tally, Fault> {
    Ok(Tally {
        forks: u64::from(number_at(call, 3)?),
        takes: u64::from(number_at(call, 4)?),
    })
}

/// The signed number that a word of a call gives; words count from 0.
fn signed_at(call: &Call, at: usize) -> Result<i64, Fault> {
    if let Some(word) = call.words.get(at) {
        if let Ok(number) = word.parse::<i64>() {
            return Ok(number);
        }
    }
    Err(Fault::Line("a number is wanted among the words"))
}

/// The most bytes that the sinks of a call take at a time, 1 at least.
fn most_of(call: &Call) -> usize
    ensures { 0 < result }
{
    if call.most == 0 {
        return 1;
    }
    call.most as usize
}

/// A sink whose calls fail as given.
fn sink(alloc: Global, most: usize, failing: &[u64]) -> Result<MemorySink, Fault>
    requires { 0 < most }
{
    let failing = failing.to_vec(alloc)?;
    match MemorySink::new(alloc, ROOM, most, failing) {
        Ok(sink) => Ok(sink),
        Err(_) => Err(Fault::NoMemory),
    }
}
