//! Answers of the commands that read a case, by the words of a call.
use crate::answers::conflict_of;
use crate::said::{number_at, wide_at};
use crate::sweep_answers::sweep_answer_of;
use ppm_answers::{
    Answer, Counts, InputRefusal, Opener, Race, Touch, Touching, UntidyStore, Visit,
};
use ppm_sheets::{Call, Fault};
use ppm_words::{Name, Trap};
use std::alloc::Global;

/// The answer of this kind that the words after it give.
pub(crate) fn case_answer_of(alloc: Global, call: &Call, kind: &str) -> Result<Answer, Fault> {
    match kind {
        "after" => Ok(Answer::TrappedAfter(
            Trap::Split,
            number_at(call, 2)?,
            counts_of(call, 3, 4, 5)?,
        )),
        "sound" => Ok(Answer::Sound(counts_of(call, 2, 3, 4)?)),
        "capsules" => Ok(Answer::NotWithinCapsules(wide_at(call, 2)?)),
        "raced" => Ok(Answer::Raced(race_of(alloc, call)?)),
        "untidy" => Ok(Answer::Untidy(untidy_of(call)?)),
        "lines" => Ok(Answer::ConflictingAt(
            conflict_of(call)?,
            wide_at(call, 7)?,
            wide_at(call, 8)?,
        )),
        "input" => Ok(Answer::InputRefused(InputRefusal {
            number: number_at(call, 2)?,
            line: number_at(call, 3)?,
        })),
        kind => sweep_answer_of(alloc, call, kind),
    }
}

/// The counts that these words of the call give.
fn counts_of(
    call: &Call,
    capsules: usize,
    forks: usize,
    pool_words: usize,
) -> Result<Counts, Fault> {
    Ok(Counts {
        capsules: wide_at(call, capsules)?,
        forks: wide_at(call, forks)?,
        pool_words: wide_at(call, pool_words)?,
    })
}

/// `CAPSULE STORE LINE`.
fn untidy_of(call: &Call) -> Result<UntidyStore, Fault> {
    Ok(UntidyStore {
        capsule: number_at(call, 2)?,
        store: number_at(call, 3)?,
        line: wide_at(call, 4)?,
    })
}

/// `INDEX`, then `RUN CAPSULE` of the fork, `RUN CAPSULE TOUCH` on its left, and
/// `RUN CAPSULE AT LINE TOUCH` on its right, in the array `word`.
fn race_of(alloc: Global, call: &Call) -> Result<Race, Fault> {
    Ok(Race {
        array: Name::from_bytes(b"word".to_vec(alloc)?),
        index: wide_at(call, 2)?,
        fork: Opener {
            run: wide_at(call, 3)?,
            capsule: number_at(call, 4)?,
        },
        left: Visit {
            run: wide_at(call, 5)?,
            capsule: number_at(call, 6)?,
            touch: touch_at(call, 7)?,
        },
        right: Touching {
            run: wide_at(call, 8)?,
            capsule: number_at(call, 9)?,
            at: number_at(call, 10)?,
            line: wide_at(call, 11)?,
            touch: touch_at(call, 12)?,
        },
    })
}

/// The touch that a word of a call names.
fn touch_at(call: &Call, at: usize) -> Result<Touch, Fault> {
    let Some(touch) = call.words.get(at) else {
        return Err(Fault::Line("a touch is wanted"));
    };
    match touch.as_str() {
        "read" => Ok(Touch::Read),
        "write" => Ok(Touch::Write),
        _ => Err(Fault::Line("a touch is wanted")),
    }
}
