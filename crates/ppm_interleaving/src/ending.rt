//! What the end of a capsule opens, and how frames go on.
ghost use Rattle.std.specs.Prelude.{◌≡◌, ◌∷◌, [], ◌<◌, ◌^◌, ℕ, IfOk, OnOk};
ghost use Rattle.ppm_strands.specs.Capsule.{Memory};
ghost use Rattle.ppm_code.specs.declared.code.CodeParts.{CodeParts};
ghost use Rattle.ppm_code.specs.Sizes.{slots_of as slots_in_code};
ghost use Rattle.ppm_code.specs.Strands.{built as built_in, entry_of as entry_in_code, with_value};
ghost use Rattle.ppm_code.specs.declared.location.FrameWord.{FrameWord};
ghost use Rattle.ppm_filled.specs.Racing.{At, OwnWord, Of, beginning, block_in, exit_opens};
ghost use Rattle.ppm_filled.specs.Racing.{rejoining, framed, frame_words_in};
ghost use Rattle.ppm_racy.specs.Code.{plain_code};
ghost use Rattle.ppm_interleaving.specs.Owns.{ShowsOwn};
ghost use Rattle.ppm_interleaving.specs.Steps.{BeginsFrame, GoesOnAs, IsBegun, Opens, point_by};
ghost use Rattle.ppm_interleaving.specs.Steps.{result_of};
ghost use Rattle.ppm_interleaving.specs.declared.strand.Branches.TheVariants.{Callee, Both as BothBranches};

use crate::own::Own;
use crate::running::Running;
use crate::strand::{Branches, Strand, Waiting};
use ppm_code::{End, FrameWord};
use ppm_depth::Finish;
use ppm_racy::RacyCode;
use ppm_words::NoMemory;
use std::alloc::Global;

/// What an end opens.
#[derive(Debug, Drop)]
pub enum Opened {
    /// The strand's next capsule.
    GoesOn(Running),
    /// One branch, for which a frame waits.
    Calls(Running, Waiting),
    /// Two branches.
    Forks(Running, Running, Waiting),
    /// Nothing: the strand is over.
    Closes(Finish),
}

/// How many slots the frames of a procedure have; none where there is no procedure.
fn slots_of(code: &RacyCode, procedure: u32) -> u32
    ensures { result ≡ slots_in_code (plain_code code.now) procedure }
{
    match code.parts().procedures.as_slice().get(procedure as usize) {
        Some(found) => found.slots,
        None => 0,
    }
}

/// The capsule with which a procedure begins.
fn entry_of(code: &RacyCode, procedure: u32) -> u32
    ensures { result ≡ entry_in_code (plain_code code.now) procedure }
{
    match code.parts().procedures.as_slice().get(procedure as usize) {
        Some(found) => found.entry,
        None => 0,
    }
}

/// The strand of a procedure, in a frame with these words.
pub(crate) fn begun(alloc: Global, code: &RacyCode, procedure: u32, own: Own) -> Running
    ensures { IsBegun (entry_in_code (plain_code code.now) procedure) own result }
{
    Running::new(alloc, entry_of(code, procedure), own)
}

/// The strand of a procedure whose frame lies in the block that was built.
fn branch(
    alloc: Global,
    code: &RacyCode,
    procedure: u32,
    frame: usize,
    own: &Own,
) -> Result<Running, NoMemory>
    requires { frame < 2 ^ 40 }
    ensures { IfOk result (λ branch. (o : Memory OwnWord) → ShowsOwn own.now o
        → BeginsFrame branch (beginning (plain_code code.now) procedure
        (built_in (slots_in_code (plain_code code.now) procedure) frame (block_in o)))) }
{
    let built = own.built(alloc, slots_of(code, procedure), frame)?;
    Ok(begun(alloc, code, procedure, built))
}

/// A frame without the block that it has built.
fn without_block(alloc: Global, own: Own) -> Own
    ensures { (o : Memory OwnWord) → ShowsOwn own o → ShowsOwn result (framed (frame_words_in o)) }
{
    Own {
        slots: own.slots,
        value: own.value,
        block: Vec::new(alloc),
    }
}

/// What an end opens, where so many strands are there already.
pub(crate) fn open(
    alloc: Global,
    code: &RacyCode,
    own: Own,
    end: End,
    count: usize,
) -> Result<Opened, NoMemory>
    ensures { IfOk result (λ opened. (o : Memory OwnWord) → ShowsOwn own o
        → Opens code.now count opened (exit_opens (plain_code code.now) (Of end) o)) }
{
    match end {
        End::Next { capsule } => Ok(Opened::GoesOn(Running::new(
            alloc,
            capsule,
            without_block(alloc, own),
        ))),
        End::Finish => Ok(Opened::Closes(Finish::Gave(own.value))),
        End::Trap { trap, line } => Ok(Opened::Closes(Finish::Trapped(trap, line))),
        End::Call {
            procedure,
            capsule,
            to,
        } => {
            let callee = branch(alloc, code, procedure, 0, &own)?;
            let waiting = Waiting {
                own: without_block(alloc, own),
                capsule,
                first: count,
                branches: Branches::Callee { to },
            };
            Ok(Opened::Calls(callee, waiting))
        }
        End::Fork {
            left,
            right,
            capsule,
            left_to,
            right_to,
        } => {
            let left_frame = branch(alloc, code, left, 5, &own)?;
            let right_at = 11 + slots_of(code, left) as usize;
            let right_frame = branch(alloc, code, right, right_at, &own)?;
            let waiting = Waiting {
                own: without_block(alloc, own),
                capsule,
                first: count,
                branches: Branches::Both {
                    left_to,
                    to: right_to,
                },
            };
            Ok(Opened::Forks(left_frame, right_frame, waiting))
        }
    }
}

/// Puts a value into a slot of a frame, if one is named.
fn take_in(own: &mut Own, to: Option<u32>, value: u64) -> Result<(), NoMemory>
    ensures { OnOk result ((words : FrameWord → ℕ) → ShowsOwn own.old (framed words)
        → ShowsOwn own.new (framed (with_value to value words))) }
{
    match to {
        Some(slot) => own.put_frame(FrameWord::Slot(slot), value),
        None => Ok(()),
    }
}

/// How a frame goes on once its callee, or its right branch, is over.
pub(crate) fn go_on(
    alloc: Global,
    own: Own,
    capsule: u32,
    to: Option<u32>,
    finish: Finish,
) -> Result<Strand, NoMemory>
    ensures { IfOk result (λ strand. (code : CodeParts) (o : Memory OwnWord) → ShowsOwn own o
        → GoesOnAs strand (rejoining code o (At (point_by capsule (Callee to))) (result_of finish ∷ []))) }
{
    match finish {
        Finish::Trapped(..) => Ok(Strand::Tells(finish)),
        Finish::Gave(value) => {
            let mut own = without_block(alloc, own);
            take_in(&mut own, to, value)?;
            Ok(Strand::Running(Running::new(alloc, capsule, own)))
        }
    }
}

/// How a frame goes on once both its branches are over: a trap of the left one comes first.
pub(crate) fn join(
    alloc: Global,
    own: Own,
    capsule: u32,
    slots: (Option<u32>, Option<u32>),
    left: Finish,
    right: Finish,
) -> Result<Strand, NoMemory>
    ensures { IfOk result (λ strand. (code : CodeParts) (o : Memory OwnWord) → ShowsOwn own o
        → GoesOnAs strand (rejoining code o (At (point_by capsule (BothBranches slots.0 slots.1)))
        (result_of left ∷ result_of right ∷ []))) }
{
    match left {
        Finish::Trapped(..) => Ok(Strand::Tells(left)),
        Finish::Gave(value) => {
            let mut own = without_block(alloc, own);
            take_in(&mut own, slots.0, value)?;
            go_on(alloc, own, capsule, slots.1, right)
        }
    }
}
