//! The texts of what words stand for.
ghost use Rattle.std.specs.Prelude.{◌≡◌, ◌++◌, OnOk};
ghost use Rattle.ppm_naming.specs.Values.{side_name as name_of_side, branch_text, taker_text};
ghost use Rattle.ppm_naming.specs.Values.{trap_name as name_of_trap, trapped_text, subject_text};
ghost use Rattle.ppm_naming.specs.Values.{restart_name as name_of_restart, restart_text};
ghost use Rattle.ppm_naming.specs.Values.{entry_text, holder_text, lead_text, finish_text};

use crate::numbers::{push_one, push_tag, push_two, push_word};
use ppm_cells::{Entry, Finish, Holder, LinkKind, Restart, RestartKind, Side};
use ppm_pieces::push_number;
use ppm_words::{NoMemory, Trap};

/// The name of a branch of a fork.
pub fn side_name(side: Side) -> &'static str
    ensures { result.now ≡ name_of_side side }
{
    match side {
        Side::Left => "left",
        Side::Right => "right",
    }
}

/// The name of a trap.
fn trap_name(trap: Trap) -> &'static str
    ensures { result.now ≡ name_of_trap trap }
{
    match trap {
        Trap::Overflow => "overflow",
        Trap::DivZero => "divzero",
        Trap::Index => "index",
        Trap::Split => "split",
    }
}

/// The name of a kind of restart words.
pub fn restart_name(kind: RestartKind) -> &'static str
    ensures { result.now ≡ name_of_restart kind }
{
    match kind {
        RestartKind::Run { .. } => "Run",
        RestartKind::Bump { .. } => "Bump",
        RestartKind::Push1 { .. } => "Push1",
        RestartKind::Push2 { .. } => "Push2",
        RestartKind::Unwind { .. } => "Unwind",
        RestartKind::Arrive { .. } => "Arrive",
        RestartKind::Join { .. } => "Join",
        RestartKind::Pop1 => "Pop1",
        RestartKind::Pop2 { .. } => "Pop2",
        RestartKind::Seek => "Seek",
        RestartKind::Steal { .. } => "Steal",
        RestartKind::Check { .. } => "Check",
        RestartKind::Take { .. } => "Take",
        RestartKind::Take2 { .. } => "Take2",
    }
}

/// Appends a fork block and a branch of it, in brackets.
fn push_branch(text: &mut Vec<u8>, block: u32, side: Side) -> Result<(), NoMemory>
    ensures { OnOk result (text.new.items ≡ text.old.items ++ branch_text block side) }
{
    text.push(b'(')?;
    push_number(text, u64::from(block))?;
    text.push(b',')?;
    push_word(text, side_name(side))?;
    text.push(b')')?;
    Ok(())
}

/// Appends a trap and its line, in brackets.
fn push_trap(text: &mut Vec<u8>, trap: Trap, line: u32) -> Result<(), NoMemory>
    ensures { OnOk result (text.new.items ≡ text.old.items ++ trapped_text trap line) }
{
    text.push(b'(')?;
    push_word(text, trap_name(trap))?;
    text.push(b',')?;
    push_number(text, u64::from(line))?;
    text.push(b')')?;
    Ok(())
}

/// Appends what a restart word goes on with, in brackets.
fn push_subject(text: &mut Vec<u8>, kind: RestartKind) -> Result<(), NoMemory>
    ensures { OnOk result (text.new.items ≡ text.old.items ++ subject_text kind) }
{
    match kind {
        RestartKind::Run { frame, copy } => push_two(text, frame, ",", copy),
        RestartKind::Bump { block }
        | RestartKind::Push1 { block }
        | RestartKind::Push2 { block }
        | RestartKind::Unwind { frame: block }
        | RestartKind::Pop2 { block }
        | RestartKind::Take2 { victim: block } => push_one(text, block),
        RestartKind::Arrive { block, side } | RestartKind::Join { block, side } => {
            push_branch(text, block, side)
        }
        RestartKind::Pop1 | RestartKind::Seek => Ok(()),
        RestartKind::Steal { victim, slot } | RestartKind::Check { victim, slot } => {
            push_two(text, victim, "/", slot)
        }
        RestartKind::Take { victim, dead } => push_two(text, victim, ",p", dead),
    }
}

/// Appends a restart word.
pub(crate) fn push_restart(text: &mut Vec<u8>, restart: Restart) -> Result<(), NoMemory>
    ensures { OnOk result (text.new.items ≡ text.old.items ++ restart_text restart) }
{
    push_word(text, restart_name(restart.kind))?;
    push_subject(text, restart.kind)?;
    text.push(b'^')?;
    push_number(text, u64::from(restart.bottom))?;
    Ok(())
}

/// Appends the place that took an entry, and whether it took it out of a local one.
fn push_taker(text: &mut Vec<u8>, taker: u32) -> Result<(), NoMemory>
    ensures { OnOk result (text.new.items ≡ text.old.items ++ taker_text taker) }
{
    if taker < 64 {
        return push_one(text, taker);
    }
    text.push(b'(')?;
    push_number(text, u64::from(taker % 64))?;
    push_word(text, ",local)")?;
    Ok(())
}

/// Appends an entry.
pub(crate) fn push_entry(text: &mut Vec<u8>, entry: Entry) -> Result<(), NoMemory>
    ensures { OnOk result (text.new.items ≡ text.old.items ++ entry_text entry) }
{
    match entry {
        Entry::Empty { tag } => {
            push_word(text, "Empty")?;
            push_tag(text, tag)
        }
        Entry::Local { tag, block } => {
            push_word(text, "Local")?;
            push_one(text, block)?;
            push_tag(text, tag)
        }
        Entry::Job { tag, block } => {
            push_word(text, "Job")?;
            push_one(text, block)?;
            push_tag(text, tag)
        }
        Entry::Taken { tag, taker } => {
            push_word(text, "Taken")?;
            push_taker(text, taker)?;
            push_tag(text, tag)
        }
    }
}

/// Appends who carries a place.
pub(crate) fn push_holder(text: &mut Vec<u8>, holder: Holder) -> Result<(), NoMemory>
    ensures { OnOk result (text.new.items ≡ text.old.items ++ holder_text holder) }
{
    text.push(b'p')?;
    push_number(text, u64::from(holder.processor))?;
    push_tag(text, holder.tag)
}

/// Appends where a link leads.
pub(crate) fn push_lead(text: &mut Vec<u8>, kind: LinkKind) -> Result<(), NoMemory>
    ensures { OnOk result (text.new.items ≡ text.old.items ++ lead_text kind) }
{
    match kind {
        LinkKind::Root => push_word(text, "root"),
        LinkKind::Call { frame, copy } => {
            push_word(text, "call")?;
            push_two(text, frame, ",", copy)
        }
        LinkKind::Branch { side, block } => {
            push_word(text, side_name(side))?;
            push_one(text, block)
        }
        LinkKind::Fork { frame, copy } => {
            push_word(text, "fork")?;
            push_two(text, frame, ",", copy)
        }
    }
}

/// Appends how a run or a strand ended.
pub(crate) fn push_finish(text: &mut Vec<u8>, finish: Finish) -> Result<(), NoMemory>
    ensures { OnOk result (text.new.items ≡ text.old.items ++ finish_text finish) }
{
    match finish {
        Finish::Unset => push_word(text, "none"),
        Finish::Ended => push_word(text, "ended"),
        Finish::Stopped => push_word(text, "stopped"),
        Finish::Trapped { trap, line } => {
            push_word(text, "trap")?;
            push_trap(text, trap, line)
        }
        Finish::OutOfTurns { processor } => {
            push_word(text, "turns")?;
            push_one(text, processor)
        }
        Finish::OutOfRoom { place } => {
            push_word(text, "room")?;
            push_one(text, place)
        }
        Finish::Broken { place } => {
            push_word(text, "broken")?;
            push_one(text, place)
        }
    }
}
