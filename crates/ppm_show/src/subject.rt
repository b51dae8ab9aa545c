//! What the words of lines are of.
ghost use Rattle.std.specs.Prelude.{◌≡◌, ◌++◌, ◌+◌, ◌<◌, ◌^◌, OnOk};
ghost use Rattle.ppm_cells.specs.Cells.{IsCell};
ghost use Rattle.ppm_show.specs.Subjects.{entry_subject, holder_subject, life_of};
ghost use Rattle.ppm_show.specs.Subjects.{life_text as text_of_life, link_subject, message_subject};
ghost use Rattle.ppm_show.specs.Subjects.{restart_subject, subject_of, used_text, waiting_text};

use crate::routes::right_lasts;
use ppm_cells::{Cell, Entry, Holder, Link, LinkKind, Restart, Side};
use ppm_lines::{Scene, push_branch, push_of_row, push_place, push_run};
use ppm_pieces::push_number;
use ppm_words::NoMemory;

/// Appends a word of letters and signs.
pub(crate) fn push_word(text: &mut Vec<u8>, word: &str) -> Result<(), NoMemory>
    ensures { OnOk result (text.new.items ≡ text.old.items ++ word.now) }
{
    text.extend_from_slice(word.as_bytes())?;
    Ok(())
}

/// Whether a processor is dead, by its dead word.
fn life_text(dead: u64) -> &'static str
    ensures { result.now ≡ text_of_life dead }
{
    match dead {
        0 => "alive",
        1 => "dead",
        _ => "?",
    }
}

/// Appends whether a processor is dead; `?` where there is no such processor.
fn push_life(text: &mut Vec<u8>, scene: &Scene, processor: u32) -> Result<(), NoMemory>
    ensures { OnOk result (text.new.items ≡ text.old.items ++ life_of scene.now processor) }
{
    let shape = scene.shape();
    if processor >= shape.processors {
        return push_word(text, "?");
    }
    let at = shape.address(Cell::DeadWord { processor });
    push_word(text, life_text(scene.word_at(u64::from(at))))
}

/// Appends the row of a place.
fn push_restart_subject(
    text: &mut Vec<u8>,
    scene: &Scene,
    restart: Option<Restart>,
) -> Result<(), NoMemory>
    ensures { OnOk result (text.new.items ≡ text.old.items ++ restart_subject scene.now restart) }
{
    match restart {
        None => push_word(text, "?"),
        Some(restart) => push_of_row(text, scene, restart.kind),
    }
}

/// Appends the right branch of a fork block, if it isn't over; 0 is no block.
fn push_waiting(text: &mut Vec<u8>, scene: &Scene, block: u32) -> Result<(), NoMemory>
    ensures { OnOk result (text.new.items ≡ text.old.items ++ waiting_text scene.now block) }
{
    if block == 0 {
        return push_word(text, "-");
    }
    if right_lasts(scene, block) {
        return push_branch(text, block, Side::Right);
    }
    push_word(text, "-")
}

/// Appends the branch that an entry is of, or the place that took it.
fn push_entry_subject(
    text: &mut Vec<u8>,
    scene: &Scene,
    entry: Option<Entry>,
) -> Result<(), NoMemory>
    ensures { OnOk result (text.new.items ≡ text.old.items ++ entry_subject scene.now entry) }
{
    let Some(entry) = entry else {
        return push_word(text, "?");
    };
    match entry {
        Entry::Empty { .. } => push_word(text, "-"),
        Entry::Local { block, .. } | Entry::Job { block, .. } => {
            push_waiting(text, scene, block)
        }
        Entry::Taken { taker, .. } => push_place(text, taker % 64),
    }
}

/// Appends whether the processor of a holder word is dead.
fn push_holder_subject(
    text: &mut Vec<u8>,
    scene: &Scene,
    holder: Option<Holder>,
) -> Result<(), NoMemory>
    ensures { OnOk result (text.new.items ≡ text.old.items ++ holder_subject scene.now holder) }
{
    match holder {
        None => push_word(text, "?"),
        Some(holder) => push_life(text, scene, holder.processor),
    }
}

/// Appends what a message is of.
fn push_message_subject(text: &mut Vec<u8>, scene: &Scene, word: u64) -> Result<(), NoMemory>
    ensures { OnOk result (text.new.items ≡ text.old.items ++ message_subject scene.now word) }
{
    if word == 0 {
        return push_word(text, "-");
    }
    if word < 0x4000_0000_0000_0000 {
        return push_holder_subject(text, scene, Holder::unpack(word));
    }
    push_entry_subject(text, scene, Entry::unpack(word))
}

/// Appends how many words of a pool are used.
fn push_used(text: &mut Vec<u8>, begun: u64, room: u64, counter: u64) -> Result<(), NoMemory>
    requires { begun + room < 2 ^ 64 }
    ensures { OnOk result (text.new.items ≡ text.old.items ++ used_text begun room counter) }
{
    if counter < begun || counter > begun + room {
        return push_word(text, "?");
    }
    push_number(text, counter - begun)?;
    text.push(b'/')?;
    push_number(text, room)?;
    Ok(())
}

/// Appends what the word of a cell is of.
pub(crate) fn push_subject(
    text: &mut Vec<u8>,
    scene: &Scene,
    word: u64,
    cell: Cell,
) -> Result<(), NoMemory>
    requires { IsCell scene.now.shape cell }
    ensures { OnOk result (text.new.items ≡ text.old.items ++ subject_of scene.now word cell) }
{
    match cell {
        Cell::CarryWord { processor } => push_life(text, scene, processor),
        Cell::RestartWord { .. } => { push_restart_subject(text, scene, Restart::unpack(word)) }
        Cell::MessageWord { .. } => push_message_subject(text, scene, word),
        Cell::HolderWord { .. } => push_holder_subject(text, scene, Holder::unpack(word)),
        Cell::RoomCounter { place } => {
            let shape = scene.shape();
            let begun = u64::from(shape.pool_at(place));
            push_used(text, begun, u64::from(shape.room), word)
        }
        Cell::EntryWord { .. } => push_entry_subject(text, scene, Entry::unpack(word)),
        Cell::FinishWord
        | Cell::DeadWord { .. }
        | Cell::Top { .. }
        | Cell::BlockWord { .. }
        | Cell::ArrayWord { .. } => push_word(text, "-"),
    }
}

/// Appends where the end of a block leads.
pub(crate) fn push_link_subject(
    text: &mut Vec<u8>,
    scene: &Scene,
    link: Option<Link>,
) -> Result<(), NoMemory>
    ensures { OnOk result (text.new.items ≡ text.old.items ++ link_subject scene.now link) }
{
    let Some(link) = link else {
        return push_word(text, "?");
    };
    match link.kind {
        LinkKind::Root => push_word(text, "-"),
        LinkKind::Call { frame, copy } | LinkKind::Fork { frame, copy } => {
            push_run(text, scene, frame, copy)
        }
        LinkKind::Branch { side, block } => push_branch(text, block, side),
    }
}
