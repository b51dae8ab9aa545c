//! Cells and words of the machine as a sheet writes them: a name, and its fields after it.
ghost use Rattle.std.specs.Prelude.{◌<◌, ◌^◌, IfOk};
ghost use Rattle.ppm_cells.specs.Fields.{Fit};
ghost use Rattle.ppm_cells.specs.Link.{IsLink};
ghost use Rattle.ppm_cells.specs.Restart.{address_fields};
ghost use Rattle.ppm_cells.specs.Sides.{side_number};

use ppm_cells::{Cell, Entry, Finish, Holder, Link, LinkKind, Restart, RestartKind, Side};
use ppm_sheets::Fault;
use ppm_words::Trap;
use std::alloc::Global;

/// Addresses of blocks are below.
const BLOCKS: u32 = 268_435_456;

/// The parts of a cell or a word.
pub(crate) fn parts_of<'a>(alloc: Global, text: &'a str) -> Result<Vec<&'a str>, Fault> {
    let mut parts = Vec::new(alloc);
    for part in text.split_whitespace() {
        parts.push(part)?;
    }
    Ok(parts)
}

/// The part at a place, from 0; nothing where there is none.
fn part_at<'a>(parts: &[&'a str], at: usize) -> &'a str {
    match parts.get(at) {
        Some(part) => part,
        None => "",
    }
}

/// The number at a place, which is below a limit.
fn below(parts: &[&str], at: usize, limit: u32) -> Result<u32, Fault>
    ensures { IfOk result (λ number. number < limit) }
{
    if let Ok(number) = part_at(parts, at).parse::<u32>() {
        if number < limit {
            return Ok(number);
        }
    }
    Err(Fault::Line("a field that is no number, or too great"))
}

/// The tag at the first place after the name.
fn tag_of(parts: &[&str]) -> Result<u64, Fault>
    ensures { IfOk result (λ tag. tag < 2 ^ 34) }
{
    if let Ok(tag) = part_at(parts, 1).parse::<u64>() {
        if tag < 17_179_869_184 {
            return Ok(tag);
        }
    }
    Err(Fault::Line("a tag that is no number, or too great"))
}

/// The side at a place.
fn side_at(parts: &[&str], at: usize) -> Result<Side, Fault>
    ensures { IfOk result (λ side. side_number side < 2) }
{
    match part_at(parts, at) {
        "left" => Ok(Side::Left),
        "right" => Ok(Side::Right),
        _ => Err(Fault::Line("a side is left or right")),
    }
}

/// The cell of these parts: what is called so, and of which processor, place, slot or address.
pub(crate) fn cell_of(parts: &[&str]) -> Result<Cell, Fault> {
    match part_at(parts, 0) {
        "finish" => Ok(Cell::FinishWord),
        "block" => Ok(Cell::BlockWord {
            address: below(parts, 1, BLOCKS)?,
        }),
        "entry" => Ok(Cell::EntryWord {
            place: below(parts, 1, 64)?,
            slot: below(parts, 2, 65_536)?,
        }),
        name => numbered_cell(name, below(parts, 1, 64)?),
    }
}

/// The cell of a processor, or of a place.
fn numbered_cell(name: &str, number: u32) -> Result<Cell, Fault> {
    match name {
        "carry" => Ok(Cell::CarryWord { processor: number }),
        "dead" => Ok(Cell::DeadWord { processor: number }),
        "restart" => Ok(Cell::RestartWord { place: number }),
        "message" => Ok(Cell::MessageWord { place: number }),
        "holder" => Ok(Cell::HolderWord { place: number }),
        "top" => Ok(Cell::Top { place: number }),
        "room" => Ok(Cell::RoomCounter { place: number }),
        _ => Err(Fault::Line("no cell of this name")),
    }
}

/// The word of these parts: a number, or the name of a kind and its fields.
pub(crate) fn word_of(parts: &[&str]) -> Result<u64, Fault> {
    let name = part_at(parts, 0);
    if let Ok(number) = name.parse::<u64>() {
        return Ok(number);
    }
    match name {
        "holder" => holder_word(parts),
        "empty" | "local" | "job" | "taken" => entry_word(name, parts),
        "root" | "call" | "left" | "right" | "fork" => link_word(name, parts),
        "ended" | "trapped" | "turns" | "pool" | "broken" => finish_word(name, parts),
        _ => restart_word(name, parts),
    }
}

/// `holder TAG PROCESSOR`.
fn holder_word(parts: &[&str]) -> Result<u64, Fault> {
    let tag = tag_of(parts)?;
    let processor = below(parts, 2, 64)?;
    let holder = Holder { tag, processor };
    Ok(holder.pack())
}

/// `empty TAG`, `local TAG BLOCK`, `job TAG BLOCK` or `taken TAG TAKER`.
fn entry_word(name: &str, parts: &[&str]) -> Result<u64, Fault> {
    let tag = tag_of(parts)?;
    if name == "empty" {
        return Ok(Entry::Empty { tag }.pack());
    }
    if name == "taken" {
        let taker = below(parts, 2, 128)?;
        return Ok(Entry::Taken { tag, taker }.pack());
    }
    let block = below(parts, 2, BLOCKS)?;
    if name == "job" {
        return Ok(Entry::Job { tag, block }.pack());
    }
    Ok(Entry::Local { tag, block }.pack())
}

/// `root SIZE`, `left SIZE BLOCK`, `right SIZE BLOCK`, `call SIZE FRAME COPY` or
/// `fork SIZE FRAME COPY`.
fn link_word(name: &str, parts: &[&str]) -> Result<u64, Fault> {
    let size = below(parts, 1, BLOCKS)?;
    if name == "root" {
        return Ok(link_to(LinkKind::Root, size));
    }
    let frame = below(parts, 2, BLOCKS)?;
    if name == "left" || name == "right" {
        let side = side_at(parts, 0)?;
        return Ok(link_to(LinkKind::Branch { side, block: frame }, size));
    }
    let copy = below(parts, 3, 2)?;
    if name == "call" {
        return Ok(link_to(LinkKind::Call { frame, copy }, size));
    }
    Ok(link_to(LinkKind::Fork { frame, copy }, size))
}

/// The word of a link with this size.
fn link_to(kind: LinkKind, size: u32) -> u64
    requires { IsLink (record { kind = kind; size = size }) }
{
    Link { kind, size }.pack()
}

/// `ended`, `trapped TRAP LINE`, `turns PROCESSOR`, `pool PLACE` or `broken PLACE`.
fn finish_word(name: &str, parts: &[&str]) -> Result<u64, Fault> {
    if name == "ended" {
        return Ok(Finish::Ended.pack());
    }
    if name == "trapped" {
        return trap_word(part_at(parts, 1), below(parts, 2, 67_108_864)?);
    }
    let place = below(parts, 1, 64)?;
    if name == "turns" {
        return Ok(Finish::OutOfTurns { processor: place }.pack());
    }
    if name == "pool" {
        return Ok(Finish::OutOfRoom { place }.pack());
    }
    Ok(Finish::Broken { place }.pack())
}

/// The word of a trap in a line.
fn trap_word(name: &str, line: u32) -> Result<u64, Fault>
    requires { line < 2 ^ 26 }
{
    let trap = match name {
        "overflow" => Trap::Overflow,
        "divzero" => Trap::DivZero,
        "index" => Trap::Index,
        "split" => Trap::Split,
        _ => return Err(Fault::Line("no trap of this name")),
    };
    if line == 0 {
        return Err(Fault::Line("lines count from 1"));
    }
    Ok(Finish::Trapped { trap, line }.pack())
}

/// The name of a kind of restart words, the bottom, and the kind's fields.
fn restart_word(name: &str, parts: &[&str]) -> Result<u64, Fault> {
    let bottom = below(parts, 1, 134_217_728)?;
    let kind = match name {
        "pop1" => RestartKind::Pop1,
        "seek" => RestartKind::Seek,
        "steal" | "check" | "take" | "take2" => theft(name, parts)?,
        "run" | "arrive" | "join" => at_block(name, parts)?,
        _ => of_block(name, below(parts, 2, BLOCKS)?)?,
    };
    let restart = Restart { kind, bottom };
    Ok(restart.pack())
}

/// What goes on with a block, and is named by it alone.
fn of_block(name: &str, block: u32) -> Result<RestartKind, Fault>
    requires { block < 2 ^ 28 }
    ensures { IfOk result (λ kind. Fit (address_fields kind)) }
{
    match name {
        "bump" => Ok(RestartKind::Bump { block }),
        "push1" => Ok(RestartKind::Push1 { block }),
        "push2" => Ok(RestartKind::Push2 { block }),
        "unwind" => Ok(RestartKind::Unwind { frame: block }),
        "pop2" => Ok(RestartKind::Pop2 { block }),
        _ => Err(Fault::Line("no word of this name")),
    }
}

/// `run .. FRAME COPY`, `arrive .. BLOCK SIDE` or `join .. BLOCK SIDE`.
fn at_block(name: &str, parts: &[&str]) -> Result<RestartKind, Fault>
    ensures { IfOk result (λ kind. Fit (address_fields kind)) }
{
    let block = below(parts, 2, BLOCKS)?;
    if name == "run" {
        let copy = below(parts, 3, 2)?;
        return Ok(RestartKind::Run { frame: block, copy });
    }
    let side = side_at(parts, 3)?;
    if name == "arrive" {
        return Ok(RestartKind::Arrive { block, side });
    }
    Ok(RestartKind::Join { block, side })
}

/// `steal .. VICTIM SLOT`, `check .. VICTIM SLOT`, `take .. VICTIM DEAD` or `take2 .. VICTIM`.
fn theft(name: &str, parts: &[&str]) -> Result<RestartKind, Fault>
    ensures { IfOk result (λ kind. Fit (address_fields kind)) }
{
    let victim = below(parts, 2, 64)?;
    if name == "take2" {
        return Ok(RestartKind::Take2 { victim });
    }
    if name == "take" {
        let dead = below(parts, 3, 64)?;
        return Ok(RestartKind::Take { victim, dead });
    }
    let slot = below(parts, 3, 65_536)?;
    if name == "steal" {
        return Ok(RestartKind::Steal { victim, slot });
    }
    Ok(RestartKind::Check { victim, slot })
}
