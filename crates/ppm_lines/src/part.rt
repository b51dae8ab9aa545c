//! Which word a turn is about.
ghost use Rattle.std.specs.Prelude.{◌≡◌, ◌<◌, ◌≤◌, ◌+◌, ◌^◌};
ghost use Rattle.ppm_lines.specs.Parts.{frame_part as frame_part_at, fork_part as fork_part_at};
ghost use Rattle.ppm_lines.specs.Parts.{in_frame as frame_at, in_frames as frames_at};
ghost use Rattle.ppm_lines.specs.Parts.{in_block as block_at, in_fork as fork_at, linked as linked_to};
ghost use Rattle.ppm_lines.specs.Parts.{by_link as link_by, is_within as within, in_unwound as unwound_at};
ghost use Rattle.ppm_lines.specs.Parts.{new_at as new_by, in_run as run_at, by_forker as forker_at};
ghost use Rattle.ppm_lines.specs.Parts.{in_forked as forked_at, in_built as built_at, part_in as in_row};

use crate::scene::Scene;
use ppm_cells::{Cell, Link, LinkKind, RestartKind};

/// A word of a frame.
#[derive(Clone, Copy, Debug, PartialEq, Eq)]
pub enum FramePart {
    FrameLink,
    Outcome,
    FirstHeader,
    SecondHeader,
    GivenValue,
    Target,
    /// From 0.
    Slot(u32),
}

/// A word of a fork block, before its frames.
#[derive(Clone, Copy, Debug, PartialEq, Eq)]
pub enum ForkPart {
    ForkLink,
    Order,
    LeftOutcome,
    RightOutcome,
    RightOffset,
}

/// Which word a turn is about. Frames, blocks and other words are addresses.
#[derive(Clone, Copy, Debug, PartialEq, Eq)]
pub enum Part {
    /// None: the processor is done.
    NoWord,
    /// The holder word of a victim whom no turn names.
    SomeHolder,
    /// A cell that is none of a pool.
    OfMachine(Cell),
    InFrame { frame: u32, part: FramePart },
    InFork { block: u32, part: ForkPart },
    /// The link of the block of a call.
    InCall { block: u32 },
    /// A word from the room counter on, and how far from it.
    New { block: u32, offset: u32 },
    /// The link of a block that a closed place had built.
    LinkAt { at: u32 },
    /// Another word of a pool.
    Elsewhere { at: u32 },
}

/// The word of a frame this far from its first one.
pub(crate) fn frame_part(offset: u32) -> FramePart
    ensures { result ≡ frame_part_at offset }
{
    match offset {
        0 => FramePart::FrameLink,
        1 => FramePart::Outcome,
        2 => FramePart::FirstHeader,
        3 => FramePart::SecondHeader,
        4 => FramePart::GivenValue,
        5 => FramePart::Target,
        _ => FramePart::Slot(offset - 6),
    }
}

/// The word of a fork block this far from its first one, before its frames.
pub(crate) fn fork_part(offset: u32) -> ForkPart
    ensures { result ≡ fork_part_at offset }
{
    match offset {
        0 => ForkPart::ForkLink,
        1 => ForkPart::Order,
        2 => ForkPart::LeftOutcome,
        3 => ForkPart::RightOutcome,
        _ => ForkPart::RightOffset,
    }
}

/// A word of a frame that begins there.
fn in_frame(frame: u32, at: u32) -> Part
    ensures { result ≡ frame_at frame at }
{
    if at < frame {
        return Part::Elsewhere { at };
    }
    Part::InFrame {
        frame,
        part: frame_part(at - frame),
    }
}

/// A word of the frames of a fork block, this far from its first one.
fn in_frames(block: u32, offset: u64, far: u32) -> Part
    requires frames { 5 ≤ far }
    requires fits { block + far < 2 ^ 32 }
    ensures { result ≡ frames_at block offset far }
{
    if u64::from(far) < offset {
        return Part::InFrame {
            frame: block + 5,
            part: frame_part(far - 5),
        };
    }
    let offset = offset as u32;
    Part::InFrame {
        frame: block + offset,
        part: frame_part(far - offset),
    }
}

/// A word of a fork block, this far from its first one.
fn in_block(scene: &Scene, block: u32, far: u32) -> Part
    requires { block + far < 2 ^ 32 }
    ensures { result ≡ block_at scene.now block far }
{
    if far < 5 {
        return Part::InFork {
            block,
            part: fork_part(far),
        };
    }
    in_frames(block, scene.word_at(u64::from(block) + 4), far)
}

/// A word of a fork block.
fn in_fork(scene: &Scene, block: u32, at: u32) -> Part
    ensures { result ≡ fork_at scene.now block at }
{
    if at < block {
        return Part::Elsewhere { at };
    }
    in_block(scene, block, at - block)
}

/// A word of what a link names.
fn by_link(scene: &Scene, at: u32, link: LinkKind) -> Part
    ensures { result ≡ link_by scene.now at link }
{
    match link {
        LinkKind::Root | LinkKind::Fork { .. } => Part::Elsewhere { at },
        LinkKind::Call { frame, .. } => in_frame(frame, at),
        LinkKind::Branch { block, .. } => in_fork(scene, block, at),
    }
}

/// A word of what a link names, where it is one.
fn linked(scene: &Scene, at: u32, link: Option<Link>) -> Part
    ensures { result ≡ linked_to scene.now at link }
{
    match link {
        None => Part::Elsewhere { at },
        Some(link) => by_link(scene, at, link.kind),
    }
}

/// Whether an address is one of so many from this one on.
fn is_within(from: u32, size: u64, at: u32) -> bool
    requires { size < 2 ^ 34 }
    ensures { result ≡ within from size at }
{
    from <= at && u64::from(at) < u64::from(from) + size
}

/// A word of the row of Unwind.
fn in_unwound(scene: &Scene, frame: u32, at: u32) -> Part
    ensures { result ≡ unwound_at scene.now frame at }
{
    if is_within(frame, scene.size_of(frame), at) {
        return in_frame(frame, at);
    }
    linked(scene, at, scene.link_at(frame))
}

/// A word from the room counter on.
fn new_at(counter: u64, at: u32) -> Part
    ensures { result ≡ new_by counter at }
{
    if u64::from(at) < counter {
        return Part::Elsewhere { at };
    }
    let block = counter as u32;
    Part::New {
        block,
        offset: at - block,
    }
}

/// A word of the row of Run.
fn in_run(scene: &Scene, place: u32, frame: u32, at: u32) -> Part
    requires { place < scene.now.shape.processors }
    ensures { result ≡ run_at scene.now place frame at }
{
    if is_within(frame, scene.size_of(frame), at) {
        return in_frame(frame, at);
    }
    let counter = scene.shape().address(Cell::RoomCounter { place });
    new_at(scene.word_at(u64::from(counter)), at)
}

/// A word of the frame that forked.
fn by_forker(at: u32, link: LinkKind) -> Part
    ensures { result ≡ forker_at at link }
{
    match link {
        LinkKind::Root | LinkKind::Call { .. } | LinkKind::Branch { .. } => Part::Elsewhere { at },
        LinkKind::Fork { frame, .. } => in_frame(frame, at),
    }
}

/// A word of the rows of a fork block.
fn in_forked(scene: &Scene, block: u32, at: u32, link: Option<Link>) -> Part
    ensures { result ≡ forked_at scene.now block at link }
{
    let Some(link) = link else {
        return Part::Elsewhere { at };
    };
    if is_within(block, u64::from(link.size), at) {
        return in_fork(scene, block, at);
    }
    by_forker(at, link.kind)
}

/// The link of a block that is built.
fn in_built(scene: &Scene, block: u32) -> Part
    ensures { result ≡ built_at scene.now block }
{
    if scene.is_fork_block(block) {
        return Part::InFork {
            block,
            part: ForkPart::ForkLink,
        };
    }
    Part::InCall { block }
}

/// A word of a pool, by the kind of the restart word.
pub(crate) fn part_in(scene: &Scene, place: u32, at: u32, kind: RestartKind) -> Part
    requires { place < scene.now.shape.processors }
    ensures { result ≡ in_row scene.now place at kind }
{
    match kind {
        RestartKind::Run { frame, .. } => in_run(scene, place, frame, at),
        RestartKind::Bump { block } => in_built(scene, block),
        RestartKind::Unwind { frame } => in_unwound(scene, frame, at),
        RestartKind::Push1 { block }
        | RestartKind::Push2 { block }
        | RestartKind::Arrive { block, .. }
        | RestartKind::Join { block, .. }
        | RestartKind::Pop2 { block } => in_forked(scene, block, at, scene.link_at(block)),
        RestartKind::Pop1
        | RestartKind::Seek
        | RestartKind::Steal { .. }
        | RestartKind::Check { .. }
        | RestartKind::Take { .. }
        | RestartKind::Take2 { .. } => Part::Elsewhere { at },
    }
}
