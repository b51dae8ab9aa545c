//! What a turn does, and the values of its word.
ghost use Rattle.std.specs.Prelude.{◌≡◌, ◌++◌, OnOk};
ghost use Rattle.ppm_lines.specs.Texts.{frame_part_kind as frame_kind, fork_part_kind as fork_kind};
ghost use Rattle.ppm_lines.specs.Texts.{new_kind as kind_of_new, part_kind as kind_of_part};
ghost use Rattle.ppm_lines.specs.Texts.{is_link as is_link_by, stores_link as stores_link_by};
ghost use Rattle.ppm_lines.specs.Texts.{rest_stores_link as rest_by, before as before_step};
ghost use Rattle.ppm_lines.specs.Texts.{made_text as made_by, step_text as step_by};
ghost use Rattle.ppm_lines.specs.Texts.{is_message as is_message_by, pair_text, change_text};
ghost use Rattle.ppm_lines.specs.Texts.{exchange_text};
ghost use Rattle.ppm_lines.specs.Texts.{done_text, missed_text, worth_text};
ghost use Rattle.ppm_naming.specs.Values.{value_text};
ghost use Rattle.ppm_step.specs.Locals.{IsLocal, standing_of};
ghost use Rattle.ppm_step.specs.Stages.{IsUnderWay, rest_at};

use crate::name::push_word;
use crate::part::{ForkPart, FramePart, Part};
use crate::scene::Scene;
use ppm_cells::Shape;
use ppm_code::{Code, Step};
use ppm_naming::{WordKind, kind_of, push_value};
use ppm_step::{Act, Content, Local, Running, Stage, Stand, Want};
use ppm_words::NoMemory;
use std::alloc::Global;

/// How a word of a frame is written.
fn frame_part_kind(part: FramePart) -> WordKind
    ensures { result ≡ frame_kind part }
{
    match part {
        FramePart::FrameLink => WordKind::Link,
        FramePart::Outcome => WordKind::Finish,
        FramePart::FirstHeader | FramePart::SecondHeader | FramePart::Target => WordKind::Number,
        FramePart::GivenValue | FramePart::Slot(_) => WordKind::Signed,
    }
}

/// How a word of a fork block is written.
fn fork_part_kind(part: ForkPart) -> WordKind
    ensures { result ≡ fork_kind part }
{
    match part {
        ForkPart::ForkLink => WordKind::Link,
        ForkPart::Order => WordKind::Order,
        ForkPart::LeftOutcome | ForkPart::RightOutcome => WordKind::Finish,
        ForkPart::RightOffset => WordKind::Number,
    }
}

/// How a word of a new block is written.
fn new_kind(stores_link: bool) -> WordKind
    ensures { result ≡ kind_of_new stores_link }
{
    if stores_link {
        WordKind::Link
    } else {
        WordKind::Signed
    }
}

/// How the word of a turn is written.
pub(crate) fn part_kind(stores_link: bool, part: Part) -> WordKind
    ensures { result ≡ kind_of_part stores_link part }
{
    match part {
        Part::NoWord => WordKind::Number,
        Part::SomeHolder => WordKind::Holder,
        Part::OfMachine(cell) => kind_of(cell),
        Part::InFrame { part, .. } => frame_part_kind(part),
        Part::InFork { part, .. } => fork_part_kind(part),
        Part::New { .. } => new_kind(stores_link),
        Part::InCall { .. } | Part::LinkAt { .. } => WordKind::Link,
        Part::Elsewhere { .. } => WordKind::Signed,
    }
}

/// Whether it is a link.
fn is_link(content: Content) -> bool
    ensures { result ≡ is_link_by content }
{
    match content {
        Content::ALink(_) => true,
        Content::ANumber(_)
        | Content::ARestart(_)
        | Content::AnEntry(_)
        | Content::AHolder(_)
        | Content::AFinish(_)
        | Content::Unreadable => false,
    }
}

/// Whether a capsule stores a link.
fn rest_stores_link(shape: &Shape, code: &Code, running: &Running, registers: &[u64; 64]) -> bool
    requires { IsUnderWay shape.now code.now running.now registers.now }
    ensures { result
        ≡ rest_by (rest_at shape.now code.now running.now running.now.stage registers.now) }
{
    let _ = (shape.slots, registers.len());
    match running.stage {
        Stage::Before(step) => match step {
            Step::Loads(..) | Step::Stores(..) | Step::Asks(_) => false,
        },
        Stage::Ending(end, n) => match running.home.next_put(code, end, n) {
            Some(put) => is_link(put.content),
            None => false,
        },
        Stage::Filled => false,
    }
}

/// Whether a processor stores the link of a block that it builds.
pub(crate) fn stores_link(scene: &Scene, local: &Local) -> bool
    requires { IsLocal scene.now.shape scene.now.code local.now }
    ensures { result ≡ stores_link_by (standing_of scene.now.shape scene.now.code local.now) }
{
    match &local.stand {
        Stand::Runs(running) => {
            rest_stores_link(scene.shape(), scene.code(), running, &local.registers)
        }
        Stand::Lost
        | Stand::Placed { .. }
        | Stand::At { .. }
        | Stand::Within { .. }
        | Stand::Broken { .. }
        | Stand::Done => false,
    }
}

/// The word that a word step finds.
pub(crate) fn before(scene: &Scene, want: Want) -> u64
    ensures { result ≡ before_step scene.now want }
{
    match want {
        Want::Loads(at) | Want::Stores(at, _) | Want::Exchanges(at, _, _) => {
            scene.word_at(u64::from(at))
        }
        Want::Nothing => 0,
    }
}

/// What a word step does.
fn made_text(found: u64, want: Want) -> &'static str
    ensures { result.now ≡ made_by found want }
{
    match want {
        Want::Loads(_) => "load",
        Want::Stores(..) => "store",
        Want::Exchanges(_, old, _) => { if found == old { "swap" } else { "miss" } }
        Want::Nothing => "-",
    }
}

/// What a turn does.
pub(crate) fn step_text(found: u64, act: Act, want: Want) -> &'static str
    ensures { result.now ≡ step_by found act want }
{
    match act {
        Act::Step { .. } => made_text(found, want),
        Act::Soft => "soft",
        Act::Hard => "hard",
        Act::Quit(_) => "quit",
    }
}

/// Whether the word is a message.
fn is_message(kind: WordKind) -> bool
    ensures { result ≡ is_message_by kind }
{
    match kind {
        WordKind::Message => true,
        WordKind::Number
        | WordKind::Signed
        | WordKind::Order
        | WordKind::Restart
        | WordKind::Entry
        | WordKind::Holder
        | WordKind::Link
        | WordKind::Finish => false,
    }
}

/// Appends two values, with a sign between them.
fn push_pair(
    alloc: Global,
    text: &mut Vec<u8>,
    kind: WordKind,
    sign: u8,
    first: u64,
    second: u64,
) -> Result<(), NoMemory>
    ensures { OnOk result (text.new.items ≡ text.old.items ++ pair_text kind sign first second) }
{
    push_value(alloc, text, kind, first)?;
    text.push(sign)?;
    push_value(alloc, text, kind, second)
}

/// Appends a change.
fn push_change(
    alloc: Global,
    text: &mut Vec<u8>,
    kind: WordKind,
    old: u64,
    new: u64,
) -> Result<(), NoMemory>
    ensures { OnOk result (text.new.items ≡ text.old.items ++ change_text kind old new) }
{
    if is_message(kind) {
        return push_value(alloc, text, kind, new);
    }
    if old == new {
        return push_value(alloc, text, kind, new);
    }
    push_pair(alloc, text, kind, b'>', old, new)
}

/// Appends the values of an exchange.
fn push_exchange(
    alloc: Global,
    text: &mut Vec<u8>,
    kind: WordKind,
    found: u64,
    old: u64,
    new: u64,
) -> Result<(), NoMemory>
    ensures { OnOk result (text.new.items
        ≡ text.old.items ++ exchange_text kind found old new) }
{
    if found == old {
        return push_change(alloc, text, kind, found, new);
    }
    push_pair(alloc, text, kind, b'/', found, new)
}

/// Appends the values of a word step.
fn push_done(
    alloc: Global,
    text: &mut Vec<u8>,
    kind: WordKind,
    found: u64,
    want: Want,
) -> Result<(), NoMemory>
    ensures { OnOk result (text.new.items ≡ text.old.items ++ done_text kind found want) }
{
    match want {
        Want::Loads(_) => push_value(alloc, text, kind, found),
        Want::Stores(_, word) => push_change(alloc, text, kind, found, word),
        Want::Exchanges(_, old, new) => push_exchange(alloc, text, kind, found, old, new),
        Want::Nothing => push_word(text, "-"),
    }
}

/// Appends those of a word step that did not come.
fn push_missed(
    alloc: Global,
    text: &mut Vec<u8>,
    kind: WordKind,
    want: Want,
) -> Result<(), NoMemory>
    ensures { OnOk result (text.new.items ≡ text.old.items ++ missed_text kind want) }
{
    match want {
        Want::Loads(_) => push_word(text, "load"),
        Want::Stores(_, word) => {
            push_word(text, "store:")?;
            push_value(alloc, text, kind, word)
        }
        Want::Exchanges(_, _, new) => {
            push_word(text, "swap:")?;
            push_value(alloc, text, kind, new)
        }
        Want::Nothing => push_word(text, "-"),
    }
}

/// Appends those of a turn.
pub(crate) fn push_worth(
    alloc: Global,
    text: &mut Vec<u8>,
    kind: WordKind,
    found: u64,
    act: Act,
    want: Want,
) -> Result<(), NoMemory>
    ensures { OnOk result (text.new.items ≡ text.old.items ++ worth_text kind found act want) }
{
    match act {
        Act::Step { .. } => push_done(alloc, text, kind, found, want),
        Act::Soft | Act::Hard | Act::Quit(_) => push_missed(alloc, text, kind, want),
    }
}
