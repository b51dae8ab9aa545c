//! Lines of frames and of fork blocks.
ghost use Rattle.std.specs.Prelude.{◌≡◌, ◌++◌, ◌<◌, ◌^◌, OnOk};
ghost use Rattle.ppm_lines.specs.Parts.{fork_part, frame_part};
ghost use Rattle.ppm_lines.specs.Scene.{word_at};
ghost use Rattle.ppm_lines.specs.Texts.{fork_part_kind, frame_part_kind};
ghost use Rattle.ppm_naming.specs.Values.{value_text};
ghost use Rattle.ppm_naming.specs.declared.kind.WordKind.TheVariants.{Link};
ghost use Rattle.ppm_show.specs.Lines.{block_line as line_of_block, block_name, inner_kind as kind_inside};
ghost use Rattle.ppm_show.specs.Lines.{inner_size as size_inside, inner_text, inner_texts, named_value};

use crate::subject::push_link_subject;
use ppm_lines::{Scene, fill, push_fork, push_frame};
use ppm_naming::{WordKind, push_value};
use ppm_words::NoMemory;
use std::alloc::Global;

/// How a word of a frame is written, this far from its first one.
fn frame_kind(offset: u64) -> WordKind
    ensures { result ≡ frame_part_kind (frame_part offset) }
{
    match offset {
        0 => WordKind::Link,
        1 => WordKind::Finish,
        2 | 3 | 5 => WordKind::Number,
        _ => WordKind::Signed,
    }
}

/// How a word of a fork block is.
fn fork_kind(offset: u64) -> WordKind
    ensures { result ≡ fork_part_kind (fork_part offset) }
{
    match offset {
        0 => WordKind::Link,
        1 => WordKind::Order,
        2 | 3 => WordKind::Finish,
        _ => WordKind::Number,
    }
}

/// How a word of a frame or of a fork block is.
fn inner_kind(is_fork: bool, offset: u64) -> WordKind
    ensures { result ≡ kind_inside is_fork offset }
{
    if is_fork {
        fork_kind(offset)
    } else {
        frame_kind(offset)
    }
}

/// How many words of it its line has.
fn inner_size(scene: &Scene, at: u32, is_fork: bool) -> u64
    ensures value { result ≡ size_inside scene.now at is_fork }
    ensures bound { result < 2 ^ 34 }
{
    if is_fork { 5 } else { scene.size_of(at) }
}

/// Appends a word of it.
fn push_inner(
    alloc: Global,
    text: &mut Vec<u8>,
    scene: &Scene,
    at: u32,
    is_fork: bool,
    offset: u64,
) -> Result<(), NoMemory>
    requires { offset < 2 ^ 34 }
    ensures { OnOk result (text.new.items ≡ text.old.items ++ inner_text scene.now at is_fork offset) }
{
    text.push(b' ')?;
    let word = scene.word_at(u64::from(at) + offset);
    push_value(alloc, text, inner_kind(is_fork, offset), word)
}

/// Appends all its words but the first.
fn push_inners(
    alloc: Global,
    text: &mut Vec<u8>,
    scene: &Scene,
    at: u32,
    is_fork: bool,
) -> Result<(), NoMemory>
    ensures { OnOk result (text.new.items ≡ text.old.items ++ inner_texts scene.now at is_fork) }
{
    for offset in 1..inner_size(scene, at, is_fork) {
        push_inner(alloc, text, scene, at, is_fork, offset)?;
    }
    Ok(())
}

/// Appends its name.
fn push_block_name(
    text: &mut Vec<u8>,
    scene: &Scene,
    at: u32,
    is_fork: bool,
) -> Result<(), NoMemory>
    ensures { OnOk result (text.new.items ≡ text.old.items ++ block_name scene.now at is_fork) }
{
    if is_fork {
        push_fork(text, at)
    } else {
        push_frame(text, scene, at)
    }
}

/// Appends its name and its link, each filled up.
fn push_block_head(
    alloc: Global,
    text: &mut Vec<u8>,
    scene: &Scene,
    at: u32,
    is_fork: bool,
) -> Result<(), NoMemory>
    ensures { OnOk result (text.new.items
        ≡ text.old.items ++ named_value (block_name scene.now at is_fork) (value_text Link (word_at scene.now at))) }
{
    let start = text.len();
    push_block_name(text, scene, at, is_fork)?;
    fill(text, start, 18)?;
    let start = text.len();
    push_value(alloc, text, WordKind::Link, scene.word_at(u64::from(at)))?;
    fill(text, start, 22)
}

/// Appends the line of the frame or fork block that begins there.
pub(crate) fn push_block_line(
    alloc: Global,
    text: &mut Vec<u8>,
    scene: &Scene,
    at: u32,
) -> Result<(), NoMemory>
    ensures { OnOk result (text.new.items ≡ text.old.items ++ line_of_block scene.now at) }
{
    let is_fork = scene.is_fork_block(at);
    push_block_head(alloc, text, scene, at, is_fork)?;
    push_link_subject(text, scene, scene.link_at(at))?;
    push_inners(alloc, text, scene, at, is_fork)?;
    text.push(b'\n')?;
    Ok(())
}
