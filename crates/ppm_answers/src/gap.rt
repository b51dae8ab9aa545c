//! What keeps a capsule from being filled, and the line that tells it. All numbers count from 0.
ghost use Rattle.std.specs.Prelude.{◌≡◌, IfOk};
ghost use Rattle.ppm_answers.specs.Texts.{gap_text, hung_text, left_out_text, other_block_text};
ghost use Rattle.ppm_answers.specs.Texts.{unbuilt_text};

use crate::conflict::{Class, class_text_of};
use std::alloc::{AllocError, Global};

/// A word of the frame that a capsule may leave as it is, though it may store it after what it
/// found.
#[derive(Clone, Copy, Debug, PartialEq, Eq)]
pub struct LeftOut {
    /// The capsule.
    pub capsule: u32,
    /// Its instruction that may find another word on a second try.
    pub find: u32,
    /// The instruction after it that stores the word.
    pub write: u32,
    /// The end to which a path comes without.
    pub stop: u32,
    /// The class of the word.
    pub class: Class,
}

/// A word of the new block that some path of a capsule doesn't store.
#[derive(Clone, Copy, Debug, PartialEq, Eq)]
pub struct Unbuilt {
    /// The capsule.
    pub capsule: u32,
    /// Its instruction that stores the word.
    pub write: u32,
    /// The end to which a path comes without.
    pub stop: u32,
    /// The word, by its offset.
    pub word: u32,
}

/// Two ends of a capsule that build different blocks.
#[derive(Clone, Copy, Debug, PartialEq, Eq)]
pub struct OtherBlock {
    /// The capsule.
    pub capsule: u32,
    /// An end that builds a block.
    pub end: u32,
    /// An end to which a path comes, and which builds another one or none.
    pub stop: u32,
}

/// A trap of a capsule that hangs on what it found.
#[derive(Clone, Copy, Debug, PartialEq, Eq)]
pub struct Hung {
    /// The capsule.
    pub capsule: u32,
    /// Its instruction that may trap.
    pub trap: u32,
}

/// What keeps a capsule from being filled.
#[derive(Clone, Copy, Debug, PartialEq, Eq)]
pub enum Gap {
    /// A word of the frame that is left out.
    LeftOut(LeftOut),
    /// A word of the new block that isn't built.
    Unbuilt(Unbuilt),
    /// Ends that build different blocks.
    OtherBlock(OtherBlock),
    /// A trap that hangs on a find.
    Hung(Hung),
}

/// The line of a gap.
pub(crate) fn gap_text_of(alloc: Global, gap: Gap) -> Result<Vec<u8>, AllocError>
    ensures { IfOk result (λ text. text.items ≡ gap_text gap) }
{
    match gap {
        Gap::LeftOut(left_out) => left_out_text_of(alloc, left_out),
        Gap::Unbuilt(unbuilt) => unbuilt_text_of(alloc, unbuilt),
        Gap::OtherBlock(other) => other_block_text_of(alloc, other),
        Gap::Hung(hung) => hung_text_of(alloc, hung),
    }
}

/// The line of a word that is left out.
fn left_out_text_of(alloc: Global, left_out: LeftOut) -> Result<Vec<u8>, AllocError>
    ensures { IfOk result (λ text. text.items ≡ left_out_text left_out) }
{
    let class = class_text_of(alloc, left_out.class)?;
    let LeftOut {
        capsule,
        find,
        write,
        stop,
        ..
    } = left_out;
    let text = format!(in alloc;
        "left out: capsule {capsule} find {find} write {write} stop {stop} class {class}\n"
    )?;
    Ok(text.into_bytes())
}

/// The line of a word that isn't built.
fn unbuilt_text_of(alloc: Global, unbuilt: Unbuilt) -> Result<Vec<u8>, AllocError>
    ensures { IfOk result (λ text. text.items ≡ unbuilt_text unbuilt) }
{
    let Unbuilt {
        capsule,
        write,
        stop,
        word,
    } = unbuilt;
    let text = format!(in alloc;
        "unbuilt: capsule {capsule} write {write} stop {stop} class new {word}\n"
    )?;
    Ok(text.into_bytes())
}

/// The line of two ends that build different blocks.
fn other_block_text_of(alloc: Global, other: OtherBlock) -> Result<Vec<u8>, AllocError>
    ensures { IfOk result (λ text. text.items ≡ other_block_text other) }
{
    let OtherBlock { capsule, end, stop } = other;
    let text = format!(in alloc; "other block: capsule {capsule} end {end} stop {stop}\n")?;
    Ok(text.into_bytes())
}

/// The line of a trap that hangs on a find.
fn hung_text_of(alloc: Global, hung: Hung) -> Result<Vec<u8>, AllocError>
    ensures { IfOk result (λ text. text.items ≡ hung_text hung) }
{
    let Hung { capsule, trap } = hung;
    let text = format!(in alloc; "hung: capsule {capsule} trap {trap}\n")?;
    Ok(text.into_bytes())
}
