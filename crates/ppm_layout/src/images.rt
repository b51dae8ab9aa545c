//! Images: the words with which a run of the machine begins.
ghost use Rattle.ppm_layout.specs.Sized.{IsSized};

use ppm_cells::Shape;
use ppm_words::Items;

/// The words of a machine before its first step.
#[derive(Debug, Drop)]
pub struct Image {
    /// The machine's sizes.
    pub shape: Shape,
    /// The processor, below the shape's, at whose place the root's frame is run: the one that no
    /// plan of faults may kill.
    pub keeper: u32,
    /// The lengths of the arrays, which lie one after the other and have the shape's array words in
    /// all.
    pub lengths: Items<u32>,
    /// All words, by their addresses: as many as the shape has.
    pub words: Items<u64>,
    pub ghost sized: { IsSized shape keeper lengths words },
}
