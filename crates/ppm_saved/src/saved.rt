//! Saved states.
ghost use Rattle.ppm_saved.specs.Saved.{IsWhole};

use crate::names::Names;
use ppm_cells::{Cell, Finish, Shape};
use ppm_code::Code;
use ppm_words::Items;

/// A state of a machine between two turns of a run, without what its processors knew.
#[derive(Debug, Drop)]
pub struct Saved {
    /// The machine's sizes.
    pub shape: Shape,
    /// Its arrays, in their order.
    pub names: Names,
    /// Their lengths again, apart.
    pub lengths: Items<u32>,
    pub code: Code,
    /// All words, by their addresses: as many as the shape has.
    pub words: Items<u64>,
    pub ghost whole: { IsWhole shape names lengths code words },
}

impl Saved {
    ghost use Rattle.std.specs.Prelude.{◌≡◌};
    ghost use Rattle.ppm_cells.specs.Finish.{finish_of};
    ghost use Rattle.ppm_cells.specs.Memory.{read};
    ghost use Rattle.ppm_cells.specs.declared.cell.Cell.TheVariants.{FinishWord};

    /// How the run had ended, `Unset` where it had not; `None` exactly where the saved finish word
    /// stands for nothing.
    pub fn finish(&self) -> Option<Finish>
        ensures { result ≡ finish_of (read self.now.shape self.now.words FinishWord) }
    {
        let at = self.shape.address(Cell::FinishWord);
        Finish::unpack(self.words.as_slice()[at as usize])
    }
}
