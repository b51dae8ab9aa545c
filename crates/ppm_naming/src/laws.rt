//! What is true of the cells of all addresses, shown by a call that does nothing.
ghost use Rattle.ppm_cells.specs.declared.shape.Shape.{Shape};
ghost use Rattle.ppm_naming.specs.Correct.{AddressesName};

use ppm_cells::cells_are_the_words;

/// Each address below the count is that of the cell found there, and each cell is found at its
/// address.
pub fn addresses_name_cells()
    ensures law { (s : Shape) → AddressesName s }
{
    cells_are_the_words();
}
