//! What is true of every packing and every shape, shown by calls that do nothing.
ghost use Rattle.std.specs.Prelude.{◌≡◌, ◌≤◌};
ghost use Rattle.ppm_cells.specs.declared.shape.Shape.{Shape};
ghost use Rattle.ppm_cells.specs.Exact.{IsExact};
ghost use Rattle.ppm_cells.specs.Entry.{entry_word, IsEntry, entry_of};
ghost use Rattle.ppm_cells.specs.Finish.{finish_word, IsFinish, finish_of};
ghost use Rattle.ppm_cells.specs.Holder.{holder_word, IsHolder, holder_of};
ghost use Rattle.ppm_cells.specs.Link.{link_word, IsLink, link_of};
ghost use Rattle.ppm_cells.specs.Region.{region_word, IsRegion, region_of};
ghost use Rattle.ppm_cells.specs.Restart.{restart_word, IsRestart, restart_of};
ghost use Rattle.ppm_cells.specs.Cells.{word_count, CellsAreWithin, AddressesDiffer};
ghost use Rattle.ppm_cells.specs.Cells.{AddressesAreCells};
ghost use Rattle.ppm_cells.specs.Memory.{StoresAreRead, OthersStay, PackedStoresAreSeen};

/// A word stands for a value exactly where the value fits its fields and packs to that word: what
/// is packed comes back, and no word in which an unused bit is set stands for anything.
pub fn packings_are_exact()
    ensures restart { IsExact restart_word IsRestart restart_of }
    ensures entry { IsExact entry_word IsEntry entry_of }
    ensures holder { IsExact holder_word IsHolder holder_of }
    ensures link { IsExact link_word IsLink link_of }
    ensures finish { IsExact finish_word IsFinish finish_of }
    ensures region { IsExact region_word IsRegion region_of }
{}

/// Each cell lies within the words, cells of one address are one cell, and each address below the
/// count is that of a cell.
pub fn cells_are_the_words()
    ensures within { (s : Shape) → CellsAreWithin s }
    ensures differ { (s : Shape) → AddressesDiffer s }
    ensures all { (s : Shape) → AddressesAreCells s }
{}

/// No shape has more than 75,497,921 words, and one has as many.
pub fn greatest_word_count()
    ensures bound { (s : Shape) → word_count s ≤ 75497921 }
    ensures reached { (s : Shape) × (word_count s ≡ 75497921) }
{}

/// A cell has the word that was stored there last, and the other cells have theirs.
pub fn stores_change_one_cell()
    ensures read { (s : Shape) → StoresAreRead s }
    ensures others { (s : Shape) → OthersStay s }
{}

/// A value that is packed and stored is what its cell stands for.
pub fn stored_values_are_seen()
    ensures restart { (s : Shape) → PackedStoresAreSeen restart_word IsRestart restart_of s }
    ensures entry { (s : Shape) → PackedStoresAreSeen entry_word IsEntry entry_of s }
    ensures holder { (s : Shape) → PackedStoresAreSeen holder_word IsHolder holder_of s }
    ensures link { (s : Shape) → PackedStoresAreSeen link_word IsLink link_of s }
    ensures finish { (s : Shape) → PackedStoresAreSeen finish_word IsFinish finish_of s }
    ensures region { (s : Shape) → PackedStoresAreSeen region_word IsRegion region_of s }
{}
