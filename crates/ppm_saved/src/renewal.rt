//! What fresh processors find.
ghost use Rattle.std.specs.Prelude.{◌≡◌, ◌<◌, ◌+◌, ◌^◌, ℕ, List, IfSome};
ghost use Rattle.ppm_cells.specs.Cells.{IsAddressable};
ghost use Rattle.ppm_cells.specs.Finish.{finish_of};
ghost use Rattle.ppm_cells.specs.Holder.{holder_word, holder_of, IsHolder};
ghost use Rattle.ppm_cells.specs.Memory.{read, write, AreWordsOf};
ghost use Rattle.ppm_cells.specs.declared.cell.Cell.TheVariants.{FinishWord};
ghost use Rattle.ppm_saved.specs.Renewal.{tag_behind, holder_behind, finish_behind};
ghost use Rattle.ppm_saved.specs.Renewal.{AreRenewedBelow, AreRenewed, IsRenewalOf};

use crate::names::Names;
use crate::saved::Saved;
use ppm_cells::{Cell, Finish, Holder, Shape};
use ppm_code::Code;
use ppm_layout::Image;
use ppm_words::Items;

/// What fresh processors begin with: the words, the code and the arrays.
#[derive(Debug, Drop)]
pub struct Renewed {
    pub image: Image,
    pub code: Code,
    pub names: Names,
}

/// The tag after that of a holder; after the last one comes 0.
fn next_tag(holder: Option<Holder>) -> u64
    requires { IfSome holder IsHolder }
    ensures value { result ≡ tag_behind holder }
    ensures bound { result < 2 ^ 58 }
{
    match holder {
        None => 0,
        Some(holder) => if holder.tag == 0x3ff_ffff_ffff_ffff {
            0
        } else {
            holder.tag + 1
        },
    }
}

/// The holder word of a place for fresh processors.
fn next_holder(place: u32, word: u64) -> u64
    requires { place < 64 }
    ensures { result ≡ holder_word (holder_behind place (holder_of word)) }
{
    let tag = next_tag(Holder::unpack(word));
    let holder = Holder {
        tag,
        processor: place,
    };
    holder.pack()
}

/// The finish word for fresh processors.
fn next_finish(word: u64) -> u64
    ensures { result ≡ finish_behind (finish_of word) word }
{
    match Finish::unpack(word) {
        Some(Finish::OutOfTurns { .. }) => 0,
        Some(Finish::Stopped) => 0,
        Some(Finish::Unset) => word,
        Some(Finish::Ended) => word,
        Some(Finish::Trapped { .. }) => word,
        Some(Finish::OutOfRoom { .. }) => word,
        Some(Finish::Broken { .. }) => word,
        None => word,
    }
}

/// The word in a cell.
fn get(words: &Vec<u64>, shape: &Shape, cell: Cell) -> u64
    requires fit { AreWordsOf shape.now words.now.items }
    requires there { IsAddressable shape.now cell }
    ensures { result ≡ read shape.now words.now.items cell }
{
    let at = shape.address(cell);
    words[at as usize]
}

/// Puts a word into a cell.
fn put(words: &mut Vec<u64>, shape: &Shape, cell: Cell, word: u64)
    requires fit { AreWordsOf shape.now words.old.items }
    requires there { IsAddressable shape.now cell }
    ensures { words.new.items ≡ write shape.now words.old.items cell word }
{
    let at = shape.address(cell);
    words[at as usize] = word;
}

/// Renews the words of a processor and its place, if those below are renewed already.
fn renew_place(words: &mut Vec<u64>, shape: &Shape, place: u32)
    requires fit { AreWordsOf shape.now words.old.items }
    requires place { place < shape.now.processors }
    ensures { (saved : List ℕ) → AreRenewedBelow shape.now saved place words.old.items
        → AreRenewedBelow shape.now saved (place + 1) words.new.items }
{
    let holder = next_holder(place, get(words, shape, Cell::HolderWord { place }));
    put(
        words,
        shape,
        Cell::CarryWord { processor: place },
        u64::from(place),
    );
    put(words, shape, Cell::DeadWord { processor: place }, 0);
    put(words, shape, Cell::HolderWord { place }, holder);
}

/// Renews all words.
pub(crate) fn renew_words(words: &mut Vec<u64>, shape: &Shape)
    requires { AreWordsOf shape.now words.old.items }
    ensures { AreRenewed shape.now words.old.items words.new.items }
{
    let finish = next_finish(get(words, shape, Cell::FinishWord));
    put(words, shape, Cell::FinishWord, finish);
    for place in 0..shape.processors {
        renew_place(words, shape, place);
    }
}

/// What fresh processors begin with, one at each place, where a state was saved; and with this
/// keeper, a processor of the shape. No memory is taken.
pub fn renew(saved: Saved, keeper: u32) -> Renewed
    requires { keeper < saved.shape.processors }
    ensures { IsRenewalOf saved keeper result }
{
    let shape = saved.shape;
    let mut words = saved.words.into_vec();
    renew_words(&mut words, &shape);
    Renewed {
        image: Image {
            shape,
            keeper,
            lengths: saved.lengths,
            words: Items::from_vec(words),
        },
        code: saved.code,
        names: saved.names,
    }
}
