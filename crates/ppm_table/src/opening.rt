//! How a table begins.
ghost use Rattle.std.specs.Prelude.{◌≡◌, ◌<◌, ◌+◌, []};
ghost use Rattle.std.specs.List.{sum};
ghost use Rattle.ppm_cells.specs.Cells.{word_count};
ghost use Rattle.ppm_cells.specs.Memory.{AreWordsOf};
ghost use Rattle.ppm_cells.specs.declared.shape.Shape.{Shape};
ghost use Rattle.ppm_code.specs.declared.code.CodeParts.{CodeParts};
ghost use Rattle.ppm_step.specs.Locals.{IsLocal, standing_of};
ghost use Rattle.ppm_step.specs.Standings.{IsLost};
ghost use Rattle.ppm_table.specs.Counting.{none_counted};
ghost use Rattle.ppm_table.specs.Run.{maker, padding, seated};
ghost use Rattle.ppm_widths.specs.Widths.{AreWidths};

use crate::act_counts::ActCounts;
use crate::padded::Padded;
use crate::processor::{Processor, Shared};
use crate::view::{Halves, Opening, View, Words};
use atomic_table::{Seat, Table};
use ppm_cells::Shape;
use ppm_code::Code;
use ppm_layout::Image;
use ppm_step::Local;
use ppm_widths::widths;
use ppm_words::{Items, NoMemory};
use std::alloc::Global;

/// The seat of the next processor, out of the maker's.
fn split(words: &Words, seat: &mut Seat<(), View>, number: u32) -> Seat<(), View>
    requires table { (seat.old.table_id ≡ words.now.shared.table_id) × (0 < words.now.shared.table_id.words) }
    requires mine { (seat.old.me ≡ (maker number, []))
        × (number < words.now.shared.key.shape.processors) }
    ensures table { (seat.new.table_id ≡ seat.old.table_id)
        × (result.table_id ≡ seat.old.table_id) }
    ensures views { (seat.new.me ≡ (maker (number + 1), [])) × (result.me ≡ (seated number [], [])) }
{
    words.shared.split_seat::<Halves>(seat)
}

fn shared_over(
    words: Words,
    shape: Shape,
    code: Code,
    lengths: Items<u32>,
    widths: Items<u8>,
    counted: bool,
) -> Shared
    requires key { (words.shared.key.shape ≡ shape) × (words.shared.key.code ≡ code) }
    requires opened { AreWordsOf shape words.shared.key.words }
    requires widths { AreWidths code widths }
    requires arrays { sum lengths ≡ shape.arrays }
    requires wide { words.shared.table_id.words ≡ padding + word_count shape }
    requires flat { words.shared.table_id.slots ≡ 0 }
    ensures { (result.words ≡ words) × (result.shape ≡ shape) × (result.code ≡ code)
        × (result.lengths ≡ lengths) × (result.counted ≡ counted) }
{
    Shared {
        words,
        shape,
        code,
        lengths,
        widths,
        counted,
    }
}

fn processor_at(own: u32, seat: Seat<(), View>) -> Processor
    requires { seat.me ≡ (seated own [], []) }
    ensures seat { result.seat ≡ seat }
    ensures own { result.local.own ≡ own }
    ensures none { result.counts ≡ none_counted }
    ensures lost { (s : Shape) (code : CodeParts) → standing_of s code result.local ≡ IsLost }
    ensures holds { (s : Shape) (code : CodeParts) → own < s.processors
        → IsLocal s code result.local }
{
    Processor {
        local: Local::lost(own),
        seat,
        counts: ActCounts::none(),
        apart: [0; 16],
    }
}

impl Shared {
    ghost use Rattle.std.specs.Prelude.{◌≡◌, IfOk, false};
    ghost use Rattle.ppm_table.specs.Shown.{AreNewOf, opening_of};

    /// The words of an image as a table, with the code, and the processors of its shape in their
    /// order, each lost. `Err` only where memory is refused.
    pub fn load(
        alloc: Global,
        image: Image,
        code: Code,
    ) -> Result<(Shared, Vec<Processor>), NoMemory>
        ensures opens { IfOk result (λ r. opening_of r.0
            ≡ record { shape = image.shape; code = code; words = image.words }) }
        ensures arrays { IfOk result (λ r. r.0.lengths ≡ image.lengths) }
        ensures processors { IfOk result (λ r. AreNewOf r.0 r.1.items) }
        ensures plain { IfOk result (λ r. r.0.counted ≡ false) }
    {
        Shared::load_to_count(alloc, image, code, false)
    }

    /// A table as by `load`, whose processors count their acts, or don't.
    pub fn load_to_count(
        alloc: Global,
        image: Image,
        code: Code,
        counted: bool,
    ) -> Result<(Shared, Vec<Processor>), NoMemory>
        ensures counted { IfOk result (λ r. r.0.counted ≡ counted) }
        ensures opens { IfOk result (λ r. opening_of r.0
            ≡ record { shape = image.shape; code = code; words = image.words }) }
        ensures arrays { IfOk result (λ r. r.0.lengths ≡ image.lengths) }
        ensures processors { IfOk result (λ r. AreNewOf r.0 r.1.items) }
    {
        let widths = widths(alloc, &code)?;
        let about = Opening {
            shape: image.shape,
            code,
            words: Padded::behind(image.words.into_vec())?,
        };
        let (table, mut maker) = Table::of_words(alloc, about.words.all(), &about)?;
        let Opening {
            shape,
            code,
            words: _,
        } = about;
        let shared = shared_over(table, shape, code, image.lengths, widths, counted);
        let mut processors = Vec::new(alloc);
        for own in 0..shape.processors {
            let seat = split(&shared.words, &mut maker, own);
            processors.push(processor_at(own, seat))?;
        }
        Ok((shared, processors))
    }
}
