//! One word step, as an atomic step of the table.
ghost use Rattle.std.specs.Prelude.{◌≡◌, ◌<◌, ◌≤◌, ◌+◌};
ghost use Rattle.ppm_cells.specs.Cells.{address, word_count};
ghost use Rattle.ppm_cells.specs.Finish.{finish_word};
ghost use Rattle.ppm_cells.specs.declared.cell.Cell.TheVariants.{DeadWord};
ghost use Rattle.ppm_step.specs.State.{quit_with};
ghost use Rattle.ppm_step.specs.declared.ask.Want.TheVariants as wants;
ghost use Rattle.ppm_step.specs.declared.turn.Act.TheVariants.{Soft, Hard, Quit};
ghost use Rattle.ppm_table.specs.declared.view.Deed.TheVariants.{Softened, Hardened, Quitted};
ghost use Rattle.ppm_step.specs.Standings.{WantIsWithin};
ghost use Rattle.std.specs.Prelude.{ℕ, true, false, ◌∷◌, []};
ghost use Rattle.ppm_ports.specs.Told.{AppendsList, KeepsFront, KeepsList};
ghost use Rattle.ppm_step.specs.Told.{place_of};
ghost use Rattle.ppm_table.specs.Run.{Does, IsToStep, IsFound, IsSeat, padding, seen, deed_by, stands_by};
ghost use Rattle.ppm_table.specs.Run.{deeds_in};
ghost use Rattle.ppm_table.specs.Telling.{Shows};
ghost use Rattle.ppm_table.specs.Events.{event_found};

use crate::view::{Exchanges, Hardens, Loads, Refuses, Softens, Spends, Stores, View, Words};
use atomic_table::Seat;
use ppm_cells::{Cell, Finish, Shape};
use ppm_ports::Watch;
use ppm_step::{Want, Why};
use ppm_words::Event;

/// The words in front of those of a run. Large blocks of memory begin at the third word of a cache
/// line, so the finish word, which is the first, is the last of a line.
pub(crate) const PADDING: usize = 5;

/// What a word step found, and whether its watcher took it.
#[derive(Clone, Copy, Debug, PartialEq, Eq)]
pub struct Found {
    pub word: u64,
    pub fine: bool,
}

/// Makes a word step: what a load found, and else 0.
#[inline(always)]
pub fn touch(words: &Words, shape: &Shape, seat: &mut Seat<(), View>, want: Want) -> u64
    requires table { seat.old.table_id ≡ words.now.shared.table_id }
    requires within { WantIsWithin words.now.shared.key.shape want }
    requires wide { padding + word_count words.now.shared.key.shape ≤ words.now.shared.table_id.words }
    requires steps { IsToStep words.now.shared.key seat.old.me want }
    ensures table { seat.new.table_id ≡ seat.old.table_id }
    ensures found { IsFound want result }
    ensures told { seat.new.me ≡ (seen seat.old.me.0 (deed_by want result), seat.old.me.1) }
{
    let _ = shape.slots;
    match want {
        Want::Loads(at) => words.shared.load::<Loads>(seat, PADDING + at as usize),
        Want::Stores(at, word) => {
            words
                .shared
                .store::<Stores>(seat, PADDING + at as usize, word);
            0
        }
        Want::Exchanges(at, old, new) => {
            words
                .shared
                .compare_exchange::<Exchanges>(seat, PADDING + at as usize, old, new);
            0
        }
        Want::Nothing => 0,
    }
}

/// Makes a word step, and tells a watcher of it.
#[inline(always)]
pub fn tell<W: Watch>(
    words: &Words,
    shape: &Shape,
    seat: &mut Seat<(), View>,
    watch: &mut W,
    place: u32,
    want: Want,
) -> Found
    requires table { seat.old.table_id ≡ words.now.shared.table_id }
    requires within { WantIsWithin words.now.shared.key.shape want }
    requires wide { padding + word_count words.now.shared.key.shape ≤ words.now.shared.table_id.words }
    requires steps { IsToStep words.now.shared.key seat.old.me want }
    ensures table { seat.new.table_id ≡ seat.old.table_id }
    ensures found { IsFound want result.word }
    ensures told { seat.new.me ≡ (seen seat.old.me.0 (deed_by want result.word), seat.old.me.1) }
    ensures keeps { KeepsFront (W.told watch.old) (W.told watch.new) }
    ensures shows { result.fine ≡ true → (own : ℕ) → IsSeat own seat.old.me
        → place_of (stands_by words.now.shared.key own (deeds_in seat.old.me.0)) ≡ place
        → Shows words.now.shared.key own (W.told watch.old) (W.told watch.new) seat.old.me seat.new.me }
    ensures refused { result.fine ≡ false → KeepsList (W.told watch.old) (W.told watch.new) }
{
    let _ = shape.slots;
    let word = touch(words, shape, seat, want);
    let fine = hear(watch, step_event(place, want, word));
    Found { word, fine }
}

/// Tells a watcher of an event: whether it took it.
#[inline(always)]
pub fn hear<W: Watch>(watch: &mut W, event: Event) -> bool
    ensures keeps { KeepsFront (W.told watch.old) (W.told watch.new) }
    ensures heard { result ≡ true → AppendsList (W.told watch.old) (W.told watch.new) (event ∷ []) }
    ensures refused { result ≡ false → KeepsList (W.told watch.old) (W.told watch.new) }
{
    match watch.turn(event) {
        Ok(()) => true,
        Err(_) => false,
    }
}

/// A processor loses its registers, by a load that nothing looks at.
pub(crate) fn soft(words: &Words, shape: &Shape, seat: &mut Seat<(), View>, own: u32)
    requires table { seat.old.table_id ≡ words.now.shared.table_id }
    requires shape { words.now.shared.key.shape ≡ shape.now }
    requires wide { padding + word_count words.now.shared.key.shape ≤ words.now.shared.table_id.words }
    requires does { Does words.now.shared.key own Soft seat.old.me wants.Nothing }
    ensures table { seat.new.table_id ≡ seat.old.table_id }
    ensures told { seat.new.me ≡ (seen seat.old.me.0 Softened, seat.old.me.1) }
{
    let _ = (shape.slots, own);
    words.shared.load::<Softens>(seat, PADDING);
}

/// A processor dies: its dead word is set, whose address this is.
pub(crate) fn hard(words: &Words, shape: &Shape, seat: &mut Seat<(), View>, own: u32) -> u32
    requires table { seat.old.table_id ≡ words.now.shared.table_id }
    requires shape { words.now.shared.key.shape ≡ shape.now }
    requires wide { padding + word_count words.now.shared.key.shape ≤ words.now.shared.table_id.words }
    requires own { own < shape.now.processors }
    requires does { Does words.now.shared.key own Hard seat.old.me (wants.Stores (address shape.now (DeadWord own)) 1) }
    ensures table { seat.new.table_id ≡ seat.old.table_id }
    ensures at { result ≡ address shape.now (DeadWord own) }
    ensures told { seat.new.me ≡ (seen seat.old.me.0 Hardened, seat.old.me.1) }
{
    let at = shape.address(Cell::DeadWord { processor: own });
    words
        .shared
        .store::<Hardens>(seat, PADDING + at as usize, 1);
    at
}

/// The finish with which a processor gives up.
fn quit_finish(own: u32, why: Why) -> Finish
    ensures { result ≡ quit_with own why }
{
    match why {
        Why::Turns => Finish::OutOfTurns { processor: own },
        Why::Watch => Finish::Stopped,
    }
}

/// A processor gives up: the finish word says so from now on, where it was 0. The word that says
/// it.
pub fn give_up(words: &Words, shape: &Shape, seat: &mut Seat<(), View>, own: u32, why: Why) -> u64
    requires table { seat.old.table_id ≡ words.now.shared.table_id }
    requires shape { words.now.shared.key.shape ≡ shape.now }
    requires wide { padding + word_count words.now.shared.key.shape ≤ words.now.shared.table_id.words }
    requires own { own < shape.now.processors }
    requires does { Does words.now.shared.key own (Quit why) seat.old.me (wants.Exchanges 0 0 (finish_word (quit_with own why))) }
    ensures table { seat.new.table_id ≡ seat.old.table_id }
    ensures value { result ≡ finish_word (quit_with own why) }
    ensures told { seat.new.me ≡ (seen seat.old.me.0 (Quitted why), seat.old.me.1) }
{
    let _ = shape.slots;
    let value = quit_finish(own, why).pack();
    match why {
        Why::Turns => words
            .shared
            .compare_exchange::<Spends>(seat, PADDING, 0, value),
        Why::Watch => words
            .shared
            .compare_exchange::<Refuses>(seat, PADDING, 0, value),
    };
    value
}

/// The event of a word step that found this.
#[inline(always)]
pub fn step_event(place: u32, want: Want, found: u64) -> Event
    ensures { result ≡ event_found place want found }
{
    let (step, word, value) = match want {
        Want::Loads(at) => (1, at, found),
        Want::Stores(at, word) => (2, at, word),
        Want::Exchanges(at, _, new) => (3, at, new),
        Want::Nothing => (4, 0, 0),
    };
    Event {
        step,
        place,
        word,
        value,
    }
}
