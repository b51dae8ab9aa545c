//! The stores with which a capsule ends, each made while the finish word is 0.
ghost use Rattle.std.specs.Prelude.{◌≡◌, ◌≤◌, ℕ};
ghost use Rattle.ppm_cells.specs.Memory.{AreWordsOf, read};
ghost use Rattle.ppm_cells.specs.declared.cell.Cell.TheVariants.{FinishWord};
ghost use Rattle.ppm_core.specs.Ends.{HasEnded, made_by};
ghost use Rattle.ppm_step.specs.Contents.{IsContent};
ghost use Rattle.ppm_step.specs.Facts.{IsEnd, IsHome, IsSeat};
ghost use Rattle.ppm_step.specs.Frames.{Rest, Stores, Installs, ending};

use crate::acts::{finish_word, store};
use ppm_cells::{Cell, Restart, RestartKind, Shape};
use ppm_code::{Code, End};
use ppm_step::{Home, Put, Seat, Want, address, cell_is_there, restart_there, restart_word};

/// What came of stores of an end.
#[derive(Clone, Copy, Debug, PartialEq, Eq)]
pub(crate) enum EndStep {
    /// The store with this number comes next.
    Before(usize),
    /// The restart word was stored: the place goes on with this restart.
    Installed(Restart),
    /// What comes next isn't there.
    Gone,
}

/// So many stores of an end, and what came of them.
#[derive(Clone, Copy, Debug, PartialEq, Eq)]
pub(crate) struct Ended {
    pub made: u64,
    pub step: EndStep,
}

/// Makes a store of an end, after which the one with this number comes.
#[inline(always)]
fn put_at(
    words: &mut Vec<u64>,
    shape: &Shape,
    code: &Code,
    seat: &Seat,
    put: Put,
    next: usize,
) -> EndStep
    requires words { AreWordsOf shape.now words.old.items }
    requires finish { read shape.now words.old.items FinishWord ≡ 0 }
    requires content { IsContent put.content }
    ensures ended { (left : ℕ → Rest) → HasEnded shape.now code.now seat.now left (Stores put.cell put.content (left next))
        words.old.items words.new.items (made_by result) result }
    ensures count { AreWordsOf shape.now words.new.items }
{
    let _ = (code.parts().root, seat.own);
    if !cell_is_there(shape, put.cell) {
        return EndStep::Gone;
    }
    let at = address(shape, put.cell);
    store(words, shape, Want::Stores(at, put.content.word()));
    EndStep::Before(next)
}

/// Stores the restart word with which a place goes on.
#[inline(always)]
fn install_at(
    words: &mut Vec<u64>,
    shape: &Shape,
    code: &Code,
    seat: &Seat,
    kind: RestartKind,
) -> EndStep
    requires words { AreWordsOf shape.now words.old.items }
    requires finish { read shape.now words.old.items FinishWord ≡ 0 }
    requires seat { IsSeat shape.now seat.now }
    ensures ended { (left : ℕ → Rest) → HasEnded shape.now code.now seat.now left (Installs kind)
        words.old.items words.new.items (made_by result) result }
    ensures count { AreWordsOf shape.now words.new.items }
{
    // The proof needs its limits.
    let _ = (code.parts().root, shape.word_count());
    let restart = Restart {
        kind,
        bottom: seat.restart.bottom,
    };
    if !restart_there(shape, restart) {
        return EndStep::Gone;
    }
    let at = shape.address(Cell::RestartWord { place: seat.place });
    let word = restart_word(shape, restart);
    store(words, shape, Want::Stores(at, word));
    EndStep::Installed(restart)
}

/// Makes the n-th store of an end, or after the last one that of the restart word.
#[inline(always)]
fn end_at(
    words: &mut Vec<u64>,
    shape: &Shape,
    code: &Code,
    seat: &Seat,
    home: &Home,
    end: End,
    n: usize,
) -> EndStep
    requires words { AreWordsOf shape.now words.old.items }
    requires finish { read shape.now words.old.items FinishWord ≡ 0 }
    requires seat { IsSeat shape.now seat.now }
    requires fits { IsHome home.now × IsEnd end }
    ensures ended { HasEnded shape.now code.now seat.now (ending code.now home.now end) (ending code.now home.now end n)
        words.old.items words.new.items (made_by result) result }
    ensures count { AreWordsOf shape.now words.new.items }
{
    let _ = code.parts().root;
    match home.coming_put(code, end, n) {
        Some(put) => put_at(words, shape, code, seat, put, n + 1),
        None => install_at(words, shape, code, seat, home.installed(end)),
    }
}

/// Makes the stores of an end, at most so many, while the finish word is 0.
#[inline(always)]
pub(crate) fn end_along(
    words: &mut Vec<u64>,
    shape: &Shape,
    code: &Code,
    seat: &Seat,
    home: &Home,
    end: End,
    most: u64,
) -> Ended
    requires words { AreWordsOf shape.now words.old.items }
    requires seat { IsSeat shape.now seat.now }
    requires fits { IsHome home.now × IsEnd end }
    ensures few { result.made ≤ most }
    ensures ended { HasEnded shape.now code.now seat.now (ending code.now home.now end) (ending code.now home.now end 0)
        words.old.items words.new.items result.made result.step }
    ensures count { AreWordsOf shape.now words.new.items }
{
    let mut n = 0;
    let mut made = 0;
    while made < most {
        if finish_word(words, shape) != 0 {
            return Ended {
                made,
                step: EndStep::Before(n),
            };
        }
        match end_at(words, shape, code, seat, home, end, n) {
            EndStep::Before(next) => {
                n = next;
                made += 1;
            }
            EndStep::Installed(restart) => {
                return Ended {
                    made: made + 1,
                    step: EndStep::Installed(restart),
                };
            }
            EndStep::Gone => {
                return Ended {
                    made,
                    step: EndStep::Gone,
                };
            }
        }
    }
    Ended {
        made,
        step: EndStep::Before(n),
    }
}
