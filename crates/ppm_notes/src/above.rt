//! What the lines above a line of a listing say of it.
ghost use Rattle.std.specs.Prelude.{◌≡◌, codes, is_some};
ghost use Rattle.std.specs.Str.{bytes_eq};
ghost use Rattle.ppm_listing.specs.Tokens.{keyword_text};
ghost use Rattle.ppm_pieces.specs.Pieces.{split};
ghost use Rattle.ppm_notes.specs.Operands.{below as below_line, below_all};
ghost use Rattle.ppm_notes.specs.Operands.{is_end as is_end_line, is_room as is_room_line, may_lead as may_lead_there};
ghost use Rattle.ppm_notes.specs.Operands.{room_by as room_behind, takes_room as takes_of_room};

use crate::words::{begins_capsule, first_word};
use ppm_listing::Keyword;
use ppm_listing_reader::first_spelled;
use ppm_pieces::{same_bytes, split_once};

/// What the lines above a line of a listing say of it: the root's procedure, whether the line above
/// begins a capsule, whether it ends one, and whether the capsule asks for room.
#[derive(Clone, Copy, Debug)]
pub struct Above {
    pub root: u64,
    pub is_first: bool,
    pub is_ended: bool,
    pub has_room: bool,
}

/// Whether a line ends its capsule.
fn is_end(line: &[u8]) -> bool
    ensures { result ≡ is_end_line line.now }
{
    first_spelled(
        &[
            Keyword::Next,
            Keyword::End,
            Keyword::Trap,
            Keyword::Call,
            Keyword::CallTo,
            Keyword::Fork,
            Keyword::ForkTo,
        ],
        first_word(line),
    )
    .is_some()
}

/// Whether a line asks for room.
fn is_room(line: &[u8]) -> bool
    ensures { result ≡ is_room_line line.now }
{
    same_bytes(first_word(line), b"room")
}

/// Whether the capsule that goes on after a line asks for room: its first instruction does.
fn room_by(is_first: bool, has_room: bool, begins: bool, asks: bool) -> bool
    ensures { result ≡ room_behind is_first has_room begins asks }
{
    if begins {
        false
    } else if is_first {
        asks
    } else {
        has_room
    }
}

/// What is known after one more line.
fn below(above: Above, line: &[u8]) -> Above
    ensures { result ≡ below_line above line.now }
{
    let begins = begins_capsule(line);
    Above {
        root: above.root,
        is_first: begins,
        is_ended: is_end(line),
        has_room: room_by(above.is_first, above.has_room, begins, is_room(line)),
    }
}

/// What is known after the first so many lines of a text.
#[tactic(auto, using(crate::proofs::AboveLemmas::next_below, crate::proofs::AboveLemmas::last_below, crate::proofs::AboveLemmas::none_below))]
pub(crate) fn below_lines(above: Above, text: &[u8], lines: u32) -> Above
    ensures { result ≡ below_all above lines (split 10 text.now) }
{
    let mut known = above;
    let mut left = text;
    let mut ahead = lines;
    'lines: while let Some((line, rest)) = split_once(left, b'\n') {
        if ahead == 0 {
            return known;
        }
        known = below(known, line);
        left = rest;
        ahead -= 1;
    }
    if ahead == 0 {
        return known;
    }
    below(known, left)
}

/// Whether an instruction takes of the room that its capsule asks for.
fn takes_room(keyword: Keyword) -> bool
    ensures { result ≡ takes_of_room keyword }
{
    first_spelled(
        &[
            Keyword::StoreNew,
            Keyword::Call,
            Keyword::CallTo,
            Keyword::Fork,
            Keyword::ForkTo,
        ],
        keyword.spelling().as_bytes(),
    )
    .is_some()
}

/// Whether a line in a capsule may begin with a keyword, by the lines above.
pub(crate) fn may_lead(above: Above, keyword: Keyword) -> bool
    ensures { result ≡ may_lead_there above keyword }
{
    if same_bytes(keyword.spelling().as_bytes(), b"capsule") {
        return above.is_ended;
    }
    if same_bytes(keyword.spelling().as_bytes(), b"room") {
        return above.is_first;
    }
    above.has_room || !takes_room(keyword)
}
