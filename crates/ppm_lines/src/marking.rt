//! The marks of a turn.
ghost use Rattle.std.specs.Prelude.{◌≡◌, ◌==◌, ◌<◌, ◌^◌, true};
ghost use Rattle.ppm_cells.specs.Cells.{address, word_count, IsAddressable};
ghost use Rattle.ppm_cells.specs.Entry.{entry_of};
ghost use Rattle.ppm_cells.specs.Memory.{AreWordsOf, read};
ghost use Rattle.ppm_cells.specs.declared.cell.Cell.TheVariants.{FinishWord, MessageWord};
ghost use Rattle.ppm_lines.specs.Marks.{bid_marks, cell_marks, check_marks, checked, ending};
ghost use Rattle.ppm_lines.specs.Marks.{exchange_marks, going_at, going_on, has, is_local};
ghost use Rattle.ppm_lines.specs.Marks.{join_marks, joined, learns, listed, marks_at};
ghost use Rattle.ppm_lines.specs.Marks.{plain_marks, rest_marks, row_marks, step_marks};
ghost use Rattle.ppm_lines.specs.Marks.{then_marks, tries};
ghost use Rattle.ppm_step.specs.Contents.{word_of, IsContent};
ghost use Rattle.ppm_step.specs.Facts.{IsRow, IsSeat};
ghost use Rattle.ppm_step.specs.Locals.{IsLocal, standing_of};
ghost use Rattle.ppm_step.specs.Stages.{rest_at, IsUnderWay};
ghost use Rattle.ppm_step.specs.Standings.{row_is_there};
ghost use Rattle.ppm_step.specs.There.{is_there};

use crate::mark::{Mark, Marks};
use ppm_cells::{Cell, Entry, RestartKind, Shape};
use ppm_code::Code;
use ppm_step::{Act, Content, Local, Row, Running, Seat, Stage, Stand, Then, address};

/// What a thief proposes.
fn tries(proposed: Content) -> Mark
    ensures { result ≡ tries proposed }
{
    match proposed {
        Content::AnEntry(Entry::Taken { taker, .. }) => if taker < 64 {
            Mark::Try
        } else {
            Mark::Inherit
        },
        Content::AnEntry(_)
        | Content::ANumber(_)
        | Content::ARestart(_)
        | Content::AHolder(_)
        | Content::ALink(_)
        | Content::AFinish(_)
        | Content::Unreadable => Mark::Try,
    }
}

/// The marks of an exchange.
fn exchange_marks(kind: RestartKind, proposed: Content, made: bool) -> Marks
    ensures { listed result ≡ exchange_marks kind proposed made }
{
    match kind {
        RestartKind::Push2 { .. } => Marks::only_if(made, Mark::Push),
        RestartKind::Pop1 => Marks::only_if(made, Mark::Pop),
        RestartKind::Steal { .. } => Marks::one(tries(proposed)),
        RestartKind::Take { .. } => Marks::one(Mark::Bid),
        RestartKind::Run { .. }
        | RestartKind::Bump { .. }
        | RestartKind::Push1 { .. }
        | RestartKind::Unwind { .. }
        | RestartKind::Arrive { .. }
        | RestartKind::Join { .. }
        | RestartKind::Pop2 { .. }
        | RestartKind::Seek
        | RestartKind::Check { .. }
        | RestartKind::Take2 { .. } => Marks::none(),
    }
}

/// Those of one of this cell.
fn cell_marks(kind: RestartKind, cell: Cell, proposed: Content, made: bool) -> Marks
    ensures { listed result ≡ cell_marks kind cell proposed made }
{
    match cell {
        Cell::FinishWord => Marks::only_if(made, Mark::End),
        Cell::CarryWord { .. }
        | Cell::DeadWord { .. }
        | Cell::RestartWord { .. }
        | Cell::MessageWord { .. }
        | Cell::HolderWord { .. }
        | Cell::Top { .. }
        | Cell::RoomCounter { .. }
        | Cell::EntryWord { .. }
        | Cell::BlockWord { .. }
        | Cell::ArrayWord { .. } => exchange_marks(kind, proposed, made),
    }
}

/// With what a thief goes on whose message is this word.
fn going_on(message: u64) -> Mark
    ensures { result ≡ going_on (is_local (entry_of message)) }
{
    match Entry::unpack(message) {
        Some(Entry::Local { .. }) => Mark::Heir,
        Some(Entry::Empty { .. }) | Some(Entry::Job { .. }) | Some(Entry::Taken { .. }) | None => {
            Mark::Won
        }
    }
}

/// Where Check goes on by a restart of this kind.
fn checked(going: Mark, kind: RestartKind) -> Mark
    ensures { result ≡ checked going kind }
{
    match kind {
        RestartKind::Seek => Mark::Lost,
        RestartKind::Run { .. }
        | RestartKind::Bump { .. }
        | RestartKind::Push1 { .. }
        | RestartKind::Push2 { .. }
        | RestartKind::Unwind { .. }
        | RestartKind::Arrive { .. }
        | RestartKind::Join { .. }
        | RestartKind::Pop1
        | RestartKind::Pop2 { .. }
        | RestartKind::Steal { .. }
        | RestartKind::Check { .. }
        | RestartKind::Take { .. }
        | RestartKind::Take2 { .. } => going,
    }
}

/// What follows in a row of Check.
fn check_marks(going: Mark, next: &Then) -> Marks
    ensures { listed result ≡ check_marks going next.now }
{
    match next {
        Then::Install(restart) => Marks::one(checked(going, restart.kind)),
        Then::Fork { .. } => Marks::two(Mark::Fork, going),
        Then::Begin { .. } => Marks::two(going, Mark::Take),
        Then::Load(_) | Then::Move { .. } | Then::Enter { .. } | Then::Again | Then::Broken => {
            Marks::none()
        }
    }
}

/// Where Join goes on by a restart of this kind.
fn joined(kind: RestartKind) -> Mark
    ensures { result ≡ joined kind }
{
    match kind {
        RestartKind::Pop1 => Mark::First,
        RestartKind::Run { .. }
        | RestartKind::Bump { .. }
        | RestartKind::Push1 { .. }
        | RestartKind::Push2 { .. }
        | RestartKind::Unwind { .. }
        | RestartKind::Arrive { .. }
        | RestartKind::Join { .. }
        | RestartKind::Pop2 { .. }
        | RestartKind::Seek
        | RestartKind::Steal { .. }
        | RestartKind::Check { .. }
        | RestartKind::Take { .. }
        | RestartKind::Take2 { .. } => Mark::Last,
    }
}

/// What follows in a row of Join.
fn join_marks(next: &Then) -> Marks
    ensures { listed result ≡ join_marks next.now }
{
    match next {
        Then::Install(restart) => Marks::one(joined(restart.kind)),
        Then::Fork { .. } => Marks::one(Mark::Fork),
        Then::Begin { .. } => Marks::two(Mark::Take, Mark::Inline),
        Then::Load(_) | Then::Move { .. } | Then::Enter { .. } | Then::Again | Then::Broken => {
            Marks::none()
        }
    }
}

/// What follows in a row of Take2.
fn bid_marks(next: &Then) -> Marks
    ensures { listed result ≡ bid_marks next.now }
{
    match next {
        Then::Move { .. } => Marks::one(Mark::Carries),
        Then::Install(_) => Marks::one(Mark::Outbid),
        Then::Fork { .. } => Marks::one(Mark::Fork),
        Then::Begin { .. } => Marks::one(Mark::Take),
        Then::Load(_) | Then::Enter { .. } | Then::Again | Then::Broken => Marks::none(),
    }
}

/// What follows in another row.
fn plain_marks(next: &Then) -> Marks
    ensures { listed result ≡ plain_marks next.now }
{
    match next {
        Then::Fork { .. } => Marks::one(Mark::Fork),
        Then::Begin { .. } => Marks::one(Mark::Take),
        Then::Install(_)
        | Then::Load(_)
        | Then::Move { .. }
        | Then::Enter { .. }
        | Then::Again
        | Then::Broken => Marks::none(),
    }
}

/// What follows in a row of this kind.
fn then_marks(going: Mark, kind: RestartKind, next: &Then) -> Marks
    ensures { listed result ≡ then_marks going kind next.now }
{
    match kind {
        RestartKind::Check { .. } => check_marks(going, next),
        RestartKind::Join { .. } => join_marks(next),
        RestartKind::Take2 { .. } => bid_marks(next),
        RestartKind::Run { .. }
        | RestartKind::Bump { .. }
        | RestartKind::Push1 { .. }
        | RestartKind::Push2 { .. }
        | RestartKind::Unwind { .. }
        | RestartKind::Arrive { .. }
        | RestartKind::Pop1
        | RestartKind::Pop2 { .. }
        | RestartKind::Seek
        | RestartKind::Steal { .. }
        | RestartKind::Take { .. } => plain_marks(next),
    }
}

/// Whether a cell has this word.
pub(crate) fn has(words: &[u64], shape: &Shape, cell: Cell, word: u64) -> bool
    requires words { AreWordsOf shape.now words.now }
    requires there { is_there shape.now cell ≡ true }
    ensures { result ≡ (read shape.now words.now cell == word) }
{
    words[address(shape, cell) as usize] == word
}

/// The marks of a step within a row.
fn row_marks(words: &[u64], shape: &Shape, code: &Code, seat: &Seat, row: &Row) -> Marks
    requires words { AreWordsOf shape.now words.now }
    requires seat { IsSeat shape.now seat.now }
    requires row { IsRow row.now }
    requires there { row_is_there shape.now seat.now row.now ≡ true }
    ensures { listed result ≡ row_marks shape.now code.now words.now seat.now row.now }
{
    let kind = seat.restart.kind;
    match row {
        Row::Now(next) => {
            let message = Cell::MessageWord { place: seat.place };
            let going = going_on(words[shape.address(message) as usize]);
            then_marks(going, kind, next)
        }
        Row::Store { .. } => Marks::none(),
        Row::Exchange { cell, old, new, .. } => {
            cell_marks(kind, *cell, *new, has(words, shape, *cell, old.word()))
        }
    }
}

/// Those of an exchange of the finish word from 0.
fn ending(words: &[u64], shape: &Shape, code: &Code) -> Marks
    requires words { AreWordsOf shape.now words.now }
    ensures { listed result ≡ ending shape.now code.now words.now }
{
    Marks::only_if(has(words, shape, Cell::FinishWord, 0), Mark::End)
}

/// Those of a step within a capsule.
fn rest_marks(
    words: &[u64],
    shape: &Shape,
    code: &Code,
    running: &Running,
    registers: &[u64; 64],
) -> Marks
    requires words { AreWordsOf shape.now words.now }
    requires running { IsUnderWay shape.now code.now running.now registers.now }
    ensures { listed result
        ≡ rest_marks shape.now code.now words.now (rest_at shape.now code.now running.now running.now.stage registers.now) }
{
    match running.stage {
        Stage::Filled => ending(words, shape, code),
        Stage::Before(_) => Marks::none(),
        Stage::Ending(end, n) => {
            let _ = running.home.next_put(code, end, n);
            Marks::none()
        }
    }
}

/// Those of a step.
fn step_marks(words: &[u64], shape: &Shape, code: &Code, local: &Local) -> Marks
    requires words { AreWordsOf shape.now words.now }
    requires local { IsLocal shape.now code.now local.now }
    ensures { listed result
        ≡ step_marks shape.now code.now words.now (standing_of shape.now code.now local.now) }
{
    match &local.stand {
        Stand::Lost | Stand::Placed { .. } | Stand::Done => Marks::none(),
        Stand::At { .. } => {
            let finish = words[shape.address(Cell::FinishWord) as usize];
            if finish == 0 {
                Marks::none()
            } else {
                Marks::one(Mark::Done)
            }
        }
        Stand::Within { seat, row } => row_marks(words, shape, code, seat, row),
        Stand::Runs(running) => rest_marks(words, shape, code, running, &local.registers),
        Stand::Broken { .. } => ending(words, shape, code),
    }
}

/// The marks of an act by a processor that stands there, with the words as they are before it.
pub fn marks_at(words: &[u64], shape: &Shape, code: &Code, local: &Local, act: Act) -> Marks
    requires words { AreWordsOf shape.now words.now }
    requires local { IsLocal shape.now code.now local.now }
    ensures { listed result
        ≡ marks_at shape.now code.now words.now act (standing_of shape.now code.now local.now) }
{
    if let Stand::Done = local.stand {
        return Marks::none();
    }
    match act {
        Act::Step { .. } => step_marks(words, shape, code, local),
        Act::Soft => Marks::one(Mark::Soft),
        Act::Hard => Marks::one(Mark::Hard),
        Act::Quit(_) => ending(words, shape, code),
    }
}
