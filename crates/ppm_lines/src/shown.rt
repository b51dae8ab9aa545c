//! Which turns a reader is shown.
ghost use Rattle.std.specs.Prelude.{◌≡◌};
ghost use Rattle.ppm_cells.specs.Memory.{AreWordsOf};
ghost use Rattle.ppm_lines.specs.Shown.{act_ends, exchange_ends, goes_back, is_shown_at, leaves};
ghost use Rattle.ppm_lines.specs.Shown.{rest_ends, row_ends, row_is_shown, step_ends};
ghost use Rattle.ppm_step.specs.Locals.{IsLocal, standing_of};
ghost use Rattle.ppm_step.specs.Stages.{rest_at, IsUnderWay};

use crate::marking::marks_at;
use ppm_cells::{Cell, RestartKind, Shape};
use ppm_code::Code;
use ppm_step::{Act, Local, Row, Running, Seat, Stage, Stand, Then};

/// Which turns are shown.
#[derive(Clone, Copy, Debug, PartialEq, Eq)]
pub enum Only {
    /// All turns.
    Turns,
    /// Those that end a row, but for looks of Seek that find nothing; faults; and the loads of
    /// restart words.
    Rows,
    /// Those with a mark.
    Marks,
}

/// Whether the store of a restart word or of a carry word is next.
fn leaves(next: &Then) -> bool
    ensures { result ≡ leaves next.now }
{
    match next {
        Then::Install(_) | Then::Fork { .. } | Then::Begin { .. } | Then::Move { .. } => true,
        Then::Load(_) | Then::Enter { .. } | Then::Again | Then::Broken => false,
    }
}

/// Whether the place goes on with the restart word that it has.
fn goes_back(next: &Then) -> bool
    ensures { result ≡ goes_back next.now }
{
    match next {
        Then::Again => true,
        Then::Load(_)
        | Then::Install(_)
        | Then::Fork { .. }
        | Then::Begin { .. }
        | Then::Move { .. }
        | Then::Enter { .. }
        | Then::Broken => false,
    }
}

/// Whether an exchange in a row of this kind ends the row.
fn exchange_ends(kind: RestartKind, next: &Then) -> bool
    ensures { result ≡ exchange_ends kind next.now }
{
    match kind {
        RestartKind::Seek => false,
        RestartKind::Run { .. }
        | RestartKind::Bump { .. }
        | RestartKind::Push1 { .. }
        | RestartKind::Push2 { .. }
        | RestartKind::Unwind { .. }
        | RestartKind::Arrive { .. }
        | RestartKind::Join { .. }
        | RestartKind::Pop1
        | RestartKind::Pop2 { .. }
        | RestartKind::Steal { .. }
        | RestartKind::Check { .. }
        | RestartKind::Take { .. }
        | RestartKind::Take2 { .. } => goes_back(next),
    }
}

/// Whether a step within a row ends it.
fn row_ends(seat: &Seat, row: &Row) -> bool
    ensures { result ≡ row_ends seat.now row.now }
{
    match row {
        Row::Now(next) => leaves(next),
        Row::Store { then, .. } => goes_back(then),
        Row::Exchange { then, .. } => exchange_ends(seat.restart.kind, then),
    }
}

/// Whether a step within a capsule ends its row.
fn rest_ends(shape: &Shape, code: &Code, running: &Running, registers: &[u64; 64]) -> bool
    requires running { IsUnderWay shape.now code.now running.now registers.now }
    ensures { result
        ≡ rest_ends (rest_at shape.now code.now running.now running.now.stage registers.now) }
{
    match running.stage {
        Stage::Filled => true,
        Stage::Before(_) => false,
        Stage::Ending(end, n) => match running.home.next_put(code, end, n) {
            Some(_) => false,
            None => true,
        },
    }
}

/// Whether a step ends a row.
fn step_ends(words: &[u64], shape: &Shape, code: &Code, local: &Local) -> bool
    requires words { AreWordsOf shape.now words.now }
    requires local { IsLocal shape.now code.now local.now }
    ensures { result
        ≡ step_ends shape.now code.now words.now (standing_of shape.now code.now local.now) }
{
    match &local.stand {
        Stand::Lost | Stand::Placed { .. } | Stand::Done => false,
        Stand::At { .. } => words[shape.address(Cell::FinishWord) as usize] > 0,
        Stand::Within { seat, row } => row_ends(seat, row),
        Stand::Runs(running) => rest_ends(shape, code, running, &local.registers),
        Stand::Broken { .. } => true,
    }
}

/// Whether the act is one of those that are shown of rows.
fn row_is_shown(words: &[u64], shape: &Shape, code: &Code, local: &Local, act: Act) -> bool
    requires words { AreWordsOf shape.now words.now }
    requires local { IsLocal shape.now code.now local.now }
    ensures { result
        ≡ row_is_shown shape.now code.now words.now act (standing_of shape.now code.now local.now) }
{
    if let Stand::Done = local.stand {
        return false;
    }
    if let Stand::Placed { .. } = local.stand {
        return true;
    }
    match act {
        Act::Step { .. } => step_ends(words, shape, code, local),
        Act::Soft | Act::Hard | Act::Quit(_) => true,
    }
}

/// Whether a reader is shown the act of a processor that stands there, with the words as they are
/// before it.
pub fn is_shown_at(
    words: &[u64],
    shape: &Shape,
    code: &Code,
    only: Only,
    local: &Local,
    act: Act,
) -> bool
    requires words { AreWordsOf shape.now words.now }
    requires local { IsLocal shape.now code.now local.now }
    ensures { result
        ≡ is_shown_at shape.now code.now words.now only act (standing_of shape.now code.now local.now) }
{
    match only {
        Only::Turns => true,
        Only::Rows => row_is_shown(words, shape, code, local, act),
        Only::Marks => marks_at(words, shape, code, local, act).is_any(),
    }
}
