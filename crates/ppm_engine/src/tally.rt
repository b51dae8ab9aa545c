//! What is counted of the steps of a row.
ghost use Rattle.std.specs.Prelude.{◌≡◌, ◌+◌, ◌<◌, ◌||◌};
ghost use Rattle.ppm_engine.specs.Memory.{is_exchange};

use ppm_cells::Restart;
use ppm_step::Want;

/// The steps of a row so far, all of them work.
#[derive(Clone, Copy, Debug, PartialEq, Eq)]
pub struct Tally {
    /// How many there were.
    pub made: u64,
    /// Whether one was a compare-and-modify.
    pub exchanged: bool,
}

/// What the machine counts of a step beside its kind.
#[derive(Clone, Copy, Debug, PartialEq, Eq)]
pub enum Mark {
    /// Nothing.
    Plain,
    /// A fork: the store of the restart word that begins to push a block.
    Fork,
    /// A take: that of the one that begins a right branch.
    Take,
}

/// How a row ended: the place goes on with this restart, and its last step had this mark.
#[derive(Clone, Copy, Debug, PartialEq, Eq)]
pub struct Settled {
    pub restart: Restart,
    pub mark: Mark,
}

/// Whether a word step is a compare-and-modify.
#[inline(always)]
fn is_exchange(want: Want) -> bool
    ensures { result ≡ is_exchange want }
{
    match want {
        Want::Exchanges(..) => true,
        Want::Loads(_) | Want::Stores(..) | Want::Nothing => false,
    }
}

/// The tally with this step.
#[inline(always)]
pub(crate) fn counted(tally: Tally, want: Want) -> Tally
    requires { tally.made < 64 }
    ensures { result ≡ record { made = tally.made + 1; exchanged = tally.exchanged || is_exchange want } }
{
    let exchanges = is_exchange(want);
    Tally {
        made: tally.made + 1,
        exchanged: tally.exchanged || exchanges,
    }
}
