//! What is true of the frames and runs of every admitted program, shown by calls that do nothing.
ghost use Rattle.ppm_ownership.specs.Correct.{ComeToSites, OwnApart, RunInEitherOrder, StayWithin};
ghost use Rattle.ppm_ownership.specs.Positions.{PositionsAreComeTo};

/// Each use that a run of an admitted program comes to, with the declarations in force there, is
/// one that the program makes: so it keeps the rules of names and regions.
pub fn come_to_sites()
    ensures law { ComeToSites }
{}

/// After whatever number of turns a run of the serial meaning is stopped, it stands where the other
/// laws say that a run may come to: so they hold wherever the meaning goes.
pub fn positions_are_come_to()
    ensures law { PositionsAreComeTo }
{}

/// Wherever a run of an admitted program comes to, a `mut` region that is not hidden shares no word
/// with another that is not hidden, be they from outside of the block of an `each` or not, and each
/// lies in its array. A block, a callee and a branch own no more than the frame that they are begun
/// in; of the two branches of a fork none may write what the other owns, and so it is with two
/// blocks of an `each`.
pub fn own_apart()
    ensures law { OwnApart }
{}

/// The runs of a block, of a procedure, and of an `each` over some of its indices change no words
/// but those that the frame may write, and how they end depends on no words but those that it owns.
pub fn stay_within()
    ensures law { StayWithin }
{}

/// The two branches of a fork, two blocks of an `each`, and two stretches of its indices may run in
/// either order: each ends as it does in the other, at a trap or without one, and the same words
/// are left. From the words that the one leaves, at a trap too, the other ends as from those at the
/// fork: so the whole form of the meaning may run what is after a trap from the arrays that the
/// trap leaves. No proof stands on it.
pub fn run_in_either_order()
    ensures law { RunInEitherOrder }
{}
