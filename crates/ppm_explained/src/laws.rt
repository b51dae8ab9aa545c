//! What is true of every text that is explained, shown by a call that does nothing.
ghost use Rattle.ppm_explained.specs.Explaining.{HaveOneAnswer};
ghost use Rattle.ppm_explained.specs.Orders.{AllHaveOneAnswer};
ghost use Rattle.ppm_explained.specs.Trapping.{HaveOneAnswer as TrapsHaveOneAnswer};

use ppm_case::faults_tell_cases;
use ppm_commands::{
    cases_have_one_answer, listings_have_one_answer, outcomes_have_one_answer,
    saved_texts_have_one_answer,
};
use ppm_listing_reader::faults_tell_listings;
use ppm_plan::have_one_answer as plans_have_one_answer;
use ppm_program::have_one_answer;
use ppm_rows::have_one_answer as tokens_have_one_answer;
use ppm_standing::stand_where_later;
use ppm_trapped::{trap_points_are_one, traps_have_points};
use ppm_tree::spend_their_turns;

/// Where it is explained, a text has one answer: that it is accepted, or its refusal with its notes;
/// and a text that is too long is explained as its front is.
pub fn texts_have_one_answer()
    ensures law { HaveOneAnswer }
{
    // The law rests on these; the calls do nothing.
    have_one_answer();
    tokens_have_one_answer();
    listings_have_one_answer();
    faults_tell_listings();
    cases_have_one_answer();
    faults_tell_cases();
    saved_texts_have_one_answer();
}

/// Where it is explained, a plan or a schedule has one answer: that it may be obeyed, or its refusal
/// with its notes.
pub fn orders_have_one_answer()
    ensures law { AllHaveOneAnswer }
{
    // The law rests on this; the call does nothing.
    plans_have_one_answer();
}

/// Where the trap of a source is explained, a text has one answer within each number of turns: that
/// the run of its program ends, its trap with its notes, that it takes more turns with the notes of
/// where it stands, or its refusal with its notes; and a text that is too long is explained as its front is.
pub fn traps_have_one_answer()
    ensures law { TrapsHaveOneAnswer }
{
    // The law rests on these; the calls do nothing.
    have_one_answer();
    texts_have_one_answer();
    outcomes_have_one_answer();
    trap_points_are_one();
    traps_have_points();
    spend_their_turns();
    stand_where_later();
}
