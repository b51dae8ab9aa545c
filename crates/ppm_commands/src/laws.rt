//! That a text has one answer by each command, shown by calls that do nothing.
ghost use Rattle.ppm_commands.specs.Case.{AreCases, HaveOneAnswer as CaseTextsHaveOneAnswer};
ghost use Rattle.ppm_commands.specs.Cases.{InstructionsHaveTheirLines};
ghost use Rattle.ppm_commands.specs.Check.{HaveOneAnswer as ListingsHaveOneAnswer};
ghost use Rattle.ppm_commands.specs.Code.{CodesAreFaithful, HaveOneAnswer as CodesHaveOneAnswer};
ghost use Rattle.ppm_commands.specs.Depth.{HaveOneAnswer as DepthRunsHaveOneAnswer};
ghost use Rattle.ppm_commands.specs.Races.{HaveOneAnswer as CasesHaveOneAnswer};
ghost use Rattle.ppm_commands.specs.RacingCheck.{HaveOneAnswer as RacingListingsHaveOneAnswer};
ghost use Rattle.ppm_commands.specs.Serial.{HaveOneAnswer as OutcomesHaveOneAnswer};
ghost use Rattle.ppm_commands.specs.Show.{HaveOneAnswer as SavedTextsHaveOneAnswer};

use ppm_case::{faults_tell_cases, written_cases_are_read};
use ppm_cut_code::keeps_the_rules;
use ppm_cut_correct::{end_as_meant, name_arrays, start_with_input};
use ppm_cut_sound::{code_is_sound, may_be_stopped, store_tidily};
use ppm_depth::runs_are_there;
use ppm_listing_reader::faults_tell_listings;
use ppm_program::have_one_answer as have_one_program;
use ppm_races::{verdicts_are_one, verdicts_are_there};
use ppm_racy_gaps::{racy_codes_without_flaws_are_restartable, racy_flaws_tell_codes};
use ppm_racy_listing::racy_faults_tell_listings;
use ppm_rows::trees_are_within;
use ppm_saved_reader::faults_tell_saved_texts;
use ppm_tree::{have_one_end, none_is_stuck, spend_their_turns};

/// Where it is checked, a text has one answer: its first fault, its code's first conflict, or that
/// it is accepted; and a text that is too long is refused as its front is.
pub fn listings_have_one_answer()
    ensures law { ListingsHaveOneAnswer }
{
    // The law rests on this one; the call does nothing.
    faults_tell_listings();
}

/// Where it is checked as one whose strands may race, a text has one answer: its first fault, its
/// code's first flaw, or that it is accepted; and a text that is too long is refused as its front
/// is.
pub fn racing_listings_have_one_answer()
    ensures law { RacingListingsHaveOneAnswer }
{
    // The law rests on these; the calls do nothing.
    faults_tell_listings();
    racy_faults_tell_listings();
    racy_flaws_tell_codes();
    racy_codes_without_flaws_are_restartable();
}

/// Where its state is shown, a text has one answer: its fault, or the lines of its state; and a text
/// that is too long is refused as its front is.
pub fn saved_texts_have_one_answer()
    ensures law { SavedTextsHaveOneAnswer }
{
    // The law rests on this one; the call does nothing.
    faults_tell_saved_texts();
}

/// Where its code is listed, a text has one answer: it is refused for one reason, or its program
/// has one code, which has one listing.
pub fn codes_have_one_answer()
    ensures law { CodesHaveOneAnswer }
{
    // The law rests on this; the call does nothing.
    have_one_program();
}

/// The code of each text's program is faithful: each capsule may be stopped anywhere and begun
/// again, it is tidy, on no input do branches of it race, and run depth first it ends as the
/// program, run whole, does.
pub fn codes_are_faithful()
    ensures law { CodesAreFaithful }
{
    // The law rests on these; the calls do nothing.
    trees_are_within();
    keeps_the_rules();
    may_be_stopped();
    store_tidily();
    code_is_sound();
    end_as_meant();
}

/// Within each number of turns a text has one answer: it is refused for one reason, or its program
/// has one outcome.
pub fn outcomes_have_one_answer()
    ensures law { OutcomesHaveOneAnswer }
{
    // The law rests on these; the calls do nothing.
    have_one_program();
    have_one_end();
    none_is_stuck();
    spend_their_turns();
}

/// Where its code is written with its arrays, a text has one answer: it is refused for one reason,
/// or its program has one such text.
pub fn case_texts_have_one_answer()
    ensures law { CaseTextsHaveOneAnswer }
{
    // The law rests on this; the call does nothing.
    have_one_program();
}

/// What is written of a program's code with its arrays is a text of just this code and these
/// arrays.
pub fn case_texts_are_cases()
    ensures law { AreCases }
{
    // The law rests on these; the calls do nothing.
    trees_are_within();
    keeps_the_rules();
    start_with_input();
    name_arrays();
    written_cases_are_read();
}

/// Within each number of capsules a text has one answer where its case is run depth first: it is
/// refused for one fault, its code has a first untidy store, or its run comes to one end or takes
/// more capsules.
pub fn depth_runs_have_one_answer()
    ensures law { DepthRunsHaveOneAnswer }
{
    // The law rests on these; the calls do nothing.
    faults_tell_cases();
    runs_are_there();
}

/// Within each number of capsules a text has one answer where races of its case are sought: it is
/// refused for one fault, its code has a first conflict or a first untidy store, or it has one
/// verdict.
pub fn cases_have_one_answer()
    ensures law { CasesHaveOneAnswer }
{
    // The law rests on these; the calls do nothing.
    faults_tell_cases();
    verdicts_are_one();
    verdicts_are_there();
}

/// The line that is told of an instruction of a case is the line of the text in which it stands.
pub fn instructions_have_their_lines()
    ensures law { InstructionsHaveTheirLines }
{}
