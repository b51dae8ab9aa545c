//! Laws of texts, each shown by a call that does nothing.
ghost use Rattle.ppm_plan.specs.Correct.{HaveOneAnswer};
ghost use Rattle.ppm_plan.specs.Spellings.{PlanItemsReadAsWritten, ScheduleItemsReadAsWritten};
ghost use Rattle.ppm_plan.specs.Spellings.{TextsReadAsWritten};

/// A text has a plan or one refusal, for any number of processors, and so it is with schedules, also
/// of strands.
pub fn have_one_answer()
    ensures law { HaveOneAnswer }
{}

/// An item of a plan has one spelling, which reads as this item, and nothing else reads as it.
pub fn plan_items_read_as_written()
    ensures law { PlanItemsReadAsWritten }
{}

/// What stands between two commas reads as an item of a schedule exactly where it writes this item.
pub fn schedule_items_read_as_written()
    ensures law { ScheduleItemsReadAsWritten }
{}

/// A text has items exactly where it writes them: `none`, or a text of each with commas between
/// them.
pub fn texts_read_as_written()
    ensures law { TextsReadAsWritten }
{}
