//! Fault plans, and schedules of processors and of strands: their texts, the faults of a turn, the
//! keeper, and victims and plans drawn at random.
//! Model: a text is pieces that read as items (`specs/Items`); a plan or a schedule is its items
//! (`specs/Schedules`).
//! Contract: a reader answers the items of the text, or its one refusal; texts are read as written
//! (`specs/Spellings`).
//! Stands on `ppm_words` and `rand_xoshiro`; `ppm_choice` and `ppm_orders` call it.
//! After the soft and hard faults of Blelloch et al., SPAA 2018; the three forms of text are this
//! project's.
#![tactic(auto)]

mod fault;
mod fault_table;
mod item;
mod judging;
mod laws;
mod plan;
mod plan_error;
mod plan_item;
mod reading;
mod schedule;
mod schedule_item;
mod seeded;
mod source;
mod strand_item;
mod strands;
mod victims;

pub use fault::Fault;
pub use judging::ITEM_LIMIT;
pub use laws::{
    have_one_answer, plan_items_read_as_written, schedule_items_read_as_written,
    texts_read_as_written,
};
pub use plan::{Plan, read_plan};
pub use plan_error::PlanError;
pub use plan_item::PlanItem;
pub use schedule::{Schedule, read_schedule};
pub use schedule_item::{MOST_TIMES, ScheduleItem, ScheduledAct};
pub use seeded::seeded_plan;
pub use source::make_source;
pub use strand_item::{StrandAct, StrandItem};
pub use strands::read_strands;
pub use victims::Victims;
