//! What the processors of a machine are told to do: a plan of faults, or a schedule; and what they
//! run: a program, a case, or a RAM.
ghost use Rattle.std.specs.Prelude.{◌≡◌, ℕ, IfErr, IfOk, List};
ghost use Rattle.std.specs.Int.{IsInRange};
ghost use Rattle.ppm_ports.specs.Ports.{port};
ghost use Rattle.ppm_plan.specs.Correct.{HaveOneAnswer, HasOneAnswer};
ghost use Rattle.ppm_plan.specs.Forms.{Form};
ghost use Rattle.ppm_plan.specs.Refusals.{IsAccepted, IsRefused};
ghost use Rattle.ppm_answers.specs.Reading.{JudgingMay};
ghost use Rattle.ppm_answers.specs.declared.answer.Answer.{Answer};
ghost use Rattle.ppm_answers.specs.declared.answer.Answer.TheVariants.{PlanRefused};
ghost use Rattle.ppm_orders.specs.Orders.{NoTaskMay, ReadsTask};

use crate::rams::ram_of_source;
use ppm_answers::Answer;
use ppm_case::Case;
use ppm_loading::{case_of_source, read_program, refusal_answer};
use ppm_plan::{
    Plan, PlanError, PlanItem, Schedule, ScheduleItem, have_one_answer, read_plan, read_schedule,
};
use ppm_ports::Source;
use ppm_ram::Ram;
use ppm_regions::Admitted;
use std::alloc::Global;

/// Orders to the processors of a machine, which a text says.
pub trait Orders: Sized + Drop {
    /// What stands between two commas of the text.
    type Item;

    /// The form of the texts.
    ghost form: { Form Self.Item };

    /// For how many processors they are.
    ghost count: { Self → ℕ };

    /// The items, in the order of the text.
    ghost items: { Self → List Self.Item };

    /// Of the law of all texts that of this form.
    ghost one: { HaveOneAnswer → HasOneAnswer form };

    /// The orders that a text says for so many processors, or the one reason why it says none.
    fn read(alloc: Global, text: &[u8], processors: u32) -> Result<Self, PlanError>
        requires { IsInRange 1 64 processors }
        ensures accepted { IfOk result (λ orders. IsAccepted form text.now processors (items orders)) }
        ensures count { IfOk result (λ orders. count orders ≡ processors) }
        ensures refused { IfErr result (IsRefused form text.now processors) };
}

impl Orders for Plan {
    ghost use Rattle.ppm_plan.specs.Forms.{plan_form};

    type Item = PlanItem;

    ghost form = { plan_form };

    ghost count = { λ plan. plan.processors };

    ghost items = { λ plan. plan.items };

    ghost one = { λ law. law.plans };

    fn read(alloc: Global, text: &[u8], processors: u32) -> Result<Plan, PlanError> {
        read_plan(alloc, text, processors)
    }
}

impl Orders for Schedule {
    ghost use Rattle.ppm_plan.specs.Forms.{schedule_form};

    type Item = ScheduleItem;

    ghost form = { schedule_form };

    ghost count = { λ schedule. schedule.processors };

    ghost items = { λ schedule. schedule.items };

    ghost one = { λ law. law.schedules };

    fn read(alloc: Global, text: &[u8], processors: u32) -> Result<Schedule, PlanError> {
        read_schedule(alloc, text, processors)
    }
}

/// What a command runs, which a text says.
pub trait Task: Sized + Drop {
    /// The bytes of a text, at most.
    ghost limit: { ℕ };

    /// A text says this one.
    ghost says: { Self → List ℕ → Type 0 };

    /// The answer of a text that says none.
    ghost refused: { List ℕ → Answer → Type 0 };

    /// None of them is that orders are refused.
    ghost plain: { (text : List ℕ) (number : ℕ) → ¬ refused text (PlanRefused number) };

    /// That of what is read, or the answer where there is none.
    fn read<S: Source>(alloc: Global, source: &mut S) -> Result<Self, Answer>
        ensures said { IfOk result (λ task. ReadsTask limit (says task) (port S.left S.fault_count source.old source.new)) }
        ensures none { IfErr result (JudgingMay limit refused (port S.left S.fault_count source.old source.new)) };
}

impl Task for Admitted {
    ghost use Rattle.ppm_text.specs.Limits.{text_limit};
    ghost use Rattle.ppm_tree.specs.Tree.{tree_of};
    ghost use Rattle.ppm_program.specs.Programs.{HasProgram};
    ghost use Rattle.ppm_loading.specs.Programs.{RefusedHas};

    ghost limit = { text_limit };

    ghost says = { λ program text. HasProgram text (tree_of program) };

    ghost refused = { RefusedHas };

    ghost plain = { λ text number refused. refused.2 };

    fn read<S: Source>(alloc: Global, source: &mut S) -> Result<Admitted, Answer> {
        read_program(alloc, source)
    }
}

impl Task for Case {
    ghost use Rattle.ppm_case.specs.Case.{IsCaseOf};
    ghost use Rattle.ppm_case.specs.Rules.{case_limit};
    ghost use Rattle.ppm_loading.specs.Cases.{RefusedHas};

    ghost limit = { case_limit };

    ghost says = { λ case text. IsCaseOf text case.code case.input };

    ghost refused = { RefusedHas };

    ghost plain = { λ text number refused. refused.has };

    fn read<S: Source>(alloc: Global, source: &mut S) -> Result<Case, Answer> {
        case_of_source(alloc, source)
    }
}

impl Task for Ram {
    ghost use Rattle.ppm_ram.specs.Limits.{text_limit};
    ghost use Rattle.ppm_ram.specs.Text.{IsTextOf};
    ghost use Rattle.ppm_orders.specs.Rams.{RefusedHas};

    ghost limit = { text_limit };

    ghost says = { λ ram text. IsTextOf text ram };

    ghost refused = { RefusedHas };

    ghost plain = { λ text number refused. refused.has };

    fn read<S: Source>(alloc: Global, source: &mut S) -> Result<Ram, Answer> {
        ram_of_source(alloc, source)
    }
}

/// What a command has to run: the orders of a text come first, and then the task of what is read.
/// `Err` is the answer where there is none; where the orders are refused, the source is left unread.
pub fn read_task<O: Orders, T: Task, S: Source>(
    alloc: Global,
    text: &[u8],
    processors: u32,
    source: &mut S,
) -> Result<(O, T), Answer>
    requires { IsInRange 1 64 processors }
    ensures accepted { IfOk result (λ task. IsAccepted O.form text.now processors (O.items task.0)) }
    ensures count { IfOk result (λ task. O.count task.0 ≡ processors) }
    ensures said { IfOk result (λ task. ReadsTask T.limit (T.says task.1) (port S.left S.fault_count source.old source.new)) }
    ensures none { IfErr result (NoTaskMay O.form text.now processors T.limit T.refused (port S.left S.fault_count source.old source.new)) }
    ensures one { HasOneAnswer O.form }
{
    // Orders that are accepted are not refused, by this law; the call does nothing.
    have_one_answer();
    match O::read(alloc, text, processors) {
        Ok(orders) => {
            let task = T::read(alloc, source)?;
            Ok((orders, task))
        }
        Err(error) => Err(refusal_answer(error)),
    }
}
