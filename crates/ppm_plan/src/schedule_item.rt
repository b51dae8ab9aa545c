//! The items of schedules.
ghost use Rattle.std.specs.Prelude.{◌≡◌};
ghost use Rattle.ppm_plan.specs.Items.{steps_of, stepping, stepping_at, times_in_range as in_range};
ghost use Rattle.ppm_plan.specs.Items.{failing as failing_by, fault_of as fault_written};
ghost use Rattle.ppm_plan.specs.Items.{repeated as repeated_steps, failing_or_steps};
ghost use Rattle.ppm_plan.specs.Forms.{victim_outside as victim_is_outside, act_outside, act_kills};
ghost use Rattle.ppm_pieces.specs.Pieces.{halves_of};

use crate::fault::Fault;
use crate::item::Item;
use ppm_pieces::{number, split_once};

/// The most times that one item stands for.
pub const MOST_TIMES: u32 = 268_435_456;

/// What one processor does. Processors count from 0.
#[derive(Clone, Copy, Debug, PartialEq, Eq)]
pub enum ScheduledAct {
    /// It makes a step. If the step looks for work, it looks at this victim; where none is stated,
    /// at the one whose turn it is.
    Step { processor: u32, victim: Option<u32> },
    /// A fault befalls it.
    Fails { processor: u32, fault: Fault },
}

/// An act, and how often it is done: once if it is a fault, a step from 1 to 268,435,456 times.
#[derive(Clone, Copy, Debug, PartialEq, Eq)]
pub struct ScheduleItem {
    pub act: ScheduledAct,
    pub times: u32,
}

/// Steps of a processor, perhaps with a victim.
fn steps(step: &[u8], times: u32) -> Option<ScheduleItem>
    ensures { result ≡ steps_of step.now (halves_of 62 step.now) times }
{
    match split_once(step, b'>') {
        Some((processor, victim)) => step_at(number(processor), number(victim), times),
        None => step_alone(number(step), times),
    }
}

fn step_alone(processor: Option<u32>, times: u32) -> Option<ScheduleItem>
    ensures { result ≡ stepping processor times }
{
    match processor {
        Some(processor) => Some(ScheduleItem {
            act: ScheduledAct::Step {
                processor,
                victim: None,
            },
            times,
        }),
        None => None,
    }
}

fn step_at(processor: Option<u32>, victim: Option<u32>, times: u32) -> Option<ScheduleItem>
    ensures { result ≡ stepping_at processor victim times }
{
    match processor {
        Some(processor) => match victim {
            Some(victim) => Some(ScheduleItem {
                act: ScheduledAct::Step {
                    processor,
                    victim: Some(victim),
                },
                times,
            }),
            None => None,
        },
        None => None,
    }
}

/// A number of times, if it is from 1 to the most.
fn times_in_range(times: Option<u32>) -> Option<u32>
    ensures { result ≡ in_range times }
{
    match times {
        Some(times) => {
            if 1 <= times {
                if times <= MOST_TIMES {
                    Some(times)
                } else {
                    None
                }
            } else {
                None
            }
        }
        None => None,
    }
}

/// Steps, perhaps with how often they are made.
fn repeated(piece: &[u8]) -> Option<ScheduleItem>
    ensures { result ≡ repeated_steps piece.now (halves_of 42 piece.now) }
{
    match split_once(piece, b'*') {
        Some((step, times)) => match times_in_range(number(times)) {
            Some(times) => steps(step, times),
            None => None,
        },
        None => steps(piece, 1),
    }
}

/// The fault of a letter, with nothing after it.
fn fault_of(letter: &[u8]) -> Option<Fault>
    ensures { result ≡ fault_written letter.now }
{
    match letter {
        [] => None,
        [byte, rest @ ..] => match rest {
            [] => {
                if *byte <= 115 && 115 <= *byte {
                    return Some(Fault::Soft);
                }
                if *byte <= 104 && 104 <= *byte {
                    return Some(Fault::Hard);
                }
                None
            }
            [_, ..] => None,
        },
    }
}

fn failing(processor: Option<u32>, fault: Option<Fault>) -> Option<ScheduleItem>
    ensures { result ≡ failing_by processor fault }
{
    match processor {
        Some(processor) => match fault {
            Some(fault) => Some(ScheduleItem {
                act: ScheduledAct::Fails { processor, fault },
                times: 1,
            }),
            None => None,
        },
        None => None,
    }
}

fn victim_outside(victim: Option<u32>, processors: u32) -> bool
    ensures { result ≡ victim_is_outside processors victim }
{
    match victim {
        Some(victim) => !(victim < processors),
        None => false,
    }
}

impl ScheduledAct {
    fn is_outside(self, processors: u32) -> bool
        ensures { result ≡ act_outside processors self }
    {
        match self {
            ScheduledAct::Step { processor, victim } => {
                !(processor < processors) || victim_outside(victim, processors)
            }
            ScheduledAct::Fails { processor, .. } => !(processor < processors),
        }
    }

    fn kills(self, killed: u32) -> bool
        ensures { result ≡ act_kills killed self }
    {
        match self {
            ScheduledAct::Step { .. } => false,
            ScheduledAct::Fails { processor, fault } => fault.is_hard() && processor == killed,
        }
    }
}

impl Item for ScheduleItem {
    ghost use Rattle.ppm_plan.specs.Forms.{schedule_form};

    ghost form = { schedule_form };

    fn read(piece: &[u8]) -> Option<ScheduleItem> {
        match split_once(piece, b'!') {
            Some((processor, letter)) => failing(number(processor), fault_of(letter)),
            None => repeated(piece),
        }
    }

    fn is_outside(&self, processors: u32) -> bool {
        self.act.is_outside(processors)
    }

    fn kills(&self, processor: u32) -> bool {
        self.act.kills(processor)
    }
}
