//! Why a text is no plan, or no schedule.
ghost use Rattle.std.specs.Prelude.{◌≡◌};
ghost use Rattle.ppm_plan.specs.Refusals.{number_of};

use ppm_words::NoMemory;
use std::alloc::{AllocError, AllocFailed};
use thiserror::Error;

/// Why a text is no plan, or no schedule. Items count from 1. Each is looked for over the whole
/// text, in this order.
#[derive(Clone, Copy, Debug, PartialEq, Eq, Error)]
pub enum PlanError {
    /// The first item that is not of the form.
    #[error("item {0} is not of the form")]
    BadItem(u64),
    /// The first item that names a processor, or a victim, which is not there.
    #[error("item {0} names a processor that is not there")]
    NoSuchProcessor(u64),
    /// More than 4,096 items.
    #[error("more than 4096 items")]
    TooManyFaults,
    /// Each processor has a hard fault.
    #[error("no processor is spared")]
    AllKilled,
    /// Memory was refused.
    #[error("out of memory")]
    NoMemory,
}

impl PlanError {
    /// The number of the fault: 1 `BadItem`, 2 `NoSuchProcessor`, 3 `TooManyFaults`, 4 `AllKilled`;
    /// 0 where memory was refused.
    pub fn number(self) -> u32
        ensures { result ≡ number_of self }
    {
        match self {
            PlanError::BadItem(_) => 1,
            PlanError::NoSuchProcessor(_) => 2,
            PlanError::TooManyFaults => 3,
            PlanError::AllKilled => 4,
            PlanError::NoMemory => 0,
        }
    }
}

impl<T: Drop> From<AllocFailed<T>> for PlanError {
    ghost use Rattle.std.specs.Prelude.{◌≡◌};
    ghost use Rattle.ppm_plan.specs.declared.plan_error.PlanError.TheVariants.{NoMemory};

    ghost from_gives = { λ _ e. e ≡ NoMemory };

    fn from(_: AllocFailed<T>) -> Self {
        PlanError::NoMemory
    }
}

impl From<AllocError> for PlanError {
    ghost use Rattle.std.specs.Prelude.{◌≡◌};
    ghost use Rattle.ppm_plan.specs.declared.plan_error.PlanError.TheVariants.{NoMemory};

    ghost from_gives = { λ _ e. e ≡ NoMemory };

    fn from(_: AllocError) -> Self {
        PlanError::NoMemory
    }
}

impl From<NoMemory> for PlanError {
    ghost use Rattle.std.specs.Prelude.{◌≡◌};
    ghost use Rattle.ppm_plan.specs.declared.plan_error.PlanError.TheVariants.{NoMemory};

    ghost from_gives = { λ _ e. e ≡ NoMemory };

    fn from(_: NoMemory) -> Self {
        PlanError::NoMemory
    }
}
