//! Why a report cannot be made.

ghost use Rattle.std.specs.Prelude.{◌≡◌};
ghost use Rattle.gpu_report.specs.declared.error.ReportError.TheVariants.{OutOfHostMemory};

use gpu_alloc::AllocationError;
use std::alloc::AllocError;

/// Why a report cannot be made.
#[derive(Clone, Copy, Debug, PartialEq, Eq)]
pub enum ReportError {
    /// Host memory is exhausted.
    OutOfHostMemory,

    /// A live span belongs to none of the given blocks.
    BlockMissing,
}

impl From<AllocError> for ReportError {
    ghost from_gives = { λ cause e. e ≡ OutOfHostMemory };

    fn from(_cause: AllocError) -> ReportError {
        ReportError::OutOfHostMemory
    }
}
