//! Why a call of a desk fails.

ghost use Rattle.std.specs.Prelude.{◌≡◌};
ghost use Rattle.gpu_desk.specs.Calls.{denial_after};

use crate::{AllocationError, Fault, MapError, Question};
use gpu_answers::AnsweredDevice;

/// Why a desk cannot be opened. Nothing is kept then.
#[derive(Clone, Copy, Debug, PartialEq, Eq)]
pub enum OpenError {
    /// No allocator can serve these properties (`DeviceProperties::is_usable`), or the granularity is invalid.
    BadProperties,

    /// Host memory is exhausted.
    OutOfHostMemory,
}

/// Why a call is denied. Nothing has changed then.
#[derive(Clone, Copy, Debug, PartialEq, Eq)]
pub enum Denial {
    /// A question has no answer yet: make the call again, with its answer after those so far.
    Open {
        /// The question.
        question: Question,

        /// Whether it is for an object that will hold only this request's block. Its size is then exactly the
        /// request's.
        own: bool,
    },

    /// An answer belongs to a different question from the one that is asked in its place.
    Strayed,

    /// No held chunk has a place for the block, and the call asks the device for nothing
    /// ([`alloc_held`](crate::Desk::alloc_held)).
    WouldAsk,

    /// The allocation is refused.
    Refused(AllocationError),

    /// The mapping is refused.
    MapRefused(MapError),

    /// The call misses a condition, or host memory is missing for the desk itself.
    Fault(Fault),
}

/// Why a run that ended in this refusal fails: for its open question, an answer to another question, or the refusal
/// itself. `own` says whether the open question is for an object of the block's own.
pub(crate) fn denial_after(device: &AnsweredDevice, own: bool, refusal: Denial) -> Denial
    ensures { result ≡ denial_after (λ question. own) (device.now).run.stop refusal }
{
    match device.open() {
        Some(question) => Denial::Open { question, own },
        None if device.has_strayed() => Denial::Strayed,
        None => refusal,
    }
}
