//! What a device is asked, and why it refuses.

ghost use Rattle.std.specs.Prelude.{◌≡◌, OnOk, OnErr};
ghost use Rattle.gpu_sim.specs.Question.{at, with_plan, refusal_of, map_refusal_of};

use crate::sim::numbered::Numbered;
use gpu_alloc_types::{DeviceMapError, OutOfMemory};
use std::alloc::{AllocError, Allocator};

/// A kind of question to a device, one that may be refused.
#[derive(Clone, Copy, Debug, PartialEq, Eq, Hash)]
pub enum Question {
    /// To allocate.
    Allocate,

    /// To map.
    Map,

    /// To flush.
    Flush,

    /// To invalidate.
    Invalidate,
}

/// Why a question is refused.
#[derive(Clone, Copy, Debug, PartialEq, Eq, Hash)]
pub enum Cause {
    /// The device's memory is exhausted.
    Device,

    /// The host's memory is exhausted.
    Host,

    /// The mapping failed for a reason of the device's own. Only for [`Question::Map`].
    Failed,
}

impl Cause {
    /// The answer to a question for memory. `Failed`, which is never planned for such a question, counts as the
    /// device's.
    pub(super) fn out_of_memory(self) -> OutOfMemory
        ensures { result ≡ refusal_of self }
    {
        match self {
            Cause::Host => OutOfMemory::OutOfHostMemory,
            Cause::Device | Cause::Failed => OutOfMemory::OutOfDeviceMemory,
        }
    }

    /// The answer to a question to map.
    pub(super) fn map_error(self) -> DeviceMapError
        ensures { result ≡ map_refusal_of self }
    {
        match self {
            Cause::Device => DeviceMapError::OutOfDeviceMemory,
            Cause::Host => DeviceMapError::OutOfHostMemory,
            Cause::Failed => DeviceMapError::MapFailed,
        }
    }
}

/// One `T` for each kind of question.
#[derive(Drop)]
pub(super) struct ByKind<T> {
    pub(super) allocate: T,
    pub(super) map: T,
    pub(super) flush: T,
    pub(super) invalidate: T,
}

impl<T> ByKind<T> {
    /// The one for a kind.
    pub(super) fn at(&self, kind: Question) -> &T
        ensures { result.now ≡ at self.now kind }
    {
        match kind {
            Question::Allocate => &self.allocate,
            Question::Map => &self.map,
            Question::Flush => &self.flush,
            Question::Invalidate => &self.invalidate,
        }
    }
}

impl<A: Allocator + Copy> ByKind<Numbered<Cause, A>> {
    /// Plans a refusal of the `nth` question of a kind, unless one is planned already. Without memory nothing changes.
    pub(super) fn plan(&mut self, kind: Question, nth: u64, cause: Cause) -> Result<(), AllocError>
        ensures ok { OnOk result (self.new ≡ with_plan self.old kind nth cause) }
        ensures err { OnErr result (self.new ≡ self.old) }
    {
        if self.at(kind).get(nth).is_some() {
            return Ok(());
        }
        match kind {
            Question::Allocate => self.allocate.insert(nth, cause),
            Question::Map => self.map.insert(nth, cause),
            Question::Flush => self.flush.insert(nth, cause),
            Question::Invalidate => self.invalidate.insert(nth, cause),
        }
    }
}
