//! What is asked outside, and the answers from there.

ghost use Rattle.std.specs.Prelude.{◌≡◌};
ghost use Rattle.gpu_answers.specs.Asking.{allocation_refusal, map_refusal};

use gpu_alloc_types::{DeviceMapError, OutOfMemory};

/// A question that the device needs answered outside. Calls that cannot fail are not questions.
#[derive(Clone, Copy, Debug, PartialEq, Eq)]
pub enum Question {
    /// To allocate an object (Vulkan's `vkAllocateMemory`).
    Allocate {
        /// Its size in bytes, at least 1.
        size: u64,

        /// The index of its memory type.
        memory_type: u32,

        /// The bits of the allocation flags.
        flags: u8,
    },

    /// To map a range of the object that the run made last, which each run names anew (Vulkan's `vkMapMemory`).
    MapMade {
        /// Where the range starts in the object, in bytes.
        offset: u64,

        /// The size of the range in bytes, at least 1.
        size: u64,
    },

    /// To map a range of another object (Vulkan's `vkMapMemory`).
    Map {
        /// The object's name.
        object: u64,

        /// Where the range starts in the object, in bytes.
        offset: u64,

        /// The size of the range in bytes, at least 1.
        size: u64,
    },
}

/// The answer to a question, from outside.
#[derive(Clone, Copy, Debug, PartialEq, Eq)]
pub enum Answer {
    /// It was done.
    Granted,

    /// The device's memory is exhausted.
    OutOfDeviceMemory,

    /// The host's memory is exhausted.
    OutOfHostMemory,

    /// The mapping failed for a reason of the device's own. To a question to allocate it counts as `OutOfHostMemory`.
    MapFailed,
}

/// A question that was asked outside, with its answer.
#[derive(Clone, Copy, Debug, PartialEq, Eq)]
pub struct Answered {
    /// The question.
    pub question: Question,

    /// Its answer.
    pub answer: Answer,
}

/// Why an allocation that was not granted is refused: `OutOfHostMemory` where there is no answer.
pub(crate) fn allocation_refused(answer: Option<Answer>) -> OutOfMemory
    ensures { result ≡ allocation_refusal answer }
{
    match answer {
        Some(Answer::OutOfDeviceMemory) => OutOfMemory::OutOfDeviceMemory,
        _ => OutOfMemory::OutOfHostMemory,
    }
}

/// Why a mapping that was not granted is refused: `OutOfHostMemory` where there is no answer.
pub(crate) fn map_refused(answer: Option<Answer>) -> DeviceMapError
    ensures { result ≡ map_refusal answer }
{
    match answer {
        Some(Answer::OutOfDeviceMemory) => DeviceMapError::OutOfDeviceMemory,
        Some(Answer::MapFailed) => DeviceMapError::MapFailed,
        _ => DeviceMapError::OutOfHostMemory,
    }
}
