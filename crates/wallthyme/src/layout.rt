//! The structs of `c/wallthyme.h`, field for field, and what they mean to a desk.

ghost use Rattle.std.specs.Prelude.{◌≡◌, ◌≢◌, None, true, false, IfErr, IfOk, OnOk, IfSome};
ghost use Rattle.wallthyme.specs.Candidates.{usage_of as usage_with};
ghost use Rattle.wallthyme.specs.Layout.{sharing_of as sharing_by};
ghost use Rattle.wallthyme.specs.Malformed.{IsSharing, IsUsage};

use crate::status::{ASK, BAD_DEDICATED, BAD_FLAGS, BAD_USAGE, NOT_OPEN, OK};
use gpu_desk::{
    Answer, Answered, Dedicated, FreeRange, Grant, MemoryPropertyFlags, ObjectRange, Sharing,
    UsageFlags, Wish,
};
use gpu_report::{KindReport, Statistics};

/// The named property bits.
const NAMED_PROPERTIES: u32 = 0x3f;

/// A [`Question::kind`]: allocate an object.
pub(crate) const ALLOCATE: u32 = 1;

/// A [`Question::kind`]: map a range of the object that was made last.
pub(crate) const MAP_MADE: u32 = 2;

/// A [`Question::kind`]: map a range of another object.
pub(crate) const MAP: u32 = 3;

/// A [`Question::answer`]: done.
pub(crate) const GRANTED: u32 = 0;

/// A [`Question::answer`]: the device's memory is exhausted.
pub(crate) const NO_DEVICE_MEMORY: u32 = 1;

/// A [`Question::answer`]: host memory is exhausted.
pub(crate) const NO_HOST_MEMORY: u32 = 2;

/// A [`Question::answer`]: the mapping failed for a reason of the device's own.
pub(crate) const DEVICE_MAP_FAILED: u32 = 3;

/// The value of [`Question::answer`] until C writes it. A question that comes back with it is refused.
const UNANSWERED: u32 = u32::MAX;

/// A [`Request::dedicated`]: the block may share its object.
pub(crate) const SHARED: u32 = 0;

/// A [`Request::dedicated`]: the block would gain from an object of its own.
pub(crate) const PREFERRED: u32 = 1;

/// A [`Request::dedicated`]: the block must have an object of its own.
pub(crate) const REQUIRED: u32 = 2;

/// A [`Config::sharing`]: requests share buddy chunks.
pub(crate) const BUDDY: u64 = 0;

/// A [`Config::sharing`]: requests share fit chunks.
pub(crate) const FIT: u64 = 1;

/// A bit of [`Question::flags`] of an object to allocate: it will hold only the request's block. It stands above the
/// bits of the desk's flags.
pub(crate) const ALLOCATE_OWN: u32 = 0x100;

/// A bit of [`Request::flags`], and the only one of [`Block::flags`]: the block is for an optimal resource.
pub(crate) const OPTIMAL: u32 = 1;

/// A bit of [`Request::flags`]: the device is asked for nothing.
pub(crate) const HELD_ONLY: u32 = 2;

/// `wt_memory_type`.
#[repr(C)]
#[derive(Clone, Copy)]
pub struct MemoryType {
    pub heap: u32,
    pub props: u32,
}

/// `wt_limits`.
#[repr(C)]
#[derive(Clone, Copy)]
pub struct Limits {
    pub max_memory_allocation_size: u64,
    pub non_coherent_atom_size: u64,
    pub max_memory_allocation_count: u32,
    pub buffer_device_address: u32,
    pub buffer_image_granularity: u64,
}

/// `wt_config`.
#[repr(C)]
#[derive(Clone, Copy)]
pub struct Config {
    pub dedicated_threshold: u64,
    pub preferred_dedicated_threshold: u64,
    pub transient_dedicated_threshold: u64,
    pub starting_free_list_chunk: u64,
    pub final_free_list_chunk: u64,
    pub minimal_buddy_size: u64,
    pub initial_buddy_dedicated_size: u64,
    pub sharing: u64,
}

/// `wt_request`.
#[repr(C)]
#[derive(Clone, Copy)]
pub struct Request {
    pub size: u64,
    pub align_mask: u64,
    pub usage: u32,
    pub memory_types: u32,
    pub dedicated: u32,
    pub flags: u32,
    pub user: u64,
}

/// `wt_question`.
#[repr(C)]
#[derive(Clone, Copy)]
pub struct Question {
    pub object: u64,
    pub offset: u64,
    pub size: u64,
    pub kind: u32,
    pub memory_type: u32,
    pub flags: u32,
    pub answer: u32,
}

/// `wt_block`.
#[repr(C)]
#[derive(Clone, Copy)]
pub struct Block {
    pub key: u64,
    pub object: u64,
    pub offset: u64,
    pub size: u64,
    pub memory_type: u32,
    pub fresh: u32,
    pub user: u64,
    pub asked: u64,
    pub flags: u32,
    pub reserved: u32,
}

/// `wt_range`.
#[repr(C)]
#[derive(Clone, Copy)]
pub struct Range {
    pub object: u64,
    pub offset: u64,
    pub size: u64,
}

/// `wt_counts`.
#[repr(C)]
#[derive(Clone, Copy)]
pub struct Counts {
    pub blocks: u64,
    pub unread: u64,
    pub held: u32,
    pub remaining: u32,
}

/// `wt_heap_counts`.
#[repr(C)]
#[derive(Clone, Copy)]
pub struct HeapCounts {
    pub used: u64,
    pub used_high: u64,
    pub budget: u64,
    pub limit: u64,
}

/// `wt_kind_statistics`.
#[repr(C)]
#[derive(Clone, Copy)]
pub struct KindStatistics {
    pub objects: u64,
    pub blocks: u64,
    pub live_bytes: u64,
    pub live_bytes_high: u64,
    pub asked_bytes: u64,
    pub asked_bytes_high: u64,
    pub free_bytes: u64,
    pub free_bytes_high: u64,
    pub largest_free: u64,
    pub scattered: u64,
}

/// `wt_type_statistics`.
#[repr(C)]
#[derive(Clone, Copy)]
pub struct TypeStatistics {
    pub dedicated: KindStatistics,
    pub imported: KindStatistics,
    pub buddy: KindStatistics,
    pub free_list: KindStatistics,
    pub fit: KindStatistics,
}

impl From<MemoryType> for gpu_desk::MemoryType {
    ghost use Rattle.wallthyme.specs.Layout.{memory_type_of};

    ghost from_gives = { λ t made. made ≡ memory_type_of t };

    fn from(t: MemoryType) -> gpu_desk::MemoryType {
        gpu_desk::MemoryType {
            heap: t.heap,
            props: MemoryPropertyFlags::from_bits_truncate((t.props & NAMED_PROPERTIES) as u8),
        }
    }
}

impl From<Config> for gpu_desk::Config {
    ghost use Rattle.wallthyme.specs.Layout.{config_of};

    ghost from_gives = { λ config made. made ≡ config_of config };

    fn from(config: Config) -> gpu_desk::Config {
        gpu_desk::Config {
            dedicated_threshold: config.dedicated_threshold,
            preferred_dedicated_threshold: config.preferred_dedicated_threshold,
            transient_dedicated_threshold: config.transient_dedicated_threshold,
            starting_free_list_chunk: config.starting_free_list_chunk,
            final_free_list_chunk: config.final_free_list_chunk,
            minimal_buddy_size: config.minimal_buddy_size,
            initial_buddy_dedicated_size: config.initial_buddy_dedicated_size,
        }
    }
}

/// How requests share objects by this number, if it is one of the two.
pub(crate) fn sharing_of(number: u64) -> Option<Sharing>
    ensures sharing { IfSome result (λ sharing. sharing ≡ sharing_by number) }
    ensures some { result ≢ None → IsSharing number }
    ensures none { result ≡ None → IsSharing number → ⊥ }
{
    match number {
        BUDDY => Some(Sharing::Buddy),
        FIT => Some(Sharing::Fit),
        _ => None,
    }
}

/// The usage of these bits, if each of them is named.
pub(crate) fn usage_of(bits: u32) -> Option<UsageFlags>
    ensures usage { IfSome result (λ usage. usage ≡ usage_with bits) }
    ensures some { result ≢ None → IsUsage bits }
    ensures none { result ≡ None → IsUsage bits → ⊥ }
{
    match u8::try_from(bits) {
        Ok(bits) => UsageFlags::from_bits(bits),
        Err(_) => None,
    }
}

impl Request {
    ghost use Rattle.wallthyme.specs.Layout.{is_held_only, request_of, wish_of};
    ghost use Rattle.wallthyme.specs.Malformed.{HasNames, IsUnnamed};

    /// The desk's request and wish, or the status of the first invalid field: of usage, hint and flags, in this order.
    pub(crate) fn to_parts(self) -> Result<(gpu_desk::Request, Wish), u32>
        ensures request { IfOk result (λ parts. parts.0 ≡ request_of self) }
        ensures wish { IfOk result (λ parts. parts.1 ≡ wish_of self) }
        ensures formed { OnOk result (HasNames self) }
        ensures malformed { IfErr result (IsUnnamed self) }
        ensures failed { IfErr result (λ status. status ≢ OK) }
        ensures unasked { IfErr result (λ status. status ≢ ASK) }
        ensures is_open { IfErr result (λ status. status ≢ NOT_OPEN) }
    {
        let Some(usage) = usage_of(self.usage) else {
            return Err(BAD_USAGE);
        };
        let dedicated = match self.dedicated {
            SHARED => None,
            PREFERRED => Some(Dedicated::Preferred),
            REQUIRED => Some(Dedicated::Required),
            _ => return Err(BAD_DEDICATED),
        };
        if self.flags > OPTIMAL + HELD_ONLY {
            return Err(BAD_FLAGS);
        }
        let request = gpu_desk::Request {
            size: self.size,
            align_mask: self.align_mask,
            usage,
            memory_types: self.memory_types,
        };
        let wish = Wish {
            dedicated,
            optimal: self.flags & OPTIMAL != 0,
            user: self.user,
        };
        Ok((request, wish))
    }

    /// Whether it may be served only from what is held.
    pub(crate) fn is_held_only(&self) -> bool
        ensures { result ≡ is_held_only self.now }
    {
        self.flags & HELD_ONLY != 0
    }
}

impl Question {
    ghost use Rattle.std.specs.Prelude.{nat_lt};
    ghost use Rattle.wallthyme.specs.Layout.{answered_of, asks_own_object, desk_flags_of, question_of};
    ghost use Rattle.wallthyme.specs.Malformed.{IsAsked, is_answered, is_question};

    /// A question as C sees it; `own` says whether the object to allocate will hold only the request's block.
    pub(crate) fn asked(question: gpu_desk::Question, own: bool) -> Question
        ensures question { question_of result ≡ question }
        ensures asked { IsAsked result }
        ensures own { result.kind ≡ ALLOCATE → own ≡ asks_own_object result }
    {
        let (kind, object, offset, size) = match question {
            gpu_desk::Question::Allocate { size, .. } => (ALLOCATE, 0, 0, size),
            gpu_desk::Question::MapMade { offset, size } => (MAP_MADE, 0, offset, size),
            gpu_desk::Question::Map {
                object,
                offset,
                size,
            } => (MAP, object, offset, size),
        };
        let (memory_type, flags) = match question {
            gpu_desk::Question::Allocate {
                memory_type,
                flags,
                ..
            } => (
                memory_type,
                u32::from(flags) + if own { ALLOCATE_OWN } else { 0 },
            ),
            _ => (0, 0),
        };
        Question {
            object,
            offset,
            size,
            kind,
            memory_type,
            flags,
            answer: UNANSWERED,
        }
    }

    /// The question and its answer, if both are valid.
    pub(crate) fn to_answered(self) -> Option<Answered>
        ensures answered { IfSome result (λ answered. answered ≡ answered_of self) }
        ensures some { result ≢ None → is_answered self ≡ true }
        ensures none { result ≡ None → is_answered self ≡ false }
    {
        let question = self.to_question()?;
        let answer = match self.answer {
            GRANTED => Answer::Granted,
            NO_DEVICE_MEMORY => Answer::OutOfDeviceMemory,
            NO_HOST_MEMORY => Answer::OutOfHostMemory,
            DEVICE_MAP_FAILED => Answer::MapFailed,
            _ => return None,
        };
        Some(Answered { question, answer })
    }

    fn to_question(self) -> Option<gpu_desk::Question>
        ensures question { IfSome result (λ question. question ≡ question_of self) }
        ensures some { result ≢ None → is_question self ≡ true }
        ensures none { result ≡ None → is_question self ≡ false }
    {
        match self.kind {
            ALLOCATE => Some(gpu_desk::Question::Allocate {
                size: self.size,
                memory_type: self.memory_type,
                flags: self.desk_flags()?,
            }),
            MAP_MADE => Some(gpu_desk::Question::MapMade {
                offset: self.offset,
                size: self.size,
            }),
            MAP => Some(gpu_desk::Question::Map {
                object: self.object,
                offset: self.offset,
                size: self.size,
            }),
            _ => None,
        }
    }

    /// The desk's flags of an object to allocate, if no other bit is set than theirs and [`ALLOCATE_OWN`].
    fn desk_flags(self) -> Option<u8>
        ensures flags { IfSome result (λ flags. flags ≡ desk_flags_of self) }
        ensures some { result ≢ None → nat_lt self.flags 512 ≡ true }
        ensures none { result ≡ None → nat_lt self.flags 512 ≡ false }
    {
        let flags = if self.flags < ALLOCATE_OWN {
            self.flags
        } else {
            self.flags - ALLOCATE_OWN
        };
        u8::try_from(flags).ok()
    }
}

impl From<Grant> for Block {
    ghost use Rattle.wallthyme.specs.Layout.{grant_of};
    ghost use Rattle.wallthyme.specs.Malformed.{HasFlags};

    ghost from_gives = { λ grant told. (grant_of told ≡ grant) × HasFlags told };

    fn from(grant: Grant) -> Block {
        Block {
            key: grant.key,
            object: grant.object,
            offset: grant.offset,
            size: grant.size,
            memory_type: grant.memory_type,
            fresh: u32::from(grant.fresh),
            user: grant.user,
            asked: grant.asked,
            flags: if grant.optimal { OPTIMAL } else { 0 },
            reserved: 0,
        }
    }
}

impl From<ObjectRange> for Range {
    ghost use Rattle.wallthyme.specs.Layout.{object_range_of};

    ghost from_gives = { λ range told. object_range_of told ≡ range };

    fn from(range: ObjectRange) -> Range {
        Range {
            object: range.object,
            offset: range.offset,
            size: range.size,
        }
    }
}

impl From<FreeRange> for Range {
    ghost use Rattle.wallthyme.specs.Layout.{free_range_of};

    ghost from_gives = { λ range told. told ≡ free_range_of range };

    fn from(range: FreeRange) -> Range {
        Range {
            object: range.object,
            offset: range.start,
            size: range.end.saturating_sub(range.start),
        }
    }
}

impl From<gpu_desk::Counts> for Counts {
    ghost use Rattle.wallthyme.specs.Layout.{counts_of};

    ghost from_gives = { λ counts told. counts_of told ≡ counts };

    fn from(counts: gpu_desk::Counts) -> Counts {
        Counts {
            blocks: counts.blocks,
            unread: counts.unread,
            held: counts.held,
            remaining: counts.remaining,
        }
    }
}

impl From<gpu_desk::HeapCounts> for HeapCounts {
    ghost use Rattle.wallthyme.specs.Layout.{heap_counts_of};

    ghost from_gives = { λ counts told. heap_counts_of told ≡ counts };

    fn from(counts: gpu_desk::HeapCounts) -> HeapCounts {
        HeapCounts {
            used: (counts.used % (1 << 64)) as u64,
            used_high: (counts.used / (1 << 64)) as u64,
            budget: counts.budget,
            limit: counts.limit,
        }
    }
}

impl From<KindReport> for KindStatistics {
    ghost use Rattle.wallthyme.specs.Reports.{AreKindSums};

    ghost from_gives = { λ sums told. AreKindSums sums told };

    fn from(sums: KindReport) -> KindStatistics {
        KindStatistics {
            objects: sums.objects,
            blocks: sums.live_blocks,
            live_bytes: (sums.live_bytes % (1 << 64)) as u64,
            live_bytes_high: (sums.live_bytes / (1 << 64)) as u64,
            asked_bytes: (sums.asked_bytes % (1 << 64)) as u64,
            asked_bytes_high: (sums.asked_bytes / (1 << 64)) as u64,
            free_bytes: (sums.free_bytes % (1 << 64)) as u64,
            free_bytes_high: (sums.free_bytes / (1 << 64)) as u64,
            largest_free: sums.largest_free,
            scattered: sums.scattered,
        }
    }
}

impl From<Statistics> for TypeStatistics {
    ghost use Rattle.wallthyme.specs.Reports.{AreTypeSums};

    ghost from_gives = { λ sums told. AreTypeSums sums told };

    fn from(sums: Statistics) -> TypeStatistics {
        TypeStatistics {
            dedicated: sums.dedicated.into(),
            imported: sums.imported.into(),
            buddy: sums.buddy.into(),
            free_list: sums.free_list.into(),
            fit: sums.fit.into(),
        }
    }
}
