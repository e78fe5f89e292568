//! Setup lines, which describe the device and the allocator's configuration.

ghost use Rattle.std.specs.Prelude.{◌≡◌};
ghost use Rattle.gpu_alloc_types.specs.Properties.{properties_of};
ghost use Rattle.gpu_sim.specs.declared.sim.question.Cause.TheVariants.{Failed};
ghost use Rattle.gpu_sim.specs.declared.sim.question.Question.TheVariants.{Map};

use crate::fields::Fields;
use crate::line::{LineError, LineStop, meaning_of};
use gpu_alloc::{Config, DeviceProperties, MemoryHeap, MemoryPropertyFlags, MemoryType};
use gpu_sim::{Cause, Question};
use std::alloc::Allocator;

/// The named bits of a memory type's properties.
const NAMED_PROPERTIES: u8 = 0x3f;

/// The first words of setup lines.
#[derive(Clone, Copy)]
pub(crate) enum SetupWord {
    Config,
    Heap,
    Type,
    Limits,
    Atom,
    Address,
    Refuse,
}

/// The meanings of the words of setup lines.
pub(crate) const SETUP_WORDS: [(&str, SetupWord); 7] = [
    ("config", SetupWord::Config),
    ("heap", SetupWord::Heap),
    ("type", SetupWord::Type),
    ("limits", SetupWord::Limits),
    ("atom", SetupWord::Atom),
    ("address", SetupWord::Address),
    ("refuse", SetupWord::Refuse),
];

impl SetupWord {
    /// Whether `count` fields may follow the word.
    fn takes(self, count: usize) -> bool {
        match self {
            SetupWord::Config => count == 1 || count == 7,
            SetupWord::Heap | SetupWord::Atom => count == 1,
            SetupWord::Type | SetupWord::Limits => count == 2,
            SetupWord::Address => count == 0,
            SetupWord::Refuse => count == 3,
        }
    }
}

/// A question that the device refuses. Only a map may fail.
#[derive(Clone, Copy)]
pub struct Refusal {
    /// Its kind.
    pub kind: Question,

    /// Its number among the questions of that kind, from 1.
    pub nth: u64,

    /// The answer to it.
    pub cause: Cause,
    ghost only_maps_fail: { cause ≡ Failed → kind ≡ Map },
}

/// The device and the configuration that setup lines describe. What the device offers need not be usable.
#[derive(Drop)]
pub struct Setup<A: Allocator> {
    /// The allocator's sizes and thresholds.
    pub config: Config,

    /// The device's memory types, in the order of their lines.
    pub memory_types: Vec<MemoryType, A>,

    /// Its heaps.
    pub memory_heaps: Vec<MemoryHeap, A>,

    /// How many objects it holds at once.
    pub max_memory_allocation_count: u32,

    /// The most bytes of one object.
    pub max_memory_allocation_size: u64,

    /// Its atom, in bytes.
    pub non_coherent_atom_size: u64,

    /// Whether it gives device addresses.
    pub buffer_device_address: bool,

    /// The questions that it refuses.
    pub refusals: Vec<Refusal, A>,
}

impl<A: Allocator + Copy> Setup<A> {
    ghost use Rattle.gpu_script_language.specs.Setup.{offered};

    /// A setup without lines: the potato's configuration, no heaps and no memory types.
    pub(crate) fn new(alloc: A) -> Self {
        Setup {
            config: Config::i_am_potato(),
            memory_types: Vec::new(alloc),
            memory_heaps: Vec::new(alloc),
            max_memory_allocation_count: 4096,
            max_memory_allocation_size: 1 << 30,
            non_coherent_atom_size: 1,
            buffer_device_address: false,
            refusals: Vec::new(alloc),
        }
    }

    /// What the device offers.
    pub fn properties(&self) -> DeviceProperties<'_>
        ensures { properties_of result ≡ offered self.now }
    {
        DeviceProperties {
            memory_types: self.memory_types.as_slice(),
            memory_heaps: self.memory_heaps.as_slice(),
            max_memory_allocation_count: self.max_memory_allocation_count,
            max_memory_allocation_size: self.max_memory_allocation_size,
            non_coherent_atom_size: self.non_coherent_atom_size,
            buffer_device_address: self.buffer_device_address,
        }
    }

    /// Takes the rest of a line that begins with a setup word.
    pub(crate) fn take_line(
        &mut self,
        word: SetupWord,
        mut fields: Fields<'_>,
    ) -> Result<(), LineStop> {
        let count = fields.count();
        if !word.takes(count) {
            return Err(LineStop::Bad(LineError::WrongNumberOfFields));
        }
        match word {
            SetupWord::Config if count == 1 => self.config = read_named_config(&mut fields)?,
            SetupWord::Config => self.config = read_config(&mut fields)?,
            SetupWord::Heap => self.memory_heaps.push(read_heap(&mut fields)?)?,
            SetupWord::Type => self.memory_types.push(read_memory_type(&mut fields)?)?,
            SetupWord::Limits => {
                self.max_memory_allocation_count = fields.next_u32()?;
                self.max_memory_allocation_size = fields.next_u64()?;
            }
            SetupWord::Atom => self.non_coherent_atom_size = fields.next_u64()?,
            SetupWord::Address => self.buffer_device_address = true,
            SetupWord::Refuse => self.refusals.push(read_refusal(&mut fields)?)?,
        }
        Ok(())
    }
}

/// A default configuration by its name.
fn read_named_config(fields: &mut Fields<'_>) -> Result<Config, LineError> {
    let configs = [
        ("potato", Config::i_am_potato()),
        ("prototyping", Config::i_am_prototyping()),
    ];
    meaning_of(&configs, fields.next())
}

/// A configuration by its seven numbers.
fn read_config(fields: &mut Fields<'_>) -> Result<Config, LineError> {
    Ok(Config {
        dedicated_threshold: fields.next_u64()?,
        preferred_dedicated_threshold: fields.next_u64()?,
        transient_dedicated_threshold: fields.next_u64()?,
        starting_free_list_chunk: fields.next_u64()?,
        final_free_list_chunk: fields.next_u64()?,
        minimal_buddy_size: fields.next_u64()?,
        initial_buddy_dedicated_size: fields.next_u64()?,
    })
}

fn read_heap(fields: &mut Fields<'_>) -> Result<MemoryHeap, LineError> {
    let size = fields.next_u64()?;
    Ok(MemoryHeap { size })
}

fn read_memory_type(fields: &mut Fields<'_>) -> Result<MemoryType, LineError> {
    let heap = fields.next_u32()?;
    let props = MemoryPropertyFlags::from_bits_retain(fields.next_u8(NAMED_PROPERTIES)?);
    Ok(MemoryType { heap, props })
}

/// The kinds of questions that may be refused.
const KINDS: [(&str, Question); 4] = [
    ("allocate", Question::Allocate),
    ("map", Question::Map),
    ("flush", Question::Flush),
    ("invalidate", Question::Invalidate),
];

/// Why they may be refused.
const CAUSES: [(&str, Cause); 3] = [
    ("device", Cause::Device),
    ("host", Cause::Host),
    ("failed", Cause::Failed),
];

/// Reads a kind of question, its number among those of that kind, and the cause. Only a map may fail.
fn read_refusal(fields: &mut Fields<'_>) -> Result<Refusal, LineError> {
    let kind = meaning_of(&KINDS, fields.next())?;
    let nth = fields.next_u64()?;
    if nth == 0 {
        return Err(LineError::BadNumber);
    }
    let cause = meaning_of(&CAUSES, fields.next())?;
    match (cause, kind) {
        (Cause::Failed, Question::Allocate | Question::Flush | Question::Invalidate) => {
            return Err(LineError::UnknownWord);
        }
        _ => {}
    }
    Ok(Refusal { kind, nth, cause })
}
