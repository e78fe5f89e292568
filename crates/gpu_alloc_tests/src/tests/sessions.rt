//! Sessions whose allocators share chunks in either way, over lists of commands drawn from a fixed seed. A block of a
//! fit chunk must be exactly as long as requested, in whole grains, in a gap with room. One of a buddy chunk must be
//! the front of a shortest free piece with room. What is answered, held, free and reported is compared with plain lists
//! of objects and live blocks, and so is how often the device was asked in the end.

mod model;

ghost use Rattle.std.specs.Prelude.{◌≡◌};
ghost use Rattle.gpu_alloc_types.specs.Properties.{IsUsable, properties_of};

use super::drawn::{Call, Chance, Done, came_often, length_of, range_of};
use super::lists::Range;
use super::offers::{again, are_usable};
use super::same::{holds, never, same, same_at};
use gpu_alloc::{
    Config, Dedicated, DeviceProperties, MemoryForUsage, MemoryHeap, MemoryPropertyFlags,
    MemoryType, Request, Sharing, UsageFlags,
};
use gpu_report::Report;
use gpu_script_language::SimSession;
use gpu_session::{Command, Reply, Session};
use gpu_sim::{Cause, Question, Sim};
use model::{CASES, Came, Model, Tally};
use std::alloc::{AllocError, Global};
use std::process::Abort;
use std::test::Fail;

/// How many lists are drawn.
const LISTS: u64 = 24;

/// How many commands a list has, before those that return what is left.
const COMMANDS: u32 = 96;

/// The heaps: one with room for many chunks, one for few, and one that is too small for any.
const HEAPS: [MemoryHeap; 3] = [
    MemoryHeap { size: 1 << 20 },
    MemoryHeap { size: 1 << 17 },
    MemoryHeap { size: 4000 },
];

/// The memory types: device-local, non-coherent, coherent, and device-local.
fn memory_types() -> [MemoryType; 4] {
    [(0, 1), (0, 2), (1, 6), (2, 1)].map(|(heap, props)| MemoryType {
        heap,
        props: MemoryPropertyFlags::from_bits_retain(props),
    })
}

/// A drawn request.
#[derive(Clone, Copy, Debug)]
struct Ask {
    request: Request,
    hint: Option<Dedicated>,
}

impl Ask {
    /// Whether it is for a short while.
    fn is_brief(&self) -> bool {
        self.request.usage.contains(UsageFlags::TRANSIENT)
    }

    /// The command that asks for it under a name.
    fn command(&self, name: u32) -> Command {
        let request = self.request;
        match self.hint {
            Some(dedicated) => Command::Dedicated {
                name,
                request,
                dedicated,
            },
            None => Command::Alloc { name, request },
        }
    }
}

/// A drawn request: for as many bytes as a gap has, for more than the first chunk has, or for few.
fn draw_ask(model: &Model, chance: &mut Chance) -> Result<Ask, AllocError> {
    let memory_type = (chance.next() % 4) as u32;
    let size = match chance.next() % 16 {
        0..=1 => chance.next() % 12288 + 1,
        2 => chance.next() % 300_000 + 1,
        3..=6 => gap_size(model, memory_type, chance)?,
        7 => chance.next() % 124 + 1,
        _ => chance.size(),
    };
    let usage = match chance.next() % 6 {
        0 => UsageFlags::FAST_DEVICE_ACCESS.union(UsageFlags::TRANSIENT),
        _ => UsageFlags::FAST_DEVICE_ACCESS,
    };
    let memory_types = match chance.next() % 32 {
        0 => 0,
        1..=8 => 1 << memory_type | 1 << (chance.next() % 4),
        _ => 1 << memory_type,
    };
    let hint = match chance.next() % 24 {
        0 => Some(Dedicated::Required),
        1 => Some(Dedicated::Preferred),
        _ => None,
    };
    let request = Request {
        size,
        align_mask: chance.align_mask(),
        usage,
        memory_types,
    };
    Ok(Ask { request, hint })
}

/// The size of a drawn gap of a memory type's chunks, if there is one.
fn gap_size(model: &Model, memory_type: u32, chance: &mut Chance) -> Result<u64, AllocError> {
    let gaps = model.gaps(memory_type, None)?;
    let drawn = chance.next() as usize;
    let at = drawn.checked_rem(gaps.len()).unwrap_or(0);
    Ok(gaps.get(at).map_or(256, |gap| length_of(gap).max(1)))
}

/// A session over a device with this atom that allows this many objects. The device refuses these questions: to make an
/// object, for want of its own memory and of the host's, and to map one.
fn open(
    rt: &impl Abort,
    alloc: Global,
    sharing: Sharing,
    atom: u64,
    most: u32,
    refused: [u64; 3],
) -> Result<SimSession<Global>, Fail> {
    let types = memory_types();
    let offered = DeviceProperties {
        memory_types: &types,
        memory_heaps: &HEAPS,
        max_memory_allocation_count: most,
        max_memory_allocation_size: 1 << 30,
        non_coherent_atom_size: atom,
        buffer_device_address: false,
    };
    are_usable(rt, &offered);
    let mut device = Sim::new(alloc, again(&offered))?;
    refuse(rt, &mut device, refused);
    open_over(alloc, offered, device, sharing)
}

/// A session over a device that offers these.
pub(super) fn open_over(
    alloc: Global,
    offered: DeviceProperties<'_>,
    device: Sim,
    sharing: Sharing,
) -> Result<SimSession<Global>, Fail>
    requires usable { IsUsable (properties_of offered) }
    requires same { device.properties ≡ properties_of offered }
{
    match Session::with_sharing(alloc, Config::i_am_potato(), offered, device, sharing) {
        Ok(session) => Ok(session),
        Err(refusal) => {
            drop(refusal.device);
            Err(Fail::from("no memory for a session"))
        }
    }
}

/// Has the device refuse those questions.
fn refuse(rt: &impl Abort, device: &mut Sim, refused: [u64; 3])
    ensures { device.new.properties ≡ device.old.properties }
{
    let first = device.refuse(Question::Allocate, refused[0], Cause::Device);
    same(rt, "a plan", &first, &Ok(()));
    let second = device.refuse(Question::Allocate, refused[1], Cause::Host);
    same(rt, "a plan", &second, &Ok(()));
    let third = device.refuse(Question::Map, refused[2], Cause::Failed);
    same(rt, "a plan", &third, &Ok(()));
}

/// The result of a request.
fn came_of(rt: &impl Abort, replies: &[Reply]) -> Came {
    match replies.first() {
        Some(
            Reply::Granted {
                memory_type,
                object,
                offset,
                size,
            },
        ) => Ok((*memory_type, range_of(*object, *offset, *size))),
        Some(Reply::Refused(refusal)) => Err(*refusal),
        _ => never(rt, "no answer to a request"),
    }
}

/// Runs a command, and then those that ask what is free and held.
fn call(
    alloc: Global,
    session: &mut SimSession<Global>,
    command: Command,
) -> Result<Vec<Reply>, AllocError> {
    let mut commands = Vec::new(alloc);
    commands.push(command)?;
    for memory_type in 0..4 {
        commands.push(Command::FreeRanges { memory_type })?;
    }
    commands.push(Command::Counts)?;
    session.run(commands.as_slice())
}

/// Compares what is free of each memory type and what is held.
fn compare(rt: &impl Abort, model: &Model, replies: &[Reply]) -> Done {
    for memory_type in 0..4u32 {
        let gaps = model.gaps(memory_type, None)?;
        let Some(Reply::Ranges(ranges)) = replies.get(memory_type as usize + 1) else {
            return never(rt, "no ranges");
        };
        let (came, wanted) = (ranges.as_slice(), gaps.as_slice());
        same_at(rt, "what is free of", &memory_type, &came, &wanted);
    }
    match replies.get(5) {
        Some(
            Reply::Counts {
                remaining,
                held,
                used,
            },
        ) => {
            let came = (*remaining, *held, used.as_slice());
            let (remaining, held, used) = model.counts();
            let wanted: (u32, u32, &[u128]) = (remaining, held, &used);
            same(rt, "what is held", &came, &wanted);
        }
        _ => never(rt, "no counts"),
    }
    Ok(())
}

/// Compares what a report says of the chunks that are shared that way.
fn compare_report(
    rt: &impl Abort,
    alloc: Global,
    session: &SimSession<Global>,
    model: &Model,
) -> Done {
    let report = Report::of_session(alloc, session)?;
    for memory_type in 0..4u32 {
        let mut told = (0, 0, 0, 0);
        for kind in &report.kinds {
            if kind.memory_type == memory_type && kind.kind == model.kind() {
                let (blocks, bytes) = (kind.live_blocks, kind.live_bytes);
                told = (kind.objects, blocks, bytes, kind.free_bytes);
            }
        }
        let wanted = model.sums(memory_type);
        same_at(rt, "what is reported of", &memory_type, &told, &wanted);
    }
    Ok(())
}

/// Runs a drawn command, and compares its result: asks for a block under a name, returns a block, if one is live,
/// or cleans up.
fn step(
    rt: &impl Abort,
    alloc: Global,
    session: &mut SimSession<Global>,
    model: &mut Model,
    chance: &mut Chance,
    (drawn, name): (Call, u32),
) -> Done {
    let replies = match drawn {
        Call::Take => {
            let ask = draw_ask(model, chance)?;
            let replies = call(alloc, session, ask.command(name))?;
            model.take(rt, name, &ask, came_of(rt, replies.as_slice()))?;
            replies
        }
        Call::Return => {
            let number = chance.next() as usize;
            let at = number.checked_rem(model.names.len()).unwrap_or(0);
            let Some(name) = model.names.get(at).copied() else {
                return Ok(());
            };
            model.put_back(rt, at)?;
            call(alloc, session, Command::Free { name })?
        }
        Call::Clean => {
            model.clean()?;
            call(alloc, session, Command::Cleanup)?
        }
    };
    let is_done = matches!(replies.first(), Some(Reply::Done));
    let is_take = matches!(drawn, Call::Take);
    holds(rt, is_done || is_take, "a return or a cleanup fails");
    compare(rt, model, replies.as_slice())
}

/// Runs the drawn commands of a list, more than half of which allocate a block, and then returns what is left and
/// cleans up.
fn run(
    rt: &impl Abort,
    alloc: Global,
    session: &mut SimSession<Global>,
    model: &mut Model,
    chance: &mut Chance,
) -> Done {
    for name in 0..COMMANDS {
        let drawn = match chance.next() % 32 {
            0 => Call::Clean,
            1..=13 => Call::Return,
            _ => Call::Take,
        };
        step(rt, alloc, session, model, chance, (drawn, name))?;
        if name % 16 == 15 {
            compare_report(rt, alloc, session, model)?;
        }
    }
    for _ in 0..model.names.len() {
        step(rt, alloc, session, model, chance, (Call::Return, 0))?;
    }
    step(rt, alloc, session, model, chance, (Call::Clean, 0))
}

/// Draws a list, runs its commands, and ends the session. Returns which cases the lists met.
fn try_list(
    rt: &impl Abort,
    alloc: Global,
    chance: &mut Chance,
    sharing: Sharing,
    tally: Tally,
) -> Result<Tally, Fail> {
    let refused = [chance.next() % 12, chance.next() % 24, chance.next() % 6];
    let atom = if chance.next() % 2 == 0 { 64 } else { 1024 };
    let most = if chance.next() % 2 == 0 { 9 } else { 4096 };
    let mut session = open(rt, alloc, sharing, atom, most, refused)?;
    let ranks = MemoryForUsage::new(&memory_types());
    let mut model = Model::new(alloc, sharing, ranks, atom, most, refused, tally);
    let ran = run(rt, alloc, &mut session, &mut model, chance);
    let device = session.finish();
    let asked = (
        device.asked(Question::Allocate),
        device.asked(Question::Map),
    );
    let left = device.objects();
    drop(device);
    same(rt, "a list", &ran, &Ok(()));
    same(rt, "how often the device was asked", &asked, &model.asked());
    let nothing = (most, 0, [0; 3]);
    let held = (left, model.names.len(), model.counts());
    same(rt, "what is left at the end", &held, &(0, 0, nothing));
    Ok(model.tally)
}

/// If not, blocks would share bytes or be longer than requested, a device would be asked for chunks that nobody needs,
/// or a chunk would never be released.
#[test]
fn drawn_sessions_share_chunks(rt: HostRuntime) -> Result<(), Fail> {
    let mut chance = Chance { state: 41 };
    let mut tally = [0; 17];
    for sharing in [Sharing::Fit, Sharing::Buddy] {
        for _ in 0..LISTS {
            tally = try_list(&rt, rt.alloc(), &mut chance, sharing, tally)?;
        }
    }
    came_often(&rt, &CASES, &tally, LISTS / 8);
    Ok(())
}
