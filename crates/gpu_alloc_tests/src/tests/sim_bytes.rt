//! The bytes of an object of the simulated device: what the host sees once it and the device have written, and which
//! part of a range is copied.

ghost use Rattle.std.specs.Prelude.{◌≡◌, ◌+◌, ◌≤◌, ◌<◌, IsTrue};

use super::same::{holds, same, same_at};
use super::sim::{Device, NONE, Plan};
use Act::{Coherent, Flush, FlushTwo, Fresh, Invalidate, Put, Remap, See, Told, Write};
use gpu_alloc_types::{
    AllocationFlags, MappedMemoryRange, MemoryDevice, MemoryObject, OutOfMemory,
};
use gpu_sim::{Question, Sim, SimMemory};
use std::alloc::Global;
use std::marker::Model;
use std::process::Abort;
use std::test::Fail;

const SIZE: u64 = 8;

/// What is shown, and the number of an act.
type At = (&'static str, usize);

/// What is wrong with a range that does not lie in the object.
const OUTSIDE: &str = "a range outside the object";

/// Whether a range lies in the object and is not empty.
fn is_inside(offset: u64, size: u64) -> bool
    ensures some { IsTrue result → 0 < size }
    ensures inside { IsTrue result → offset + size ≤ 8 }
{
    size > 0 && u128::from(offset) + u128::from(size) <= u128::from(SIZE)
}

/// A device of one memory type with an object of 8 bytes, all of which are mapped. Contracts see the object's name.
#[derive(Drop)]
struct Mapped {
    sim: Sim,
    memory: SimMemory,
}

impl Model for Mapped {
    ghost use Rattle.std.specs.Prelude.{◌≡◌, ℕ, IsTrue, Some};
    ghost use Rattle.gpu_alloc_types.specs.Device.{HeldWith};
    ghost use Rattle.gpu_alloc_types.specs.Properties.{is_host_visible};
    ghost use Rattle.gpu_sim.specs.Sim.{objects_of};

    ghost Value = { ℕ };

    ghost view = { λ d. d.memory };

    ghost invariant = { λ d. HeldWith (objects_of d.sim) d.memory (λ o. (o.mapped ≡ Some (0, 8)) × (o.size ≡ 8)
        × IsTrue (is_host_visible (d.sim).properties o.memory_type))
        × ((d.sim).properties.non_coherent_atom_size ≡ 1) };
}

impl Mapped {
    /// An object of that device. Its questions are granted.
    fn new(rt: &impl Abort, device: Device) -> Result<Mapped, Fail> {
        let Device { mut sim } = device;
        let flags = AllocationFlags::from_bits_retain(0);
        let memory = sim.allocate_memory(SIZE, 0, flags).expect(rt, "an object");
        sim.map_memory(&memory, 0, SIZE).expect(rt, "a map");
        Ok(Mapped { sim, memory })
    }

    fn act(&mut self, rt: &impl Abort, at: At, act: Act) {
        match act {
            Fresh(_, _) | Coherent(_) => {}
            Put(offset, bytes) => self.put(rt, offset, &bytes),
            Write(offset, bytes, answer) => {
                let given = self.write(offset, &bytes);
                same_at(rt, "the write of act", &at, &given, &answer);
            }
            Flush(offset, size, answer) => {
                let given = self.flush(rt, offset, size);
                same_at(rt, "the flush of act", &at, &given, &answer);
            }
            FlushTwo => self.flush_two_and_none(rt),
            Invalidate(offset, size, answer) => {
                let given = self.invalidate(rt, offset, size);
                same_at(rt, "the invalidation of act", &at, &given, &answer);
            }
            Remap => self.unmap_and_map(rt),
            See(bytes) => same_at(rt, "what is seen at act", &at, &self.read(), &bytes),
            Told(flushes, invalidates, range) => {
                let wanted = (flushes, invalidates, Some(range));
                same_at(rt, "what is told at act", &at, &self.told(), &wanted);
            }
        }
    }

    fn put(&mut self, rt: &impl Abort, offset: u64, bytes: &[u8]) {
        holds(rt, is_inside(offset, bytes.len() as u64), OUTSIDE);
        self.sim.put_bytes(&self.memory, offset, bytes);
    }

    fn write(&mut self, offset: u64, bytes: &[u8]) -> bool {
        let name = self.memory.object();
        self.sim.gpu_write(name, offset, bytes)
    }

    fn flush(&mut self, rt: &impl Abort, offset: u64, size: u64) -> Result<(), OutOfMemory> {
        holds(rt, is_inside(offset, size), OUTSIDE);
        let memory = &self.memory;
        self.sim.flush_memory_ranges(&[MappedMemoryRange {
            memory,
            offset,
            size,
        }])
    }

    fn invalidate(&mut self, rt: &impl Abort, offset: u64, size: u64) -> Result<(), OutOfMemory> {
        holds(rt, is_inside(offset, size), OUTSIDE);
        let memory = &self.memory;
        self.sim.invalidate_memory_ranges(&[MappedMemoryRange {
            memory,
            offset,
            size,
        }])
    }

    /// Flushes two bytes of it in one question, and then none. The latter keeps the latest range.
    fn flush_two_and_none(&mut self, rt: &impl Abort) {
        let told = self.flush_two();
        same(rt, "the latest ranges", &told, &[Some((1, 2, 1)); 2]);
    }

    // What was the latest range after each.
    fn flush_two(&mut self) -> [Option<(u64, u64, u64)>; 2] {
        let memory = &self.memory;
        let _ = self.sim.flush_memory_ranges(&[
            MappedMemoryRange {
                memory,
                offset: 5,
                size: 1,
            },
            MappedMemoryRange {
                memory,
                offset: 2,
                size: 1,
            },
        ]);
        let told = self.sim.last_range();
        let _ = self.sim.flush_memory_ranges(&[]);
        [told, self.sim.last_range()]
    }

    fn unmap_and_map(&mut self, rt: &impl Abort) {
        self.sim.unmap_memory(&self.memory);
        self.sim
            .map_memory(&self.memory, 0, SIZE)
            .expect(rt, "a map");
    }

    /// What the host sees of it.
    fn read(&mut self) -> [u8; 8] {
        let mut bytes = [0; 8];
        self.sim.get_bytes(&self.memory, 0, &mut bytes);
        bytes
    }

    /// How often it was asked to flush and to invalidate, and the latest range.
    fn told(&self) -> (u64, u64, Option<(u64, u64, u64)>) {
        let flushes = self.sim.asked(Question::Flush);
        let invalidates = self.sim.asked(Question::Invalidate);
        (flushes, invalidates, self.sim.last_range())
    }
}

/// What is done to an object, and what is found.
#[derive(Clone, Copy)]
enum Act {
    /// Another object takes the place of the one before. It is not coherent, and its device refuses that question. What
    /// follows shows that.
    Fresh(&'static str, Plan),

    /// As above, for a coherent object, for which nothing is refused.
    Coherent(&'static str),

    /// The host writes bytes there.
    Put(u64, [u8; 2]),

    /// A command of the device writes bytes there, if the answer is `true`.
    Write(u64, [u8; 2], bool),

    /// This many bytes are flushed there.
    Flush(u64, u64, Result<(), OutOfMemory>),

    /// A byte at 5 and one at 2 are flushed by one question, of which the latter is reported, and then none.
    FlushTwo,

    /// This many bytes are invalidated there.
    Invalidate(u64, u64, Result<(), OutOfMemory>),

    /// The object is unmapped, and mapped again.
    Remap,

    /// The host sees these bytes.
    See([u8; 8]),

    /// How often it was asked to flush and to invalidate, and the latest range.
    Told(u64, u64, (u64, u64, u64)),
}

const REFUSED: Result<(), OutOfMemory> = Err(OutOfMemory::OutOfHostMemory);

/// All that the device has is copied to the host.
const ALL: Act = Invalidate(0, 8, Ok(()));

/// What is shown of another object, if an act takes one, whether it is coherent, and which question is refused.
fn other(act: Act) -> Option<(&'static str, bool, Plan)> {
    match act {
        Fresh(shows, refused) => Some((shows, false, refused)),
        Coherent(shows) => Some((shows, true, NONE)),
        _ => None,
    }
}

const ACTS: [Act; 54] = [
    See([0; 8]),
    Invalidate(3, 5, Ok(())),
    See([0; 8]),
    Fresh("a missing invalidate shows in new bytes", NONE),
    See([238; 8]),
    Invalidate(3, 5, Ok(())),
    See([238, 238, 238, 0, 0, 0, 0, 0]),
    Coherent("the device sees a put into coherent bytes at once"),
    Put(2, [3, 4]),
    ALL,
    See([0, 0, 3, 4, 0, 0, 0, 0]),
    Fresh("the device does not see a put that is not flushed", NONE),
    Put(2, [3, 4]),
    ALL,
    See([0; 8]),
    Fresh("a flush copies its range", NONE),
    Put(2, [3, 4]),
    Put(4, [5, 6]),
    Flush(3, 2, Ok(())),
    ALL,
    See([0, 0, 0, 4, 5, 0, 0, 0]),
    Fresh("a refused flush copies half", (Question::Flush, 1)),
    Put(1, [2, 3]),
    Put(3, [4, 5]),
    Flush(1, 7, REFUSED),
    ALL,
    See([0, 2, 3, 4, 0, 0, 0, 0]),
    Fresh(
        "a refused invalidate copies the first half",
        (Question::Invalidate, 2),
    ),
    Invalidate(7, 1, Ok(())),
    Invalidate(0, 7, REFUSED),
    See([0, 0, 0, 238, 238, 238, 238, 0]),
    Fresh("an unmap keeps the bytes", NONE),
    Put(2, [1, 2]),
    Remap,
    See([238, 238, 1, 2, 238, 238, 238, 238]),
    Coherent("a command writes inside, and the host sees it at once"),
    Write(7, [1, 1], false),
    Write(u64::MAX, [1, 1], false),
    Write(6, [9, 9], true),
    See([0, 0, 0, 0, 0, 0, 9, 9]),
    ALL,
    See([0, 0, 0, 0, 0, 0, 9, 9]),
    Fresh("an invalidate shows what a command wrote inside", NONE),
    Write(7, [1, 1], false),
    Write(u64::MAX, [1, 1], false),
    Write(6, [9, 9], true),
    See([238; 8]),
    ALL,
    See([0, 0, 0, 0, 0, 0, 9, 9]),
    Fresh(
        "the latest range is told, also of a refused question",
        (Question::Invalidate, 1),
    ),
    Told(0, 0, (1, 0, 8)),
    FlushTwo,
    Invalidate(3, 4, REFUSED),
    Told(2, 1, (1, 3, 4)),
];

#[test]
fn bytes_are_copied_where_they_are_asked_for(rt: HostRuntime) -> Result<(), Fail> {
    let mut object = Mapped::new(&rt, Device::new(&rt, rt.alloc(), true, NONE)?)?;
    let mut shown = "new coherent bytes are zeros";
    for (number, act) in ACTS.iter().enumerate() {
        if let Some((shows, coherent, refused)) = other(*act) {
            drop(object);
            object = Mapped::new(&rt, Device::new(&rt, rt.alloc(), coherent, refused)?)?;
            shown = shows;
        }
        object.act(&rt, (shown, number), *act);
    }
    drop(object);
    Ok(())
}
