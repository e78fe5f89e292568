//! A session: an allocator with its device, and live blocks by name.

ghost use Rattle.std.specs.Prelude.{◌≡◌, ℕ, List, IfOk, IfErr, OnErr, None, IsSome};
ghost use Rattle.std.specs.FinMap as map;
ghost use Rattle.gpu_alloc_types.specs.Properties.{IsUsable, properties_of};
ghost use Rattle.gpu_alloc_types.specs.Device.{Event, Chain};
ghost use Rattle.gpu_alloc.specs.Opening.{opened, opened_by};
ghost use Rattle.gpu_session.specs.Books.{Books, SessionState};
ghost use Rattle.gpu_session.specs.Isolation.{HoldsAlong, TellAlong};
ghost use Rattle.gpu_session.specs.Run.{Step, Run};
ghost use Rattle.gpu_session.specs.Sound.{IsSoundSession, StepKeeps, KeepsGiven, HasWholeObjects, SoundStep, ReturnsAll};

mod allocating;
mod counting;
mod listing;
mod moving;

use crate::offer::Offer;
use crate::{Command, Reply};
use gpu_alloc::{Config, DeviceProperties, GpuAllocator, MemoryBlock, Sharing};
use gpu_alloc_types::{MemoryDevice, MemoryObject};
use indexmap::IndexMap;
pub use listing::NamedSpan;
use std::alloc::{AllocError, Allocator, Global};
use std::hash::{BuildHasherDefault, FoldHasher};
use std::marker::Model;

/// Blocks by name. The hash has a fixed seed, so constant time is not promised against names chosen by an adversary.
type Blocks<M, A> = IndexMap<u32, MemoryBlock<M>, BuildHasherDefault<FoldHasher>, A>;

/// Host memory for a session is missing.
#[derive(Drop)]
pub struct SessionOpenError<D> {
    /// The device, as it was given.
    pub device: D,
}

/// An allocator with its device, and live blocks by name. It cannot be dropped: [`finish`](Session::finish) ends it.
pub struct Session<M: MemoryObject, D: MemoryDevice<M>, A: Allocator + Copy = Global> {
    alloc: A,
    allocator: GpuAllocator<M, A>,
    device: D,
    blocks: Blocks<M, A>,
    offer: Offer<A>,
}

impl<M: MemoryObject, D: MemoryDevice<M>, A: Allocator + Copy> Model for Session<M, D, A> {
    ghost use Rattle.gpu_session.specs.Books.{SessionState, session_code};

    ghost Value = { SessionState D };

    ghost coded = { session_code D.code };

    ghost use Rattle.std.specs.FinMap.{from_entries};
    ghost use Rattle.gpu_session.specs.Sound.{IsSessionKept};

    ghost view = { λ a. record {
      books = record { allocator = a.allocator; blocks = from_entries a.blocks.entries };
      device = a.device;
    } };

    ghost invariant = { λ a. IsSessionKept (D.properties a.device) (D.objects a.device)
        (record { allocator = a.allocator; blocks = from_entries a.blocks.entries }) a.offer };
}

impl<M: MemoryObject, D: MemoryDevice<M>, A: Allocator + Copy> Session<M, D, A> {
    /// A session over a device, with nothing held. It is sound, and (since no block is live) each live block is a whole
    /// object.
    ///
    /// The properties must be usable (`DeviceProperties::is_usable`) and the device's own. The only error is want of
    /// host memory: the device comes back unchanged.
    pub fn new(
        alloc: A,
        config: Config,
        props: DeviceProperties<'_>,
        device: D,
    ) -> Result<Self, SessionOpenError<D>>
        requires usable { IsUsable (properties_of props) }
        requires same { D.properties device ≡ properties_of props }

        ensures opened { IfOk result (λ session. session ≡ record {
          books = record { allocator = opened config (properties_of props.entry); blocks = map.empty };
          device = device;
        }) }
        ensures sound { IfOk result (λ session. IsSoundSession (D.properties device) (D.objects device) session.books) }
        ensures whole { IfOk result (HasWholeObjects D.objects) }
        ensures given_back { IfErr result (λ e. e.device ≡ device) }
    {
        Session::with_sharing(alloc, config, props, device, Sharing::Buddy)
    }

    /// As [`new`](Session::new), with a choice of how requests that are not `TRANSIENT` share objects: in buddy chunks,
    /// as with `new`, or in fit chunks. Runs never change the choice.
    pub fn with_sharing(
        alloc: A,
        config: Config,
        props: DeviceProperties<'_>,
        device: D,
        sharing: Sharing,
    ) -> Result<Self, SessionOpenError<D>>
        requires usable { IsUsable (properties_of props) }
        requires same { D.properties device ≡ properties_of props }

        ensures opened { IfOk result (λ session. session ≡ record {
          books = record { allocator = opened_by sharing config (properties_of props.entry); blocks = map.empty };
          device = device;
        }) }
        ensures sound { IfOk result (λ session. IsSoundSession (D.properties device) (D.objects device) session.books) }
        ensures whole { IfOk result (HasWholeObjects D.objects) }
        ensures given_back { IfErr result (λ e. e.device ≡ device) }
    {
        let Ok(offer) = Offer::of(alloc, &props) else {
            return Err(SessionOpenError { device });
        };
        match GpuAllocator::with_sharing(alloc, config, props, sharing) {
            Ok(allocator) => {
                let session = Session {
                    alloc,
                    allocator,
                    device,
                    blocks: IndexMap::new(alloc),
                    offer,
                };
                session.keeps_sound();
                Ok(session)
            }
            Err(_) => Err(SessionOpenError { device }),
        }
    }

    /// Answers the commands in order, with one reply each. The replies and the state after them are a run, in which
    /// every state between two commands is sound: live blocks share no memory.
    ///
    /// Each step grants as asked, and changes nothing where an allocation is refused or a condition is missed. It
    /// leaves each block that it does not name with all its bytes. The total of objects that are held or may still be
    /// held changes only where the command sets it.
    ///
    /// After any number of commands, each byte of a live block that a `Write` among them has set has one of the values
    /// that those commands allow, for the host and for the device. Each `Read` that is answered with bytes gives such a
    /// value for each byte that has any. It gives the latest write's where the block stayed and no write or put has
    /// gone there since.
    ///
    /// Places for all replies are taken first: an error means that there was no memory for them, and nothing ran.
    /// [`laws`](crate::laws) say what a run keeps.
    pub fn run(&mut self, commands: &[Command<A>]) -> Result<Vec<Reply<A>, A>, AllocError>
        ensures run { IfOk result (λ replies.
            Run (SoundStep D.step D.properties D.objects) self.old commands.now replies.items self.new) }
        ensures err { OnErr result (self.new ≡ self.old) }
        ensures isolated { IfOk result (λ replies.
            HoldsAlong (SoundStep D.step D.properties D.objects) D.objects self.old commands.now replies.items) }
        ensures told { IfOk result (λ replies. TellAlong commands.now replies.items) }
        ensures sound { IsSoundSession (D.properties self.new.device) (D.objects self.new.device) self.new.books }
        ensures given { KeepsGiven (self.old.books).allocator (self.new.books).allocator }
    {
        self.keeps_sound();
        let mut replies = Vec::with_capacity(self.alloc, commands.len())?;
        for command in commands {
            let reply = self.serve(command);
            self.keeps_sound();
            replies.push(reply).unwrap();
        }
        Ok(replies)
    }

    /// Returns every live block, cleans up, closes the allocator and returns the device. It allocates nothing and
    /// cannot fail.
    pub fn finish(self) -> D
        // Each held object is released once, and nothing else is asked.
        ensures returned { (es : List Event) × Chain D.step self.device es result × ReturnsAll self.books es }
        ensures gone { (object : ℕ) → IsSome (map.get ((self.books).allocator).held object)
            → D.objects result object ≡ None }
        ensures others { (object : ℕ) → map.get ((self.books).allocator).held object ≡ None
            → D.objects result object ≡ D.objects self.device object }
        ensures properties { D.properties result ≡ D.properties self.device }
    {
        let Session {
            alloc: _,
            mut allocator,
            mut device,
            mut blocks,
            offer: _,
        } = self;
        while let Some((_, block)) = blocks.pop() {
            allocator.dealloc(&mut device, block);
        }
        blocks.destroy_empty();
        allocator.cleanup(&mut device);
        allocator.close();
        device
    }

    /// A lemma about every session: does nothing at run time.
    fn keeps_sound(&self)
        ensures { IsSoundSession (D.properties self.now.device) (D.objects self.now.device) self.now.books }
    {
        let _ = &self.alloc;
    }

    /// Answers one command.
    fn serve(&mut self, command: &Command<A>) -> Reply<A>
        ensures step { Step D.step self.old command.now result self.new }
        ensures keeps { StepKeeps D.objects self.old command.now result self.new }
    {
        match command {
            Command::Alloc { name, request } => self.alloc(*name, *request),
            Command::Dedicated {
                name,
                request,
                dedicated,
            } => self.dedicated(*name, *request, *dedicated),
            Command::Import {
                name,
                memory_type,
                object_size,
                offset,
                size,
            } => self.import(*name, *memory_type, *object_size, *offset, *size),
            Command::Free { name } => self.free(*name),
            Command::Map { name, offset, size } => self.map(*name, *offset, *size),
            Command::Unmap { name } => self.unmap(*name),
            Command::Write {
                name,
                offset,
                bytes,
            } => self.write(*name, *offset, bytes),
            Command::Read { name, offset, len } => self.read(*name, *offset, *len),
            Command::Put {
                name,
                offset,
                bytes,
            } => self.put(*name, *offset, bytes),
            Command::Get { name, offset, len } => self.get(*name, *offset, *len),
            Command::SetRemaining { remaining } => self.set_remaining(*remaining),
            Command::Cleanup => self.cleanup(),
            Command::FreeRanges { memory_type } => self.free_ranges(*memory_type),
            Command::Counts => self.counts(),
        }
    }
}
