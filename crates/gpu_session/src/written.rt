//! What a byte of a block may hold, from the commands and their replies alone.

ghost use Rattle.std.specs.Prelude.{◌≡◌, IfOk};
ghost use Rattle.gpu_session.specs.Written.{given, is_about, maybe, own_after, surely, unseen, written};

use crate::{Command, Reply};
use gpu_alloc::MapError;
use std::alloc::{AllocError, Allocator};
use std::marker::Model;

/// What is known of one byte of a block: where the block's latest mapping starts in it, and the values that the byte
/// may have, the latest first.
#[derive(Drop)]
struct Known<A: Allocator> {
    mapped_from: u64,
    values: Vec<u8, A>,
}

impl<A: Allocator> Model for Known<A> {
    ghost use Rattle.gpu_session.specs.Written.{Seen};

    ghost Value = { Seen };

    ghost view = { λ k. record { mapped_from = k.mapped_from; values = k.values.items } };
}

impl<A: Allocator> Known<A> {
    /// Nothing is known.
    fn unseen(alloc: A) -> Self
        ensures { result ≡ unseen }
    {
        Known {
            mapped_from: 0,
            values: Vec::new(alloc),
        }
    }

    /// Forgets everything.
    fn forget(&mut self)
        ensures { self.new ≡ unseen }
    {
        self.mapped_from = 0;
        self.values.clear();
    }

    /// If a value is given, the byte has that value from now on.
    fn surely(&mut self, value: Option<u8>) -> Result<(), AllocError>
        ensures { IfOk result (λ _. self.new ≡ surely value self.old) }
    {
        if let Some(value) = value {
            self.values.clear();
            self.values.push(value)?;
        }
        Ok(())
    }

    /// If a value is given, the byte may have that one too, if it has any.
    fn maybe(&mut self, value: Option<u8>) -> Result<(), AllocError>
        ensures { IfOk result (λ _. self.new ≡ maybe value self.old) }
    {
        if let Some(value) = value
            && !self.values.is_empty()
        {
            self.values.insert(0, value)?;
        }
        Ok(())
    }

    /// Learns from a command that names the block.
    fn learn(&mut self, byte: u64, command: &Command<A>, reply: &Reply<A>) -> Result<(), AllocError>
        ensures { IfOk result (λ _. self.new ≡ own_after byte command.now reply.now self.old) }
    {
        match (command, reply) {
            (Command::Write { offset, bytes, .. }, Reply::Done) => {
                self.surely(given(u128::from(*offset), bytes.as_slice(), byte))
            }
            (
                Command::Write { .. },
                Reply::MapRefused(MapError::AlreadyMapped | MapError::MapFailed),
            ) => Ok(()),
            (Command::Write { offset, bytes, .. }, Reply::MapRefused(_)) => {
                self.maybe(given(u128::from(*offset), bytes.as_slice(), byte))
            }
            (Command::Put { offset, bytes, .. }, Reply::Done) => {
                let start = u128::from(self.mapped_from) + u128::from(*offset);
                self.maybe(given(start, bytes.as_slice(), byte))
            }
            (Command::Map { offset, .. }, Reply::Mapped(_)) => {
                self.mapped_from = *offset;
                Ok(())
            }
            (Command::Free { .. }, Reply::Done) | (_, Reply::Granted { .. }) => {
                self.forget();
                Ok(())
            }
            _ => Ok(()),
        }
    }
}

/// The value that `bytes`, of which the first goes to `offset`, give a byte, if they cover it.
fn given(offset: u128, bytes: &[u8], byte: u64) -> Option<u8>
    ensures { result ≡ given offset bytes.now byte }
{
    let place = u128::from(byte).checked_sub(offset)?;
    bytes.get(usize::try_from(place).ok()?).copied()
}

/// Whether a command names this block.
fn is_about<A: Allocator>(name: u32, command: &Command<A>) -> bool
    ensures { result ≡ is_about name command.now }
{
    match command {
        Command::Alloc { name: n, .. }
        | Command::Dedicated { name: n, .. }
        | Command::Import { name: n, .. }
        | Command::Free { name: n }
        | Command::Map { name: n, .. }
        | Command::Unmap { name: n }
        | Command::Write { name: n, .. }
        | Command::Read { name: n, .. }
        | Command::Put { name: n, .. }
        | Command::Get { name: n, .. } => *n == name,
        Command::SetRemaining { .. }
        | Command::Cleanup
        | Command::FreeRanges { .. }
        | Command::Counts => false,
    }
}

/// The values that a byte of a named block may have after these commands with these replies, the latest first (a value
/// may come twice). The list is empty where no completed write has covered the byte since the block was granted.
///
/// A completed write gives its bytes. A put may give its bytes to the host only, and a write that was refused for want
/// of memory may have given them to either side. So their values are added to those before. If the lists are those of
/// all runs of a session from some state on and there are values, the host's byte is one of them and so is the device's
/// ([`laws::runs_hold_what_was_written`](crate::laws::runs_hold_what_was_written)). There is only one value where a
/// write was completed and nothing has gone there since ([`laws::latest_is_only`](crate::laws::latest_is_only)).
///
/// `byte` counts from the block's start. Where one list is longer, its rest is ignored. The only error is want of
/// memory for the values.
pub fn values_of<A: Allocator>(
    alloc: A,
    commands: &[Command<A>],
    replies: &[Reply<A>],
    name: u32,
    byte: u64,
) -> Result<Vec<u8, A>, AllocError>
    ensures { IfOk result (λ values. values.items ≡ written commands.now replies.now name byte) }
{
    let mut known = Known::unseen(alloc);
    for (command, reply) in commands.iter().zip(replies) {
        if is_about(name, command) {
            known.learn(byte, command, reply)?;
        }
    }
    let Known { values, .. } = known;
    Ok(values)
}
