//! Laws of runs and faults, over the definitions alone. The functions are lemmas: they do nothing at run time.

ghost use Rattle.std.specs.Prelude.{◌≡◌, ◌↔◌, ℕ, Bool, List, [], ◌∷◌, All, None};
ghost use Rattle.gpu_alloc.specs.Request.{IsAskable};
ghost use Rattle.gpu_alloc.specs.State.{total};
ghost use Rattle.gpu_alloc.specs.declared.request.Request.{Request};
ghost use Rattle.gpu_session.specs.Faults.{fault_of_request};
ghost use Rattle.gpu_session.specs.Isolation.{HoldsWritten, SeenAlongJoined, TellAlong, TellsWritten};
ghost use Rattle.gpu_session.specs.Run.{Step, Run, Joins, EachRun, EachNext, EndsWithCleanup};
ghost use Rattle.gpu_session.specs.Sound.{SoundStep, LeavesRemaining, HasNothingLeft, HasWholeObjects, IsForRequired};
ghost use Rattle.gpu_session.specs.Written.{IsWrittenLast, written};
ghost use Rattle.gpu_session.specs.declared.command.Command.{Command};
ghost use Rattle.gpu_session.specs.declared.command.Reply.{Reply};

use gpu_alloc_types::{MemoryDevice, MemoryObject};
use std::alloc::Allocator;

/// Two runs, one after the other, are a run of the joined lists. This holds of any steps, and of those between sound
/// states, which are such steps. What is known of a byte along the joined lists is what the later ones make of what the
/// earlier ones left.
pub fn runs_join<M: MemoryObject, D: MemoryDevice<M>, A: Allocator>()
    ensures any { Joins {A = A} (Step D.step) }
    ensures sound { Joins {A = A} (SoundStep D.step D.properties D.objects) }
    ensures steps { EachRun {A = A} (SoundStep D.step D.properties D.objects)
        (λ old commands replies new. Run (Step D.step) old commands replies new) }
    ensures seen { EachRun {A = A} (SoundStep D.step D.properties D.objects) (λ old commands replies new. SeenAlongJoined commands replies) }
{}

/// A request has no fault exactly where an allocator accepts it.
pub fn askable_is_without_fault()
    ensures { (address : Bool) (r : Request) → (fault_of_request address r ≡ None) ↔ IsAskable address r }
{}

/// A run without `SetRemaining` keeps the total of objects that are held or may still be.
pub fn runs_keep_the_total<M: MemoryObject, D: MemoryDevice<M>, A: Allocator>()
    ensures { EachRun {A = A} (SoundStep D.step D.properties D.objects) (λ old commands replies new.
        All LeavesRemaining commands → total (new.books).allocator ≡ total (old.books).allocator) }
{}

/// After a run that ends with `Cleanup`, if no name has a block, nothing is held, the total may be held again, and each
/// ledger is 0.
pub fn runs_end_with_nothing_held<M: MemoryObject, D: MemoryDevice<M>, A: Allocator>()
    ensures { EachRun {A = A} (SoundStep D.step D.properties D.objects) (λ old commands replies new.
        EndsWithCleanup commands → HasNothingLeft new.books) }
{}

/// After a run, each byte of a live block that has possible values has one of them for the host and one for the device.
pub fn runs_hold_what_was_written<M: MemoryObject, D: MemoryDevice<M>, A: Allocator>()
    ensures { EachRun {A = A} (SoundStep D.step D.properties D.objects) (λ old commands replies new.
        HoldsWritten (D.objects new.device) new.books (written commands replies)) }
{}

/// [`values_of`](crate::values_of) gives a single value where a completed write gave it to the byte, and since then the
/// block stayed and no write, completed or refused, and no put went there.
pub fn latest_is_only<A: Allocator>()
    ensures { (commands : List (Command A)) (replies : List (Reply A)) (name byte v : ℕ)
        → IsWrittenLast commands replies name byte v → written commands replies name byte ≡ v ∷ [] }
{}

/// In a run, taken as two joined ones, each read that is answered with bytes gives a possible value for each byte that
/// was written before it. It gives the latest write's where the block stayed and no write, completed or refused, and no
/// put has gone there since. So does a read that is answered next after a run.
pub fn reads_tell_what_was_written<M: MemoryObject, D: MemoryDevice<M>, A: Allocator>()
    ensures along { EachRun {A = A} (SoundStep D.step D.properties D.objects) (λ old commands replies new. TellAlong commands replies) }
    ensures next { EachRun {A = A} (SoundStep D.step D.properties D.objects) (λ old commands replies mid.
        EachNext {A = A} (SoundStep D.step D.properties D.objects) mid (TellsWritten commands replies)) }
{}

/// Where each live block is the whole of an object of its own, a run keeps it so if it asks for blocks only with the
/// hint `Required`.
pub fn required_runs_keep_whole_objects<M: MemoryObject, D: MemoryDevice<M>, A: Allocator>()
    ensures { EachRun {A = A} (SoundStep D.step D.properties D.objects) (λ old commands replies new.
        All IsForRequired commands → HasWholeObjects D.objects old → HasWholeObjects D.objects new) }
{}
