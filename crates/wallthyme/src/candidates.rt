//! The call that lists the memory types that would serve a usage.

ghost use Rattle.std.specs.Prelude.{◌≡◌, ◌≢◌, ◌↔◌, ◌⊎◌, IsNone, drop, false, length, true};
ghost use Rattle.wallthyme.specs.Candidates.{AreListed, candidates_for, needs_feature};
ghost use Rattle.wallthyme.specs.Handles.{OnDesks, desk_of};
ghost use Rattle.wallthyme.specs.Malformed.{IsUsage};

use crate::handle::Handle;
use crate::layout::usage_of;
use crate::status::{BAD_USAGE, NO_DEVICE_ADDRESS, NOT_OPEN, OK, OUT_OF_HOST_MEMORY, denied};
use std::alloc::Global;

#[unsafe(no_mangle)]
pub extern "C" fn wt_candidates(
    alloc: Global,
    handle: &mut Handle,
    usage: u32,
    memory_types: u32,
    types: &mut [u32],
    count: &mut usize,
) -> u32
    ensures closed { (result ≡ NOT_OPEN) ↔ IsNone (desk_of handle.old) }
    ensures status { (result ≡ OK) ⊎ ((result ≡ NOT_OPEN) ⊎ ((result ≡ BAD_USAGE)
        ⊎ ((result ≡ NO_DEVICE_ADDRESS) ⊎ (result ≡ OUT_OF_HOST_MEMORY)))) }
    ensures told { result ≡ OK → OnDesks (λ old _. AreListed (candidates_for old usage memory_types) types.new)
        handle.old handle.new }
    ensures count { result ≡ OK → OnDesks (λ old _. count.new ≡ length (candidates_for old usage memory_types))
        handle.old handle.new }
    ensures named { result ≢ NOT_OPEN → result ≢ BAD_USAGE → IsUsage usage }
    ensures unnamed { result ≡ BAD_USAGE → IsUsage usage → ⊥ }
    ensures lacks { result ≡ NO_DEVICE_ADDRESS → OnDesks (λ old _. needs_feature old usage ≡ true) handle.old handle.new }
    ensures able { result ≢ BAD_USAGE → result ≢ NO_DEVICE_ADDRESS
        → OnDesks (λ old _. needs_feature old usage ≡ false) handle.old handle.new }
    ensures rest { result ≡ OK → drop count.new types.new ≡ drop count.new types.old }
    ensures kept { result ≢ OK → (types.new ≡ types.old) × (count.new ≡ count.old) }
    ensures same { desk_of handle.new ≡ desk_of handle.old }
{
    let Some(kept) = handle.take(alloc) else {
        return NOT_OPEN;
    };
    let Some(usage) = usage_of(usage) else {
        handle.put(kept);
        return BAD_USAGE;
    };
    let found = kept.desk.candidates(usage, memory_types);
    handle.put(kept);
    match found {
        Ok(found) => {
            tell_types(&found, types);
            *count = found.len();
            OK
        }
        Err(denial) => denied(denial),
    }
}

/// Writes memory types to C's array, as many as fit.
fn tell_types(found: &[u32], types: &mut [u32])
    ensures told { AreListed found.now types.new }
    ensures rest { drop (length found.now) types.new ≡ drop (length found.now) types.old }
{
    for (index, place) in types.iter_mut().enumerate() {
        let Some(memory_type) = found.get(index) else {
            return;
        };
        *place = *memory_type;
    }
}
