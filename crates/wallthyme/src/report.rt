//! The calls that report all that is held.

ghost use Rattle.std.specs.Prelude.{◌≡◌, ◌≢◌, ◌↔◌, ◌⊎◌, ◌≤◌, ◌<◌, IfSome, IsNone, None, length};
ghost use Rattle.wallthyme.specs.Handles.{OnDesks, desk_of};
ghost use Rattle.wallthyme.specs.Reports.{Reports, SumsUp};

use crate::handle::Handle;
use crate::layout;
use crate::status::{BAD_MEMORY_TYPE, NOT_OPEN, OK, OUT_OF_HOST_MEMORY};
use gpu_desk::Desk;
use gpu_report::{Report, Statistics, write_report};
use std::alloc::Global;

#[unsafe(no_mangle)]
pub extern "C" fn wt_statistics(
    alloc: Global,
    handle: &mut Handle,
    memory_type: u32,
    statistics: &mut layout::TypeStatistics,
) -> u32
    ensures closed { (result ≡ NOT_OPEN) ↔ IsNone (desk_of handle.old) }
    ensures status { (result ≡ OK) ⊎ ((result ≡ NOT_OPEN) ⊎ ((result ≡ BAD_MEMORY_TYPE) ⊎ (result ≡ OUT_OF_HOST_MEMORY))) }
    ensures told { result ≡ OK → OnDesks (λ old _. SumsUp old memory_type statistics.new) handle.old handle.new }
    ensures bad { result ≡ BAD_MEMORY_TYPE → OnDesks (λ old _.
        length old.allocator.properties.memory_types ≤ memory_type) handle.old handle.new }
    ensures known { result ≢ BAD_MEMORY_TYPE → OnDesks (λ old _.
        memory_type < length old.allocator.properties.memory_types) handle.old handle.new }
    ensures kept { result ≢ OK → statistics.new ≡ statistics.old }
    ensures same { desk_of handle.new ≡ desk_of handle.old }
{
    let Some(kept) = handle.take(alloc) else {
        return NOT_OPEN;
    };
    let found = Statistics::of_desk(alloc, &kept.desk, memory_type);
    handle.put(kept);
    match found {
        Ok(Some(found)) => {
            *statistics = found.into();
            OK
        }
        Ok(None) => BAD_MEMORY_TYPE,
        Err(_) => OUT_OF_HOST_MEMORY,
    }
}

#[unsafe(no_mangle)]
pub extern "C" fn wt_report(
    alloc: Global,
    handle: &mut Handle,
    text: &mut [u8],
    needed: &mut usize,
) -> u32
    ensures closed { (result ≡ NOT_OPEN) ↔ IsNone (desk_of handle.old) }
    ensures status { (result ≡ OK) ⊎ ((result ≡ NOT_OPEN) ⊎ (result ≡ OUT_OF_HOST_MEMORY)) }
    ensures told { result ≡ OK → OnDesks (λ old _. Reports old text.old text.new needed.new) handle.old handle.new }
    ensures kept { result ≢ OK → (text.new ≡ text.old) × (needed.new ≡ needed.old) }
    ensures same { desk_of handle.new ≡ desk_of handle.old }
{
    let Some(kept) = handle.take(alloc) else {
        return NOT_OPEN;
    };
    let told = written(alloc, &kept.desk, text);
    handle.put(kept);
    match told {
        Some(length) => {
            *needed = length;
            OK
        }
        None => OUT_OF_HOST_MEMORY,
    }
}

/// Writes a report of a desk, as much of it as there is room for. Returns the length of the whole report, or `None` for
/// want of memory.
fn written(alloc: Global, desk: &Desk, text: &mut [u8]) -> Option<usize>
    ensures told { IfSome result (Reports desk.now text.old text.new) }
    ensures unchanged { result ≡ None → text.new ≡ text.old }
{
    let Ok(report) = Report::of_desk(alloc, desk) else {
        return None;
    };
    Some(write_report(desk, &report, text) as usize)
}
