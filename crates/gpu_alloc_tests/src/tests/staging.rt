//! A staging pool over a device whose memory must be flushed, and which refuses one flush.

use super::offers::{again, offer};
use super::same::{holds, same};
use gpu_alloc::{Config, MapError, MemoryPropertyFlags, MemoryType};
use gpu_clients::staging::{StagingError, StagingPool};
use gpu_sim::{Cause, Question, Sim, SimMemory};
use std::process::Abort;
use std::test::Fail;

type Pool = StagingPool<SimMemory, Sim>;

/// It is host-visible, and the host's writes must be flushed.
const VISIBLE: MemoryType = MemoryType {
    heap: 0,
    props: MemoryPropertyFlags::HOST_VISIBLE,
};

/// Eight such bytes are put into a buffer.
fn put(rt: &impl Abort, pool: &mut Pool, byte: u8) -> u64 {
    pool.upload(&[byte; 8], 0, u32::MAX).expect(rt, "a buffer")
}

/// The device has eight such bytes in the buffer.
fn has(rt: &impl Abort, pool: &mut Pool, key: u64, byte: u8) {
    let mut got = [0; 8];
    let came = (byte, pool.download(key, 0, &mut got));
    same(rt, "a read of", &came, &(byte, Ok(())));
    same(rt, "bytes", &got, &[byte; 8]);
}

/// Three buffers, and a fourth whose flush is refused.
fn fill(rt: &impl Abort, pool: &mut Pool) {
    let first = put(rt, pool, 1);
    let refused = pool.upload(&[9; 8], 0, u32::MAX);
    let cause = StagingError::NoAccess(MapError::OutOfDeviceMemory);
    same(rt, "a refused flush", &refused, &Err(cause));
    let second = put(rt, pool, 2);
    let third = put(rt, pool, 3);
    has(rt, pool, first, 1);
    has(rt, pool, second, 2);
    has(rt, pool, third, 3);
    same(rt, "whether it went", &pool.retire(second), &true);
    same(rt, "whether it went again", &pool.retire(second), &false);
    has(rt, pool, third, 3);
}

/// What is refused before the device is asked.
fn ask_wrongly(rt: &impl Abort, pool: &mut Pool) {
    let empty = pool.upload(&[], 0, u32::MAX);
    same(rt, "no bytes", &empty, &Err(StagingError::NotAskable));
    let key = put(rt, pool, 4);
    let mut got = [7; 8];
    let passing = pool.download(key, u64::MAX, &mut got);
    let refused = Err(StagingError::BadRange);
    same(rt, "a range past the end", &passing, &refused);
    let unknown = pool.download(u64::MAX, 0, &mut got);
    same(rt, "no such key", &unknown, &Err(StagingError::UnknownKey));
    same(rt, "bytes of a refused read", &got, &[7; 8]);
}

#[test]
fn staged_bytes_stay_and_all_objects_go_back(rt: HostRuntime) -> Result<(), Fail> {
    let types = [VISIBLE];
    let offered = offer(&types, 64);
    holds(&rt, offered.is_usable(), "properties of no use");
    let mut device: Sim = Sim::new(rt.alloc(), again(&offered))?;
    device.refuse(Question::Flush, 2, Cause::Device)?;
    match StagingPool::new(rt.alloc(), Config::i_am_potato(), offered, device) {
        Ok(mut pool) => {
            fill(&rt, &mut pool);
            ask_wrongly(&rt, &mut pool);
            same(&rt, "objects in use", &pool.device().objects(), &1);
            let device = pool.end();
            same(&rt, "objects at the end", &device.objects(), &0);
            drop(device);
            Ok(())
        }
        Err(device) => {
            drop(device);
            Err(Fail::from("no memory for a pool"))
        }
    }
}
