//! Values under keys that are never reused: each call succeeds with ample memory, and places are used again.

use super::same::same;
use gpu_slots::SlotMap;
use std::process::Abort;
use std::test::Fail;

/// Puts a value in, and returns its key.
fn put(rt: &impl Abort, slots: &mut SlotMap<u32>, value: u32) -> u64 {
    let Ok(()) = slots.reserve() else {
        panic!(rt; "no memory");
    };
    slots.insert_reserved(value)
}

/// Three values, of which the second has the place of the first. It is changed to 10, and only it is left.
fn replace(rt: &impl Abort, slots: &mut SlotMap<u32>) {
    let first = put(rt, slots, 7);
    same(rt, "what is taken", &slots.remove(first), &Some(7));
    same(rt, "what is taken again", &slots.remove(first), &None);
    let again = put(rt, slots, 8);
    let second = put(rt, slots, 9);
    let keys = [1 << 32, 2 << 32, (1 << 32) + 1];
    same(rt, "keys", &[first, again, second], &keys);
    if let Some(value) = slots.get_mut(again) {
        *value = 10;
    }
    for (key, value) in [
        (first, None),
        (again, Some(10)),
        (second, Some(9)),
        (u64::MAX, None),
    ] {
        same(rt, "what is there", &slots.get(key).copied(), &value);
    }
    same(rt, "how many", &slots.len(), &2);
    same(rt, "what is taken", &slots.remove(second), &Some(9));
}

/// A key that was removed never finds anything again, though its place is used again. If not, a caller with an old
/// key would get another's value.
#[test]
fn a_place_is_used_again_under_another_key(rt: HostRuntime) -> Result<(), Fail> {
    let mut slots = SlotMap::new(rt.alloc());
    same(&rt, "whether a new map is empty", &slots.is_empty(), &true);
    replace(&rt, &mut slots);
    let mut values = slots.into_values();
    same(&rt, "the only value", &values.next(), &Some(10));
    same(&rt, "a value after the only one", &values.next(), &None);
    let unused: SlotMap<u32> = SlotMap::new(rt.alloc());
    if unused.is_empty() {
        unused.destroy_empty();
    }
    Ok(())
}
