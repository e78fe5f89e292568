//! Imports: what is held of them.

use super::bench::{Bench, Part};
use super::offers::LOCAL;
use super::same::{same, same_at};
use std::process::Abort;
use std::test::Fail;

/// If not, a caller could not return an import, or would import its object once more.
#[test]
fn an_import_is_held_and_owned(rt: HostRuntime) -> Result<(), Fail> {
    let mut bench = Bench::new(&rt, rt.alloc(), LOCAL, 1)?;
    let part = Part {
        object: 128,
        offset: 32,
        size: 96,
    };
    bench.import(&rt, part);
    same(&rt, "what is left", &bench.budget(), &((1 << 20) - 96));
    for (object, is_held) in [(1, true), (2, false)] {
        let known = bench.holds_and_owns(&rt, object);
        same_at(&rt, "known is", &object, &known, &(is_held, true));
    }
    bench.give_all_back(&rt);
    bench.end(&rt, 4096);
    Ok(())
}
