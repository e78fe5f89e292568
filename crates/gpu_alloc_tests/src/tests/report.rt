//! A report of a small session as text, against values that were worked out by hand.

use super::same::same;
use super::sessions::open_over;
use gpu_alloc::Sharing;
use gpu_report::Report;
use gpu_script_language::{open, parse};
use gpu_sim::Sim;
use std::test::Fail;

/// Two blocks of one buddy chunk of 8192 bytes, and an object of 100.
const SCRIPT: &str =
    "heap 1048576\ntype 0 2\natom 64\nalloc 1 100 0 2 1\nalloc 2 10 0 2 1\nrequired 3 100 0 2 1";

/// 64 + 256 + 512 + 1024 + 2048 + 4096 bytes are free, the first four of them in ranges below 2048.
const REPORT: &str = concat!(
    r#"{"heaps":[{"size":1048576,"limit":1048576,"used":8292,"budget":1040284}],"#,
    r#""kinds":[{"memory_type":0,"kind":"Dedicated","objects":1,"live_blocks":1,"live_bytes":100,"#,
    r#""asked_bytes":100,"free_bytes":0,"largest_free":0,"scattered":0},"#,
    r#"{"memory_type":0,"kind":"BuddyChunk","objects":1,"live_blocks":2,"live_bytes":192,"#,
    r#""asked_bytes":192,"free_bytes":8000,"largest_free":4096,"scattered":232}],"#,
    r#""objects":[{"object":2,"memory_type":0,"kind":"Dedicated","size":100,"#,
    r#""places":[{"block":3,"offset":0,"size":100,"asked":100}]},"#,
    r#"{"object":1,"memory_type":0,"kind":"BuddyChunk","size":8192,"places":["#,
    r#"{"block":1,"offset":0,"size":128,"asked":128},{"block":2,"offset":128,"size":64,"asked":64},"#,
    r#"{"block":null,"offset":192,"size":64,"asked":0},{"block":null,"offset":256,"size":256,"asked":0},"#,
    r#"{"block":null,"offset":512,"size":512,"asked":0},{"block":null,"offset":1024,"size":1024,"asked":0},"#,
    r#"{"block":null,"offset":2048,"size":2048,"asked":0},{"block":null,"offset":4096,"size":4096,"asked":0}]}]}"#,
);

/// The same with fit chunks. The second block takes the rest of the first chunk, of 8192 bytes, so the third one is at
/// the front of a chunk twice as large. The first is returned.
const FITTED_SCRIPT: &str = concat!(
    "heap 1048576\ntype 0 2\natom 64\nalloc 1 100 0 2 1\nalloc 2 7936 0 2 1\nalloc 3 10 0 2 1\n",
    "required 4 100 0 2 1\nfree 1",
);

/// 256 + 16128 bytes are free, of which the first 256 lie in a range below 8064.
const FITTED_REPORT: &str = concat!(
    r#"{"heaps":[{"size":1048576,"limit":1048576,"used":24676,"budget":1023900}],"#,
    r#""kinds":[{"memory_type":0,"kind":"Dedicated","objects":1,"live_blocks":1,"live_bytes":100,"#,
    r#""asked_bytes":100,"free_bytes":0,"largest_free":0,"scattered":0},"#,
    r#"{"memory_type":0,"kind":"FitChunk","objects":2,"live_blocks":2,"live_bytes":8192,"#,
    r#""asked_bytes":8192,"free_bytes":16384,"largest_free":16128,"scattered":15}],"#,
    r#""objects":[{"object":3,"memory_type":0,"kind":"Dedicated","size":100,"#,
    r#""places":[{"block":4,"offset":0,"size":100,"asked":100}]},"#,
    r#"{"object":1,"memory_type":0,"kind":"FitChunk","size":8192,"places":["#,
    r#"{"block":null,"offset":0,"size":256,"asked":0},{"block":2,"offset":256,"size":7936,"asked":7936}]},"#,
    r#"{"object":2,"memory_type":0,"kind":"FitChunk","size":16384,"places":["#,
    r#"{"block":3,"offset":0,"size":256,"asked":256},{"block":null,"offset":256,"size":16128,"asked":0}]}]}"#,
);

#[test]
fn a_session_is_reported_as_worked_out(rt: HostRuntime) -> Result<(), Fail> {
    let alloc = rt.alloc();
    let Ok(script) = parse(alloc, SCRIPT.as_bytes()) else {
        return Err(Fail::from("a bad script"));
    };
    if !script.setup.properties().is_usable() {
        return Err(Fail::from("bad properties"));
    }
    let mut session = open(alloc, &script.setup)?;
    let ran = session.run(script.commands.as_slice()).is_ok();
    let report = Report::of_session(alloc, &session);
    drop(session.finish());
    same(&rt, "the commands run", &ran, &true);
    let text = serde_json::to_string(alloc, &report?)?;
    same(&rt, "the report", &text.as_str(), &REPORT);
    Ok(())
}

#[test]
fn a_session_with_fit_chunks_is_reported_as_worked_out(rt: HostRuntime) -> Result<(), Fail> {
    let alloc = rt.alloc();
    let Ok(script) = parse(alloc, FITTED_SCRIPT.as_bytes()) else {
        return Err(Fail::from("a bad script"));
    };
    if !script.setup.properties().is_usable() {
        return Err(Fail::from("bad properties"));
    }
    let device = Sim::new(alloc, script.setup.properties())?;
    let mut session = open_over(alloc, script.setup.properties(), device, Sharing::Fit)?;
    let ran = session.run(script.commands.as_slice()).is_ok();
    let report = Report::of_session(alloc, &session);
    drop(session.finish());
    same(&rt, "the commands run", &ran, &true);
    let text = serde_json::to_string(alloc, &report?)?;
    same(&rt, "the report", &text.as_str(), &FITTED_REPORT);
    Ok(())
}
