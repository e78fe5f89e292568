//! The default configurations, and a configuration as text: what is written, what is read, and what is refused.

use super::same::{holds, same, same_at};
use gpu_alloc::Config;
use std::alloc::{AllocError, Global};
use std::process::Abort;
use std::test::Fail;

/// A field's name and the text of its value.
type Field = (&'static str, &'static str);

/// The fields of the potato's text, in order.
const POTATO: [Field; 7] = [
    ("dedicated_threshold", "32768"),
    ("preferred_dedicated_threshold", "1024"),
    ("transient_dedicated_threshold", "131072"),
    ("starting_free_list_chunk", "8192"),
    ("final_free_list_chunk", "131072"),
    ("minimal_buddy_size", "1"),
    ("initial_buddy_dedicated_size", "8192"),
];

/// The text of an object with these fields.
fn object(alloc: Global, fields: &[Field]) -> Result<String, AllocError> {
    let mut text = String::from_str(alloc, "{")?;
    for (index, (name, value)) in fields.iter().enumerate() {
        let comma = if index == 0 { "" } else { "," };
        write!(text, "{comma}\"{name}\":{value}")?;
    }
    text.push('}')?;
    Ok(text)
}

/// Compares what is read of a text: this configuration, or none.
fn compare(rt: &impl Abort, alloc: Global, text: &str, wanted: Option<Config>) {
    let config = serde_json::from_str::<Config>(alloc, text).ok();
    same_at(rt, "what is read at", &text, &config, &wanted);
}

/// Compares what is read of an object with these fields.
fn compare_fields(
    rt: &impl Abort,
    alloc: Global,
    fields: &[Field],
    wanted: Option<Config>,
) -> Result<(), AllocError> {
    let text = object(alloc, fields)?;
    compare(rt, alloc, text.as_str(), wanted);
    Ok(())
}

#[test]
fn a_configuration_is_read_as_it_was_written(rt: HostRuntime) -> Result<(), Fail> {
    let alloc = rt.alloc();
    let most = Config {
        dedicated_threshold: u64::MAX,
        preferred_dedicated_threshold: u64::MAX,
        transient_dedicated_threshold: u64::MAX,
        starting_free_list_chunk: u64::MAX,
        final_free_list_chunk: u64::MAX,
        minimal_buddy_size: u64::MAX,
        initial_buddy_dedicated_size: u64::MAX,
    };
    let potato = Config::i_am_potato();
    for config in [potato, Config::i_am_prototyping(), most] {
        let text = serde_json::to_string(alloc, &config)?;
        compare(&rt, alloc, text.as_str(), Some(config));
    }
    let text = serde_json::to_string(alloc, &potato)?;
    same(&rt, "what is written", &text, &object(alloc, &POTATO)?);
    Ok(())
}

/// The documented sizes, as lists.
#[test]
fn a_list_of_the_values_is_read(rt: HostRuntime) {
    let potato = "[32768,1024,131072,8192,131072,1,8192]";
    compare(&rt, rt.alloc(), potato, Some(Config::i_am_potato()));
    let prototyping = "[33554432,1048576,134217728,8388608,134217728,1024,8388608]";
    let wanted = Some(Config::i_am_prototyping());
    compare(&rt, rt.alloc(), prototyping, wanted);
}

/// Values of an unknown field.
const UNKNOWN: [&str; 6] = ["1", "\"\"", "null", "[[1],{}]", "{\"a\":{\"b\":[]}}", "1e9"];

/// An unknown field stands among the potato's at each place, with the fields in order and reversed.
#[test]
fn fields_come_in_any_order_with_others_among_them(rt: HostRuntime) -> Result<(), Fail> {
    let potato = Some(Config::i_am_potato());
    for index in 0..8 {
        for value in &UNKNOWN {
            let mut fields = Vec::from_slice(rt.alloc(), &POTATO)?;
            fields.insert(index, ("unknown", *value))?;
            compare_fields(&rt, rt.alloc(), fields.as_slice(), potato)?;
            fields.reverse();
            compare_fields(&rt, rt.alloc(), fields.as_slice(), potato)?;
        }
    }
    Ok(())
}

/// A field that comes twice, that is missing, or that has a wrong value.
fn compare_wrong(rt: &impl Abort, alloc: Global, index: usize) -> Result<(), AllocError> {
    holds(rt, index < 7, "no such field");
    let mut fields = Vec::from_slice(alloc, &POTATO)?;
    fields.push(POTATO[index])?;
    compare_fields(rt, alloc, fields.as_slice(), None)?;
    fields.pop();
    fields.remove(index);
    compare_fields(rt, alloc, fields.as_slice(), None)?;
    for value in WRONG.split(' ') {
        let mut fields = POTATO;
        fields[index].1 = value;
        compare_fields(rt, alloc, &fields, None)?;
    }
    Ok(())
}

/// Values that no field accepts. One has no characters.
const WRONG: &str = "-1 18446744073709551616 1.0 1e3 \"1\" null true [1] {}  01 +1 0x1 -0";

#[test]
fn a_wrong_field_is_refused(rt: HostRuntime) -> Result<(), Fail> {
    for index in 0..7 {
        compare_wrong(&rt, rt.alloc(), index)?;
    }
    Ok(())
}

/// What may not stand after a configuration's text.
const TAILS: [&str; 6] = ["}", ",", "0", "{}", "x", "\u{0}"];

/// Texts that are not configurations. One has no characters.
const TEXTS: &str = " null 7 \"potato\" {} [] [1,2,3,4,5,6] [1,2,3,4,5,6,7,8]";

/// If not, a text would be read with something after it, one that is cut, another one, or lists in lists without end.
#[test]
fn a_text_of_no_configuration_is_refused(rt: HostRuntime) -> Result<(), Fail> {
    let alloc = rt.alloc();
    let mut text = object(alloc, &POTATO)?;
    for tail in &TAILS {
        let longer = format!(in alloc; "{text}{tail}")?;
        compare(&rt, alloc, longer.as_str(), None);
    }
    for _ in 0..text.len() {
        text.pop();
        compare(&rt, alloc, text.as_str(), None);
    }
    holds(&rt, text.is_empty(), "a text that was not cut to its start");
    for text in TEXTS.split(' ') {
        compare(&rt, alloc, text, None);
    }
    compare(&rt, alloc, " ", None);
    let deep = "[".repeat(alloc, 100_000)?;
    let text = format!(in alloc; "{{\"unknown\":{deep}")?;
    compare(&rt, alloc, text.as_str(), None);
    Ok(())
}
