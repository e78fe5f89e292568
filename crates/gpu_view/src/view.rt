//! The run of a script up to a line, and the report of what is held then.

ghost use Rattle.std.specs.Prelude.{◌≤◌, IfOk, length};
ghost use Rattle.gpu_alloc_types.specs.Properties.{IsUsable};
ghost use Rattle.gpu_script_language.specs.Setup.{offered};

use crate::names::Names;
use crate::picture::picture;
use crate::wanted::{Form, Wanted};
use gpu_report::Report;
use gpu_script_language::{Script, Stop, open, parse, parse_usable, read_all};
use std::alloc::{AllocError, Global};
use std::io::Read;

/// The output for the script that a reader gives. `Stop` says why there is none.
pub(crate) fn view<R: Read>(alloc: Global, input: &mut R, wanted: Wanted) -> Result<String, Stop> {
    let text = read_all(alloc, input)?;
    let script = parse_usable(alloc, text.as_slice())?;
    let count = match wanted.after {
        Some(line) => parse(alloc, lines(text.as_slice(), line))?.commands.len(),
        None => script.commands.len(),
    };
    let report = report_of(alloc, &script, count)?;
    let types = script.setup.memory_types.as_slice();
    if wanted.form == Form::Report {
        return json(alloc, &report);
    }
    let heading = match wanted.after {
        Some(line) => format!(in alloc; "GPU memory after line {line}")?,
        None => String::from_str(alloc, "GPU memory after the last command")?,
    };
    let names = Names::new(alloc);
    Ok(picture(alloc, &report, types, &names, heading.as_str())?)
}

/// The first lines of a text: `count`, or as many as it has.
fn lines(text: &[u8], count: u64) -> &[u8] {
    let mut left = count;
    for (index, byte) in text.iter().enumerate() {
        if left == 0 {
            return &text[..index];
        }
        if *byte == b'\n' {
            left -= 1;
        }
    }
    text
}

/// What is held after a script's first `count` commands.
fn report_of(alloc: Global, script: &Script<Global>, count: usize) -> Result<Report, AllocError>
    requires usable { IsUsable (offered script.now.setup) }
{
    let mut session = open(alloc, &script.setup)?;
    let commands = script.commands.as_slice();
    let ran = session.run(&commands[..count.min(commands.len())]);
    let report = Report::of_session(alloc, &session);
    drop(session.finish());
    drop(ran?);
    report
}

/// A report as JSON.
fn json(alloc: Global, report: &Report) -> Result<String, Stop> {
    // Only memory can be missing: a report has no key that is not a text, and no depth.
    let Ok(mut text) = serde_json::to_string_pretty(alloc, report) else {
        return Err(Stop::Memory);
    };
    text.push('\n')?;
    Ok(text)
}
