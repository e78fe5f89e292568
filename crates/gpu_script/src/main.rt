//! Runs a script of commands over a simulated device: reads it from standard input, and writes the replies to standard
//! output.
#![tactic(auto)]

use gpu_script_language::run_script;
use std::io;
use std::process::ExitCode;

fn main(rt: HostRuntime) -> ExitCode {
    let mut input = rt.reader();
    let mut output = io::writer(&rt);
    ExitCode::from(run_script(rt.alloc(), &mut input, &mut output))
}
