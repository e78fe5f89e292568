//! Reports or draws what a script's allocator holds, or draws a report of a living program. Reads the script or the
//! report from standard input, and writes the report or the picture to standard output.
#![tactic(auto)]

mod drawing;
mod dump;
mod names;
mod picture;
mod rows;
mod view;
mod wanted;
mod words;

use crate::dump::{draw_dump, write_drawn};
use crate::view::view;
use crate::wanted::{Form, Wanted};
use gpu_script_language::write_answer;
use std::process::ExitCode;
use std::{env, io};

/// The status for words that ask for nothing.
const USAGE: u8 = 64;

fn main(rt: HostRuntime) -> ExitCode {
    let Some(wanted) = asked(&rt) else {
        return ExitCode::from(USAGE);
    };
    let mut input = rt.reader();
    let mut output = io::writer(&rt);
    if wanted.form == Form::Dump {
        let drawn = draw_dump(rt.alloc(), &mut input);
        return ExitCode::from(write_drawn(&mut output, drawn));
    }
    ExitCode::from(write_answer(&mut output, view(rt.alloc(), &mut input, wanted)))
}

/// What the program's words ask for, if anything.
fn asked(rt: &HostRuntime) -> Option<Wanted> {
    let mut words = env::args(rt).ok()?;
    let _name = words.next();
    let mut rest = Vec::new(rt.alloc());
    for word in words {
        rest.push(word).ok()?;
    }
    Wanted::of(rest.as_slice())
}
