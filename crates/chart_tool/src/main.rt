//! A chart engine that is proved: `render SPEC` writes the picture of a specification as SVG, `play SPEC` replies to a script of changes
//! and prints, and `compile SPEC` writes the text of its Vega specification.
#![tactic(auto)]

mod tool;

use chart_io::{DirFolder, StreamSink, StreamSource};
use std::io::ErrorKind;
use std::process::ExitCode;
use std::rt::Env;
use std::{env, io};

// The words after the program's name.
fn words_of<R: Env + Alloc>(runtime: &R) -> io::Result<Vec<String<R::A>, R::A>> {
    let mut words = Vec::new(runtime.alloc());
    for word in env::args(runtime)?.skip(1) {
        words.push(word)?;
    }
    Ok(words)
}

// Words that are no UTF-8 are taken as no words. Where there is no memory for them the program ends with 9, and without a line.
fn main(runtime: HostRuntime) -> ExitCode {
    let words = match words_of(&runtime) {
        Ok(words) => words,
        Err(error) if error.kind() == ErrorKind::InvalidData => Vec::new(runtime.alloc()),
        Err(_) => return ExitCode::from(9),
    };
    let mut folder = DirFolder::of(&runtime);
    let mut script = StreamSource::of(runtime.stdin());
    let mut out = StreamSink::of(runtime.stdout());
    let mut notes = StreamSink::of(runtime.stderr());
    let status = tool::chart_main(
        runtime.alloc(),
        &words,
        &mut folder,
        &mut script,
        &mut out,
        &mut notes,
    );
    ExitCode::from(status)
}
