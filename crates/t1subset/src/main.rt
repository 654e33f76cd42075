//! The program `t1subset`.
#![tactic(auto)]

mod advice;
mod commands;
mod documents;
mod files;
mod output;
mod perform;
mod progress;

use std::io::{ErrorKind, IsTerminal, Write};
use std::process::ExitCode;
use std::rt::Env;
use std::{env, io};

/// The words of the command line, the program's own name first.
fn words<R: Env + AllocGlobal>(rt: &R) -> io::Result<Vec<String>> {
    let words: Vec<String> = env::args(rt)?.collect(rt.alloc())?;
    Ok(words)
}

/// Says why the words can't be read.
fn refuse_words<E: Write + Drop>(error: &io::Error, mut err: E) -> ExitCode {
    let text: &[u8] = match error.kind() {
        ErrorKind::OutOfMemory => b"error: out of memory\n",
        _ => b"error: the arguments are not UTF-8\n",
    };
    let _ = err.write_all(text);
    ExitCode::from(2)
}

fn main(rt: HostRuntime) -> ExitCode {
    let words: Vec<String> = match words(&rt) {
        Ok(words) => words,
        Err(error) => return refuse_words(&error, rt.stderr()),
    };
    let err = rt.stderr();
    let is_terminal = err.is_terminal();
    let status = perform::run(
        &rt,
        rt.alloc(),
        words.as_slice(),
        rt.stdout(),
        (err, is_terminal),
    );
    ExitCode::from(status)
}
