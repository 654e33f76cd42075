//! A command's run, and the files that its words name: inputs, opened one after the other, and OUT.
use crate::advice::Told;
use crate::output::{Note, Out};
use clap::ArgMatches;
use std::alloc::Global;
use std::io::{ErrorKind, Write};
use std::rt::Files;
use std::{fs, io};
use t1_cmd::{Counted, Reason, RunFault};

/// What is seen of a run while it goes on.
#[derive(Drop)]
pub struct Seen<'p> {
    /// The input that was opened or read last.
    pub input: &'p str,
    /// The file or folder that is written, if it is not standard output.
    pub out: Option<&'p str>,
    /// What is said of OUT behind the result.
    pub note: Note<'p>,
    /// Lines that are told behind the result.
    pub told: Vec<u8>,
}

/// A run of a command.
#[derive(Drop)]
pub struct Run<'r, 'p, R: Files, O, E> {
    pub rt: &'r R,
    pub alloc: Global,
    /// The words of the command.
    pub given: &'r ArgMatches<'p>,
    /// Those for the inputs.
    pub paths: &'r [&'p str],
    /// Standard output.
    pub out: Counted<O>,
    /// Standard error.
    pub told: Told<E>,
    pub seen: Seen<'p>,
}

/// How an input that can't be opened ends the run.
pub fn not_opened(error: io::Error) -> RunFault {
    if error.kind() == ErrorKind::OutOfMemory {
        RunFault::Refused(Reason::Memory)
    } else {
        RunFault::Read
    }
}

impl<'r, 'p: 'r, R: Files, O: Write + Drop, E: Write + Drop> Run<'r, 'p, R, O, E> {
    /// The word of this name, or nothing.
    pub fn word(&self, name: &str) -> &'p str {
        self.given.get_str(name).unwrap_or("")
    }

    /// The file that the words name so, opened.
    pub fn open(&mut self, name: &str) -> Result<Counted<R::File>, RunFault> {
        self.seen.input = self.word(name);
        let file = fs::open(self.rt, self.seen.input).map_err(not_opened)?;
        Ok(Counted::new(file))
    }

    /// The inputs of these paths, all of them opened.
    pub fn open_all(&mut self, paths: &[&'p str]) -> Result<Vec<Counted<R::File>>, RunFault> {
        let mut inputs = Vec::new(self.alloc);
        for path in paths {
            self.seen.input = *path;
            let file = fs::open(self.rt, *path).map_err(not_opened)?;
            if inputs.push(Counted::new(file)).is_err() {
                return Err(RunFault::Refused(Reason::Memory));
            }
        }
        Ok(inputs)
    }

    /// The file of this path for the result.
    pub fn result_at(&self, path: &'p str) -> Counted<Out<'r, 'p, R>> {
        Counted::new(Out::new(self.rt, self.alloc, path))
    }

    /// The file that the words name for the result.
    pub fn result(&self) -> Counted<Out<'r, 'p, R>> {
        self.result_at(self.word("OUT"))
    }

    /// Finishes the file for the result of an engine that ended in this way.
    pub fn end(
        &mut self,
        out: Counted<Out<'_, 'p, R>>,
        done: Result<(), RunFault>,
    ) -> Result<(), RunFault> {
        let (done, said) = out.into_inner().end(done);
        self.seen.note = said;
        done
    }

    /// The same for an engine that answers lines, which are told behind the result.
    pub fn end_told(
        &mut self,
        out: Counted<Out<'_, 'p, R>>,
        done: Result<Vec<u8>, RunFault>,
    ) -> Result<(), RunFault> {
        match done {
            Ok(lines) => {
                self.end(out, Ok(()))?;
                self.seen.told = lines;
                Ok(())
            }
            Err(fault) => self.end(out, Err(fault)),
        }
    }

    /// Flushes standard output behind a result.
    pub fn flush(&mut self) -> Result<(), RunFault> {
        self.out.flush().map_err(|_| RunFault::Write)
    }
}

/// How many of the inputs were read: an engine reads them one after the other, and stops at the first that it refuses.
fn read_count<F>(inputs: &[Counted<F>]) -> usize {
    let mut count = 0usize;
    for input in inputs {
        if input.calls() > 0 {
            count = count.saturating_add(1);
        }
    }
    count
}

/// The path of the last of the inputs that was read.
pub fn last_read<'p, F>(paths: &[&'p str], inputs: &[Counted<F>]) -> &'p str {
    let last = read_count(inputs).saturating_sub(1);
    match paths.get(last) {
        Some(path) => *path,
        None => "",
    }
}
