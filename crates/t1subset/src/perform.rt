//! Performs what the words ask for.
use crate::advice::Told;
use crate::commands::parse;
use crate::files::{Run, Seen, last_read, not_opened};
use crate::output::Note;
use clap::{ArgMatches, Error};
use std::alloc::{AllocError, Global};
use std::fs;
use std::io::Write;
use std::rt::Files;
use t1_cmd::{
    Budget, Counted, FILE_LIMIT, RunFault, read_all, read_codes, run_check, run_check_of,
    run_convert, run_diff_within, run_join, run_list, run_list_full, run_mend, run_merge_within,
    run_rejoin_within, run_show, run_subset_within, status, write_fault, write_fault_of,
};
use t1_font::Form;

/// A line without the CR that may end it.
fn without_return(line: &[u8]) -> &[u8] {
    match line.split_last() {
        Some((b'\r', front)) => front,
        _ => line,
    }
}

/// The names that the words give, and those of a text, a name a line; a line without bytes names nothing.
fn names<'t, 'a: 't>(
    alloc: Global,
    given: &ArgMatches<'a>,
    text: &'t [u8],
) -> Result<Vec<&'t [u8]>, AllocError> {
    let mut names = Vec::new(alloc);
    for name in given.get_raw("NAME").unwrap_or(&[]) {
        names.push(name.as_bytes())?;
    }
    for line in text.split(|b| *b == b'\n') {
        let name = without_return(line);
        if !name.is_empty() {
            names.push(name)?;
        }
    }
    Ok(names)
}

/// The codes that the words give: those of a list, and the bytes of a text.
fn codes(alloc: Global, given: &ArgMatches<'_>) -> Result<Vec<u8>, AllocError> {
    let mut codes = Vec::new(alloc);
    if let Some(list) = given.get_str("codes") {
        if let Some(more) = read_codes(alloc, list.as_bytes())? {
            codes.extend_from_slice(more.as_slice())?;
        }
    }
    codes.extend_from_slice(given.get_str("text").unwrap_or("").as_bytes())?;
    Ok(codes)
}

impl<'r, 'p: 'r, R: Files, O: Write + Drop, E: Write + Drop> Run<'r, 'p, R, O, E> {
    /// The tokens that the words allow.
    fn budget(&self) -> Budget {
        Budget {
            left: self.given.get_one::<u64>("tokens"),
        }
    }

    /// The form that the words ask for.
    fn form(&self) -> Form {
        if self.given.get_flag("pfb") {
            Form::Pfb
        } else {
            Form::Pfa
        }
    }

    /// Tells that the first of two inputs was read last, if the second was not.
    fn see_first(&mut self, second: &Counted<R::File>) {
        if second.calls() == 0 {
            self.seen.input = self.word("A");
        }
    }

    fn join(&mut self) -> Result<(), RunFault> {
        let mut left = self.open("A")?;
        let mut right = self.open("B")?;
        let done = run_join(self.alloc, &mut left, &mut right, &mut self.out);
        self.see_first(&right);
        done?;
        self.flush()
    }

    /// Tells all conflicts of two fonts. Answers status 0 if there is none, else 1.
    fn diff(&mut self) -> Result<u8, RunFault> {
        let mut left = self.open("A")?;
        let mut right = self.open("B")?;
        let budget = self.budget();
        let done = run_diff_within(self.alloc, &mut left, &mut right, budget, &mut self.out);
        self.see_first(&right);
        let joins = done?;
        self.flush()?;
        Ok(if joins { 0 } else { 1 })
    }

    /// Checks the font of one path, and writes its line behind the path.
    fn check_of(&mut self, path: &str) -> Result<(), RunFault> {
        let file = fs::open(self.rt, path).map_err(not_opened)?;
        let mut file = Counted::new(file);
        run_check_of(self.alloc, &mut file, path.as_bytes(), &mut self.out)?;
        self.flush()
    }

    /// Checks fonts one after the other, and tells why some are refused. Answers the worst status.
    fn check_all(&mut self, paths: &[&str]) -> Result<u8, RunFault> {
        let mut worst = 0u8;
        for path in paths {
            match self.check_of(*path) {
                Ok(()) => {}
                Err(RunFault::Write) => return Err(RunFault::Write),
                Err(fault) => {
                    worst = worst.max(status(&fault));
                    let err = &mut self.told.err;
                    let _ = write_fault_of(self.alloc, path.as_bytes(), &fault, err);
                    self.told.explain(&fault, (*path, true), None);
                }
            }
        }
        Ok(worst)
    }

    fn check(&mut self) -> Result<u8, RunFault> {
        let paths = self.paths;
        if paths.len() > 1 {
            return self.check_all(paths);
        }
        let mut input = self.open("IN")?;
        run_check(self.alloc, &mut input, &mut self.out)?;
        self.flush()?;
        Ok(0)
    }

    fn list(&mut self) -> Result<(), RunFault> {
        let mut input = self.open("IN")?;
        if self.given.get_flag("full") {
            run_list_full(self.alloc, &mut input, &mut self.out)?;
        } else {
            run_list(self.alloc, &mut input, &mut self.out)?;
        }
        self.flush()
    }

    fn show(&mut self) -> Result<(), RunFault> {
        let name = self.word("NAME");
        let mut input = self.open("IN")?;
        run_show(self.alloc, &mut input, name.as_bytes(), &mut self.out)?;
        self.flush()
    }

    fn convert(&mut self, form: Form) -> Result<(), RunFault> {
        let mut input = self.open("IN")?;
        let mut out = self.result();
        let done = run_convert(self.alloc, &mut input, form, &mut out);
        self.end(out, done)
    }

    /// Mends a font, and adds lines that tell what is mended to those that are said behind the result.
    fn mend(&mut self) -> Result<(), RunFault> {
        let mut input = self.open("IN")?;
        let mut out = self.result();
        let done = run_mend(self.alloc, &mut input, self.form(), &mut out);
        self.end_told(out, done)
    }

    /// The text of the file of names that the words name, if they name one.
    fn text_of_names(&mut self) -> Result<Vec<u8>, RunFault> {
        let Some(path) = self.given.get_str("names") else {
            return Ok(Vec::new(self.alloc));
        };
        self.seen.input = path;
        let path = if path == "-" { "/dev/stdin" } else { path };
        let file = fs::open(self.rt, path).map_err(not_opened)?;
        read_all(self.alloc, &mut Counted::new(file), FILE_LIMIT)
    }

    fn subset(&mut self) -> Result<(), RunFault> {
        let text = self.text_of_names()?;
        let names = names(self.alloc, self.given, text.as_slice())?;
        let codes = codes(self.alloc, self.given)?;
        let mut input = self.open("IN")?;
        let mut out = self.result();
        let done = run_subset_within(
            self.alloc,
            &mut input,
            names.as_slice(),
            codes.as_slice(),
            self.form(),
            self.budget(),
            &mut out,
        );
        self.end(out, done)
    }

    fn merge(&mut self) -> Result<(), RunFault> {
        let mut fonts = self.open_all(self.paths)?;
        let mut out = self.result();
        let (form, budget) = (self.form(), self.budget());
        let done = run_merge_within(self.alloc, fonts.as_mut_slice(), form, budget, &mut out);
        self.seen.input = last_read(self.paths, fonts.as_slice());
        self.end(out, done)
    }

    fn rejoin(&mut self) -> Result<(), RunFault> {
        let mut fonts = self.open_all(self.paths)?;
        let mut out = self.result();
        let (form, budget) = (self.form(), self.budget());
        let done = run_rejoin_within(self.alloc, fonts.as_mut_slice(), form, budget, &mut out);
        self.seen.input = last_read(self.paths, fonts.as_slice());
        self.end(out, done)
    }

    /// Does what a command says, but for those that answer a status of their own.
    fn perform(&mut self, command: &str) -> Result<(), RunFault> {
        match command {
            "subset" => self.subset(),
            "merge" => self.merge(),
            "rejoin" => self.rejoin(),
            "pool" => self.pool(),
            "fonts" => self.fonts(),
            "mend" => self.mend(),
            "list" => self.list(),
            "show" => self.show(),
            "pfa" => self.convert(Form::Pfa),
            "pfb" => self.convert(Form::Pfb),
            "join" => self.join(),
            _ => Ok(()),
        }
    }

    /// Does what a command says, and answers the exit status.
    fn run(mut self, command: &str) -> u8 {
        let done = match command {
            "check" => self.check(),
            "diff" => self.diff(),
            "level" => self.level(),
            _ => self.perform(command).map(|()| 0u8),
        };
        let Run {
            alloc,
            paths,
            told,
            seen,
            ..
        } = self;
        let mut told = told;
        let is_only = paths.len() == 1;
        let ended = match done {
            Ok(status) => status,
            Err(fault) => {
                let _ = write_fault(alloc, &fault, &mut told.err);
                told.explain(&fault, (seen.input, is_only), seen.out);
                status(&fault)
            }
        };
        let _ = told.err.write_all(seen.told.as_slice());
        let _ = seen.note.tell(&mut told.err);
        ended
    }
}

/// Prints help if it was asked for, otherwise why the words don't parse; answers the exit status.
fn tell<O: Write + Drop, E: Write + Drop>(error: &Error, mut out: O, mut err: E) -> u8 {
    if error.use_stderr() {
        let _ = write!(err, "{error}");
        return 2;
    }
    match write!(out, "{error}").and_then(|()| out.flush()) {
        Ok(()) => 0,
        Err(_) => 3,
    }
}

/// Does what the words say, and answers the exit status. Standard error may be a terminal.
pub fn run<R: Files, O: Write + Drop, E: Write + Drop>(
    rt: &R,
    alloc: Global,
    words: &[String],
    out: O,
    (err, is_terminal): (E, bool),
) -> u8 {
    let matches = match parse(alloc, words) {
        Ok(matches) => matches,
        Err(error) => return tell(&error, out, err),
    };
    let Some((command, given)) = matches.subcommand() else {
        return 0;
    };
    let run = Run {
        rt,
        alloc,
        given,
        paths: given.get_raw("IN").unwrap_or(&[]),
        out: Counted::new(out),
        told: Told {
            err: Counted::new(err),
            explains: matches.get_flag("explain"),
            is_terminal,
        },
        seen: Seen {
            input: "",
            out: given.get_str("OUT"),
            note: Note::Nothing,
            told: Vec::new(alloc),
        },
    };
    run.run(command)
}
