//! The engines over one font, and the calls below them.
use super::texts::{done, joined, line_of_reason, made_or_line, text_or_line};
use std::alloc::Global;
use std::io::{Read, Write};
use t1_cmd::{
    Counted, Reason, RunFault, check_file, convert_file, list_file, list_file_full, list_mends,
    mend_file, run_check, run_check_of, run_convert, run_list, run_list_full, run_mend, run_show,
    run_subset, run_subset_with_codes, show_file, subset_file, subset_file_with_codes,
};
use t1_font::Form;
use t1_tiny::PFA;

/// An engine over one font.
#[derive(Clone, Copy)]
pub enum Engine<'a> {
    Check,
    CheckOf(&'a [u8]),
    List,
    ListFull,
    Show(&'a [u8]),
    Convert(Form),
    Mend(Form),
    Subset(&'a [&'a [u8]], Form),
    Codes(&'a [&'a [u8]], &'a [u8], Form),
}

/// Runs an engine.
pub fn run<R: Read, W: Write>(
    alloc: Global,
    engine: Engine<'_>,
    reader: &mut Counted<R>,
    writer: &mut Counted<W>,
) -> Result<(), RunFault> {
    match engine {
        Engine::Check => run_check(alloc, reader, writer),
        Engine::CheckOf(path) => run_check_of(alloc, reader, path, writer),
        Engine::List => run_list(alloc, reader, writer),
        Engine::ListFull => run_list_full(alloc, reader, writer),
        Engine::Show(name) => run_show(alloc, reader, name, writer),
        Engine::Convert(form) => run_convert(alloc, reader, form, writer),
        Engine::Mend(form) => done(run_mend(alloc, reader, form, writer)),
        Engine::Subset(names, form) => run_subset(alloc, reader, names, form, writer),
        Engine::Codes(names, codes, form) => run_subset_with_codes(
            alloc, reader, names, codes, form, writer,
        ),
    }
}

/// The line of a file, behind a path.
fn checked_of(alloc: Global, path: &[u8], file: &[u8]) -> Result<Vec<u8>, Reason> {
    let line = check_file(alloc, file)?;
    Ok(joined(alloc, &[path, b": ", line.as_slice()])?)
}

/// What the call below an engine makes of a file.
pub fn made(alloc: Global, engine: Engine<'_>, file: &[u8]) -> Result<Vec<u8>, Reason> {
    match engine {
        Engine::Check => check_file(alloc, file),
        Engine::CheckOf(path) => checked_of(alloc, path, file),
        Engine::List => list_file(alloc, file),
        Engine::ListFull => list_file_full(alloc, file),
        Engine::Show(name) => show_file(alloc, file, name),
        Engine::Convert(form) => convert_file(alloc, file, form),
        Engine::Mend(form) => mend_file(alloc, file, form),
        Engine::Subset(names, form) => subset_file(alloc, file, names, form),
        Engine::Codes(names, codes, form) => subset_file_with_codes(
            alloc, file, names, codes, form,
        ),
    }
}

/// Whether what is mended of a file is told where this is what the file is mended to, or is refused where this is that line.
fn is_told(alloc: Global, file: &[u8], mended: &[u8]) -> bool {
    match list_mends(alloc, file) {
        Ok(lines) => {
            drop(lines);
            !mended.starts_with(b"refused: ")
        }
        Err(reason) => line_of_reason(alloc, reason).as_slice() == mended,
    }
}

/// What an engine writes of a file, and the call below it makes of it, or the line of the refusal of both; nothing if they
/// differ.
pub fn answer(alloc: Global, engine: Engine<'_>, file: &[u8]) -> Vec<u8> {
    let text = written(alloc, engine, file);
    if made_or_line(alloc, made(alloc, engine, file)).as_slice() != text.as_slice() {
        return Vec::new(alloc);
    }
    if matches!(engine, Engine::Mend(_)) && !is_told(alloc, file, text.as_slice()) {
        return Vec::new(alloc);
    }
    text
}

/// What an engine writes of bytes in memory, or the line of its fault.
fn written(alloc: Global, engine: Engine<'_>, input: &[u8]) -> Vec<u8> {
    let mut out = Vec::new(alloc);
    let ended = run(
        alloc,
        engine,
        &mut Counted::new(input),
        &mut Counted::new(&mut out),
    );
    text_or_line(alloc, out, ended)
}

/// Whether an engine writes this of bytes in memory, or it is the line of its fault.
pub fn answers(alloc: Global, engine: Engine<'_>, input: &[u8], want: &[u8]) -> bool {
    answer(alloc, engine, input).as_slice() == want
}

/// The PFA file of a subset, or the line of its refusal.
pub fn subset(alloc: Global, input: &[u8], names: &[&[u8]]) -> Vec<u8> {
    answer(alloc, Engine::Subset(names, Form::Pfa), input)
}

/// What an engine writes of Tiny.
pub fn of_tiny(alloc: Global, engine: Engine<'_>) -> Vec<u8> {
    answer(alloc, engine, PFA)
}

/// An engine over one font, of each kind.
pub const ENGINES: &[Engine] = &[
    Engine::Check,
    Engine::CheckOf(b"tiny.pfa"),
    Engine::List,
    Engine::ListFull,
    Engine::Show(b"Aacute"),
    Engine::Convert(Form::Pfa),
    Engine::Convert(Form::Pfb),
    Engine::Mend(Form::Pfa),
    Engine::Mend(Form::Pfb),
    Engine::Subset(&[b"X"], Form::Pfa),
    Engine::Subset(&[b"X"], Form::Pfb),
    Engine::Codes(&[b"X"], b"B", Form::Pfa),
];

/// What is listed of Tiny.
pub const TINY_LISTED: &[u8] = b"code 65 X
code 66 Y
code 194 H
subr 0 11
subr 1 5
subr 2 5
subr 3 1
subr 4 8
subr 5 3
subr 6 3
subr 7 4
subr 8 0
subr 9 3
glyph .notdef 5
glyph A 10
glyph Aacute 14
glyph B 14
glyph F 46
glyph H 11
glyph L 7
glyph N 14
glyph X 15
glyph Y 12
glyph acute 10
";

/// What is listed of Tiny in full, behind the same lines.
pub const TINY_IN_FULL: &[u8] = b"name Tiny
matrix 0.001 0 0 0.001 0 0
box 0 0 500 700
width .notdef 250 0
width A 500 0
width Aacute 500 0
width B 500 0
width F 500 0
width H 500 0
width L fault Nesting
width N fault NestedSeac
width X 300 0
width Y 500 0
width acute 300 0
";
