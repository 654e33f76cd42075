//! The engines over lists of fonts, and the calls below them.
use super::texts::{of_files_or_line, text_or_line};
use std::alloc::{AllocError, Global};
use std::io::{Read, Write};
use t1_cmd::{Counted, FilesRefusal, RunFault, merge_files, rejoin_files, run_merge, run_rejoin};
use t1_font::Form;

/// An engine over a list of fonts.
#[derive(Clone, Copy)]
pub enum List {
    Merge(Form),
    Rejoin(Form),
}

/// Each of them in both forms.
pub const LISTS: &[List] = &[
    List::Merge(Form::Pfa),
    List::Merge(Form::Pfb),
    List::Rejoin(Form::Pfa),
    List::Rejoin(Form::Pfb),
];

/// The form that it writes.
pub fn form_of(list: List) -> Form {
    match list {
        List::Merge(form) => form,
        List::Rejoin(form) => form,
    }
}

/// Runs an engine over a list.
pub fn run_list_of<R: Read, W: Write>(
    alloc: Global,
    list: List,
    readers: &mut [Counted<R>],
    writer: &mut Counted<W>,
) -> Result<(), RunFault> {
    match list {
        List::Merge(form) => run_merge(alloc, readers, form, writer),
        List::Rejoin(form) => run_rejoin(alloc, readers, form, writer),
    }
}

/// The file that readers come to, or the line of their refusal.
fn listed_from(alloc: Global, list: List, readers: &mut [Counted<&[u8]>]) -> Vec<u8> {
    let mut out = Vec::new(alloc);
    let ended = run_list_of(alloc, list, readers, &mut Counted::new(&mut out));
    text_or_line(alloc, out, ended)
}

/// The readers of files.
pub fn readers<'a>(
    alloc: Global,
    files: &[&'a [u8]],
) -> Result<Vec<Counted<&'a [u8]>>, AllocError> {
    let mut readers = Vec::new(alloc);
    for file in files {
        readers.push(Counted::new(*file))?;
    }
    Ok(readers)
}

/// What the call below an engine makes of files.
pub fn made_of(alloc: Global, list: List, files: &[&[u8]]) -> Result<Vec<u8>, FilesRefusal> {
    match list {
        List::Merge(form) => merge_files(alloc, files, form),
        List::Rejoin(form) => rejoin_files(alloc, files, form),
    }
}

/// The place of the file that the call below an engine refuses, if it refuses one.
pub fn refused_place(alloc: Global, list: List, files: &[&[u8]]) -> Option<usize> {
    match made_of(alloc, list, files) {
        Ok(_) => None,
        Err(refusal) => refusal.place,
    }
}

/// The file that files come to by an engine and by the call below it, or the line of the refusal of both; nothing if they
/// differ.
pub fn listed(alloc: Global, list: List, files: &[&[u8]]) -> Vec<u8> {
    let text = written(alloc, list, files);
    if of_files_or_line(alloc, made_of(alloc, list, files)).as_slice() != text.as_slice() {
        return Vec::new(alloc);
    }
    text
}

/// The file that files come to by an engine, or the line of their refusal.
fn written(alloc: Global, list: List, files: &[&[u8]]) -> Vec<u8> {
    match readers(alloc, files) {
        Ok(mut readers) => listed_from(alloc, list, readers.as_mut_slice()),
        Err(_) => Vec::new(alloc),
    }
}

/// Whether files come to this file, or this is the line of their refusal.
pub fn lists(alloc: Global, list: List, files: &[&[u8]], want: &[u8]) -> bool {
    listed(alloc, list, files).as_slice() == want
}

/// The same of each engine over a list.
pub fn all_list(alloc: Global, files: &[&[u8]], want: &[u8]) -> bool {
    for &list in LISTS {
        if !lists(alloc, list, files, want) {
            return false;
        }
    }
    true
}
