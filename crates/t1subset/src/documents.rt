//! The commands over documents.
use crate::files::{Run, Seen, last_read, not_opened};
use crate::output::Out;
use crate::progress::{Progress, Watched};
use std::alloc::{AllocError, Global};
use std::cell::RefCell;
use std::fs;
use std::fs::Metadata;
use std::io::Write;
use std::os::unix::fs::MetadataExt;
use std::rt::Files;
use t1_cmd::{
    Counted, Levelled, Pooling, Reason, RunFault, run_extract, run_fonts, run_level, run_pool,
    write_text,
};

/// The documents of these paths, all of them opened, each of which is shown when it is read.
fn watched<'c, 'p, R: Files, E: Write>(
    rt: &R,
    alloc: Global,
    paths: &[&'p str],
    progress: &'c RefCell<Progress<E>>,
    seen: &mut Seen<'p>,
) -> Result<Vec<Counted<Watched<'c, 'p, R::File, E>>>, RunFault> {
    let mut documents = Vec::new(alloc);
    for path in paths {
        seen.input = *path;
        let file = fs::open(rt, *path).map_err(not_opened)?;
        let number = documents.len().saturating_add(1);
        let document = Watched::new(file, progress, number, *path);
        if documents.push(Counted::new(document)).is_err() {
            return Err(RunFault::Refused(Reason::Memory));
        }
    }
    Ok(documents)
}

/// Clears what was shown.
fn clear<E: Write + Drop>(progress: RefCell<Progress<E>>) {
    let mut progress = progress.into_inner();
    progress.clear();
}

/// The last name of a path.
fn last_name(path: &str) -> &str {
    match path.rsplit_once('/') {
        Some((_, name)) => name,
        None => path,
    }
}

/// Whether one of some paths has this last name.
fn has_name(paths: &[&str], name: &str) -> bool {
    for path in paths {
        if last_name(*path) == name {
            return true;
        }
    }
    false
}

/// The last name that two paths have, if there are two such.
fn repeated_name<'p>(paths: &[&'p str]) -> Option<&'p str> {
    for at in 0..paths.len() {
        let (before, behind) = paths.split_at(at);
        if let Some(path) = behind.first() {
            let name = last_name(*path);
            if has_name(before, name) {
                return Some(name);
            }
        }
    }
    None
}

/// The path in a folder of a file with the last name of this path. A folder whose path has no bytes holds no file, so it gives no path:
/// the root is `/`.
fn path_in(alloc: Global, folder: &str, path: &str) -> Result<String, AllocError> {
    if folder.is_empty() {
        return Ok(String::new(alloc));
    }
    let name = last_name(path);
    Ok(format!(in alloc; "{folder}/{name}")?)
}

/// The paths in a folder of files with the last names of these paths.
fn paths_in(alloc: Global, folder: &str, paths: &[&str]) -> Result<Vec<String>, AllocError> {
    let mut targets = Vec::new(alloc);
    for path in paths {
        let target = path_in(alloc, folder, *path)?;
        if targets.push(target).is_err() {
            return Err(AllocError);
        }
    }
    Ok(targets)
}

/// Whether the input of this path is the file that was found.
fn is_file<R: Files>(rt: &R, path: &str, found: &Metadata) -> bool {
    match fs::metadata(rt, path) {
        Ok(input) => input.dev() == found.dev() && input.ino() == found.ino(),
        Err(_) => false,
    }
}

/// The input that is the file of this path, if one is.
fn input_at<'p, R: Files>(rt: &R, target: &str, paths: &[&'p str]) -> Option<&'p str> {
    let Ok(found) = fs::metadata(rt, target) else {
        return None;
    };
    for path in paths {
        if is_file(rt, *path, &found) {
            return Some(*path);
        }
    }
    None
}

/// The first input that stands where a result would be written.
fn input_in_place<'p, R: Files>(rt: &R, targets: &[String], paths: &[&'p str]) -> Option<&'p str> {
    for target in targets {
        if let Some(path) = input_at(rt, target.as_str(), paths) {
            return Some(path);
        }
    }
    None
}

/// The bytes of words.
fn bytes_of<'p>(alloc: Global, words: &[&'p str]) -> Result<Vec<&'p [u8]>, AllocError> {
    let mut texts = Vec::with_capacity(alloc, words.len())?;
    for word in words {
        texts.push(word.as_bytes())?;
    }
    Ok(texts)
}

impl<'r, 'p: 'r, R: Files, O: Write + Drop, E: Write + Drop> Run<'r, 'p, R, O, E> {
    /// Writes documents with each font once.
    pub fn pool(&mut self) -> Result<(), RunFault> {
        let paths = self.paths;
        let how = Pooling {
            tags: self.given.get_flag("tags"),
            dsc: self.given.get_flag("dsc"),
        };
        let mut out = self.result();
        let progress = RefCell::new(self.told.progress(paths.len()));
        let mut documents = watched(self.rt, self.alloc, paths, &progress, &mut self.seen)?;
        let done = run_pool(self.alloc, how, documents.as_mut_slice(), &mut out);
        self.seen.input = last_read(paths, documents.as_slice());
        drop(documents);
        clear(progress);
        self.end_told(out, done)
    }

    /// The documents, levelled.
    fn levelled(&mut self) -> Result<Levelled, RunFault> {
        let paths = self.paths;
        let progress = RefCell::new(self.told.progress(paths.len()));
        let mut documents = watched(self.rt, self.alloc, paths, &progress, &mut self.seen)?;
        let done = run_level(self.alloc, documents.as_mut_slice());
        self.seen.input = last_read(paths, documents.as_slice());
        drop(documents);
        clear(progress);
        done
    }

    /// Writes a text to the file of this path, and adds what is to be said of the file.
    fn write_file(&mut self, path: &str, text: &[u8]) -> Result<(), RunFault> {
        let mut out = Counted::new(Out::new(self.rt, self.alloc, path));
        let done = write_text(&mut out, text);
        let (done, note) = out.into_inner().end(done);
        let _ = note.tell(&mut self.seen.told);
        done
    }

    /// Tells that the document of this number, counted from 0, is the first that could not be written.
    fn tell_unwritten(&mut self, number: usize) {
        let count = self.paths.len();
        if let Some(path) = self.paths.get(number) {
            let told = &mut self.seen.told;
            let _ = writeln!(
                told,
                "note: {number} of {count} documents are written, {path} is not"
            );
        }
    }

    /// Writes texts to the files of these paths, one after the other.
    fn write_files(&mut self, paths: &[String], texts: &[Vec<u8>]) -> Result<(), RunFault> {
        let mut number = 0usize;
        for (path, text) in paths.iter().zip(texts.iter()) {
            if let Err(fault) = self.write_file(path.as_str(), text.as_slice()) {
                self.tell_unwritten(number);
                return Err(fault);
            }
            number = number.saturating_add(1);
        }
        Ok(())
    }

    /// Writes each document into a folder, with one font at each place of a name. Answers status 2 if two have one name, or if the
    /// folder holds one of them.
    pub fn level(&mut self) -> Result<u8, RunFault> {
        let folder = self.word("FOLDER");
        self.seen.out = Some(folder);
        let paths = self.paths;
        if let Some(name) = repeated_name(paths) {
            let _ = writeln!(self.told.err, "error: two documents have the name {name}");
            return Ok(2);
        }
        let targets = paths_in(self.alloc, folder, paths)?;
        if let Some(path) = input_in_place(self.rt, targets.as_slice(), paths) {
            let _ = writeln!(self.told.err, "error: {folder} holds the document {path}");
            return Ok(2);
        }
        let levelled = self.levelled()?;
        self.write_files(targets.as_slice(), levelled.texts.as_slice())?;
        self.seen.told.extend_from_slice(levelled.kept.as_slice())?;
        Ok(0)
    }

    /// Lists the fonts of documents.
    fn list_fonts(&mut self) -> Result<(), RunFault> {
        let paths = self.paths;
        let labels = bytes_of(self.alloc, paths)?;
        let mut documents = self.open_all(paths)?;
        let done = run_fonts(
            self.alloc,
            labels.as_slice(),
            documents.as_mut_slice(),
            &mut self.out,
        );
        self.seen.input = last_read(paths, documents.as_slice());
        done?;
        self.flush()
    }

    /// Writes the first font of a name to the first of the paths that the words give.
    fn extract(&mut self, name: &str) -> Result<(), RunFault> {
        let Some((path, paths)) = self.paths.split_first() else {
            return Ok(());
        };
        self.seen.out = Some(*path);
        let mut documents = self.open_all(paths)?;
        let mut out = self.result_at(*path);
        let done = run_extract(
            self.alloc,
            name.as_bytes(),
            documents.as_mut_slice(),
            &mut out,
        );
        self.seen.input = last_read(paths, documents.as_slice());
        self.end(out, done)
    }

    /// Lists the fonts of documents, or takes one out.
    pub fn fonts(&mut self) -> Result<(), RunFault> {
        match self.given.get_str("extract") {
            Some(name) => self.extract(name),
            None => self.list_fonts(),
        }
    }
}
