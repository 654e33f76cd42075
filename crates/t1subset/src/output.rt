//! The file that a result is written to.
use std::alloc::Global;
use std::fs::{Metadata, OpenFile, OpenOptions};
use std::io::{ErrorKind, Write};
use std::os::unix::fs::{MetadataExt, OpenOptionsExt};
use std::rt::Files;
use std::{fs, io};
use t1_cmd::RunFault;

/// How many names are tried for the file beside OUT.
const TRIES: u32 = 100;

/// What a new file may be by default, before the umask.
const NEW_MODE: u32 = 0o666;

/// What stands under OUT's name before the result is written.
#[derive(Drop)]
enum Before {
    /// Nothing.
    Nothing,
    /// A file that may be written, and that has no other name.
    File(Metadata),
    /// Anything else, such as a device, a pipe, a link or a file that may not be written.
    Other,
}

/// What stands under OUT's name.
fn what_stands<R: Files>(rt: &R, path: &str) -> Before {
    let found = match fs::symlink_metadata(rt, path) {
        Ok(found) => found,
        Err(error) if error.kind() == ErrorKind::NotFound => return Before::Nothing,
        Err(_) => return Before::Other,
    };
    let is_alone = found.is_file() && found.nlink() == 1;
    if is_alone && OpenOptions::new().write(true).open(rt, path).is_ok() {
        Before::File(found)
    } else {
        Before::Other
    }
}

/// A new file beside OUT, and its path. From the start, it can be read and written by no more people than this mode says.
fn beside<R: Files>(rt: &R, alloc: Global, path: &str, mode: u32) -> Option<(String, R::File)> {
    for number in 0..TRIES {
        let Ok(name) = format!(in alloc; "{path}.{number}.part") else {
            return None;
        };
        match OpenOptions::new()
            .write(true)
            .create_new(true)
            .mode(mode)
            .open(rt, name.as_str())
        {
            Ok(file) => return Some((name, file)),
            Err(error) if error.kind() == ErrorKind::AlreadyExists => {}
            Err(_) => return None,
        }
    }
    None
}

/// Whether the new file can take the place of the old one: it has its permissions, its owner and its group.
fn can_replace<F: OpenFile>(new: &F, old: &Metadata) -> bool {
    if new.set_permissions(old.permissions()).is_err() {
        return false;
    }
    match new.metadata() {
        Ok(new) => new.uid() == old.uid() && new.gid() == old.gid(),
        Err(_) => false,
    }
}

/// Where the result is written.
#[derive(Drop)]
enum Place<F> {
    /// Into a new file of this path, which can take OUT's name once it is whole.
    Beside(String, F),
    /// Into OUT itself, since that is no plain file of ours.
    Out,
    /// Into OUT itself, since no file beside it could be made.
    OutAlone,
}

/// Where the result of this path is written.
fn place_for<R: Files>(rt: &R, alloc: Global, path: &str) -> Place<R::File> {
    let before = what_stands(rt, path);
    let mode = match &before {
        Before::Nothing => NEW_MODE,
        Before::File(old) => old.mode() & 0o777,
        Before::Other => return Place::Out,
    };
    let Some((name, file)) = beside(rt, alloc, path, mode) else {
        return Place::OutAlone;
    };
    match before {
        Before::File(old) if !can_replace(&file, &old) => {
            let _ = fs::remove_file(rt, name.as_str());
            Place::Out
        }
        _ => Place::Beside(name, file),
    }
}

/// OUT, opened.
#[derive(Drop)]
struct Opened<F> {
    file: F,
    /// Where the result stands until it is whole, if that is beside OUT.
    beside: Option<String>,
    /// Whether OUT is written in place because no file beside it could be made.
    alone: bool,
}

/// What is said of OUT behind the result or its failure.
#[derive(Drop)]
pub enum Note<'p> {
    /// Nothing.
    Nothing,
    /// The file of this path was written in place, since no file beside it could be made.
    InPlace(&'p str),
    /// The whole result is in the file of this path, since it could not take OUT's name.
    KeptIn(String),
}

impl Note<'_> {
    /// Says it in a line, if there is something to say.
    pub fn tell<E: Write>(&self, err: &mut E) -> io::Result<()> {
        match self {
            Note::Nothing => Ok(()),
            Note::InPlace(path) => {
                writeln!(
                    err,
                    "note: {path} is written in place: no file could be made beside it"
                )
            }
            Note::KeptIn(path) => writeln!(err, "note: the whole result is in {path}"),
        }
    }
}

/// OUT as an engine writes to it. The first write opens it, since an engine writes only when its result is complete. The
/// result is written beside OUT and takes OUT's name when it is whole, so that the old file stays if a write fails. If OUT
/// is not a plain file of ours, it is written in place.
#[derive(Drop)]
pub struct Out<'r, 'p, R: Files> {
    rt: &'r R,
    alloc: Global,
    path: &'p str,
    opened: Option<Opened<R::File>>,
}

impl<'r, 'p, R: Files> Out<'r, 'p, R> {
    /// The file of this path, which is not opened yet.
    pub fn new(rt: &'r R, alloc: Global, path: &'p str) -> Out<'r, 'p, R> {
        Out {
            rt,
            alloc,
            path,
            opened: None,
        }
    }

    /// Opens a new file beside OUT, or else OUT. No file has a path without bytes, and none is made beside it.
    fn open(&self) -> io::Result<Opened<R::File>> {
        if self.path.is_empty() {
            return Err(io::Error::from(ErrorKind::NotFound));
        }
        let place = place_for(self.rt, self.alloc, self.path);
        if let Place::Beside(name, file) = place {
            return Ok(Opened {
                file,
                beside: Some(name),
                alone: false,
            });
        }
        let alone = matches!(place, Place::OutAlone);
        let file = fs::create(self.rt, self.path)?;
        Ok(Opened {
            file,
            beside: None,
            alone,
        })
    }

    /// Finishes the output of an engine that ended in this way: a whole result takes OUT's name, and a part is removed. A whole
    /// result without bytes was not opened by a write. Answers also what is to be said of it.
    pub fn end(mut self, done: Result<(), RunFault>) -> (Result<(), RunFault>, Note<'p>) {
        if done.is_ok() && self.opened.is_none() {
            match self.open() {
                Ok(opened) => self.opened = Some(opened),
                Err(_) => return (Err(RunFault::Write), Note::Nothing),
            }
        }
        let Out {
            rt,
            path,
            opened,
            ..
        } = self;
        let Some(opened) = opened else {
            return (done, Note::Nothing);
        };
        let Opened {
            file,
            beside,
            alone,
        } = opened;
        match beside {
            Some(name) => end_beside(rt, file, name, path, done),
            None if alone => (done, Note::InPlace(path)),
            None => (done, Note::Nothing),
        }
    }
}

/// Finishes a result that was written beside OUT.
fn end_beside<'p, R: Files>(
    rt: &R,
    file: R::File,
    name: String,
    path: &'p str,
    done: Result<(), RunFault>,
) -> (Result<(), RunFault>, Note<'p>) {
    if done.is_ok() && file.sync_all().is_ok() {
        drop(file);
        return match keep(rt, name.as_str(), path) {
            Ok(()) => (Ok(()), Note::Nothing),
            Err(_) => (Err(RunFault::Write), Note::KeptIn(name)),
        };
    }
    drop(file);
    let _ = fs::remove_file(rt, name.as_str());
    match done {
        Ok(()) => (Err(RunFault::Write), Note::Nothing),
        Err(fault) => (Err(fault), Note::Nothing),
    }
}

impl<R: Files> Write for Out<'_, '_, R> {
    fn write(&mut self, buf: &[u8]) -> io::Result<usize> {
        if self.opened.is_none() {
            self.opened = Some(self.open()?);
        }
        match &mut self.opened {
            Some(opened) => opened.file.write(buf),
            None => Err(io::Error::from(ErrorKind::NotFound)),
        }
    }

    fn flush(&mut self) -> io::Result<()> {
        Ok(())
    }
}

/// Gives a whole file OUT's name. If it can't have the name, its bytes are copied to what stands there; if that fails, the
/// file stays.
fn keep<R: Files>(rt: &R, name: &str, path: &str) -> io::Result<()> {
    if fs::rename(rt, name, path).is_ok() {
        return Ok(());
    }
    fs::copy(rt, name, path)?;
    let _ = fs::remove_file(rt, name);
    Ok(())
}
