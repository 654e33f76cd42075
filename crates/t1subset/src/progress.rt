//! What is shown on a terminal while many documents are read: which one it is, in one line that is overwritten.
use std::cell::RefCell;
use std::io;
use std::io::{Read, Write};

/// From how many documents on it is shown.
const MANY: usize = 10;

/// The line of a terminal.
#[derive(Drop)]
pub struct Progress<E> {
    err: E,
    /// How many documents there are, or 0 if nothing is shown of them.
    count: usize,
}

impl<E: Write> Progress<E> {
    /// For so many documents, where standard error is a terminal or not.
    pub fn new(err: E, count: usize, is_terminal: bool) -> Progress<E> {
        let count = if is_terminal && count >= MANY {
            count
        } else {
            0
        };
        Progress { err, count }
    }

    /// Shows which document is read.
    fn show(&mut self, number: usize, path: &str) {
        let count = self.count;
        if count > 0 {
            let _ = write!(self.err, "\r\x1b[Kreading {number} of {count}: {path}");
        }
    }

    /// Clears the line.
    pub fn clear(&mut self) {
        if self.count > 0 {
            let _ = self.err.write_all(b"\r\x1b[K");
        }
    }
}

/// A document that is shown when it is read first.
#[derive(Drop)]
pub struct Watched<'c, 'p, F, E> {
    file: F,
    progress: &'c RefCell<Progress<E>>,
    number: usize,
    path: &'p str,
    was_read: bool,
}

impl<'c, 'p, F, E> Watched<'c, 'p, F, E> {
    /// The document of this number, counted from 1, and of this path.
    pub fn new(
        file: F,
        progress: &'c RefCell<Progress<E>>,
        number: usize,
        path: &'p str,
    ) -> Watched<'c, 'p, F, E> {
        Watched {
            file,
            progress,
            number,
            path,
            was_read: false,
        }
    }
}

impl<F: Read, E: Write> Read for Watched<'_, '_, F, E> {
    fn read(&mut self, buf: &mut [u8]) -> io::Result<usize> {
        if !self.was_read {
            self.was_read = true;
            if let Ok(mut progress) = self.progress.try_borrow_mut() {
                progress.show(self.number, self.path);
            }
        }
        self.file.read(buf)
    }
}
