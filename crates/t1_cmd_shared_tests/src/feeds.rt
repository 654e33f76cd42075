//! Readers and writers in memory that behave by a plan, and how runs over them end.
use std::io;
use std::io::{ErrorKind, Read, Write};
use t1_cmd::{Counted, Reason, RunFault};

/// How a reader or a writer behaves: the most bytes of a call, and the call that fails.
#[derive(Clone, Copy)]
pub struct Plan {
    pub most: usize,
    pub fails: u64,
    pub kind: ErrorKind,
}

/// A plan by which nothing fails.
pub const FINE: Plan = Plan {
    most: usize::MAX,
    fails: 0,
    kind: ErrorKind::Other,
};

/// Bytes in memory that are read by a plan.
#[derive(Drop)]
pub struct Feed<'a> {
    bytes: &'a [u8],
    plan: Plan,
    calls: u64,
}

impl<'a> Feed<'a> {
    /// The reader of these bytes.
    pub fn new(bytes: &'a [u8], plan: Plan) -> Counted<Feed<'a>> {
        Counted::new(Feed {
            bytes,
            plan,
            calls: 0,
        })
    }
}

impl Read for Feed<'_> {
    fn read(&mut self, buf: &mut [u8]) -> io::Result<usize> {
        self.calls = self.calls.saturating_add(1);
        if self.calls == self.plan.fails {
            return Err(io::Error::from(self.plan.kind));
        }
        let n = self.plan.most.min(buf.len());
        self.bytes.read(&mut buf[..n])
    }
}

/// A text in memory that is written by a plan.
#[derive(Drop)]
pub struct Sink {
    pub text: Vec<u8>,
    plan: Plan,
    calls: u64,
}

impl Sink {
    /// The writer that adds to this text.
    pub fn new(text: Vec<u8>, plan: Plan) -> Sink {
        Sink {
            text,
            plan,
            calls: 0,
        }
    }
}

impl Write for Sink {
    fn write(&mut self, buf: &[u8]) -> io::Result<usize> {
        self.calls = self.calls.saturating_add(1);
        if self.calls == self.plan.fails {
            return Err(io::Error::from(self.plan.kind));
        }
        let n = self.plan.most.min(buf.len());
        self.text.extend_from_slice(&buf[..n])?;
        Ok(n)
    }

    fn flush(&mut self) -> io::Result<()> {
        Ok(())
    }
}

/// A fault, as a word.
pub fn fault_word(fault: &RunFault) -> &'static str {
    match fault {
        RunFault::Refused(Reason::Memory) => "memory",
        RunFault::Refused(_) => "refused",
        RunFault::Read => "read",
        RunFault::Write => "write",
    }
}

/// What a run answers, as a word.
pub fn word<T: Drop>(ended: Result<T, RunFault>) -> &'static str {
    match ended {
        Ok(value) => {
            drop(value);
            "ok"
        }
        Err(fault) => word_of(fault),
    }
}

/// A fault that is let go, as a word.
pub fn word_of(fault: RunFault) -> &'static str {
    let word = fault_word(&fault);
    drop(fault);
    word
}
