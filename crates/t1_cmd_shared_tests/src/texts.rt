//! What calls and runs answer: texts, lines of faults, and want of memory.
use std::alloc::{AllocError, Global};
use t1_cmd::{Counted, FilesRefusal, Reason, RunFault, write_fault};
pub use t1_font_shared_tests::{are_same, is, joined};

/// The line of a fault.
pub fn line_of(alloc: Global, fault: RunFault) -> Vec<u8> {
    let mut line = Vec::new(alloc);
    drop(write_fault(alloc, &fault, &mut Counted::new(&mut line)));
    drop(fault);
    line
}

/// The line of a refusal.
pub fn line_of_reason(alloc: Global, reason: Reason) -> Vec<u8> {
    line_of(alloc, RunFault::Refused(reason))
}

/// What a run wrote, or the line of its fault; nothing if it wrote before that.
pub fn text_or_line(alloc: Global, out: Vec<u8>, ended: Result<(), RunFault>) -> Vec<u8> {
    match ended {
        Ok(()) => out,
        Err(fault) if out.is_empty() => line_of(alloc, fault),
        Err(fault) => {
            drop(fault);
            Vec::new(alloc)
        }
    }
}

/// What a call answers, or the line of its refusal.
pub fn made_or_line(alloc: Global, made: Result<Vec<u8>, Reason>) -> Vec<u8> {
    match made {
        Ok(text) => text,
        Err(reason) => line_of_reason(alloc, reason),
    }
}

/// The same of a call over files.
pub fn of_files_or_line(alloc: Global, made: Result<Vec<u8>, FilesRefusal>) -> Vec<u8> {
    match made {
        Ok(text) => text,
        Err(FilesRefusal { reason, .. }) => line_of_reason(alloc, reason),
    }
}

/// A run that ends as it does, without what it answers.
pub fn done<T: Drop>(ended: Result<T, RunFault>) -> Result<(), RunFault> {
    match ended {
        Ok(value) => {
            drop(value);
            Ok(())
        }
        Err(fault) => Err(fault),
    }
}

/// What an engine wrote, if it ended well; want of memory if it was refused and wrote nothing.
pub fn written(out: Vec<u8>, ended: Result<(), RunFault>) -> Result<Option<Vec<u8>>, AllocError> {
    match ended {
        Ok(()) => Ok(Some(out)),
        Err(RunFault::Refused(Reason::Memory)) if out.is_empty() => Err(AllocError),
        Err(fault) => {
            drop(fault);
            Ok(None)
        }
    }
}

/// Whether an engine wrote this; want of memory if it was refused and wrote nothing.
pub fn wrote(out: Vec<u8>, ended: Result<(), RunFault>, want: &[u8]) -> Result<bool, AllocError> {
    match written(out, ended) {
        Ok(Some(text)) => Ok(text.as_slice() == want),
        Ok(None) => Ok(false),
        Err(fault) => Err(fault),
    }
}

/// Whether a call makes this text; want of memory if it was refused.
pub fn makes(made: Result<Vec<u8>, Reason>, want: &[u8]) -> Result<bool, AllocError> {
    match made {
        Ok(text) => Ok(text.as_slice() == want),
        Err(Reason::Memory) => Err(AllocError),
        Err(reason) => {
            drop(reason);
            Ok(false)
        }
    }
}

/// What a call over files answers, if it refuses nothing; want of memory if it was refused.
pub fn of_call<T: Drop>(answer: Result<T, FilesRefusal>) -> Result<Option<T>, AllocError> {
    match answer {
        Ok(value) => Ok(Some(value)),
        Err(
            FilesRefusal {
                place: None,
                reason: Reason::Memory,
            },
        ) => Err(AllocError),
        Err(refusal) => {
            drop(refusal);
            Ok(None)
        }
    }
}

/// Whether a call over files makes this text; want of memory if it was refused.
pub fn makes_of(made: Result<Vec<u8>, FilesRefusal>, want: &[u8]) -> Result<bool, AllocError> {
    match of_call(made) {
        Ok(Some(text)) => Ok(text.as_slice() == want),
        Ok(None) => Ok(false),
        Err(fault) => Err(fault),
    }
}
