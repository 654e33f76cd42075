//! Documents in print jobs and in EPS files for DOS, and files that are none.
use super::documents::{levelled, pooled};
use std::alloc::{AllocError, Global};
use t1_cmd::{FilesRefusal, Reason, level_files, list_fonts, pool_files};
use t1_cmd_shared_tests::documents::BEHIND;
use t1_cmd_shared_tests::texts::is;
use t1_jobs::{FileKind, NoDocument};

/// A job by PJL, with a document behind 19 bytes.
const JOB: &[u8] = b"\x1b%-12345X@PJL JOB\r\n%!PS\na\n\x04\x1b%-12345X";

/// An EPS file for DOS, with a preview of three bytes behind its document.
const DOS: &[u8] =
    b"\xc5\xd0\xd3\xc6\x1e\0\0\0\x07\0\0\0\0\0\0\0\0\0\0\0\x25\0\0\0\x03\0\0\0\xff\xff%!PS\nb\nxyz";

/// Files, what is pooled of them, and what is levelled, each behind a `|`; or the line of the refusal.
const ROWS: &[(&[&[u8]], &[u8], &[u8])] = &[
    (
        &[JOB],
        b"%!PS\na\n",
        b"|\x1b%-12345X@PJL JOB\r\n%!PS\na\n\x04\x1b%-12345X",
    ),
    (
        &[DOS, JOB],
        b"%!PS\nb\n%!PS\na\n",
        b"|\xc5\xd0\xd3\xc6\x1e\0\0\0\x07\0\0\0\0\0\0\0\0\0\0\0\x25\0\0\0\x03\0\0\0\xff\xff%!PS\nb\nxyz|\x1b%-12345X@PJL JOB\r\n%!PS\na\n\x04\x1b%-12345X",
    ),
    (
        &[b"%!PS\n", b""],
        b"refused: no document: an empty file\n",
        b"refused: no document: an empty file\n",
    ),
    (
        &[b"%PDF-1.7\n"],
        b"refused: no document: a PDF file\n",
        b"refused: no document: a PDF file\n",
    ),
    (
        &[b"\x04%!PS\n\x04%!PS\n"],
        b"refused: no document: a job ends inside\n",
        b"refused: no document: a job ends inside\n",
    ),
    (
        &[b"\xc5\xd0\xd3\xc6"],
        b"refused: no document: an EPS file for DOS without its PostScript\n",
        b"refused: no document: an EPS file for DOS without its PostScript\n",
    ),
];

/// Whether files are pooled to this and levelled to that.
fn make(alloc: Global, files: &[&[u8]], pool: &[u8], level: &[u8]) -> bool {
    is_text(pooled(alloc, files), pool) && is_text(levelled(alloc, files), level)
}

/// Whether a text is this.
fn is_text(made: Result<Vec<u8>, AllocError>, want: &[u8]) -> bool {
    match made {
        Ok(text) => text.as_slice() == want,
        Err(_) => false,
    }
}

// meets run_pool Ok at 1 documents
// meets run_pool Document at 1, 2 documents
// meets run_level Ok at 1 documents
// meets run_level Document at 1, 2 documents
#[test]
fn jobs_and_others(rt: HostRuntime) {
    for &(files, pool, level) in ROWS {
        assert!(rt; make(rt.alloc(), files, pool, level));
    }
}

/// Whether a call says that the second of two files is a PDF file.
fn is_second<T: Drop>(made: Result<T, FilesRefusal>) -> bool {
    match made {
        Err(
            FilesRefusal {
                place: Some(1),
                reason: Reason::Document(NoDocument::IsA(FileKind::Pdf)),
            },
        ) => true,
        other => {
            drop(other);
            false
        }
    }
}

/// A job, and a file that carries no document.
const SECOND: &[&[u8]] = &[JOB, b"%PDF-1.7\n"];

// meets pool_files Document at 2 documents
// meets level_files Document at 2 documents
// meets list_fonts Document at 2 documents
#[test]
fn the_second_is_none(rt: HostRuntime) {
    assert!(rt; is_second(pool_files(rt.alloc(), BEHIND, SECOND)));
    assert!(rt; is_second(level_files(rt.alloc(), SECOND)));
    assert!(rt; is_second(list_fonts(rt.alloc(), &[], SECOND)));
    assert!(rt;
        is(
            list_fonts(rt.alloc(), &[], &[JOB]),
            b"0 places, 0 names, 0 kept\n"
        )
    );
}
