//! What to do about a fault: the rows of the man page, which `tools/test_explained.py` compares.
use crate::progress::Progress;
use std::io;
use std::io::Write;
use t1_cmd::{Counted, Reason, RunFault};
use t1_font::ReadFault;
use t1_join::{JoinFault, ListFault};
use t1_subset::Conflict;

const FILE_TOO_LONG: &str = "\
The file has more than 268,435,456 bytes, so it is not a single font: take the font out of the document first. \
Documents to pool may have no more together: pool fewer.";

const BAD_SEGMENT_AT_N: &str = "\
The PFB header at this offset of the file is wrong: it has a wrong type, or a length beyond the end. The file is cut off or damaged; fetch it again in \
binary mode.";

const NO_EEXEC: &str = "\
The file has no currentfile eexec followed by a blank, a tab, CR or LF, so it is not a Type 1 font program. An AFM or PFM file has only metrics: name \
the PFA or PFB file instead. If the file was compressed by gzip, decompress it; out of a PDF, a font has to be taken first. Convert a TrueType or CFF \
font first, with FontForge for example, or with cfftot1 if it is CFF.";

const CIPHER_TOO_SHORT: &str = "\
Fewer than four bytes follow eexec. The file is cut off; fetch it again.";

const NO_ENCODING: &str = "\
There is no /Encoding before eexec. The file is not a Type 1 font, or its dictionary is built by a program that would have to be run. A font editor \
can write the font anew.";

const BAD_ENCODING_AT_N: &str = "\
The Encoding doesn't parse from this offset on, in the text of all segments. It has a comment, is an array of fewer or more than 256 names, or has a \
name of over 127 bytes, for example. Try mend; else write the Encoding as a table. A PostScript document mostly gives this, too, or the next: take its \
font out first.";

const NO_CHARSTRINGS: &str = "\
The decrypted private text has no /CharStrings followed by a number and dict dup begin. The cipher has another key, or the font is synthetic; neither \
is read. Or a file with a raw binary cipher was changed in transfer, as by a program that turns CR into LF: fetch it again in binary mode.";

const BAD_LENIV: &str = "\
lenIV is not a number from 0 to 255. A font with lenIV -1, which means charstrings in the clear, is not read.";

const BAD_SUBRS_AT_N: &str = "\
An entry doesn't parse from this offset on, in the decrypted private text. Try mend: it reads over comments among the Subrs, such as the % endarray of \
TIPA and VNTeX. Other comments inside the tables and charstrings of over 65,535 bytes are not read. Otherwise the file is damaged; fetch it again.";

const HYBRID_FONT: &str = "\
The file has a second Subrs table. Hybrid fonts, which hold one font for each of two resolutions, are not read.";

const NO_CLOSEFILE: &str = "\
Nothing closes the cipher. The file is cut off, or was written without its end; fetch it again, or write it anew with a font editor.";

const NO_NOTDEF: &str = "\
There is no glyph of this name, which the standard requires of every Type 1 font. Add one with a font editor.";

const OVER_A_LIMIT: &str = "\
A font, or the merged font, is larger than LIMITS allows. Merge fewer fonts.";

const TOO_MANY_TOKENS: &str = "\
The glyphs that have to be run execute more tokens than --tokens allows; see LIMITS. Allow more if you trust the files.";

const NO_GLYPH_NAME: &str = "\
The font has no glyph of this name, the first missing one that was asked for. t1subset list prints the names.";

const NO_FONT_NAME: &str = "\
No place of a font in the documents has this name. t1subset fonts prints the names.";

const NO_DOCUMENT_WHAT: &str = "\
A document begins with %!, behind the words of a print job (^D, the universal exit, lines of PJL) or in an EPS file for DOS, and one job holds one \
document. WHAT says what the file is: convert a PDF file with pdftops, decompress a packed file, split a file of several jobs.";

const NO_CODE_N: &str = "\
The font's Encoding has no name for this code, the first such code that was asked for. t1subset list prints the codes; ask for the glyph by its name.";

const SHELLS_DIFFER_IN_PART: &str = "\
Everything outside the tables has to be the same in fonts that merge; PART is the first that isn't: head, encoding, clear tail, private, Subrs table, \
Subrs words, middle, CharStrings words or tail. The fonts come from different parents. Or another program cut them from one parent: then head mostly \
means a tag of six capitals before the FontName, and Subrs table that Subrs after the last one used were left out: use rejoin. Subsets that different \
programs cut mostly don't rejoin, since each program writes the texts around the tables in its own way: for one font, dvips and pdfTeX differ in \
private, and Ghostscript differs from both in head.";

const CODE_N_DIFFERS: &str = "\
The fonts have different names for this code, the smallest such code. One of the fonts was re-encoded: merge subsets of one font.";

const GLYPH_NAME_DIFFERS: &str = "\
The fonts have different charstrings for this name, the smallest such name. They come from two versions of a font: cut both from one version.";

const GLYPH_NAME_LACKS_PART_NAME: &str = "\
An accented glyph names a component that its own font lacks and the other has, so its drawing would change. Cut that font again with its components.";

const GLYPH_NAME_LACKS_SUBR_N: &str = "\
Of fonts to rejoin, the first that lacks a Subr which its glyph executes, and which another of the fonts has: a stub there would draw something else \
without a word. The program that cut this font dropped the Subr, as some do where a call is computed. Cut the font anew with another program, or from \
the font's file.";

const SUBR_N_DIFFERS: &str = "\
The fonts have different charstrings for this Subr; NAME is the smallest glyph that executes it, if one does. They come from two versions of a font: \
cut both from one version.";

const BAD_LINE_N: &str = "\
This line of a listing doesn't parse (lines are counted from 1). See LISTINGS.";

const REPEATED_IN_LINE_N: &str = "\
An earlier line has the same key. Remove one of the two.";

const OUT_OF_MEMORY: &str = "\
An allocation was refused. Nothing was written. Merge fewer fonts, or allow the program more memory.";

const FAILED_READ: &str = "\
With exit status 3: this file couldn't be opened, or a system call that reads it failed or was interrupted too often. See whether its path is right, \
and whether it is a file that you may read. If more files were named than can be open, raise the limit (ulimit -n), or merge in steps.";

const FAILED_WRITE: &str = "\
With exit status 3: this file couldn't be opened, or a system call that writes it failed or was interrupted. See whether its folder is there, whether \
you may write it, and whether the disk is full.";

/// What to do about a file that spells no font.
fn of_font(fault: &ReadFault) -> &'static str {
    match fault {
        ReadFault::TooLong => FILE_TOO_LONG,
        ReadFault::BadSegment { .. } => BAD_SEGMENT_AT_N,
        ReadFault::NoEexec => NO_EEXEC,
        ReadFault::ShortCipher => CIPHER_TOO_SHORT,
        ReadFault::NoEncoding => NO_ENCODING,
        ReadFault::BadEncoding { .. } => BAD_ENCODING_AT_N,
        ReadFault::NoCharStrings => NO_CHARSTRINGS,
        ReadFault::BadLenIV => BAD_LENIV,
        ReadFault::BadSubrs { .. } | ReadFault::BadGlyphs { .. } => BAD_SUBRS_AT_N,
        ReadFault::Hybrid => HYBRID_FONT,
        ReadFault::NoClosefile => NO_CLOSEFILE,
        ReadFault::NoNotdef => NO_NOTDEF,
        ReadFault::Limit => OVER_A_LIMIT,
        ReadFault::Memory => OUT_OF_MEMORY,
    }
}

/// What to do about fonts that don't merge. A list without fonts is a fault of the command line.
fn of_conflict(conflict: &Conflict) -> &'static str {
    match conflict {
        Conflict::Shell { .. } => SHELLS_DIFFER_IN_PART,
        Conflict::Code { .. } => CODE_N_DIFFERS,
        Conflict::Glyph { .. } => GLYPH_NAME_DIFFERS,
        Conflict::Part { .. } => GLYPH_NAME_LACKS_PART_NAME,
        Conflict::Subr { .. } => SUBR_N_DIFFERS,
        Conflict::Limit => OVER_A_LIMIT,
        Conflict::Memory => OUT_OF_MEMORY,
        Conflict::Empty => "",
    }
}

/// What to do about a text that is no listing.
fn of_listing(fault: &ListFault) -> &'static str {
    match fault {
        ListFault::BadLine { .. } => BAD_LINE_N,
        ListFault::Repeated { .. } => REPEATED_IN_LINE_N,
        ListFault::Memory => OUT_OF_MEMORY,
    }
}

/// What to do about listings that don't join.
fn of_join(fault: &JoinFault) -> &'static str {
    match fault {
        JoinFault::Subr { .. } => SUBR_N_DIFFERS,
        JoinFault::Glyph { .. } => GLYPH_NAME_DIFFERS,
        JoinFault::Memory => OUT_OF_MEMORY,
    }
}

/// What to do about a refusal.
fn of_reason(reason: &Reason) -> &'static str {
    match reason {
        Reason::TooLong => FILE_TOO_LONG,
        Reason::Memory => OUT_OF_MEMORY,
        Reason::List(fault) => of_listing(fault),
        Reason::Join(fault) => of_join(fault),
        Reason::Font(fault) => of_font(fault),
        Reason::NoGlyph { .. } => NO_GLYPH_NAME,
        Reason::NoFont { .. } => NO_FONT_NAME,
        Reason::NoCode { .. } => NO_CODE_N,
        Reason::Document(_) => NO_DOCUMENT_WHAT,
        Reason::TooManyTokens => TOO_MANY_TOKENS,
        Reason::Lacks { .. } => GLYPH_NAME_LACKS_SUBR_N,
        Reason::Merge(conflict) => of_conflict(conflict),
    }
}

/// Whether a refusal means all files together, where there are several.
fn is_of_all(reason: &Reason) -> bool {
    matches!(
        reason,
        Reason::Join(_)
            | Reason::NoFont { .. }
            | Reason::TooManyTokens
            | Reason::Lacks { .. }
            | Reason::Merge(_)
    )
}

/// The line of the file that a refusal means, which was read from this path. The file may be the only one.
fn tell_file<E: Write>(
    reason: &Reason,
    (input, is_only): (&str, bool),
    err: &mut E,
) -> io::Result<()> {
    match reason {
        Reason::Memory => writeln!(err, "file: none"),
        _ if is_of_all(reason) && !is_only => writeln!(err, "files: all of them together"),
        _ => writeln!(err, "file: {input}"),
    }
}

/// Explains a fault in two lines: the file that is meant, which is the input of this path, and may be the only one, or the file that
/// is written; and what to do. Without a path, standard output is written.
fn explain<E: Write>(
    fault: &RunFault,
    (input, is_only): (&str, bool),
    out: Option<&str>,
    err: &mut E,
) -> io::Result<()> {
    let advice = match fault {
        RunFault::Refused(reason) => {
            tell_file(reason, (input, is_only), err)?;
            of_reason(reason)
        }
        RunFault::Read => {
            writeln!(err, "file: {input}")?;
            FAILED_READ
        }
        RunFault::Write => {
            let path = out.unwrap_or("standard output");
            writeln!(err, "file: {path}")?;
            FAILED_WRITE
        }
    };
    writeln!(err, "{advice}")
}

/// Where faults are told, and whether they are explained.
#[derive(Drop)]
pub struct Told<E> {
    pub err: Counted<E>,
    pub explains: bool,
    /// Whether standard error is a terminal.
    pub is_terminal: bool,
}

impl<E: Write + Drop> Told<E> {
    /// What is shown while so many documents are read.
    pub fn progress(&mut self, count: usize) -> Progress<&mut Counted<E>> {
        Progress::new(&mut self.err, count, self.is_terminal)
    }

    /// Explains a fault in two more lines, if that is asked for: of the input of this path, which may be the only one, or of the file
    /// that is written.
    pub fn explain(&mut self, fault: &RunFault, input: (&str, bool), out: Option<&str>) {
        if self.explains {
            let _ = explain(fault, input, out, &mut self.err);
        }
    }
}
