//! Each refusal of a font by each engine, with the line that is printed: of the engines over one font, and of those over
//! lists, whose third font is the one that is refused.
use std::alloc::Global;
use std::io;
use std::io::Read;
use std::test::Fail;
use t1_cmd::{
    Counted, FILE_LIMIT, FilesRefusal, Pooling, Reason, RunFault, diff_files, extract_file,
    join_listings, level_files, list_fonts, pool_files, read_all, run_diff, run_extract, run_fonts,
    run_join, run_level, run_pool,
};
use t1_cmd_shared_tests::changed::file_of;
use t1_cmd_shared_tests::diffs::refuses as diff_refuses;
use t1_cmd_shared_tests::documents::{BEHIND, FAMILIES};
use t1_cmd_shared_tests::engines::{ENGINES, answers, made, run};
use t1_cmd_shared_tests::feeds::word_of;
use t1_cmd_shared_tests::lists::{LISTS, all_list, made_of, refused_place, run_list_of};
use t1_cmd_shared_tests::texts::done;
use t1_tiny::PFA;

/// Files whose containers or clear texts are refused, and the line.
const CLEAR: &[(&[u8], &[u8])] = &[
    (b"\x80\x04", b"refused: bad segment at 0\n"),
    (b"", b"refused: no eexec\n"),
    (
        b"currentfile eexec \x81\x82\x83",
        b"refused: cipher too short\n",
    ),
    (
        b"currentfile eexec \x81\x82\x83\x84",
        b"refused: no Encoding\n",
    ),
    (
        b"/Encoding def currentfile eexec \x81\x82\x83\x84",
        b"refused: bad Encoding at 0\n",
    ),
];

/// Private texts that are refused, and the line.
const PRIVATE: &[(&[u8], &[u8])] = &[
    (b"/lenIV -1 def", b"refused: no CharStrings\n"),
    (
        b"/lenIV -1 def /CharStrings 1 dict dup begin ",
        b"refused: bad lenIV\n",
    ),
    (
        b"/lenIV 0 def /Subrs 1 array dup /CharStrings 1 dict dup begin ",
        b"refused: bad Subrs at 28\n",
    ),
    (
        b"/CharStrings 1 dict dup begin /.notdef ",
        b"refused: bad CharStrings at 30\n",
    ),
    (
        b"/CharStrings 0 dict dup begin end /Subrs 0 array ",
        b"refused: hybrid font\n",
    ),
    (
        b"/CharStrings 0 dict dup begin end close file",
        b"refused: no closefile\n",
    ),
    (
        b"/CharStrings 0 dict dup begin end closefile",
        b"refused: no .notdef\n",
    ),
    (
        b"/lenIV 0 def /Subrs 65536 array ND /CharStrings 0 dict dup begin /.notdef 0 RD  ND end closefile",
        b"refused: over a limit\n",
    ),
];

/// Whether each engine over one font, and each over a list with this as its third font, refuses a file with this line.
fn all_refuse(alloc: Global, file: &[u8], line: &[u8]) -> bool {
    for &engine in ENGINES {
        if !answers(alloc, engine, file, line) {
            return false;
        }
    }
    third_is_refused(alloc, file, line) && diff_refuses(alloc, file, line)
}

/// Whether each engine over a list refuses a file with this line where it is the third of four, and the call below it tells
/// its place.
fn third_is_refused(alloc: Global, file: &[u8], line: &[u8]) -> bool {
    let files = [PFA, PFA, file, b""];
    for &list in LISTS {
        if refused_place(alloc, list, &files) != Some(2) {
            return false;
        }
    }
    all_list(alloc, &files, line)
}

/// The same of a private text.
fn all_refuse_private(alloc: Global, private: &[u8], line: &[u8]) -> bool {
    match file_of(alloc, 0, private) {
        Ok(file) => all_refuse(alloc, file.as_slice(), line),
        Err(_) => false,
    }
}

// meets run_check BadSegment
// meets run_check NoEexec
// meets run_check ShortCipher
// meets run_check NoEncoding
// meets run_check BadEncoding
// meets run_check NoCharStrings
// meets run_check BadLenIV
// meets run_check BadSubrs
// meets run_check BadGlyphs
// meets run_check Hybrid
// meets run_check NoClosefile
// meets run_check NoNotdef
// meets run_check Limit
// like run_check: run_check_of, run_list, run_list_full, run_show, run_convert, run_mend, run_subset, run_subset_with_codes, run_merge, run_rejoin
// like run_check: check_file, list_file, list_file_full, show_file, convert_file, mend_file, list_mends
// like run_check: subset_file, subset_file_with_codes, merge_files, rejoin_files, run_diff, diff_files
#[test]
fn each_fault_by_each_engine(rt: HostRuntime) {
    for &(file, line) in CLEAR {
        assert!(rt; all_refuse(rt.alloc(), file, line), "{}", line.len());
    }
    for &(private, line) in PRIVATE {
        assert!(rt;
            all_refuse_private(rt.alloc(), private, line),
            "{}",
            line.len()
        );
    }
}

/// So many zeros.
#[derive(Drop)]
struct Zeros {
    left: usize,
}

/// A document of so many bytes: `%!`, and zeros behind it.
#[derive(Drop)]
struct Document {
    begins: bool,
    left: usize,
}

impl Document {
    fn new(left: usize) -> Document {
        Document { begins: true, left }
    }
}

impl Read for Document {
    fn read(&mut self, buf: &mut [u8]) -> io::Result<usize> {
        let n = self.left.min(buf.len());
        buf[..n].fill(0);
        if self.begins && n >= 2 {
            buf[0] = b'%';
            buf[1] = b'!';
        }
        self.begins = false;
        self.left -= n;
        Ok(n)
    }
}

impl Read for Zeros {
    fn read(&mut self, buf: &mut [u8]) -> io::Result<usize> {
        let n = self.left.min(buf.len());
        buf[..n].fill(0);
        self.left -= n;
        Ok(n)
    }
}

/// How a run ends, as a word, where a file over the limit has one of its own.
fn word(ended: Result<(), RunFault>) -> &'static str {
    match ended {
        Ok(()) => "ok",
        Err(RunFault::Refused(Reason::TooLong)) => "too long",
        Err(fault) => word_of(fault),
    }
}

/// Whether so many zeros are too long for each engine over a list.
fn are_too_long_in_a_list(alloc: Global, count: usize) -> bool {
    for &list in LISTS {
        let mut out = Vec::new(alloc);
        let mut zeros = [Counted::new(Zeros { left: count })];
        let word = word(run_list_of(alloc, list, &mut zeros, &mut Counted::new(&mut out)));
        if word != "too long" || !out.is_empty() {
            return false;
        }
    }
    true
}

/// Whether so many zeros are too long for each engine over one font.
fn are_too_long(alloc: Global, count: usize) -> bool {
    for &engine in ENGINES {
        let mut out = Vec::new(alloc);
        let mut zeros = Counted::new(Zeros { left: count });
        let word = word(run(alloc, engine, &mut zeros, &mut Counted::new(&mut out)));
        if word != "too long" || !out.is_empty() {
            return false;
        }
    }
    true
}

/// Whether it is told that the file at this place is too long, or that all are.
fn told_too_long<T: Drop>(answer: Result<T, FilesRefusal>, at: Option<usize>) -> bool {
    match answer {
        Ok(value) => {
            drop(value);
            false
        }
        Err(FilesRefusal { place, reason }) => {
            let long = matches!(&reason, Reason::TooLong);
            drop(reason);
            long && place == at
        }
    }
}

/// Whether a file is too long for the call below each engine over one font.
fn is_too_long_alone(alloc: Global, file: &[u8]) -> bool {
    for &engine in ENGINES {
        if !matches!(made(alloc, engine, file), Err(Reason::TooLong)) {
            return false;
        }
    }
    true
}

/// Whether a file is too long for the call below each engine.
fn is_too_long_a_file(alloc: Global, file: &[u8]) -> bool {
    for &list in LISTS {
        if !told_too_long(made_of(alloc, list, &[file]), Some(0)) {
            return false;
        }
    }
    is_too_long_alone(alloc, file)
}

/// Whether a text is too long for the call over two texts, at either place.
fn is_too_long_a_listing(alloc: Global, text: &[u8]) -> bool {
    told_too_long(join_listings(alloc, text, b""), Some(0))
        && told_too_long(join_listings(alloc, b"", text), Some(1))
}

/// Whether a file is too long for the call over two fonts, at either place.
fn is_too_long_to_compare(alloc: Global, file: &[u8]) -> bool {
    told_too_long(diff_files(alloc, file, b""), Some(0))
        && told_too_long(diff_files(alloc, PFA, file), Some(1))
}

/// How Tiny and so many zeros are compared, as a word.
fn compared_zeros(alloc: Global, count: usize) -> &'static str {
    let mut right = Counted::new(Zeros { left: count });
    let mut out = Vec::new(alloc);
    word(done(run_diff(
        alloc,
        &mut Counted::new(PFA.as_slice()),
        &mut right,
        &mut Counted::new(&mut out),
    )))
}

/// An engine over documents.
#[derive(Clone, Copy)]
enum Engine {
    Pool,
    Level,
    Fonts,
    Extract,
}

/// How an engine over documents of so many bytes ends, as a word.
fn ran_over(alloc: Global, left: usize, right: usize, engine: Engine) -> &'static str {
    let mut readers = [
        Counted::new(Document::new(left)),
        Counted::new(Document::new(right)),
    ];
    let mut out = Vec::new(alloc);
    let mut writer = Counted::new(&mut out);
    match engine {
        Engine::Pool => word(done(run_pool(alloc, BEHIND, &mut readers, &mut writer))),
        Engine::Level => word(done(run_level(alloc, &mut readers))),
        Engine::Fonts => word(run_fonts(alloc, &[], &mut readers, &mut writer)),
        Engine::Extract => word(run_extract(alloc, b"Tiny", &mut readers, &mut writer)),
    }
}

/// Whether a document is too long for each call over documents, behind a short one and before itself.
fn is_too_long_a_document(alloc: Global, document: &[u8]) -> bool {
    let documents = [b"%!".as_slice(), document, document];
    told_too_long(pool_files(alloc, BEHIND, &documents), Some(1))
        && told_too_long(level_files(alloc, &documents), Some(1))
        && told_too_long(list_fonts(alloc, &[], &documents), Some(1))
        && told_too_long(extract_file(alloc, b"Tiny", &documents), Some(1))
}

/// How many bytes of so many zeros are read, if they are not too long.
fn read_zeros(alloc: Global, count: usize) -> Option<usize> {
    match read_all(alloc, &mut Counted::new(Zeros { left: count }), FILE_LIMIT) {
        Ok(bytes) => Some(bytes.len()),
        Err(fault) => {
            drop(fault);
            None
        }
    }
}

/// How two listings of so many zeros join, as a word.
fn joined_zeros(alloc: Global, left: usize, right: usize) -> &'static str {
    let mut left = Counted::new(Zeros { left });
    let mut right = Counted::new(Zeros { left: right });
    let mut out = Vec::new(alloc);
    word(run_join(alloc, &mut left, &mut right, &mut Counted::new(&mut out)))
}

/// A byte more than a file may have.
const OVER: usize = 268_435_457;

/// What isn't refused of so many zeros that are read, if anything.
fn what_reads_zeros(alloc: Global) -> &'static str {
    // FILE_LIMIT is 268435456.
    if read_zeros(alloc, FILE_LIMIT) != Some(268_435_456) {
        "read_all, up to the limit"
    } else if read_zeros(alloc, OVER).is_some() {
        "read_all"
    } else if !are_too_long(alloc, OVER) {
        "an engine over one font"
    } else if !are_too_long_in_a_list(alloc, OVER) {
        "an engine over a list"
    } else if joined_zeros(alloc, 0, OVER) != "too long" {
        "run_join, on the right"
    } else if joined_zeros(alloc, OVER, 0) != "too long" {
        "run_join, on the left"
    } else if compared_zeros(alloc, OVER) != "too long" {
        "run_diff"
    } else {
        ""
    }
}

/// What doesn't refuse such a file, if anything.
fn what_takes_file(alloc: Global, file: &[u8]) -> &'static str {
    if !is_too_long_a_file(alloc, file) {
        "a call over fonts"
    } else if !is_too_long_a_listing(alloc, file) {
        "join_listings"
    } else if !is_too_long_to_compare(alloc, file) {
        "diff_files"
    } else {
        ""
    }
}

// meets read_all Ok at 268435456 bytes
// meets read_all TooLong at 268435457 bytes
// meets run_join TooLong at 268435457 bytes
// like run_join: join_listings
// meets run_check TooLong at 268435457 bytes
// like run_check: run_check_of, run_list, run_list_full, run_show, run_convert, run_mend, run_subset, run_subset_with_codes, run_merge, run_rejoin
// like run_check: check_file, list_file, list_file_full, show_file, convert_file, mend_file, list_mends
// like run_check: subset_file, subset_file_with_codes, merge_files, rejoin_files, run_diff, diff_files
#[test]
fn files_over_the_limit(rt: HostRuntime) -> Result<(), Fail> {
    let alloc = rt.alloc();
    let wrong = what_reads_zeros(alloc);
    assert!(rt; wrong.is_empty(), "{wrong}");
    let file = read_all(alloc, &mut Counted::new(Zeros { left: OVER }), OVER)?;
    let wrong = what_takes_file(alloc, file.as_slice());
    assert!(rt; wrong.is_empty(), "{wrong}");
    Ok(())
}

/// Whether documents are too long together, one behind the other and as one.
fn are_too_long_as_one(alloc: Global, documents: &[&[u8]]) -> bool {
    const ONE: Pooling = Pooling {
        tags: false,
        dsc: true,
    };
    told_too_long(pool_files(alloc, FAMILIES, documents), None)
        && told_too_long(pool_files(alloc, ONE, documents), None)
}

// meets run_pool TooLong at 268435457 bytes
// meets run_level TooLong at 268435457 bytes
// like run_pool: run_fonts, run_extract, pool_files, level_files, list_fonts, extract_file
#[test]
fn documents_over_the_limit(rt: HostRuntime) -> Result<(), Fail> {
    let alloc = rt.alloc();
    const CASES: &[(usize, usize, Engine, &str)] = &[
        (2, 268_435_457, Engine::Pool, "too long"),
        (268_435_457, 2, Engine::Level, "too long"),
        (134_217_728, 134_217_728, Engine::Pool, "too long"),
        (2, 2, Engine::Pool, "ok"),
        (2, 268_435_457, Engine::Fonts, "too long"),
        (268_435_457, 2, Engine::Extract, "too long"),
        (2, 2, Engine::Extract, "refused"),
    ];
    for &(left, right, engine, want) in CASES {
        let word = ran_over(alloc, left, right, engine);
        assert!(rt; word == want, "{left} {right}");
    }
    let mut long = Counted::new(Document::new(268_435_457));
    let mut file = read_all(alloc, &mut long, 268_435_457)?;
    if let Some(byte) = file.get_mut(2) {
        // The first line is the header, of which one document keeps nothing.
        *byte = b'\n';
    }
    assert!(rt; is_too_long_a_document(alloc, file.as_slice()));
    match file.as_slice().get(..134_217_728) {
        Some(half) => assert!(rt; are_too_long_as_one(alloc, &[half, half])),
        None => assert!(rt; false, "a file that is too short"),
    }
    Ok(())
}
