//! Documents that are pooled and levelled.
use std::alloc::{AllocError, Global};
use std::io::ErrorKind;
use std::test::Fail;
use t1_cmd::{
    Counted, Levelled, Pooled, Pooling, Reason, RunFault, level_files, pool_files, run_level,
    run_pool,
};
use t1_cmd_shared_tests::documents::{BEHIND, FAMILIES, document, other, part, tagged, whole};
use t1_cmd_shared_tests::engines::{Engine, run};
use t1_cmd_shared_tests::feeds::{FINE, Feed, Plan, Sink, word};
use t1_cmd_shared_tests::lists::readers;
use t1_cmd_shared_tests::texts::{are_same, done, joined, line_of, of_call, written, wrote};
use t1_font::Form;
use t1_tiny::PFA;

/// What the call pools documents to, and behind it what is told.
pub fn pooled_files(
    alloc: Global,
    how: Pooling,
    documents: &[&[u8]],
) -> Result<Vec<u8>, AllocError> {
    match pool_files(alloc, how, documents) {
        Ok(Pooled { text, kept }) => joined(alloc, &[text.as_slice(), kept.as_slice()]),
        Err(refusal) => {
            drop(refusal);
            Err(AllocError)
        }
    }
}

/// Documents that were levelled, each behind a `|`, and behind them what is told.
fn shown(alloc: Global, levelled: Levelled) -> Result<Vec<u8>, AllocError> {
    let mut out = Vec::new(alloc);
    for text in levelled.texts.as_slice() {
        out.push(b'|')?;
        out.extend_from_slice(text.as_slice())?;
    }
    out.extend_from_slice(levelled.kept.as_slice())?;
    Ok(out)
}

/// What the call levels documents to.
fn levelled_files(alloc: Global, documents: &[&[u8]]) -> Result<Vec<u8>, AllocError> {
    match level_files(alloc, documents) {
        Ok(levelled) => shown(alloc, levelled),
        Err(refusal) => {
            drop(refusal);
            Err(AllocError)
        }
    }
}

/// Whether the calls make of documents what the engines make of them.
fn files_are_alike(alloc: Global, documents: &[&[u8]]) -> bool {
    are_same(
        pooled(alloc, documents),
        pooled_files(alloc, BEHIND, documents),
    ) && are_same(levelled(alloc, documents), levelled_files(alloc, documents))
}

/// What is written of documents that are pooled, and behind it what is told; or the line of the refusal.
pub fn pooled(alloc: Global, documents: &[&[u8]]) -> Result<Vec<u8>, AllocError> {
    pooled_as(alloc, BEHIND, documents)
}

/// The same of readers.
fn pooled_from(
    alloc: Global,
    how: Pooling,
    readers: &mut [Counted<&[u8]>],
) -> Result<Vec<u8>, AllocError> {
    let mut out = Vec::new(alloc);
    match run_pool(alloc, how, readers, &mut Counted::new(&mut out)) {
        Ok(lines) => joined(alloc, &[out.as_slice(), lines.as_slice()]),
        Err(fault) => Ok(line_of(alloc, fault)),
    }
}

/// The same, pooled so.
pub fn pooled_as(alloc: Global, how: Pooling, documents: &[&[u8]]) -> Result<Vec<u8>, AllocError> {
    match readers(alloc, documents) {
        Ok(mut readers) => pooled_from(alloc, how, readers.as_mut_slice()),
        Err(fault) => Err(fault),
    }
}

/// Documents that are levelled, each behind a `|`, and behind them what is told; or the line of the refusal.
fn levelled_from(alloc: Global, readers: &mut [Counted<&[u8]>]) -> Result<Vec<u8>, AllocError> {
    match run_level(alloc, readers) {
        Ok(levelled) => shown(alloc, levelled),
        Err(fault) => Ok(line_of(alloc, fault)),
    }
}

/// The same of documents.
pub fn levelled(alloc: Global, documents: &[&[u8]]) -> Result<Vec<u8>, AllocError> {
    match readers(alloc, documents) {
        Ok(mut readers) => levelled_from(alloc, readers.as_mut_slice()),
        Err(fault) => Err(fault),
    }
}

/// Whether documents are pooled to this text of parts.
pub fn pool_into(alloc: Global, documents: &[&[u8]], want: &[&[u8]]) -> bool {
    are_same(pooled(alloc, documents), joined(alloc, want))
}

/// Whether they are levelled to this.
pub fn level_into(alloc: Global, documents: &[&[u8]], want: &[&[u8]]) -> bool {
    are_same(levelled(alloc, documents), joined(alloc, want))
}

/// What stands before the first document up to Tiny's text.
const ENTRY: &[u8] = b"%!PS-Adobe-3.0\n%%BeginResource: font Tiny\n";

/// What follows that text up to the first document.
const ENTRY_END: &[u8] = b"
%%EndResource
/pool:Tiny /Tiny findfont definefont pop
systemdict/undefinefont known{/Tiny undefinefont}if
";

/// A document with a line in place of Tiny's text.
const LINED: &[u8] =
    b"%!PS\n%%BeginFont: Tiny\n/Tiny /pool:Tiny findfont definefont pop{restore}if\n%%EndFont\nshowpage";

/// Whether they are pooled to this, and the calls make of them what the engines make.
fn pools(alloc: Global, documents: &[&[u8]], want: &[&[u8]]) -> bool {
    pool_into(alloc, documents, want) && files_are_alike(alloc, documents)
}

/// What of a document with a part of a font and of one with the whole comes out wrong, if anything.
fn what_is_wrong<'a>(alloc: Global, a: &'a [u8], b: &'a [u8]) -> &'static str {
    if !pools(alloc, &[], &[]) {
        "none"
    } else if !pools(alloc, &[a], &[a]) {
        "one"
    } else if !pools(
        alloc,
        &[a, b, a],
        &[ENTRY, whole(), ENTRY_END, LINED, b"\n", LINED, b"\n", LINED],
    ) {
        "three"
    } else if !level_into(alloc, &[], &[]) {
        "none, levelled"
    } else if !level_into(alloc, &[a, b], &[b"|", b, b"|", b]) {
        "two, levelled"
    } else if !level_into(alloc, &[a], &[b"|", a]) {
        "one, levelled"
    } else {
        ""
    }
}

// meets run_pool Ok at 0, 1, 2, 3 documents
// meets run_level Ok at 0, 1, 2, 3 documents
// like run_pool: pool_files
// like run_level: level_files
#[test]
fn documents_become_one(rt: HostRuntime) -> Result<(), Fail> {
    let alloc = rt.alloc();
    let cut = part(alloc);
    let a = document(alloc, cut.as_slice())?;
    let b = document(alloc, whole())?;
    let wrong = what_is_wrong(alloc, a.as_slice(), b.as_slice());
    assert!(rt; wrong.is_empty(), "{wrong}");
    Ok(())
}

const KEPT: &[u8] = b"kept Tiny: shells differ in head\n";

#[test]
fn other_fonts_are_kept(rt: HostRuntime) -> Result<(), Fail> {
    let alloc = rt.alloc();
    let other = other(alloc)?;
    let a = document(alloc, whole())?;
    let c = document(alloc, other.as_slice())?;
    let (a, c) = (a.as_slice(), c.as_slice());
    assert!(rt; pool_into(alloc, &[a, c], &[a, b"\n", c, KEPT]), "pooled");
    assert!(rt;
        level_into(alloc, &[a, c], &[b"|", a, b"|", c, KEPT]),
        "levelled"
    );
    assert!(rt; files_are_alike(alloc, &[a, c]), "as files");
    Ok(())
}

/// Documents with lines in place of fonts of a family.
const A_IS_TINY: &[u8] =
    b"%!PS\n%%BeginFont: Tiny\n/ABCDEF+Tiny /pool:Tiny findfont definefont pop{restore}if\n%%EndFont\nshowpage";

const G_IS_TINY: &[u8] =
    b"%!PS\n%%BeginFont: Tiny\n/GHIJKL+Tiny /pool:Tiny findfont definefont pop{restore}if\n%%EndFont\nshowpage";

/// The end of the family's entry where a name of it has an entry already, which follows.
const FAMILY_END: &[u8] = b"
%%EndResource
/pool::Tiny /Tiny findfont definefont pop
systemdict/undefinefont known{/Tiny undefinefont}if
%!PS-Adobe-3.0
%%BeginResource: font ABCDEF+Tiny
/ABCDEF+Tiny /pool::Tiny findfont definefont pop
%%EndResource
/pool:ABCDEF+Tiny /ABCDEF+Tiny findfont definefont pop
systemdict/undefinefont known{/ABCDEF+Tiny undefinefont}if
";

/// Documents with lines behind these entries: of the name, and of the family.
const A_IS_A: &[u8] =
    b"%!PS\n%%BeginFont: Tiny\n/ABCDEF+Tiny /pool:ABCDEF+Tiny findfont definefont pop{restore}if\n%%EndFont\nshowpage";

const G_IS_LATER: &[u8] =
    b"%!PS\n%%BeginFont: Tiny\n/GHIJKL+Tiny /pool::Tiny findfont definefont pop{restore}if\n%%EndFont\nshowpage";

const FAMILY_KEPT: &[u8] = b"kept Tiny: shells differ in head\n";

/// Whether documents are pooled to this, and this is told, by the engine and by the call, where names that are equal without
/// their tags are one.
pub fn families_are(alloc: Global, documents: &[&[u8]], want: &[&[u8]]) -> bool {
    are_same(pooled_as(alloc, FAMILIES, documents), joined(alloc, want))
        && are_same(
            pooled_files(alloc, FAMILIES, documents),
            joined(alloc, want),
        )
}

/// What of a part of a font with a tag, of the whole with that tag and with another, and of another font comes out wrong, if anything.
fn what_of_tags_is_wrong<'a>(
    alloc: Global,
    a: &'a [u8],
    b: &'a [u8],
    g: &'a [u8],
    o: &'a [u8],
) -> &'static str {
    if !pool_into(alloc, &[a, g], &[a, b"\n", g]) {
        "without tags"
    } else if !families_are(alloc, &[], &[]) {
        "none"
    } else if !families_are(alloc, &[a], &[a]) {
        "one"
    } else if !families_are(
        alloc,
        &[a, g],
        &[ENTRY, whole(), ENTRY_END, A_IS_TINY, b"\n", G_IS_TINY],
    ) {
        "two names"
    } else if !families_are(
        alloc,
        &[a, b, g],
        &[
            ENTRY,
            whole(),
            FAMILY_END,
            A_IS_A,
            b"\n",
            A_IS_A,
            b"\n",
            G_IS_LATER,
        ],
    ) {
        "two names, one of them twice"
    } else if !families_are(alloc, &[a, o], &[a, b"\n", o, FAMILY_KEPT]) {
        "fonts that don't rejoin"
    } else if !families_are(
        alloc,
        &[g, o, a],
        &[g, b"\n", o, b"\n", a, NAME_KEPT, FAMILY_KEPT],
    ) {
        "a name that keeps its fonts"
    } else {
        ""
    }
}

#[test]
fn names_with_other_tags_become_one(rt: HostRuntime) -> Result<(), Fail> {
    let alloc = rt.alloc();
    let cut = part(alloc);
    let other = other(alloc)?;
    let a = tagged(alloc, cut.as_slice(), b"ABCDEF+")?;
    let b = tagged(alloc, whole(), b"ABCDEF+")?;
    let g = tagged(alloc, whole(), b"GHIJKL+")?;
    let o = tagged(alloc, other.as_slice(), b"GHIJKL+")?;
    let (a, b) = (a.as_slice(), b.as_slice());
    let wrong = what_of_tags_is_wrong(alloc, a, b, g.as_slice(), o.as_slice());
    assert!(rt; wrong.is_empty(), "{wrong}");
    Ok(())
}

const NAME_KEPT: &[u8] = b"kept GHIJKL+Tiny: shells differ in head\n";

/// How long the text is that documents are pooled to, and that of those that are levelled.
fn lengths(alloc: Global, documents: &[&[u8]]) -> Result<(usize, usize), AllocError> {
    let pooled = pooled(alloc, documents)?;
    let levelled = levelled(alloc, documents)?;
    Ok((pooled.len(), levelled.len()))
}

/// Whether so many documents are pooled, and levelled.
fn are_many(alloc: Global, count: usize) -> Result<bool, AllocError> {
    let text = document(alloc, whole())?;
    let mut documents = Vec::new(alloc);
    documents.resize(count, text.as_slice())?;
    let lined = count.saturating_mul(LINED.len().saturating_add(1));
    let all = count.saturating_mul(text.len().saturating_add(1));
    let entry = joined(alloc, &[ENTRY, whole(), ENTRY_END])?;
    let want = (entry.len().saturating_add(lined).saturating_sub(1), all);
    let documents = documents.as_slice();
    Ok(files_are_alike(alloc, documents) && lengths(alloc, documents)? == want)
}

// meets run_pool Ok at 300 documents
// meets run_level Ok at 300 documents
// like run_pool: pool_files
// like run_level: level_files
#[test]
fn many_documents(rt: HostRuntime) {
    assert!(rt; are_many(rt.alloc(), 300) == Ok(true));
}

/// A first call that fails.
const FAILS: Plan = Plan {
    most: usize::MAX,
    fails: 1,
    kind: ErrorKind::Other,
};

/// How two documents are pooled that are read by these plans, as a word, where the writer goes by the third.
fn ended(alloc: Global, first: Plan, second: Plan, writer: Plan) -> &'static str {
    let mut readers = [Feed::new(PFA, first), Feed::new(PFA, second)];
    let mut out = Counted::new(Sink::new(Vec::new(alloc), writer));
    word(run_pool(alloc, BEHIND, &mut readers, &mut out))
}

/// How two documents are levelled that are read by these plans, as a word.
fn levels(alloc: Global, first: Plan, second: Plan) -> &'static str {
    let mut readers = [Feed::new(PFA, first), Feed::new(PFA, second)];
    word(run_level(alloc, &mut readers))
}

#[test]
fn documents_that_fail(rt: HostRuntime) {
    const ROWS: &[(Plan, Plan, Plan, &str)] = &[
        (FINE, FINE, FINE, "ok"),
        (FAILS, FINE, FINE, "read"),
        (FINE, FAILS, FINE, "read"),
        (FINE, FINE, FAILS, "write"),
    ];
    for &(first, second, writer, want) in ROWS {
        assert!(rt; ended(rt.alloc(), first, second, writer) == want);
    }
    assert!(rt; levels(rt.alloc(), FINE, FINE) == "ok");
    assert!(rt; levels(rt.alloc(), FINE, FAILS) == "read");
}

/// Whether two documents are pooled so to this text, with room for it.
fn pool_to(
    alloc: Global,
    how: Pooling,
    a: &[u8],
    b: &[u8],
    want: &[u8],
) -> Result<bool, AllocError> {
    let mut readers = [Counted::new(a), Counted::new(b)];
    let mut out = Vec::with_capacity(alloc, want.len())?;
    let ended = run_pool(alloc, how, &mut readers, &mut Counted::new(&mut out));
    wrote(out, done(ended), want)
}

/// Whether all of these texts are this one.
fn are_all(texts: &[Vec<u8>], want: &[u8]) -> bool {
    for text in texts {
        if text.as_slice() != want {
            return false;
        }
    }
    true
}

/// Whether so many documents were levelled to this text, each, and nothing is told.
fn are_levelled(levelled: Levelled, count: usize, want: &[u8]) -> bool {
    levelled.texts.len() == count
        && levelled.kept.is_empty()
        && are_all(levelled.texts.as_slice(), want)
}

/// Whether two documents are levelled to this text, each.
fn level_to(alloc: Global, a: &[u8], b: &[u8], want: &[u8]) -> Result<bool, AllocError> {
    let mut readers = [Counted::new(a), Counted::new(b)];
    match run_level(alloc, &mut readers) {
        Ok(levelled) => Ok(are_levelled(levelled, 2, want)),
        Err(RunFault::Refused(Reason::Memory)) => Err(AllocError),
        Err(fault) => {
            drop(fault);
            Ok(false)
        }
    }
}

/// Whether the call pools documents to this text.
fn files_pool_to(alloc: Global, documents: &[&[u8]], want: &[u8]) -> Result<bool, AllocError> {
    match of_call(pool_files(alloc, BEHIND, documents)) {
        Ok(Some(one)) => Ok(one.text.as_slice() == want && one.kept.is_empty()),
        Ok(None) => Ok(false),
        Err(fault) => Err(fault),
    }
}

/// Whether the call levels two documents to this text, each.
fn files_level_to(alloc: Global, documents: &[&[u8]], want: &[u8]) -> Result<bool, AllocError> {
    match of_call(level_files(alloc, documents)) {
        Ok(Some(each)) => Ok(are_levelled(each, 2, want)),
        Ok(None) => Ok(false),
        Err(fault) => Err(fault),
    }
}

/// The PFA of Tiny's subset of X.
pub fn subset_of_x(alloc: Global) -> Result<Option<Vec<u8>>, AllocError> {
    let mut out = Vec::with_capacity(alloc, 2224)?;
    let ended = run(
        alloc,
        Engine::Subset(&[b"X"], Form::Pfa),
        &mut Counted::new(PFA.as_slice()),
        &mut Counted::new(&mut out),
    );
    written(out, ended)
}

/// Whether a document with a part of a font and one with the whole are pooled to this text, and levelled to the whole one.
fn both_become(alloc: Global, a: &[u8], b: &[u8], want: &[u8]) -> Result<bool, AllocError> {
    Ok(
        files_pool_to(alloc, &[a, b], want)?
            && files_level_to(alloc, &[a, b], b)?
            && pool_to(alloc, BEHIND, a, b, want)?
            && pool_to(alloc, FAMILIES, a, b, want)?
            && level_to(alloc, a, b, b)?,
    )
}

/// Whether a document with this font text and one with the whole one are pooled, and levelled.
fn becomes_one(alloc: Global, cut: &[u8]) -> Result<bool, AllocError> {
    let a = document(alloc, cut)?;
    let b = document(alloc, whole())?;
    let want = joined(alloc, &[ENTRY, whole(), ENTRY_END, LINED, b"\n", LINED])?;
    both_become(alloc, a.as_slice(), b.as_slice(), want.as_slice())
}

/// The same of a part of a font.
fn become_one(alloc: Global) -> Result<bool, AllocError> {
    match subset_of_x(alloc) {
        Ok(Some(file)) => match file.as_slice() {
            [cut @ .., _] => becomes_one(alloc, cut),
            [] => Ok(false),
        },
        Ok(None) => Ok(false),
        Err(fault) => Err(fault),
    }
}

#[test]
fn growths_of_documents(rt: HostRuntime) {
    let right = match become_one(rt.alloc()) {
        Err(AllocError) => become_one(rt.alloc()),
        answer => answer,
    };
    assert!(rt; right == Ok(true));
}
