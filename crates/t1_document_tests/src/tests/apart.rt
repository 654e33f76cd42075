//! Documents pooled each by itself, whose fonts stand apart.

use super::joins::{BEGIN, END, cut, lines, whole};
use super::{joined, tiny};
use std::alloc::{AllocError, Global};
use std::test::Fail;
use t1_document::{Key, Least, PooledApart, free_start, longest_start, pool_apart};

const ENTRY: &[u8] = b"%%BeginResource: font Tiny\n";

const ENTRY_END: &[u8] = b"\n%%EndResource\n/pool:Tiny /Tiny findfont definefont pop\n\
systemdict/undefinefont known{/Tiny undefinefont}if\n";

const LINE: &[u8] = b"/Tiny /pool:Tiny findfont definefont pop";

/// What stands apart behind `fonts:`, each document behind a `|`, and last what is told of the keys, and those that are left.
fn shown(alloc: Global, apart: &PooledApart<'_>) -> Result<Vec<u8>, AllocError> {
    let mut out = joined(alloc, &[b"fonts:", apart.fonts.as_slice()])?;
    for document in apart.documents.as_slice() {
        out.push(b'|')?;
        out.extend_from_slice(document.as_slice())?;
    }
    let told = lines(alloc, apart.places.as_slice(), &apart.joins)?;
    out.extend_from_slice(told.as_slice())?;
    for key in apart.left.as_slice() {
        out.extend_from_slice(b"left ")?;
        out.extend_from_slice(*key)?;
    }
    Ok(out)
}

/// Whether documents are pooled apart to this.
fn become_so(
    alloc: Global,
    least: Least,
    documents: &[&[u8]],
    want: &[&[u8]],
) -> Result<bool, AllocError> {
    let apart = pool_apart(alloc, Key::Name, least, documents)?;
    let made = shown(alloc, &apart)?;
    Ok(made.as_slice() == joined(alloc, want)?.as_slice())
}

// meets pool_apart Ok at 0, 1, 2 documents
#[test]
fn documents_of_one_place(rt: HostRuntime) -> Result<(), Fail> {
    let alloc = rt.alloc();
    let whole = whole(alloc)?;
    let one = joined(alloc, &[BEGIN, whole.as_slice(), END])?;
    let one = one.as_slice();
    let none = become_so(alloc, Least::One, &[], &[b"fonts:"])?;
    assert!(rt; none, "no document");
    let bare = become_so(alloc, Least::One, &[b"%!\na", b""], &[b"fonts:|%!\na|"])?;
    assert!(rt; bare, "no font");
    let stays = [b"fonts:|", one, b"Tiny same\n"];
    assert!(rt; become_so(alloc, Least::Two, &[one], &stays)?, "one place");
    let font = whole.as_slice();
    let goes = [
        b"fonts:",
        ENTRY,
        font,
        ENTRY_END,
        b"|",
        BEGIN,
        LINE,
        END,
        b"Tiny same\n",
    ];
    assert!(rt;
        become_so(alloc, Least::One, &[one], &goes)?,
        "from one place on"
    );
    Ok(())
}

// meets pool_apart Ok at 3 documents
#[test]
fn documents_of_two_places(rt: HostRuntime) -> Result<(), Fail> {
    let alloc = rt.alloc();
    let x = cut(alloc, b"X")?;
    let whole = whole(alloc)?;
    let one = joined(alloc, &[BEGIN, x.as_slice(), END])?;
    let two = joined(alloc, &[BEGIN, whole.as_slice(), END])?;
    let font = whole.as_slice();
    let both = [
        b"fonts:",
        ENTRY,
        font,
        ENTRY_END,
        b"|",
        BEGIN,
        LINE,
        END,
        b"|%!|",
        BEGIN,
        LINE,
        END,
        b"Tiny joined\n",
    ];
    let documents: &[&[u8]] = &[one.as_slice(), b"%!", two.as_slice()];
    assert!(rt;
        become_so(alloc, Least::Two, documents, &both)?,
        "three documents"
    );
    Ok(())
}

const TAKEN_END: &[u8] = b"\n%%EndResource\n/pool::Tiny /Tiny findfont definefont pop\n\
systemdict/undefinefont known{/Tiny undefinefont}if\n";

const TAKEN_LINE: &[u8] = b"/Tiny /pool::Tiny findfont definefont pop";

// meets pool_apart Ok at 2 documents
#[test]
fn fonts_that_stay(rt: HostRuntime) -> Result<(), Fail> {
    let alloc = rt.alloc();
    let whole = whole(alloc)?;
    let asks = tiny(alloc, b"%!\n/x FontDirectory def")?;
    let document = joined(alloc, &[BEGIN, asks.as_slice(), END])?;
    let left = [b"fonts:|", document.as_slice(), b"Tiny same\nleft Tiny"];
    assert!(rt;
        become_so(alloc, Least::One, &[document.as_slice()], &left)?,
        "a font that asks"
    );
    let alone = [b"fonts:|", document.as_slice(), b"Tiny same\n"];
    assert!(rt;
        become_so(alloc, Least::Two, &[document.as_slice()], &alone)?,
        "one place"
    );
    let named = joined(alloc, &[BEGIN, whole.as_slice(), END])?;
    let taken = [
        b"fonts:",
        ENTRY,
        whole.as_slice(),
        TAKEN_END,
        b"|(/pool:)|",
        BEGIN,
        TAKEN_LINE,
        END,
        b"Tiny same\n",
    ];
    let documents: &[&[u8]] = &[b"(/pool:)", named.as_slice()];
    assert!(rt;
        become_so(alloc, Least::One, documents, &taken)?,
        "a name that is taken"
    );
    Ok(())
}

/// Whether many documents with one font each have it apart once.
fn are_many(alloc: Global, count: usize) -> Result<bool, AllocError> {
    let whole = whole(alloc)?;
    let one = joined(alloc, &[BEGIN, whole.as_slice(), END])?;
    let mut documents: Vec<&[u8]> = Vec::new(alloc);
    for _ in 0..count {
        documents.push(one.as_slice())?;
    }
    let apart = pool_apart(alloc, Key::Family, Least::Two, documents.as_slice())?;
    let fonts = joined(alloc, &[ENTRY, whole.as_slice(), ENTRY_END])?;
    Ok(apart.fonts.as_slice() == fonts.as_slice() && apart.documents.len() == count)
}

// meets pool_apart Ok at 300 documents
#[test]
fn many_documents(rt: HostRuntime) -> Result<(), Fail> {
    assert!(rt; are_many(rt.alloc(), 300)?);
    Ok(())
}

/// Whether the start of names that is free in some texts is this.
fn starts(alloc: Global, texts: &[&[u8]], want: &[u8]) -> Result<bool, AllocError> {
    let start = Vec::from_slice(alloc, b"/pool:")?;
    Ok(longest_start(alloc, start, texts)?.as_slice() == want)
}

/// Whether the start of names that is free in a text is this.
fn is_free(alloc: Global, text: &[u8], want: &[u8]) -> Result<bool, AllocError> {
    Ok(free_start(alloc, text)?.as_slice() == want)
}

/// Whether both find the starts that they have to find, in a text of very many colons, too.
fn finds_starts(alloc: Global) -> Result<bool, AllocError> {
    let mut long = Vec::from_slice(alloc, b"/pool")?;
    for _ in 0..300 {
        long.push(b':')?;
    }
    let (text, texts): (&[u8], &[&[u8]]) = (&long, &[b"/pool:", &long, b""]);
    let want = joined(alloc, &[text, b":"])?;
    Ok(
        is_free(alloc, b"", b"/pool:")?
            && is_free(alloc, b"x/pool:y /pool::", b"/pool:::")?
            && is_free(alloc, text, want.as_slice())?
            && starts(alloc, &[], b"/pool:")?
            && starts(alloc, &[b"/pool::", b"/pool:"], b"/pool:::")?
            && starts(alloc, texts, want.as_slice())?,
    )
}

// meets free_start Ok at 0, 1, 300 colons
// meets longest_start Ok at 0, 1, 300 colons
#[test]
fn starts_of_names(rt: HostRuntime) -> Result<(), Fail> {
    assert!(rt; finds_starts(rt.alloc())?);
    Ok(())
}

/// Whether a document with a font has it apart.
fn is_apart(alloc: Global) -> Result<bool, AllocError> {
    let whole = whole(alloc)?;
    let one = joined(alloc, &[BEGIN, whole.as_slice(), END])?;
    let want = [
        b"fonts:",
        ENTRY,
        whole.as_slice(),
        ENTRY_END,
        b"|",
        BEGIN,
        LINE,
        END,
        b"Tiny same\n",
    ];
    let starts = is_free(alloc, b"", b"/pool:")? && starts(alloc, &[], b"/pool:")?;
    Ok(starts && become_so(alloc, Least::One, &[one.as_slice()], &want)?)
}

// meets pool_apart Ok at 1 documents
#[test]
fn growths_of_fonts_apart(rt: HostRuntime) -> Result<(), Fail> {
    let right = match is_apart(rt.alloc()) {
        Err(AllocError) => is_apart(rt.alloc())?,
        answer => answer?,
    };
    assert!(rt; right);
    Ok(())
}
