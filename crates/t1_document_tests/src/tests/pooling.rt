//! Documents in which each font stands once, before all others, and each place finds it under a name of the pool's own.

use super::joins::{BEGIN, END, cut, lines, tagged, whole};
use super::{joined, tiny};
use std::alloc::{AllocError, Global};
use std::test::Fail;
use t1_document::{Key, pool_document};

/// What is told of the keys of a text, behind it those that are left, and the pooled text.
fn pooled(alloc: Global, by: Key, text: &[u8]) -> Result<(Vec<u8>, Vec<u8>), AllocError> {
    let pooled = pool_document(alloc, by, text)?;
    let mut told = lines(alloc, pooled.places.as_slice(), &pooled.joins)?;
    for key in pooled.left.as_slice() {
        told.extend_from_slice(b"left ")?;
        told.extend_from_slice(*key)?;
        told.push(b'\n')?;
    }
    let text = joined(alloc, &[pooled.text.as_slice()])?;
    Ok((told, text))
}

/// Whether a text is pooled to this, which is pooled to itself.
fn pools(
    alloc: Global,
    by: Key,
    parts: &[&[u8]],
    told: &[u8],
    want: &[&[u8]],
) -> Result<bool, AllocError> {
    let text = joined(alloc, parts)?;
    let want = joined(alloc, want)?;
    let (lines, once) = pooled(alloc, by, text.as_slice())?;
    let (_, again) = pooled(alloc, by, once.as_slice())?;
    Ok(
        lines.as_slice() == told
            && once.as_slice() == want.as_slice()
            && again.as_slice() == want.as_slice(),
    )
}

/// Whether a text stays.
fn stays(alloc: Global, by: Key, parts: &[&[u8]], told: &[u8]) -> Result<bool, AllocError> {
    let text = joined(alloc, parts)?;
    let (lines, same) = pooled(alloc, by, text.as_slice())?;
    Ok(lines.as_slice() == told && same.as_slice() == text.as_slice())
}

const FIRST: &[u8] = b"%!PS-Adobe-3.0\n";

const ENTRY: &[u8] = b"%%BeginResource: font Tiny\n";

const ENTRY_END: &[u8] = b"\n%%EndResource\n/pool:Tiny /Tiny findfont definefont pop\n";

const LOSES: &[u8] = b"systemdict/undefinefont known{/Tiny undefinefont}if\n";

const LINE: &[u8] = b"/Tiny /pool:Tiny findfont definefont pop";

// meets pool_document Ok at 0, 1, 2, 3 places
#[test]
fn fonts_of_a_name(rt: HostRuntime) -> Result<(), Fail> {
    let alloc = rt.alloc();
    let x = cut(alloc, b"X")?;
    let whole = whole(alloc)?;
    let other = tiny(alloc, b"%! another font")?;
    let (a, b, c) = (x.as_slice(), whole.as_slice(), other.as_slice());
    let none = stays(alloc, Key::Name, &[b"%!\n"], b"")?;
    assert!(rt; none, "no place");
    let one = stays(alloc, Key::Name, &[BEGIN, a, END], b"Tiny same\n")?;
    assert!(rt; one, "one place");
    let same = pools(
        alloc,
        Key::Name,
        &[BEGIN, a, END, BEGIN, a, END],
        b"Tiny same\n",
        &[
            FIRST, ENTRY, a, ENTRY_END, LOSES, BEGIN, LINE, END, BEGIN, LINE, END,
        ],
    )?;
    assert!(rt; same, "one text");
    let three = pools(
        alloc,
        Key::Name,
        &[BEGIN, a, END, b"x\n", BEGIN, b, END, BEGIN, a, END, b"y"],
        b"Tiny joined\n",
        &[
            FIRST, ENTRY, b, ENTRY_END, LOSES, BEGIN, LINE, END, b"x\n", BEGIN, LINE, END, BEGIN,
            LINE, END, b"y",
        ],
    )?;
    assert!(rt; three, "three subsets");
    let kept = [BEGIN, a, END, BEGIN, c, END];
    let line = b"Tiny shells differ in head\n";
    assert!(rt; stays(alloc, Key::Name, &kept, line)?, "another font");
    Ok(())
}

const INSIDE: &[u8] = b"%%BeginDocument: a\n";

const BEHIND: &[u8] = b"%%EndDocument\n";

const TAKEN: &[u8] = b"(/pool:) pop\n";

const TAKEN_END: &[u8] = b"\n%%EndResource\n/pool::Tiny /Tiny findfont definefont pop\n";

const TAKEN_LINE: &[u8] = b"/Tiny /pool::Tiny findfont definefont pop";

// meets pool_document Ok at 2 places
#[test]
fn names_that_are_taken(rt: HostRuntime) -> Result<(), Fail> {
    let alloc = rt.alloc();
    let whole = whole(alloc)?;
    let a = whole.as_slice();
    let taken = pools(
        alloc,
        Key::Name,
        &[INSIDE, BEGIN, a, END, BEHIND, TAKEN, BEGIN, a, END],
        b"Tiny same\n",
        &[
            FIRST, ENTRY, a, TAKEN_END, LOSES, INSIDE, BEGIN, TAKEN_LINE, END, BEHIND, TAKEN,
            BEGIN, TAKEN_LINE, END,
        ],
    )?;
    assert!(rt; taken);
    Ok(())
}

const A_IS_TINY: &[u8] = b"/ABCDEF+Tiny /pool:Tiny findfont definefont pop";

const G_IS_TINY: &[u8] = b"/GHIJKL+Tiny /pool:Tiny findfont definefont pop";

const A_ENTRY: &[u8] = b"%%BeginResource: font ABCDEF+Tiny\n";

const A_ENTRY_END: &[u8] = b"\n%%EndResource\n/pool:Tiny /ABCDEF+Tiny findfont definefont pop\n";

const A_LOSES: &[u8] = b"systemdict/undefinefont known{/ABCDEF+Tiny undefinefont}if\n";

// meets pool_document Ok at 2 places
#[test]
fn tags_of_a_family(rt: HostRuntime) -> Result<(), Fail> {
    let alloc = rt.alloc();
    let x = cut(alloc, b"X")?;
    let whole = whole(alloc)?;
    let a = tagged(alloc, x.as_slice(), b"ABCDEF+")?;
    let g = tagged(alloc, whole.as_slice(), b"GHIJKL+")?;
    let (a, g) = (a.as_slice(), g.as_slice());
    let two = pools(
        alloc,
        Key::Family,
        &[BEGIN, a, END, BEGIN, g, END],
        b"Tiny joined\n",
        &[
            FIRST,
            ENTRY,
            whole.as_slice(),
            ENTRY_END,
            LOSES,
            BEGIN,
            A_IS_TINY,
            END,
            BEGIN,
            G_IS_TINY,
            END,
        ],
    )?;
    assert!(rt; two, "two names");
    let names = [BEGIN, a, END, BEGIN, g, END];
    let told = b"ABCDEF+Tiny same\nGHIJKL+Tiny same\n";
    assert!(rt; stays(alloc, Key::Name, &names, told)?, "by names");
    Ok(())
}

// meets pool_document Ok at 2 places
#[test]
fn one_name_of_a_family(rt: HostRuntime) -> Result<(), Fail> {
    let alloc = rt.alloc();
    let x = cut(alloc, b"X")?;
    let whole = whole(alloc)?;
    let a = tagged(alloc, x.as_slice(), b"ABCDEF+")?;
    let a = a.as_slice();
    let same = pools(
        alloc,
        Key::Family,
        &[BEGIN, a, END, BEGIN, a, END],
        b"Tiny same\n",
        &[
            FIRST,
            A_ENTRY,
            a,
            A_ENTRY_END,
            A_LOSES,
            BEGIN,
            A_IS_TINY,
            END,
            BEGIN,
            A_IS_TINY,
            END,
        ],
    )?;
    assert!(rt; same, "one name");
    let one = tagged(alloc, x.as_slice(), b"ABCDEF+pool:")?;
    let other = tagged(alloc, whole.as_slice(), b"GHIJKL+pool:")?;
    let clash = [BEGIN, one.as_slice(), END, BEGIN, other.as_slice(), END];
    let told = b"pool:Tiny joined\nleft pool:Tiny\n";
    assert!(rt;
        stays(alloc, Key::Family, &clash, told)?,
        "a name as the pool's"
    );
    Ok(())
}

const TEST: &[u8] = b"%!\nFontDirectory/Tiny known{/Tiny findfont dup/UniqueID known{dup\n\
/UniqueID get 5000793 eq exch/FontType get 1 eq and}{pop false}ifelse\n\
{save true}{false}ifelse}{false}ifelse";

const TEST_END: &[u8] = b"{restore}if\n%%EndResource\n/pool:Tiny /Tiny findfont definefont pop\n";

const TEST_LINE: &[u8] = b"/Tiny /pool:Tiny findfont definefont pop false";

const BARE_END: &[u8] = b"\n%%EndResource\n";

// meets pool_document Ok at 2 places
#[test]
fn fonts_with_a_test(rt: HostRuntime) -> Result<(), Fail> {
    let alloc = rt.alloc();
    let with_test = tiny(alloc, TEST)?;
    let otherwise = tiny(alloc, b"%!\n/x FontDirectory def")?;
    let (a, b) = (with_test.as_slice(), otherwise.as_slice());
    let tested = pools(
        alloc,
        Key::Name,
        &[BEGIN, a, END, BEGIN, a, BARE_END],
        b"Tiny same\n",
        &[
            FIRST, ENTRY, a, TEST_END, LOSES, BEGIN, TEST_LINE, END, BEGIN, TEST_LINE, BARE_END,
        ],
    )?;
    assert!(rt; tested, "the test");
    let asks = [BEGIN, b, END, BEGIN, b, END];
    assert!(rt;
        stays(alloc, Key::Name, &asks, b"Tiny same\nleft Tiny\n")?,
        "another question"
    );
    Ok(())
}

// meets pool_document Ok at 4, 5 places
#[test]
fn keys_that_are_left(rt: HostRuntime) -> Result<(), Fail> {
    let alloc = rt.alloc();
    let whole = whole(alloc)?;
    let otherwise = tiny(alloc, b"%!\n/x FontDirectory def")?;
    let a = tagged(alloc, otherwise.as_slice(), b"ABCDEF+")?;
    let g = tagged(alloc, otherwise.as_slice(), b"GHIJKL+")?;
    let (a, b, g) = (a.as_slice(), whole.as_slice(), g.as_slice());
    let text = [
        BEGIN, g, END, BEGIN, b, END, BEGIN, a, END, BEGIN, a, END, BEGIN, g, END,
    ];
    let told =
        b"GHIJKL+Tiny same\nTiny same\nABCDEF+Tiny same\nleft GHIJKL+Tiny\nleft ABCDEF+Tiny\n";
    let left = stays(alloc, Key::Name, &text, told)?;
    assert!(rt; left, "in the order of their first places");
    let text = [BEGIN, a, END, BEGIN, b, END, BEGIN, a, END, BEGIN, b, END];
    let told: &[u8] = b"ABCDEF+Tiny same\nTiny same\nleft ABCDEF+Tiny\n";
    let want = [
        FIRST, ENTRY, b, ENTRY_END, LOSES, BEGIN, a, END, BEGIN, LINE, END, BEGIN, a, END, BEGIN,
        LINE, END,
    ];
    let (lines, once) = pooled(alloc, Key::Name, joined(alloc, &text)?.as_slice())?;
    let want = joined(alloc, &want)?;
    assert!(rt; lines.as_slice() == told, "beside another key");
    assert!(rt; once.as_slice() == want.as_slice(), "the other key");
    Ok(())
}

/// How many places a document of very many has.
const MANY: usize = 1_000;

// meets pool_document Ok at 1000 places
#[test]
fn very_many_places(rt: HostRuntime) -> Result<(), Fail> {
    let alloc = rt.alloc();
    let font = tiny(alloc, b"%!")?;
    let first = [FIRST, ENTRY, font.as_slice(), ENTRY_END, LOSES];
    let mut text = Vec::new(alloc);
    let mut want = joined(alloc, &first)?;
    for _ in 0..MANY {
        text.extend_from_slice(BEGIN)?;
        text.extend_from_slice(font.as_slice())?;
        text.extend_from_slice(END)?;
        want.extend_from_slice(BEGIN)?;
        want.extend_from_slice(LINE)?;
        want.extend_from_slice(END)?;
    }
    let (_, once) = pooled(alloc, Key::Name, text.as_slice())?;
    assert!(rt; once.as_slice() == want.as_slice());
    Ok(())
}

// meets pool_document Ok at 2 places
#[test]
fn growths_of_pooling(rt: HostRuntime) -> Result<(), Fail> {
    let right = match is_pooled(rt.alloc()) {
        Err(AllocError) => is_pooled(rt.alloc())?,
        answer => answer?,
    };
    assert!(rt; right);
    Ok(())
}

/// Whether two places of one text that has a test are pooled.
fn is_pooled(alloc: Global) -> Result<bool, AllocError> {
    let with_test = tiny(alloc, TEST)?;
    let a = with_test.as_slice();
    pools(
        alloc,
        Key::Name,
        &[BEGIN, a, END, BEGIN, a, END],
        b"Tiny same\n",
        &[
            FIRST, ENTRY, a, TEST_END, LOSES, BEGIN, TEST_LINE, END, BEGIN, TEST_LINE, END,
        ],
    )
}
