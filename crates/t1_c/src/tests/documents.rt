//! Documents with Tiny, or with subsets of it.
use super::{begins, gave, used};
use crate::{
    Answer, level_answers, t1subset_extract, t1subset_fonts, t1subset_pool, t1subset_subset,
};
use std::alloc::Global;
use std::test::Fail;
use t1_tiny::PFA;

const BEGIN: &[u8] = b"%!PS\n%%BeginFont: Tiny\n";

const END: &[u8] = b"%%EndFont\nshowpage\n";

/// Texts, one behind the other.
fn joined(alloc: Global, parts: &[&[u8]]) -> Result<Vec<u8>, Fail> {
    let mut text = Vec::new(alloc);
    for part in parts {
        text.extend_from_slice(part)?;
    }
    Ok(text)
}

/// A document with the subset of Tiny over these names, as the library gives it.
fn document(alloc: Global, names: &[&[u8]]) -> Result<Vec<u8>, Fail> {
    let mut cut = used();
    t1subset_subset(alloc, PFA, names, 0, &mut cut);
    joined(alloc, &[BEGIN, cut.bytes, END])
}

/// A document with Tiny, but with another PaintType in its head.
fn painted(alloc: Global) -> Result<Vec<u8>, Fail> {
    let whole: &[u8] = PFA;
    joined(alloc, &[BEGIN, &whole[..91], b"2", &whole[92..], END])
}

/// What stands before pooled documents with these names of Tiny.
fn before(alloc: Global, names: &[&[u8]]) -> Result<Vec<u8>, Fail> {
    let mut cut = used();
    t1subset_subset(alloc, PFA, names, 0, &mut cut);
    joined(alloc, &[FIRST, cut.bytes, DEFINED])
}

const FIRST: &[u8] = b"%!PS-Adobe-3.0\n%%BeginResource: font Tiny\n";

const DEFINED: &[u8] = b"%%EndResource
/pool:Tiny /Tiny findfont definefont pop
systemdict/undefinefont known{/Tiny undefinefont}if
";

/// So many documents, these two in turn.
fn in_turn<'a>(
    alloc: Global,
    one: &'a [u8],
    other: &'a [u8],
    count: usize,
) -> Result<Vec<&'a [u8]>, Fail> {
    let mut documents = Vec::with_capacity(alloc, count)?;
    for at in 0..count {
        documents.push(if at % 2 == 0 { one } else { other })?;
    }
    Ok(documents)
}

/// So many answers of other calls.
fn answers(alloc: Global, count: usize) -> Result<Vec<Answer>, Fail> {
    let mut answers = Vec::with_capacity(alloc, count)?;
    for _ in 0..count {
        answers.push(used())?;
    }
    Ok(answers)
}

/// Whether each of so many answers gives this text and names nothing.
fn all_gave(answers: &[Answer], count: usize, text: &[u8]) -> bool {
    for answer in answers {
        if answer.detail != 0 || answer.input != -1 || answer.bytes != text {
            return false;
        }
    }
    answers.len() == count
}

const LINE: &[u8] = b"/Tiny /pool:Tiny findfont definefont pop\n";

#[test]
fn pooled(rt: HostRuntime) -> Result<(), Fail> {
    let one = document(rt.alloc(), &[b"X"])?;
    let other = document(rt.alloc(), &[b"Y"])?;
    let both = before(rt.alloc(), &[b"X", b"Y"])?;
    let line = joined(rt.alloc(), &[BEGIN, LINE, END])?;
    for count in [0, 1, 2, 3, 50] {
        let documents = in_turn(rt.alloc(), one.as_slice(), other.as_slice(), count)?;
        let mut want = Vec::new(rt.alloc());
        if count > 1 {
            want.extend_from_slice(both.as_slice())?;
        }
        for _ in 0..count {
            want.extend_from_slice(if count == 1 {
                one.as_slice()
            } else {
                line.as_slice()
            })?;
        }
        let mut a = used();
        let code = t1subset_pool(rt.alloc(), documents.as_slice(), 0, &mut a);
        assert!(rt; gave(code, &a, (0, 0, -1, want.as_slice())));
    }
    let mut a = used();
    let code = t1subset_pool(rt.alloc(), &[b"%!PS", b"\x04%!showpage\x04"], 0, &mut a);
    assert!(rt; gave(code, &a, (0, 0, -1, b"%!PS\n%!showpage")));
    let mut a = used();
    let code = t1subset_pool(rt.alloc(), &[b"%!PS", b"%PDF-1.7"], 0, &mut a);
    assert!(rt; gave(code, &a, (8, 0, 1, b"no document: a PDF file")));
    Ok(())
}

/// A document in which the name of Tiny has this tag.
fn tagged(alloc: Global, document: &[u8], tag: &[u8]) -> Result<Vec<u8>, Fail> {
    let mut text = Vec::new(alloc);
    for byte in document {
        text.push(*byte)?;
        if text.as_slice().ends_with(b"/FontName /") {
            text.extend_from_slice(tag)?;
        }
    }
    Ok(text)
}

#[test]
fn pooled_by_families(rt: HostRuntime) -> Result<(), Fail> {
    let alloc = rt.alloc();
    let one = tagged(alloc, document(alloc, &[b"X"])?.as_slice(), b"ABCDEF+")?;
    let other = tagged(alloc, document(alloc, &[b"Y"])?.as_slice(), b"GHIJKL+")?;
    let both = before(alloc, &[b"X", b"Y"])?;
    let first = b"/ABCDEF+Tiny /pool:Tiny findfont definefont pop\n";
    let second = b"/GHIJKL+Tiny /pool:Tiny findfont definefont pop\n";
    let want = joined(
        alloc,
        &[both.as_slice(), BEGIN, first, END, BEGIN, second, END],
    )?;
    let mut a = used();
    let code = t1subset_pool(alloc, &[one.as_slice(), other.as_slice()], 1, &mut a);
    assert!(rt; gave(code, &a, (0, 0, -1, want.as_slice())));
    let code = t1subset_pool(alloc, &[], 1, &mut a);
    assert!(rt; gave(code, &a, (0, 0, -1, b"")));
    Ok(())
}

#[test]
fn levelled(rt: HostRuntime) -> Result<(), Fail> {
    let one = document(rt.alloc(), &[b"X"])?;
    let other = document(rt.alloc(), &[b"Y"])?;
    let both = document(rt.alloc(), &[b"X", b"Y"])?;
    for count in [0, 1, 2, 3, 50] {
        let documents = in_turn(rt.alloc(), one.as_slice(), other.as_slice(), count)?;
        let mut all = answers(rt.alloc(), count)?;
        let code = level_answers(rt.alloc(), documents.as_slice(), all.as_mut_slice());
        assert_eq!(rt; code, 0);
        let want = if count == 1 {
            one.as_slice()
        } else {
            both.as_slice()
        };
        assert!(rt; all_gave(all.as_slice(), count, want));
    }
    Ok(())
}

#[test]
fn answers_that_are_no_documents(rt: HostRuntime) -> Result<(), Fail> {
    let one = document(rt.alloc(), &[b"X"])?;
    for (count, more) in [(0, 1), (1, 0), (2, 3), (3, 2), (2, 100)] {
        let documents = in_turn(rt.alloc(), one.as_slice(), b"showpage", count)?;
        let mut all = answers(rt.alloc(), more)?;
        let code = level_answers(rt.alloc(), documents.as_slice(), all.as_mut_slice());
        assert_eq!(rt; code, 2);
        assert!(rt; all_gave(all.as_slice(), more, b""));
    }
    Ok(())
}

#[test]
fn places(rt: HostRuntime) -> Result<(), Fail> {
    let one = document(rt.alloc(), &[b"X"])?;
    let whole = joined(
        rt.alloc(),
        &[
            b"%!\n%%BeginDocument: a\n",
            BEGIN,
            PFA,
            END,
            b"%%EndDocument\n",
        ],
    )?;
    let mut a = used();
    let code = t1subset_fonts(
        rt.alloc(),
        &[one.as_slice(), b"%!PS", whole.as_slice()],
        &mut a,
    );
    let want = b"0: 23 Tiny 2 0 joined\n2: 45 Tiny 11 1 joined\n2 places, 1 names, 0 kept\n";
    assert!(rt; gave(code, &a, (0, 0, -1, want)));
    let mut a = used();
    let code = t1subset_fonts(rt.alloc(), &[], &mut a);
    assert!(rt; gave(code, &a, (0, 0, -1, b"0 places, 0 names, 0 kept\n")));
    let many = in_turn(rt.alloc(), b"%!PS", one.as_slice(), 12)?;
    let mut a = used();
    let code = t1subset_fonts(rt.alloc(), many.as_slice(), &mut a);
    assert!(rt; begins(code, &a, b"1: 23 Tiny 2 0 joined\n3: 23 Tiny"));
    assert!(rt;
        a.bytes
            .ends_with(b"\n11: 23 Tiny 2 0 joined\n6 places, 1 names, 0 kept\n")
    );
    Ok(())
}

#[test]
fn fonts_that_stay(rt: HostRuntime) -> Result<(), Fail> {
    let whole = joined(rt.alloc(), &[BEGIN, PFA, END])?;
    let other = painted(rt.alloc())?;
    let documents = [whole.as_slice(), other.as_slice()];
    let mut a = used();
    let code = t1subset_fonts(rt.alloc(), &documents, &mut a);
    let want =
        b"0: 23 Tiny 11 0 kept: shells differ in head\n1: 23 Tiny 11 0 kept: shells differ in head\n2 places, 1 names, 1 kept\n";
    assert!(rt; gave(code, &a, (0, 0, -1, want)));
    let both = joined(rt.alloc(), &documents)?;
    let mut a = used();
    let code = t1subset_pool(rt.alloc(), &documents, 0, &mut a);
    assert!(rt; gave(code, &a, (0, 0, -1, both.as_slice())));
    let mut all = [used(), used()];
    let code = level_answers(rt.alloc(), &documents, &mut all);
    let [first, second] = all;
    assert!(rt; gave(code, &first, (0, 0, -1, whole.as_slice())));
    assert!(rt; gave(code, &second, (0, 0, -1, other.as_slice())));
    Ok(())
}

#[test]
fn extracted(rt: HostRuntime) -> Result<(), Fail> {
    let one = document(rt.alloc(), &[b"X"])?;
    let whole = joined(rt.alloc(), &[BEGIN, PFA, END])?;
    let mut cut = used();
    let code = t1subset_subset(rt.alloc(), PFA, &[b"X"], 0, &mut cut);
    assert!(rt; begins(code, &cut, b"%!"));
    let mut a = used();
    let code = t1subset_extract(
        rt.alloc(),
        b"Tiny",
        &[b"%!", whole.as_slice(), one.as_slice()],
        &mut a,
    );
    assert!(rt; gave(code, &a, (0, 0, -1, PFA)));
    let many = in_turn(rt.alloc(), b"%!PS", one.as_slice(), 100)?;
    let mut a = used();
    let code = t1subset_extract(rt.alloc(), b"Tiny", many.as_slice(), &mut a);
    assert!(rt; gave(code, &a, (0, 0, -1, cut.bytes)));
    let mut a = used();
    let code = t1subset_extract(rt.alloc(), b"Ti\\ny", &[whole.as_slice()], &mut a);
    assert!(rt; gave(code, &a, (6, 0, -1, b"no font Ti\\x5cny")));
    let mut a = used();
    let code = t1subset_extract(rt.alloc(), b"", &[], &mut a);
    assert!(rt; gave(code, &a, (6, 0, -1, b"no font ")));
    Ok(())
}
