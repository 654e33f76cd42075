//! Which files join.

use std::alloc::{AllocError, Global};
use std::test::Fail;
use t1_classes::{Class, Content, classes_of, join_files};
use t1_font::{Font, Form, write};
use t1_font_shared_tests::{add_line, is, joined, of_font, seen, used, with};
use t1_subset::subset;
use t1_tiny::PFA;

/// The font text of a font.
fn font_text(alloc: Global, font: &Font<'_>) -> Result<Vec<u8>, AllocError> {
    let mut text = write(alloc, font, Form::Pfa)?;
    text.pop();
    Ok(text)
}

/// The font text of a subset over one name.
fn cut_text(alloc: Global, font: &Font<'_>, name: &[u8]) -> Result<Vec<u8>, AllocError> {
    match seen(subset(alloc, font, &[name]), |cut| font_text(alloc, cut)) {
        Ok(text) => text,
        Err(_) => Err(AllocError),
    }
}

/// The font text of the subset of Tiny over one name.
fn cut(alloc: Global, name: &[u8]) -> Result<Vec<u8>, AllocError> {
    of_font(alloc, PFA, |font| cut_text(alloc, font, name))
}

/// The font text of Tiny.
fn whole() -> &'static [u8] {
    &PFA[..PFA.len() - 1]
}

/// Tiny with another first line, and so with another head.
fn other(alloc: Global) -> Result<Vec<u8>, AllocError> {
    with(
        alloc,
        PFA,
        b"%!FontType1-1.0: Tiny 001.001",
        b"%! another font",
    )
}

/// Adds what the files of a class come to.
fn add_content(
    alloc: Global,
    lines: &mut Vec<u8>,
    content: &Content<'_>,
) -> Result<(), AllocError> {
    match content {
        Content::Same(_) => lines.extend_from_slice(b"same"),
        Content::Joined(_) => lines.extend_from_slice(b"joined"),
        Content::Refused(why) => {
            let why = why.to_string(alloc)?;
            lines.extend_from_slice(why.as_bytes())
        }
    }
}

/// Adds the line of a class: its members, what its files come to, and why they are apart from those of the first class.
fn add_class(alloc: Global, lines: &mut Vec<u8>, class: &Class<'_>) -> Result<(), AllocError> {
    for member in class.members.as_slice() {
        add_line(alloc, lines, (*member).min(9999) as u32, b"", b" ")?;
    }
    add_content(alloc, lines, &class.content)?;
    if let Some(why) = &class.apart {
        let why = why.to_string(alloc)?;
        lines.extend_from_slice(b", ")?;
        lines.extend_from_slice(why.as_bytes())?;
    }
    lines.push(b'\n')?;
    Ok(())
}

/// The line of each class.
fn lines(alloc: Global, classes: &[Class<'_>]) -> Result<Vec<u8>, AllocError> {
    let mut lines = Vec::new(alloc);
    for class in classes {
        add_class(alloc, &mut lines, class)?;
    }
    Ok(lines)
}

/// The texts of the classes, with a line end behind each.
fn texts(alloc: Global, classes: &[Class<'_>]) -> Result<Vec<u8>, AllocError> {
    let mut texts = Vec::new(alloc);
    for class in classes {
        if let Some(text) = class.text() {
            texts.extend_from_slice(text)?;
            texts.push(b'\n')?;
        }
    }
    Ok(texts)
}

/// Whether files have classes with these lines.
fn told(alloc: Global, files: &[&[u8]], want: &[u8]) -> bool {
    let made = used(
        classes_of(alloc, b"Tiny", files),
        |classes| lines(alloc, classes.as_slice()),
    );
    is(made, want)
}

/// Whether files have classes with these texts.
fn come_to(alloc: Global, files: &[&[u8]], want: &[u8]) -> bool {
    let made = used(
        classes_of(alloc, b"Tiny", files),
        |classes| texts(alloc, classes.as_slice()),
    );
    is(made, want)
}

/// What of a part of a font, of the whole, of another font and of a text that is none comes out wrong, if anything.
fn what_is_wrong<'a>(
    alloc: Global,
    part: &'a [u8],
    whole: &'a [u8],
    other: &'a [u8],
) -> &'static str {
    const NONE: &[u8] = b"no font";
    if !told(alloc, &[], b"") {
        "no file"
    } else if !told(alloc, &[part], b"0 same\n") {
        "one file"
    } else if !told(alloc, &[part, part], b"0 1 same\n") {
        "equal files"
    } else if !told(alloc, &[part, whole], b"0 1 joined\n") {
        "two that join"
    } else if !told(
        alloc,
        &[part, other],
        b"1 same\n0 same, shells differ in head\n",
    ) {
        "two that don't"
    } else if !told(alloc, &[NONE], b"0 no eexec\n") {
        "no font"
    } else if !told(
        alloc,
        &[part, other, whole, part, NONE],
        b"1 same\n0 2 3 joined, shells differ in head\n4 no eexec, no eexec\n",
    ) {
        "all of them"
    } else if !told(
        alloc,
        &[NONE, part, whole, other, part],
        b"3 same\n1 2 4 joined, shells differ in head\n0 no eexec, no eexec\n",
    ) {
        "all in another order"
    } else {
        ""
    }
}

// meets classes_of Ok at 0, 1, 2, 5 files
#[test]
fn classes_of_files(rt: HostRuntime) -> Result<(), Fail> {
    let alloc = rt.alloc();
    let part = cut(alloc, b"X")?;
    let other = with(
        alloc,
        PFA,
        b"%!FontType1-1.0: Tiny 001.001",
        b"%! another font",
    )?;
    let whole = &PFA[..PFA.len() - 1];
    let wrong = what_is_wrong(alloc, part.as_slice(), whole, other.as_slice());
    assert!(rt; wrong.is_empty(), "{wrong}");
    Ok(())
}

// meets classes_of Ok at 4 files
#[test]
fn texts_of_classes(rt: HostRuntime) -> Result<(), Fail> {
    let alloc = rt.alloc();
    let (x, y) = (cut(alloc, b"X")?, cut(alloc, b"Y")?);
    let other = other(alloc)?;
    let want = joined(alloc, &[other.as_slice(), b"\n", PFA])?;
    let files = [x.as_slice(), other.as_slice(), whole(), y.as_slice()];
    let right = come_to(alloc, &files, want.as_slice());
    assert!(rt; right);
    Ok(())
}

/// What files join to, or the line of their refusal.
fn joined_text(alloc: Global, files: &[&[u8]]) -> Result<Vec<u8>, AllocError> {
    match join_files(alloc, b"Tiny", files)? {
        Ok(text) => Ok(text),
        Err(why) => {
            let why = why.to_string(alloc)?;
            Vec::from_slice(alloc, why.as_bytes())
        }
    }
}

/// Whether files join to a text, or are refused by this line.
fn joins_to(alloc: Global, files: &[&[u8]], want: &[u8]) -> bool {
    is(joined_text(alloc, files), want)
}

/// What of the joins of a part of a font, of the whole and of another font comes out wrong, if anything.
fn what_join_is_wrong<'a>(
    alloc: Global,
    part: &'a [u8],
    whole: &'a [u8],
    other: &'a [u8],
) -> &'static str {
    const NONE: &[u8] = b"no font";
    if !joins_to(alloc, &[part, whole], whole) {
        "two that join"
    } else if !joins_to(alloc, &[part, other], b"shells differ in head") {
        "two that don't"
    } else if !joins_to(alloc, &[part, NONE, whole], b"no eexec") {
        "no font"
    } else if !joins_to(alloc, &[], b"nothing to merge") {
        "no file"
    } else {
        ""
    }
}

// meets join_files Ok at 0, 2, 3 files
#[test]
fn joins_of_files(rt: HostRuntime) -> Result<(), Fail> {
    let alloc = rt.alloc();
    let (part, other) = (cut(alloc, b"X")?, other(alloc)?);
    let wrong = what_join_is_wrong(alloc, part.as_slice(), whole(), other.as_slice());
    assert!(rt; wrong.is_empty(), "{wrong}");
    Ok(())
}

/// So many files, which are two in turn.
fn in_turn<'a>(
    alloc: Global,
    count: usize,
    one: &'a [u8],
    other: &'a [u8],
) -> Result<Vec<&'a [u8]>, AllocError> {
    let mut files = Vec::with_capacity(alloc, count)?;
    'files: for place in 0..count {
        files.push(if place % 2 == 0 { one } else { other })?;
    }
    Ok(files)
}

/// Whether so many files are in one class.
fn are_one(alloc: Global, files: &[&[u8]]) -> Result<bool, AllocError> {
    seen(
        classes_of(alloc, b"Tiny", files),
        |classes| classes.len() == 1 && classes[0].members.len() == files.len(),
    )
}

// meets classes_of Ok at 300 files
// meets join_files Ok at 300 files
#[test]
fn many(rt: HostRuntime) -> Result<(), Fail> {
    let alloc = rt.alloc();
    let part = cut(alloc, b"X")?;
    let files = in_turn(alloc, 300, part.as_slice(), whole())?;
    let one = are_one(alloc, files.as_slice())?;
    assert!(rt; one, "one class");
    assert!(rt; joins_to(alloc, files.as_slice(), whole()), "one text");
    Ok(())
}

/// Whether two files join, and are in one class, and a third is in another.
fn answer_right<'a>(
    alloc: Global,
    part: &'a [u8],
    whole: &'a [u8],
    other: &'a [u8],
) -> Result<bool, AllocError> {
    const LINES: &[u8] = b"1 same\n0 2 joined, shells differ in head\n";
    let text = joined_text(alloc, &[part, whole])?;
    let told = used(
        classes_of(alloc, b"Tiny", &[part, other, whole]),
        |classes| lines(alloc, classes.as_slice()),
    )?;
    Ok(text.as_slice() == whole && told.as_slice() == LINES)
}

/// The same of a part of Tiny, of the whole and of Tiny with another head.
fn all_answer_right(alloc: Global) -> Result<bool, AllocError> {
    let (part, other) = (cut(alloc, b"X")?, other(alloc)?);
    answer_right(alloc, part.as_slice(), whole(), other.as_slice())
}

// meets classes_of Ok at 3 files
// meets join_files Ok at 2 files
// `tools/sweep_growths.py` refuses one growth after the other: calls that then answer want of memory give the right answers when they
// are made again.
#[test]
fn growths(rt: HostRuntime) {
    let right = match all_answer_right(rt.alloc()) {
        Err(AllocError) => all_answer_right(rt.alloc()),
        answer => answer,
    };
    assert!(rt; right == Ok(true));
}
