//! A caller's work with ample memory, and what it refuses.

mod callers;
mod cuts;

use std::alloc::{AllocError, Global};
use std::test::Fail;
use t1_bytes::{EEXEC_KEY, EEXEC_LEAD, seal, segments};
use t1_example::{Order, Refusal, cut_and_joined};
use t1_font::{Font, Form, ReadFault, read};
use t1_subset::SubsetFault;

/// The clear text of a font.
const CLEAR: &[u8] = b"%!
/Encoding StandardEncoding def
currentfile eexec ";

/// Its private text: A and B call a Subr each, and C calls none.
const PRIVATE: &[u8] = b"/lenIV 0 def
/Subrs 6 array
dup 4 3 RD \xff\x70\xad NP
dup 5 3 RD \x37\x37\x05 NP
ND
2 index /CharStrings 4 dict dup begin
/.notdef 5 RD \x9b\x23\xb0\xbb\x08 ND
/A 10 RD \x9b\x2c\x08\xa1\x56\x99\x3c\x3b\xdc\xb5 ND
/B 10 RD \x9b\x2c\x08\xa1\x56\x99\x23\x02\xc2\x7b ND
/C 10 RD \x9b\x2c\x08\xa1\x56\x99\x5c\xf9\x5e\x5c ND
end
end
mark currentfile closefile";

/// The file of these texts.
fn file_of(alloc: Global, clear: &[u8], private: &[u8]) -> Result<Vec<u8>, AllocError> {
    let mut file = Vec::from_slice(alloc, clear)?;
    let Ok(cipher) = seal(alloc, private, EEXEC_KEY, EEXEC_LEAD) else {
        return Err(AllocError);
    };
    file.extend_from_slice(cipher.as_slice())?;
    Ok(file)
}

/// The font's file.
fn file(alloc: Global) -> Result<Vec<u8>, AllocError> {
    file_of(alloc, CLEAR, PRIVATE)
}

/// The names of a font's glyphs, each with a blank.
fn names(alloc: Global, font: &Font<'_>) -> Result<Vec<u8>, AllocError> {
    let mut text = Vec::new(alloc);
    for name in font.names() {
        text.extend_from_slice(name)?;
        text.push(b' ')?;
    }
    Ok(text)
}

/// The same of a file's font.
fn names_in(alloc: Global, file: &[u8]) -> Result<Vec<u8>, AllocError> {
    let Ok(source) = read(alloc, file) else {
        return Err(AllocError);
    };
    let font = source.font(alloc)?;
    names(alloc, &font)
}

/// The file of the subsets of A and of B, joined.
fn joined(alloc: Global, order: Order, form: Form) -> Result<Vec<u8>, AllocError> {
    let file = file(alloc)?;
    match cut_and_joined(alloc, file.as_slice(), &[b"A"], &[b"B"], order, form) {
        Ok(joined) => Ok(joined),
        Err(_) => Err(AllocError),
    }
}

#[test]
fn either_order(rt: HostRuntime) -> Result<(), Fail> {
    for form in [Form::Pfa, Form::Pfb] {
        let one = joined(rt.alloc(), Order::FirstIntoSecond, form)?;
        let other = joined(rt.alloc(), Order::SecondIntoFirst, form)?;
        assert!(rt; one.as_slice() == other.as_slice());
        let names = names_in(rt.alloc(), one.as_slice())?;
        assert!(rt; names.as_slice() == b".notdef A B ".as_slice());
    }
    Ok(())
}

/// Why there is no file of the subsets of A and of this name.
fn refusal(alloc: Global, file: &[u8], name: &[u8]) -> Option<Refusal> {
    let order = Order::FirstIntoSecond;
    match cut_and_joined(alloc, file, &[b"A"], &[name], order, Form::Pfa) {
        Ok(_) => None,
        Err(refusal) => Some(refusal),
    }
}

#[test]
fn refusals(rt: HostRuntime) -> Result<(), Fail> {
    let file = file(rt.alloc())?;
    let name = Vec::from_slice(rt.alloc(), b"Q")?;
    let absent = Some(Refusal::Subset(SubsetFault::NoSuchGlyph { name }));
    assert!(rt; refusal(rt.alloc(), file.as_slice(), b"Q") == absent);
    let no_font = Some(Refusal::Read(ReadFault::NoEexec));
    assert!(rt; refusal(rt.alloc(), b"%!", b"A") == no_font);
    Ok(())
}

/// The font as a PFB whose head begins with byte 128.
fn with_byte_128(alloc: Global) -> Result<Vec<u8>, AllocError> {
    let Ok(cipher) = seal(alloc, PRIVATE, EEXEC_KEY, EEXEC_LEAD) else {
        return Err(AllocError);
    };
    if cipher.len() > 1000 {
        return Err(AllocError);
    }
    let clear = b"\x80\n/Encoding StandardEncoding def\ncurrentfile eexec ";
    let file = segments(alloc, clear, cipher.as_slice(), b"");
    drop(cipher);
    file.map_err(|_| AllocError)
}

/// Why there is no file of the subsets of A and of B in this form.
fn refusal_in(alloc: Global, file: &[u8], form: Form) -> Option<Refusal> {
    match cut_and_joined(alloc, file, &[b"A"], &[b"B"], Order::FirstIntoSecond, form) {
        Ok(_) => None,
        Err(refusal) => Some(refusal),
    }
}

#[test]
fn a_head_that_begins_as_segments_do(rt: HostRuntime) -> Result<(), Fail> {
    let file = with_byte_128(rt.alloc())?;
    let taken_for_segments = Some(Refusal::Read(ReadFault::BadSegment { at: 0 }));
    assert!(rt; refusal_in(rt.alloc(), file.as_slice(), Form::Pfa) == taken_for_segments);
    assert!(rt; refusal_in(rt.alloc(), file.as_slice(), Form::Pfb).is_none());
    Ok(())
}

/// The names in the file of both subsets.
fn joined_names(alloc: Global) -> Result<Vec<u8>, AllocError> {
    let file = joined(alloc, Order::FirstIntoSecond, Form::Pfb)?;
    names_in(alloc, file.as_slice())
}

// `tools/sweep_growths.py` refuses one growth after the other: a call that then answers want of memory gives the right
// answer when it is made again.
#[test]
fn growths(rt: HostRuntime) -> Result<(), Fail> {
    let names = match joined_names(rt.alloc()) {
        Err(AllocError) => joined_names(rt.alloc())?,
        answer => answer?,
    };
    assert!(rt; names.as_slice() == b".notdef A B ".as_slice());
    Ok(())
}
