//! Two cuts of the font as other programs make them: with tags, without the Subrs after the last one that is used, and one of them
//! spelled with a comment.

use super::{file_of, names_in};
use std::alloc::{AllocError, Global};
use std::test::Fail;
use t1_cmd::Reason;
use t1_example::cuts_joined;
use t1_font::Form;

/// The clear text of the cut to A.
const CLEAR_A: &[u8] = b"%!
/FontName /ABCDEF+Font def
/Encoding StandardEncoding def
currentfile eexec ";

/// Its private text.
const PRIVATE_A: &[u8] = b"/lenIV 0 def
/Subrs 5 array
dup 4 3 RD \xff\x70\xad NP
ND
2 index /CharStrings 2 dict dup begin
/.notdef 5 RD \x9b\x23\xb0\xbb\x08 ND
/A 10 RD \x9b\x2c\x08\xa1\x56\x99\x3c\x3b\xdc\xb5 ND
end
end
mark currentfile closefile";

/// The clear text of the cut to B.
const CLEAR_B: &[u8] = b"%!
/FontName /UVWXYZ+Font def
/Encoding StandardEncoding % a comment
readonly def
currentfile eexec ";

/// Its private text, with a stub for the Subr of A.
const PRIVATE_B: &[u8] = b"/lenIV 0 def
/Subrs 6 array
dup 4 1 RD \x1b NP
dup 5 3 RD \x37\x37\x05 NP
ND
2 index /CharStrings 2 dict dup begin
/.notdef 5 RD \x9b\x23\xb0\xbb\x08 ND
/B 10 RD \x9b\x2c\x08\xa1\x56\x99\x23\x02\xc2\x7b ND
end
end
mark currentfile closefile";

/// The file that two files come to.
fn made(alloc: Global, first: &[u8], second: &[u8], form: Form) -> Result<Vec<u8>, AllocError> {
    match cuts_joined(alloc, first, second, form) {
        Ok(file) => Ok(file),
        Err(refusal) => {
            drop(refusal);
            Err(AllocError)
        }
    }
}

/// The files of both cuts, joined, if that is the same file in both orders.
fn joined(alloc: Global, form: Form) -> Result<Option<Vec<u8>>, AllocError> {
    let a = file_of(alloc, CLEAR_A, PRIVATE_A)?;
    let b = file_of(alloc, CLEAR_B, PRIVATE_B)?;
    let one = made(alloc, a.as_slice(), b.as_slice(), form)?;
    let other = made(alloc, b.as_slice(), a.as_slice(), form)?;
    if one.as_slice() == other.as_slice() {
        Ok(Some(one))
    } else {
        Ok(None)
    }
}

/// The names in that file, or none.
fn joined_names(alloc: Global, form: Form) -> Result<Vec<u8>, AllocError> {
    match joined(alloc, form)? {
        Some(file) => names_in(alloc, file.as_slice()),
        None => Ok(Vec::new(alloc)),
    }
}

#[test]
fn cuts_of_one_font(rt: HostRuntime) -> Result<(), Fail> {
    for form in [Form::Pfa, Form::Pfb] {
        let names = joined_names(rt.alloc(), form)?;
        assert!(rt; names.as_slice() == b".notdef A B ".as_slice());
    }
    Ok(())
}

#[test]
fn no_font(rt: HostRuntime) -> Result<(), Fail> {
    let a = file_of(rt.alloc(), CLEAR_A, PRIVATE_A)?;
    match cuts_joined(rt.alloc(), a.as_slice(), b"%!", Form::Pfa) {
        Ok(_) => assert!(rt; false, "the second file spells no font"),
        Err(refusal) => {
            assert!(rt; refusal.place == Some(1) && matches!(refusal.reason, Reason::Font(_)));
        }
    }
    Ok(())
}

// `tools/sweep_growths.py` refuses one growth after the other: a call that then answers want of memory gives the right
// answer when it is made again.
#[test]
fn growths_of_cuts(rt: HostRuntime) -> Result<(), Fail> {
    let names = match joined_names(rt.alloc(), Form::Pfb) {
        Err(AllocError) => joined_names(rt.alloc(), Form::Pfb)?,
        answer => answer?,
    };
    assert!(rt; names.as_slice() == b".notdef A B ".as_slice());
    Ok(())
}
