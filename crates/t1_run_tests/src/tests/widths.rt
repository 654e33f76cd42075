// Commands without a width: too few operands are found first.

use crate::tests::fonts::{Font, fault};
use std::alloc::Global;
use std::test::Fail;
use t1_run::{Fault, direct};

// Each command that wants operands and a width: how many operands, and its bytes.
const WANTING: &[(&str, usize, &[u8])] = &[
    ("hstem", 2, b"\x01"),
    ("vstem", 2, b"\x03"),
    ("hstem3", 6, b"\x0c\x02"),
    ("vstem3", 6, b"\x0c\x01"),
    ("rmoveto", 2, b"\x15"),
    ("hmoveto", 1, b"\x16"),
    ("vmoveto", 1, b"\x04"),
    ("rlineto", 2, b"\x05"),
    ("hlineto", 1, b"\x06"),
    ("vlineto", 1, b"\x07"),
    ("rrcurveto", 6, b"\x08"),
    ("vhcurveto", 4, b"\x1e"),
    ("hvcurveto", 4, b"\x1f"),
    ("setcurrentpoint", 2, b"\x0c\x21"),
    ("callothersubr", 2, b"\x0c\x10"),
    ("seac", 5, b"\x0c\x06"),
];

// The fault of a command after so many zeros.
fn fault_after(
    alloc: Global,
    font: &Font<'_>,
    zeros: usize,
    command: &[u8],
) -> Result<Option<Fault>, Fail> {
    let mut bytes = Vec::new(alloc);
    for _ in 0..zeros {
        bytes.push(0x8B)?;
    }
    bytes.extend_from_slice(command)?;
    let answer = direct(alloc, font, &bytes)?;
    Ok(fault(&answer))
}

// Whether a command without a width answers Underflow if it has fewer operands than so many, and else NoWidth.
fn wants(alloc: Global, count: usize, command: &[u8]) -> Result<bool, Fail> {
    let font = Font::small(alloc)?;
    for zeros in 0..count {
        if fault_after(alloc, &font, zeros, command)? != Some(Fault::Underflow) {
            return Ok(false);
        }
    }
    Ok(fault_after(alloc, &font, count, command)? == Some(Fault::NoWidth))
}

#[test]
fn operands_before_width(rt: HostRuntime) -> Result<(), Fail> {
    for &(name, count, command) in WANTING {
        assert!(rt; wants(rt.alloc(), count, command)?, "{name}");
    }
    Ok(())
}
