// The fonts of the tests.

ghost use Rattle.std.specs.{Cmp.Lexicographic.{slice_cmp}, Ordering.{nat_cmp}, Option.{option_copied}, BTreeMap.{get, get_by}};
ghost use Rattle.std.specs.Prelude.{◌≡◌, ◌<◌, true, false, None, IsSome, cond, nat_lt, refl};
ghost use Rattle.std.proofs.lemmas.Bool.{ltb-true};

use std::alloc::{AllocError, Global};
use std::collections::BTreeMap;
use t1_run::{Direct, Fault, Glyphs, Subroutines};

// Subrs over an ordered map, of any index but the largest.
#[derive(Drop)]
pub(super) struct Font<'a> {
    subrs: BTreeMap<u16, &'a [u8]>,
}

impl<'a> Font<'a> {
    pub(super) fn new(alloc: Global, entries: &[(u16, &'a [u8])]) -> Result<Font<'a>, AllocError> {
        let mut subrs = BTreeMap::new(alloc);
        for (index, charstring) in entries {
            subrs.insert(*index, *charstring)?;
        }
        Ok(Font { subrs })
    }

    // The small font.
    pub(super) fn small(alloc: Global) -> Result<Font<'a>, AllocError> {
        Font::new(alloc, &SUBRS)
    }
}

impl<'a> Subroutines for Font<'a> {
    ghost subrs = { λ s i. cond (nat_lt i 65535) (option_copied (get nat_cmp s.subrs i)) None };

    ghost declared = { λ s. 65535 };

    fn count(&self) -> u16 {
        u16::MAX
    }

    fn get(&self, i: u16) -> Option<&[u8]> {
        if i < u16::MAX {
            self.subrs.get(&i).copied()
        } else {
            None
        }
    }

    ghost below = { λ s i. elim (nat_lt i 65535) as
        (λ b. (b ≡ true → i < 65535)
        → IsSome (cond b (option_copied (get nat_cmp s.subrs i)) None)
        → i < 65535) [ true ↦ λ is h. is refl | false ↦ λ is h. is h ] (ltb-true i 65535) };
}

// A small font's Subrs: 0 to 3 and hint replacement as fonts have them, lines, stems, one without a token, one that
// calls itself, one that ends the glyph, one that adds an operand, one that gives the metrics, one that calls by
// the operand on top, one whose last token is a call, one that calls by the operand on top and then makes a mark, and one
// whose last token is such a call; a chain of eleven, of which each calls the next and the last goes back; and a bomb of
// ten, of which each calls the next four times.
const SUBRS: [(u16, &[u8]); 38] = [
    (0, b"\x8e\x8b\x0c\x10\x0c\x11\x0c\x11\x0c\x21\x0b"),
    (1, b"\x8b\x8c\x0c\x10\x0b"),
    (2, b"\x8b\x8d\x0c\x10\x0b"),
    (3, b"\x0b"),
    (4, b"\x8c\x8e\x0c\x10\x0c\x11\x0a\x0b"),
    (5, b"\xef\x06\x0b"),
    (6, b"\x27\x06\x0b"),
    (7, b"\xef\x9f\x01\x0b"),
    (8, &[]),
    (9, b"\x94\x0a\x0b"),
    (10, b"\x0e"),
    (11, b"\x8e\x0b"),
    (12, b"\x8b\x8c\x0d\x0b"),
    (14, b"\x0a\x0b"),
    (15, b"\x8e\x0a"),
    (16, b"\x0a\x0c\x00\x0b"),
    (17, b"\x0a"),
    (20, b"\xa0\x0a\x0b"),
    (21, b"\xa1\x0a\x0b"),
    (22, b"\xa2\x0a\x0b"),
    (23, b"\xa3\x0a\x0b"),
    (24, b"\xa4\x0a\x0b"),
    (25, b"\xa5\x0a\x0b"),
    (26, b"\xa6\x0a\x0b"),
    (27, b"\xa7\x0a\x0b"),
    (28, b"\xa8\x0a\x0b"),
    (29, b"\xa9\x0a\x0b"),
    (30, b"\x0b"),
    (40, b"\xb4\x0a\xb4\x0a\xb4\x0a\xb4\x0a\x0b"),
    (41, b"\xb5\x0a\xb5\x0a\xb5\x0a\xb5\x0a\x0b"),
    (42, b"\xb6\x0a\xb6\x0a\xb6\x0a\xb6\x0a\x0b"),
    (43, b"\xb7\x0a\xb7\x0a\xb7\x0a\xb7\x0a\x0b"),
    (44, b"\xb8\x0a\xb8\x0a\xb8\x0a\xb8\x0a\x0b"),
    (45, b"\xb9\x0a\xb9\x0a\xb9\x0a\xb9\x0a\x0b"),
    (46, b"\xba\x0a\xba\x0a\xba\x0a\xba\x0a\x0b"),
    (47, b"\xbb\x0a\xbb\x0a\xbb\x0a\xbb\x0a\x0b"),
    (48, b"\xbc\x0a\xbc\x0a\xbc\x0a\xbc\x0a\x0b"),
    (49, b"\x0b"),
];

// The glyphs of the small font: a box, an accent and an accented glyph of both, two names of that one; flex, hint
// replacement, a chain of calls without end, an accented glyph of an accented one, and two plain ones.
const TINY: [(&[u8], &[u8]); 11] = [
    (b".notdef", b"\x8b\xf7\x8e\x0d\x0e"),
    (b"A", b"\x8b\xf8\x88\x0d\x8b\x16\x91\x0a\x09\x0e"),
    (
        b"Aacute",
        b"\x8b\xf8\x88\x0d\xbd\xf7\x0c\xf7\x5c\xcc\xf7\x56\x0c\x06",
    ),
    (
        b"B",
        b"\x8b\xf8\x88\x0d\xbd\xf7\x0c\xf7\x5c\xcc\xf7\x56\x0c\x06",
    ),
    (
        b"F",
        b"\
            \x8b\xf8\x88\x0d\xef\x16\x8c\x0a\xbd\x16\x8d\x0a\x63\x16\x8d\x0a\x9f\x90\x15\x8d\x0a\x9f\
            \x16\x8d\x0a\x9f\x16\x8d\x0a\x9f\x86\x15\x8d\x0a\x95\x16\x8d\x0a\xbd\xf7\x5c\x8b\x8b\x0a\
            \x09\x0e",
    ),
    (b"H", b"\x8b\xf8\x88\x0d\x8b\x9f\x01\x92\x8f\x0a\x0e"),
    (b"L", b"\x8b\xf8\x88\x0d\x94\x0a\x0e"),
    (
        b"N",
        b"\x8b\xf8\x88\x0d\xbd\xf7\x0c\xf7\x5c\xcd\xf7\x56\x0c\x06",
    ),
    (
        b"X",
        b"\xbd\xf7\xc0\x0d\x8b\x16\x90\x0a\xf9\x50\x07\x27\x06\x09\x0e",
    ),
    (b"Y", b"\x8b\xf8\x88\x0d\x8b\x16\x90\x0a\x91\x0a\x09\x0e"),
    (b"acute", b"\xbd\xf7\xc0\x0d\x8b\x16\x90\x0a\x09\x0e"),
];

// A font of Subrs and glyphs over ordered maps.
#[derive(Drop)]
pub(super) struct GlyphFont<'a> {
    subrs: Font<'a>,
    glyphs: BTreeMap<Vec<u8>, &'a [u8]>,
}

impl<'a> GlyphFont<'a> {
    // The small font with these Subrs and glyphs more, or in place of its own, and without this glyph.
    pub(super) fn new(
        alloc: Global,
        subrs: &[(u16, &'a [u8])],
        glyphs: &[(&[u8], &'a [u8])],
        without: Option<&[u8]>,
    ) -> Result<GlyphFont<'a>, AllocError> {
        let mut font = GlyphFont {
            subrs: Font::small(alloc)?,
            glyphs: BTreeMap::new(alloc),
        };
        font.add_subrs(subrs)?;
        font.add_glyphs(alloc, &TINY)?;
        font.add_glyphs(alloc, glyphs)?;
        if let Some(name) = without {
            font.glyphs.remove(name);
        }
        Ok(font)
    }

    fn add_subrs(&mut self, subrs: &[(u16, &'a [u8])]) -> Result<(), AllocError> {
        for (index, charstring) in subrs {
            self.subrs.subrs.insert(*index, *charstring)?;
        }
        Ok(())
    }

    fn add_glyphs(
        &mut self,
        alloc: Global,
        glyphs: &[(&[u8], &'a [u8])],
    ) -> Result<(), AllocError> {
        for (name, charstring) in glyphs {
            self.glyphs.insert(name.to_vec(alloc)?, *charstring)?;
        }
        Ok(())
    }
}

impl<'a> Subroutines for GlyphFont<'a> {
    ghost subrs = { λ s i.
        cond (nat_lt i 65535) (option_copied (get nat_cmp s.subrs.subrs i)) None };

    ghost declared = { λ s. 65535 };

    fn count(&self) -> u16 {
        self.subrs.count()
    }

    fn get(&self, i: u16) -> Option<&[u8]> {
        self.subrs.get(i)
    }

    ghost below = { λ s i. elim (nat_lt i 65535) as
        (λ b. (b ≡ true → i < 65535)
        → IsSome (cond b (option_copied (get nat_cmp s.subrs.subrs i)) None)
        → i < 65535) [ true ↦ λ is h. is refl | false ↦ λ is h. is h ] (ltb-true i 65535) };
}

impl<'a> Glyphs for GlyphFont<'a> {
    ghost glyphs = { λ s name.
        option_copied (get_by (λ k. slice_cmp nat_cmp name k.items) s.glyphs) };

    fn glyph(&self, name: &[u8]) -> Option<&[u8]> {
        self.glyphs.get(name).copied()
    }
}

// The fault of an answer, if it is one.
pub(super) fn fault(answer: &Direct) -> Option<Fault> {
    match answer {
        Direct::Failed(fault) => Some(*fault),
        _ => None,
    }
}
