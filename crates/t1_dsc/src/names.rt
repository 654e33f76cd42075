//! Names of the joined document's own, and the procedures that have them.

ghost use Rattle.std.specs.Prelude.{◌≡◌, ◌++◌, map, IfOk, OnOk};
ghost use Rattle.t1_dsc.specs.Joining.{names_start, name_of, procedure_begin, procedure_end};

use std::alloc::{AllocError, Global};
use t1_document::{free_start, longest_start};

/// What the names begin with: it stands neither in the fonts nor in a document.
pub(crate) fn names_start(
    alloc: Global,
    fonts: &[u8],
    documents: &[&[u8]],
) -> Result<Vec<u8>, AllocError>
    ensures { IfOk result (λ v. v.items ≡ names_start fonts.now (map (λ d. d.now) documents.now)) }
{
    let start = free_start(alloc, fonts)?;
    longest_start(alloc, start, documents)
}

/// Adds a name as it is executed, without the slash that its start has.
pub(crate) fn push_name(out: &mut Vec<u8>, start: &[u8], word: &[u8]) -> Result<(), AllocError>
    ensures { OnOk result (out.new.items ≡ out.old.items ++ name_of start.now word.now) }
{
    if let Some((_, name)) = start.split_first() {
        out.extend_from_slice(name)?;
    }
    out.extend_from_slice(word)
}

/// Adds the procedure that begins a page, and what it keeps its values in.
fn push_begin(out: &mut Vec<u8>, start: &[u8]) -> Result<(), AllocError>
    ensures { OnOk result (out.new.items ≡ out.old.items ++ procedure_begin start.now) }
{
    out.extend_from_slice(start)?;
    out.extend_from_slice(b"kept 3 dict def\n")?;
    out.extend_from_slice(start)?;
    out.extend_from_slice(b"begin{")?;
    push_name(out, start, b"kept begin/saved save def")?;
    out.extend_from_slice(
        b"/operands count 1 sub def/dicts countdictstack 1 sub def end}bind def\n",
    )
}

/// Adds the procedure that ends a page.
fn push_end(out: &mut Vec<u8>, start: &[u8]) -> Result<(), AllocError>
    ensures { OnOk result (out.new.items ≡ out.old.items ++ procedure_end start.now) }
{
    out.extend_from_slice(start)?;
    out.extend_from_slice(b"end{count ")?;
    push_name(
        out,
        start,
        b"kept/operands get sub dup 0 gt{{pop}repeat}{pop}ifelse countdictstack ",
    )?;
    push_name(
        out,
        start,
        b"kept/dicts get sub dup 0 gt{{end}repeat}{pop}ifelse ",
    )?;
    push_name(out, start, b"kept/saved get restore}bind def\n")
}

/// Adds both procedures.
pub(crate) fn push_procedures(out: &mut Vec<u8>, start: &[u8]) -> Result<(), AllocError>
    ensures { OnOk result (out.new.items ≡ out.old.items ++ (procedure_begin start.now ++ procedure_end start.now)) }
{
    push_begin(out, start)?;
    push_end(out, start)
}
