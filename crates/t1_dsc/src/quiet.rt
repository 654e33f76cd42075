//! Lines of other documents, of which none begins or ends a part of the joined one.

ghost use Rattle.std.specs.Prelude.{◌≡◌, ◌++◌, map, OnOk};
ghost use Rattle.t1_dsc.specs.{Joining.{quiet_line, quiet, times, closing}, Views.{line_view}};

use crate::lines::{Line, Role};
use std::alloc::AllocError;
use t1_document::Open;

/// Adds a line: what was structure becomes a comment.
fn push_line(out: &mut Vec<u8>, line: &Line<'_>) -> Result<(), AllocError>
    ensures { OnOk result (out.new.items ≡ out.old.items ++ quiet_line (line_view line.now)) }
{
    if !Role::Text.is(line.role) {
        out.extend_from_slice(b"% ")?;
    }
    out.extend_from_slice(line.text)
}

/// Adds lines.
pub(crate) fn push_quiet(out: &mut Vec<u8>, lines: &[Line<'_>]) -> Result<(), AllocError>
    ensures { OnOk result (out.new.items ≡ out.old.items ++ quiet (map line_view lines.now)) }
{
    'lines: for line in lines {
        push_line(out, line)?;
    }
    Ok(())
}

/// Adds a word so many times.
fn push_times(out: &mut Vec<u8>, count: usize, word: &[u8]) -> Result<(), AllocError>
    ensures { OnOk result (out.new.items ≡ out.old.items ++ times count word.now) }
{
    'words: for _ in 0..count {
        out.extend_from_slice(word)?;
    }
    Ok(())
}

/// Adds the ends of what is open.
pub(crate) fn push_closing(out: &mut Vec<u8>, state: Open) -> Result<(), AllocError>
    ensures { OnOk result (out.new.items ≡ out.old.items ++ closing state) }
{
    push_times(out, state.documents, b"%%EndDocument\n")?;
    push_times(out, state.raw, b"%%EndData\n")
}
