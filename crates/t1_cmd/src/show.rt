//! The engine that shows what a glyph draws.
ghost use Rattle.std.specs.{Prelude.{◌≡◌, ℕ, ◌+◌, ◌≤◌, List, ◌++◌, ◌∷◌, [], Ok, map, OnOk, IfOk, IfErr}, List.{All, flat_map}};
ghost use Rattle.t1_font.specs.FontModel.{subr_at};
ghost use Rattle.t1_run.specs.Pictures.{placed, traced, IsPlainIn};
ghost use Rattle.t1_cmd.specs.{Count.{calls_counted}, Inputs.{input_of}, Runs.{RunEnds, Succeeds}, Answers.{Prints, MayRefuse}, Fonts.{font_input, of_file}};
ghost use Rattle.t1_cmd.specs.DrawingText.{amount, unit_number, numbers, line, mark_line, with_mark_line, part_lines, drawn_lines, draw_fault_line, show_answer};
ghost use Rattle.t1_bytes.specs.Limits.{file_limit};

use crate::counting::Counted;
use crate::faults::{Name, Reason, RunFault};
use crate::font_commands::{FontCommand, Taking, run_command, text_of_bytes};
use crate::texts::push_number;
use std::alloc::{AllocError, Global};
use std::io::{Read, Write};
use t1_font::{DrawFault, Drawing, DrawnPart, Font, Mark, Pen, Point, lay_out, trace};

// How many counts of 1/65536 make a unit.
const UNIT: u64 = 65536;

fn push_amount(out: &mut Vec<u8>, count: u64) -> Result<(), AllocError>
    ensures { OnOk result (out.new.items ≡ out.old.items ++ amount count) }
{
    if count % UNIT == 0 {
        return push_number(out, (count / UNIT) as usize);
    }
    push_number(out, count as usize)?;
    out.extend_from_slice(b"/65536")
}

fn push_count(out: &mut Vec<u8>, count: i64) -> Result<(), AllocError>
    ensures { OnOk result (out.new.items ≡ out.old.items ++ unit_number count) }
{
    if count < 0 {
        out.push(b'-')?;
    }
    push_amount(out, count.unsigned_abs())
}

fn push_counts(out: &mut Vec<u8>, counts: &[i64]) -> Result<(), AllocError>
    ensures { OnOk result (out.new.items ≡ out.old.items ++ numbers counts.now) }
{
    for count in counts {
        out.push(b' ')?;
        push_count(out, *count)?;
    }
    Ok(())
}

/// A word and its numbers.
pub(crate) fn push_line(out: &mut Vec<u8>, word: &[u8], counts: &[i64]) -> Result<(), AllocError>
    ensures { OnOk result (out.new.items ≡ out.old.items ++ line word.now counts.now) }
{
    out.extend_from_slice(word)?;
    push_counts(out, counts)?;
    out.push(b'\n')?;
    Ok(())
}

// A word and two numbers.
fn push_pair(out: &mut Vec<u8>, word: &[u8], first: i64, second: i64) -> Result<(), AllocError>
    ensures { OnOk result (out.new.items ≡ out.old.items ++ line word.now (first ∷ second ∷ [])) }
{
    push_line(out, word, &[first, second])
}

fn push_mark(out: &mut Vec<u8>, mark: Mark) -> Result<(), AllocError>
    ensures { OnOk result (out.new.items ≡ out.old.items ++ mark_line mark) }
{
    match mark {
        Mark::Move(p) => push_pair(out, b"move", p.x, p.y),
        Mark::Line(p) => push_pair(out, b"line", p.x, p.y),
        Mark::Curve(c) => {
            let points = [
                c.first.x, c.first.y, c.second.x, c.second.y, c.end.x, c.end.y,
            ];
            push_line(out, b"curve", &points)
        }
        Mark::Close => push_line(out, b"close", &[]),
        Mark::Hstem(y, dy) => push_pair(out, b"hstem", y, dy),
        Mark::Vstem(x, dx) => push_pair(out, b"vstem", x, dx),
        Mark::Hstem3(a, b, c, d, e, f) => { push_line(out, b"hstem3", &[a, b, c, d, e, f]) }
        Mark::Vstem3(a, b, c, d, e, f) => { push_line(out, b"vstem3", &[a, b, c, d, e, f]) }
        Mark::Dot => push_line(out, b"dot", &[]),
        Mark::Replace => push_line(out, b"replace", &[]),
        Mark::Flex(height) => push_line(out, b"flex", &[height]),
    }
}

// The lines of a drawing so far. Marks become lines as they are made, so none is kept.
#[derive(Drop)]
struct Lines {
    alloc: Global,
    text: Vec<u8>,
}

impl Pen for Lines {
    ghost Page = { List ℕ };

    ghost page = { λ lines. lines.text.items };

    ghost marked = { with_mark_line };

    fn mark(&mut self, mark: Mark) -> Result<(), AllocError> {
        push_mark(&mut self.text, mark)
    }
}

fn push_part(font: &Font<'_>, lines: &mut Lines, part: &DrawnPart<&[u8]>) -> Result<(), AllocError>
    requires { IsPlainIn (subr_at font.now) part.now.marks }
    ensures { OnOk result (lines.new.text.items
        ≡ lines.old.text.items ++ part_lines (placed (traced (subr_at font.now)) part.now)) }
{
    push_pair(&mut lines.text, b"part", part.dx, part.dy)?;
    trace(lines.alloc, font, part.marks, lines)?;
    Ok(())
}

fn push_parts(
    font: &Font<'_>,
    lines: &mut Lines,
    parts: &[DrawnPart<&[u8]>],
) -> Result<(), AllocError>
    requires { All (λ p. IsPlainIn (subr_at font.now) p.marks) parts.now }
    ensures { OnOk result (lines.new.text.items
        ≡ lines.old.text.items
        ++ flat_map (λ p. part_lines (placed (traced (subr_at font.now)) p)) parts.now) }
{
    for part in parts {
        push_part(font, lines, part)?;
    }
    Ok(())
}

fn drawn(
    alloc: Global,
    font: &Font<'_>,
    width: Point,
    bearing: Point,
    parts: &[DrawnPart<&[u8]>],
) -> Result<Vec<u8>, AllocError>
    requires { All (λ p. IsPlainIn (subr_at font.now) p.marks) parts.now }
    ensures { IfOk result (λ text. text.items
        ≡ drawn_lines width bearing (map (placed (traced (subr_at font.now))) parts.now)) }
{
    let mut text = Vec::new(alloc);
    push_pair(&mut text, b"width", width.x, width.y)?;
    push_pair(&mut text, b"bearing", bearing.x, bearing.y)?;
    let mut lines = Lines { alloc, text };
    push_parts(font, &mut lines, parts)?;
    Ok(lines.text)
}

/// The line of a fault.
pub(crate) fn fault_text(alloc: Global, fault: DrawFault) -> Result<Vec<u8>, AllocError>
    ensures { IfOk result (λ text. text.items ≡ draw_fault_line fault) }
{
    let mut text = Vec::new(alloc);
    text.extend_from_slice(b"fault ")?;
    text.extend_from_slice(fault.name().as_bytes())?;
    text.push(b'\n')?;
    Ok(text)
}

// The text of what the glyph of a name draws.
fn shown_glyph(alloc: Global, font: &Font<'_>, name: &[u8]) -> Result<Vec<u8>, Reason>
    ensures text { IfOk result (λ text. show_answer name.now font.now ≡ Ok text.items) }
    ensures refused { IfErr result (MayRefuse (λ a. a ≡ show_answer name.now font.now)) }
{
    match lay_out(alloc, font, name)? {
        Drawing::Drawn { width, sb, parts } => {
            let text = drawn(alloc, font, width, sb, parts.as_slice())?;
            Ok(text)
        }
        Drawing::Failed(DrawFault::NoGlyph) => {
            let name = Name::new(alloc, name)?;
            Err(Reason::NoGlyph { name })
        }
        Drawing::Failed(fault) => {
            let text = fault_text(alloc, fault)?;
            Ok(text)
        }
    }
}

/// The command `show` about the glyph of a name.
#[derive(Drop)]
pub(crate) struct Show<'a> {
    name: &'a [u8],
}

impl FontCommand for Show<'_> {
    ghost answer = { λ command. show_answer command.name.now };

    fn text(&self, alloc: Global, font: Font<'_>) -> Result<Vec<u8>, Reason> {
        let text = shown_glyph(alloc, &font, self.name);
        drop(font);
        text
    }
}

/// The lines of what a glyph of the font of a file draws, as [`run_show`] writes them. The name is without its `/`.
///
/// # Errors
///
/// [`Reason::TooLong`] or [`Reason::Font`] if the file spells no font, for its first fault; else [`Reason::NoGlyph`] if the
/// font lacks the name. [`Reason::Memory`] if a growth was refused.
pub fn show_file(alloc: Global, file: &[u8], name: &[u8]) -> Result<Vec<u8>, Reason>
    ensures text { IfOk result (λ text. of_file (show_answer name.now) file.now ≡ Ok text.items) }
    ensures refused { IfErr result (MayRefuse (λ a. a ≡ of_file (show_answer name.now) file.now)) }
{
    text_of_bytes(alloc, Taking::Spelled, &Show { name }, file)
}

/// Writes what the glyph of a name, without its `/`, draws: its width, its side bearing, its parts and their marks, or
/// the one line of its fault. A name that the font lacks is refused as [`Reason::NoGlyph`].
///
/// A whole number of units is written in decimal, any other number as its count followed by `/65536`.
pub fn run_show<R: Read, W: Write>(
    alloc: Global,
    reader: &mut Counted<R>,
    name: &[u8],
    writer: &mut Counted<W>,
) -> Result<(), RunFault>
    ensures ends { RunEnds font_input (Prints (show_answer name.now)) W.contents
        (input_of R.remaining reader.old reader.new ∷ []) writer.old writer.new result }
    ensures succeeds { Succeeds font_input (Prints (show_answer name.now))
        (input_of R.remaining reader.old reader.new ∷ []) writer.old writer.new result }
    ensures turns { calls_counted reader.new ≤ calls_counted reader.old + (file_limit + 1) }
{
    run_command(alloc, Taking::Spelled, &Show { name }, reader, writer)
}
