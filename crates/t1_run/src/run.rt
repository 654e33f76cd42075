//! Runs of charstrings.

ghost use Rattle.std.specs.Prelude.{◌≡◌, ◌≤◌, ◌+◌, IfOk, IfErr, OnOk, OnErr, ◌<◌, [], ◌∷◌, Some, true};
ghost use Rattle.t1_run.specs.Limits.{EndsWithinLimits};
ghost use Rattle.t1_run.specs.Run.{run_glyph, direct_by, direct, direct3, calls_of, with_indices, AddsFirst, index_of, index_taken};
ghost use Rattle.t1_run.specs.{Machine.{ending_of, value_of, left_of, Runs, IsEntered}, Budgets.{tokens_by, is_replace, Spends, RunsOut, NoMore}, State.{token_limit}};
ghost use Rattle.t1_run.specs.{declared.budget.Stop.TheVariants.{TooManyTokens}, Pens.{Draws}};

use crate::answer::{Curve, Direct, Fault, Halt, Hints, Mark};
use crate::budget::{Allowance, Budget, Stop};
use crate::frames::Frame;
use crate::machine::{Flow, Machine};
use crate::pens::Pen;
use crate::subr_set::SubrSet;
use crate::subroutines::Subroutines;
use arrayvec::ArrayVec;
use std::alloc::{AllocError, Global};

/// How deep calls may be: this project's limit.
const LEVELS: usize = 10;

/// The index of a Subr is below this number: a font declares no more Subrs.
const SUBR_LIMIT: i64 = 65535;

/// The index of a call, if it can be that of a Subr.
fn index_of(i: i64) -> Option<u16>
    ensures { result ≡ index_of i }
{
    if 0 <= i && i < SUBR_LIMIT {
        Some(i as u16)
    } else {
        None
    }
}

/// The charstring that a call enters, or why it fails.
fn enter<S: Subroutines>(subrs: &S, levels: usize, index: Option<u16>) -> Result<&[u8], Fault>
    ensures { IsEntered (S.subrs subrs.now) levels index result }
{
    if levels == 0 {
        return Err(Fault::Nesting);
    }
    let Some(index) = index else {
        return Err(Fault::NoSubr);
    };
    match subrs.get(index) {
        Some(charstring) => Ok(charstring),
        None => Err(Fault::NoSubr),
    }
}

/// The indices with the one that a call took. If memory is refused, nothing changes.
fn take(called: &mut SubrSet, index: Option<u16>) -> Result<(), AllocError>
    ensures added { OnOk result (called.new ≡ with_indices called.old (index_taken index)) }
    ensures unchanged { OnErr result (called.new ≡ called.old) }
{
    if let Some(index) = index {
        called.insert(index)?;
    }
    Ok(())
}

/// Whether a mark says that other hints follow.
fn is_replace(mark: &Mark) -> bool
    ensures { result ≡ is_replace mark.now }
{
    matches!(mark, Mark::Replace)
}

/// Draws a flex.
fn draw_flex<P: Pen>(
    pen: &mut P,
    height: i64,
    before: Curve,
    after: Curve,
) -> Result<(), AllocError>
    ensures { OnOk result (Draws P.marked (P.page pen.old) (P.page pen.new)
        (Mark.Flex height ∷ Mark.Curve before ∷ Mark.Curve after ∷ [])) }
{
    pen.mark(Mark::Flex(height))?;
    pen.mark(Mark::Curve(before))?;
    pen.mark(Mark::Curve(after))
}

/// Runs a charstring until a token ends the run; each turn executes the next token of the Subr that was called last, or of
/// the glyph. It also answers whether no OtherSubr 3 was run, so that the run is the same where hints are kept. The pen draws the
/// marks.
#[inline(always)]
fn take_turns<'s, S: Subroutines, P: Pen>(
    subrs: &'s S,
    hints: Hints,
    charstring: &'s [u8],
    pen: &mut P,
    called: &mut SubrSet,
    allowance: &mut Allowance,
) -> Result<(Halt, bool), Stop>
    requires { left_of allowance.now ≡ token_limit }
    ensures runs { IfOk result
        (λ r. Runs (run_glyph (S.subrs subrs.now) hints charstring.now) r.0 r.1
        (Draws P.marked (P.page pen.old) (P.page pen.new)) called.old called.new) }
    ensures one { IfOk result (λ r. r.1 ≡ true
        → run_glyph (S.subrs subrs.now) Hints.Kept charstring.now
        ≡ run_glyph (S.subrs subrs.now) hints charstring.now) }
    ensures some { OnErr result (AddsFirst (calls_of hints (S.subrs subrs.now) charstring.now)
        called.old called.new) }
    ensures executed { OnOk result (tokens_by hints (S.subrs subrs.now) charstring.now
        + allowance.new.allowed ≡ allowance.old.allowed) }
    ensures more { OnErr result ((allowance.new.allowed ≤ allowance.old.allowed)
        × (allowance.old.allowed
        ≤ tokens_by hints (S.subrs subrs.now) charstring.now + allowance.new.allowed)) }
    ensures refused { IfErr result (λ e. e ≡ TooManyTokens
        → (0 < allowance.old.withheld)
        × (allowance.old.allowed < tokens_by hints (S.subrs subrs.now) charstring.now)
        × (allowance.new.allowed ≡ 0)) }
{
    let mut machine = Machine::<P>::new();
    let mut call_stack: ArrayVec<Frame<'s>, LEVELS> = ArrayVec::new();
    let mut top = Frame::new(charstring);
    let mut is_one = true;
    'turns: loop {
        if allowance.allowed == 0 {
            return Ok((allowance.end(&mut top)?, is_one));
        }
        let Some(flow) = machine.spend(hints, allowance, &mut top) else {
            return Ok((Halt::Failed(Fault::Unended), is_one));
        };
        match flow {
            Flow::Go => {}
            Flow::Mark(mark) => {
                pen.mark(mark)?;
                is_one &= !is_replace(&mark);
            }
            Flow::Flex(height, before, after) => draw_flex(pen, height, before, after)?,
            Flow::Back => match call_stack.pop() {
                Some(caller) => top = caller,
                None => return Ok((Halt::Failed(Fault::Unended), is_one)),
            },
            Flow::Plain(metrics) => return Ok((Halt::Plain(metrics), is_one)),
            Flow::Seac(accent) => return Ok((Halt::Seac(accent), is_one)),
            Flow::Fail(fault) => return Ok((Halt::Failed(fault), is_one)),
            Flow::Call(i) => {
                let index = index_of(i);
                take(called, index)?;
                match enter(subrs, call_stack.remaining_capacity(), index) {
                    Ok(charstring) => {
                        call_stack.push(top);
                        top = Frame::new(charstring);
                    }
                    Err(fault) => return Ok((Halt::Failed(fault), is_one)),
                }
            }
        }
    }
}

/// Runs a charstring until a token ends the run, or until the budget has no token left for the next. It also answers whether no
/// OtherSubr 3 was run, so that the run is the same where hints are kept. The pen draws the marks. However it ends, the tokens that
/// were executed are taken out of the budget.
pub(crate) fn run<'s, S: Subroutines, P: Pen>(
    subrs: &'s S,
    hints: Hints,
    charstring: &'s [u8],
    pen: &mut P,
    called: &mut SubrSet,
    budget: &mut Budget,
) -> Result<(Halt, bool), Stop>
    ensures runs { IfOk result
        (λ r. Runs (run_glyph (S.subrs subrs.now) hints charstring.now) r.0 r.1
        (Draws P.marked (P.page pen.old) (P.page pen.new)) called.old called.new) }
    ensures one { IfOk result (λ r. r.1 ≡ true
        → run_glyph (S.subrs subrs.now) Hints.Kept charstring.now
        ≡ run_glyph (S.subrs subrs.now) hints charstring.now) }
    ensures some { OnErr result (AddsFirst (calls_of hints (S.subrs subrs.now) charstring.now)
        called.old called.new) }
    ensures spends { OnOk result (Spends (tokens_by hints (S.subrs subrs.now) charstring.now)
        budget.old.left budget.new.left) }
    ensures runs_out { IfErr result (λ e. e ≡ TooManyTokens
        → RunsOut (tokens_by hints (S.subrs subrs.now) charstring.now)
        budget.old.left budget.new.left) }
    ensures lowers { OnErr result (NoMore budget.old.left budget.new.left) }
{
    let mut allowance = Allowance::of(*budget);
    let allowed = allowance.allowed;
    let result = take_turns(subrs, hints, charstring, pen, called, &mut allowance);
    budget.take(allowed - allowance.allowed);
    result
}

/// Runs a charstring until a token ends the run, as [`run`] does, without a budget.
pub(crate) fn run_freely<'s, S: Subroutines, P: Pen>(
    subrs: &'s S,
    hints: Hints,
    charstring: &'s [u8],
    pen: &mut P,
    called: &mut SubrSet,
) -> Result<(Halt, bool), AllocError>
    ensures runs { IfOk result
        (λ r. Runs (run_glyph (S.subrs subrs.now) hints charstring.now) r.0 r.1
        (Draws P.marked (P.page pen.old) (P.page pen.new)) called.old called.new) }
    ensures one { IfOk result (λ r. r.1 ≡ true
        → run_glyph (S.subrs subrs.now) Hints.Kept charstring.now
        ≡ run_glyph (S.subrs subrs.now) hints charstring.now) }
    ensures some { OnErr result (AddsFirst (calls_of hints (S.subrs subrs.now) charstring.now)
        called.old called.new) }
{
    let mut budget = Budget { left: None };
    match run(subrs, hints, charstring, pen, called, &mut budget) {
        Ok(ended) => Ok(ended),
        Err(_) => Err(AllocError),
    }
}

/// What a charstring answers that ended in this way, with its marks.
fn answer_of(halt: Halt, marks: Vec<Mark>) -> Direct
    ensures { value_of result ≡ ending_of halt marks.items }
{
    match halt {
        Halt::Plain(metrics) => Direct::Plain {
            width: metrics.width,
            sb: metrics.bearing,
            marks,
        },
        Halt::Seac(accent) => Direct::Seac {
            width: accent.metrics.width,
            sb: accent.metrics.bearing,
            asb: accent.asb,
            adx: accent.adx,
            ady: accent.ady,
            base: accent.base,
            accent: accent.accent,
        },
        Halt::Failed(fault) => Direct::Failed(fault),
    }
}

/// What a charstring answers by itself, by what the pop after OtherSubr 3 gives.
fn direct_by<S: Subroutines>(
    alloc: Global,
    subrs: &S,
    hints: Hints,
    charstring: &[u8],
) -> Result<Direct, AllocError>
    ensures answer { IfOk result (λ d. value_of d
        ≡ direct_by hints (S.subrs subrs.now) charstring.now) }
    ensures within { IfOk result (λ d. EndsWithinLimits (value_of d)) }
{
    let mut marks = Vec::new(alloc);
    let mut called = SubrSet::new(alloc);
    let (halt, _) = run_freely(subrs, hints, charstring, &mut marks, &mut called)?;
    Ok(answer_of(halt, marks))
}

/// What a plain charstring answers by itself, without an accented glyph's parts, in a font with these Subrs, where hints
/// are replaced (Adobe Type 1 Font Format 1.1, chapters 6 and 8). Every number in the answer is at most 2^47 in size. It
/// fails only for want of memory: that a charstring is faulty is an answer.
pub fn direct<S: Subroutines>(
    alloc: Global,
    subrs: &S,
    charstring: &[u8],
) -> Result<Direct, AllocError>
    ensures answer { IfOk result (λ d. value_of d ≡ direct (S.subrs subrs.now) charstring.now) }
    ensures within { IfOk result (λ d. EndsWithinLimits (value_of d)) }
{
    direct_by(alloc, subrs, Hints::Replaced, charstring)
}

/// The same as [`direct`] for an interpreter that keeps hints: the pop after OtherSubr 3 gives 3, so the Subr that does
/// nothing is called in place of the one that replaces hints (Adobe Type 1 Font Format 1.1, chapter 8). The mark
/// [`Mark::Replace`](crate::Mark::Replace) stays.
pub fn direct3<S: Subroutines>(
    alloc: Global,
    subrs: &S,
    charstring: &[u8],
) -> Result<Direct, AllocError>
    ensures answer { IfOk result (λ d. value_of d ≡ direct3 (S.subrs subrs.now) charstring.now) }
    ensures within { IfOk result (λ d. EndsWithinLimits (value_of d)) }
{
    direct_by(alloc, subrs, Hints::Kept, charstring)
}
