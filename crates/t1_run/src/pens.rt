//! What takes the marks of a run.

ghost use Rattle.std.specs.Prelude.{◌≡◌, List, OnOk};
ghost use Rattle.t1_run.specs.{declared.answer.Mark.{Mark}, Pens.{with_mark}};

use crate::answer::Mark;
use std::alloc::AllocError;

/// What takes the marks of a run, one after another: a list of marks, or the text or the image that they make. Its page is
/// what it has drawn so far, and `marked` says what one more mark makes of a page.
pub trait Pen {
    ghost Page: { Type 0 };

    ghost page: { Self → Page };

    ghost marked: { Page → Mark → Page };

    /// Takes the next mark. It fails only for want of memory.
    fn mark(&mut self, mark: Mark) -> Result<(), AllocError>
        ensures { OnOk result (page self.new ≡ marked (page self.old) mark) };
}

/// The marks, kept in their order.
impl Pen for Vec<Mark> {
    ghost Page = { List Mark };

    ghost page = { λ marks. marks.items };

    ghost marked = { with_mark };

    fn mark(&mut self, mark: Mark) -> Result<(), AllocError> {
        self.push(mark)?;
        Ok(())
    }
}

/// A pen that draws nothing.
#[derive(Drop)]
pub(crate) struct Blank;

impl Pen for Blank {
    ghost Page = { Unit {0} };

    ghost page = { λ _. tt };

    ghost marked = { λ _ _. tt };

    fn mark(&mut self, _mark: Mark) -> Result<(), AllocError> {
        Ok(())
    }
}
