//! Parts of a buffer.

ghost use Rattle.std.specs.Prelude.{◌≡◌, ◌≤◌, ◌-◌};
ghost use Rattle.t1_bytes.specs.Limits.{file_limit};
ghost use Rattle.t1_font.specs.Ranges.{bytes_at};

/// A part of a buffer, from `start` up to but not including `end`. No buffer is longer than a file may be, so 32 bits
/// hold each place.
#[derive(Clone, Copy, Debug)]
pub(crate) struct Range {
    pub(crate) start: u32,
    pub(crate) end: u32,
}

impl Range {
    /// The part from `start` up to but not including `end`.
    pub(crate) fn new(start: usize, end: usize) -> Range
        requires ordered { start ≤ end }
        requires short { end ≤ file_limit }
        ensures start { result.start ≡ start }
        ensures end { result.end ≡ end }
    {
        Range {
            start: start as u32,
            end: end as u32,
        }
    }

    /// How many bytes the part has.
    pub(crate) fn len(self) -> usize
        ensures { result ≡ self.end - self.start }
    {
        self.end.saturating_sub(self.start) as usize
    }

    /// The bytes of a buffer in this part, as far as the buffer has them.
    pub(crate) fn of(self, buffer: &[u8]) -> &[u8]
        ensures { result.now ≡ bytes_at buffer.now self }
    {
        let (_, from) = buffer.split_at((self.start as usize).min(buffer.len()));
        let (bytes, _) = from.split_at(self.len().min(from.len()));
        bytes
    }
}
