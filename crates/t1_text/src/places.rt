//! Places in a text, counted from its end.

/// Where bytes stand in a text: how many there are, and how many stand behind them. It stays the same whatever is read of
/// the text before them.
#[derive(Clone, Copy, Debug)]
pub struct Place {
    pub len: usize,
    pub behind: usize,
}
