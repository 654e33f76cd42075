//! The limits of fonts.

/// The most Subrs that a font declares, and the most glyphs that it has.
pub const COUNT_LIMIT: usize = 65535;

/// The most that a font weighs, which is roughly its bytes: 64 MiB.
pub const WEIGHT_LIMIT: u64 = 67_108_864;
