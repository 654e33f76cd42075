//! The limit of files.

/// The most bytes that a file has, and so each part of a file: 256 MiB. This is the project's own limit.
pub const FILE_LIMIT: usize = 268_435_456;
