//! Font files from outside: each fault, the borders of the grammar, and the font Tiny, with ample memory.

mod again;
mod arrays;
mod edges;
mod faults;
mod growths;
mod long;
mod mends;
mod prefixes;
mod rows;
mod wide;
