//! Cuts of fonts, their tables, and the fonts of the entries of two, with ample memory.

mod cuts;
mod growths;
mod limits;
mod tables;
