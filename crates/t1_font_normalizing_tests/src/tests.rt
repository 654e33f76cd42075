//! Fonts that are made alike, with ample memory.

mod boxes;
mod growths;
mod names;
mod normal_texts;
mod normalizing;
mod untested;
