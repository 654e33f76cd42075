//! Fonts in memory: what closures, subsets and mergers answer with ample memory, and each refusal with its data.

mod budgets;
mod closures;
mod differences;
mod fonts;
mod growths;
mod kept;
mod lacks;
mod large;
mod lists;
mod mergers;
mod rows;
