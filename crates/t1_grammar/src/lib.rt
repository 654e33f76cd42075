//! Grammars of byte texts as definitions, and what is proved of them. There is no code here.
//!
//! A grammar (`specs/Grammar.antt`) says which texts spell a value and how a value is read from the front of bytes, and carries
//! the law that these two agree; each combinator makes the law of the grammar that it builds. `specs/Tables.antt` has entries up to
//! what closes them. A format (`specs/Formats.antt`) says what a whole text spells and the reason for each fault, and carries the
//! laws that what is read is one or the other. The laws that definitions cite stand in `specs/`, and the other lemmas in `proofs/`.
#![tactic(auto)]
