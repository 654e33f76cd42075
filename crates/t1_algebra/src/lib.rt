//! Subsets, states and joins of Type 1 fonts as definitions, and what is proved of them. There is no code here.
//!
//! `specs/` defines what a set of names keeps of a font (`Keep.antt`), what states a font has and how these join
//! (`States.antt`), and the lowest conflict of two fonts (`Conflicts.antt`); `proofs/` has the lemmas. The laws themselves are the
//! contracts of `t1_subset::laws`, and the calls of `t1_subset` are proved to do what is defined here.
#![tactic(auto)]
