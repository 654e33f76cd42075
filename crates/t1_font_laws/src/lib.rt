//! The laws of fonts: what holds of reading, of the canonical file, of cuts and joins, and of fonts that are normalized. Each is a
//! function without a body, whose contract is the law. No crate stands on them, so none has to wait for their proofs.
#![tactic(auto)]

pub mod laws;
