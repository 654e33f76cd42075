//! A value or nothing, where nothing joins with every value.
ghost use Rattle.t1_join.specs.Join.{State, StatesAgree, StatesJoin};

use crate::keys::Kept;
use crate::partial::Join;
use std::alloc::{AllocError, Global};

/// A value, or nothing.
#[derive(Drop)]
pub enum Flat<V> {
    Empty,
    Full(V),
}

impl<V: Kept> Join for Flat<V> {
    ghost use Rattle.t1_join.specs.{Join.{State, StatesAgree, StatesJoin}, FlatMeaning.{flat_meaning}, StateLaws.{state_laws}};

    ghost Meaning = { State };

    ghost meaning = { flat_meaning V.meaning };

    ghost Agrees = { StatesAgree };

    ghost Joins = { StatesJoin };

    ghost laws = { state_laws };

    fn agrees(&self, other: &Flat<V>) -> bool {
        match (self, other) {
            (Flat::Full(v), Flat::Full(w)) => v.same(w),
            _ => true,
        }
    }

    fn join(&self, alloc: Global, other: &Flat<V>) -> Result<Flat<V>, AllocError> {
        match self {
            Flat::Full(v) => Ok(Flat::Full(v.copy(alloc)?)),
            Flat::Empty => match other {
                Flat::Full(w) => Ok(Flat::Full(w.copy(alloc)?)),
                Flat::Empty => Ok(Flat::Empty),
            },
        }
    }
}
