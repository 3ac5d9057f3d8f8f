//! Finite maps under numbers, in ascending order: page maps, and the like.
//!
//! Proved: a `NumberMap` is the finite map of its entries: each call is that map's, and a range is cut out as a whole.
#![tactic(auto)]

mod number_map;

pub use number_map::NumberMap;
