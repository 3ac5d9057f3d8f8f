//! What rows stand for, as far as it has nothing to do with an object's pages.
//!
//! The laws are of no rows, of rows after a collection is made, of the objects that are there by the rows of their onodes, of the rows
//! of attributes and omaps, and of the reply that the making of a collection gets. What comes of an object's onode and extents is in
//! the crate `plan_proofs`, whose proofs stand on the lemmas here: of a row that is put in, of maps, and of objects under their names.
//!
//! Proved: rows tell which collections and objects there are; no rows stand for no collections; a collection's row leads to the objects
//! with it; an attribute, a header and a pair are good by their value and their object alone.
#![tactic(auto)]

mod laws;

pub use laws::{
    made_collection, missing_objects_have_no_values, no_rows, object_by_row,
    record_of_a_collection, replies_by_rows, values_are_good_by_their_objects,
};
