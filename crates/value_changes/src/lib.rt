//! What operations make of an object's values: its attributes, its omap header and its omap.
//!
//! In Ceph's BlueStore these are `_setattr`, `_rmattr`, `_rmattrs`, `_omap_clear`, `_omap_setkeys`, `_omap_setheader`, `_omap_rmkeys` and
//! `_omap_rmkey_range`. There the attributes are a part of the onode; here they have rows of their own.
//!
//! Proved: over rows of which none is bad, after an operation on an object's attributes, omap header or omap, or its removal, each of its
//! values is seen as the operation makes it of what was seen before; each other key is changed as before. Of two pairs with one key the
//! later counts, an empty header is none, and the end of a range stays.
#![tactic(auto)]

mod attr_ops;
mod object_values;
mod omap_ops;
mod value_ranges;

pub use object_values::change_values;
