//! The codes of operations, and the version of the spelling.

pub(crate) const VERSION: u8 = 1;

pub(crate) const MKCOLL: u8 = 1;

pub(crate) const RMCOLL: u8 = 2;

pub(crate) const TOUCH: u8 = 3;

pub(crate) const WRITE: u8 = 4;

pub(crate) const ZERO: u8 = 5;

pub(crate) const TRUNCATE: u8 = 6;

pub(crate) const REMOVE: u8 = 7;

pub(crate) const SETATTR: u8 = 8;

pub(crate) const RMATTR: u8 = 9;

pub(crate) const RMATTRS: u8 = 10;

pub(crate) const CLONE: u8 = 11;

pub(crate) const CLONERANGE: u8 = 12;

pub(crate) const OMAPSET: u8 = 13;

pub(crate) const OMAPRM: u8 = 14;

pub(crate) const OMAPRMRANGE: u8 = 15;

pub(crate) const OMAPCLEAR: u8 = 16;

pub(crate) const OMAPHEADER: u8 = 17;
