//! The day file: its layout, and the lookup of one record's body. The reader and the writer stand on it.
//! What the calls do is said by `Lookup`, `Reading` and `Writing` in specs/; the layout itself is in the crate day's `File`.
#![tactic(auto)]

pub mod file;
pub mod kind;
pub mod layout;
pub mod lookup;
