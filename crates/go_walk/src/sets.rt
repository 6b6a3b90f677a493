//! Sets that a hash finds: of names, and of places.
//!
//! A clause says of a set what it answers, and not how it is kept.

pub mod names;
pub mod numbers;
pub mod spots;

pub use crate::sets::names::NameSet;
pub use crate::sets::numbers::NameMap;
pub use crate::sets::spots::PlaceSet;
