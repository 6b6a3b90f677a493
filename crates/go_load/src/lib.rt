//! Files to packages: what is read, and the trees or the fault that come of it.
//!
//! For now the root alone is read. `specs/Load.antt` says what `load` answers, `specs/Faults.antt`
//! which faults files have.
#![tactic(auto)]

mod faults;
mod gather;
mod judge;
mod loading;
mod names;
mod packages;
mod reading;
mod sources;

pub use loading::load;
pub use packages::{LoadRefusal, Package, Packages, Paths};
pub use sources::{FileEntry, Sources};
