//! The Go texts of the embedded packages, which are part of each program that imports them.
#![tactic(auto)]

mod errors;
mod fmt;
mod os;
mod runtime;
mod strconv;
mod strings;
mod sync;

pub use errors::ERRORS;
pub use fmt::FMT;
pub use os::OS;
pub use runtime::RUNTIME;
pub use strconv::STRCONV;
pub use strings::STRINGS;
pub use sync::SYNC;
