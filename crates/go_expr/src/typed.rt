//! Expressions that are typed, each once, before it is known what their places want.
//!
//! Go, "Expressions". The relation stands in go_typing; `specs/Raw.antt` says what is known of an
//! expression that is typed.

pub mod all;
pub mod raw;

pub use crate::typed::all::{all_in, both_in};
pub use crate::typed::raw::{Raw, Raws, gone_raw, gone_raws, next_raw, raw_in};
