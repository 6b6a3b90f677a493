//! Laws that join a load with the check: what a load gives is what the grammar derives, with a
//! `main`, so that a root of which nothing is told is a program that has a meaning.
//!
//! The Go Programming Language Specification (as of Go 1.17), "Source file organization",
//! "Program execution". The definitions stand in `specs/` of the crates below; here is what holds
//! of them.
#![tactic(auto)]

pub mod laws;
