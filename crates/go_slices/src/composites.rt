//! Steps on composite literals and interface values, and every operator of the Go meaning, in code.

pub mod build;
pub mod globals;
pub mod interfaces;
pub mod operator;
