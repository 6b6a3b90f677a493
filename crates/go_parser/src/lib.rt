//! Tokens to the tree of a file.
//!
//! The parser goes over the tokens once, with a stack of frames. The top frame stands at the next
//! token; a frame below waits for the tree that the frame above it makes. So nothing recurses on
//! input, and the first token that the frames don't take is the one of the fault.
#![tactic(auto)]

mod feed;
mod file;
mod run;

pub use run::parse;
