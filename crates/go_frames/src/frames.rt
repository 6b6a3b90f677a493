//! The frames of the Go parser, the trees that they make, and the words of a step.
//!
//! The parser goes over the tokens once, with a stack of frames. The top frame stands at the next
//! token; a frame below waits for the tree that the frame above it makes. `specs/FrameView.antt` says
//! which frame of the grammar's machine each of them stands for.

pub mod at;
pub mod ctx;
pub mod form;
pub mod frame;
pub mod node;
pub mod stack;
