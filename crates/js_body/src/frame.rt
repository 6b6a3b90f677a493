//! The frame array of a machine: its first elements, and what stands after them.
//!
//! 0 the machine, 1 the case at which it goes on, 2 the frame below, 3 deferred calls, 4 the mode (0 normal,
//! 1 returning, 2 panicking), 5 the panic's value, 6 what the frame was given when it was woken, 7 the
//! temporaries that it left. Then come the variables, those that it captured, and what ranges hold.

/// The element of the case.
pub const CASE: u32 = 1;

/// The element of the frame below.
pub const BELOW: u32 = 2;

/// The element of the mode.
pub const MODE: u32 = 4;

/// The element of what the frame was given.
pub const GIVEN: u32 = 6;

/// The element of the temporaries.
pub const LEFT: u32 = 7;

/// The first element after the head.
pub const HEAD: u32 = 8;

/// The case at which a frame ends: its deferred calls run, and then it gives its results.
pub const ENDING: u32 = 0;

/// The case at which a frame begins.
pub const BEGINNING: u32 = 1;
