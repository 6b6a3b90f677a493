//! What a run keeps.

ghost use Rattle.std.specs.Prelude.{◌+◌, ◌<◌, ◌^◌};

use js_value::value::entries::Entry;
use js_value::value::heap::Object;

/// What a run keeps.
#[derive(Drop)]
pub struct World<'a> {
    /// Ticks that are left.
    pub left: u64,
    pub printed: Vec<u8>,
    /// How many numbers were taken.
    pub taken: u64,
    /// Arrays and dictionaries by their places.
    pub objects: Vec<Object<'a>>,
    /// The top-level variables that have been set.
    pub globals: Vec<Entry<'a>>,
    pub ghost counted: { left + taken < 2 ^ 64 },
}
