//! The types of a program's table.
//!
//! Go, "Types".

ghost use Rattle.std.specs.Prelude.{◌≡◌, true, All};
ghost use Rattle.go_type.specs.Table.{places, names};
ghost use Rattle.go_core.specs.CoreView.{program_view};
ghost use Rattle.go_core.specs.SoundNode.{IsGoodType};
ghost use Rattle.go_core.specs.SoundProgram.{AreSet};
ghost use Rattle.go_sound_parts.specs.Measures.{AreKnown};

use go_core::program::Program;
use go_sound_parts::measures::{Measure, is_good, is_set};
use go_type::types::{NamedId, TypeId};

/// Whether values of each type have a size, and no map has other keys than the profile's.
pub fn are_good(p: &Program, measures: &[Option<Measure>]) -> bool
    ensures is { let q = program_view p.now in AreKnown q.names (places p.now.types) measures.now → result ≡ true → All (IsGoodType q) q.types }
{
    'types: for i in 0..p.types.len() {
        if !is_good(p, measures, TypeId(i)) {
            return false;
        }
    }
    true
}

/// Whether each named type is set, and doesn't hold itself.
pub fn are_set(p: &Program, measures: &[Option<Measure>]) -> bool
    ensures is { let q = program_view p.now in AreKnown q.names (places p.now.types) measures.now → result ≡ true → AreSet q }
{
    'names: for i in 0..p.types.name_len() {
        if !is_set(&p.types, measures, NamedId(i)) {
            return false;
        }
    }
    true
}
