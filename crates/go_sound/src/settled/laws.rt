//! Laws of the definitions. No function here does anything.

ghost use Rattle.go_sound.specs.Circles.{CirclesStay};
ghost use Rattle.go_sound.specs.Rows.{ReachesKnown};

/// Declarations are typed one after the other, each by what is known then, in any order and as often as
/// may be. Where each that isn't typed at the end isn't by what is known then, that is all that the
/// rounds reach.
pub fn settling()
    ensures reached { ReachesKnown }
{}

/// Which declarations need themselves can be told before any is typed.
pub fn circles()
    ensures stay { CirclesStay }
{}
