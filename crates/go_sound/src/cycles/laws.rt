//! Laws of the definitions. No function here does anything.

ghost use Rattle.go_sound.specs.Circle.{ReachesItself};

/// A declaration is told to need itself, within as many steps as there are declarations, exactly where
/// its name leads back to itself by some names, each of which needs the next one.
pub fn circles()
    ensures reached { ReachesItself }
{}
