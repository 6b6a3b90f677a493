//! Laws of the definitions. No function here does anything.

ghost use Rattle.go_loaded.specs.Loaded.{FilesAreOfGrammar, LoadedAreOfGrammar, LoadedAreSound, LoadedHaveMain};

use go_sound::programs::laws::programs;

/// Whatever tree of a file the grammar derives, its declarations are ones that the grammar gives:
/// between operands stand its operators, after a turn of a loop stands a simple statement, and a
/// variable specification has a type or values.
pub fn grammar()
    ensures derived { FilesAreOfGrammar }
{}

/// What the root of a load declares is what the grammar gives, and a function `main` is among it.
pub fn loaded()
    ensures derived { LoadedAreOfGrammar }
    ensures main { LoadedHaveMain }
{
    grammar();
}

/// The root of a load, if nothing is told of it, is a program that has a meaning.
pub fn sound()
    ensures sound { LoadedAreSound }
{
    loaded();
    programs();
}
