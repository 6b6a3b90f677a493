//! What holds of the script of a program that only prints.

ghost use Rattle.std.specs.Prelude.{◌≡◌, [], true};
ghost use Rattle.go_core.specs.CoreTree.{CoreProgram};
ghost use Rattle.js_prints.specs.Faithful.{Faithful};
ghost use Rattle.js_prints.specs.Prints.{only_prints};
ghost use Rattle.js_prints.specs.Emitted.{script_of, body_of_main};

/// Whatever the script does, some run of the program does, where nothing is initialised before `main`.
pub fn prints()
    ensures faithful { (p : CoreProgram) → only_prints p ≡ true → Faithful (script_of (body_of_main p)) p [] }
{}
