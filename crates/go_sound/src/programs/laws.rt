//! Laws of the definitions. No function here does anything.

ghost use Rattle.go_sound.specs.FaultyNames.{CirclesToldExactly, NamesToldExactly};
ghost use Rattle.go_sound.specs.FaultyPackages.{DeclsToldExactly, ToldExactly};
ghost use Rattle.go_sound.specs.FaultyStatements.{BodiesToldExactly, StatementsToldExactly};
ghost use Rattle.go_sound.specs.SoundFunctions.{FunctionsAreSound};
ghost use Rattle.go_sound.specs.SoundPrograms.{EachNameIsTyped, FunctionsOfPackagesAreSound, MainIsPlain, PackagesAreReady, ProgramsAreSound};
ghost use Rattle.go_sound.specs.SoundStatements.{StatementsAreSound};

/// A statement of which nothing is told has a core that has a meaning, where what is around it
/// has one.
pub fn statements()
    ensures sound { StatementsAreSound }
{}

/// A function of whose signature and body nothing is told has a meaning, where the scope of the
/// package has one: its variables begin with the parameters and the results, and are of scalar
/// types, its body is sound, and where it has results ends by a terminating statement.
pub fn functions()
    ensures sound { FunctionsAreSound }
{}

/// In a package of which nothing is told each name of the package's scope is typed.
pub fn names()
    ensures typed { EachNameIsTyped }
{}

/// In the program of a package of which nothing is told, what the names of the package's scope
/// stand for has a meaning wherever a function stands: constants are values of their types, types
/// are scalar, and functions are in the program's list with the types of their signatures.
pub fn scopes()
    ensures ready { PackagesAreReady }
{}

/// Each function of a package of which nothing is told has a meaning in its program.
pub fn package_functions()
    ensures sound { FunctionsOfPackagesAreSound }
{}

/// The program of a package of which nothing is told, and that has a function `main`, begins with
/// a function without parameters and results that is no method.
pub fn main_function()
    ensures plain { MainIsPlain }
{}

/// A package of which nothing is told, and that has a function `main`, is a program that has a
/// meaning.
pub fn programs()
    ensures sound { ProgramsAreSound }
{}

/// Of the names that a package declares exactly the faults are told: a name that is declared
/// again, and one that is `init` and no such function.
pub fn names_told()
    ensures exact { NamesToldExactly }
{}

/// Exactly those names of a package are told whose type or constant value needs themselves, each
/// at its first declaration.
pub fn circles_told()
    ensures exact { CirclesToldExactly }
{}

/// Of declarations exactly the faults are told, bodies of functions aside: those of the nodes of
/// types and of values, of what is no type or no constant, of counts, of signatures, and of what
/// is not built yet.
pub fn declarations_told()
    ensures exact { DeclsToldExactly }
{}

/// Of a package exactly the faults of its names, declarations and bodies are told, and where
/// there are none, that it has too many functions.
pub fn told_exactly()
    ensures exact { ToldExactly }
{}

/// Of a statement exactly the faults of itself and of the statements in it are told, each with
/// what is known before it.
pub fn statements_told()
    ensures exact { StatementsToldExactly }
{}

/// Of a function's body exactly the faults of its statements and labels are told and its unused
/// variables, and where there are none and what it uses of outside is typed, an end without
/// `return`, or else that there are too many functions.
pub fn bodies_told()
    ensures exact { BodiesToldExactly }
{}
