//! Laws of the definitions. No function here does anything.

ghost use Rattle.go_sound.specs.Added.{AddedTypesChangeNothing, AddedTypesTellNothing};
ghost use Rattle.go_sound.specs.GoesOn.{BlocksLeaveScopes, StatementsGoOn, VariablesDiffer};
ghost use Rattle.go_sound.specs.Least.{NoneIsTold, TellsTheLeast};
ghost use Rattle.go_sound.specs.Lost.{NothingIsLost};
ghost use Rattle.go_sound.specs.Rounds.{IsFixed, IsLeastFixed, IsReached, StaysSo};
ghost use Rattle.go_sound.specs.SoundTyped.{AloneAreSound, NodesAreSound, PrintsAreSound, WantedAreSound};
ghost use Rattle.go_sound.specs.SoundValues.{AnyValuesAreSound, ConditionsAreSound, ValuesAreSound};

/// Of all that is told of a package the fault is the one that stands first, by file and offset,
/// and of several there the one with the least code; there is none exactly where nothing is told.
pub fn least()
    ensures least { TellsTheLeast }
    ensures none { NoneIsTold }
{}

/// What the names of a package stand for follows from the declarations in as many rounds as there
/// are declarations, whatever their order: another round changes nothing, what is typed stays so,
/// and there is no less that another round doesn't change.
pub fn rounds()
    ensures fixed { IsFixed }
    ensures reached { IsReached }
    ensures stays { StaysSo }
    ensures least { IsLeastFixed }
{}

/// A node that is typed has a core that has a meaning, where what is in scope has one.
pub fn sound_nodes()
    ensures nodes { NodesAreSound }
    ensures wanted { WantedAreSound }
    ensures alone { AloneAreSound }
    ensures prints { PrintsAreSound }
{}

/// How bodies are gone through: a statement adds variables with the numbers that come next, and
/// named types, and changes the innermost scope alone; a block leaves all scopes as they were; no
/// two variables of a program have one number.
pub fn bodies()
    ensures statements { StatementsGoOn }
    ensures blocks { BlocksLeaveScopes }
    ensures variables { VariablesDiffer }
{}

/// Named types that are added, as those of a function's body, change nothing that is typed without
/// them: each node is typed as the same, and the same is told of it.
pub fn added_types()
    ensures typed { AddedTypesChangeNothing }
    ensures told { AddedTypesTellNothing }
{}

/// Where each name in scope is typed, a node is typed or a fault is told of it.
pub fn nothing_lost()
    ensures nodes { NothingIsLost }
{}

/// In a body where each name in scope is typed, values of which nothing is told have cores that
/// have a meaning: of the type that is wanted, of their own type, and conditions of a boolean one.
pub fn values()
    ensures wanted { ValuesAreSound }
    ensures any { AnyValuesAreSound }
    ensures conditions { ConditionsAreSound }
{}
