//! Laws of the definitions. No function here does anything.

ghost use Rattle.go_typing.specs.Faulty.{ListsExactly, ListsExactlyAt, NoneAround};
ghost use Rattle.go_typing.specs.RowsCalls.{RowsCalls};
ghost use Rattle.go_typing.specs.RowsNames.{RowsNames};
ghost use Rattle.go_typing.specs.RowsOperators.{RowsOperators};
ghost use Rattle.go_typing.specs.RowsScopes.{RowsScopes};
ghost use Rattle.go_typing.specs.RowsShifts.{RowsShifts};
ghost use Rattle.go_typing.specs.RowsTexts.{RowsTexts};
ghost use Rattle.go_typing.specs.RowsWanted.{RowsWanted};
ghost use Rattle.go_typing.specs.Scopes.{DeclaresInside, InnermostDecides, KeepsFirst, KeepsOthers, PopsWhatWasPushed};
ghost use Rattle.go_typing.specs.TypesFit.{TypesFit};
ghost use Rattle.go_typing.specs.Unknown.{StaysTyped};

/// The list of an expression's faults has exactly those of its faulty nodes.
pub fn lists_exactly()
    ensures exact { ListsExactly }
{}

/// The same where a value of a type is wanted.
pub fn lists_exactly_at()
    ensures exact { ListsExactlyAt }
{}

/// A node with a part that isn't typed isn't typed, and has no fault of its own.
pub fn none_around()
    ensures none { NoneAround }
{}

/// Names, literals and parentheses come out as worked out by hand.
pub fn rows_names()
    ensures rows { RowsNames }
{}

/// Operators come out as worked out by hand.
pub fn rows_operators()
    ensures rows { RowsOperators }
{}

/// Shifts come out as worked out by hand, and untyped constants that wait for their type.
pub fn rows_shifts()
    ensures rows { RowsShifts }
{}

/// Indexes and slices of strings come out as worked out by hand.
pub fn rows_texts()
    ensures rows { RowsTexts }
{}

/// Conversions, calls, `len`, `print` and `println` come out as worked out by hand.
pub fn rows_calls()
    ensures rows { RowsCalls }
{}

/// What is wanted comes out as worked out by hand: a value of a type, any value, a type.
pub fn rows_wanted()
    ensures rows { RowsWanted }
{}

/// Scopes are as Go has them: one that is closed leaves what was there, the innermost declaration
/// decides, a declaration is found, the first one in a scope stays, and other names do too.
pub fn scopes()
    ensures pops { PopsWhatWasPushed }
    ensures decides { InnermostDecides }
    ensures declares { DeclaresInside }
    ensures first { KeepsFirst }
    ensures others { KeepsOthers }
{}

/// Scopes and the names that occur come out as worked out by hand.
pub fn rows_scopes()
    ensures rows { RowsScopes }
{}

/// What is typed stays so as more declarations are typed.
pub fn stays_typed()
    ensures stays { StaysTyped }
{}

/// The core of a typed node gives values of the types that the node is typed as.
pub fn types_fit()
    ensures fit { TypesFit }
{}
