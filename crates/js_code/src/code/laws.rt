//! That code stands for the script that it was made of. No function here does anything.

ghost use Rattle.js_code.specs.PartClauses.{ExprHasItsTree, StmtsHaveTheirTree, PartsStand};

/// Parts are added after those that were there, and the last one stands for what was added; what
/// any part stands for is made of what its own parts stand for, and each name has its place.
pub fn code_has_its_tree()
    ensures expression { ExprHasItsTree }
    ensures statements { StmtsHaveTheirTree }
    ensures parts { PartsStand }
{}
