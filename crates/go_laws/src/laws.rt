//! Laws of the definitions. No function here does anything.

ghost use Rattle.go_laws.specs.InOrder.{
  NextChooses,
  NothingElseChooses,
  OthersDont,
  RunsTake,
  RunsTakeTheFirst,
  StepsCount,
  TheFirstDecide,
};

/// A step takes the next number of the list of choices where several clauses of a `select` can
/// proceed, which it chooses by; no other number matters to it, and no other step takes one.
pub fn steps()
    ensures count { StepsCount }
    ensures chosen { NextChooses }
    ensures others { OthersDont }
    ensures nothing_else { NothingElseChooses }
{}

/// What a run takes of the list of choices is exactly its beginning, in order, which decides the
/// run.
pub fn runs()
    ensures numbers { RunsTake }
    ensures first { RunsTakeTheFirst }
    ensures decide { TheFirstDecide }
{}
