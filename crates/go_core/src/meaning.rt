//! Laws of the whole meaning. No function here does anything.

ghost use Rattle.go_core.specs.Growth.{RunsGrow, StepsGrow};
ghost use Rattle.go_core.specs.RowsCalls.{RowsCalls};
ghost use Rattle.go_core.specs.RowsControl.{RowsControl};
ghost use Rattle.go_core.specs.RowsMemory.{RowsMemory};
ghost use Rattle.go_core.specs.RowsPanics.{RowsPanics};
ghost use Rattle.go_core.specs.RowsTalk.{RowsTalk};
ghost use Rattle.go_core.specs.RowsValues.{RowsValues};
ghost use Rattle.go_core.specs.RunLaws.{DeadlocksEnd, EndsStay, RunsExtend};

/// Values come out as worked out by hand: arithmetic, comparisons, conversions, strings.
pub fn rows_values()
    ensures rows { RowsValues }
{}

/// Memory is as worked out by hand: assignments, literals, slices, maps.
pub fn rows_memory()
    ensures rows { RowsMemory }
{}

/// Calls are as worked out by hand: closures, methods, interface values, initialisers.
pub fn rows_calls()
    ensures rows { RowsCalls }
{}

/// Control goes as worked out by hand: loops, labels, switches, ranges.
pub fn rows_control()
    ensures rows { RowsControl }
{}

/// Frames end as worked out by hand: deferred calls, panics, reports, ends.
pub fn rows_panics()
    ensures rows { RowsPanics }
{}

/// Goroutines meet as worked out by hand: channels, selects, gates.
pub fn rows_talk()
    ensures rows { RowsTalk }
{}

/// A run extends by a run, an ended run has no step, and a deadlock is an end.
pub fn runs()
    ensures extend { RunsExtend }
    ensures ends { EndsStay }
    ensures deadlocks { DeadlocksEnd }
{}

/// No step and no run takes anything back: places, maps, channels, printed bytes, numbers, units.
pub fn growth()
    ensures steps { StepsGrow }
    ensures runs { RunsGrow }
{}
