//! What is passed over before a step, beside the meaning's step.

ghost use Rattle.go_state.specs.StepsPast.{StepsPast};

/// A step of a goroutine passes over the same tasks, and does the same to the values.
pub fn passing()
    ensures passed { StepsPast }
{}
