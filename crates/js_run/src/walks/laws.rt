//! That nothing is taken back of what was printed. No function here does anything.

ghost use Rattle.js_run.specs.Stays.{PrintsStay, ReachedBegins, TextBegins};

/// What was printed stays, whatever is left to be done; so what was printed up to a point that a
/// run has reached begins what is printed in the end, and so does a text that is printed then.
pub fn nothing_taken_back()
    ensures stays { PrintsStay }
    ensures begins { ReachedBegins }
    ensures text { TextBegins }
{}
