//! Slice expressions, from the parts that came last.
//!
//! Go, "Slice expressions".

ghost use Rattle.std.specs.Prelude.{◌≡◌, ◌+◌, ◌≤◌, length, OnOk, IfOk, IfSome};
ghost use Rattle.go_type.specs.Table.{size};
ghost use Rattle.go_typing.specs.Index.{slice_row};
ghost use Rattle.go_operands.specs.EnvView.{table_of};
ghost use Rattle.go_operands.specs.AnswerView.{answer_view};
ghost use Rattle.go_operands.specs.Below.{AnswerBelow};
ghost use Rattle.go_operands.specs.Parts.{part_view, PartBelow};
ghost use Rattle.go_calls.specs.CallView.{PartsBelow};
ghost use Rattle.go_binary.specs.IndexView.{bound_view, BoundBelow};
ghost use Rattle.go_calls.specs.Words.{types_of, names_of};
ghost use Rattle.go_expr.specs.Stacked.{counted, WithLow, WithHigh, DoesSlice};

use crate::parts::stack::{hear, take, take_bound};
use gj_base::{NoMemory, Place};
use go_binary::indexes::gone::gone_bound;
use go_binary::indexes::slice::slice;
use go_operands::answers::answer::{Answer, Flaw};
use go_operands::operands::boxes::answer_box;
use go_operands::operands::part::Part;
use go_operands::scopes::Env;
use std::alloc::Global;

fn slice_of(
    alloc: Global,
    env: &Env,
    at: Place,
    x: Part,
    low: Option<Box<Part>>,
    high: Option<Box<Part>>,
    most: Option<Box<Part>>,
) -> Result<Answer, NoMemory>
    requires within { PartBelow (size (table_of env.now)) x }
    requires low { IfSome low (BoundBelow (size (table_of env.now))) }
    requires high { IfSome high (BoundBelow (size (table_of env.now))) }
    requires most { IfSome most (BoundBelow (size (table_of env.now))) }
    ensures view { IfOk result (λ a. answer_view (types_of env.now) a ≡ slice_row (names_of env.now) at (part_view (types_of env.now) x) (bound_view (types_of env.now) low) (bound_view (types_of env.now) high) (bound_view (types_of env.now) most)) }
    ensures within { IfOk result (λ a. AnswerBelow (size (table_of env.now)) a) }
{
    let Part { place, answer } = x;
    match answer_box(alloc, env.table(), answer) {
        Ok(answer) => slice(alloc, env.table(), at, place, answer, low, high, most),
        Err(error) => {
            gone_bound(low);
            gone_bound(high);
            gone_bound(most);
            Err(error)
        }
    }
}

// With the upper bounds, where the lower one waits.
fn with_low(
    alloc: Global,
    env: &Env,
    at: Place,
    has_low: bool,
    high: Option<Box<Part>>,
    most: Option<Box<Part>>,
    parts: &mut Vec<Part>,
) -> Result<Answer, NoMemory>
    requires some { counted has_low + 1 ≤ length parts.old.items }
    requires within { PartsBelow (size (table_of env.now)) parts.old.items }
    requires high { IfSome high (BoundBelow (size (table_of env.now))) }
    requires most { IfSome most (BoundBelow (size (table_of env.now))) }
    ensures does { IfOk result (λ a. WithLow (types_of env.now) (slice_row (names_of env.now) at) has_low (bound_view (types_of env.now) high) (bound_view (types_of env.now) most) a parts.old.items parts.new.items) }
    ensures parts { PartsBelow (size (table_of env.now)) parts.new.items }
    ensures within { IfOk result (λ a. AnswerBelow (size (table_of env.now)) a) }
{
    match take_bound(alloc, env, has_low, parts) {
        Ok(low) => slice_of(alloc, env, at, take(env, parts), low, high, most),
        Err(error) => {
            gone_bound(high);
            gone_bound(most);
            Err(error)
        }
    }
}

// With the last bound, where the others wait.
fn with_high(
    alloc: Global,
    env: &Env,
    at: Place,
    has_low: bool,
    has_high: bool,
    most: Option<Box<Part>>,
    parts: &mut Vec<Part>,
) -> Result<Answer, NoMemory>
    requires some { counted has_low + 1 + counted has_high ≤ length parts.old.items }
    requires within { PartsBelow (size (table_of env.now)) parts.old.items }
    requires most { IfSome most (BoundBelow (size (table_of env.now))) }
    ensures does { IfOk result (λ a. WithHigh (types_of env.now) (slice_row (names_of env.now) at) has_low has_high (bound_view (types_of env.now) most) a parts.old.items parts.new.items) }
    ensures parts { PartsBelow (size (table_of env.now)) parts.new.items }
    ensures within { IfOk result (λ a. AnswerBelow (size (table_of env.now)) a) }
{
    match take_bound(alloc, env, has_high, parts) {
        Ok(high) => with_low(alloc, env, at, has_low, high, most, parts),
        Err(error) => {
            gone_bound(most);
            Err(error)
        }
    }
}

/// What is sliced, and which of its bounds wait after it.
pub fn sliced(
    alloc: Global,
    env: &Env,
    at: Place,
    has_low: bool,
    has_high: bool,
    has_most: bool,
    parts: &mut Vec<Part>,
    flaws: &mut Vec<Flaw>,
) -> Result<(), NoMemory>
    requires some { counted has_low + 1 + counted has_high + counted has_most ≤ length parts.old.items }
    requires within { PartsBelow (size (table_of env.now)) parts.old.items }
    ensures does { OnOk result (DoesSlice (types_of env.now) at (slice_row (names_of env.now) at) has_low has_high has_most parts.old.items parts.new.items flaws.old.items flaws.new.items) }
    ensures within { OnOk result (PartsBelow (size (table_of env.now)) parts.new.items) }
{
    let most = take_bound(alloc, env, has_most, parts)?;
    match with_high(alloc, env, at, has_low, has_high, most, parts) {
        Ok(answer) => hear(alloc, env, at, answer, parts, flaws),
        Err(error) => Err(error),
    }
}
