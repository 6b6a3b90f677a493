//! Parts that are typed and wait for the node that they are parts of, and the faults that are told.

ghost use Rattle.std.specs.Prelude.{◌≡◌, ℕ, ◌<◌, ◌≤◌, ◌+◌, ◌++◌, ◌∷◌, [], List, length, map, OnOk, IfOk, IfSome};
ghost use Rattle.go_type.specs.Tree.{Ty};
ghost use Rattle.go_type.specs.Table.{size};
ghost use Rattle.go_typing.specs.Answer.{own};
ghost use Rattle.go_operands.specs.EnvView.{table_of};
ghost use Rattle.go_operands.specs.AnswerView.{answer_view, flaw_view, flaws_view};
ghost use Rattle.go_operands.specs.Below.{AnswerBelow};
ghost use Rattle.go_operands.specs.Parts.{PartBelow};
ghost use Rattle.go_calls.specs.CallView.{PartsBelow};
ghost use Rattle.go_binary.specs.IndexView.{BoundBelow};
ghost use Rattle.go_calls.specs.Words.{types_of};
ghost use Rattle.go_expr.specs.Stacked.{Hears, Takes, TakesBound, counted};

use gj_base::{NoMemory, Place, Text};
use go_operands::answers::answer::{Answer, Flaw, Flaws};
use go_operands::answers::gone::gone_answer;
use go_operands::operands::part::{Part, gone_part, part_box};
use go_operands::scopes::Env;
use std::alloc::Global;

fn copied(alloc: Global, flaw: &Flaw) -> Result<Flaw, NoMemory>
    ensures value { IfOk result (λ f. flaw_view f ≡ flaw_view flaw.now) }
{
    let name = Text::from_slice(alloc, flaw.name.as_bytes())?;
    Ok(Flaw {
        place: flaw.place,
        code: flaw.code,
        name,
    })
}

fn add_copies(alloc: Global, flaws: &mut Vec<Flaw>, more: &Flaws) -> Result<(), NoMemory>
    ensures told { OnOk result (map flaw_view flaws.new.items ≡ map flaw_view flaws.old.items ++ flaws_view more.now) }
{
    for flaw in &more.items {
        let copy = copied(alloc, flaw)?;
        flaws.push(copy)?;
    }
    Ok(())
}

/// The node's own faults are told: they stay with the node too.
pub fn add_own(alloc: Global, flaws: &mut Vec<Flaw>, answer: &Answer) -> Result<(), NoMemory>
    ensures told { OnOk result ((ts : List Ty) → map flaw_view flaws.new.items ≡ map flaw_view flaws.old.items ++ own (answer_view ts answer.now)) }
{
    match answer {
        Answer::Wrong(more) => add_copies(alloc, flaws, more),
        Answer::Value(_) => Ok(()),
        Answer::Constant(_) => Ok(()),
        Answer::Truth(_) => Ok(()),
        Answer::Nil => Ok(()),
        Answer::Pending(_, _) => Ok(()),
        Answer::Type(_) => Ok(()),
        Answer::Package(_) => Ok(()),
        Answer::BuiltIn(_) => Ok(()),
        Answer::Blank => Ok(()),
        Answer::Prints {
            operands: _,
            ends_line: _,
        } => Ok(()),
        Answer::Unknown => Ok(()),
    }
}

fn push(parts: &mut Vec<Part>, part: Part) -> Result<(), NoMemory>
    ensures items { OnOk result (parts.new.items ≡ parts.old.items ++ part ∷ []) }
{
    match parts.push(part) {
        Ok(()) => Ok(()),
        Err(refused) => {
            gone_part(refused.value);
            Err(NoMemory)
        }
    }
}

/// A node waits, and its own faults are told.
pub fn hear(
    alloc: Global,
    env: &Env,
    place: Place,
    answer: Answer,
    parts: &mut Vec<Part>,
    flaws: &mut Vec<Flaw>,
) -> Result<(), NoMemory>
    requires parts { PartsBelow (size (table_of env.now)) parts.old.items }
    requires answer { AnswerBelow (size (table_of env.now)) answer }
    ensures does { OnOk result (Hears (types_of env.now) place (answer_view (types_of env.now) answer) parts.old.items parts.new.items flaws.old.items flaws.new.items) }
    ensures within { OnOk result (PartsBelow (size (table_of env.now)) parts.new.items) }
{
    let _ = env;
    match add_own(alloc, flaws, &answer) {
        Ok(()) => push(parts, Part { place, answer }),
        Err(error) => {
            gone_answer(answer);
            Err(error)
        }
    }
}

/// The part that came last.
pub fn take(env: &Env, parts: &mut Vec<Part>) -> Part
    requires some { 0 < length parts.old.items }
    requires within { PartsBelow (size (table_of env.now)) parts.old.items }
    ensures split { Takes (types_of env.now) result parts.old.items parts.new.items }
    ensures count { length parts.old.items ≡ length parts.new.items + 1 }
    ensures within { PartsBelow (size (table_of env.now)) parts.new.items }
    ensures part { PartBelow (size (table_of env.now)) result }
{
    let _ = env;
    parts.take_last()
}

/// The part that came last, in a box, where there is one.
pub fn take_bound(
    alloc: Global,
    env: &Env,
    is_there: bool,
    parts: &mut Vec<Part>,
) -> Result<Option<Box<Part>>, NoMemory>
    requires some { counted is_there ≤ length parts.old.items }
    requires within { PartsBelow (size (table_of env.now)) parts.old.items }
    ensures split { IfOk result (λ b. TakesBound (types_of env.now) is_there b parts.old.items parts.new.items) }
    ensures count { length parts.old.items ≡ length parts.new.items + counted is_there }
    ensures within { PartsBelow (size (table_of env.now)) parts.new.items }
    ensures bound { IfOk result (λ b. IfSome b (BoundBelow (size (table_of env.now)))) }
{
    if is_there {
        return match part_box(alloc, env.table(), take(env, parts)) {
            Ok(part) => Ok(Some(part)),
            Err(error) => Err(error),
        };
    }
    Ok(None)
}
