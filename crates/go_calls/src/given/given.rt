//! What a call is given: one value for each argument, or the several values of one call.
//!
//! Go, "Calls": the several values of one call may be the arguments of another.

ghost use Rattle.std.specs.Prelude.{◌≡◌, ◌<◌, ◌∷◌, ◌++◌, [], IsTrue, IsFalse, IfOk, OnOk, map};
ghost use Rattle.go_type.specs.Table.{places, size};
ghost use Rattle.go_typing.specs.Answer.{all_known};
ghost use Rattle.go_type.specs.Levels.{tree_of};
ghost use Rattle.go_typing.specs.Operand.{single};
ghost use Rattle.go_typing.specs.Call.{values_of};
ghost use Rattle.go_typing.specs.Wanted.{no_value, no_values, operand_in, operands_of};
ghost use Rattle.go_operands.specs.AnswerView.{flaw_view, answer_view};
ghost use Rattle.go_operands.specs.Below.{AnswerBelow};
ghost use Rattle.go_operands.specs.Parts.{part_view, PartBelow};
ghost use Rattle.go_calls.specs.CallView.{parts_view, PartsBelow, operands_view, placed_view, AllBelow, PlacedBelow, given_view, GivenBelow, OperandsBelow};
ghost use Rattle.go_calls.specs.GivenView.{is_value, is_one, is_some, is_several, has_several, given_or_not, given_by, operands_or_not, operands_given};

use crate::given::gone::{gone_all, gone_parts, gone_placed};
use crate::given::kinds::{Given, Operands, Placed};
use gj_base::NoMemory;
use go_operands::answers::answer::{Answer, Flaw, Flaws};
use go_operands::answers::gone::gone_answer;
use go_operands::answers::rule::{and_flaw, is_known};
use go_operands::operands::operand::single;
use go_operands::operands::part::Part;
use go_type::TypeTable;
use go_type::types::{GoType, TypeId};
use std::alloc::Global;

/// Whether each part is typed.
pub fn all_known(table: &TypeTable, parts: &[Part]) -> bool
    ensures { result ≡ all_known (parts_view (places table.now) parts.now) }
{
    let _ = table;
    let mut rest = parts;
    'parts: while let Some((part, others)) = rest.split_first() {
        if !is_known(&part.answer) {
            return false;
        }
        rest = others;
    }
    true
}

/// Whether each part is typed; lets them go.
pub fn were_known(table: &TypeTable, parts: Vec<Part>) -> bool
    ensures { result ≡ all_known (parts_view (places table.now) parts.items) }
{
    let known = all_known(table, parts.as_slice());
    gone_parts(parts);
    known
}

// Whether a value is a single one.
fn is_single(table: &TypeTable, t: TypeId) -> bool
    requires { t.0 < size table.now }
    ensures { result ≡ is_one (tree_of (places table.now) t) }
{
    match table.get(t) {
        GoType::Tuple(_) => false,
        _ => true,
    }
}

// Whether a node has a single value.
#[tactic(auto, using(crate::proofs::GivenGivenLemmas::one_is))]
fn is_value(table: &TypeTable, answer: &Answer) -> bool
    requires within { AnswerBelow (size table.now) answer.now }
    ensures { result ≡ is_value (single (answer_view (places table.now) answer.now)) }
{
    match answer {
        Answer::Value(found) => is_single(table, found.ty),
        Answer::Constant(_) | Answer::Truth(_) | Answer::Nil | Answer::Pending(_, _) => true,
        _ => false,
    }
}

// The fault of a part that is no value, added to others.
#[tactic(auto, using(crate::proofs::GivenGivenLemmas::value_there, crate::proofs::GivenGivenLemmas::value_missing))]
fn and_no_value(
    alloc: Global,
    table: &TypeTable,
    part: &Part,
    flaws: &mut Vec<Flaw>,
) -> Result<(), NoMemory>
    requires within { PartBelow (size table.now) part.now }
    ensures value { OnOk result (map flaw_view flaws.new.items ≡ map flaw_view flaws.old.items ++ no_value part.now.place (single (answer_view (places table.now) part.now.answer))) }
{
    if is_value(table, &part.answer) {
        return Ok(());
    }
    and_flaw(alloc, flaws, part.place, 52)
}

// The faults of the parts that are no values, in order.
fn no_values(alloc: Global, table: &TypeTable, parts: &[Part]) -> Result<Vec<Flaw>, NoMemory>
    requires within { PartsBelow (size table.now) parts.now }
    ensures value { IfOk result (λ fs. map flaw_view fs.items ≡ no_values (parts_view (places table.now) parts.now)) }
{
    let mut flaws = Vec::new(alloc);
    let mut rest = parts;
    'parts: while let Some((part, others)) = rest.split_first() {
        and_no_value(alloc, table, part, &mut flaws)?;
        rest = others;
    }
    Ok(flaws)
}

fn and_placed(table: &TypeTable, placed: Placed, operands: &mut Vec<Placed>) -> Result<(), NoMemory>
    requires within { PlacedBelow (size table.now) placed }
    requires operands { AllBelow (size table.now) operands.old.items }
    ensures view { OnOk result (operands_view (places table.now) operands.new.items ≡ placed_view (places table.now) placed ∷ operands_view (places table.now) operands.old.items) }
    ensures within { AllBelow (size table.now) operands.new.items }
{
    let _ = table;
    match operands.push(placed) {
        Ok(()) => Ok(()),
        Err(refused) => {
            gone_placed(refused.value);
            Err(NoMemory)
        }
    }
}

// The value of a part, if it is one, before those of the parts after it.
fn and_operand(table: &TypeTable, part: Part, operands: &mut Vec<Placed>) -> Result<(), NoMemory>
    requires within { PartBelow (size table.now) part }
    requires operands { AllBelow (size table.now) operands.old.items }
    ensures view { OnOk result (operands_view (places table.now) operands.new.items ≡ operand_in part.place (single (answer_view (places table.now) part.answer)) ++ operands_view (places table.now) operands.old.items) }
    ensures within { AllBelow (size table.now) operands.new.items }
{
    let Part { place, answer } = part;
    match single(table, answer) {
        Some(value) => and_placed(table, Placed { place, value }, operands),
        None => Ok(()),
    }
}

fn all_operands(
    table: &TypeTable,
    parts: &mut Vec<Part>,
    operands: &mut Vec<Placed>,
) -> Result<(), NoMemory>
    requires within { PartsBelow (size table.now) parts.old.items }
    requires operands { AllBelow (size table.now) operands.old.items }
    ensures view { OnOk result (operands_view (places table.now) operands.new.items ≡ operands_of (parts_view (places table.now) parts.old.items) ++ operands_view (places table.now) operands.old.items) }
    ensures within { AllBelow (size table.now) operands.new.items }
{
    'parts: while let Some(part) = parts.pop() {
        and_operand(table, part, operands)?;
    }
    Ok(())
}

// The values of parts, the last one first.
fn placed(alloc: Global, table: &TypeTable, parts: Vec<Part>) -> Result<Vec<Placed>, NoMemory>
    requires within { PartsBelow (size table.now) parts.items }
    ensures view { IfOk result (λ xs. operands_view (places table.now) xs.items ≡ operands_of (parts_view (places table.now) parts.items)) }
    ensures within { IfOk result (λ xs. AllBelow (size table.now) xs.items) }
{
    let mut parts = parts;
    let mut operands = Vec::new(alloc);
    let answer = all_operands(table, &mut parts, &mut operands);
    gone_parts(parts);
    match answer {
        Ok(()) => Ok(operands),
        Err(error) => {
            gone_all(operands);
            Err(error)
        }
    }
}

/// The operands of a call, as far as each argument is one.
pub fn operands_of(alloc: Global, table: &TypeTable, parts: Vec<Part>) -> Result<Operands, NoMemory>
    requires within { PartsBelow (size table.now) parts.items }
    ensures view { IfOk result (λ r. operands_or_not (places table.now) r ≡ operands_given (parts_view (places table.now) parts.items)) }
    ensures within { IfOk result (λ r. OperandsBelow (size table.now) r) }
{
    if !all_known(table, parts.as_slice()) {
        gone_parts(parts);
        return Ok(Operands::Unknown);
    }
    match no_values(alloc, table, parts.as_slice()) {
        Ok(items) => {
            if !items.is_empty() {
                gone_parts(parts);
                return Ok(Operands::Refused(Flaws { items }));
            }
            match placed(alloc, table, parts) {
                Ok(operands) => Ok(Operands::Each(operands)),
                Err(error) => Err(error),
            }
        }
        Err(error) => {
            gone_parts(parts);
            Err(error)
        }
    }
}

// Whether a type is the tuple of several values.
#[tactic(auto, using(crate::proofs::GivenGivenLemmas::more_than_one, crate::proofs::GivenGivenLemmas::one_at_most))]
fn is_several(table: &TypeTable, t: TypeId) -> bool
    requires { t.0 < size table.now }
    ensures { result ≡ is_several (tree_of (places table.now) t) }
{
    match table.get(t) {
        GoType::Tuple(ids) => {
            if ids.as_slice().len() > 1 {
                return true;
            }
            false
        }
        _ => false,
    }
}

// Whether a part is the several values of a call.
#[tactic(auto, using(crate::proofs::GivenGivenLemmas::several_is))]
fn gives_several(table: &TypeTable, part: &Part) -> bool
    requires within { PartBelow (size table.now) part.now }
    ensures { result ≡ is_some (values_of (answer_view (places table.now) part.now.answer)) }
{
    match &part.answer {
        Answer::Value(found) => is_several(table, found.ty),
        _ => false,
    }
}

// Whether the one part is the several values of a call.
#[tactic(auto, using(crate::proofs::GivenGivenLemmas::has_more, crate::proofs::GivenGivenLemmas::has_alone))]
fn has_several(table: &TypeTable, parts: &[Part]) -> bool
    requires within { PartsBelow (size table.now) parts.now }
    ensures { result ≡ has_several (parts_view (places table.now) parts.now) }
{
    match parts.split_first() {
        Some((part, others)) => {
            if others.is_empty() {
                return gives_several(table, part);
            }
            false
        }
        None => false,
    }
}

#[tactic(auto, using(crate::proofs::GivenGivenLemmas::several_given))]
fn several_of(table: &TypeTable, part: Part) -> Given
    requires within { PartBelow (size table.now) part }
    requires several { IsTrue (has_several (part_view (places table.now) part ∷ [])) }
    ensures view { given_view (places table.now) result ≡ given_or_not (part_view (places table.now) part ∷ []) }
    ensures within { GivenBelow (size table.now) result }
{
    let _ = table;
    let Part { place, answer } = part;
    match answer {
        Answer::Value(found) => Given::Several(place, found),
        other => {
            gone_answer(other);
            Given::Unknown
        }
    }
}

// The several values of the one part.
fn several(table: &TypeTable, parts: Vec<Part>) -> Given
    requires within { PartsBelow (size table.now) parts.items }
    requires several { IsTrue (has_several (parts_view (places table.now) parts.items)) }
    ensures view { given_view (places table.now) result ≡ given_or_not (parts_view (places table.now) parts.items) }
    ensures within { GivenBelow (size table.now) result }
{
    let mut parts = parts;
    let part = parts.take_last();
    gone_parts(parts);
    several_of(table, part)
}

// What a call is given that has no several values.
#[tactic(auto, using(crate::proofs::GivenGivenLemmas::each_given))]
fn each(alloc: Global, table: &TypeTable, parts: Vec<Part>) -> Result<Given, NoMemory>
    requires within { PartsBelow (size table.now) parts.items }
    requires each { IsFalse (has_several (parts_view (places table.now) parts.items)) }
    ensures view { IfOk result (λ g. given_view (places table.now) g ≡ given_or_not (parts_view (places table.now) parts.items)) }
    ensures within { IfOk result (λ g. GivenBelow (size table.now) g) }
{
    match operands_of(alloc, table, parts) {
        Ok(operands) => Ok(given_of(table, operands)),
        Err(error) => Err(error),
    }
}

fn given_of(table: &TypeTable, operands: Operands) -> Given
    requires within { OperandsBelow (size table.now) operands }
    ensures view { given_view (places table.now) result ≡ given_by (operands_or_not (places table.now) operands) }
    ensures within { GivenBelow (size table.now) result }
{
    let _ = table;
    match operands {
        Operands::Each(operands) => Given::Each(operands),
        Operands::Refused(flaws) => Given::Refused(flaws),
        Operands::Unknown => Given::Unknown,
    }
}

/// What a call is given.
pub fn given(alloc: Global, table: &TypeTable, parts: Vec<Part>) -> Result<Given, NoMemory>
    requires within { PartsBelow (size table.now) parts.items }
    ensures view { IfOk result (λ g. given_view (places table.now) g ≡ given_or_not (parts_view (places table.now) parts.items)) }
    ensures within { IfOk result (λ g. GivenBelow (size table.now) g) }
{
    if has_several(table, parts.as_slice()) {
        return Ok(several(table, parts));
    }
    each(alloc, table, parts)
}
