//! Nodes without parts.
//!
//! Go, "Operands", "Declarations and scope", "Constants". Own: a form that is not built yet is a fault
//! (0) at its first byte, whatever its parts are.

ghost use Rattle.std.specs.Prelude.{◌<◌, ◌^◌, pos, OnOk};
ghost use Rattle.go_type.specs.Table.{size};
ghost use Rattle.go_const.specs.declared.constant.Const.TheVariants as form;
ghost use Rattle.go_typing.specs.Answer.{bad};
ghost use Rattle.go_typing.specs.Literal as go;
ghost use Rattle.go_typing.specs.Operand.{untyped_constant};
ghost use Rattle.go_typing.specs.Typing.{name_row};
ghost use Rattle.go_operands.specs.EnvView.{table_of};
ghost use Rattle.go_calls.specs.CallView.{PartsBelow};
ghost use Rattle.go_calls.specs.Words.{types_of, scopes_of};
ghost use Rattle.go_expr.specs.Stacked.{Hears};

use crate::parts::stack::hear;
use gj_base::{NoMemory, Place, Text};
use go_calls::names::literal;
use go_calls::names::name::name;
use go_operands::answers::answer::Flaw;
use go_operands::answers::rule::bad;
use go_operands::operands::part::Part;
use go_operands::scopes::Env;
use std::alloc::Global;

/// A name.
pub fn named(
    alloc: Global,
    env: &Env,
    at: Place,
    text: &Text,
    parts: &mut Vec<Part>,
    flaws: &mut Vec<Flaw>,
) -> Result<(), NoMemory>
    requires parts { PartsBelow (size (table_of env.now)) parts.old.items }
    ensures does { OnOk result (Hears (types_of env.now) at (name_row at text.now (scopes_of env.now)) parts.old.items parts.new.items flaws.old.items flaws.new.items) }
    ensures within { OnOk result (PartsBelow (size (table_of env.now)) parts.new.items) }
{
    match name(alloc, env, at, text) {
        Ok(answer) => hear(alloc, env, at, answer, parts, flaws),
        Err(error) => Err(error),
    }
}

/// An integer literal.
pub fn int(
    alloc: Global,
    env: &Env,
    at: Place,
    text: &Text,
    parts: &mut Vec<Part>,
    flaws: &mut Vec<Flaw>,
) -> Result<(), NoMemory>
    requires parts { PartsBelow (size (table_of env.now)) parts.old.items }
    requires number { go.int_value text.now < 2 ^ 127 }
    ensures does { OnOk result (Hears (types_of env.now) at (untyped_constant (form.Int (pos (go.int_value text.now)))) parts.old.items parts.new.items flaws.old.items flaws.new.items) }
    ensures within { OnOk result (PartsBelow (size (table_of env.now)) parts.new.items) }
{
    match literal::int(text) {
        Some(answer) => hear(alloc, env, at, answer, parts, flaws),
        None => unreachable!(),
    }
}

/// A rune literal.
pub fn rune(
    alloc: Global,
    env: &Env,
    at: Place,
    text: &Text,
    parts: &mut Vec<Part>,
    flaws: &mut Vec<Flaw>,
) -> Result<(), NoMemory>
    requires parts { PartsBelow (size (table_of env.now)) parts.old.items }
    ensures does { OnOk result (Hears (types_of env.now) at (untyped_constant (form.Rune (pos (go.rune_value text.now)))) parts.old.items parts.new.items flaws.old.items flaws.new.items) }
    ensures within { OnOk result (PartsBelow (size (table_of env.now)) parts.new.items) }
{
    hear(alloc, env, at, literal::rune(text), parts, flaws)
}

/// A string literal.
pub fn string(
    alloc: Global,
    env: &Env,
    at: Place,
    text: &Text,
    parts: &mut Vec<Part>,
    flaws: &mut Vec<Flaw>,
) -> Result<(), NoMemory>
    requires parts { PartsBelow (size (table_of env.now)) parts.old.items }
    ensures does { OnOk result (Hears (types_of env.now) at (untyped_constant (form.Text text.now)) parts.old.items parts.new.items flaws.old.items flaws.new.items) }
    ensures within { OnOk result (PartsBelow (size (table_of env.now)) parts.new.items) }
{
    match literal::string(alloc, text) {
        Ok(answer) => hear(alloc, env, at, answer, parts, flaws),
        Err(error) => Err(error),
    }
}

/// A form that is not built yet.
pub fn unbuilt(
    alloc: Global,
    env: &Env,
    at: Place,
    parts: &mut Vec<Part>,
    flaws: &mut Vec<Flaw>,
) -> Result<(), NoMemory>
    requires parts { PartsBelow (size (table_of env.now)) parts.old.items }
    ensures does { OnOk result (Hears (types_of env.now) at (bad at 0) parts.old.items parts.new.items flaws.old.items flaws.new.items) }
    ensures within { OnOk result (PartsBelow (size (table_of env.now)) parts.new.items) }
{
    match bad(alloc, at, 0) {
        Ok(answer) => hear(alloc, env, at, answer, parts, flaws),
        Err(error) => Err(error),
    }
}
