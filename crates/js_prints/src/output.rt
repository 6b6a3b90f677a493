//! What a print statement prints.

ghost use Rattle.std.specs.Prelude.{◌≡◌, ◌++◌, [], ◌∷◌, IfOk, OnOk, IsTrue, List, map};
ghost use Rattle.std.specs.List.{list_all};
ghost use Rattle.js_tree.specs.Printable.{is_byte};
ghost use Rattle.go_type.specs.Tree.{Ty};
ghost use Rattle.go_core.specs.CoreView.{expr_view, exprs_of};
ghost use Rattle.go_core.specs.Text.{line_of, rest_of_line, joined};
ghost use Rattle.js_prints.specs.Emitted.{output, text_in, texts_in};

use gj_base::{NoMemory, Text};
use go_core::node::{Constant, CoreExpr, CoreForm};
use std::alloc::Global;

/// The bytes that a print of constant strings writes.
pub fn printed(alloc: Global, operands: &[CoreExpr], ends_line: bool) -> Result<Text, NoMemory>
    ensures value { IfOk result (λ t. (ts : List Ty) → t ≡ output ends_line (texts_in (exprs_of (map (expr_view ts) operands.now)))) }
    ensures bytes { IfOk result (λ t. IsTrue (list_all is_byte t)) }
{
    if ends_line {
        line(alloc, operands)
    } else {
        side_by_side(alloc, operands)
    }
}

// The operands with a space between two of them, and a newline at the end.
fn line(alloc: Global, operands: &[CoreExpr]) -> Result<Text, NoMemory>
    ensures value { IfOk result (λ t. (ts : List Ty) → t ≡ line_of (texts_in (exprs_of (map (expr_view ts) operands.now)))) }
    ensures bytes { IfOk result (λ t. IsTrue (list_all is_byte t)) }
{
    let mut text = Text::new(alloc);
    let [first, others @ ..] = operands else {
        text.push(b'\n')?;
        return Ok(text);
    };
    push_operand(&mut text, first)?;
    push_rest(&mut text, others)?;
    Ok(text)
}

// The operands after the first, each after a space, and the line's end.
fn push_rest(text: &mut Text, others: &[CoreExpr]) -> Result<(), NoMemory>
    ensures value { OnOk result ((ts : List Ty) → text.new ≡ text.old ++ rest_of_line (texts_in (exprs_of (map (expr_view ts) others.now)))) }
    ensures bytes { OnOk result (IsTrue (list_all is_byte text.old) → IsTrue (list_all is_byte text.new)) }
{
    for operand in others {
        text.push(b' ')?;
        push_operand(text, operand)?;
    }
    text.push(b'\n')?;
    Ok(())
}

// The operands with nothing between them.
fn side_by_side(alloc: Global, operands: &[CoreExpr]) -> Result<Text, NoMemory>
    ensures value { IfOk result (λ t. (ts : List Ty) → t ≡ joined (texts_in (exprs_of (map (expr_view ts) operands.now)))) }
    ensures bytes { IfOk result (λ t. IsTrue (list_all is_byte t)) }
{
    let mut text = Text::new(alloc);
    for operand in operands {
        push_operand(&mut text, operand)?;
    }
    Ok(text)
}

/// A text and the end of its line.
pub fn text_line(alloc: Global, text: &[u8]) -> Result<Text, NoMemory>
    ensures value { IfOk result (λ t. t ≡ line_of (text.now ∷ [])) }
    ensures bytes { IfOk result (λ t. IsTrue (list_all is_byte t)) }
{
    let mut line = Text::new(alloc);
    push_bytes(&mut line, text)?;
    line.push(b'\n')?;
    Ok(line)
}

// Adds what an operand prints.
fn push_operand(text: &mut Text, operand: &CoreExpr) -> Result<(), NoMemory>
    ensures value { OnOk result ((ts : List Ty) → text.new ≡ text.old ++ text_in (expr_view ts operand.now)) }
    ensures bytes { OnOk result (IsTrue (list_all is_byte text.old) → IsTrue (list_all is_byte text.new)) }
{
    push_bytes(text, text_of(operand))
}

// The bytes of a constant string, and none of anything else.
fn text_of(operand: &CoreExpr) -> &[u8]
    ensures value { (ts : List Ty) → result.now ≡ text_in (expr_view ts operand.now) }
{
    match &*operand.form {
        CoreForm::Const {
            value: Constant::Text(text),
            ..
        } => text.as_bytes(),
        _ => &[],
    }
}

// Adds bytes.
fn push_bytes(text: &mut Text, bytes: &[u8]) -> Result<(), NoMemory>
    ensures value { OnOk result (text.new ≡ text.old ++ bytes.now) }
    ensures bytes { OnOk result (IsTrue (list_all is_byte text.old) → IsTrue (list_all is_byte text.new)) }
{
    text.push_bytes(bytes)
}
