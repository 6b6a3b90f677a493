//! What a script must keep to before it runs: ECMA-262 5.1, 12.7, 12.8, 12.12 and 16.

ghost use Rattle.std.specs.Prelude.{◌≡◌, ◌++◌, [], ◌∷◌, Some, OnOk, IfOk, map};
ghost use Rattle.js_tree.specs.Static as rule;
ghost use Rattle.js_tree.specs.Value as run;
ghost use Rattle.js_tree.specs.View.{stmt_view, stmts_view, else_view, cases_view, function_view, item_view, script_view};
ghost use Rattle.js_eval.specs.Seen.{names_of};
ghost use Rattle.js_eval.specs.Faults.{arounds_of, item_name, item_faults, least_more};

use crate::flows::is_target;
use crate::names::holds;
use gj_base::{NoMemory, Text};
use js_tree::{JsCases, JsElse, JsFunction, JsItem, JsStmt, JsStmts, Script, StmtForm};
use std::alloc::Global;

/// A loop or a `switch` around a statement, with its label.
#[derive(Clone, Copy)]
pub struct Around<'a> {
    pub is_loop: bool,
    pub label: &'a Option<Text>,
}

fn can_break(label: &Option<Text>, around: &[Around]) -> bool
    ensures value { result ≡ rule.can_break label.now (arounds_of around.now) }
{
    for a in around {
        if is_target(label, a.label) {
            return true;
        }
    }
    false
}

fn can_continue(label: &Option<Text>, around: &[Around]) -> bool
    ensures value { result ≡ rule.can_continue label.now (arounds_of around.now) }
{
    for a in around {
        if a.is_loop && is_target(label, a.label) {
            return true;
        }
    }
    false
}

fn repeats(label: &Option<Text>, around: &[Around]) -> bool
    ensures value { result ≡ rule.repeats label.now (arounds_of around.now) }
{
    match label {
        None => false,
        Some(_) => can_break(label, around),
    }
}

// Adds an offset where a rule is broken.
fn add_if(faults: &mut Vec<u32>, at: u32, is_broken: bool) -> Result<(), NoMemory>
    ensures value { OnOk result (faults.new.items ≡ faults.old.items ++ rule.fault_if at is_broken) }
{
    if is_broken {
        faults.push(at)?;
    }
    Ok(())
}

fn inside<'a>(
    alloc: Global,
    is_loop: bool,
    label: &'a Option<Text>,
    around: &[Around<'a>],
) -> Result<Vec<Around<'a>>, NoMemory>
    ensures value { IfOk result (λ all. arounds_of all.items ≡ rule.inside is_loop label.now (arounds_of around.now)) }
{
    let mut all = Vec::new(alloc);
    all.push(Around { is_loop, label })?;
    all.extend_from_slice(around)?;
    Ok(all)
}

#[cycle(faults)]
fn stmt_faults<'a>(
    alloc: Global,
    faults: &mut Vec<u32>,
    around: &[Around<'a>],
    s: &'a JsStmt,
) -> Result<(), NoMemory>
    ensures value { OnOk result (faults.new.items ≡ faults.old.items ++ rule.stmt_faults (arounds_of around.now) (stmt_view s.now)) }
{
    match &s.form {
        StmtForm::If(_, body, other) => {
            stmts_faults(alloc, faults, around, body)?;
            else_faults(alloc, faults, around, other)
        }
        StmtForm::While(label, _, body) => {
            add_if(faults, s.at, repeats(label, around))?;
            let inner = inside(alloc, true, label, around)?;
            stmts_faults(alloc, faults, inner.as_slice(), body)
        }
        StmtForm::Forever(label, body) => {
            add_if(faults, s.at, repeats(label, around))?;
            let inner = inside(alloc, true, label, around)?;
            stmts_faults(alloc, faults, inner.as_slice(), body)
        }
        StmtForm::Switch(label, _, list) => {
            add_if(faults, s.at, repeats(label, around))?;
            let inner = inside(alloc, false, label, around)?;
            cases_faults(alloc, faults, inner.as_slice(), list)
        }
        StmtForm::Break(label) => add_if(faults, s.at, !can_break(label, around)),
        StmtForm::Continue(label) => add_if(faults, s.at, !can_continue(label, around)),
        StmtForm::Try(body, handler) => {
            stmts_faults(alloc, faults, around, body)?;
            stmts_faults(alloc, faults, around, handler)
        }
        _ => Ok(()),
    }
}

#[cycle(faults)]
fn stmts_faults<'a>(
    alloc: Global,
    faults: &mut Vec<u32>,
    around: &[Around<'a>],
    ss: &'a JsStmts,
) -> Result<(), NoMemory>
    ensures value { OnOk result (faults.new.items ≡ faults.old.items ++ rule.stmts_faults (arounds_of around.now) (stmts_view ss.now)) }
{
    for s in &ss.items {
        stmt_faults(alloc, faults, around, s)?;
    }
    Ok(())
}

#[cycle(faults)]
fn else_faults<'a>(
    alloc: Global,
    faults: &mut Vec<u32>,
    around: &[Around<'a>],
    other: &'a JsElse,
) -> Result<(), NoMemory>
    ensures value { OnOk result (faults.new.items ≡ faults.old.items ++ rule.else_faults (arounds_of around.now) (else_view other.now)) }
{
    match other {
        JsElse::Nothing => Ok(()),
        JsElse::Block(body) => stmts_faults(alloc, faults, around, body),
        JsElse::ElseIf(next) => {
            stmts_faults(alloc, faults, around, &next.body)?;
            else_faults(alloc, faults, around, &next.rest)
        }
    }
}

#[cycle(faults)]
fn cases_faults<'a>(
    alloc: Global,
    faults: &mut Vec<u32>,
    around: &[Around<'a>],
    list: &'a JsCases,
) -> Result<(), NoMemory>
    ensures value { OnOk result (faults.new.items ≡ faults.old.items ++ rule.cases_faults (arounds_of around.now) (cases_view list.now)) }
{
    for c in &list.items {
        stmts_faults(alloc, faults, around, &c.body)?;
    }
    match &list.default {
        Some(body) => stmts_faults(alloc, faults, around, body),
        None => Ok(()),
    }
}

fn is_one_of(x: &[u8], names: &[Text]) -> bool
    ensures value { result ≡ run.holds x.now names.now }
{
    for name in names {
        if x == name.as_bytes() {
            return true;
        }
    }
    false
}

fn has_twice(names: &[Text]) -> bool
    ensures value { result ≡ rule.has_twice names.now }
{
    for (i, x) in names.iter().enumerate() {
        if is_one_of(x.as_bytes(), &names[i + 1..]) {
            return true;
        }
    }
    false
}

fn function_faults(alloc: Global, faults: &mut Vec<u32>, f: &JsFunction) -> Result<(), NoMemory>
    ensures value { OnOk result (faults.new.items ≡ faults.old.items ++ rule.function_faults (function_view f.now)) }
{
    add_if(faults, f.at, has_twice(f.params.as_slice()))?;
    stmts_faults(alloc, faults, &[], &f.body)
}

fn is_preamble(x: &[u8]) -> bool
    ensures value { result ≡ run.holds x.now rule.preamble_names }
{
    if x == b"$fs".as_slice() {
        return true;
    }
    if x == b"$write".as_slice() {
        return true;
    }
    if x == b"$pick".as_slice() {
        return true;
    }
    x == b"$end".as_slice()
}

// Whether a top-level name is one of the preamble, or one that came before.
fn is_taken(x: &[u8], before: &[&Text]) -> bool
    ensures value { result ≡ run.holds x.now (names_of before.now ++ rule.preamble_names) }
{
    holds(x, before) || is_preamble(x)
}

fn name_of<'a>(item: &'a JsItem) -> &'a Text
    ensures value { result.now ≡ item_name (item_view item.now) }
{
    match item {
        JsItem::Function(f) => &f.name,
        JsItem::Global(x, _, _) => x,
    }
}

fn item_faults(
    alloc: Global,
    faults: &mut Vec<u32>,
    before: &[&Text],
    item: &JsItem,
) -> Result<(), NoMemory>
    ensures value { OnOk result (faults.new.items ≡ faults.old.items ++ item_faults (names_of before.now) (item_view item.now)) }
{
    match item {
        JsItem::Function(f) => {
            add_if(faults, f.at, is_taken(f.name.as_bytes(), before))?;
            function_faults(alloc, faults, f)
        }
        JsItem::Global(x, _, at) => add_if(faults, *at, is_taken(x.as_bytes(), before)),
    }
}

fn with_first<'a>(alloc: Global, x: &'a Text, names: &[&'a Text]) -> Result<Vec<&'a Text>, NoMemory>
    ensures value { IfOk result (λ all. names_of all.items ≡ x.now ∷ names_of names.now) }
{
    let mut all = Vec::new(alloc);
    all.push(x)?;
    all.extend_from_slice(names)?;
    Ok(all)
}

fn items_faults(alloc: Global, items: &[JsItem]) -> Result<Vec<u32>, NoMemory>
    ensures value { IfOk result (λ faults. faults.items ≡ rule.items_faults rule.preamble_names (map item_view items.now)) }
{
    let mut faults = Vec::new(alloc);
    let mut before = Vec::new(alloc);
    for item in items {
        item_faults(alloc, &mut faults, before.as_slice(), item)?;
        before = with_first(alloc, name_of(item), before.as_slice())?;
    }
    Ok(faults)
}

// The lesser of an offset and one before it, if there is one.
fn lesser(found: Option<u32>, at: u32) -> u32
    ensures value { Some result ≡ least_more found (at ∷ []) }
{
    match found {
        Some(n) => n.min(at),
        None => at,
    }
}

fn least(faults: &[u32]) -> Option<u32>
    ensures value { result ≡ rule.least faults.now }
{
    let mut found = None;
    for at in faults {
        found = Some(lesser(found, *at));
    }
    found
}

/// The least offset at which a script breaks a rule.
pub fn static_fault(alloc: Global, script: &Script) -> Result<Option<u32>, NoMemory>
    ensures value { IfOk result (λ at. at ≡ rule.static_fault (script_view script.now)) }
{
    let faults = items_faults(alloc, script.items.as_slice())?;
    Ok(least(faults.as_slice()))
}
