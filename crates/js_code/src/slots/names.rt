//! Names once each, in the order in which they stand first: ECMA-262 5.1, 10.5.

ghost use Rattle.std.specs.Prelude.{◌≡◌, [], OnOk, IfOk, map, length};
ghost use Rattle.js_tree.specs.Evaluate as part;
ghost use Rattle.js_tree.specs.View.{stmt_view, stmts_view, else_view, cases_view, function_view, item_view};
ghost use Rattle.js_code.specs.Names.{with_name, with_names, distinct, index_in, function_names, global_names, names_of};

use gj_base::{NoMemory, Text};
use indexmap::IndexSet;
use js_tree::{JsCases, JsElse, JsFunction, JsItem, JsStmt, JsStmts, StmtForm};
use std::alloc::Global;

/// Names, each with its slot. A look-up takes the same time however many they are.
#[derive(Drop)]
pub struct Names<'a> {
    set: IndexSet<&'a Text>,
}

impl<'a> Names<'a> {
    /// No names.
    pub fn new(alloc: Global) -> Names<'a>
        ensures { names_of result.set.keys ≡ [] }
    {
        Names {
            set: IndexSet::new(alloc),
        }
    }

    /// How many there are.
    pub fn len(&self) -> usize
        ensures { result ≡ length (names_of self.now.set.keys) }
    {
        self.set.len()
    }

    /// Adds a name, unless it is there.
    pub fn insert(&mut self, x: &'a Text) -> Result<(), NoMemory>
        ensures value { OnOk result (names_of self.new.set.keys ≡ with_name (names_of self.old.set.keys) x.now) }
    {
        self.set.insert(x)?;
        Ok(())
    }

    /// The slot of a name.
    pub fn slot(&self, x: &'a Text) -> Option<usize>
        ensures value { result ≡ index_in (names_of self.now.set.keys) x.now }
    {
        self.set.get_index_of(&x)
    }
}

#[tactic(auto, using(crate::specs::NameLaws::with_names_append))]
#[cycle(declared)]
fn add_stmt<'a>(names: &mut Names<'a>, s: &'a JsStmt) -> Result<(), NoMemory>
    ensures value { OnOk result (names_of names.new.set.keys ≡ with_names (names_of names.old.set.keys) (part.declared (stmt_view s.now))) }
{
    match &s.form {
        StmtForm::Declare(x, _) => names.insert(x),
        StmtForm::If(_, body, other) => {
            add_stmts(names, body)?;
            add_else(names, other)
        }
        StmtForm::While(_, _, body) => add_stmts(names, body),
        StmtForm::Forever(_, body) => add_stmts(names, body),
        StmtForm::Switch(_, _, list) => add_cases(names, list),
        StmtForm::Try(body, handler) => {
            add_stmts(names, body)?;
            add_stmts(names, handler)
        }
        _ => Ok(()),
    }
}

#[tactic(auto, using(crate::specs::NameLaws::with_names_append))]
#[cycle(declared)]
fn add_stmts<'a>(names: &mut Names<'a>, ss: &'a JsStmts) -> Result<(), NoMemory>
    ensures value { OnOk result (names_of names.new.set.keys ≡ with_names (names_of names.old.set.keys) (part.declared_all (stmts_view ss.now))) }
{
    for s in &ss.items {
        add_stmt(names, s)?;
    }
    Ok(())
}

#[tactic(auto, using(crate::specs::NameLaws::with_names_append))]
#[cycle(declared)]
fn add_else<'a>(names: &mut Names<'a>, other: &'a JsElse) -> Result<(), NoMemory>
    ensures value { OnOk result (names_of names.new.set.keys ≡ with_names (names_of names.old.set.keys) (part.declared_else (else_view other.now))) }
{
    match other {
        JsElse::Nothing => Ok(()),
        JsElse::Block(body) => add_stmts(names, body),
        JsElse::ElseIf(next) => {
            add_stmts(names, &next.body)?;
            add_else(names, &next.rest)
        }
    }
}

#[tactic(auto, using(crate::specs::NameLaws::with_names_append))]
#[cycle(declared)]
fn add_cases<'a>(names: &mut Names<'a>, list: &'a JsCases) -> Result<(), NoMemory>
    ensures value { OnOk result (names_of names.new.set.keys ≡ with_names (names_of names.old.set.keys) (part.declared_cases (cases_view list.now))) }
{
    for c in &list.items {
        add_stmts(names, &c.body)?;
    }
    match &list.default {
        Some(body) => add_stmts(names, body),
        None => Ok(()),
    }
}

/// A function's locals: its parameters, and what has a `var` in it.
#[tactic(auto, using(crate::specs::NameLaws::with_names_append))]
pub fn locals_in<'a>(alloc: Global, f: &'a JsFunction) -> Result<Names<'a>, NoMemory>
    ensures value { IfOk result (λ n. names_of n.set.keys ≡ distinct (part.scope_of (function_view f.now)).names) }
{
    let mut names = Names::new(alloc);
    for x in &f.params {
        names.insert(x)?;
    }
    add_stmts(&mut names, &f.body)?;
    Ok(names)
}

/// The functions of a script.
pub fn functions_in<'a>(alloc: Global, items: &'a [JsItem]) -> Result<Names<'a>, NoMemory>
    ensures value { IfOk result (λ n. names_of n.set.keys ≡ distinct (function_names (map item_view items.now))) }
{
    let mut names = Names::new(alloc);
    for item in items {
        if let JsItem::Function(f) = item {
            names.insert(&f.name)?;
        }
    }
    Ok(names)
}

/// The top-level variables of a script.
pub fn globals_in<'a>(alloc: Global, items: &'a [JsItem]) -> Result<Names<'a>, NoMemory>
    ensures value { IfOk result (λ n. names_of n.set.keys ≡ distinct (global_names (map item_view items.now))) }
{
    let mut names = Names::new(alloc);
    for item in items {
        if let JsItem::Global(x, _, _) = item {
            names.insert(x)?;
        }
    }
    Ok(names)
}
