//! What is asked of a program often, worked out once.

ghost use Rattle.std.specs.Prelude.{◌≡◌, ◌<◌, ◌++◌, ℕ, IfOk, IfSome, OnOk, Some, true, false, map, flat_map, slice_get};
ghost use Rattle.std.specs.List.{AllByRecursion};
ghost use Rattle.go_type.specs.Table.{places, size};
ghost use Rattle.go_core.specs.CoreView.{program_view, var_of};
ghost use Rattle.go_core.specs.CoreTree.{CoreProgram};
ghost use Rattle.go_type.specs.Levels.{tree_of};
ghost use Rattle.go_core.specs.SoundNode.{HasRows, IsRowOf};
ghost use Rattle.go_core.specs.SoundProgram.{all_vars, func_vars, initialiser_vars};
ghost use Rattle.go_sound_parts.specs.Measures.{AreKnown};
ghost use Rattle.go_sound_parts.specs.Index.{OwnRows};
ghost use Rattle.go_is_sound.specs.Facts.{ArePlaced, Holds, IsMarked, RowsFit, RowsKnown};
ghost use Rattle.go_is_sound.specs.Rows.{AreDeclared};

use crate::rows::{all_done, has_rows, mark_declared};
use crate::types::are_good;
use gj_base::NoMemory;
use go_core::node::{Var, VarId};
use go_core::program::{MethodRow, Program};
use go_core::tree::FuncId;
use go_sound_parts::index::{KeyIndex, has_each_row, row_index};
use go_sound_parts::levels::is_interface;
use go_sound_parts::measures::Measure;
use go_type::types::TypeId;
use std::alloc::Global;

/// What is known of a program.
#[derive(Drop)]
pub struct Facts {
    /// Where method rows stand.
    pub rows: KeyIndex,
    /// Of each function the place of a method row that leads to it.
    pub leads: Vec<u64>,
    /// Of each function whether a method row leads to it.
    pub is_method: Vec<bool>,
    /// Of each type whether each method of its method set has its row.
    pub has_rows: Vec<bool>,
    /// What each type holds by value.
    pub measures: Vec<Option<Measure>>,
    /// The variables of all functions, and then those of all initialisers.
    pub vars: Vec<Var>,
    /// Of each variable, by its number, the place among these.
    pub places: Vec<usize>,
}

// ---- functions that are methods

fn falses(alloc: Global, count: usize) -> Result<Vec<bool>, NoMemory>
    ensures is { IfOk result (λ v. (q : CoreProgram) → AreDeclared q v.items) }
{
    let mut list = Vec::new(alloc);
    'marks: for _ in 0..count {
        list.push(false)?;
    }
    Ok(list)
}

fn lead(leads: &mut [u64], id: FuncId, i: usize) {
    let at = id.0 as usize;
    if at < leads.len() {
        leads[at] = i as u64;
    }
}

fn leads_of(alloc: Global, p: &Program) -> Result<Vec<u64>, NoMemory> {
    let mut leads = Vec::new(alloc);
    for _ in 0..p.funcs.items.len() {
        leads.push(0)?;
    }
    for i in 0..p.methods.items.len() {
        lead(leads.as_mut_slice(), p.methods.items[i].func, i);
    }
    Ok(leads)
}

fn mark(is_method: &mut [bool], id: FuncId) {
    let at = id.0 as usize;
    if at < is_method.len() {
        is_method[at] = true;
    }
}

fn methods_of(alloc: Global, p: &Program) -> Result<Vec<bool>, NoMemory> {
    let mut is_method = falses(alloc, p.funcs.items.len())?;
    for row in &p.methods.items {
        mark(is_method.as_mut_slice(), row.func);
    }
    Ok(is_method)
}

fn is_marked(is_method: &[bool], row: &MethodRow) -> bool
    ensures is { result ≡ true → IsMarked is_method.now row.now }
{
    match is_method.get(row.func.0 as usize) {
        Some(found) => *found,
        None => false,
    }
}

fn all_marked(p: &Program, is_method: &[bool]) -> bool
    ensures is { result ≡ true → AllByRecursion (IsMarked is_method.now) p.now.methods.items.items }
{
    for row in &p.methods.items {
        if !is_marked(is_method, row) {
            return false;
        }
    }
    true
}

// Whether a function that isn't marked has no row.
fn are_marked(p: &Program, is_method: &[bool]) -> bool
    ensures is { result ≡ true → (k : ℕ) → slice_get is_method.now k ≡ Some false → IsRowOf (program_view p.now) k → ⊥ }
{
    all_marked(p, is_method)
}

// ---- types whose methods have rows

fn ask(asked: &mut [bool], t: TypeId) {
    if t.0 < asked.len() as u64 {
        asked[t.0 as usize] = true;
    }
}

// Of each type whether it has a row.
fn asked_of(alloc: Global, p: &Program) -> Result<Vec<bool>, NoMemory> {
    let mut asked = Vec::new(alloc);
    for _ in 0..p.types.len() {
        asked.push(false)?;
    }
    for row in &p.methods.items {
        ask(asked.as_mut_slice(), row.ty);
    }
    Ok(asked)
}

fn is_asked(asked: &[bool], t: TypeId) -> bool {
    match asked.get(t.0 as usize) {
        Some(found) => *found,
        None => false,
    }
}

// Whether the methods of a type have rows, which are marked. Nothing wraps a value of an interface
// type, so it isn't asked for methods where it has no row.
fn rows_at(
    alloc: Global,
    p: &Program,
    index: &KeyIndex,
    t: TypeId,
    asked: bool,
    done: &mut Vec<bool>,
) -> Result<bool, NoMemory>
    requires t { t.0 < size p.now.types }
    ensures known { let q = program_view p.now in OwnRows q → IfOk result (λ b. b ≡ true → HasRows q (tree_of (places p.now.types) t)) }
    ensures declared { let q = program_view p.now in AreDeclared q done.old.items → AreDeclared q done.new.items }
{
    if is_interface(&p.types, t) && !asked {
        return Ok(false);
    }
    let set = p.types.method_set(alloc, t)?;
    mark_declared(p, index, t, set.as_slice(), done);
    Ok(has_rows(p, index, t, set.as_slice()))
}

// Of each type whether its methods have rows; these rows are marked.
fn rows_of(
    alloc: Global,
    p: &Program,
    index: &KeyIndex,
    asked: &[bool],
    done: &mut Vec<bool>,
) -> Result<Vec<bool>, NoMemory>
    ensures known { OwnRows (program_view p.now) → IfOk result (λ v. RowsKnown p.now v.items (size p.now.types)) }
    ensures declared { let q = program_view p.now in AreDeclared q done.old.items → AreDeclared q done.new.items }
{
    let mut found = Vec::new(alloc);
    'types: for i in 0..p.types.len() {
        let has_rows = rows_at(alloc, p, index, TypeId(i), is_asked(asked, TypeId(i)), done)?;
        found.push(has_rows)?;
    }
    Ok(found)
}

// Of each type whether its methods have rows; nothing where two rows are those of one method, or a row
// is no method of its type.
fn known_rows(alloc: Global, p: &Program, index: &KeyIndex) -> Result<Option<Vec<bool>>, NoMemory>
    ensures is { IfOk result (λ o. IfSome o (λ v. RowsFit p.now v.items)) }
{
    if !has_each_row(p, index) {
        return Ok(None);
    }
    let asked = asked_of(alloc, p)?;
    let mut done = falses(alloc, p.methods.items.len())?;
    let has_rows = rows_of(alloc, p, index, asked.as_slice(), &mut done)?;
    if all_done(p, done.as_slice()) {
        Ok(Some(has_rows))
    } else {
        Ok(None)
    }
}

// ---- variables

fn push_vars(all: &mut Vec<Var>, vars: &[Var]) -> Result<(), NoMemory>
    ensures is { OnOk result (all.new.items ≡ all.old.items ++ vars.now) }
{
    for v in vars {
        all.push(*v)?;
    }
    Ok(())
}

fn push_func_vars(all: &mut Vec<Var>, p: &Program) -> Result<(), NoMemory>
    ensures is { let ts = places p.now.types in OnOk result (map (var_of ts) all.new.items ≡ map (var_of ts) all.old.items ++ flat_map func_vars (program_view p.now).funcs) }
{
    for f in &p.funcs.items {
        push_vars(all, f.vars.items.as_slice())?;
    }
    Ok(())
}

fn push_global_vars(all: &mut Vec<Var>, p: &Program) -> Result<(), NoMemory>
    ensures is { let ts = places p.now.types in OnOk result (map (var_of ts) all.new.items ≡ map (var_of ts) all.old.items ++ flat_map initialiser_vars (program_view p.now).globals) }
{
    for x in &p.globals.items {
        push_vars(all, x.vars.items.as_slice())?;
    }
    Ok(())
}

fn vars_of(alloc: Global, p: &Program) -> Result<Vec<Var>, NoMemory>
    ensures is { IfOk result (λ v. map (var_of (places p.now.types)) v.items ≡ all_vars (program_view p.now)) }
{
    let mut all = Vec::new(alloc);
    push_func_vars(&mut all, p)?;
    push_global_vars(&mut all, p)?;
    Ok(all)
}

// How many places a table of these variables has.
fn places_for(vars: &[Var]) -> u64 {
    let mut count = 0;
    for v in vars {
        if v.id.0 >= count {
            count = v.id.0.saturating_add(1);
        }
    }
    count
}

fn zeros(alloc: Global, count: u64) -> Result<Vec<usize>, NoMemory> {
    let mut places = Vec::new(alloc);
    for _ in 0..count {
        places.push(0)?;
    }
    Ok(places)
}

fn place(places: &mut [usize], v: VarId, i: usize) {
    if v.0 < places.len() as u64 {
        places[v.0 as usize] = i;
    }
}

fn places_of(alloc: Global, vars: &[Var], count: u64) -> Result<Vec<usize>, NoMemory> {
    let mut places = zeros(alloc, count)?;
    for i in 0..vars.len() {
        place(places.as_mut_slice(), vars[i].id, i);
    }
    Ok(places)
}

fn is_placed(vars: &[Var], places: &[usize], i: usize) -> bool
    ensures is { result ≡ true → (v : Var) → slice_get vars.now i ≡ Some v → slice_get places.now v.id.0 ≡ Some i }
{
    match vars.get(i) {
        Some(v) => match places.get(v.id.0 as usize) {
            Some(at) => *at == i,
            None => false,
        },
        None => false,
    }
}

// Whether each variable stands at the place of its number, so that no number stands twice.
fn are_placed(vars: &[Var], places: &[usize]) -> bool
    ensures is { result ≡ true → ArePlaced vars.now places.now }
{
    'vars: for i in 0..vars.len() {
        if !is_placed(vars, places, i) {
            return false;
        }
    }
    true
}

// ---- all of them

// What holds of these facts.
fn are_facts(p: &Program, facts: &Facts) -> bool
    ensures is { AreKnown (program_view p.now).names (places p.now.types) facts.now.measures.items → RowsFit p.now facts.now.has_rows.items → map (var_of (places p.now.types)) facts.now.vars.items ≡ all_vars (program_view p.now) → result ≡ true → Holds p.now facts.now }
{
    if !are_good(p, facts.measures.as_slice()) || !are_marked(p, facts.is_method.as_slice()) {
        return false;
    }
    are_placed(facts.vars.as_slice(), facts.places.as_slice())
}

/// What is known of a program; nothing where a type isn't good, a row is no method of its type, two rows
/// are those of one method, two variables have one number, or the numbers are further apart than ones
/// that are given one after another.
pub fn facts_of(
    alloc: Global,
    p: &Program,
    measures: Vec<Option<Measure>>,
) -> Result<Option<Facts>, NoMemory>
    ensures is { AreKnown (program_view p.now).names (places p.now.types) measures.items → IfOk result (λ o. IfSome o (λ f. Holds p.now f)) }
{
    let vars = vars_of(alloc, p)?;
    let count = places_for(vars.as_slice());
    if count > (vars.len() as u64).saturating_mul(16).saturating_add(65536) {
        return Ok(None);
    }
    let places = places_of(alloc, vars.as_slice(), count)?;
    let is_method = methods_of(alloc, p)?;
    let leads = leads_of(alloc, p)?;
    let rows = row_index(alloc, p)?;
    let Some(has_rows) = known_rows(alloc, p, &rows)? else {
        return Ok(None);
    };
    let facts = Facts {
        rows,
        leads,
        is_method,
        has_rows,
        measures,
        vars,
        places,
    };
    if are_facts(p, &facts) {
        Ok(Some(facts))
    } else {
        Ok(None)
    }
}
