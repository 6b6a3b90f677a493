//! The types of what calls give. Of a function with one result that is its type, else the tuple of all.
//!
//! The table of types gets the tuples before an expression is typed, and stays as it is from then on: so
//! what parts stand for stays too.

ghost use Rattle.std.specs.Prelude.{◌≡◌, ◌≤◌, ◌<◌, ℕ, List, None, Some, OnOk, IfOk, IfSome, MatchOption, bytes_eq, if◌then◌else◌};
ghost use Rattle.go_type.specs.Levels.{tree_of, trees_of, IdsBelow};
ghost use Rattle.go_type.specs.Table.{places, size, name_count, KeepsTrees};
ghost use Rattle.go_syntax.specs.View.{expr_view};
ghost use Rattle.go_typing.specs.Env.{lookup};
ghost use Rattle.go_operands.specs.EnvView.{table_of, env_of, KeepsLiterals};
ghost use Rattle.go_calls.specs.Words.{types_of, scopes_of};
ghost use Rattle.go_calls.specs.Called.{texts, called_in};
ghost use Rattle.go_calls.specs.ResultTypes.{gives_at, results_in, results_of, only_of, GivesThese, AreRight, IsGiven, AreGiven, HasMore};
ghost use Rattle.go_calls.specs.declared.callee.gives.Gives.{Gives};

use crate::callee::names::add_called;
use gj_base::{NoMemory, Text};
use go_operands::scopes::{Declared, Env};
use go_syntax::tree::Expr;
use go_type::Ids;
use go_type::types::{GoType, TypeId};
use indexmap::IndexMap;
use std::alloc::Global;

/// Types by the names of functions. A look-up takes the same time however many there are.
#[derive(Drop)]
pub struct Gives {
    by_name: IndexMap<Vec<u8>, TypeId>,
}

impl Gives {
    /// None; takes no memory.
    pub fn new(alloc: Global) -> Gives
        ensures { (y : List ℕ) → gives_at y result ≡ None }
    {
        Gives {
            by_name: IndexMap::new(alloc),
        }
    }

    /// The type of what the function of a name gives, if it has one here.
    pub fn get(&self, name: &Text) -> Option<TypeId>
        ensures value { result ≡ gives_at name.now self.now }
    {
        self.by_name.get(name.as_bytes()).copied()
    }

    // A name gets this type.
    fn insert(&mut self, alloc: Global, name: &Text, t: TypeId) -> Result<(), NoMemory>
        ensures value { OnOk result ((y : List ℕ) → gives_at y self.new ≡ (if bytes_eq y name.now then Some t else gives_at y self.old)) }
    {
        let key = Vec::from_slice(alloc, name.as_bytes())?;
        self.by_name.insert(key, t)?;
        Ok(())
    }
}

// The one result's type.
fn only(results: &[TypeId]) -> Option<TypeId>
    ensures value { result ≡ only_of results.now }
{
    match results {
        [t] => Some(*t),
        _ => None,
    }
}

// The results of a function.
fn copied(alloc: Global, what: &Declared) -> Result<Option<Ids>, NoMemory>
    ensures value { IfOk result (λ o. o ≡ results_of what.now) }
{
    match what {
        Declared::Func(_, sig) => {
            let results = Vec::from_slice(alloc, sig.results.as_slice())?;
            Ok(Some(Ids::from_vec(results)))
        }
        Declared::Var(_, _) => Ok(None),
        Declared::Global(_, _) => Ok(None),
        Declared::Const(_, _) => Ok(None),
        Declared::TypeName(_) => Ok(None),
        Declared::Import(_) => Ok(None),
        Declared::Builtin(_) => Ok(None),
        Declared::Nil => Ok(None),
        Declared::Refused(_) => Ok(None),
        Declared::Unknown => Ok(None),
    }
}

// The results of the function of a name, if it is one.
fn results_of(alloc: Global, env: &Env, name: &Text) -> Result<Option<Ids>, NoMemory>
    ensures within { IfOk result (λ o. IfSome o (IdsBelow (size (table_of env.now)))) }
    ensures value { IfOk result (λ o. IfSome o (λ ids. results_in (lookup name.now (scopes_of env.now)) ≡ trees_of (types_of env.now) ids)) }
    ensures none { IfOk result (λ o. o ≡ None → (g : Gives) → IsGiven (scopes_of env.now) g name.now) }
{
    match env.lookup(name.as_bytes()) {
        Some(what) => copied(alloc, what),
        None => Ok(None),
    }
}

// The type of what a call with these results gives.
fn type_given(env: &mut Env, results: Ids) -> Result<TypeId, NoMemory>
    requires within { IdsBelow (size (table_of env.old)) results }
    ensures right { IfOk result (GivesThese (table_of env.new) (trees_of (types_of env.old) results)) }
    ensures env { env_of env.new ≡ env_of env.old }
    ensures kept { KeepsTrees (table_of env.old) (table_of env.new) }
    ensures counts { (size (table_of env.old) ≤ size (table_of env.new)) × (name_count (table_of env.new) ≡ name_count (table_of env.old)) }
    ensures literals { KeepsLiterals env.old env.new }
{
    if let Some(t) = only(results.as_slice()) {
        return Ok(t);
    }
    env.add(GoType::Tuple(results))
}

// The type of what the function of a name gives, if it is one.
fn add(alloc: Global, env: &mut Env, name: &Text, gives: &mut Gives) -> Result<(), NoMemory>
    requires right { AreRight (scopes_of env.old) (table_of env.old) gives.old }
    ensures right { OnOk result (AreRight (scopes_of env.new) (table_of env.new) gives.new) }
    ensures given { OnOk result (IsGiven (scopes_of env.new) gives.new name.now) }
    ensures more { OnOk result (HasMore (scopes_of env.new) gives.old gives.new) }
    ensures env { env_of env.new ≡ env_of env.old }
    ensures kept { KeepsTrees (table_of env.old) (table_of env.new) }
    ensures counts { (size (table_of env.old) ≤ size (table_of env.new)) × (name_count (table_of env.new) ≡ name_count (table_of env.old)) }
    ensures literals { KeepsLiterals env.old env.new }
{
    if gives.get(name).is_some() {
        return Ok(());
    }
    match results_of(alloc, env, name)? {
        Some(results) => {
            let t = type_given(env, results)?;
            gives.insert(alloc, name, t)
        }
        None => Ok(()),
    }
}

fn add_each(
    alloc: Global,
    env: &mut Env,
    names: &[&Text],
    gives: &mut Gives,
) -> Result<(), NoMemory>
    requires right { AreRight (scopes_of env.old) (table_of env.old) gives.old }
    ensures right { OnOk result (AreRight (scopes_of env.new) (table_of env.new) gives.new) }
    ensures given { OnOk result (AreGiven (scopes_of env.new) gives.new (texts names.now)) }
    ensures env { env_of env.new ≡ env_of env.old }
    ensures kept { KeepsTrees (table_of env.old) (table_of env.new) }
    ensures counts { (size (table_of env.old) ≤ size (table_of env.new)) × (name_count (table_of env.new) ≡ name_count (table_of env.old)) }
    ensures literals { KeepsLiterals env.old env.new }
{
    for name in names {
        add(alloc, env, *name, gives)?;
    }
    Ok(())
}

/// The types of what the calls in an expression give. Where memory runs out the table may have more
/// types, and keeps those that it had.
pub fn gives_of(alloc: Global, env: &mut Env, e: &Expr) -> Result<Gives, NoMemory>
    ensures right { IfOk result (AreRight (scopes_of env.new) (table_of env.new)) }
    ensures given { IfOk result (λ g. AreGiven (scopes_of env.new) g (called_in (expr_view e.now))) }
    ensures env { env_of env.new ≡ env_of env.old }
    ensures kept { KeepsTrees (table_of env.old) (table_of env.new) }
    ensures counts { (size (table_of env.old) ≤ size (table_of env.new)) × (name_count (table_of env.new) ≡ name_count (table_of env.old)) }
    ensures literals { KeepsLiterals env.old env.new }
{
    let mut names = Vec::new(alloc);
    add_called(&mut names, e)?;
    let mut gives = Gives::new(alloc);
    add_each(alloc, env, names.as_slice(), &mut gives)?;
    Ok(gives)
}
