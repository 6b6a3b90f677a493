//! The environment of a program that is checked: its types, the scopes of its packages, and the
//! scopes that are open.
//!
//! Go, "Blocks", "Declarations and scope".

ghost use Rattle.std.specs.Prelude.{◌≡◌};
ghost use Rattle.go_type.specs.Table.{size};
ghost use Rattle.go_operands.specs.Held.{Held};
ghost use Rattle.go_operands.specs.Holds.{held, held_blocks, held_packages};
ghost use Rattle.go_operands.specs.Within.{HeldsBelow, ScopesBelow, PackagesBelow};
ghost use Rattle.go_operands.specs.ScopesReady.{Begins};
ghost use Rattle.go_operands.specs.Props.{HeldsBelow-prop, ScopesBelow-prop, PackagesBelow-prop, Begins-prop};

use crate::scopes::blocks::Blocks;
use crate::scopes::declared::Declared;
use crate::scopes::iota::Iota;
use crate::scopes::packages::Packages;
use crate::scopes::scope::Scope;
use crate::scopes::universe::universe;
use gj_base::{NoMemory, Place, Text};
use go_core::FuncId;
use go_type::TypeTable;
use go_type::types::{GoType, NamedId, Sig, TypeId};
use indexmap::IndexMap;
use std::alloc::Global;

/// Types and scopes.
///
/// In a package the scopes of its files, functions and blocks that are open lie within one another. A
/// declaration goes to the innermost scope: the last that is open, else that of the package, else the
/// universe.
#[derive(Drop)]
pub struct Env {
    table: TypeTable,
    universe: Scope,
    packages: Packages,
    current: Option<Text>,
    blocks: Blocks,
    iota: Iota,
    literals: IndexMap<Place, FuncId>,
    pub ghost begins: { Begins table } by { Begins-prop table },
    pub ghost universe_within: { HeldsBelow (size table) (held universe) } by { HeldsBelow-prop (size table) (held universe) },
    pub ghost packages_within: { PackagesBelow (size table) (held_packages packages) } by { PackagesBelow-prop (size table) (held_packages packages) },
    pub ghost blocks_within: { ScopesBelow (size table) (held_blocks blocks) } by { ScopesBelow-prop (size table) (held_blocks blocks) },
}

impl Env {
    ghost use Rattle.std.specs.Prelude.{ℕ, ◌<◌, ◌≤◌, ◌++◌, [], ◌∷◌, Option, Some, IsTrue, IfOk, IfSome, OnOk, OnErr, option_map, bytes_eq, if◌then◌else◌};
    ghost use Rattle.gj_base.specs.declared.place.Place.{Place};
    ghost use Rattle.go_type.specs.Levels.{level, tree_of, Below, SigBelow};
    ghost use Rattle.go_type.specs.Named.{IsUnnamed, SetsName, new_name, with_under, with_method, method_with};
    ghost use Rattle.go_type.specs.Table.{places, names, name_count, IsAdded, KeepsTrees};
    ghost use Rattle.go_operands.specs.RulesReady.{HasPredeclared};
    ghost use Rattle.go_typing.specs.Env.{lookup};
    ghost use Rattle.go_typing.specs.Scopes.{new_env, visible, entered, pushed, popped, counting, innermost, place_in, declared, settled};
    ghost use Rattle.go_operands.specs.View.{decl_of, bind_of};
    ghost use Rattle.go_operands.specs.Within.{DeclaredBelow};
    ghost use Rattle.go_operands.specs.EnvView.{table_of, env_of, number_at, same_place, what_current, place_current, with_types, KeepsRest, KeepsLiterals};
    ghost use Rattle.go_operands.specs.Origin.{origin};

    /// The universe scope alone. The table begins with the predeclared types, as each does that
    /// `TypeTable::new` gave.
    pub fn new(alloc: Global, table: TypeTable) -> Result<Env, NoMemory>
        requires { HasPredeclared table }
        ensures value { IfOk result (λ e. env_of e ≡ new_env (names table)) }
        ensures table { IfOk result (λ e. table_of e ≡ table) }
        ensures literals { IfOk result (λ e. (q : Place) → number_at q e ≡ None) }
    {
        let universe = universe(alloc)?;
        Ok(Env {
            table,
            universe,
            packages: Packages::new(alloc),
            current: None,
            blocks: Blocks::new(alloc),
            iota: Iota::new(None),
            literals: IndexMap::new(alloc),
        })
    }

    // ---- scopes

    /// Leaves all scopes, and enters that of a package, which is empty where it is new. A refusal
    /// leaves all as it was.
    pub fn enter(&mut self, path: &Text) -> Result<(), NoMemory>
        ensures value { OnOk result (env_of self.new ≡ entered path.now (env_of self.old)) }
        ensures same { OnErr result (env_of self.new ≡ env_of self.old) }
        ensures rest { KeepsRest self.old self.new }
    {
        let current = path.clone()?;
        self.packages.enter(path.as_bytes())?;
        self.current = Some(current);
        self.blocks.clear();
        Ok(())
    }

    /// Opens a scope. A refusal leaves all as it was.
    pub fn push(&mut self) -> Result<(), NoMemory>
        ensures value { OnOk result (env_of self.new ≡ pushed (env_of self.old)) }
        ensures same { OnErr result (env_of self.new ≡ env_of self.old) }
        ensures rest { KeepsRest self.old self.new }
    {
        self.blocks.push()
    }

    /// Closes the scope that was opened last, if one is open.
    pub fn pop(&mut self)
        ensures value { env_of self.new ≡ popped (env_of self.old) }
        ensures rest { KeepsRest self.old self.new }
    {
        self.blocks.pop();
    }

    /// Says which constant specification is typed next, or that none is.
    ///
    /// Go, "Iota".
    pub fn count(&mut self, number: Option<u64>)
        ensures value { env_of self.new ≡ counting number (env_of self.old) }
        ensures rest { KeepsRest self.old self.new }
    {
        self.iota = Iota::new(number);
    }

    // ---- declarations

    /// Declares a name in the innermost scope. Where that scope has the name, nothing changes, and its
    /// earlier place is told. A refusal leaves all as it was.
    ///
    /// Go, "Declarations and scope".
    pub fn declare(
        &mut self,
        name: Text,
        place: Place,
        what: Declared,
    ) -> Result<Option<Place>, NoMemory>
        requires { DeclaredBelow (size (table_of self.old)) what }
        ensures answer { IfOk result (λ r. r ≡ place_in name (innermost (env_of self.old))) }
        ensures value { OnOk result (env_of self.new ≡ declared (bind_of (places (table_of self.old)) (record { name = name; place = place; what = what })) (env_of self.old)) }
        ensures same { OnErr result (env_of self.new ≡ env_of self.old) }
        ensures rest { KeepsRest self.old self.new }
    {
        if self.blocks.len() > 0 {
            return self.blocks.declare(name, place, what);
        }
        match &self.current {
            Some(path) => self.packages.declare(path.as_bytes(), name, place, what),
            None => self.universe.declare(name, place, what),
        }
    }

    /// Changes what a name of the innermost scope stands for. One that isn't there stays so.
    pub fn settle(&mut self, name: &Text, what: Declared)
        requires { DeclaredBelow (size (table_of self.old)) what }
        ensures value { env_of self.new ≡ settled name.now (decl_of (places (table_of self.old)) what) (env_of self.old) }
        ensures rest { KeepsRest self.old self.new }
    {
        if self.blocks.len() > 0 {
            self.blocks.settle(name.as_bytes(), what);
            return;
        }
        match &self.current {
            Some(path) => self.packages.settle(path.as_bytes(), name.as_bytes(), what),
            None => self.universe.settle(name.as_bytes(), what),
        }
    }

    /// What a name stands for: the innermost scope that has it decides.
    ///
    /// Go, "Declarations and scope".
    pub fn lookup(&self, name: &[u8]) -> Option<&Declared>
        ensures value { option_map (λ d. decl_of (places (table_of self.now)) d.now) result ≡ lookup name.now (visible (env_of self.now)) }
        ensures within { IfSome result (λ d. DeclaredBelow (size (table_of self.now)) d.now) }
    {
        if let Some(what) = self.blocks.find(name) {
            return Some(what);
        }
        if let Some(what) = self.in_package(name) {
            return Some(what);
        }
        if let Some(what) = self.universe.find(name) {
            return Some(what);
        }
        self.iota.find(name)
    }

    // What a name stands for in the scope of the package.
    fn in_package(&self, name: &[u8]) -> Option<&Declared>
        ensures value { option_map (λ d. d.now) result ≡ what_current name.now self.now.current (held_packages self.now.packages) }
    {
        match &self.current {
            Some(path) => self.packages.find(path.as_bytes(), name),
            None => None,
        }
    }

    /// Where a name is declared in the innermost scope.
    pub fn place(&self, name: &[u8]) -> Option<Place>
        ensures value { result ≡ place_in name.now (innermost (env_of self.now)) }
    {
        if self.blocks.len() > 0 {
            return self.blocks.place(name);
        }
        match &self.current {
            Some(path) => self.packages.place(path.as_bytes(), name),
            None => self.universe.place(name),
        }
    }

    /// Where the declaration stands that a name stands for: the innermost one. Predeclared names stand
    /// nowhere, which is the start of the first file.
    pub fn origin(&self, name: &[u8]) -> Option<Place>
        ensures value { result ≡ origin name.now (visible (env_of self.now)) }
    {
        if let Some(place) = self.blocks.origin(name) {
            return Some(place);
        }
        if let Some(place) = self.place_in_package(name) {
            return Some(place);
        }
        if let Some(place) = self.universe.place(name) {
            return Some(place);
        }
        self.iota.place(name)
    }

    // Where a name is declared in the scope of the package.
    fn place_in_package(&self, name: &[u8]) -> Option<Place>
        ensures value { result ≡ place_current name.now self.now.current (held_packages self.now.packages) }
    {
        match &self.current {
            Some(path) => self.packages.place(path.as_bytes(), name),
            None => None,
        }
    }

    // ---- function literals

    /// Sets the number of the function literal at a place. A refusal leaves all as it was.
    pub fn literal(&mut self, place: Place, id: FuncId) -> Result<(), NoMemory>
        ensures value { OnOk result ((q : Place) → number_at q self.new ≡ (if same_place place q then Some id else number_at q self.old)) }
        ensures same { OnErr result ((q : Place) → number_at q self.new ≡ number_at q self.old) }
        ensures env { env_of self.new ≡ env_of self.old }
        ensures table { table_of self.new ≡ table_of self.old }
    {
        self.literals.insert(place, id)?;
        Ok(())
    }

    /// The number of the function literal at a place, if it is set.
    pub fn number(&self, place: Place) -> Option<FuncId>
        ensures value { result ≡ number_at place self.now }
    {
        self.literals.get(&place).copied()
    }

    // ---- types

    /// The types.
    pub fn table(&self) -> &TypeTable
        ensures value { result.now ≡ table_of self.now }
        ensures predeclared { HasPredeclared result.now }
    {
        &self.table
    }

    /// The types.
    pub fn into_table(self) -> TypeTable
        ensures value { result ≡ table_of self }
    {
        self.table
    }

    /// The id of a type, as `TypeTable::add` gives it. A refusal leaves all as it was.
    pub fn add(&mut self, t: GoType) -> Result<TypeId, NoMemory>
        requires { Below (size (table_of self.old)) (name_count (table_of self.old)) t }
        ensures tree { IfOk result (λ id. tree_of (places (table_of self.new)) id ≡ level (places (table_of self.old)) t) }
        ensures within { IfOk result (λ id. id.0 < size (table_of self.new)) }
        ensures kept { KeepsTrees (table_of self.old) (table_of self.new) }
        ensures counts { (size (table_of self.old) ≤ size (table_of self.new)) × (name_count (table_of self.new) ≡ name_count (table_of self.old)) }
        ensures same { OnErr result (places (table_of self.new) ≡ places (table_of self.old)) }
        ensures env { env_of self.new ≡ env_of self.old }
        ensures literals { KeepsLiterals self.old self.new }
    {
        self.table.add(t)
    }

    /// A new named type, which stands for nothing yet. A refusal leaves all as it was.
    pub fn add_named(&mut self, name: Text, package: Text) -> Result<NamedId, NoMemory>
        ensures id { IfOk result (λ id. id.0 ≡ name_count (table_of self.old)) }
        ensures within { IfOk result (λ id. id.0 < name_count (table_of self.new)) }
        ensures env { OnOk result (env_of self.new ≡ with_types (names (table_of self.old) ++ new_name name «package» ∷ []) (env_of self.old)) }
        ensures places { places (table_of self.new) ≡ places (table_of self.old) }
        ensures counts { (size (table_of self.new) ≡ size (table_of self.old)) × (name_count (table_of self.old) ≤ name_count (table_of self.new)) }
        ensures same { OnErr result (env_of self.new ≡ env_of self.old) }
        ensures literals { KeepsLiterals self.old self.new }
    {
        self.table.add_named(name, package)
    }

    /// Says what a named type stands for; takes no memory.
    pub fn set_named(&mut self, id: NamedId, under: TypeId)
        requires id { id.0 < name_count (table_of self.old) }
        requires under { under.0 < size (table_of self.old) }
        requires unnamed { IsUnnamed (tree_of (places (table_of self.old)) under) }
        ensures names { SetsName (names (table_of self.old)) id.0 (with_under (tree_of (places (table_of self.old)) under)) (names (table_of self.new)) }
        ensures env { env_of self.new ≡ with_types (names (table_of self.new)) (env_of self.old) }
        ensures places { places (table_of self.new) ≡ places (table_of self.old) }
        ensures counts { (size (table_of self.new) ≡ size (table_of self.old)) × (name_count (table_of self.new) ≡ name_count (table_of self.old)) }
        ensures literals { KeepsLiterals self.old self.new }
    {
        self.table.set_named(id, under);
    }

    /// One more method of a named type. A refusal leaves all as it was.
    pub fn add_method(
        &mut self,
        id: NamedId,
        name: Text,
        pointer: bool,
        sig: Sig,
    ) -> Result<(), NoMemory>
        requires id { id.0 < name_count (table_of self.old) }
        requires sig { SigBelow (size (table_of self.old)) sig }
        ensures names { OnOk result (SetsName (names (table_of self.old)) id.0 (with_method (method_with (places (table_of self.old)) name pointer sig)) (names (table_of self.new))) }
        ensures env { OnOk result (env_of self.new ≡ with_types (names (table_of self.new)) (env_of self.old)) }
        ensures places { places (table_of self.new) ≡ places (table_of self.old) }
        ensures counts { (size (table_of self.new) ≡ size (table_of self.old)) × (name_count (table_of self.new) ≡ name_count (table_of self.old)) }
        ensures same { OnErr result (env_of self.new ≡ env_of self.old) }
        ensures literals { KeepsLiterals self.old self.new }
    {
        self.table.add_method(id, name, pointer, sig)
    }
}
