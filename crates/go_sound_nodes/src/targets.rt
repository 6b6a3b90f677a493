//! Statements that hold no others: whether their expressions give what they take.
//!
//! Go, "Statements", "Assignments".

ghost use Rattle.std.specs.Prelude.{◌≡◌, IfSome, Some, true, List, [], ◌∷◌, ◌++◌, length, map, option_map};
ghost use Rattle.go_type.specs.declared.types.IntName.TheVariants as integer;
ghost use Rattle.go_type.specs.Tree as tree;
ghost use Rattle.go_type.specs.Tree.{Ty};
ghost use Rattle.go_type.specs.Levels.{tree_of, trees_of};
ghost use Rattle.go_type.specs.Table.{places, names};
ghost use Rattle.go_type.specs.Underlying.{underlying};
ghost use Rattle.go_core.specs.CoreView.{expr_view, exprs_view, option_var, program_view, target_view, var_of};
ghost use Rattle.go_core.specs.TypeOf.{all_types, listed_types, types_of};
ghost use Rattle.go_core.specs.Sound.{ArePrintable, IfThere, InScope, IsRanged, RangesKey, RangesValue, RangesElement, ReadsArray, ReceivesInto, Returns, SoundTarget, SoundTargets, Gives, IsMapOf, IsChannelOf};
ghost use Rattle.go_sound_nodes.specs.Around.{around, program_in, trees_in, vars_in};
ghost use Rattle.go_sound_parts.specs.Given.{given_of, item_of};
ghost use Rattle.go_sound_nodes.specs.Known.{Knows};

use crate::judge::Judge;
use crate::round::{Round, type_of};
use go_core::node::{CoreExpr, CoreExprs, Var};
use go_core::program::Program;
use go_core::statement::{Target, Targets};
use go_sound_parts::given::{Given, Item, Wanted, all_give, given_by, gives, takes_item};
use go_sound_parts::levels::{is_array, is_bool_type, is_int_type, is_printable, level_at, under};
use go_type::TypeTable;
use go_type::types::{GoType, IntName, TypeId};

/// How many values an expression gives.
pub fn counts(table: &TypeTable, e: &CoreExpr, count: u32) -> bool
    ensures is { result ≡ true → length (types_of (names table.now) (expr_view (places table.now) e.now)) ≡ count }
{
    match given_by(table, e) {
        Some(g) => match g {
            Given::One(_) => count == 1,
            Given::WithTruth(_) => count == 2,
            Given::Results(types) => types.len() == count as usize,
        },
        None => false,
    }
}

// ---- what is printed

fn are_printable(p: &Program, types: &[TypeId]) -> bool
    ensures is { result ≡ true → ArePrintable (program_view p.now) (listed_types (trees_of (places p.now.types) types.now)) }
{
    for t in types {
        if !is_printable(&p.types, *t) {
            return false;
        }
    }
    true
}

fn is_printable_item(p: &Program, item: Item) -> bool
    ensures is { result ≡ true → ArePrintable (program_view p.now) (item_of (places p.now.types) item ∷ []) }
{
    match item {
        Item::Of(t) => is_printable(&p.types, t),
        Item::PointerTo(_) => false,
        Item::Int => true,
        Item::Byte => true,
        Item::Bool => true,
    }
}

// Whether each value of an expression can be printed; one that is told to be there isn't.
fn prints(p: &Program, e: &CoreExpr) -> bool
    ensures is { let q = program_view p.now in result ≡ true → ArePrintable q (types_of q.names (expr_view (places p.now.types) e.now)) }
{
    match given_by(&p.types, e) {
        Some(g) => match g {
            Given::One(item) => is_printable_item(p, item),
            Given::WithTruth(_) => false,
            Given::Results(types) => are_printable(p, types),
        },
        None => false,
    }
}

/// Whether each value of expressions can be printed.
pub fn all_print(p: &Program, list: &CoreExprs) -> bool
    ensures is { let q = program_view p.now in result ≡ true → ArePrintable q (all_types q.names (exprs_view (places p.now.types) list.now)) }
{
    for e in &list.items {
        if !prints(p, e) {
            return false;
        }
    }
    true
}

// ---- ranges

// What a range over a slice, an array, a string or a map gives as its value.
fn is_range_value(p: &Program, from: TypeId, t: TypeId) -> bool
    ensures is { let q = program_view p.now in let ts = places p.now.types in result ≡ true → RangesValue q (underlying q.names (tree_of ts from)) (tree_of ts t) }
{
    match under(&p.types, from) {
        Some(GoType::Array(_, element)) => t.0 == element.0,
        Some(GoType::Slice(element)) => t.0 == element.0,
        Some(GoType::Pointer(array)) => is_element(p, *array, t),
        Some(GoType::Map(_, value)) => t.0 == value.0,
        Some(GoType::Str) => is_rune(&p.types, t),
        _ => false,
    }
}

fn is_element(p: &Program, array: TypeId, t: TypeId) -> bool
    ensures is { let q = program_view p.now in let ts = places p.now.types in result ≡ true → RangesElement (underlying q.names (tree_of ts array)) (tree_of ts t) }
{
    match under(&p.types, array) {
        Some(GoType::Array(_, element)) => t.0 == element.0,
        _ => false,
    }
}

fn is_rune(table: &TypeTable, t: TypeId) -> bool
    ensures is { result ≡ true → tree_of (places table.now) t ≡ tree.int integer.Int32 }
{
    match level_at(table, t) {
        Some(GoType::Int(name)) => match name {
            IntName::Int32 => true,
            _ => false,
        },
        _ => false,
    }
}

// What a range gives as its key.
fn is_range_key(p: &Program, from: TypeId, t: TypeId) -> bool
    ensures is { let q = program_view p.now in let ts = places p.now.types in result ≡ true → RangesKey (underlying q.names (tree_of ts from)) (tree_of ts t) }
{
    match under(&p.types, from) {
        Some(GoType::Map(key, _)) => t.0 == key.0,
        Some(_) => is_int_type(&p.types, t),
        None => false,
    }
}

/// Whether a range goes over the type.
pub fn is_ranged(p: &Program, from: TypeId) -> bool
    ensures is { let q = program_view p.now in let ts = places p.now.types in result ≡ true → IsRanged q (underlying q.names (tree_of ts from)) }
{
    match under(&p.types, from) {
        Some(GoType::Int(_)) => true,
        Some(GoType::Array(_, _)) => true,
        Some(GoType::Slice(_)) => true,
        Some(GoType::Pointer(array)) => is_array(&p.types, *array),
        Some(GoType::Str) => true,
        Some(GoType::Map(_, _)) => true,
        _ => false,
    }
}

fn in_scope(round: &Round<'_>, v: Var) -> bool
    ensures is { result ≡ true → (ts : List Ty) → InScope (vars_in ts round.now) (Some (var_of ts v)) }
{
    match type_of(round, v.id) {
        Some(t) => t.0 == v.ty.0,
        None => false,
    }
}

/// Whether a range's key goes to a variable.
pub fn key_goes(p: &Program, round: &Round<'_>, from: TypeId, key: &Option<Var>) -> bool
    ensures is { let q = program_view p.now in let ts = places p.now.types in result ≡ true → InScope (vars_in ts round.now) (option_var ts key.now) × IfThere (option_var ts key.now) (RangesKey (underlying q.names (tree_of ts from))) }
{
    match key {
        Some(v) => in_scope(round, *v) && is_range_key(p, from, v.ty),
        None => true,
    }
}

/// Whether a range's value goes to a variable.
pub fn value_goes(p: &Program, round: &Round<'_>, from: TypeId, value: &Option<Var>) -> bool
    ensures is { let q = program_view p.now in let ts = places p.now.types in result ≡ true → InScope (vars_in ts round.now) (option_var ts value.now) × IfThere (option_var ts value.now) (RangesValue q (underlying q.names (tree_of ts from))) }
{
    match value {
        Some(v) => in_scope(round, *v) && is_range_value(p, from, v.ty),
        None => true,
    }
}

/// Whether a range over the array of a pointer has a value.
pub fn reads_array(p: &Program, from: TypeId, value: &Option<Var>) -> bool
    ensures is { let q = program_view p.now in let ts = places p.now.types in result ≡ true → ReadsArray (underlying q.names (tree_of ts from)) (option_var ts value.now) }
{
    match under(&p.types, from) {
        Some(GoType::Pointer(_)) => match value {
            Some(_) => true,
            None => false,
        },
        Some(_) => true,
        None => false,
    }
}

// ---- what is received

fn receives(table: &TypeTable, element: TypeId, vars: &[Var]) -> bool
    ensures is { let ts = places table.now in result ≡ true → ReceivesInto (tree_of ts element) (map (var_of ts) vars.now) }
{
    match vars {
        [] => true,
        [v] => v.ty.0 == element.0,
        [v, ok] => v.ty.0 == element.0 && is_bool_type(table, ok.ty),
        _ => false,
    }
}

// The type of what goes through a channel of the type.
fn element_of(p: &Program, channel: TypeId) -> Option<TypeId>
    ensures is { let q = program_view p.now in let ts = places p.now.types in IfSome result (λ t. IsChannelOf (underlying q.names (tree_of ts channel)) (tree_of ts t)) }
{
    match under(&p.types, channel) {
        Some(GoType::Chan(_, element)) => Some(*element),
        _ => None,
    }
}

/// Whether what a channel gives goes to variables.
pub fn receives_into(p: &Program, channel: TypeId, vars: &[Var]) -> bool
    ensures is { let q = program_view p.now in let ts = places p.now.types in result ≡ true → (u : Ty) × IsChannelOf (underlying q.names (tree_of ts channel)) u × ReceivesInto u (map (var_of ts) vars.now) }
{
    match element_of(p, channel) {
        Some(element) => receives(&p.types, element, vars),
        None => false,
    }
}

// ---- left sides

// The types of a map type's keys and values.
fn entry_of(p: &Program, t: TypeId) -> Option<(TypeId, TypeId)>
    ensures is { let q = program_view p.now in let ts = places p.now.types in IfSome result (λ r. IsMapOf (underlying q.names (tree_of ts t)) (tree_of ts r.0) (tree_of ts r.1)) }
{
    match under(&p.types, t) {
        Some(GoType::Map(key, value)) => Some((*key, *value)),
        _ => None,
    }
}

// Whether a value is one for a key of a map type.
fn entry_fits(p: &Program, t: TypeId, key: &CoreExpr, item: Item) -> bool
    ensures is { let q = program_view p.now in let ts = places p.now.types in result ≡ true → (k : Ty) × Gives q (expr_view ts key.now) k × IsMapOf (underlying q.names (tree_of ts t)) k (item_of ts item) }
{
    match entry_of(p, t) {
        Some(entry) => gives(&p.types, key, entry.0) && takes_item(&p.types, entry.1, item),
        None => false,
    }
}

impl<'a> Judge<'a> {
    // Whether a left side takes a value.
    fn takes(&self, round: &Round<'_>, target: &Target, item: Item) -> bool
        ensures is { let ts = trees_in self.now in Knows self.now → result ≡ true → SoundTarget (program_in self.now) (around self.now round.now) (target_view ts target.now) (item_of ts item) }
    {
        match target {
            Target::Blank => true,
            Target::Place { ty, place } => {
                self.place(round, place)
                    && self.lies(round, place, *ty)
                    && takes_item(&self.program.types, *ty, item)
            }
            Target::Entry {
                map_type,
                operand,
                key,
            } => {
                self.expr(round, operand)
                    && self.expr(round, key)
                    && gives(&self.program.types, operand, *map_type)
                    && entry_fits(self.program, *map_type, key, item)
            }
        }
    }

    // The left sides after the one that takes a value.
    fn after_value<'t>(
        &self,
        round: &Round<'_>,
        targets: &'t [Target],
        item: Item,
    ) -> Option<&'t [Target]>
        ensures is { let ts = trees_in self.now in Knows self.now → IfSome result (λ rest. (us : List Ty) → SoundTargets (program_in self.now) (around self.now round.now) (map (target_view ts) rest.now) us → SoundTargets (program_in self.now) (around self.now round.now) (map (target_view ts) targets.now) (item_of ts item ∷ us)) }
    {
        match targets.split_first() {
            Some((target, rest)) => if self.takes(round, target, item) {
                Some(rest)
            } else {
                None
            },
            None => None,
        }
    }

    // The left sides after those that take values of these types.
    fn after_values<'t>(
        &self,
        round: &Round<'_>,
        targets: &'t [Target],
        types: &[TypeId],
    ) -> Option<&'t [Target]>
        ensures is { let ts = trees_in self.now in Knows self.now → IfSome result (λ rest. (us : List Ty) → SoundTargets (program_in self.now) (around self.now round.now) (map (target_view ts) rest.now) us → SoundTargets (program_in self.now) (around self.now round.now) (map (target_view ts) targets.now) (listed_types (trees_of ts types.now) ++ us)) }
    {
        match types.split_first() {
            Some((t, others)) => match self.after_value(round, targets, Item::Of(*t)) {
                Some(rest) => self.after_values(round, rest, others),
                None => None,
            },
            None => Some(targets),
        }
    }

    // The left sides after those that take what an expression gives.
    fn after_given<'t>(
        &self,
        round: &Round<'_>,
        targets: &'t [Target],
        g: Given<'_>,
    ) -> Option<&'t [Target]>
        ensures is { let ts = trees_in self.now in Knows self.now → IfSome result (λ rest. (us : List Ty) → SoundTargets (program_in self.now) (around self.now round.now) (map (target_view ts) rest.now) us → SoundTargets (program_in self.now) (around self.now round.now) (map (target_view ts) targets.now) (given_of ts g.entry ++ us)) }
    {
        match g {
            Given::One(item) => self.after_value(round, targets, item),
            Given::WithTruth(t) => match self.after_value(round, targets, Item::Of(t)) {
                Some(rest) => self.after_value(round, rest, Item::Bool),
                None => None,
            },
            Given::Results(types) => self.after_values(round, targets, types),
        }
    }

    // The left sides after those that take an expression's values.
    fn after_expr<'t>(
        &self,
        round: &Round<'_>,
        targets: &'t [Target],
        e: &CoreExpr,
    ) -> Option<&'t [Target]>
        ensures is { let q = program_in self.now in let ts = trees_in self.now in Knows self.now → IfSome result (λ rest. (us : List Ty) → SoundTargets q (around self.now round.now) (map (target_view ts) rest.now) us → SoundTargets q (around self.now round.now) (map (target_view ts) targets.now) (types_of q.names (expr_view ts e.now) ++ us)) }
    {
        match given_by(&self.program.types, e) {
            Some(g) => self.after_given(round, targets, g),
            None => None,
        }
    }

    /// Whether left sides take what expressions give.
    pub fn all_take(&self, round: &Round<'_>, targets: &Targets, list: &CoreExprs) -> bool
        ensures is { let q = program_in self.now in let ts = trees_in self.now in Knows self.now → result ≡ true → SoundTargets q (around self.now round.now) (map (target_view ts) targets.now.items.items) (all_types q.names (exprs_view ts list.now)) }
    {
        let mut rest = targets.items.as_slice();
        for e in &list.items {
            match self.after_expr(round, rest, e) {
                Some(others) => rest = others,
                None => return false,
            }
        }
        rest.is_empty()
    }

    /// Whether values are what the function returns: nothing where the results have names.
    pub fn returns(&self, list: &CoreExprs) -> bool
        ensures is { let q = program_in self.now in let ts = trees_in self.now in result ≡ true → Returns (trees_of ts self.now.results.now) (all_types q.names (exprs_view ts list.now)) }
    {
        list.items.is_empty() || all_give(&self.program.types, list, Wanted::Types(self.results))
    }
}
