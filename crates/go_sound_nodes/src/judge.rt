//! What a look at a body knows, and what it asks of it.

ghost use Rattle.std.specs.Prelude.{◌≡◌, IfSome, Some, ℕ, List, map, option_map, true, Contains, slice_get};
ghost use Rattle.go_type.specs.Tree as tree;
ghost use Rattle.go_type.specs.Tree.{Ty, Tys};
ghost use Rattle.go_type.specs.Levels.{tree_of, trees_of};
ghost use Rattle.go_type.specs.Underlying.{underlying};
ghost use Rattle.go_core.specs.CoreTree as core;
ghost use Rattle.go_core.specs.CoreView.{var_of, id_of, method_of, constant_of, func_view, callee_view, expr_view, exprs_view, place_view};
ghost use Rattle.go_core.specs.TypeOf.{types_of, one_type, var_type};
ghost use Rattle.go_core.specs.SoundNode.{AreInScope, AreDeclarable, IsGoodType, IsInterface, AnswersTo, HasRows, IsRowOf, HasFuncType, HasMethodType, IsSignature, IsConversion, Calls, IsGateField, IsField, under_one, method_at};
ghost use Rattle.go_core.specs.Sound.{Gives, MayCompare};
ghost use Rattle.go_sound_nodes.specs.Around.{around, program_in, trees_in, vars_in};
ghost use Rattle.go_sound_nodes.specs.Known.{Knows};

use crate::round::{Round, is_in_scope};
use go_core::node::{CoreExpr, MethodName, Var, VarId};
use go_core::program::{Func, Program};
use go_core::tree::FuncId;
use go_sound_parts::given::{Item, gives, single};
use go_sound_parts::index::KeyIndex;
use go_sound_parts::levels::{is_concrete, level_at};
use go_sound_parts::measures::{Measure, is_comparable};
use go_sound_parts::methods::{answers_to, func_at, interface_method, method, same_signature};
use go_sound_parts::parts::one_is_zero;
use go_type::TypeTable;
use go_type::types::{GoType, Sig, TypeId};
use std::alloc::Global;

/// A look at a body or at an initialiser.
#[derive(Clone, Copy)]
pub struct Judge<'a> {
    pub program: &'a Program,
    pub alloc: Global,
    /// Where method rows stand.
    pub rows: &'a KeyIndex,
    /// Of each function whether a method row leads to it.
    pub is_method: &'a [bool],
    /// Of each type whether each method of its method set has its row.
    pub has_rows: &'a [bool],
    /// What each type holds by value.
    pub measures: &'a [Option<Measure>],
    /// The variables that may be declared.
    pub declarable: &'a [Var],
    /// Of each variable its place among all, and the place of the first that may be declared.
    pub places: &'a [usize],
    pub first: usize,
    pub results: &'a [TypeId],
}

fn is_var(v: Var, w: &Var) -> bool
    ensures is { result ≡ true → (ts : List Ty) → var_of ts w.now ≡ var_of ts v }
{
    w.id.0 == v.id.0 && w.ty.0 == v.ty.0
}

impl<'a> Judge<'a> {
    /// The types.
    pub fn table(&self) -> &'a TypeTable
        ensures is { result.now ≡ self.now.program.now.types }
    {
        &self.program.types
    }

    /// Whether values of the type have a size, and none of its maps another key than the profile's.
    pub fn is_good(&self, t: TypeId) -> bool
        ensures is { Knows self.now → result ≡ true → IsGoodType (program_in self.now) (tree_of (trees_in self.now) t) }
    {
        t.0 < self.program.types.len()
    }

    /// Whether operands of a type can be compared: their values can, or one of them is nil.
    pub fn may_compare(&self, t: TypeId, left: &CoreExpr, right: &CoreExpr) -> bool
        ensures is { let q = program_in self.now in let ts = trees_in self.now in Knows self.now → result ≡ true → MayCompare q (tree_of ts t) (expr_view ts left.now) (expr_view ts right.now) }
    {
        if is_comparable(&self.program.types, self.measures, t) {
            return true;
        }
        one_is_zero(self.program, left, right)
    }

    // Where a variable would stand among those that may be declared.
    fn declared_at(&self, v: VarId) -> Option<&'a Var>
        ensures is { IfSome result (λ w. (k : ℕ) × (slice_get self.now.declarable.now k ≡ Some w.now)) }
    {
        let at = self.places.get(v.0 as usize)?;
        self.declarable.get(at.checked_sub(self.first)?)
    }

    /// Whether a variable may be declared here.
    pub fn may_declare(&self, v: Var) -> bool
        ensures is { let ts = trees_in self.now in result ≡ true → Contains (map (var_of ts) self.now.declarable.now) (var_of ts v) }
    {
        match self.declared_at(v.id) {
            Some(w) => is_var(v, w),
            None => false,
        }
    }

    /// Whether all of these may.
    pub fn may_declare_all(&self, vars: &[Var]) -> bool
        ensures is { let ts = trees_in self.now in result ≡ true → AreDeclarable (map (var_of ts) vars.now) (map (var_of ts) self.now.declarable.now) }
    {
        for v in vars {
            if !self.may_declare(*v) {
                return false;
            }
        }
        true
    }

    /// Whether a function is no method.
    pub fn is_plain(&self, id: FuncId) -> bool
        ensures is { Knows self.now → result ≡ true → IsRowOf (program_in self.now) id.0 → ⊥ }
    {
        match self.is_method.get(id.0 as usize) {
            Some(found) => !*found,
            None => false,
        }
    }

    // Whether a variable is in scope.
    fn has_var(&self, round: &Round<'_>, v: VarId) -> bool
        ensures is { result ≡ true → (t : Ty) × (var_type v.0 (vars_in (trees_in self.now) round.now) ≡ Some t) }
    {
        is_in_scope(round, v)
    }

    /// Whether the variables are in scope.
    pub fn in_scope(&self, round: &Round<'_>, captured: &[VarId]) -> bool
        ensures is { result ≡ true → AreInScope (map id_of captured.now) (vars_in (trees_in self.now) round.now) }
    {
        for v in captured {
            if !self.has_var(round, *v) {
                return false;
            }
        }
        true
    }

    // Whether a type is that of functions with a signature.
    fn is_func_type(&self, t: TypeId, sig: &Sig) -> bool
        ensures is { let ts = trees_in self.now in result ≡ true → tree_of ts t ≡ tree.func (trees_of ts sig.now.params) (trees_of ts sig.now.results) sig.now.variadic }
    {
        match level_at(&self.program.types, t) {
            Some(GoType::Func(found)) => same_signature(found, sig),
            _ => false,
        }
    }

    // What a function captures is in scope, and it is of the type.
    fn func_fits(&self, round: &Round<'_>, t: TypeId, id: FuncId) -> bool
        ensures is { result ≡ true → HasFuncType (slice_get (program_in self.now).funcs id.0) (around self.now round.now).vars (tree_of (trees_in self.now) t) }
    {
        match func_at(self.program, id) {
            Some(f) => {
                self.in_scope(round, f.captured.items.as_slice()) && self.is_func_type(t, &f.sig)
            }
            None => false,
        }
    }

    /// A function as a value, which is no method; what it captures is in scope.
    pub fn closure_fits(&self, round: &Round<'_>, t: TypeId, id: FuncId) -> bool
        ensures is { Knows self.now → result ≡ true → HasFuncType (slice_get (program_in self.now).funcs id.0) (around self.now round.now).vars (tree_of (trees_in self.now) t) × (IsRowOf (program_in self.now) id.0 → ⊥) }
    {
        self.func_fits(round, t, id) && self.is_plain(id)
    }

    /// A method value.
    pub fn bind_fits(&self, t: TypeId, n: &MethodName) -> bool
        ensures is { Knows self.now → result ≡ true → HasMethodType (program_in self.now) (method_of (trees_in self.now) n.now) (tree_of (trees_in self.now) t) }
    {
        match method(
            self.program,
            self.rows,
            n.ty,
            n.name.as_bytes(),
            n.package.as_bytes(),
        ) {
            Some(f) => self.is_func_type(t, &f.sig),
            None => false,
        }
    }

    /// The signature of a method of an interface value.
    pub fn dynamic_method(&self, name: &[u8], package: &[u8], e: &CoreExpr) -> Option<&'a Sig>
        ensures is { let q = program_in self.now in let ts = trees_in self.now in IfSome result (λ s. method_at name.now «package».now (under_one q (one_type (types_of q.names (expr_view ts e.now)))) ≡ Some (record { params = trees_of ts s.now.params; results = trees_of ts s.now.results; variadic = s.now.variadic })) }
    {
        match single(&self.program.types, e) {
            Some(Item::Of(t)) => interface_method(self.program, t, name, package),
            _ => None,
        }
    }

    /// A method value of an interface value.
    pub fn bind_dynamic_fits(&self, t: TypeId, name: &[u8], package: &[u8], e: &CoreExpr) -> bool
        ensures is { let q = program_in self.now in let ts = trees_in self.now in result ≡ true → IsSignature (method_at name.now «package».now (under_one q (one_type (types_of q.names (expr_view ts e.now))))) (tree_of ts t) }
    {
        match self.dynamic_method(name, package, e) {
            Some(sig) => self.is_func_type(t, sig),
            None => false,
        }
    }

    // Whether each method of the type has its row.
    fn has_rows(&self, t: TypeId) -> bool
        ensures is { Knows self.now → result ≡ true → HasRows (program_in self.now) (tree_of (trees_in self.now) t) }
    {
        match self.has_rows.get(t.0 as usize) {
            Some(found) => *found,
            None => false,
        }
    }

    /// An interface value of a value that is none.
    pub fn wrap_fits(&self, from: TypeId, t: TypeId, e: &CoreExpr) -> bool
        ensures is { let q = program_in self.now in let ts = trees_in self.now in Knows self.now → result ≡ true → Gives q (expr_view ts e.now) (tree_of ts from) × AnswersTo q (tree_of ts from) (underlying q.names (tree_of ts t)) × (IsInterface (underlying q.names (tree_of ts from)) → ⊥) × HasRows q (tree_of ts from) }
    {
        gives(&self.program.types, e, from)
            && answers_to(self.program, self.rows, from, t)
            && is_concrete(&self.program.types, from)
            && self.has_rows(from)
    }
}
