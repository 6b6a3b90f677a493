//! What lies at a place, and what is called.
//!
//! Go, "Variables", "Calls".

ghost use Rattle.std.specs.Prelude.{◌≡◌, IfSome, Some, true, List, [], slice_get};
ghost use Rattle.go_type.specs.Tree as tree;
ghost use Rattle.go_type.specs.Tree.{Ty, Tys};
ghost use Rattle.go_type.specs.Levels.{tree_of, trees_of};
ghost use Rattle.go_core.specs.CoreTree as core;
ghost use Rattle.go_core.specs.CoreView.{expr_view, exprs_view, place_view, callee_view, method_of};
ghost use Rattle.go_core.specs.TypeOf.{all_types, listed_types, global_type, var_type};
ghost use Rattle.go_core.specs.SoundNode.{Calls};
ghost use Rattle.go_core.specs.Sound.{LiesAt};
ghost use Rattle.go_sound_nodes.specs.Around.{around, program_in, trees_in};
ghost use Rattle.go_sound_parts.specs.Given.{wanted_of};
ghost use Rattle.go_sound_nodes.specs.Known.{Knows};

use crate::judge::Judge;
use crate::round::{Round, type_of};
use go_core::node::{
    Callee, CoreExpr, CoreExprs, CorePlace, GlobalId, MethodName, PlaceForm, VarId,
};
use go_core::tree::FuncId;
use go_sound_parts::fields::field;
use go_sound_parts::given::{Item, Wanted, all_give, single};
use go_sound_parts::levels::{element, pointed, points_to, under};
use go_sound_parts::lists::same_types;
use go_sound_parts::methods::{func_at, method};
use go_type::types::{GoType, Sig, TypeId};

/// What is called: the types of its operands, and its results.
#[derive(Clone, Copy)]
pub struct Called<'a> {
    pub wanted: Wanted<'a>,
    pub results: &'a [TypeId],
}

fn by_signature<'a>(sig: &'a Sig) -> Called<'a>
    ensures is { (ts : List Ty) → (wanted_of ts result.wanted ≡ listed_types (trees_of ts sig.now.params)) × (trees_of ts result.results.now ≡ trees_of ts sig.now.results) }
{
    Called {
        wanted: Wanted::Types(sig.params.as_slice()),
        results: sig.results.as_slice(),
    }
}

impl<'a> Judge<'a> {
    // The type of a variable in scope.
    fn local_type(&self, round: &Round<'_>, v: VarId) -> Option<TypeId>
        ensures is { IfSome result (λ t. var_type v.0 (around self.now round.now).vars ≡ Some (tree_of (trees_in self.now) t)) }
    {
        match type_of(round, v) {
            Some(t) => Some(t),
            None => None,
        }
    }

    // The type of a package variable.
    fn global_type(&self, id: GlobalId) -> Option<TypeId>
        ensures is { IfSome result (λ t. global_type (slice_get (program_in self.now).globals id.0) ≡ Some (tree_of (trees_in self.now) t)) }
    {
        match self.program.globals.items.as_slice().get(id.0 as usize) {
            Some(x) => Some(x.ty),
            None => None,
        }
    }

    // What a pointer points to.
    fn target_type(&self, e: &CoreExpr) -> Option<TypeId>
        ensures is { IfSome result (λ t. LiesAt (program_in self.now) [] (core.deref (expr_view (trees_in self.now) e.now)) (tree_of (trees_in self.now) t)) }
    {
        match single(&self.program.types, e) {
            Some(Item::Of(t)) => pointed(&self.program.types, t),
            Some(Item::PointerTo(t)) => Some(t),
            _ => None,
        }
    }

    /// The type of what lies at a place.
    pub fn type_at(&self, round: &Round<'_>, place: &CorePlace) -> Option<TypeId>
        ensures is { IfSome result (λ t. LiesAt (program_in self.now) (around self.now round.now).vars (place_view (trees_in self.now) place.now) (tree_of (trees_in self.now) t)) }
    {
        match &*place.form {
            PlaceForm::Local(v) => self.local_type(round, *v),
            PlaceForm::Global(id) => self.global_type(*id),
            PlaceForm::Deref(e) => self.target_type(e),
            PlaceForm::Field {
                struct_type,
                number,
                ..
            } => match field(&self.program.types, *struct_type, *number) {
                Some(f) => Some(f.ty),
                None => None,
            },
            PlaceForm::Elem { array_type, .. } => element(&self.program.types, *array_type),
            PlaceForm::SliceElem { slice_type, .. } => element(&self.program.types, *slice_type),
        }
    }

    /// Whether a value of the type lies at a place.
    pub fn lies(&self, round: &Round<'_>, place: &CorePlace, t: TypeId) -> bool
        ensures is { result ≡ true → LiesAt (program_in self.now) (around self.now round.now).vars (place_view (trees_in self.now) place.now) (tree_of (trees_in self.now) t) }
    {
        match self.type_at(round, place) {
            Some(found) => found.0 == t.0,
            None => false,
        }
    }

    /// Whether a place holds values of some type.
    pub fn has_type(&self, round: &Round<'_>, place: &CorePlace) -> bool
        ensures is { result ≡ true → (t : Ty) × LiesAt (program_in self.now) (around self.now round.now).vars (place_view (trees_in self.now) place.now) t }
    {
        match self.type_at(round, place) {
            Some(_t) => true,
            None => false,
        }
    }

    /// Whether a type is that of pointers to what lies at a place.
    pub fn address_fits(&self, round: &Round<'_>, t: TypeId, place: &CorePlace) -> bool
        ensures is { result ≡ true → (u : Ty) × LiesAt (program_in self.now) (around self.now round.now).vars (place_view (trees_in self.now) place.now) u × (tree_of (trees_in self.now) t ≡ tree.pointer u) }
    {
        match self.type_at(round, place) {
            Some(found) => points_to(&self.program.types, t, found),
            None => false,
        }
    }

    // A function that is no method; what it captures is in scope.
    fn called_function(&self, round: &Round<'_>, id: FuncId) -> Option<Called<'a>>
        ensures is { Knows self.now → IfSome result (λ c. Calls (program_in self.now) (around self.now round.now).vars (core.function id.0) (wanted_of (trees_in self.now) c.wanted) (trees_of (trees_in self.now) c.results.now)) }
    {
        match func_at(self.program, id) {
            Some(f) => if self.is_plain(id) && self.in_scope(round, f.captured.items.as_slice()) {
                Some(by_signature(&f.sig))
            } else {
                None
            },
            None => None,
        }
    }

    // A method by its row; the receiver comes first.
    fn called_method(&self, round: &Round<'_>, n: &MethodName) -> Option<Called<'a>>
        ensures is { Knows self.now → IfSome result (λ c. Calls (program_in self.now) (around self.now round.now).vars (core.method (method_of (trees_in self.now) n.now)) (wanted_of (trees_in self.now) c.wanted) (trees_of (trees_in self.now) c.results.now)) }
    {
        match method(
            self.program,
            self.rows,
            n.ty,
            n.name.as_bytes(),
            n.package.as_bytes(),
        ) {
            Some(f) => Some(Called {
                wanted: Wanted::After(n.ty, f.sig.params.as_slice()),
                results: f.sig.results.as_slice(),
            }),
            None => None,
        }
    }

    // A function value.
    fn called_value(&self, round: &Round<'_>, e: &CoreExpr) -> Option<Called<'a>>
        ensures is { IfSome result (λ c. Calls (program_in self.now) (around self.now round.now).vars (core.func_value (expr_view (trees_in self.now) e.now)) (wanted_of (trees_in self.now) c.wanted) (trees_of (trees_in self.now) c.results.now)) }
    {
        match single(&self.program.types, e) {
            Some(Item::Of(t)) => match under(&self.program.types, t) {
                Some(GoType::Func(sig)) => Some(by_signature(sig)),
                _ => None,
            },
            _ => None,
        }
    }

    // A method of an interface value.
    fn called_dynamic(
        &self,
        round: &Round<'_>,
        name: &[u8],
        package: &[u8],
        e: &CoreExpr,
    ) -> Option<Called<'a>>
        ensures is { IfSome result (λ c. Calls (program_in self.now) (around self.now round.now).vars (core.dynamic name.now «package».now (expr_view (trees_in self.now) e.now)) (wanted_of (trees_in self.now) c.wanted) (trees_of (trees_in self.now) c.results.now)) }
    {
        match self.dynamic_method(name, package, e) {
            Some(sig) => Some(by_signature(sig)),
            None => None,
        }
    }

    /// What is called.
    pub fn called(&self, round: &Round<'_>, callee: &Callee) -> Option<Called<'a>>
        ensures is { Knows self.now → IfSome result (λ c. Calls (program_in self.now) (around self.now round.now).vars (callee_view (trees_in self.now) callee.now) (wanted_of (trees_in self.now) c.wanted) (trees_of (trees_in self.now) c.results.now)) }
    {
        match callee {
            Callee::Function(id) => self.called_function(round, *id),
            Callee::Method(n) => self.called_method(round, n),
            Callee::Value(e) => self.called_value(round, e),
            Callee::Dynamic {
                name,
                package,
                receiver,
            } => self.called_dynamic(round, name.as_bytes(), package.as_bytes(), receiver),
        }
    }

    /// Whether a call has operands of the callee's types, and gives these.
    pub fn call_fits(
        &self,
        round: &Round<'_>,
        callee: &Callee,
        list: &CoreExprs,
        results: &[TypeId],
    ) -> bool
        ensures is { let q = program_in self.now in let ts = trees_in self.now in Knows self.now → result ≡ true → Calls q (around self.now round.now).vars (callee_view ts callee.now) (all_types q.names (exprs_view ts list.now)) (trees_of ts results.now) }
    {
        match self.called(round, callee) {
            Some(c) => {
                all_give(&self.program.types, list, c.wanted) && same_types(results, c.results)
            }
            None => false,
        }
    }

    /// Whether a call has operands of the callee's types.
    pub fn start_fits(&self, round: &Round<'_>, callee: &Callee, list: &CoreExprs) -> bool
        ensures is { let q = program_in self.now in let ts = trees_in self.now in Knows self.now → result ≡ true → (results : Tys) × Calls q (around self.now round.now).vars (callee_view ts callee.now) (all_types q.names (exprs_view ts list.now)) results }
    {
        match self.called(round, callee) {
            Some(c) => all_give(&self.program.types, list, c.wanted),
            None => false,
        }
    }
}
