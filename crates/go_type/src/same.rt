//! When two levels are one, and their hashes: what the table finds a level by.

ghost use Rattle.std.specs.Prelude.{◌≡◌, ◌++◌};
ghost use Rattle.std.specs.Hash as fed;
ghost use Rattle.std.specs.Hash.{same_Alike};
ghost use Rattle.std.specs.Cmp.{partial_equiv_from_equiv, decided};
ghost use lib.Pointwise.{pointwise, pointwise_decides};
ghost use Rattle.go_type.specs.Same.{id_eq, field_eq, sig_eq, spec_eq, type_eq, int_eq, basis_eq, dir_eq, named_eq, int_code, basis_code, dir_code};
ghost use Rattle.go_type.specs.SameLaws.{id_decides, named_decides, field_decides, sig_decides, spec_decides, type_decides, int_decides, basis_decides, dir_decides};
ghost use Rattle.go_type.specs.Hashed.{id_hash, ids_hash, field_hash, fields_hash, sig_hash, spec_hash, specs_hash, type_hash};

use crate::lists::{Fields, Ids, Methods};
use crate::types::{Basis, Dir, FieldRow, GoType, IntName, MethodSpec, NamedId, Sig, TypeId};
use std::hash::{Hash, Hasher};

impl PartialEq for TypeId {
    ghost eq = { id_eq };

    ghost laws = { partial_equiv_from_equiv (decided id_eq id_decides) };

    fn eq(&self, other: &TypeId) -> bool {
        self.0 == other.0
    }
}

impl Eq for TypeId {
    ghost laws = { decided id_eq id_decides };
}

impl Hash for TypeId {
    ghost hash_input = { id_hash };

    ghost respects_eq = { (same_Alike id_hash id_decides).fed };

    fn hash<H: Hasher>(&self, state: &mut H) {
        self.0.hash(state);
    }
}

// The place of a name in its list.
fn int_code(name: IntName) -> u8
    ensures { result ≡ int_code name }
{
    match name {
        IntName::Int => 0,
        IntName::Int8 => 1,
        IntName::Int16 => 2,
        IntName::Int32 => 3,
        IntName::Int64 => 4,
        IntName::Uint => 5,
        IntName::Uint8 => 6,
        IntName::Uint16 => 7,
        IntName::Uint32 => 8,
        IntName::Uint64 => 9,
        IntName::Uintptr => 10,
    }
}

fn basis_code(basis: Basis) -> u8
    ensures { result ≡ basis_code basis }
{
    match basis {
        Basis::Bool => 0,
        Basis::Int => 1,
        Basis::Rune => 2,
        Basis::Str => 3,
    }
}

fn dir_code(dir: Dir) -> u8
    ensures { result ≡ dir_code dir }
{
    match dir {
        Dir::Both => 0,
        Dir::Send => 1,
        Dir::Receive => 2,
    }
}

impl PartialEq for Ids {
    ghost eq = { pointwise id_eq };

    ghost laws = { partial_equiv_from_equiv (decided (pointwise id_eq) (pointwise_decides id_decides)) };

    fn eq(&self, other: &Ids) -> bool {
        self.as_slice() == other.as_slice()
    }
}

impl Eq for Ids {
    ghost laws = { decided (pointwise id_eq) (pointwise_decides id_decides) };
}

impl Hash for Ids {
    ghost hash_input = { ids_hash };

    ghost respects_eq = { (same_Alike ids_hash (pointwise_decides id_decides)).fed };

    fn hash<H: Hasher>(&self, state: &mut H) {
        self.as_slice().hash(state);
    }
}

impl PartialEq for FieldRow {
    ghost eq = { field_eq };

    ghost laws = { partial_equiv_from_equiv (decided field_eq field_decides) };

    fn eq(&self, other: &FieldRow) -> bool {
        self.name == other.name
            && self.package == other.package
            && self.ty == other.ty
            && self.embedded == other.embedded
            && self.tag == other.tag
    }
}

impl Eq for FieldRow {
    ghost laws = { decided field_eq field_decides };
}

impl Hash for FieldRow {
    ghost hash_input = { field_hash };

    ghost respects_eq = { (same_Alike field_hash field_decides).fed };

    fn hash<H: Hasher>(&self, state: &mut H) {
        self.name.hash(state);
        self.ty.hash(state);
    }
}

impl PartialEq for Fields {
    ghost eq = { pointwise field_eq };

    ghost laws = { partial_equiv_from_equiv (decided (pointwise field_eq) (pointwise_decides field_decides)) };

    fn eq(&self, other: &Fields) -> bool {
        self.as_slice() == other.as_slice()
    }
}

impl Eq for Fields {
    ghost laws = { decided (pointwise field_eq) (pointwise_decides field_decides) };
}

impl Hash for Fields {
    ghost hash_input = { fields_hash };

    ghost respects_eq = { (same_Alike fields_hash (pointwise_decides field_decides)).fed };

    fn hash<H: Hasher>(&self, state: &mut H) {
        self.as_slice().hash(state);
    }
}

impl PartialEq for Sig {
    ghost eq = { sig_eq };

    ghost laws = { partial_equiv_from_equiv (decided sig_eq sig_decides) };

    fn eq(&self, other: &Sig) -> bool {
        self.params == other.params
            && self.results == other.results
            && self.variadic == other.variadic
    }
}

impl Eq for Sig {
    ghost laws = { decided sig_eq sig_decides };
}

impl Hash for Sig {
    ghost hash_input = { sig_hash };

    ghost respects_eq = { (same_Alike sig_hash sig_decides).fed };

    fn hash<H: Hasher>(&self, state: &mut H) {
        self.params.hash(state);
        self.results.hash(state);
    }
}

impl PartialEq for MethodSpec {
    ghost eq = { spec_eq };

    ghost laws = { partial_equiv_from_equiv (decided spec_eq spec_decides) };

    fn eq(&self, other: &MethodSpec) -> bool {
        self.name == other.name && self.package == other.package && self.sig == other.sig
    }
}

impl Eq for MethodSpec {
    ghost laws = { decided spec_eq spec_decides };
}

impl Hash for MethodSpec {
    ghost hash_input = { spec_hash };

    ghost respects_eq = { (same_Alike spec_hash spec_decides).fed };

    fn hash<H: Hasher>(&self, state: &mut H) {
        self.name.hash(state);
        self.sig.hash(state);
    }
}

impl PartialEq for Methods {
    ghost eq = { pointwise spec_eq };

    ghost laws = { partial_equiv_from_equiv (decided (pointwise spec_eq) (pointwise_decides spec_decides)) };

    fn eq(&self, other: &Methods) -> bool {
        self.as_slice() == other.as_slice()
    }
}

impl Eq for Methods {
    ghost laws = { decided (pointwise spec_eq) (pointwise_decides spec_decides) };
}

impl Hash for Methods {
    ghost hash_input = { specs_hash };

    ghost respects_eq = { (same_Alike specs_hash (pointwise_decides spec_decides)).fed };

    fn hash<H: Hasher>(&self, state: &mut H) {
        self.as_slice().hash(state);
    }
}

impl PartialEq for GoType {
    ghost eq = { type_eq };

    ghost laws = { partial_equiv_from_equiv (decided type_eq type_decides) };

    fn eq(&self, other: &GoType) -> bool {
        match (self, other) {
            (GoType::Bool, GoType::Bool) => true,
            (GoType::Str, GoType::Str) => true,
            (GoType::Int(a), GoType::Int(b)) => int_code(*a) == int_code(*b),
            (GoType::Nil, GoType::Nil) => true,
            (GoType::Untyped(a), GoType::Untyped(b)) => basis_code(*a) == basis_code(*b),
            (GoType::Array(m, a), GoType::Array(n, b)) => *m == *n && *a == *b,
            (GoType::Slice(a), GoType::Slice(b)) => *a == *b,
            (GoType::Struct(a), GoType::Struct(b)) => *a == *b,
            (GoType::Pointer(a), GoType::Pointer(b)) => *a == *b,
            (GoType::Func(a), GoType::Func(b)) => *a == *b,
            (GoType::Interface(a), GoType::Interface(b)) => *a == *b,
            (GoType::Map(k, v), GoType::Map(l, w)) => *k == *l && *v == *w,
            (GoType::Chan(d, a), GoType::Chan(e, b)) => dir_code(*d) == dir_code(*e) && *a == *b,
            (GoType::Named(a), GoType::Named(b)) => a.0 == b.0,
            (GoType::Tuple(a), GoType::Tuple(b)) => *a == *b,
            _ => false,
        }
    }
}

impl Eq for GoType {
    ghost laws = { decided type_eq type_decides };
}

impl Hash for GoType {
    ghost hash_input = { type_hash };

    ghost respects_eq = { (same_Alike type_hash type_decides).fed };

    fn hash<H: Hasher>(&self, state: &mut H) {
        match self {
            GoType::Bool => state.write_u8(0),
            GoType::Str => state.write_u8(1),
            GoType::Int(name) => state.write_u8(int_code(*name)),
            GoType::Nil => state.write_u8(2),
            GoType::Untyped(basis) => state.write_u8(basis_code(*basis)),
            GoType::Array(_, element) => element.hash(state),
            GoType::Slice(element) => element.hash(state),
            GoType::Struct(fields) => fields.hash(state),
            GoType::Pointer(target) => target.hash(state),
            GoType::Func(sig) => sig.hash(state),
            GoType::Interface(methods) => methods.hash(state),
            GoType::Map(_, value) => value.hash(state),
            GoType::Chan(_, element) => element.hash(state),
            GoType::Named(id) => id.0.hash(state),
            GoType::Tuple(ids) => ids.hash(state),
        }
    }
}
