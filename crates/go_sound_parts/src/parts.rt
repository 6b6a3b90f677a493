//! Nodes whose parts are sound: whether these give what the node takes.
//!
//! Go, "Expressions".

ghost use Rattle.std.specs.Prelude.{◌≡◌, ◌⊎◌, true, IfSome, Some, ℕ, List};
ghost use Rattle.go_type.specs.declared.types.IntName.TheVariants as integer;
ghost use Rattle.go_sound_parts.specs.Given.{item_of};
ghost use Rattle.go_sound_parts.specs.Index.{OwnRows};
ghost use Rattle.go_type.specs.Tree as tree;
ghost use Rattle.go_type.specs.Tree.{Ty};
ghost use Rattle.go_type.specs.Levels.{tree_of, specs_of};
ghost use Rattle.go_type.specs.Table.{places};
ghost use Rattle.go_type.specs.Underlying.{underlying};
ghost use Rattle.go_core.specs.CoreView.{expr_view, program_view};
ghost use Rattle.go_core.specs.TypeOf.{int_type};
ghost use Rattle.go_core.specs.SoundNode.{IsInt, IsBool, IsText, IsInterface, IsChannel, IsUnary, SlicesTo, GoesInto, HasLength, HasCapacity, MayBe, Answers};
ghost use Rattle.go_core.specs.Sound.{Gives, GivesSome, BinaryFits, IsZero, IsMapOf, HasKeyType, IsChannelOf};

use crate::given::{Item, gives, single};
use crate::index::KeyIndex;
use crate::levels::{
    is_array, is_bool, is_channel, is_int, is_int_type, is_interface, is_text, slices, under,
};
use crate::methods::answers;
use crate::operators::{is_arithmetic, is_shift, is_unary};
use gj_base::Op;
use go_core::node::{CoreExpr, CoreForm};
use go_core::program::Program;
use go_type::types::{GoType, IntName, MethodSpec, TypeId};

// Whether the type of a value is an integer type.
fn is_int_item(p: &Program, item: Item) -> bool
    ensures is { result ≡ true → IsInt (underlying (program_view p.now).names (item_of (places p.now.types) item)) }
{
    match item {
        Item::Of(t) => is_int(&p.types, t),
        Item::PointerTo(_) => false,
        Item::Int => true,
        Item::Byte => true,
        Item::Bool => false,
    }
}

/// Whether it gives one integer.
pub fn gives_int(p: &Program, e: &CoreExpr) -> bool
    ensures is { result ≡ true → GivesSome (program_view p.now) (expr_view (places p.now.types) e.now) IsInt }
{
    match single(&p.types, e) {
        Some(item) => is_int_item(p, item),
        None => false,
    }
}

/// Whether it gives one string.
pub fn gives_text(p: &Program, e: &CoreExpr) -> bool
    ensures is { result ≡ true → GivesSome (program_view p.now) (expr_view (places p.now.types) e.now) IsText }
{
    match single(&p.types, e) {
        Some(Item::Of(t)) => is_text(&p.types, t),
        _ => false,
    }
}

/// Whether it gives one truth value.
pub fn gives_bool(p: &Program, e: &CoreExpr) -> bool
    ensures is { result ≡ true → GivesSome (program_view p.now) (expr_view (places p.now.types) e.now) IsBool }
{
    match single(&p.types, e) {
        Some(Item::Of(t)) => is_bool(&p.types, t),
        _ => false,
    }
}

/// Whether it gives one interface value.
pub fn gives_interface(p: &Program, e: &CoreExpr) -> bool
    ensures is { result ≡ true → GivesSome (program_view p.now) (expr_view (places p.now.types) e.now) IsInterface }
{
    match single(&p.types, e) {
        Some(Item::Of(t)) => is_interface(&p.types, t),
        _ => false,
    }
}

// Whether the type is an interface type, or has these methods.
fn has_or_asks(p: &Program, index: &KeyIndex, t: TypeId, specs: &[MethodSpec]) -> bool
    ensures is { let q = program_view p.now in let ts = places p.now.types in OwnRows q → result ≡ true → IsInterface (underlying q.names (tree_of ts t)) ⊎ Answers q (tree_of ts t) (specs_of ts specs.now) }
{
    if is_interface(&p.types, t) {
        return true;
    }
    answers(p, index, t, specs)
}

fn may_be(p: &Program, index: &KeyIndex, t: TypeId, from: TypeId) -> bool
    ensures is { let q = program_view p.now in let ts = places p.now.types in OwnRows q → result ≡ true → MayBe q (tree_of ts t) (underlying q.names (tree_of ts from)) }
{
    match under(&p.types, from) {
        Some(GoType::Interface(specs)) => has_or_asks(p, index, t, specs.as_slice()),
        _ => false,
    }
}

/// Whether it gives one interface value, which can be asked for the type.
pub fn gives_asked(p: &Program, index: &KeyIndex, t: TypeId, e: &CoreExpr) -> bool
    ensures is { let q = program_view p.now in let ts = places p.now.types in OwnRows q → result ≡ true → GivesSome q (expr_view ts e.now) (MayBe q (tree_of ts t)) }
{
    match single(&p.types, e) {
        Some(Item::Of(from)) => may_be(p, index, t, from),
        _ => false,
    }
}

/// Whether it gives one channel.
pub fn gives_channel(p: &Program, e: &CoreExpr) -> bool
    ensures is { result ≡ true → GivesSome (program_view p.now) (expr_view (places p.now.types) e.now) IsChannel }
{
    match single(&p.types, e) {
        Some(Item::Of(t)) => is_channel(&p.types, t),
        _ => false,
    }
}

/// An operator before an integer.
pub fn unary_fits(p: &Program, op: Op, t: TypeId, e: &CoreExpr) -> bool
    ensures is { let q = program_view p.now in let ts = places p.now.types in result ≡ true → IsUnary op × Gives q (expr_view ts e.now) (tree_of ts t) × IsInt (underlying q.names (tree_of ts t)) }
{
    is_unary(op) && gives(&p.types, e, t) && is_int(&p.types, t)
}

// The operands of an operator between integers; the count of a shift is of any integer type.
fn operands_fit(p: &Program, op: Op, t: TypeId, left: &CoreExpr, right: &CoreExpr) -> bool
    ensures is { let q = program_view p.now in let ts = places p.now.types in result ≡ true → BinaryFits q op (tree_of ts t) (expr_view ts left.now) (expr_view ts right.now) }
{
    if is_arithmetic(op) {
        return gives(&p.types, left, t) && gives(&p.types, right, t);
    }
    is_shift(op) && gives(&p.types, left, t) && gives_int(p, right)
}

/// An operator between integers.
pub fn binary_fits(p: &Program, op: Op, t: TypeId, left: &CoreExpr, right: &CoreExpr) -> bool
    ensures is { let q = program_view p.now in let ts = places p.now.types in result ≡ true → IsInt (underlying q.names (tree_of ts t)) × BinaryFits q op (tree_of ts t) (expr_view ts left.now) (expr_view ts right.now) }
{
    is_int(&p.types, t) && operands_fit(p, op, t, left, right)
}

/// Two operands of a type.
pub fn both_give(p: &Program, t: TypeId, left: &CoreExpr, right: &CoreExpr) -> bool
    ensures is { let q = program_view p.now in let ts = places p.now.types in result ≡ true → Gives q (expr_view ts left.now) (tree_of ts t) × Gives q (expr_view ts right.now) (tree_of ts t) }
{
    gives(&p.types, left, t) && gives(&p.types, right, t)
}

fn is_zero(p: &Program, e: &CoreExpr) -> bool
    ensures is { result ≡ true → IsZero (expr_view (places p.now.types) e.now) }
{
    match &*e.form {
        CoreForm::Zero { .. } => true,
        _ => false,
    }
}

/// Whether one of two operands is nil, or another zero value.
pub fn one_is_zero(p: &Program, left: &CoreExpr, right: &CoreExpr) -> bool
    ensures is { let ts = places p.now.types in result ≡ true → IsZero (expr_view ts left.now) ⊎ IsZero (expr_view ts right.now) }
{
    if is_zero(p, left) {
        return true;
    }
    is_zero(p, right)
}

/// What can be sliced, and the type of the part.
pub fn slices_to(p: &Program, from: TypeId, to: TypeId) -> bool
    ensures is { let q = program_view p.now in let ts = places p.now.types in result ≡ true → SlicesTo q (underlying q.names (tree_of ts from)) (tree_of ts from) (tree_of ts to) }
{
    match under(&p.types, from) {
        Some(GoType::Str) => from.0 == to.0,
        Some(GoType::Slice(_)) => from.0 == to.0,
        Some(GoType::Pointer(target)) => slices_array(p, *target, to),
        _ => false,
    }
}

fn slices_array(p: &Program, array: TypeId, to: TypeId) -> bool
    ensures is { let q = program_view p.now in let ts = places p.now.types in result ≡ true → (n : ℕ) × (u : Ty) × (underlying q.names (tree_of ts array) ≡ tree.array n u) × (tree_of ts to ≡ tree.slice u) }
{
    match under(&p.types, array) {
        Some(GoType::Array(_, element)) => slices(&p.types, to, *element),
        _ => false,
    }
}

// Whether the underlying type is that of bytes.
fn is_byte(p: &Program, t: TypeId) -> bool
    ensures is { let q = program_view p.now in let ts = places p.now.types in result ≡ true → underlying q.names (tree_of ts t) ≡ tree.int integer.Uint8 }
{
    match under(&p.types, t) {
        Some(GoType::Int(name)) => match name {
            IntName::Uint8 => true,
            _ => false,
        },
        _ => false,
    }
}

/// What can be appended to, or copied into, a slice.
pub fn goes_into(p: &Program, slice: TypeId, from: TypeId) -> bool
    ensures is { let q = program_view p.now in let ts = places p.now.types in result ≡ true → GoesInto q (underlying q.names (tree_of ts slice)) (underlying q.names (tree_of ts from)) }
{
    match under(&p.types, slice) {
        Some(GoType::Slice(element)) => goes_after(p, *element, from),
        _ => false,
    }
}

fn goes_after(p: &Program, element: TypeId, from: TypeId) -> bool
    ensures is { let q = program_view p.now in let ts = places p.now.types in result ≡ true → GoesInto q (tree.slice (tree_of ts element)) (underlying q.names (tree_of ts from)) }
{
    match under(&p.types, from) {
        Some(GoType::Slice(found)) => found.0 == element.0,
        Some(GoType::Str) => is_byte(p, element),
        _ => false,
    }
}

/// Whether it has a length.
pub fn has_length(p: &Program, t: TypeId) -> bool
    ensures is { let q = program_view p.now in let ts = places p.now.types in result ≡ true → HasLength q (underlying q.names (tree_of ts t)) }
{
    match under(&p.types, t) {
        Some(GoType::Str) => true,
        Some(GoType::Slice(_)) => true,
        Some(GoType::Array(_, _)) => true,
        Some(GoType::Map(_, _)) => true,
        Some(GoType::Chan(_, _)) => true,
        Some(GoType::Pointer(target)) => is_array(&p.types, *target),
        _ => false,
    }
}

/// Whether it has a capacity.
pub fn has_capacity(p: &Program, t: TypeId) -> bool
    ensures is { let q = program_view p.now in let ts = places p.now.types in result ≡ true → HasCapacity q (underlying q.names (tree_of ts t)) }
{
    match under(&p.types, t) {
        Some(GoType::Slice(_)) => true,
        Some(GoType::Array(_, _)) => true,
        Some(GoType::Chan(_, _)) => true,
        Some(GoType::Pointer(target)) => is_array(&p.types, *target),
        _ => false,
    }
}

// The type of a map type's keys.
fn key_of(p: &Program, t: TypeId) -> Option<TypeId>
    ensures is { let q = program_view p.now in let ts = places p.now.types in IfSome result (λ k. HasKeyType (underlying q.names (tree_of ts t)) (tree_of ts k)) }
{
    match under(&p.types, t) {
        Some(GoType::Map(key, _)) => Some(*key),
        _ => None,
    }
}

/// Whether an expression gives a key of a map type.
pub fn key_fits(p: &Program, t: TypeId, key: &CoreExpr) -> bool
    ensures is { let q = program_view p.now in let ts = places p.now.types in result ≡ true → (k : Ty) × Gives q (expr_view ts key.now) k × HasKeyType (underlying q.names (tree_of ts t)) k }
{
    match key_of(p, t) {
        Some(k) => gives(&p.types, key, k),
        None => false,
    }
}

// The types of a map type's keys and values.
fn map_of(p: &Program, t: TypeId) -> Option<(TypeId, TypeId)>
    ensures is { let q = program_view p.now in let ts = places p.now.types in IfSome result (λ r. IsMapOf (underlying q.names (tree_of ts t)) (tree_of ts r.0) (tree_of ts r.1)) }
{
    match under(&p.types, t) {
        Some(GoType::Map(key, value)) => Some((*key, *value)),
        _ => None,
    }
}

fn each_gives(p: &Program, k: TypeId, v: TypeId, key: &CoreExpr, value: &CoreExpr) -> bool
    ensures is { let q = program_view p.now in let ts = places p.now.types in result ≡ true → Gives q (expr_view ts key.now) (tree_of ts k) × Gives q (expr_view ts value.now) (tree_of ts v) }
{
    gives(&p.types, key, k) && gives(&p.types, value, v)
}

/// Whether expressions give a key and a value of a map type.
pub fn pair_fits(p: &Program, t: TypeId, key: &CoreExpr, value: &CoreExpr) -> bool
    ensures is { let q = program_view p.now in let ts = places p.now.types in result ≡ true → (k : Ty) × (v : Ty) × Gives q (expr_view ts key.now) k × Gives q (expr_view ts value.now) v × IsMapOf (underlying q.names (tree_of ts t)) k v }
{
    match map_of(p, t) {
        Some(types) => each_gives(p, types.0, types.1, key, value),
        None => false,
    }
}

// The type of what a channel type carries.
fn element_of(p: &Program, t: TypeId) -> Option<TypeId>
    ensures is { let q = program_view p.now in let ts = places p.now.types in IfSome result (λ u. IsChannelOf (underlying q.names (tree_of ts t)) (tree_of ts u)) }
{
    match under(&p.types, t) {
        Some(GoType::Chan(_, element)) => Some(*element),
        _ => None,
    }
}

/// Whether an expression gives a value that a channel type carries.
pub fn sent_fits(p: &Program, channel: TypeId, value: &CoreExpr) -> bool
    ensures is { let q = program_view p.now in let ts = places p.now.types in result ≡ true → (u : Ty) × Gives q (expr_view ts value.now) u × IsChannelOf (underlying q.names (tree_of ts channel)) u }
{
    match element_of(p, channel) {
        Some(element) => gives(&p.types, value, element),
        None => false,
    }
}

/// Whether it gives one `int`.
pub fn gives_number(p: &Program, e: &CoreExpr) -> bool
    ensures is { result ≡ true → Gives (program_view p.now) (expr_view (places p.now.types) e.now) int_type }
{
    match single(&p.types, e) {
        Some(Item::Of(t)) => is_int_type(&p.types, t),
        Some(Item::Int) => true,
        _ => false,
    }
}
