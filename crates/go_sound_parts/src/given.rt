//! The types of the values that an expression gives.

ghost use Rattle.std.specs.Prelude.{◌≡◌, IfSome, true, List, [], ◌∷◌, ◌++◌, Option, Some};
ghost use Rattle.go_type.specs.Tree.{Ty};
ghost use Rattle.go_type.specs.Levels.{tree_of};
ghost use Rattle.go_type.specs.Tree as tree;
ghost use Rattle.go_type.specs.Table.{places, names};
ghost use Rattle.go_core.specs.CoreView.{expr_view, expr_form_view, exprs_view};
ghost use Rattle.go_type.specs.Levels.{trees_of};
ghost use Rattle.go_core.specs.TypeOf.{types_of, all_types, with_truth, listed_types};
ghost use Rattle.go_sound_parts.specs.Given.{item_of, given_of, wanted_of};

use crate::levels::{
    channel_element, is_bool_type, is_byte_type, is_int_type, map_value, points_to,
};
use go_core::node::{CoreExpr, CoreExprs, CoreForm, Var};
use go_type::TypeTable;
use go_type::types::TypeId;

/// The type of one value.
#[derive(Clone, Copy)]
pub enum Item {
    Of(TypeId),
    /// A pointer to a value of the type.
    PointerTo(TypeId),
    /// `int`.
    Int,
    /// `byte`.
    Byte,
    /// `bool`.
    Bool,
}

/// The types of the values that an expression gives.
#[derive(Clone, Copy)]
pub enum Given<'a> {
    One(Item),
    /// A value, and whether it is there.
    WithTruth(TypeId),
    /// What a call gives.
    Results(&'a [TypeId]),
}

/// The types that are wanted.
#[derive(Clone, Copy)]
pub enum Wanted<'a> {
    Types(&'a [TypeId]),
    /// A receiver, and then these.
    After(TypeId, &'a [TypeId]),
    Vars(&'a [Var]),
}

fn truth_of<'a>(ok: bool, t: TypeId) -> Given<'a>
    ensures is { (ts : List Ty) → with_truth ok (Some (tree_of ts t)) ≡ given_of ts result }
{
    if ok {
        Given::WithTruth(t)
    } else {
        Given::One(Item::Of(t))
    }
}

fn with_truth<'a>(ok: bool, t: Option<TypeId>) -> Option<Given<'a>>
    ensures is { (ts : List Ty) (u : Option Ty) → IfSome t (λ x. u ≡ Some (tree_of ts x)) → IfSome result (λ g. with_truth ok u ≡ given_of ts g) }
{
    match t {
        Some(t) => if ok {
            Some(Given::WithTruth(t))
        } else {
            Some(Given::One(Item::Of(t)))
        },
        None => None,
    }
}

// Of an expression whose node names no type.
fn by_parts<'a>(table: &TypeTable, form: &'a CoreForm) -> Option<Given<'a>>
    ensures is { IfSome result (λ g. types_of (names table.now) (expr_form_view (places table.now) form.now) ≡ given_of (places table.now) g) }
{
    match form {
        CoreForm::ByteAt { .. } => Some(Given::One(Item::Byte)),
        CoreForm::Call { results, .. } => Some(Given::Results(results.as_slice())),
        CoreForm::MapGet {
            map_type,
            with_ok,
            ..
        } => with_truth(*with_ok, map_value(table, *map_type)),
        CoreForm::Len { .. } => Some(Given::One(Item::Int)),
        CoreForm::Cap { .. } => Some(Given::One(Item::Int)),
        CoreForm::CopyElems { .. } => Some(Given::One(Item::Int)),
        CoreForm::New { ty } => Some(Given::One(Item::PointerTo(*ty))),
        CoreForm::Assert { ty, with_ok, .. } => Some(truth_of(*with_ok, *ty)),
        CoreForm::Receive {
            channel,
            with_ok,
            ..
        } => with_truth(*with_ok, channel_element(table, *channel)),
        CoreForm::GateAdd { .. } => Some(Given::One(Item::Int)),
        _ => None,
    }
}

// The type that the node names.
fn by_node<'a>(table: &TypeTable, form: &'a CoreForm) -> Option<Given<'a>>
    ensures is { IfSome result (λ g. types_of (names table.now) (expr_form_view (places table.now) form.now) ≡ given_of (places table.now) g) }
{
    match form {
        CoreForm::Const { ty, .. } => Some(Given::One(Item::Of(*ty))),
        CoreForm::Zero { ty } => Some(Given::One(Item::Of(*ty))),
        CoreForm::Read { ty, .. } => Some(Given::One(Item::Of(*ty))),
        CoreForm::Address { ty, .. } => Some(Given::One(Item::Of(*ty))),
        CoreForm::Unary { ty, .. } => Some(Given::One(Item::Of(*ty))),
        CoreForm::Binary { ty, .. } => Some(Given::One(Item::Of(*ty))),
        CoreForm::Concat { ty, .. } => Some(Given::One(Item::Of(*ty))),
        CoreForm::Equal { ty, .. } => Some(Given::One(Item::Of(*ty))),
        CoreForm::Less { ty, .. } => Some(Given::One(Item::Of(*ty))),
        CoreForm::AndThen { ty, .. } => Some(Given::One(Item::Of(*ty))),
        CoreForm::OrElse { ty, .. } => Some(Given::One(Item::Of(*ty))),
        CoreForm::Not { ty, .. } => Some(Given::One(Item::Of(*ty))),
        CoreForm::Convert { ty, .. } => Some(Given::One(Item::Of(*ty))),
        CoreForm::SliceOf { ty, .. } => Some(Given::One(Item::Of(*ty))),
        CoreForm::Build { ty, .. } => Some(Given::One(Item::Of(*ty))),
        CoreForm::BuildMap { ty, .. } => Some(Given::One(Item::Of(*ty))),
        CoreForm::Closure { ty, .. } => Some(Given::One(Item::Of(*ty))),
        CoreForm::Bind { ty, .. } => Some(Given::One(Item::Of(*ty))),
        CoreForm::BindDynamic { ty, .. } => Some(Given::One(Item::Of(*ty))),
        CoreForm::Append { ty, .. } => Some(Given::One(Item::Of(*ty))),
        CoreForm::MakeSlice { ty, .. } => Some(Given::One(Item::Of(*ty))),
        CoreForm::MakeMap { ty, .. } => Some(Given::One(Item::Of(*ty))),
        CoreForm::MakeChan { ty, .. } => Some(Given::One(Item::Of(*ty))),
        CoreForm::Wrap { ty, .. } => Some(Given::One(Item::Of(*ty))),
        CoreForm::Basic { ty, .. } => Some(Given::One(Item::Of(*ty))),
        CoreForm::Recover { ty } => Some(Given::One(Item::Of(*ty))),
        form => by_parts(table, form),
    }
}

/// What an expression gives.
pub fn given_by<'a>(table: &TypeTable, e: &'a CoreExpr) -> Option<Given<'a>>
    ensures is { IfSome result (λ g. types_of (names table.now) (expr_view (places table.now) e.now) ≡ given_of (places table.now) g) }
{
    match &*e.form {
        CoreForm::Let { body, .. } => given_by(table, body),
        form => by_node(table, form),
    }
}

/// The type of the value that an expression gives, where there is one.
pub fn single(table: &TypeTable, e: &CoreExpr) -> Option<Item>
    ensures is { IfSome result (λ x. types_of (names table.now) (expr_view (places table.now) e.now) ≡ item_of (places table.now) x ∷ []) }
{
    match given_by(table, e) {
        Some(Given::One(item)) => Some(item),
        Some(Given::Results([t])) => Some(Item::Of(*t)),
        _ => None,
    }
}

/// Whether a type is that of a value.
pub fn is_item(table: &TypeTable, item: Item, t: TypeId) -> bool
    ensures is { result ≡ true → item_of (places table.now) item ≡ tree_of (places table.now) t }
{
    match item {
        Item::Of(u) => u.0 == t.0,
        Item::PointerTo(u) => points_to(table, t, u),
        Item::Int => is_int_type(table, t),
        Item::Byte => is_byte_type(table, t),
        Item::Bool => is_bool_type(table, t),
    }
}

/// Whether a variable of the type takes a value.
pub fn takes_item(table: &TypeTable, t: TypeId, item: Item) -> bool
    ensures is { result ≡ true → tree_of (places table.now) t ≡ item_of (places table.now) item }
{
    is_item(table, item, t)
}

/// Whether an expression gives one value of the type.
pub fn gives(table: &TypeTable, e: &CoreExpr, t: TypeId) -> bool
    ensures is { result ≡ true → types_of (names table.now) (expr_view (places table.now) e.now) ≡ tree_of (places table.now) t ∷ [] }
{
    match single(table, e) {
        Some(item) => is_item(table, item, t),
        None => false,
    }
}

impl<'a> Wanted<'a> {
    fn split(self) -> Option<(TypeId, Wanted<'a>)>
        ensures is { IfSome result (λ r. (ts : List Ty) → wanted_of ts self.entry ≡ tree_of ts r.0 ∷ wanted_of ts r.1) }
    {
        match self {
            Wanted::Types(types) => match types.split_first() {
                Some((t, rest)) => Some((*t, Wanted::Types(rest))),
                None => None,
            },
            Wanted::After(t, types) => Some((t, Wanted::Types(types))),
            Wanted::Vars(vars) => match vars.split_first() {
                Some((v, rest)) => Some((v.ty, Wanted::Vars(rest))),
                None => None,
            },
        }
    }

    fn is_empty(self) -> bool
        ensures is { result ≡ true → (ts : List Ty) → wanted_of ts self.entry ≡ [] }
    {
        match self {
            Wanted::Types(types) => types.is_empty(),
            Wanted::After(_, _) => false,
            Wanted::Vars(vars) => vars.is_empty(),
        }
    }
}

// What is wanted after one value.
fn after_item<'a>(table: &TypeTable, item: Item, wanted: Wanted<'a>) -> Option<Wanted<'a>>
    ensures is { let ts = places table.now in IfSome result (λ w. wanted_of ts wanted.entry ≡ item_of ts item ∷ wanted_of ts w) }
{
    match wanted.split() {
        Some((t, rest)) => if is_item(table, item, t) {
            Some(rest)
        } else {
            None
        },
        None => None,
    }
}

// What is wanted after these.
fn after_all<'a>(table: &TypeTable, types: &[TypeId], wanted: Wanted<'a>) -> Option<Wanted<'a>>
    ensures is { let ts = places table.now in IfSome result (λ w. wanted_of ts wanted.entry ≡ listed_types (trees_of ts types.now) ++ wanted_of ts w) }
{
    match types.split_first() {
        Some((t, rest)) => match after_item(table, Item::Of(*t), wanted) {
            Some(others) => after_all(table, rest, others),
            None => None,
        },
        None => Some(wanted),
    }
}

// What is wanted after what an expression gives.
fn after_given<'a>(table: &TypeTable, g: Given<'_>, wanted: Wanted<'a>) -> Option<Wanted<'a>>
    ensures is { let ts = places table.now in IfSome result (λ w. wanted_of ts wanted.entry ≡ given_of ts g.entry ++ wanted_of ts w) }
{
    match g {
        Given::One(item) => after_item(table, item, wanted),
        Given::WithTruth(t) => match after_item(table, Item::Of(t), wanted) {
            Some(others) => after_item(table, Item::Bool, others),
            None => None,
        },
        Given::Results(types) => after_all(table, types, wanted),
    }
}

// What is wanted after an expression.
fn after_expr<'a>(table: &TypeTable, e: &CoreExpr, wanted: Wanted<'a>) -> Option<Wanted<'a>>
    ensures is { let ts = places table.now in IfSome result (λ w. wanted_of ts wanted.entry ≡ types_of (names table.now) (expr_view ts e.now) ++ wanted_of ts w) }
{
    match given_by(table, e) {
        Some(g) => after_given(table, g, wanted),
        None => None,
    }
}

/// Whether expressions give values of these types.
pub fn all_give(table: &TypeTable, list: &CoreExprs, wanted: Wanted<'_>) -> bool
    ensures is { let ts = places table.now in result ≡ true → all_types (names table.now) (exprs_view ts list.now) ≡ wanted_of ts wanted.entry }
{
    let mut rest = wanted;
    for e in &list.items {
        match after_expr(table, e, rest) {
            Some(others) => rest = others,
            None => return false,
        }
    }
    rest.is_empty()
}

/// Whether an expression gives values of these types.
pub fn gives_all(table: &TypeTable, e: &CoreExpr, wanted: Wanted<'_>) -> bool
    ensures is { let ts = places table.now in result ≡ true → types_of (names table.now) (expr_view ts e.now) ≡ wanted_of ts wanted.entry }
{
    match after_expr(table, e, wanted) {
        Some(rest) => rest.is_empty(),
        None => false,
    }
}
