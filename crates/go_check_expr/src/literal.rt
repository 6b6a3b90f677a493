//! Composite literals. Go, "Composite literals".
//!
//! A literal is begun with its type, takes its elements one by one, and ends as an operand. Only
//! `literal` goes over the tree.

use crate::expr::{Around, NOTHING, operand};
use gj_base::{NoMemory, Place, Text};
use go_check_operand::assignment::assignment;
use go_check_primary::type_row::array_type;
use go_check_state::node::{ConstId, Node};
use go_check_state::{BLANK, Checker, FaultCode, NONE, Operand, Shape};
use go_const::Const;
use go_syntax::tree::{Elem, Expr, ExprForm};
use go_type::types::TypeId;
use std::collections::{BTreeSet, HashSet};

/// The greatest length of an array, one more than the greatest index.
const MOST: u32 = 2147483647;

/// What a literal is of.
#[derive(Clone, Copy, Debug, PartialEq, Eq)]
enum Kind {
    Struct,
    /// An array or a slice.
    List,
    /// An array whose length is counted.
    Counted,
    Map,
    /// A type without literals, or none.
    Nothing,
}

/// What is known of a literal from its type alone.
#[derive(Clone, Copy, Debug)]
struct Head {
    place: Place,
    ty: TypeId,
    kind: Kind,
    key: TypeId,
    of: TypeId,
    /// How many fields or elements there may be.
    limit: u32,
}

/// A literal so far.
#[derive(Drop)]
pub struct Building {
    head: Head,
    /// Whether the first element has a key.
    keyed: Option<bool>,
    /// Where an element without a key goes, and one past the last element.
    next: u32,
    count: u32,
    /// How many elements there were, and how many of the first ones had no key.
    seen: u32,
    first: u32,
    known: bool,
    /// Whether a value isn't typed, of whatever type it is to be.
    untyped: bool,
    /// The index or the key, and the value, of each element.
    list: Vec<u32>,
    /// The fields or indexes that have a value, but for the first elements without keys.
    taken: BTreeSet<u32>,
    numbers: BTreeSet<i128>,
    texts: HashSet<Text>,
}

/// Begins a literal of a type, or of an array of it whose length is counted.
pub fn begin(c: &Checker, place: Place, t: TypeId, counts: bool) -> Building {
    let (kind, key, of, limit) = match c.shape(t) {
        _ if counts => (Kind::Counted, NONE, t, MOST),
        Shape::Struct(count) if count <= 1000 => (Kind::Struct, NONE, NONE, count as u32),
        Shape::Array(n, of) => (Kind::List, NONE, of, n),
        Shape::Slice(of) => (Kind::List, NONE, of, MOST),
        Shape::Map(key, of) => (Kind::Map, key, of, 0),
        _ => (Kind::Nothing, NONE, NONE, 0),
    };
    Building {
        head: Head {
            place,
            ty: t,
            kind,
            key,
            of,
            limit,
        },
        keyed: None,
        next: 0,
        count: 0,
        seen: 0,
        first: 0,
        known: true,
        untyped: false,
        list: Vec::new(c.alloc),
        taken: BTreeSet::new(c.alloc),
        numbers: BTreeSet::new(c.alloc),
        texts: HashSet::new(c.alloc),
    }
}

/// The type of a literal that leaves its own out, and whether it stands for a pointer to one.
pub fn elided_type(c: &Checker, t: TypeId) -> (TypeId, bool) {
    match c.shape(t) {
        Shape::Pointer(of) => (of, true),
        _ => (t, false),
    }
}

/// The elements, in order.
#[cycle(operand)]
pub fn literal(c: &mut Checker, b: &mut Building, elems: &Vec<Elem>) -> Result<(), NoMemory> {
    for elem in elems {
        one_form(c, b, elem)?;
        let at = match &elem.key {
            Some(key) if is_field_name(b.head, key) => field_key(c, b, key)?,
            Some(key) => {
                let x = operand(c, key, around(b.head.key))?;
                element_key(c, b, key.place, x)?
            }
            None => next_place(c, b, elem.value.place)?,
        };
        let wanted = wanted_at(c, b.head, at);
        let x = operand(c, &elem.value, value_around(b.head, wanted))?;
        add(c, b, at, wanted, x, is_bare(&elem.value))?;
    }
    Ok(())
}

fn around(elided: TypeId) -> Around {
    Around { elided, ..NOTHING }
}

// A field's literal has its type.
fn value_around(head: Head, wanted: TypeId) -> Around {
    match head.kind {
        Kind::Struct => NOTHING,
        _ => around(wanted),
    }
}

// Whether a literal leaves its type out.
fn is_bare(e: &Expr) -> bool {
    match &*e.form {
        ExprForm::Literal(None, _) => true,
        _ => false,
    }
}

// Whether all elements of such a literal have a key, or none has.
fn has_one_form(kind: Kind) -> bool {
    match kind {
        Kind::Struct | Kind::Map => true,
        _ => false,
    }
}

// F69 at the first element whose form differs from the first one's.
fn one_form(c: &mut Checker, b: &mut Building, elem: &Elem) -> Result<(), NoMemory> {
    let has = elem.key.is_some();
    let Some(keyed) = b.keyed else {
        b.keyed = Some(has);
        return Ok(());
    };
    if keyed == has || !has_one_form(b.head.kind) {
        return Ok(());
    }
    if b.known {
        c.fault(FaultCode::BadLiteral, elem_place(elem))?;
    }
    b.known = false;
    Ok(())
}

fn elem_place(elem: &Elem) -> Place {
    match &elem.key {
        Some(key) => key.place,
        None => elem.value.place,
    }
}

// Whether a key is a name that is no expression: of a field, or of what is no literal at all.
fn is_field_name(head: Head, key: &Expr) -> bool {
    match &*key.form {
        ExprForm::Name(_) => head.kind == Kind::Struct || head.kind == Kind::Nothing,
        _ => head.kind == Kind::Struct,
    }
}

// Whether a field or an index has a value.
fn is_taken(b: &Building, at: u32) -> bool {
    at < b.first || b.taken.contains(&at)
}

// The field that a key names: F69 where it is unknown, unexported or repeated.
fn field_key(c: &mut Checker, b: &Building, key: &Expr) -> Result<Option<u32>, NoMemory> {
    if b.head.kind == Kind::Nothing {
        return Ok(None);
    }
    let found = match &*key.form {
        ExprForm::Name(text) => field_number(c, b.head, text)?,
        _ => None,
    };
    match found {
        Some(at) if !is_taken(b, at) => Ok(Some(at)),
        _ => {
            c.fault(FaultCode::BadLiteral, key.place)?;
            Ok(None)
        }
    }
}

// The field with a name here.
fn field_number(c: &mut Checker, head: Head, text: &Text) -> Result<Option<u32>, NoMemory> {
    let id = c.names.intern(text.as_bytes())?;
    if id == BLANK {
        return Ok(None);
    }
    let package = c.names.text(c.package_of(id));
    for number in 0..head.limit {
        if let Some(row) = c.field(head.ty, number as usize) {
            if row.name == *text && row.package == *package {
                return Ok(Some(number));
            }
        }
    }
    Ok(None)
}

// The index or the key of an element: F69 where it is no constant index, or was there.
fn element_key(
    c: &mut Checker,
    b: &mut Building,
    place: Place,
    x: Operand,
) -> Result<Option<u32>, NoMemory> {
    match b.head.kind {
        Kind::Map => map_key(c, b, place, x),
        Kind::List | Kind::Counted => index_key(c, b, place, x),
        _ => Ok(None),
    }
}

fn index_key(
    c: &mut Checker,
    b: &Building,
    place: Place,
    x: Operand,
) -> Result<Option<u32>, NoMemory> {
    if x.is_unknown() {
        return Ok(None);
    }
    let at = match x.constant() {
        Some(id) if c.is_integer(x.ty) => c.small_number(id, b.head.limit),
        _ => None,
    };
    match at {
        Some(at) if at < b.head.limit && !is_taken(b, at) => Ok(Some(at)),
        _ => {
            c.fault(FaultCode::BadLiteral, place)?;
            Ok(None)
        }
    }
}

// The node of a map's key: F69 at a constant that was there.
fn map_key(
    c: &mut Checker,
    b: &mut Building,
    place: Place,
    x: Operand,
) -> Result<Option<u32>, NoMemory> {
    let x = assignment(c, x, b.head.key)?;
    if x.is_unknown() {
        return Ok(None);
    }
    if let Node::Const { value, .. } = c.nodes.get(x.node) {
        if !is_new_key(c, b, value)? {
            c.fault(FaultCode::BadLiteral, place)?;
            return Ok(None);
        }
    }
    Ok(Some(x.node.0))
}

// Notes a constant key. Answers whether it wasn't there.
fn is_new_key(c: &Checker, b: &mut Building, id: ConstId) -> Result<bool, NoMemory> {
    match c.constant(id) {
        Some(Const::Int(x)) | Some(Const::Rune(x)) => Ok(b.numbers.insert(*x)?),
        Some(Const::Bool(x)) => Ok(b.numbers.insert(if *x { 1 } else { 0 })?),
        Some(Const::Text(text)) => {
            if b.texts.contains(text) {
                return Ok(false);
            }
            b.texts.insert(text.clone()?)?;
            Ok(true)
        }
        None => Ok(true),
    }
}

// Where an element without a key goes: F69 past the end, or where one was, or at a hidden field.
fn next_place(c: &mut Checker, b: &Building, place: Place) -> Result<Option<u32>, NoMemory> {
    let at = match b.head.kind {
        Kind::Struct => b.seen,
        Kind::List | Kind::Counted => b.next,
        _ => return Ok(None),
    };
    let fits = at < b.head.limit && !is_taken(b, at);
    if fits && (b.head.kind != Kind::Struct || is_visible(c, b.head.ty, at)) {
        return Ok(Some(at));
    }
    if b.head.kind != Kind::Struct || b.seen <= b.head.limit {
        c.fault(FaultCode::BadLiteral, place)?;
    }
    Ok(None)
}

// Whether a field may be given by place in this package.
fn is_visible(c: &Checker, t: TypeId, number: u32) -> bool {
    match c.field(t, number as usize) {
        Some(row) => {
            row.package.as_bytes().is_empty()
                || match c.paths.get(c.package as usize) {
                    Some(path) => row.package == *c.names.text(*path),
                    None => false,
                }
        }
        None => false,
    }
}

// The type that the value at a place is to have.
fn wanted_at(c: &Checker, head: Head, at: Option<u32>) -> TypeId {
    match (head.kind, at) {
        (Kind::Struct, Some(at)) => c.field_type(head.ty, at as usize),
        _ => head.of,
    }
}

// One more element: F69 at a field's literal that leaves its type out, F71 at a gate field's value.
fn add(
    c: &mut Checker,
    b: &mut Building,
    at: Option<u32>,
    wanted: TypeId,
    x: Operand,
    bare: bool,
) -> Result<(), NoMemory> {
    if b.head.kind == Kind::Struct {
        if bare {
            c.fault(FaultCode::BadLiteral, x.place)?;
        }
        if let Some(number) = at {
            if c.is_gate(b.head.ty, number as usize) {
                c.fault(FaultCode::NotInProfile, x.place)?;
            }
        }
    }
    b.untyped |= x.is_unknown();
    let x = assignment(c, x, wanted)?;
    b.known = b.known && at.is_some() && !x.is_unknown();
    let at = at.unwrap_or(u32::MAX);
    b.list.push(at)?;
    b.list.push(x.node.0)?;
    if b.head.kind != Kind::Map {
        take(b, at)?;
    }
    b.seen = b.seen.saturating_add(1);
    Ok(())
}

// Notes that a field or an index has a value.
fn take(b: &mut Building, at: u32) -> Result<(), NoMemory> {
    if at == u32::MAX {
        return Ok(());
    }
    if at == b.first && b.seen == b.first {
        b.first = at + 1;
    } else {
        b.taken.insert(at)?;
    }
    b.next = at + 1;
    if b.next > b.count {
        b.count = b.next;
    }
    Ok(())
}

/// The literal as an operand: F69 of a type without literals, with too few values, or of a map without
/// keys.
pub fn end(c: &mut Checker, b: &Building) -> Result<Operand, NoMemory> {
    let head = b.head;
    let few = head.kind == Kind::Struct && b.keyed == Some(false) && b.seen < head.limit;
    let bare = head.kind == Kind::Map && b.keyed == Some(false);
    let none = head.kind == Kind::Nothing && is_known(c, head.ty);
    if !b.untyped && (few || bare || none) {
        return c.fail(FaultCode::BadLiteral, head.place);
    }
    let ty = match head.kind {
        Kind::Counted => array_type(c, head.place, Some(b.count), head.of)?,
        _ => head.ty,
    };
    if !b.known || head.kind == Kind::Nothing || !c.has(ty) {
        return c.unknown(head.place);
    }
    let list = c.nodes.list(b.list.as_slice())?;
    let node = match (head.kind, c.shape(ty)) {
        (Kind::Map, _) => Node::BuildMap { ty, pairs: list },
        (_, Shape::Array(count, _)) => Node::Build {
            ty,
            count,
            elements: list,
        },
        _ => Node::Build {
            ty,
            count: b.count,
            elements: list,
        },
    };
    c.value(head.place, ty, node)
}

fn is_known(c: &Checker, t: TypeId) -> bool {
    match c.shape(t) {
        Shape::Unknown => false,
        _ => true,
    }
}

/// Whether two constants are equal.
pub fn same_constant(c: &Checker, a: ConstId, b: ConstId) -> bool {
    if let (Some(x), Some(y)) = (c.number_of(a), c.number_of(b)) {
        return x == y;
    }
    if let (Some(x), Some(y)) = (c.text_of(a), c.text_of(b)) {
        return *x == *y;
    }
    match (c.truth_of(a), c.truth_of(b)) {
        (Some(x), Some(y)) => x == y,
        _ => false,
    }
}
