//! Zero values, and the descriptions of types that functions of the prelude read. Each stands once at the
//! script's top: `$zK()` makes a zero of the struct or array type K, and `$dK` describes the type K.
//!
//! A description is an array with a number first: 0 a blank scalar, 1 a number, 2 a truth value, 3 a string,
//! 4 what is compared by identity, 5 and 6 two halves with a sign and without, 7 a pointer to a scalar, 8 an
//! interface value, 9 what can't be compared, 10 a struct and 11 an array with the descriptions of their
//! parts, 12 a blank struct or array.

ghost use Rattle.js_facts.specs.Held.{how};
ghost use Rattle.js_pool.specs.Stands.{Grows, Builds};
ghost use Rattle.js_body.specs.State.{zero_tree, wide_zero_tree, zero_of};
ghost use Rattle.js_body.specs.Tells.{GivesScalar};

use crate::body::Body;
use gj_base::{Kind, Text};
use go_type::types::{FieldRow, TypeId};
use js_facts::Held;
use js_facts::held::fields;
use js_pool::{ExprId, Name, Pool};

fn tag(held: Held) -> u64 {
    match held {
        Held::Truth => 2,
        Held::Str => 3,
        Held::Small(_) => 1,
        Held::Wide(Kind::I64) => 5,
        Held::Wide(_) => 6,
        Held::Itself => 4,
        Held::Pointer => 7,
        Held::Interface => 8,
        Held::Slice | Held::Map | Held::Func => 9,
        Held::Struct(_) => 10,
        Held::Array(_, _) => 11,
    }
}

// The zero value of what is no struct or array.
fn zero_of(p: &mut Pool, held: Held) -> ExprId
    ensures { Builds p.old p.new result (zero_tree (how held)) }
{
    match held {
        Held::Truth => p.truth(false),
        Held::Str => p.text(b""),
        Held::Small(_) => p.num(0),
        Held::Wide(_) => wide_zero(p),
        _ => p.null(),
    }
}

fn wide_zero(p: &mut Pool) -> ExprId
    ensures { Builds p.old p.new result wide_zero_tree }
{
    let none = p.num(0);
    p.pair(none, none)
}

fn is_blank(name: &Text) -> bool {
    name.as_bytes() == b"_".as_slice()
}

impl<'p> Body<'p> {
    // The number under which a type stands in names.
    fn type_number(&self, t: TypeId) -> u32 {
        let n = self.facts.under(t).0;
        if n < 4294967295 { n as u32 } else { 4294967295 }
    }

    /// The zero value of a type.
    pub fn zero(&mut self, t: TypeId) -> ExprId
        ensures { GivesScalar self.old self.new t result (zero_of t) }
    {
        if self.is_block(t) {
            return self.zero_block(t);
        }
        let held = self.held(t);
        zero_of(&mut self.pool, held)
    }

    fn zero_block(&mut self, t: TypeId) -> ExprId
        ensures { Grows self.old.pool self.new.pool }
    {
        let x = Name::Numbered(b"$z", self.type_number(t));
        self.pool.call_of(x, &[])
    }

    /// An array of so many zero elements.
    pub fn zero_elements(&mut self, n: ExprId, of: TypeId) -> ExprId
        ensures { Grows self.old.pool self.new.pool }
    {
        let z = self.zero(of);
        let d = self.description(of);
        self.pool.call3(b"$zero", n, z, d)
    }

    /// The description of a type.
    pub fn description(&mut self, t: TypeId) -> ExprId
        ensures { Grows self.old.pool self.new.pool }
    {
        let n = self.type_number(t);
        self.pool.name_of(b"$d", n)
    }

    // ---- what stands at the top

    /// Adds the functions of zero structs and arrays to the script's top.
    pub fn add_zeros(&mut self) {
        for t in 0..self.table().len() {
            let t = TypeId(t);
            if self.is_block(t) && self.facts.under(t).0 == t.0 {
                self.add_zero(t);
            }
        }
    }

    // `function $zK(){return [..];}`
    fn add_zero(&mut self, t: TypeId) {
        let mark = self.pool.open();
        let e = match self.held(t) {
            Held::Array(n, of) => {
                let n = self.pool.num(n as u64);
                self.zero_elements(n, of)
            }
            _ => self.zero_fields(t),
        };
        self.pool.give(e);
        let body = self.pool.close(mark);
        let params = self.pool.params(&[]);
        let x = Name::Numbered(b"$z", self.type_number(t));
        self.pool.function(x, params, body);
    }

    fn zero_fields(&mut self, t: TypeId) -> ExprId {
        let mark = self.pool.open_list();
        for row in fields(self.table(), t) {
            let e = self.zero(row.ty);
            self.pool.item(e);
        }
        let items = self.pool.close_list(mark);
        self.pool.array(items)
    }

    /// Adds the descriptions of all types to the script's top, those of their parts first.
    pub fn add_descriptions(&mut self) {
        let mut work = Vec::new(self.pool.alloc);
        let mut done = Vec::new(self.pool.alloc);
        for t in 0..self.table().len() {
            let t = self.facts.under(TypeId(t));
            if done.push(0u8).is_err() || work.push(t).is_err() {
                self.pool.failed = true;
            }
        }
        self.describe_all(&mut work, &mut done);
    }

    // A type is met twice: first its parts are to come, then it is described.
    fn describe_all(&mut self, work: &mut Vec<TypeId>, done: &mut Vec<u8>) {
        for _ in 0..u64::MAX {
            let Some(t) = work.pop() else {
                return;
            };
            let n = t.0 as usize;
            if n >= done.len() || done[n] == 2 {
                continue;
            }
            if done[n] == 1 || !self.is_block(t) {
                done[n] = 2;
                self.describe(t);
                continue;
            }
            done[n] = 1;
            if work.push(t).is_err() {
                self.pool.failed = true;
            }
            self.push_parts(t, work);
        }
    }

    fn push_parts(&mut self, t: TypeId, work: &mut Vec<TypeId>) {
        if let Held::Array(_, of) = self.held(t)
            && work.push(self.facts.under(of)).is_err()
        {
            self.pool.failed = true;
        }
        for row in fields(self.table(), t) {
            if work.push(self.facts.under(row.ty)).is_err() {
                self.pool.failed = true;
            }
        }
    }

    // `var $dK=[..];`
    fn describe(&mut self, t: TypeId) {
        let held = self.held(t);
        let mark = self.pool.open_list();
        let e = self.pool.num(tag(held));
        self.pool.item(e);
        if let Held::Array(_, of) = held {
            let e = self.description(of);
            self.pool.item(e);
        }
        for row in fields(self.table(), t) {
            let e = self.part(row);
            self.pool.item(e);
        }
        let items = self.pool.close_list(mark);
        let e = self.pool.array(items);
        let x = Name::Numbered(b"$d", self.type_number(t));
        self.pool.global(x, e);
    }

    // The description of a field.
    fn part(&mut self, row: &FieldRow) -> ExprId {
        let d = self.description(row.ty);
        if !is_blank(&row.name) {
            return d;
        }
        if self.is_block(row.ty) {
            let e = self.pool.num(12);
            return self.pool.pair(e, d);
        }
        let e = self.pool.num(0);
        self.pool.single(e)
    }
}
