//! Types whose tags are ignored: "Conversions" of the specification let one stand for the other.

use crate::keys::{push_ids, push_number, push_sig};
use gj_base::{NoMemory, Text};
use go_type::TypeTable;
use go_type::types::{Basis, Dir, FieldRow, GoType, IntName, MethodSpec, TypeId};
use std::alloc::Global;
use std::collections::BTreeMap;

/// For each type of a table the first one that is the same but for tags.
#[derive(Drop)]
pub struct Untagged {
    pub same: Vec<u64>,
}

impl Untagged {
    /// The types of a table. A type has parts that stand before it, or are named.
    pub fn new(alloc: Global, table: &TypeTable) -> Result<Untagged, NoMemory> {
        let mut found = Untagged {
            same: Vec::new(alloc),
        };
        let mut firsts: BTreeMap<Text, u64> = BTreeMap::new(alloc);
        for t in 0..table.len() {
            let key = found.key(alloc, table, TypeId(t))?;
            let first = match firsts.get(&key) {
                Some(n) => *n,
                None => t,
            };
            if first == t {
                let _ = firsts.insert(key, t)?;
            }
            found.same.push(first)?;
        }
        Ok(found)
    }

    /// The first type that is the same but for tags.
    pub fn of(&self, t: TypeId) -> u64 {
        let n = self.same.len() as u64;
        if t.0 < n {
            return self.same[t.0 as usize];
        }
        t.0
    }

    fn key(&self, alloc: Global, table: &TypeTable, t: TypeId) -> Result<Text, NoMemory> {
        let mut out = Text::new(alloc);
        if t.0 >= table.len() {
            return Ok(out);
        }
        match table.get(t) {
            GoType::Bool => out.push(b'b')?,
            GoType::Str => out.push(b's')?,
            GoType::Int(name) => out.push(int_letter(*name))?,
            GoType::Nil => out.push(b'n')?,
            GoType::Untyped(basis) => out.push(basis_letter(*basis))?,
            GoType::Array(n, e) => {
                out.push(b'[')?;
                push_number(&mut out, *n as u64)?;
                self.part(&mut out, *e)?;
            }
            GoType::Slice(e) => {
                out.push(b'l')?;
                self.part(&mut out, *e)?;
            }
            GoType::Struct(fields) => self.fields(&mut out, fields.as_slice())?,
            GoType::Pointer(e) => {
                out.push(b'*')?;
                self.part(&mut out, *e)?;
            }
            GoType::Func(sig) => {
                out.push(b'f')?;
                push_sig(&mut out, self, sig)?;
            }
            GoType::Interface(methods) => self.methods(&mut out, methods.as_slice())?,
            GoType::Map(k, v) => {
                out.push(b'm')?;
                self.part(&mut out, *k)?;
                self.part(&mut out, *v)?;
            }
            GoType::Chan(dir, e) => {
                out.push(dir_letter(*dir))?;
                self.part(&mut out, *e)?;
            }
            GoType::Named(name) => {
                out.push(b'N')?;
                push_number(&mut out, name.0)?;
            }
            GoType::Tuple(ids) => {
                out.push(b't')?;
                push_ids(&mut out, self, ids.as_slice())?;
            }
        }
        Ok(out)
    }

    fn part(&self, out: &mut Text, t: TypeId) -> Result<(), NoMemory> {
        push_number(out, self.of(t))
    }

    fn fields(&self, out: &mut Text, rows: &[FieldRow]) -> Result<(), NoMemory> {
        out.push(b'{')?;
        for row in rows {
            out.push_bytes(row.name.as_bytes())?;
            out.push(b'.')?;
            out.push_bytes(row.package.as_bytes())?;
            out.push(if row.embedded { b'!' } else { b'.' })?;
            self.part(out, row.ty)?;
        }
        Ok(())
    }

    fn methods(&self, out: &mut Text, specs: &[MethodSpec]) -> Result<(), NoMemory> {
        out.push(b'i')?;
        for m in specs {
            out.push_bytes(m.name.as_bytes())?;
            out.push(b'.')?;
            out.push_bytes(m.package.as_bytes())?;
            out.push(b'.')?;
            push_sig(out, self, &m.sig)?;
        }
        Ok(())
    }
}

fn int_letter(name: IntName) -> u8 {
    match name {
        IntName::Int => b'0',
        IntName::Int8 => b'1',
        IntName::Int16 => b'2',
        IntName::Int32 => b'3',
        IntName::Int64 => b'4',
        IntName::Uint => b'5',
        IntName::Uint8 => b'6',
        IntName::Uint16 => b'7',
        IntName::Uint32 => b'8',
        IntName::Uint64 => b'9',
        IntName::Uintptr => b'p',
    }
}

fn basis_letter(basis: Basis) -> u8 {
    match basis {
        Basis::Bool => b'B',
        Basis::Int => b'I',
        Basis::Rune => b'R',
        Basis::Str => b'S',
    }
}

fn dir_letter(dir: Dir) -> u8 {
    match dir {
        Dir::Both => b'=',
        Dir::Send => b'>',
        Dir::Receive => b'<',
    }
}
