//! The numbers and the names of functions.
//!
//! Declared functions and literals come first, in the order of files and text; then wrappers of promoted
//! methods, other functions that are made, and those of the hidden type of run-time panics (own).

use gj_base::{NoMemory, Text};
use go_check_state::{Checker, EMPTY, FuncRow, INIT, Shape};
use go_type::types::TypeId;

/// A function's place in the order.
#[derive(Clone, Copy, Debug)]
struct Key {
    group: u32,
    file: u32,
    offset: u32,
    id: u32,
}

fn group(row: FuncRow, hidden: TypeId) -> u32 {
    if row.name != EMPTY || row.is_literal {
        return 0;
    }
    match row.receiver {
        Some(t) if t.0 == hidden.0 => 3,
        Some(_) => 1,
        None => 2,
    }
}

/// The functions in their order.
pub fn ordered(c: &Checker, hidden: TypeId) -> Result<Vec<u32>, NoMemory> {
    let mut keys: Vec<Key> = Vec::new(c.alloc);
    let mut id = 0u32;
    for row in c.funcs.iter() {
        keys.push(Key {
            group: group(*row, hidden),
            file: row.place.file,
            offset: row.place.offset,
            id,
        })?;
        id = id.saturating_add(1);
    }
    keys.sort_unstable_by_key(|key| (key.group, key.file, key.offset, key.id));
    let mut order: Vec<u32> = Vec::new(c.alloc);
    for key in keys.iter() {
        order.push(key.id)?;
    }
    Ok(order)
}

/// The number of each function.
pub fn numbers(c: &Checker, order: &Vec<u32>) -> Result<Vec<u32>, NoMemory> {
    let mut out: Vec<u32> = Vec::new(c.alloc);
    for _ in 0..c.funcs.len() {
        out.push(0)?;
    }
    let mut number = 0u32;
    for id in order.iter() {
        if (*id as usize) < out.len() {
            out[*id as usize] = number;
        }
        number = number.saturating_add(1);
    }
    Ok(out)
}

/// What was counted while functions get their names.
#[derive(Drop)]
pub struct Counts {
    /// The names of functions that have one.
    names: Vec<Text>,
    /// The literals of each top-level function.
    literals: Vec<u32>,
    /// The literals in initialisers, and the `init` functions, of each package.
    loose: Vec<u32>,
    inits: Vec<u32>,
}

impl Counts {
    /// Nothing counted yet.
    pub fn new(c: &Checker) -> Result<Counts, NoMemory> {
        let mut counts = Counts {
            names: Vec::new(c.alloc),
            literals: Vec::new(c.alloc),
            loose: Vec::new(c.alloc),
            inits: Vec::new(c.alloc),
        };
        for _ in 0..c.funcs.len() {
            counts.names.push(Text::new(c.alloc))?;
            counts.literals.push(0)?;
        }
        for _ in 0..c.paths.len() {
            counts.loose.push(0)?;
            counts.inits.push(0)?;
        }
        Ok(counts)
    }
}

// The next number of a list of counts, from 1.
fn next(list: &mut Vec<u32>, at: u32) -> u32 {
    if (at as usize) < list.len() {
        let number = list[at as usize].saturating_add(1);
        list[at as usize] = number;
        return number;
    }
    0
}

// A number in decimal.
fn push_number(c: &Checker, text: &mut Text, number: u32) -> Result<(), NoMemory> {
    let mut digits: Vec<u8> = Vec::new(c.alloc);
    let mut rest = number;
    for _ in 0..10u32 {
        let digit = b"0123456789"
            .get((rest % 10) as usize)
            .copied()
            .unwrap_or(b'0');
        digits.push(digit)?;
        rest /= 10;
        if rest == 0 {
            break;
        }
    }
    digits.reverse();
    text.push_bytes(digits.as_slice())?;
    Ok(())
}

// The path of a package, and a dot; the root is told as `main`.
fn prefix(c: &Checker, package: u32) -> Result<Text, NoMemory> {
    let mut text = Text::new(c.alloc);
    let path = match c.paths.get(package as usize) {
        Some(path) => c.names.text(*path).as_bytes(),
        None => b"",
    };
    if path.is_empty() {
        text.push_bytes(b"main")?;
    } else {
        text.push_bytes(path)?;
    }
    text.push_bytes(b".")?;
    Ok(text)
}

// The name of a receiver's type.
fn type_name(c: &Checker, text: &mut Text, t: TypeId) -> Result<(), NoMemory> {
    let t = match c.level(t) {
        Shape::Pointer(of) => of,
        _ => t,
    };
    if let Shape::Named(id) = c.level(t) {
        if id.0 < c.types.name_len() {
            text.push_bytes(c.types.named(id).name.as_bytes())?;
        }
    }
    text.push_bytes(b".")?;
    Ok(())
}

// The function outside of which no other is.
fn top(c: &Checker, id: u32) -> u32 {
    let mut at = id;
    for _ in 0..c.funcs.len() {
        match c.func(at) {
            Some(row) => match row.parent {
                Some(parent) => at = parent,
                None => return at,
            },
            None => return at,
        }
    }
    at
}

/// The name of a function, which those before it in the order have got.
pub fn name(c: &Checker, counts: &mut Counts, id: u32) -> Result<Text, NoMemory> {
    let Some(row) = c.func(id) else {
        return Ok(Text::new(c.alloc));
    };
    if row.is_literal {
        return literal_name(c, counts, id, row);
    }
    if row.name == EMPTY {
        return Ok(Text::new(c.alloc));
    }
    let mut text = prefix(c, row.package)?;
    if let Some(t) = row.receiver {
        type_name(c, &mut text, t)?;
    }
    text.push_bytes(c.names.text(row.name).as_bytes())?;
    if row.name == INIT && row.receiver.is_none() {
        text.push_bytes(b".")?;
        push_number(c, &mut text, next(&mut counts.inits, row.package))?;
    }
    if (id as usize) < counts.names.len() {
        counts.names[id as usize] = text.clone()?;
    }
    Ok(text)
}

fn literal_name(c: &Checker, counts: &mut Counts, id: u32, row: FuncRow) -> Result<Text, NoMemory> {
    let top = top(c, id);
    let is_loose = match c.func(top) {
        Some(row) => row.is_literal,
        None => true,
    };
    if is_loose {
        let mut text = prefix(c, row.package)?;
        text.push_bytes(b"$")?;
        push_number(c, &mut text, next(&mut counts.loose, row.package))?;
        return Ok(text);
    }
    let mut text = match counts.names.get(top as usize) {
        Some(name) => name.clone()?,
        None => Text::new(c.alloc),
    };
    text.push_bytes(b"$")?;
    push_number(c, &mut text, next(&mut counts.literals, top))?;
    Ok(text)
}
