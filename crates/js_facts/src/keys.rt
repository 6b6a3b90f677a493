//! The texts under which methods are found: in the dictionary of a dynamic type, by name, package and
//! signature; among the program's rows, by type, name and package.

use gj_base::{NoMemory, Text};
use go_type::types::{Sig, TypeId};
use std::alloc::Global;

fn push_number(out: &mut Text, n: u64) -> Result<(), NoMemory> {
    let mut room = [b'0'; 20];
    let mut from: usize = 20;
    let mut rest = n;
    for i in 0..20 {
        room[19 - i] = b'0' + (rest % 10) as u8;
        if rest != 0 {
            from = 19 - i;
        }
        rest /= 10;
    }
    out.push_bytes(&room[from.min(19)..])
}

fn push_ids(out: &mut Text, ids: &[TypeId]) -> Result<(), NoMemory> {
    for id in ids {
        push_number(out, id.0)?;
        out.push(b',')?;
    }
    Ok(())
}

/// The text of a method's name, package and signature: it begins with `$`, as each key of a dictionary.
pub fn method_key(alloc: Global, name: &Text, package: &Text, sig: &Sig) -> Result<Text, NoMemory> {
    let mut out = Text::from_slice(alloc, b"$")?;
    out.push_bytes(name.as_bytes())?;
    out.push(b'.')?;
    out.push_bytes(package.as_bytes())?;
    out.push(b':')?;
    if sig.variadic {
        out.push(b'v')?;
    }
    push_ids(&mut out, sig.params.as_slice())?;
    out.push(b'>')?;
    push_ids(&mut out, sig.results.as_slice())?;
    Ok(out)
}

/// The text of a row's type, name and package.
pub fn row_key(alloc: Global, t: TypeId, name: &Text, package: &Text) -> Result<Text, NoMemory> {
    let mut out = Text::new(alloc);
    push_number(&mut out, t.0)?;
    out.push(b'.')?;
    out.push_bytes(name.as_bytes())?;
    out.push(b'.')?;
    out.push_bytes(package.as_bytes())?;
    Ok(out)
}
