//! Texts that tell classes and rows apart.

use crate::untagged::Untagged;
use gj_base::{NoMemory, Text};
use go_type::types::{Sig, TypeId};
use std::alloc::Global;

/// A number with a `,` after it.
pub fn push_number(out: &mut Text, n: u64) -> Result<(), NoMemory> {
    let mut rest = n;
    for _ in 0..20 {
        out.push(b'0' + (rest % 10) as u8)?;
        rest /= 10;
        if rest == 0 {
            return out.push(b',');
        }
    }
    out.push(b',')
}

/// Types, without tags.
pub fn push_ids(out: &mut Text, untagged: &Untagged, ids: &[TypeId]) -> Result<(), NoMemory> {
    for t in ids {
        push_number(out, untagged.of(*t))?;
    }
    out.push(b';')
}

/// A signature, without tags.
pub fn push_sig(out: &mut Text, untagged: &Untagged, sig: &Sig) -> Result<(), NoMemory> {
    push_ids(out, untagged, sig.params.as_slice())?;
    push_ids(out, untagged, sig.results.as_slice())?;
    out.push(if sig.variadic { b'v' } else { b';' })
}

/// The class of the functions of a signature that are values.
pub fn value_key(alloc: Global, untagged: &Untagged, sig: &Sig) -> Result<Text, NoMemory> {
    let mut out = Text::new(alloc);
    push_sig(&mut out, untagged, sig)?;
    Ok(out)
}

/// The class of the methods of a name, a package and a signature.
pub fn method_key(
    alloc: Global,
    untagged: &Untagged,
    name: &Text,
    package: &Text,
    sig: &Sig,
) -> Result<Text, NoMemory> {
    let mut out = Text::new(alloc);
    out.push(b'.')?;
    out.push_bytes(name.as_bytes())?;
    out.push(b'.')?;
    out.push_bytes(package.as_bytes())?;
    out.push(b'.')?;
    push_sig(&mut out, untagged, sig)?;
    Ok(out)
}

/// The row of a method.
pub fn row_key(alloc: Global, t: TypeId, name: &Text, package: &Text) -> Result<Text, NoMemory> {
    let mut out = Text::new(alloc);
    push_number(&mut out, t.0)?;
    out.push_bytes(name.as_bytes())?;
    out.push(b'.')?;
    out.push_bytes(package.as_bytes())?;
    Ok(out)
}
