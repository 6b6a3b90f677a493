//! Types whose parts are typed. Go, "Types".

use gj_base::{NoMemory, Place};
use go_check_operand::assignment::single_value;
use go_check_state::{Checker, FaultCode, Mode, NONE, Operand};
use go_syntax::tree::ChanDir;
use go_type::types::{Dir, TypeId};

/// The direction of a channel type.
pub fn direction(dir: ChanDir) -> Dir {
    match dir {
        ChanDir::Both => Dir::Both,
        ChanDir::Send => Dir::Send,
        ChanDir::Receive => Dir::Receive,
    }
}

/// The type that an operand is.
pub fn wanted_type(c: &mut Checker, x: Operand, direct: bool) -> Result<TypeId, NoMemory> {
    match x.mode {
        Mode::TypeName => {
            if direct && !c.need(x.ty)? {
                return Ok(NONE);
            }
            Ok(x.ty)
        }
        Mode::Unknown => Ok(NONE),
        _ => {
            c.fault(FaultCode::NotAType, x.place)?;
            Ok(NONE)
        }
    }
}

/// The length of an array: F78 where it is no constant from 0 to 2147483647. Go, "Array types".
pub fn array_length(c: &mut Checker, x: Operand) -> Result<Option<u32>, NoMemory> {
    let x = single_value(c, x)?;
    if x.is_unknown() {
        return Ok(None);
    }
    let length = match x.constant() {
        Some(id) if c.is_integer(x.ty) => c.small_number(id, 2147483647),
        _ => None,
    };
    if length.is_none() {
        c.fault(FaultCode::BadArrayLength, x.place)?;
    }
    Ok(length)
}

/// An array type of a length and a type that are known.
pub fn array_type(
    c: &mut Checker,
    place: Place,
    n: Option<u32>,
    of: TypeId,
) -> Result<TypeId, NoMemory> {
    match n {
        Some(n) => {
            let t = c.array_of(n, of)?;
            small_type(c, place, t)
        }
        None => Ok(NONE),
    }
}

/// F75 at a type past the limit.
pub fn small_type(c: &mut Checker, place: Place, t: TypeId) -> Result<TypeId, NoMemory> {
    if c.size_of(t).is_none() {
        c.fault(FaultCode::TypeTooLarge, place)?;
        return Ok(NONE);
    }
    Ok(t)
}

/// A map type: F70 at the place of another key, where both types are known. Go, "Map types".
pub fn map_type(
    c: &mut Checker,
    place: Place,
    key: TypeId,
    of: TypeId,
) -> Result<TypeId, NoMemory> {
    if c.has(key) && c.has(of) && !c.key_type(key) {
        c.fault(FaultCode::BadMapKey, place)?;
        return Ok(NONE);
    }
    c.map_of(key, of)
}
