//! The limit of functions (own).

use crate::hidden::NOWHERE;
use gj_base::{NoMemory, Place};
use go_check_state::{Checker, EMPTY, FaultCode};

/// How many functions a program may have.
pub const MOST: usize = 65535;

/// F79 at the first function or literal past the limit, in the order of files and text, where it has no other
/// fault.
pub fn tell_written(c: &mut Checker) -> Result<(), NoMemory> {
    if c.funcs.len() <= MOST {
        return Ok(());
    }
    let mut places: Vec<(Place, u32)> = Vec::new(c.alloc);
    let mut func = 0u32;
    for row in c.funcs.iter() {
        if row.is_literal || row.name != EMPTY {
            places.push((row.place, func))?;
        }
        func = func.saturating_add(1);
    }
    places.sort_unstable_by_key(|at| (at.0.file, at.0.offset));
    match places.get(MOST).copied() {
        Some((at, func)) if !c.is_spoiled(func) => c.fault(FaultCode::TooManyFunctions, at),
        _ => Ok(()),
    }
}

/// F79 at the start of the root's first file where functions that are made pass the limit.
pub fn tell_made(c: &mut Checker) -> Result<(), NoMemory> {
    if c.funcs.len() > MOST {
        return c.fault(FaultCode::TooManyFunctions, NOWHERE);
    }
    Ok(())
}
