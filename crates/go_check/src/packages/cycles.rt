//! Declarations that need themselves.

use crate::packages::unit::Units;
use gj_base::NoMemory;
use go_check_state::state::Colour;
use go_check_state::{Checker, FaultCode};

// Whether a declaration needs itself, by what attempts found.
fn needs_itself(c: &Checker, u: &Units<'_>, unit: u32) -> Result<bool, NoMemory> {
    let mut seen: Vec<bool> = Vec::new(c.alloc);
    for _ in 0..c.units.len() {
        seen.push(false)?;
    }
    let mut stack: Vec<u32> = Vec::new(c.alloc);
    stack.push(unit)?;
    for _ in 0..u.edges.len().saturating_add(2) {
        let Some(top) = stack.pop() else {
            return Ok(false);
        };
        for (from, to) in u.edges.iter() {
            if *from == top {
                if *to == unit {
                    return Ok(true);
                }
                if (*to as usize) < seen.len() && !seen[*to as usize] {
                    seen[*to as usize] = true;
                    stack.push(*to)?;
                }
            }
        }
    }
    Ok(false)
}

/// F74 at each name of a declaration that is stuck because it needs itself.
pub fn tell_cycles(c: &mut Checker, u: &Units<'_>) -> Result<(), NoMemory> {
    for unit in 0..u.rows.len() {
        let stuck = c.units.get(unit).copied() == Some(Colour::Stuck);
        if stuck && unit <= u32::MAX as usize && needs_itself(c, u, unit as u32)? {
            if let Some(row) = u.rows.get(unit).copied() {
                for number in row.start..row.start.saturating_add(row.len) {
                    if let Some(name) = u.names.get(number).copied() {
                        c.fault(FaultCode::RecursiveType, name.place)?;
                    }
                }
            }
        }
    }
    Ok(())
}
