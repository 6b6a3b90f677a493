//! What is looked at once all declarations are typed: initialisers, bodies, embedded pointers.

use crate::packages::resolve::{enter, initialise};
use crate::packages::unit::{UnitForm, Units};
use gj_base::NoMemory;
use go_check_state::{Checker, FaultCode, Shape};
use go_check_stmt::literals::{Literals, in_expr};
use go_check_stmt::{BodyRow, add_literals};
use go_syntax::tree::Expr;

/// Initialisers of variables with a type.
pub fn initialisers(c: &mut Checker, u: &Units<'_>) -> Result<(), NoMemory> {
    for number in 0..u.rows.len() {
        if let Some(row) = u.rows.get(number).copied() {
            if let UnitForm::Var(Some(_), Some(e)) = row.form {
                enter(c, row.package, row.file);
                initialise(c, u, row, e)?;
            }
        }
    }
    Ok(())
}

/// The functions and methods with their bodies, and the function literals of initialisers.
pub fn functions<'a>(c: &mut Checker, u: &Units<'a>) -> Result<Vec<BodyRow<'a>>, NoMemory> {
    let mut rows: Vec<BodyRow<'a>> = Vec::new(c.alloc);
    for number in 0..u.bodies.len() {
        if let Some(row) = u.bodies.get(number).copied() {
            rows.push(row)?;
        }
    }
    for number in 0..u.rows.len() {
        if let Some(row) = u.rows.get(number).copied() {
            match row.form {
                UnitForm::Var(_, Some(e)) => literals_of(c, &mut rows, e)?,
                UnitForm::Miscounted(Some(spec), _) => {
                    for e in &spec.values {
                        literals_of(c, &mut rows, e)?;
                    }
                }
                _ => {}
            }
        }
    }
    Ok(rows)
}

fn literals_of<'a>(c: &Checker, rows: &mut Vec<BodyRow<'a>>, e: &'a Expr) -> Result<(), NoMemory> {
    let mut literals = Literals {
        rows: Vec::new(c.alloc),
    };
    in_expr(&mut literals, e)?;
    add_literals(c, rows, &literals)
}

/// F51 at an embedded `*T` where T is a pointer or interface type. Go, "Struct types".
pub fn embedded_pointers(c: &mut Checker) -> Result<(), NoMemory> {
    for number in 0..c.embedded.len() {
        if let Some((t, place, star)) = c.embedded.get(number).copied() {
            match c.shape(t) {
                Shape::Pointer(_) => c.fault(FaultCode::NotAType, place)?,
                Shape::Interface(_) if star => c.fault(FaultCode::NotAType, place)?,
                _ => {}
            }
        }
    }
    c.embedded.clear();
    Ok(())
}
