//! Calls of types. Go, "Conversions".

use crate::calls::{are_typed, are_values};
use gj_base::{NoMemory, Place};
use go_check_operand::conversion::conversion;
use go_check_state::{Checker, FaultCode, Operand};
use go_type::types::TypeId;

/// `T(args)`: F60 where there isn't one argument.
pub fn conversion_call(
    c: &mut Checker,
    place: Place,
    t: TypeId,
    args: &Vec<Operand>,
    dots: bool,
) -> Result<Operand, NoMemory> {
    if !are_typed(args) || !are_values(c, args)? {
        return c.unknown(place);
    }
    match args.first().copied() {
        Some(x) if args.len() == 1 && !dots => {
            if !c.need(t)? {
                return c.unknown(place);
            }
            conversion(c, place, x, t)
        }
        _ => c.fail(FaultCode::WrongArgumentCount, place),
    }
}
