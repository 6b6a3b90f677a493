//! The kinds of nodes whose step looks at its operands and the memory alone.
//!
//! The Go Programming Language Specification (as of Go 1.17), "Expressions", "Order of evaluation".

ghost use Rattle.std.specs.Prelude.{◌≡◌, List};
ghost use Rattle.go_type.specs.Levels.{tree_of};
ghost use Rattle.go_type.specs.Table.{places};
ghost use Rattle.go_core.specs.CoreView.{program_view};
ghost use Rattle.go_core.specs.Did as did;
ghost use Rattle.go_core.specs.Operator as defined;
ghost use Rattle.go_type.specs.Tree.{Ty};
ghost use Rattle.go_values.specs.ValuesSeen.{value_of, values_of, memory_of};
ghost use Rattle.go_values.specs.OperatorsSeen.{Does, Found};
ghost use Rattle.go_slices.specs.Seen.{operator_of};
ghost use Rattle.go_slices.specs.CompositesFound.{PairFound};

use crate::composites::build::build_step;
use crate::composites::globals::global_step;
use crate::composites::interfaces::{
    assert_step, basic_step, bind_dynamic_step, bind_step, wrap_step,
};
use crate::maps::maps::{build_map_step, map_delete_step, map_get_step};
use crate::slices::append::{append_step, copy_step};
use crate::slices::gates::gate_step;
use crate::slices::lengths::{cap_step, len_step};
use crate::slices::makes::{make_channel_step, make_map_step, make_slice_step};
use crate::slices::slicing::{Written, none_left, slice_step};
use gj_base::{Op, Text};
use go_core::node::{Constant, MethodName};
use go_core::program::Program;
use go_type::types::TypeId;
use go_values::operators::convert::convert_step;
use go_values::operators::did::{Context, Gives, Stop, gives_value};
use go_values::operators::numbers::{
    binary_step, concat_step, equal_step, less_step, not_step, unary_step,
};
use go_values::operators::places::{
    byte_at_step, constant_step, deref_step, elem_step, field_step, new_step, read_step,
    slice_elem_step, zero_step,
};
use go_values::values::level::underlying;
use go_values::values::memory::Memory;
use go_values::values::scalar::Scalar;

/// A kind of node.
#[derive(Clone, Copy)]
pub enum Operator<'p> {
    GiveConstant(&'p Constant),
    GiveZero(TypeId),
    AtGlobal(u64),
    AtPointer,
    AtField {
        struct_type: TypeId,
        number: u64,
    },
    AtElem(TypeId),
    AtSliceElem(TypeId),
    ReadPlace(TypeId),
    /// A place is given as the pointer to it already.
    ToAddress,
    ToUnary(Op, TypeId),
    ToBinary(Op, TypeId),
    ToConcat,
    ToNot,
    ToEqual {
        negated: bool,
        operands: TypeId,
    },
    ToLess {
        op: Op,
        operands: TypeId,
    },
    ToConverted {
        from: TypeId,
        to: TypeId,
    },
    ToByte,
    ToSlice {
        from: TypeId,
        written: Written,
    },
    ToBuilt {
        ty: TypeId,
        count: u64,
        indexes: &'p [u64],
    },
    ToBuiltMap(TypeId),
    ToBound(&'p MethodName),
    ToBoundDynamic {
        name: &'p Text,
        package: &'p Text,
    },
    GetEntry {
        map_type: TypeId,
        ok: bool,
    },
    DeleteEntry(TypeId),
    ToLen(TypeId),
    ToCap(TypeId),
    ToAppended(TypeId),
    ToCopied(TypeId),
    ToNewSlice(TypeId),
    ToNewMap,
    ToNewChannel,
    ToNew(TypeId),
    ToInterface(TypeId),
    ToAsserted {
        ty: TypeId,
        ok: bool,
    },
    ToBasic,
    ToGate,
}

// The one operand.
fn one<'a>(vs: &[&'a [Scalar<'a>]]) -> Result<&'a [Scalar<'a>], Stop>
    ensures value { (ts : List Ty) → Found (λ x. value_of ts x.now) result (did.on_one (values_of ts vs.now)) }
{
    match vs {
        [x] => Ok(*x),
        _ => Err(Stop::NoStep),
    }
}

/// Two operands, from the left.
#[derive(Clone, Copy)]
pub struct Pair<'a> {
    pub left: &'a [Scalar<'a>],
    pub right: &'a [Scalar<'a>],
}

// The two operands.
fn two<'a>(vs: &[&'a [Scalar<'a>]]) -> Result<Pair<'a>, Stop>
    ensures value { (ts : List Ty) → PairFound ts result (did.on_two (values_of ts vs.now)) }
{
    match vs {
        [x, y] => Ok(Pair {
            left: *x,
            right: *y,
        }),
        _ => Err(Stop::NoStep),
    }
}

/// A step of this kind, with these operands, from the left. `wanted` is the capacity that a growing
/// append wants, where Go leaves it open.
pub fn operated<'a>(
    c: &Context<'a>,
    p: &Program,
    wanted: u64,
    operator: Operator,
    vs: &[&'a [Scalar<'a>]],
    m: &Memory<'a>,
) -> Result<Gives<'a>, Stop>
    requires { c.now.table.now ≡ p.now.types }
    ensures value { let ts = places p.now.types in Does ts (memory_of ts m.now) result (defined.operated (program_view p.now) wanted (operator_of ts operator.entry) (values_of ts vs.now) (memory_of ts m.now)) }
{
    match operator {
        Operator::GiveConstant(value) => {
            none_left(vs)?;
            constant_step(c, value)
        }
        Operator::GiveZero(t) => {
            none_left(vs)?;
            zero_step(c, t)
        }
        Operator::AtGlobal(number) => {
            none_left(vs)?;
            global_step(c, p, number)
        }
        Operator::AtPointer => {
            let x = one(vs)?;
            deref_step(c, x)
        }
        Operator::AtField {
            struct_type,
            number,
        } => {
            let x = one(vs)?;
            field_step(c, struct_type, number, x)
        }
        Operator::AtElem(t) => {
            let xs = two(vs)?;
            elem_step(c, underlying(c.table, t), xs.left, xs.right)
        }
        Operator::AtSliceElem(t) => {
            let xs = two(vs)?;
            slice_elem_step(c, underlying(c.table, t), xs.left, xs.right)
        }
        Operator::ReadPlace(t) => {
            let x = one(vs)?;
            read_step(c, t, x, m)
        }
        Operator::ToAddress => {
            let x = one(vs)?;
            Ok(gives_value(x, 0))
        }
        Operator::ToUnary(op, t) => {
            let x = one(vs)?;
            unary_step(c, op, t, x)
        }
        Operator::ToBinary(op, t) => {
            let xs = two(vs)?;
            binary_step(c, op, t, xs.left, xs.right)
        }
        Operator::ToConcat => {
            let xs = two(vs)?;
            concat_step(c, xs.left, xs.right)
        }
        Operator::ToNot => {
            let x = one(vs)?;
            not_step(c, x)
        }
        Operator::ToEqual { negated, operands } => {
            let xs = two(vs)?;
            equal_step(c, negated, operands, xs.left, xs.right)
        }
        Operator::ToLess { op, operands } => {
            let xs = two(vs)?;
            less_step(c, op, underlying(c.table, operands), xs.left, xs.right)
        }
        Operator::ToConverted { from, to } => {
            let x = one(vs)?;
            convert_step(c, from, to, x, m)
        }
        Operator::ToByte => {
            let xs = two(vs)?;
            byte_at_step(c, xs.left, xs.right)
        }
        Operator::ToSlice { from, written } => slice_step(c, from, written, vs),
        Operator::ToBuilt { ty, count, indexes } => build_step(c, ty, count, indexes, vs, m),
        Operator::ToBuiltMap(t) => build_map_step(c, underlying(c.table, t), vs, m),
        Operator::ToBound(method) => {
            let x = one(vs)?;
            bind_step(c, p, method, x)
        }
        Operator::ToBoundDynamic { name, package } => {
            let x = one(vs)?;
            bind_dynamic_step(c, p, name.as_bytes(), package.as_bytes(), x)
        }
        Operator::GetEntry { map_type, ok } => {
            let xs = two(vs)?;
            map_get_step(c, underlying(c.table, map_type), ok, xs.left, xs.right, m)
        }
        Operator::DeleteEntry(t) => {
            let xs = two(vs)?;
            map_delete_step(c, underlying(c.table, t), xs.left, xs.right, m)
        }
        Operator::ToLen(from) => {
            let x = one(vs)?;
            len_step(c, from, x, m)
        }
        Operator::ToCap(from) => {
            let x = one(vs)?;
            cap_step(c, from, x, m)
        }
        Operator::ToAppended(t) => {
            let xs = two(vs)?;
            append_step(c, underlying(c.table, t), wanted, xs.left, xs.right, m)
        }
        Operator::ToCopied(t) => {
            let xs = two(vs)?;
            copy_step(c, underlying(c.table, t), xs.left, xs.right, m)
        }
        Operator::ToNewSlice(t) => make_slice_step(c, underlying(c.table, t), vs, m),
        Operator::ToNewMap => make_map_step(c, vs, m),
        Operator::ToNewChannel => make_channel_step(c, vs, m),
        Operator::ToNew(t) => {
            none_left(vs)?;
            new_step(c, t, m)
        }
        Operator::ToInterface(from) => {
            let x = one(vs)?;
            wrap_step(c, from, x)
        }
        Operator::ToAsserted { ty, ok } => {
            let x = one(vs)?;
            assert_step(c, p, ty, ok, x)
        }
        Operator::ToBasic => {
            let x = one(vs)?;
            basic_step(c, x)
        }
        Operator::ToGate => {
            let x = one(vs)?;
            gate_step(c, x, m)
        }
    }
}
