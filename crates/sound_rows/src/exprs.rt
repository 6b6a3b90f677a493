//! Rows of expressions.
//!
//! Go, "Expressions".

use crate::maker::{FIRST, Maker, SECOND};
use gj_base::{NoMemory, Op, Text};
use go_core::node::{
    Callee, Constant, CoreElement, CoreElements, CoreExpr, CoreForm, CorePair, CorePairs,
    MethodName, PlaceForm,
};
use go_core::tree::FuncId;
use go_type::Ids;
use go_type::types::TypeId;

/// An expression of one value. Where it isn't right, a part of it is not what its kind takes.
#[derive(Clone, Copy, Debug)]
pub enum Expr {
    Constant,
    Read,
    Address,
    Element,
    Unary,
    Binary,
    Shift,
    Concat,
    Equal,
    Less,
    AndThen,
    Not,
    Convert,
    ByteAt,
    SliceOf,
    Build,
    BuildMap,
    Closure,
    Call,
    CallMethod,
    MapGet,
    Len,
    Append,
    MakeSlice,
    MakeChan,
    Wrap,
    Assert,
    Receive,
    Recover,
    GateMake,
    Let,
}

impl Expr {
    pub const ALL: [Expr; 31] = [
        Expr::Constant,
        Expr::Read,
        Expr::Address,
        Expr::Element,
        Expr::Unary,
        Expr::Binary,
        Expr::Shift,
        Expr::Concat,
        Expr::Equal,
        Expr::Less,
        Expr::AndThen,
        Expr::Not,
        Expr::Convert,
        Expr::ByteAt,
        Expr::SliceOf,
        Expr::Build,
        Expr::BuildMap,
        Expr::Closure,
        Expr::Call,
        Expr::CallMethod,
        Expr::MapGet,
        Expr::Len,
        Expr::Append,
        Expr::MakeSlice,
        Expr::MakeChan,
        Expr::Wrap,
        Expr::Assert,
        Expr::Receive,
        Expr::Recover,
        Expr::GateMake,
        Expr::Let,
    ];

    /// The expression.
    pub fn expr(self, make: &Maker, right: bool) -> Result<CoreExpr, NoMemory> {
        let form = match self {
            Expr::Constant | Expr::Read | Expr::Address | Expr::Element => {
                self.leaf(make, right)?
            }
            Expr::Unary | Expr::Binary | Expr::Shift | Expr::Concat => {
                self.arithmetic(make, right)?
            }
            Expr::Equal | Expr::Less | Expr::AndThen | Expr::Not => self.truth(make, right)?,
            Expr::Convert | Expr::ByteAt | Expr::SliceOf | Expr::Len | Expr::Append => {
                self.part(make, right)?
            }
            Expr::Build | Expr::BuildMap | Expr::MapGet | Expr::MakeSlice | Expr::MakeChan => {
                self.composite(make, right)?
            }
            Expr::Closure | Expr::Call | Expr::CallMethod | Expr::Recover | Expr::Let => {
                self.call(make, right)?
            }
            Expr::Wrap | Expr::Assert | Expr::Receive | Expr::GateMake => {
                self.interface(make, right)?
            }
        };
        make.expr(form)
    }

    fn leaf(self, make: &Maker, right: bool) -> Result<CoreForm, NoMemory> {
        let t = make.types;
        Ok(match self {
            // the least number that no `int` is
            Expr::Constant => CoreForm::Const {
                ty: t.int,
                value: Constant::Int(if right { 0x7FFF_FFFF } else { 0x8000_0000 }),
            },
            Expr::Address => CoreForm::Address {
                ty: if right { t.pointer } else { t.slice },
                place: make.first()?,
            },
            Expr::Element => CoreForm::Read {
                ty: t.int,
                place: make.place(PlaceForm::SliceElem {
                    slice_type: t.slice,
                    operand: make.zero(t.slice)?,
                    index: make.number(right)?,
                })?,
            },
            // of another type than the variable
            _ => CoreForm::Read {
                ty: if right { t.int } else { t.text },
                place: make.place(PlaceForm::Local(FIRST))?,
            },
        })
    }

    fn arithmetic(self, make: &Maker, right: bool) -> Result<CoreForm, NoMemory> {
        let t = make.types;
        Ok(match self {
            Expr::Unary => CoreForm::Unary {
                op: if right { Op::Neg } else { Op::Not },
                ty: t.int,
                operand: make.int(1)?,
            },
            Expr::Binary => CoreForm::Binary {
                op: Op::Add,
                ty: t.int,
                left: make.int(1)?,
                right: make.number(right)?,
            },
            Expr::Shift => CoreForm::Binary {
                op: Op::Shl,
                ty: t.int,
                left: make.int(1)?,
                right: make.number(right)?,
            },
            _ => CoreForm::Concat {
                ty: t.text,
                left: make.text()?,
                right: make.word(right)?,
            },
        })
    }

    fn truth(self, make: &Maker, right: bool) -> Result<CoreForm, NoMemory> {
        let t = make.types;
        Ok(match self {
            // slices are compared with nil alone
            Expr::Equal => CoreForm::Equal {
                negated: false,
                operands: t.slice,
                ty: t.bool,
                left: if right {
                    make.zero(t.slice)?
                } else {
                    made_slice(make)?
                },
                right: made_slice(make)?,
            },
            Expr::Less => CoreForm::Less {
                op: Op::Lt,
                operands: if right { t.int } else { t.bool },
                ty: t.bool,
                left: make.zero(if right { t.int } else { t.bool })?,
                right: make.zero(if right { t.int } else { t.bool })?,
            },
            Expr::AndThen => CoreForm::AndThen {
                ty: t.bool,
                left: make.truth()?,
                right: make.test(right)?,
            },
            _ => CoreForm::Not {
                ty: t.bool,
                operand: make.test(right)?,
            },
        })
    }

    fn part(self, make: &Maker, right: bool) -> Result<CoreForm, NoMemory> {
        let t = make.types;
        Ok(match self {
            // a string of a number, but not a number of a string
            Expr::Convert => CoreForm::Convert {
                from: if right { t.int } else { t.text },
                ty: if right { t.text } else { t.int },
                operand: make.number(right)?,
            },
            Expr::ByteAt => CoreForm::ByteAt {
                text: make.text()?,
                index: make.number(right)?,
            },
            Expr::SliceOf => CoreForm::SliceOf {
                from: t.text,
                ty: if right { t.text } else { t.slice },
                operand: make.text()?,
                low: Some(make.int(0)?),
                high: None,
                limit: None,
            },
            Expr::Len => CoreForm::Len {
                from: if right { t.text } else { t.int },
                operand: make.word(right)?,
            },
            _ => CoreForm::Append {
                ty: t.slice,
                from: if right { t.slice } else { t.text },
                operand: make.zero(t.slice)?,
                elements: make.zero(if right { t.slice } else { t.text })?,
            },
        })
    }

    fn composite(self, make: &Maker, right: bool) -> Result<CoreForm, NoMemory> {
        let t = make.types;
        Ok(match self {
            // an element past the end
            Expr::Build => CoreForm::Build {
                ty: t.slice,
                count: 1,
                elements: element(make, if right { 0 } else { 1 })?,
            },
            Expr::BuildMap => CoreForm::BuildMap {
                ty: t.mapping,
                pairs: pair(make, make.word(right)?)?,
            },
            Expr::MapGet => CoreForm::MapGet {
                map_type: t.mapping,
                with_ok: false,
                operand: make.zero(t.mapping)?,
                key: make.word(right)?,
            },
            Expr::MakeSlice => CoreForm::MakeSlice {
                ty: t.slice,
                length: make.number(right)?,
                capacity: None,
            },
            _ => CoreForm::MakeChan {
                ty: if right { t.channel } else { t.mapping },
                capacity: None,
            },
        })
    }

    fn call(self, make: &Maker, right: bool) -> Result<CoreForm, NoMemory> {
        let t = make.types;
        Ok(match self {
            // a method is no function value
            Expr::Closure => CoreForm::Closure {
                ty: t.func,
                func: FuncId(if right { 3 } else { 1 }),
            },
            Expr::Call => CoreForm::Call {
                results: one_id(make, t.int)?,
                callee: Callee::Function(FuncId(3)),
                operands: make.one(make.number(right)?)?,
            },
            Expr::CallMethod => CoreForm::Call {
                results: one_id(make, t.text)?,
                callee: Callee::Method(MethodName {
                    ty: t.hidden,
                    name: Text::from_slice(make.alloc, if right { b"Error" } else { b"Other" })?,
                    package: Text::new(make.alloc),
                }),
                operands: make.one(make.zero(t.hidden)?)?,
            },
            Expr::Recover => CoreForm::Recover {
                ty: if right { t.any } else { t.int },
            },
            _ => CoreForm::Let {
                vars: make.var(SECOND, t.int)?,
                values: make.one(make.number(right)?)?,
                body: make.int(1)?,
            },
        })
    }

    fn interface(self, make: &Maker, right: bool) -> Result<CoreForm, NoMemory> {
        let t = make.types;
        Ok(match self {
            // an interface value is in no other one
            Expr::Wrap => CoreForm::Wrap {
                from: if right { t.int } else { t.any },
                ty: t.any,
                operand: make.zero(if right { t.int } else { t.any })?,
            },
            Expr::Assert => CoreForm::Assert {
                ty: t.int,
                with_ok: false,
                operand: make.zero(if right { t.any } else { t.int })?,
            },
            Expr::Receive => CoreForm::Receive {
                channel: if right { t.channel } else { t.slice },
                with_ok: false,
                operand: make.zero(if right { t.channel } else { t.slice })?,
            },
            // a gate's cell stands in no other expression
            _ => {
                if right {
                    CoreForm::Zero { ty: t.pointer }
                } else {
                    CoreForm::GateMake {
                        pointer: make.zero(t.pointer)?,
                    }
                }
            }
        })
    }
}

fn made_slice(make: &Maker) -> Result<CoreExpr, NoMemory> {
    make.expr(CoreForm::MakeSlice {
        ty: make.types.slice,
        length: make.int(1)?,
        capacity: None,
    })
}

fn element(make: &Maker, index: u32) -> Result<CoreElements, NoMemory> {
    let mut items = Vec::new(make.alloc);
    items.push(CoreElement {
        index,
        value: make.int(1)?,
    })?;
    Ok(CoreElements { items })
}

fn pair(make: &Maker, key: CoreExpr) -> Result<CorePairs, NoMemory> {
    let mut items = Vec::new(make.alloc);
    items.push(CorePair {
        key,
        value: make.int(1)?,
    })?;
    Ok(CorePairs { items })
}

fn one_id(make: &Maker, t: TypeId) -> Result<Ids, NoMemory> {
    let mut items = Vec::new(make.alloc);
    items.push(t)?;
    Ok(Ids::from_vec(items))
}
