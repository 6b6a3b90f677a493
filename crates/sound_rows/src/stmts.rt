//! Rows of statements.
//!
//! Go, "Statements".

use crate::maker::{FIRST, Maker, SECOND};
use gj_base::NoMemory;
use go_core::node::{Callee, CoreExpr, CoreExprs, CoreForm, Var, VarId};
use go_core::statement::{
    BranchKind, Communication, CoreCase, CoreCases, CoreClause, CoreClauses, CoreStmt,
    CoreStmtForm, CoreStmts, CoreTest, CoreTests, Label, Target, Targets,
};
use go_core::tree::FuncId;

/// A statement of `main`. Where it isn't right, a part of it is not what its kind takes.
#[derive(Clone, Copy, Debug)]
pub enum Stmt {
    Perform,
    Declare,
    Store,
    Delete,
    If,
    Loop,
    Switch,
    Range,
    Labeled,
    Branch,
    Send,
    Close,
    Select,
    GateTake,
    GoCall,
    DeferCall,
    Return,
    Panic,
    Print,
    Exit,
}

impl Stmt {
    pub const ALL: [Stmt; 20] = [
        Stmt::Perform,
        Stmt::Declare,
        Stmt::Store,
        Stmt::Delete,
        Stmt::If,
        Stmt::Loop,
        Stmt::Switch,
        Stmt::Range,
        Stmt::Labeled,
        Stmt::Branch,
        Stmt::Send,
        Stmt::Close,
        Stmt::Select,
        Stmt::GateTake,
        Stmt::GoCall,
        Stmt::DeferCall,
        Stmt::Return,
        Stmt::Panic,
        Stmt::Print,
        Stmt::Exit,
    ];

    /// The statement.
    pub fn stmt(self, make: &Maker, right: bool) -> Result<CoreStmt, NoMemory> {
        let form = match self {
            Stmt::Perform | Stmt::Declare | Stmt::Store | Stmt::Delete => {
                self.simple(make, right)?
            }
            Stmt::If | Stmt::Loop | Stmt::Switch | Stmt::Range | Stmt::Labeled | Stmt::Branch => {
                self.control(make, right)?
            }
            Stmt::Send | Stmt::Close | Stmt::Select | Stmt::GateTake => {
                self.channel(make, right)?
            }
            Stmt::GoCall
            | Stmt::DeferCall
            | Stmt::Return
            | Stmt::Panic
            | Stmt::Print
            | Stmt::Exit => self.leave(make, right)?,
        };
        make.stmt(form)
    }

    fn simple(self, make: &Maker, right: bool) -> Result<CoreStmtForm, NoMemory> {
        let t = make.types;
        Ok(match self {
            // it has one value
            Stmt::Perform => CoreStmtForm::Perform {
                operand: make.int(1)?,
                values: if right { 1 } else { 2 },
            },
            // a variable of another function
            Stmt::Declare => CoreStmtForm::Declare(Var {
                id: if right { SECOND } else { VarId(5) },
                ty: t.int,
            }),
            Stmt::Store => CoreStmtForm::Store {
                targets: to_first(make)?,
                values: make.one(make.number(right)?)?,
            },
            _ => CoreStmtForm::MapDelete {
                map_type: t.mapping,
                operand: make.zero(t.mapping)?,
                key: make.word(right)?,
            },
        })
    }

    fn control(self, make: &Maker, right: bool) -> Result<CoreStmtForm, NoMemory> {
        Ok(match self {
            Stmt::If => CoreStmtForm::If {
                condition: make.test(right)?,
                when_true: make.stmts(None)?,
                when_false: make.stmts(None)?,
            },
            Stmt::Loop => a_loop(make, Some(make.test(right)?), make.stmts(None)?)?,
            // a clause that isn't there
            Stmt::Switch => CoreStmtForm::SwitchOn {
                label: Label(0),
                tests: test(make, if right { 0 } else { 1 })?,
                clauses: clause(make)?,
                default: None,
            },
            // its keys are no strings
            Stmt::Range => CoreStmtForm::RangeNext {
                label: Label(0),
                from: make.types.slice,
                operand: make.zero(make.types.slice)?,
                key: Some(Var {
                    id: FIRST,
                    ty: if right {
                        make.types.int
                    } else {
                        make.types.text
                    },
                }),
                value: None,
                body: make.stmts(None)?,
            },
            // a label inside its own statement
            Stmt::Labeled => {
                let inner = make.stmt(CoreStmtForm::Labeled {
                    label: Label(if right { 1 } else { 0 }),
                    body: make.stmts(None)?,
                })?;
                a_loop(make, None, make.stmts(Some(inner))?)?
            }
            // out of a loop that isn't around it
            _ => {
                let inner = make.stmt(CoreStmtForm::Branch {
                    kind: BranchKind::Break,
                    label: Label(if right { 0 } else { 1 }),
                })?;
                a_loop(make, None, make.stmts(Some(inner))?)?
            }
        })
    }

    fn channel(self, make: &Maker, right: bool) -> Result<CoreStmtForm, NoMemory> {
        let t = make.types;
        Ok(match self {
            Stmt::Send => CoreStmtForm::Send {
                channel: t.channel,
                operand: make.zero(t.channel)?,
                value: make.number(right)?,
            },
            Stmt::Close => {
                CoreStmtForm::Close(make.zero(if right { t.channel } else { t.slice })?)
            }
            Stmt::Select => CoreStmtForm::SelectStep {
                label: Label(0),
                cases: case(make, if right { SECOND } else { VarId(5) })?,
                has_default: false,
                default: make.stmts(None)?,
            },
            // the pointer to a variable is no gate
            _ => {
                if right {
                    CoreStmtForm::Yield
                } else {
                    CoreStmtForm::GateTake(first_address(make)?)
                }
            }
        })
    }

    fn leave(self, make: &Maker, right: bool) -> Result<CoreStmtForm, NoMemory> {
        let t = make.types;
        Ok(match self {
            Stmt::GoCall => CoreStmtForm::GoCall {
                callee: Callee::Function(FuncId(3)),
                operands: make.one(make.number(right)?)?,
            },
            Stmt::DeferCall => CoreStmtForm::DeferCall {
                callee: Callee::Function(FuncId(3)),
                operands: make.one(make.number(right)?)?,
            },
            // `main` has no results
            Stmt::Return => CoreStmtForm::Return(if right {
                no_exprs(make)
            } else {
                make.one(make.int(1)?)?
            }),
            Stmt::Panic => CoreStmtForm::Panic(make.zero(if right { t.any } else { t.int })?),
            Stmt::Print => CoreStmtForm::Print {
                operands: make.one(make.zero(if right { t.int } else { t.slice })?)?,
                ends_line: true,
            },
            _ => CoreStmtForm::Exit(make.number(right)?),
        })
    }
}

fn no_exprs(make: &Maker) -> CoreExprs {
    CoreExprs {
        items: Vec::new(make.alloc),
    }
}

fn to_first(make: &Maker) -> Result<Targets, NoMemory> {
    let mut items = Vec::new(make.alloc);
    items.push(Target::Place {
        ty: make.types.int,
        place: make.first()?,
    })?;
    Ok(Targets { items })
}

fn first_address(make: &Maker) -> Result<CoreExpr, NoMemory> {
    make.expr(CoreForm::Address {
        ty: make.types.pointer,
        place: make.first()?,
    })
}

fn a_loop(
    make: &Maker,
    condition: Option<CoreExpr>,
    body: CoreStmts,
) -> Result<CoreStmtForm, NoMemory> {
    Ok(CoreStmtForm::Loop {
        label: Label(0),
        condition,
        body,
        post: make.stmts(None)?,
    })
}

fn test(make: &Maker, clause: u32) -> Result<CoreTests, NoMemory> {
    let mut items = Vec::new(make.alloc);
    items.push(CoreTest {
        condition: make.truth()?,
        clause,
    })?;
    Ok(CoreTests { items })
}

fn clause(make: &Maker) -> Result<CoreClauses, NoMemory> {
    let mut items = Vec::new(make.alloc);
    items.push(CoreClause {
        body: make.stmts(None)?,
        falls_through: false,
    })?;
    Ok(CoreClauses { items })
}

// A clause that receives into a fresh variable.
fn case(make: &Maker, v: VarId) -> Result<CoreCases, NoMemory> {
    let t = make.types;
    let mut items = Vec::new(make.alloc);
    items.push(CoreCase {
        communication: Communication::Receive {
            channel: t.channel,
            operand: make.zero(t.channel)?,
            vars: make.var(v, t.int)?,
        },
        body: make.stmts(None)?,
    })?;
    Ok(CoreCases { items })
}
