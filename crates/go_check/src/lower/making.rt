//! The stacks on which trees are made.

use gj_base::{NoMemory, Text};
use go_check_state::node::{NodeId, PlaceId, StmtId, VarRef};
use go_check_state::{Checker, NONE, NameId};
use go_core::node::{CoreExpr, CoreExprs, CoreForm, CorePlace, PlaceForm, Var, VarId};
use go_core::statement::{CoreStmt, CoreStmtForm, CoreStmts};
use go_core::tree::FuncId;
use go_type::predeclared::BOOL;
use std::alloc::Global;

/// What is left to do: a node is to be looked at, or made from its parts on the stacks.
#[derive(Clone, Copy, Debug)]
pub enum Task {
    Expr(NodeId),
    MakeExpr(NodeId),
    Place(PlaceId),
    MakePlace(PlaceId),
    /// A statement of a list; those of a sequence stand in the list themselves.
    Stmt(StmtId),
    MakeStmt(StmtId),
    /// A statement is to become a list of its own.
    Open(StmtId),
    /// The statements from a height of their stack on are a list.
    Close(usize),
}

/// An expression that a function holds; it dies by one call.
#[derive(Drop)]
pub struct Held {
    pub core: CoreExpr,
}

/// A place that a function holds.
#[derive(Drop)]
pub struct HeldPlace {
    pub core: CorePlace,
}

/// The stacks, and the variables that were declared in what was made.
#[derive(Drop)]
pub struct Making<'a> {
    pub alloc: Global,
    pub c: &'a Checker,
    /// The number of each function in the program.
    pub numbers: &'a [u32],
    pub tasks: Vec<Task>,
    pub exprs: Vec<CoreExpr>,
    pub places: Vec<CorePlace>,
    pub stmts: Vec<CoreStmt>,
    pub blocks: Vec<CoreStmts>,
    pub vars: Vec<Var>,
}

impl<'a> Making<'a> {
    /// Nothing made yet.
    pub fn new(c: &'a Checker, numbers: &'a [u32]) -> Making<'a> {
        let alloc = c.alloc;
        Making {
            alloc,
            c,
            numbers,
            tasks: Vec::new(alloc),
            exprs: Vec::new(alloc),
            places: Vec::new(alloc),
            stmts: Vec::new(alloc),
            blocks: Vec::new(alloc),
            vars: Vec::new(alloc),
        }
    }

    /// One more thing to do, before the others.
    pub fn todo(&mut self, task: Task) -> Result<(), NoMemory> {
        self.tasks.push(task)?;
        Ok(())
    }

    /// An expression of a form goes onto its stack.
    pub fn give(&mut self, form: CoreForm) -> Result<(), NoMemory> {
        let form = Box::new(self.alloc, form)?;
        self.exprs.push(CoreExpr { form })?;
        Ok(())
    }

    /// A place of a form goes onto its stack.
    pub fn give_place(&mut self, form: PlaceForm) -> Result<(), NoMemory> {
        let form = Box::new(self.alloc, form)?;
        self.places.push(CorePlace { form })?;
        Ok(())
    }

    /// A statement of a form goes onto its stack.
    pub fn give_stmt(&mut self, form: CoreStmtForm) -> Result<(), NoMemory> {
        let form = Box::new(self.alloc, form)?;
        self.stmts.push(CoreStmt { form })?;
        Ok(())
    }

    /// The last expression; where there is none, a zero.
    pub fn take(&mut self) -> Result<Held, NoMemory> {
        match self.exprs.pop() {
            Some(core) => Ok(Held { core }),
            None => {
                let form = Box::new(self.alloc, CoreForm::Zero { ty: BOOL })?;
                Ok(Held {
                    core: CoreExpr { form },
                })
            }
        }
    }

    /// The last expression, where there is to be one.
    pub fn take_if(&mut self, there: bool) -> Result<Option<CoreExpr>, NoMemory> {
        if !there {
            return Ok(None);
        }
        let last = self.take()?;
        Ok(Some(last.core))
    }

    /// The last expressions, so many.
    pub fn take_all(&mut self, many: u32) -> Result<CoreExprs, NoMemory> {
        let at = self.exprs.len().saturating_sub(many as usize);
        let items = self.exprs.split_off(at)?;
        Ok(CoreExprs { items })
    }

    /// The last place; where there is none, a variable that no program has.
    pub fn take_place(&mut self) -> Result<HeldPlace, NoMemory> {
        match self.places.pop() {
            Some(core) => Ok(HeldPlace { core }),
            None => {
                let form = Box::new(self.alloc, PlaceForm::Local(VarId(u64::MAX)))?;
                Ok(HeldPlace {
                    core: CorePlace { form },
                })
            }
        }
    }

    /// The statements from a height of the stack on become a list.
    pub fn close(&mut self, from: usize) -> Result<(), NoMemory> {
        let at = if from > self.stmts.len() {
            self.stmts.len()
        } else {
            from
        };
        let items = self.stmts.split_off(at)?;
        self.blocks.push(CoreStmts { items })?;
        Ok(())
    }

    /// The last list of statements.
    pub fn take_block(&mut self) -> CoreStmts {
        match self.blocks.pop() {
            Some(list) => list,
            None => self.no_stmts(),
        }
    }

    /// The last list of statements, where there is to be one.
    pub fn take_block_if(&mut self, there: bool) -> CoreStmts {
        if there {
            self.take_block()
        } else {
            self.no_stmts()
        }
    }

    /// No statements.
    pub fn no_stmts(&self) -> CoreStmts {
        CoreStmts {
            items: Vec::new(self.alloc),
        }
    }

    /// A copy of a name's text.
    pub fn text(&self, name: NameId) -> Result<Text, NoMemory> {
        self.c.names.copy(name)
    }

    /// A function's number in the program.
    pub fn func(&self, id: u32) -> FuncId {
        FuncId(self.numbers.get(id as usize).copied().unwrap_or(0))
    }

    /// A variable with its type.
    pub fn var(&self, var: VarRef) -> Var {
        let ty = match self.c.vars.get(var.0 as usize) {
            Some(row) => row.ty,
            None => NONE,
        };
        Var {
            id: VarId(var.0 as u64),
            ty,
        }
    }

    /// A variable that is declared here.
    pub fn declared(&mut self, var: VarRef) -> Result<Var, NoMemory> {
        let row = self.var(var);
        self.vars.push(row)?;
        Ok(row)
    }
}
