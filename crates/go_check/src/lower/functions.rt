//! Functions with their bodies.

use crate::lower::making::{Making, Task};
use crate::lower::numbers::{Counts, name};
use gj_base::NoMemory;
use go_check_state::FuncRow;
use go_check_state::node::{NodeId, StmtId, VarRef};
use go_core::node::{CoreExpr, Var, VarId, Vars};
use go_core::program::{Func, VarIds};
use go_core::statement::CoreStmts;
use go_type::Ids;
use go_type::types::{Sig, TypeId};

impl<'a> Making<'a> {
    // All that is to be done.
    fn run(&mut self) -> Result<(), NoMemory> {
        for _ in 0..u64::MAX {
            let Some(task) = self.tasks.pop() else {
                return Ok(());
            };
            match task {
                Task::Expr(id) => self.visit(id)?,
                Task::MakeExpr(id) => self.make(id)?,
                Task::Place(id) => self.visit_place(id)?,
                Task::MakePlace(id) => self.make_place(id)?,
                Task::Stmt(id) => self.visit_stmt(id)?,
                Task::MakeStmt(id) => self.make_stmt(id)?,
                Task::Open(id) => self.open(id)?,
                Task::Close(height) => self.close(height)?,
            }
        }
        Ok(())
    }

    // The statements of a body.
    fn body(&mut self, body: Option<StmtId>) -> Result<CoreStmts, NoMemory> {
        let Some(id) = body else {
            return Ok(self.no_stmts());
        };
        self.todo(Task::Open(id))?;
        self.run()?;
        Ok(self.take_block())
    }

    /// An expression that stands alone.
    pub fn expression(&mut self, id: NodeId) -> Result<CoreExpr, NoMemory> {
        self.todo(Task::Expr(id))?;
        self.run()?;
        let whole = self.take()?;
        Ok(whole.core)
    }

    /// The variables that were declared since these were taken last.
    pub fn take_vars(&mut self) -> Result<Vars, NoMemory> {
        let items = self.vars.split_off(0)?;
        Ok(Vars { items })
    }

    fn sig(&self, t: TypeId) -> Result<Sig, NoMemory> {
        match self.c.sig_copy(t)? {
            Some(sig) => Ok(sig),
            None => Ok(Sig {
                params: Ids::new(self.alloc),
                results: Ids::new(self.alloc),
                variadic: false,
            }),
        }
    }

    // The receiver, the parameters and the results; what is declared comes after them.
    fn header(&mut self, row: FuncRow) -> Result<(), NoMemory> {
        self.vars.clear();
        for number in 0..row.params.len {
            let var = VarRef(self.c.nodes.item(row.params, number));
            self.declared(var)?;
        }
        Ok(())
    }

    /// The function with a number of the checker's, which captures variables.
    pub fn function(
        &mut self,
        counts: &mut Counts,
        id: u32,
        captured: &[u32],
    ) -> Result<Option<Func>, NoMemory> {
        let Some(row) = self.c.func(id) else {
            return Ok(None);
        };
        let name = name(self.c, counts, id)?;
        let sig = self.sig(row.sig)?;
        let mut ids: Vec<VarId> = Vec::new(self.alloc);
        for var in captured.iter() {
            ids.push(VarId(*var as u64))?;
        }
        self.header(row)?;
        let body = self.body(row.body)?;
        let vars: Vec<Var> = self.vars.split_off(0)?;
        Ok(Some(Func {
            name,
            sig,
            vars: Vars { items: vars },
            captured: VarIds { items: ids },
            body,
            place: row.place,
        }))
    }
}
