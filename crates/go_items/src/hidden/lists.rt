//! Functions in a list. Where memory runs out one is let go.

ghost use Rattle.std.specs.Prelude.{◌≡◌, ◌∷◌, ◌++◌, [], OnOk, IfOk};

use gj_base::NoMemory;
use go_core::program::Func;
use go_core::statement::{CoreStmt, CoreStmts};
use go_walk::stmt_gone::gone::gone_stmts;
use go_walk::stmt_gone::more::and_stmt;
use std::alloc::Global;

/// Lets a function go.
pub fn gone_func(func: Func) {
    let Func {
        name: _name,
        sig: _sig,
        vars: _vars,
        captured: _captured,
        body,
        place: _place,
    } = func;
    let CoreStmts { items } = body;
    gone_stmts(items);
}

/// Lets functions go.
pub fn gone_funcs(mut items: Vec<Func>) {
    while let Some(func) = items.pop() {
        gone_func(func);
    }
    items.destroy_empty();
}

fn no_func(func: Func) -> NoMemory {
    gone_func(func);
    NoMemory
}

/// One function more.
pub fn and_func(items: &mut Vec<Func>, func: Func) -> Result<(), NoMemory>
    ensures items { OnOk result (items.new.items ≡ items.old.items ++ func ∷ []) }
{
    match items.push(func) {
        Ok(()) => Ok(()),
        Err(refused) => Err(no_func(refused.value)),
    }
}

/// A statement alone.
pub fn one_stmt(alloc: Global, core: CoreStmt) -> Result<Vec<CoreStmt>, NoMemory>
    ensures items { IfOk result (λ all. all.items ≡ core ∷ []) }
{
    let mut all = Vec::new(alloc);
    match and_stmt(&mut all, core) {
        Ok(()) => Ok(all),
        Err(error) => {
            gone_stmts(all);
            Err(error)
        }
    }
}
