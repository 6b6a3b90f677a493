//! One more at the end of a list. Where memory runs out it is let go.

ghost use Rattle.std.specs.Prelude.{◌≡◌, ◌∷◌, ◌++◌, [], OnOk};

use crate::stmt_gone::gone::{gone_stmt, gone_target};
use gj_base::NoMemory;
use go_core::node::CoreExpr;
use go_core::statement::{CoreStmt, Target};
use go_operands::nodes::gone::gone_expr;

fn no_stmt(core: CoreStmt) -> NoMemory {
    gone_stmt(core);
    NoMemory
}

fn no_target(core: Target) -> NoMemory {
    gone_target(core);
    NoMemory
}

fn no_value(core: CoreExpr) -> NoMemory {
    gone_expr(core);
    NoMemory
}

/// One statement more.
pub fn and_stmt(items: &mut Vec<CoreStmt>, core: CoreStmt) -> Result<(), NoMemory>
    ensures items { OnOk result (items.new.items ≡ items.old.items ++ core ∷ []) }
{
    match items.push(core) {
        Ok(()) => Ok(()),
        Err(refused) => Err(no_stmt(refused.value)),
    }
}

/// One left side more.
pub fn and_target(items: &mut Vec<Target>, core: Target) -> Result<(), NoMemory>
    ensures items { OnOk result (items.new.items ≡ items.old.items ++ core ∷ []) }
{
    match items.push(core) {
        Ok(()) => Ok(()),
        Err(refused) => Err(no_target(refused.value)),
    }
}

/// One value more.
pub fn and_value(items: &mut Vec<CoreExpr>, whole: CoreExpr) -> Result<(), NoMemory>
    ensures items { OnOk result (items.new.items ≡ items.old.items ++ whole ∷ []) }
{
    match items.push(whole) {
        Ok(()) => Ok(()),
        Err(refused) => Err(no_value(refused.value)),
    }
}
