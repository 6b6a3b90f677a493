//! Nodes from their forms.

use gj_base::{NoMemory, Text};
use go_core::node::{
    Constant, CoreExpr, CoreExprs, CoreForm, CorePlace, PlaceForm, Var, VarId, Vars,
};
use go_core::statement::{CoreStmt, CoreStmtForm, CoreStmts};
use go_type::types::TypeId;
use std::alloc::Global;

/// The variable that `main` has declared, and another one that it may declare.
pub const FIRST: VarId = VarId(0);

pub const SECOND: VarId = VarId(1);

/// The types that rows speak of.
#[derive(Clone, Copy)]
pub struct Types {
    pub bool: TypeId,
    pub text: TypeId,
    pub int: TypeId,
    /// That of run-time panics.
    pub hidden: TypeId,
    pub slice: TypeId,
    pub pointer: TypeId,
    pub channel: TypeId,
    /// From strings to numbers.
    pub mapping: TypeId,
    pub any: TypeId,
    /// `func(int) int`.
    pub func: TypeId,
}

/// Makes nodes.
#[derive(Clone, Copy)]
pub struct Maker {
    pub alloc: Global,
    pub types: Types,
}

impl Maker {
    pub fn expr(&self, form: CoreForm) -> Result<CoreExpr, NoMemory> {
        let form = Box::new(self.alloc, form)?;
        Ok(CoreExpr { form })
    }

    pub fn place(&self, form: PlaceForm) -> Result<CorePlace, NoMemory> {
        let form = Box::new(self.alloc, form)?;
        Ok(CorePlace { form })
    }

    pub fn stmt(&self, form: CoreStmtForm) -> Result<CoreStmt, NoMemory> {
        let form = Box::new(self.alloc, form)?;
        Ok(CoreStmt { form })
    }

    pub fn int(&self, n: i128) -> Result<CoreExpr, NoMemory> {
        self.expr(CoreForm::Const {
            ty: self.types.int,
            value: Constant::Int(n),
        })
    }

    pub fn text(&self) -> Result<CoreExpr, NoMemory> {
        self.expr(CoreForm::Const {
            ty: self.types.text,
            value: Constant::Text(Text::new(self.alloc)),
        })
    }

    pub fn truth(&self) -> Result<CoreExpr, NoMemory> {
        self.expr(CoreForm::Const {
            ty: self.types.bool,
            value: Constant::Bool(true),
        })
    }

    pub fn zero(&self, ty: TypeId) -> Result<CoreExpr, NoMemory> {
        self.expr(CoreForm::Zero { ty })
    }

    /// A number where it is right, and else a string.
    pub fn number(&self, right: bool) -> Result<CoreExpr, NoMemory> {
        if right { self.int(1) } else { self.text() }
    }

    /// A string where it is right, and else a number.
    pub fn word(&self, right: bool) -> Result<CoreExpr, NoMemory> {
        self.number(!right)
    }

    /// A truth value where it is right, and else a number.
    pub fn test(&self, right: bool) -> Result<CoreExpr, NoMemory> {
        if right { self.truth() } else { self.int(1) }
    }

    /// The variable that is declared, as a place.
    pub fn first(&self) -> Result<CorePlace, NoMemory> {
        self.place(PlaceForm::Local(FIRST))
    }

    pub fn one(&self, e: CoreExpr) -> Result<CoreExprs, NoMemory> {
        let mut items = Vec::new(self.alloc);
        items.push(e)?;
        Ok(CoreExprs { items })
    }

    pub fn no_vars(&self) -> Vars {
        Vars {
            items: Vec::new(self.alloc),
        }
    }

    pub fn var(&self, id: VarId, ty: TypeId) -> Result<Vars, NoMemory> {
        let mut vars = self.no_vars();
        vars.items.push(Var { id, ty })?;
        Ok(vars)
    }

    pub fn stmts(&self, s: Option<CoreStmt>) -> Result<CoreStmts, NoMemory> {
        let mut items = Vec::new(self.alloc);
        if let Some(s) = s {
            items.push(s)?;
        }
        Ok(CoreStmts { items })
    }

    /// Evaluates an expression, and drops so many values.
    pub fn drop_values(&self, operand: CoreExpr, values: u32) -> Result<CoreStmt, NoMemory> {
        self.stmt(CoreStmtForm::Perform { operand, values })
    }
}
