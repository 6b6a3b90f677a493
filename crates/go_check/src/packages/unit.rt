//! The declarations of packages.

use gj_base::Place;
use go_check_state::NameId;
use go_check_stmt::BodyRow;
use go_syntax::tree::{Expr, Name, Params, Sig, TypeSpec, ValueSpec};

/// What a declaration is.
#[derive(Clone, Copy)]
pub enum UnitForm<'a> {
    Type(&'a TypeSpec),
    /// The type, the value and the number of a constant.
    Const(Option<&'a Expr>, Option<&'a Expr>, usize),
    /// The type and the value of a variable, or of several that one call sets.
    Var(Option<&'a Expr>, Option<&'a Expr>),
    /// The type and the values of names in another number, and the number of a constant declaration.
    Miscounted(Option<&'a ValueSpec>, Option<usize>),
    Func(&'a Sig),
    Method(&'a Params, &'a Name, &'a Sig),
}

/// A declaration: its package and file, its names in the table of names, and the function that it is.
#[derive(Clone, Copy)]
pub struct Unit<'a> {
    pub form: UnitForm<'a>,
    pub package: u32,
    pub file: u32,
    pub start: usize,
    pub len: usize,
    pub func: u32,
}

/// A name of a declaration; no object where it is `_` or was declared before.
#[derive(Clone, Copy, Debug)]
pub struct UnitName {
    pub name: NameId,
    pub place: Place,
    pub object: Option<u32>,
    pub global: u32,
}

/// All declarations, and what attempts found that one needs of others.
#[derive(Drop)]
pub struct Units<'a> {
    pub rows: Vec<Unit<'a>>,
    pub names: Vec<UnitName>,
    pub bodies: Vec<BodyRow<'a>>,
    pub edges: Vec<(u32, u32)>,
}
