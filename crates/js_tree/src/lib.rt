//! Scripts: their tree, their meaning, and their text. ECMA-262 5.1, cut to a subset.
#![tactic(auto)]

pub mod laws;
pub mod printer;
pub mod tree;

pub use printer::{PREAMBLE, PrintRefusal, Style, preamble, print, printed};
pub use tree::{
    BinaryOp, ExprForm, JsCase, JsCases, JsElse, JsElseIf, JsExpr, JsExprs, JsFunction, JsItem,
    JsStmt, JsStmts, Script, StmtForm, UnaryOp,
};
