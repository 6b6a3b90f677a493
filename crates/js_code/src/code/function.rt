//! Functions and the first values of top-level variables as code: ECMA-262 5.1, 13 and 14.

ghost use Rattle.std.specs.Prelude.{IfOk};
ghost use Rattle.js_tree.specs.View.{expr_view, function_view};
ghost use Rattle.js_code.specs.Names.{names_of};
ghost use Rattle.js_code.specs.FunctionCode.{IsFunctionCode, IsValueCode};

use crate::code::code::Code;
use crate::code::expr::{DEPTH, add_expr};
use crate::code::stmt::add_stmts;
use crate::slots::names::{Names, locals_in};
use crate::slots::place::Scope;
use gj_base::{NoMemory, Text};
use js_tree::{JsExpr, JsFunction};
use std::alloc::Global;

/// A function as code.
#[derive(Drop)]
pub struct FunctionCode<'a> {
    pub name: &'a Text,
    /// How many arguments a call has.
    pub params: usize,
    /// How many slots a call has: one for each name of the function.
    pub slots: usize,
    pub code: Code<'a>,
    /// The number of the part that stands for the body.
    pub body: u32,
}

/// The first value of a top-level variable as code.
#[derive(Drop)]
pub struct ValueCode<'a> {
    pub code: Code<'a>,
    /// The number of the part that stands for the expression.
    pub e: u32,
}

/// A function as code, with the names of the script's functions and top-level variables.
pub fn function_code<'a>(
    alloc: Global,
    functions: &Names<'a>,
    globals: &Names<'a>,
    f: &'a JsFunction,
) -> Result<FunctionCode<'a>, NoMemory>
    ensures value { IfOk result (λ c. IsFunctionCode (names_of functions.now.set.keys) (names_of globals.now.set.keys) (function_view f.now) c) }
{
    let locals = locals_in(alloc, f)?;
    let scope = Scope {
        functions,
        globals,
        locals: &locals,
    };
    let mut code = Code::new(alloc);
    let body = add_stmts(&mut code, scope, DEPTH, &f.body)?;
    Ok(FunctionCode {
        name: &f.name,
        params: f.params.len(),
        slots: locals.len(),
        code,
        body,
    })
}

/// The first value of a top-level variable as code.
pub fn value_code<'a>(
    alloc: Global,
    functions: &Names<'a>,
    globals: &Names<'a>,
    e: &'a JsExpr,
) -> Result<ValueCode<'a>, NoMemory>
    ensures value { IfOk result (λ c. IsValueCode (names_of functions.now.set.keys) (names_of globals.now.set.keys) (expr_view e.now) c) }
{
    let locals = Names::new(alloc);
    let scope = Scope {
        functions,
        globals,
        locals: &locals,
    };
    let mut code = Code::new(alloc);
    let e = add_expr(&mut code, scope, DEPTH, e)?;
    Ok(ValueCode { code, e })
}
