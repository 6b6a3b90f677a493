//! Plain packages: the one kind of program that is built so far.

ghost use Rattle.std.specs.Prelude.{◌≡◌, IfOk, map, option_map};
ghost use Rattle.go_syntax.specs.View.{file_view, decl_view, sig_view, results_view, params_view, stmt_view, stmts_of, expr_view, exprs_of};
ghost use Rattle.gj_plain.specs.Plain as p;
ghost use Rattle.gj_plain.specs.MainView.{main_view};

use gj_base::{NoMemory, Place, Text};
use go_syntax::tree::{Decl, DeclForm, Expr, ExprForm, File, Params, Results, Sig, Stmt, StmtForm};
use std::alloc::Global;

/// The most bytes of a file.
const MOST_BYTES: usize = 4194304;

/// A `main`: where it is declared, and the texts that it prints, each on a line of its own.
#[derive(Drop)]
pub struct Main {
    pub place: Place,
    pub texts: Vec<Text>,
}

/// The `main` of a package with these files; None where it is not plain.
pub fn plain_main(alloc: Global, files: &[File]) -> Result<Option<Main>, NoMemory>
    ensures { IfOk result (λ found. option_map main_view found ≡ p.plain_main (map file_view files.now)) }
{
    match files {
        [] => Ok(None),
        [file] => main_in(alloc, file.decls.as_slice()),
        [_, _, ..] => Ok(None),
    }
}

fn main_in(alloc: Global, decls: &[Decl]) -> Result<Option<Main>, NoMemory>
    ensures { IfOk result (λ found. option_map main_view found ≡ p.main_in (map decl_view decls.now)) }
{
    match decls {
        [] => Ok(None),
        [decl] => main_of(alloc, decl),
        [_, _, ..] => Ok(None),
    }
}

/// The `main` that this declares; None where it is something else or not plain.
fn main_of(alloc: Global, decl: &Decl) -> Result<Option<Main>, NoMemory>
    ensures { IfOk result (λ found. option_map main_view found ≡ p.main_of (decl_view decl.now)) }
{
    match &*decl.form {
        DeclForm::Func(None, name, sig, block) => {
            if name.text.as_bytes() == b"main".as_slice() && is_bare(sig) {
                return main_printing(alloc, decl.place, block.stmts.as_slice());
            }
            Ok(None)
        }
        _ => Ok(None),
    }
}

/// Whether there are no parameters and no results.
fn is_bare(sig: &Sig) -> bool
    ensures { result ≡ p.is_bare (sig_view sig.now) }
{
    has_none(&sig.params) && gives_nothing(&sig.results)
}

fn gives_nothing(results: &Results) -> bool
    ensures { result ≡ p.gives_nothing (results_view results.now) }
{
    match results {
        Results::None => true,
        Results::Type(_) => false,
        Results::List(params) => has_none(params),
    }
}

fn has_none(params: &Params) -> bool
    ensures { result ≡ p.has_none (params_view params.now).1 }
{
    match params.items.as_slice() {
        [] => true,
        [_, ..] => false,
    }
}

/// The `main` at this place with these statements; None where they don't all print a text.
fn main_printing(alloc: Global, place: Place, stmts: &[Stmt]) -> Result<Option<Main>, NoMemory>
    ensures { IfOk result (λ found. option_map main_view found ≡ p.main_printing place (p.texts_of (stmts_of (map stmt_view stmts.now)))) }
{
    match texts_of(alloc, stmts)? {
        Some(texts) => Ok(Some(Main { place, texts })),
        None => Ok(None),
    }
}

/// The texts that statements print; None where one of them is neither empty nor prints one.
fn texts_of(alloc: Global, stmts: &[Stmt]) -> Result<Option<Vec<Text>>, NoMemory>
    ensures { IfOk result (λ found. option_map (λ texts. texts.items) found ≡ p.texts_of (stmts_of (map stmt_view stmts.now))) }
{
    let mut texts = Vec::new(alloc);
    for stmt in stmts {
        if is_empty(stmt) {
            continue;
        }
        let Some(text) = printed_text(stmt) else {
            return Ok(None);
        };
        texts.push(Text::from_slice(alloc, text)?)?;
    }
    Ok(Some(texts))
}

fn is_empty(stmt: &Stmt) -> bool
    ensures { result ≡ p.is_empty (stmt_view stmt.now) }
{
    match &*stmt.form {
        StmtForm::Empty => true,
        _ => false,
    }
}

/// The text that a statement prints, where it is a call of `println` with one string literal.
fn printed_text(stmt: &Stmt) -> Option<&[u8]>
    ensures { option_map (λ text. text.now) result ≡ p.printed_text (stmt_view stmt.now) }
{
    match &*stmt.form {
        StmtForm::Expr(exprs) => call_in(exprs.as_slice()),
        _ => None,
    }
}

/// The text that the one expression prints.
fn call_in(exprs: &[Expr]) -> Option<&[u8]>
    ensures { option_map (λ text. text.now) result ≡ p.call_in (exprs_of (map expr_view exprs.now)) }
{
    match exprs {
        [] => None,
        [call] => call_text(call),
        [_, _, ..] => None,
    }
}

/// The text that a call of `println` with one string literal and no `...` prints.
fn call_text(call: &Expr) -> Option<&[u8]>
    ensures { option_map (λ text. text.now) result ≡ p.call_text (expr_view call.now) }
{
    match &*call.form {
        ExprForm::Call(callee, args, spread) => {
            if !*spread && is_println(callee) {
                return argument_text(args.as_slice());
            }
            None
        }
        _ => None,
    }
}

fn is_println(callee: &Expr) -> bool
    ensures { result ≡ p.is_println (expr_view callee.now) }
{
    match &*callee.form {
        ExprForm::Name(name) => name.as_bytes() == b"println".as_slice(),
        _ => false,
    }
}

/// The value of the one argument, a string literal.
fn argument_text(args: &[Expr]) -> Option<&[u8]>
    ensures { option_map (λ text. text.now) result ≡ p.argument_text (exprs_of (map expr_view args.now)) }
{
    match args {
        [] => None,
        [arg] => literal_text(arg),
        [_, _, ..] => None,
    }
}

/// The value of a string literal.
fn literal_text(e: &Expr) -> Option<&[u8]>
    ensures { option_map (λ text. text.now) result ≡ p.literal_text (expr_view e.now) }
{
    match &*e.form {
        ExprForm::Str(text) => short_text(text.as_bytes()),
        _ => None,
    }
}

/// A text that isn't longer than a file may be.
fn short_text(text: &[u8]) -> Option<&[u8]>
    ensures { option_map (λ text. text.now) result ≡ p.short_text text.now }
{
    if text.len() > MOST_BYTES {
        return None;
    }
    Some(text)
}
