//! Own: whether the numbers that integer literals spell are below 2^127. The lexical stage refuses others.

ghost use Rattle.std.specs.Prelude.{◌≡◌, true, map, option_map};
ghost use Rattle.go_syntax.specs.View.{expr_view, exprs_of, maybe_expr};
ghost use Rattle.go_expr.specs.Ready.{NumbersFit, BoundFits, AllFit};

use go_operands::scopes::literal::int_value;
use go_syntax::tree::{Expr, ExprForm};

/// Whether the numbers in an expression are below 2^127, as those of a file that has tokens are.
#[cycle(fits)]
pub fn numbers_fit(e: &Expr) -> bool
    ensures fit { result ≡ true → NumbersFit (expr_view e.now) }
{
    match &*e.form {
        ExprForm::Int(text) => int_value(text.as_bytes()).is_some(),
        ExprForm::Paren(x) => numbers_fit(x),
        ExprForm::Unary(_, x) => numbers_fit(x),
        ExprForm::Binary(x, _, y) => {
            if !numbers_fit(x) {
                return false;
            }
            numbers_fit(y)
        }
        ExprForm::Index(x, i) => {
            if !numbers_fit(x) {
                return false;
            }
            numbers_fit(i)
        }
        ExprForm::Slice(x, low, high, most) => {
            if !numbers_fit(x) {
                return false;
            }
            if !bound_fits(low) {
                return false;
            }
            if !bound_fits(high) {
                return false;
            }
            bound_fits(most)
        }
        ExprForm::Call(f, xs, _) => {
            if !numbers_fit(f) {
                return false;
            }
            all_fit(xs.as_slice())
        }
        ExprForm::Name(_) => true,
        ExprForm::Rune(_) => true,
        ExprForm::Str(_) => true,
        ExprForm::Select(_, _) => true,
        ExprForm::Assert(_, _) => true,
        ExprForm::Literal(_, _) => true,
        ExprForm::Func(_, _) => true,
        ExprForm::ArrayT(_, _) => true,
        ExprForm::SliceT(_) => true,
        ExprForm::StructT(_) => true,
        ExprForm::FuncT(_) => true,
        ExprForm::InterfaceT(_) => true,
        ExprForm::MapT(_, _) => true,
        ExprForm::ChanT(_, _) => true,
    }
}

#[cycle(fits)]
fn bound_fits(x: &Option<Expr>) -> bool
    ensures fit { result ≡ true → BoundFits (maybe_expr (option_map expr_view x.now)) }
{
    match x {
        Some(x) => numbers_fit(x),
        None => true,
    }
}

#[cycle(fits)]
fn all_fit(xs: &[Expr]) -> bool
    ensures fit { result ≡ true → AllFit (exprs_of (map expr_view xs.now)) }
{
    for x in xs {
        if !numbers_fit(x) {
            return false;
        }
    }
    true
}
