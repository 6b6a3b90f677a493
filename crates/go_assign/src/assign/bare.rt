//! Left sides without their parentheses.

ghost use Rattle.std.specs.Prelude.{◌≡◌, option_map};
ghost use Rattle.go_syntax.specs.View.{expr_view};
ghost use Rattle.go_typing.specs.Assign.{is_bare, is_name};
ghost use Rattle.go_assign.specs.LeftView.{bare, bare_name};

use gj_base::Text;
use go_syntax::tree::{Expr, ExprForm};

/// What stands in the parentheses, if there are some.
pub fn bare(e: &Expr) -> &Expr
    ensures value { expr_view result.now ≡ bare (expr_view e.now) }
{
    match &*e.form {
        ExprForm::Paren(x) => bare(x),
        ExprForm::Name(_) => e,
        ExprForm::Int(_) => e,
        ExprForm::Rune(_) => e,
        ExprForm::Str(_) => e,
        ExprForm::Unary(_, _) => e,
        ExprForm::Binary(_, _, _) => e,
        ExprForm::Select(_, _) => e,
        ExprForm::Index(_, _) => e,
        ExprForm::Slice(_, _, _, _) => e,
        ExprForm::Assert(_, _) => e,
        ExprForm::Call(_, _, _) => e,
        ExprForm::Literal(_, _) => e,
        ExprForm::Func(_, _) => e,
        ExprForm::ArrayT(_, _) => e,
        ExprForm::SliceT(_) => e,
        ExprForm::StructT(_) => e,
        ExprForm::FuncT(_) => e,
        ExprForm::InterfaceT(_) => e,
        ExprForm::MapT(_, _) => e,
        ExprForm::ChanT(_, _) => e,
    }
}

/// The name that it is, if it is one.
pub fn bare_name(e: &Expr) -> Option<&Text>
    ensures value { option_map (λ x. x.now) result ≡ bare_name (expr_view e.now) }
{
    match &*e.form {
        ExprForm::Name(text) => Some(text),
        ExprForm::Paren(x) => bare_name(x),
        ExprForm::Int(_) => None,
        ExprForm::Rune(_) => None,
        ExprForm::Str(_) => None,
        ExprForm::Unary(_, _) => None,
        ExprForm::Binary(_, _, _) => None,
        ExprForm::Select(_, _) => None,
        ExprForm::Index(_, _) => None,
        ExprForm::Slice(_, _, _, _) => None,
        ExprForm::Assert(_, _) => None,
        ExprForm::Call(_, _, _) => None,
        ExprForm::Literal(_, _) => None,
        ExprForm::Func(_, _) => None,
        ExprForm::ArrayT(_, _) => None,
        ExprForm::SliceT(_) => None,
        ExprForm::StructT(_) => None,
        ExprForm::FuncT(_) => None,
        ExprForm::InterfaceT(_) => None,
        ExprForm::MapT(_, _) => None,
        ExprForm::ChanT(_, _) => None,
    }
}

/// Whether it is a name.
#[tactic(auto, using(crate::proofs::BareLemmas::name_some, crate::proofs::BareLemmas::name_none))]
pub fn is_name(e: &Expr) -> bool
    ensures value { result ≡ is_name (expr_view e.now) }
{
    match bare_name(e) {
        Some(_) => true,
        None => false,
    }
}

/// Whether it is a name without parentheses.
pub fn is_bare(e: &Expr) -> bool
    ensures value { result ≡ is_bare (expr_view e.now) }
{
    match &*e.form {
        ExprForm::Name(_) => true,
        ExprForm::Paren(_) => false,
        ExprForm::Int(_) => false,
        ExprForm::Rune(_) => false,
        ExprForm::Str(_) => false,
        ExprForm::Unary(_, _) => false,
        ExprForm::Binary(_, _, _) => false,
        ExprForm::Select(_, _) => false,
        ExprForm::Index(_, _) => false,
        ExprForm::Slice(_, _, _, _) => false,
        ExprForm::Assert(_, _) => false,
        ExprForm::Call(_, _, _) => false,
        ExprForm::Literal(_, _) => false,
        ExprForm::Func(_, _) => false,
        ExprForm::ArrayT(_, _) => false,
        ExprForm::SliceT(_) => false,
        ExprForm::StructT(_) => false,
        ExprForm::FuncT(_) => false,
        ExprForm::InterfaceT(_) => false,
        ExprForm::MapT(_, _) => false,
        ExprForm::ChanT(_, _) => false,
    }
}
