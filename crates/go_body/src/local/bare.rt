//! Whether a type is a name alone.

ghost use Rattle.std.specs.Prelude.{◌≡◌, false, bytes_eq, if◌then◌else◌};
ghost use Rattle.go_syntax.specs.View.{expr_view};
ghost use Rattle.go_typing.specs.Env.{is_blank};
ghost use Rattle.go_typing.specs.Declare.{is_bare};

use gj_base::Text;
use go_syntax::tree::{Expr, ExprForm};
use go_walk::labels::blank::is_blank;

fn same_name(x: &Text, y: &Text) -> bool
    ensures value { result ≡ (if is_blank y.now then false else bytes_eq x.now y.now) }
{
    if is_blank(y) {
        return false;
    }
    x.as_bytes() == y.as_bytes()
}

/// Whether a type is the name itself, also in parentheses.
#[tactic(auto, using(crate::proofs::BareLemmas::bare_name, crate::proofs::BareLemmas::bare_within))]
pub fn is_bare(x: &Text, e: &Expr) -> bool
    ensures value { result ≡ is_bare x.now (expr_view e.now) }
{
    match &*e.form {
        ExprForm::Name(y) => same_name(x, y),
        ExprForm::Paren(e) => is_bare(x, e),
        ExprForm::Int(_) => false,
        ExprForm::Rune(_) => false,
        ExprForm::Str(_) => false,
        ExprForm::Unary(_, _) => false,
        ExprForm::Binary(_, _, _) => false,
        ExprForm::Select(_, _) => false,
        ExprForm::Index(_, _) => false,
        ExprForm::Slice(_, _, _, _) => false,
        ExprForm::Assert(_, _) => false,
        ExprForm::Call(_, _, _) => false,
        ExprForm::Literal(_, _) => false,
        ExprForm::Func(_, _) => false,
        ExprForm::ArrayT(_, _) => false,
        ExprForm::SliceT(_) => false,
        ExprForm::StructT(_) => false,
        ExprForm::FuncT(_) => false,
        ExprForm::InterfaceT(_) => false,
        ExprForm::MapT(_, _) => false,
        ExprForm::ChanT(_, _) => false,
    }
}
