//! What a call looks at: its arguments, what is called as well, or nothing.

ghost use Rattle.std.specs.Prelude.{◌≡◌, ℕ, List, Some, if◌then◌else◌};
ghost use Rattle.go_syntax.specs.View.{expr_view};
ghost use Rattle.go_type.specs.Tree.{Ty};
ghost use Rattle.go_operands.specs.BuiltinView.{builtin_view};
ghost use Rattle.go_typing.specs.Env.{is_blank, lookup};
ghost use Rattle.go_typing.specs.Scopes.{visible};
ghost use Rattle.go_typing.specs.Typing.{a_built_in, by_value, callee_of, declared_callee};
ghost use Rattle.go_operands.specs.EnvView.{env_of};
ghost use Rattle.go_operands.specs.View.{decl_of};
ghost use Rattle.go_typing.specs.Cycles.{call_needs};
ghost use Rattle.go_items.specs.Called.{looked_at};

use gj_base::Text;
use go_operands::rules::builtin::Builtin;
use go_operands::scopes::{Declared, Env};
use go_syntax::tree::{Expr, ExprForm};

/// What a call looks at.
#[derive(Clone, Copy, Debug, PartialEq, Eq)]
pub enum Look {
    /// A built-in function that isn't built yet: at nothing.
    Nothing,
    /// One that is: at its arguments.
    Arguments,
    /// Anything else: at what is called, and at its arguments.
    All,
}

/// Whether a name is `_`.
pub fn is_blank(x: &Text) -> bool
    ensures value { result ≡ is_blank x.now }
{
    x.as_bytes() == b"_".as_slice()
}

fn of_builtin(b: Builtin) -> Look
    ensures value { (fs xs : List (List ℕ)) → looked_at result fs xs ≡ call_needs (a_built_in (builtin_view b)) fs xs }
{
    match b {
        Builtin::Append => Look::Nothing,
        Builtin::Cap => Look::Nothing,
        Builtin::Close => Look::Nothing,
        Builtin::Complex => Look::Nothing,
        Builtin::Copy => Look::Nothing,
        Builtin::Delete => Look::Nothing,
        Builtin::Imag => Look::Nothing,
        Builtin::Len => Look::Arguments,
        Builtin::Make => Look::Nothing,
        Builtin::New => Look::Nothing,
        Builtin::Panic => Look::Nothing,
        Builtin::Print => Look::Arguments,
        Builtin::Println => Look::Arguments,
        Builtin::Real => Look::Nothing,
        Builtin::Recover => Look::Nothing,
    }
}

fn of_declared(d: &Declared) -> Look
    ensures value { (ts : List Ty) (fs xs : List (List ℕ)) → looked_at result fs xs ≡ call_needs (declared_callee (Some (decl_of ts d.now))) fs xs }
{
    match d {
        Declared::Var(_, _) => Look::All,
        Declared::Global(_, _) => Look::All,
        Declared::Const(_, _) => Look::All,
        Declared::TypeName(_) => Look::All,
        Declared::Func(_, _) => Look::All,
        Declared::Import(_) => Look::All,
        Declared::Builtin(b) => of_builtin(*b),
        Declared::Nil => Look::All,
        Declared::Refused(_) => Look::All,
        Declared::Unknown => Look::All,
    }
}

fn of_name(env: &Env, x: &Text) -> Look
    ensures value { (fs xs : List (List ℕ)) → looked_at result fs xs ≡ call_needs (if is_blank x.now then by_value else declared_callee (lookup x.now (visible (env_of env.now)))) fs xs }
{
    if is_blank(x) {
        return Look::All;
    }
    match env.lookup(x.as_bytes()) {
        Some(d) => of_declared(d),
        None => Look::All,
    }
}

/// What a call of this looks at: a name, also in parentheses, may be a built-in function.
pub fn called(env: &Env, f: &Expr) -> Look
    ensures value { (fs xs : List (List ℕ)) → looked_at result fs xs ≡ call_needs (callee_of (visible (env_of env.now)) (expr_view f.now)) fs xs }
{
    match &*f.form {
        ExprForm::Name(x) => of_name(env, x),
        ExprForm::Int(_) => Look::All,
        ExprForm::Rune(_) => Look::All,
        ExprForm::Str(_) => Look::All,
        ExprForm::Paren(f) => called(env, f),
        ExprForm::Unary(_, _) => Look::All,
        ExprForm::Binary(_, _, _) => Look::All,
        ExprForm::Select(_, _) => Look::All,
        ExprForm::Index(_, _) => Look::All,
        ExprForm::Slice(_, _, _, _) => Look::All,
        ExprForm::Assert(_, _) => Look::All,
        ExprForm::Call(_, _, _) => Look::All,
        ExprForm::Literal(_, _) => Look::All,
        ExprForm::Func(_, _) => Look::All,
        ExprForm::ArrayT(_, _) => Look::All,
        ExprForm::SliceT(_) => Look::All,
        ExprForm::StructT(_) => Look::All,
        ExprForm::FuncT(_) => Look::All,
        ExprForm::InterfaceT(_) => Look::All,
        ExprForm::MapT(_, _) => Look::All,
        ExprForm::ChanT(_, _) => Look::All,
    }
}
