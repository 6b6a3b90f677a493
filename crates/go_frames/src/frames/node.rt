//! Nodes of the tree, each from its parts.

ghost use Rattle.std.specs.Prelude.{◌≡◌, ◌∷◌, ◌++◌, [], IfOk, map};
ghost use Rattle.go_syntax.specs.Tree as t;
ghost use Rattle.go_syntax.specs.declared.tree.Prefix.TheVariants as «prefix»;
ghost use Rattle.go_syntax.specs.View.{expr_view, elem_view, sig_view, block_view, stmt_view, field_view, member_view, joined};
ghost use Rattle.go_grammar.specs.Context.{is_channel, is_name, is_receive, takes_literal};
ghost use Rattle.go_grammar.specs.Nodes.{name_expr, name_in, leaf, maybe, unary, binary, select, slice, call, place_of_expr};
ghost use Rattle.go_frames.specs.Lists.{received};
ghost use Rattle.go_frames.specs.FrameView.{token_of, expr_in_option, expr_perhaps, exprs_in};

use gj_base::{NoMemory, Op, Place, Text};
use go_syntax::TokenKind;
use go_syntax::node::expression;
use go_syntax::tree::{
    Block, ChanDir, Elem, Expr, ExprForm, Field, Member, Name, Prefix, Sig, Stmt,
};
use std::alloc::Global;

pub fn name(alloc: Global, place: Place, text: &[u8]) -> Result<Name, NoMemory>
    ensures value { IfOk result (λ n. n ≡ record { place = place; text = text.now }) }
{
    let text = Text::from_slice(alloc, text)?;
    Ok(Name { place, text })
}

/// A name as an expression.
pub fn name_expr(alloc: Global, name: Name) -> Result<Expr, NoMemory>
    ensures value { IfOk result (λ e. expr_view e ≡ name_expr name) }
{
    expression(alloc, name.place, ExprForm::Name(name.text))
}

/// Whether it is a name alone.
pub fn is_name(e: &Expr) -> bool
    ensures value { result ≡ is_name (expr_view e.now) }
{
    matches!(*e.form, ExprForm::Name(_))
}

/// Where it stands.
fn place_of(e: &Expr) -> Place
    ensures value { result ≡ place_of_expr (expr_view e.now) }
{
    e.place
}

/// The name that an expression is, where it is one.
pub fn into_name(e: Expr) -> Option<Name>
    ensures value { result ≡ name_in (expr_view e) }
{
    let place = e.place;
    match Box::into_inner(e.form) {
        ExprForm::Name(text) => Some(Name { place, text }),
        _ => None,
    }
}

/// A name or a literal.
pub fn leaf(
    alloc: Global,
    kind: TokenKind,
    place: Place,
    text: &[u8],
) -> Result<Option<Expr>, NoMemory>
    ensures value { IfOk result (λ e. expr_in_option e ≡ leaf (token_of (record { kind = kind; place = place }) text.now)) }
{
    match kind {
        TokenKind::Name => {
            let text = Text::from_slice(alloc, text)?;
            let e = expression(alloc, place, ExprForm::Name(text))?;
            Ok(Some(e))
        }
        TokenKind::Int => {
            let text = Text::from_slice(alloc, text)?;
            let e = expression(alloc, place, ExprForm::Int(text))?;
            Ok(Some(e))
        }
        TokenKind::Rune => {
            let text = Text::from_slice(alloc, text)?;
            let e = expression(alloc, place, ExprForm::Rune(text))?;
            Ok(Some(e))
        }
        TokenKind::Str => {
            let text = Text::from_slice(alloc, text)?;
            let e = expression(alloc, place, ExprForm::Str(text))?;
            Ok(Some(e))
        }
        _ => Ok(None),
    }
}

pub fn paren(alloc: Global, place: Place, e: Expr) -> Result<Expr, NoMemory>
    ensures value { IfOk result (λ r. expr_view r ≡ t.ParenExpr place (expr_view e)) }
{
    expression(alloc, place, ExprForm::Paren(e))
}

fn plain_unary(alloc: Global, place: Place, op: Prefix, e: Expr) -> Result<Expr, NoMemory>
    ensures value { IfOk result (λ r. expr_view r ≡ t.UnaryExpr place op (expr_view e)) }
{
    expression(alloc, place, ExprForm::Unary(op, e))
}

/// Whether it is a type `chan T`.
fn is_channel(e: &Expr) -> bool
    ensures value { result ≡ is_channel (expr_view e.now) }
{
    match &*e.form {
        ExprForm::ChanT(dir, _) => *dir == ChanDir::Both,
        _ => false,
    }
}

fn is_receive(op: Prefix) -> bool
    ensures value { result ≡ is_receive op }
{
    matches!(op, Prefix::Receive)
}

/// The type `<-chan T` of the type `chan T`.
fn received(place: Place, e: Expr) -> Expr
    ensures value { expr_view result ≡ received place (expr_view e) }
{
    let Expr { place: inner, form } = e;
    let mut form = form;
    match &mut *form {
        ExprForm::ChanT(dir, _) => {
            *dir = ChanDir::Receive;
            Expr { place, form }
        }
        _ => Expr { place: inner, form },
    }
}

/// A prefix and its operand; of `<-` and the type `chan T` alone the type `<-chan T`.
#[tactic(auto, using(crate::proofs::FramesListLemmas::plain_unary, crate::proofs::FramesListLemmas::receive_unary))]
pub fn unary(alloc: Global, place: Place, op: Prefix, e: Expr) -> Result<Expr, NoMemory>
    ensures value { IfOk result (λ r. expr_view r ≡ unary place op (expr_view e)) }
{
    if is_receive(op) && is_channel(&e) {
        return Ok(received(place, e));
    }
    plain_unary(alloc, place, op, e)
}

pub fn star(alloc: Global, place: Place, e: Expr) -> Result<Expr, NoMemory>
    ensures value { IfOk result (λ r. expr_view r ≡ t.UnaryExpr place «prefix».Star (expr_view e)) }
{
    plain_unary(alloc, place, Prefix::Star, e)
}

pub fn binary(alloc: Global, a: Expr, op: Op, b: Expr) -> Result<Expr, NoMemory>
    ensures value { IfOk result (λ r. expr_view r ≡ binary (expr_view a) op (expr_view b)) }
{
    let place = place_of(&a);
    expression(alloc, place, ExprForm::Binary(a, op, b))
}

pub fn select(alloc: Global, e: Expr, name: Name) -> Result<Expr, NoMemory>
    ensures value { IfOk result (λ r. expr_view r ≡ select (expr_view e) name) }
{
    let place = place_of(&e);
    expression(alloc, place, ExprForm::Select(e, name))
}

pub fn index(alloc: Global, e: Expr, i: Expr) -> Result<Expr, NoMemory>
    ensures value { IfOk result (λ r. expr_view r ≡ t.IndexExpr (place_of_expr (expr_view e)) (expr_view e) (expr_view i)) }
{
    let place = place_of(&e);
    expression(alloc, place, ExprForm::Index(e, i))
}

pub fn slice(
    alloc: Global,
    e: Expr,
    low: Option<Expr>,
    high: Option<Expr>,
    max: Option<Expr>,
) -> Result<Expr, NoMemory>
    ensures value { IfOk result (λ r. expr_view r ≡ slice (expr_view e) (expr_in_option low) (expr_in_option high) (expr_in_option max)) }
{
    let place = place_of(&e);
    expression(alloc, place, ExprForm::Slice(e, low, high, max))
}

pub fn assertion(alloc: Global, e: Expr, ty: Expr) -> Result<Expr, NoMemory>
    ensures value { IfOk result (λ r. expr_view r ≡ t.AssertExpr (place_of_expr (expr_view e)) (expr_view e) (expr_view ty)) }
{
    let place = place_of(&e);
    expression(alloc, place, ExprForm::Assert(e, ty))
}

pub fn call(alloc: Global, f: Expr, args: Vec<Expr>, spread: bool) -> Result<Expr, NoMemory>
    ensures value { IfOk result (λ r. expr_view r ≡ call (expr_view f) (exprs_in args.items) spread) }
{
    let place = place_of(&f);
    expression(alloc, place, ExprForm::Call(f, args, spread))
}

pub fn literal(
    alloc: Global,
    place: Place,
    ty: Option<Expr>,
    elems: Vec<Elem>,
) -> Result<Expr, NoMemory>
    ensures value { IfOk result (λ r. expr_view r ≡ t.LiteralExpr place (expr_perhaps ty) (joined (map elem_view elems.items) t.NoElems)) }
{
    expression(alloc, place, ExprForm::Literal(ty, elems))
}

pub fn elem(key: Option<Expr>, value: Expr) -> Elem
    ensures value { (rest : t.Elems) → elem_view result rest ≡ t.MoreElems (expr_perhaps key) (expr_view value) rest }
{
    Elem { key, value }
}

pub fn function(alloc: Global, place: Place, sig: Sig, body: Block) -> Result<Expr, NoMemory>
    ensures value { IfOk result (λ e. expr_view e ≡ t.FuncExpr place (sig_view sig) (block_view body)) }
{
    expression(alloc, place, ExprForm::Func(sig, body))
}

pub fn function_type(alloc: Global, place: Place, sig: Sig) -> Result<Expr, NoMemory>
    ensures value { IfOk result (λ e. expr_view e ≡ t.FuncType place (sig_view sig)) }
{
    expression(alloc, place, ExprForm::FuncT(sig))
}

pub fn array_type(
    alloc: Global,
    place: Place,
    len: Option<Expr>,
    ty: Expr,
) -> Result<Expr, NoMemory>
    ensures value { IfOk result (λ r. expr_view r ≡ t.ArrayType place (expr_perhaps len) (expr_view ty)) }
{
    expression(alloc, place, ExprForm::ArrayT(len, ty))
}

pub fn slice_type(alloc: Global, place: Place, ty: Expr) -> Result<Expr, NoMemory>
    ensures value { IfOk result (λ r. expr_view r ≡ t.SliceType place (expr_view ty)) }
{
    expression(alloc, place, ExprForm::SliceT(ty))
}

pub fn map_type(alloc: Global, place: Place, key: Expr, ty: Expr) -> Result<Expr, NoMemory>
    ensures value { IfOk result (λ r. expr_view r ≡ t.MapType place (expr_view key) (expr_view ty)) }
{
    expression(alloc, place, ExprForm::MapT(key, ty))
}

pub fn chan_type(alloc: Global, place: Place, dir: ChanDir, ty: Expr) -> Result<Expr, NoMemory>
    ensures value { IfOk result (λ r. expr_view r ≡ t.ChanType place dir (expr_view ty)) }
{
    expression(alloc, place, ExprForm::ChanT(dir, ty))
}

pub fn struct_type(alloc: Global, place: Place, fields: Vec<Field>) -> Result<Expr, NoMemory>
    ensures value { IfOk result (λ e. expr_view e ≡ t.StructType place (joined (map field_view fields.items) t.NoFields)) }
{
    expression(alloc, place, ExprForm::StructT(fields))
}

pub fn interface_type(alloc: Global, place: Place, members: Vec<Member>) -> Result<Expr, NoMemory>
    ensures value { IfOk result (λ e. expr_view e ≡ t.InterfaceType place (joined (map member_view members.items) t.NoMembers)) }
{
    expression(alloc, place, ExprForm::InterfaceT(members))
}

/// Whether a Literal may follow the operand; in a header only a type begins one.
pub fn takes_literal(header: bool, e: &Expr) -> bool
    ensures value { result ≡ takes_literal header (expr_view e.now) }
{
    match &*e.form {
        ExprForm::Name(_) => !header,
        ExprForm::Select(x, _) => !header && is_name(x),
        ExprForm::ArrayT(_, _) => true,
        ExprForm::SliceT(_) => true,
        ExprForm::StructT(_) => true,
        ExprForm::MapT(_, _) => true,
        _ => false,
    }
}

/// The list with one more at its end.
pub fn and<T: Drop>(list: Vec<T>, item: T) -> Result<Vec<T>, NoMemory>
    ensures value { IfOk result (λ all. all.items ≡ list.items ++ item ∷ []) }
{
    let mut list = list;
    list.push(item)?;
    Ok(list)
}

/// The list of one.
pub fn only<T: Drop>(alloc: Global, item: T) -> Result<Vec<T>, NoMemory>
    ensures value { IfOk result (λ all. all.items ≡ item ∷ []) }
{
    let mut list = Vec::new(alloc);
    list.push(item)?;
    Ok(list)
}
