//! Parameters and results: which names of a list are names.
//!
//! Go, "Function types": "Within a list of parameters or results, the names (IdentifierList) must
//! either all be present or all be absent."

ghost use Rattle.std.specs.Prelude.{◌≡◌, ◌∷◌, [], IfOk, None, true, map, option_map};
ghost use Rattle.go_syntax.specs.Tree as t;
ghost use Rattle.go_syntax.specs.View.{expr_view, param_view, sig_view, joined};
ghost use Rattle.go_typing.specs.Signature.{alone, grouped, next_named, some_named, all_named, is_mixed, params_of, results_of, params_place, results_place};
ghost use Rattle.go_items.specs.ParamView.{grouped_view, name_alone, named_view, typed_view};

use gj_base::{NoMemory, Place, Text};
use go_syntax::tree::{Expr, ExprForm, Param, Results, Sig};
use std::alloc::Global;

/// A name where it stands.
#[derive(Clone, Copy)]
pub struct Named<'a> {
    pub place: Place,
    pub text: &'a Text,
}

/// A parameter or a result: where it stands, its name if it has one, whether `...` is before its type,
/// its type, and whether the type is written with it.
#[derive(Drop)]
pub struct Grouped<'a> {
    pub place: Place,
    pub name: Option<Named<'a>>,
    pub variadic: bool,
    pub ty: &'a Expr,
    pub has_type: bool,
}

fn unnamed<'a>(place: Place, variadic: bool, ty: &'a Expr) -> Grouped<'a>
    ensures value { grouped_view result ≡ record { place = place; name = None; variadic = variadic; type_ = expr_view ty.now; has_type = true } }
{
    Grouped {
        place,
        name: None,
        variadic,
        ty,
        has_type: true,
    }
}

// A name that stands where a type does.
fn name_alone<'a>(ty: &'a Expr) -> Option<Named<'a>>
    ensures value { option_map named_view result ≡ name_alone (expr_view ty.now) }
{
    match &*ty.form {
        ExprForm::Name(text) => Some(Named {
            place: ty.place,
            text,
        }),
        ExprForm::Int(_) => None,
        ExprForm::Rune(_) => None,
        ExprForm::Str(_) => None,
        ExprForm::Paren(_) => None,
        ExprForm::Unary(_, _) => None,
        ExprForm::Binary(_, _, _) => None,
        ExprForm::Select(_, _) => None,
        ExprForm::Index(_, _) => None,
        ExprForm::Slice(_, _, _, _) => None,
        ExprForm::Assert(_, _) => None,
        ExprForm::Call(_, _, _) => None,
        ExprForm::Literal(_, _) => None,
        ExprForm::Func(_, _) => None,
        ExprForm::ArrayT(_, _) => None,
        ExprForm::SliceT(_) => None,
        ExprForm::StructT(_) => None,
        ExprForm::FuncT(_) => None,
        ExprForm::InterfaceT(_) => None,
        ExprForm::MapT(_, _) => None,
        ExprForm::ChanT(_, _) => None,
    }
}

// One alone is a name where one with a name and a type follows.
fn alone<'a>(place: Place, variadic: bool, ty: &'a Expr, next: Option<&'a Param>) -> Grouped<'a>
    ensures value { grouped_view result ≡ alone place variadic (expr_view ty.now) (typed_view (next).entry) }
{
    if variadic {
        return unnamed(place, variadic, ty);
    }
    let Some(next) = next else {
        return unnamed(place, variadic, ty);
    };
    match name_alone(ty) {
        Some(name) => Grouped {
            place,
            name: Some(name),
            variadic: next.variadic,
            ty: &next.ty,
            has_type: false,
        },
        None => unnamed(place, variadic, ty),
    }
}

// One of a list, by the next one that has a name and a type.
fn one<'a>(p: &'a Param, next: Option<&'a Param>) -> Grouped<'a>
    ensures value { (rest : t.Params) → next_named rest ≡ typed_view (next).entry → grouped (param_view p.now rest) ≡ grouped_view result ∷ grouped rest }
{
    match &p.name {
        Some(n) => Grouped {
            place: p.place,
            name: Some(Named {
                place: n.place,
                text: &n.text,
            }),
            variadic: p.variadic,
            ty: &p.ty,
            has_type: true,
        },
        None => alone(p.place, p.variadic, &p.ty, next),
    }
}

// The next one that has a name and a type, for those before this one.
fn next_of<'a>(p: &'a Param, next: Option<&'a Param>) -> Option<&'a Param>
    ensures value { (rest : t.Params) → next_named rest ≡ typed_view (next).entry → next_named (param_view p.now rest) ≡ typed_view result }
{
    match &p.name {
        Some(_) => Some(p),
        None => next,
    }
}

/// The parameters of a list, from the last to the first, each by the next one that has a name and a
/// type.
pub fn in_groups<'a>(alloc: Global, params: &'a [Param]) -> Result<Vec<Grouped<'a>>, NoMemory>
    ensures value { IfOk result (λ r. map grouped_view r.items ≡ grouped (joined (map param_view params.now) t.NoParams)) }
{
    let mut all = Vec::new(alloc);
    let mut next = None;
    let mut i = params.len();
    while i > 0 {
        i -= 1;
        let p = &params[i];
        let item = one(p, next);
        next = next_of(p, next);
        all.push(item)?;
    }
    all.reverse();
    Ok(all)
}

/// The parameters of a signature.
pub fn params_of<'a>(alloc: Global, sig: &'a Sig) -> Result<Vec<Grouped<'a>>, NoMemory>
    ensures value { IfOk result (λ r. map grouped_view r.items ≡ params_of (sig_view sig.now)) }
{
    in_groups(alloc, sig.params.items.as_slice())
}

/// The results of a signature: one type without parentheses is a result without a name.
pub fn results_of<'a>(alloc: Global, sig: &'a Sig) -> Result<Vec<Grouped<'a>>, NoMemory>
    ensures value { IfOk result (λ r. map grouped_view r.items ≡ results_of (sig_view sig.now)) }
{
    match &sig.results {
        Results::None => Ok(Vec::new(alloc)),
        Results::Type(ty) => {
            let mut all = Vec::new(alloc);
            all.push(unnamed(ty.place, false, ty))?;
            Ok(all)
        }
        Results::List(params) => in_groups(alloc, params.items.as_slice()),
    }
}

/// Where the parameters of a signature stand.
pub fn params_place(sig: &Sig) -> Place
    ensures value { result ≡ params_place (sig_view sig.now) }
{
    sig.params.place
}

/// Where its results stand; where they have no parentheses, where its parameters do.
pub fn results_place(sig: &Sig) -> Place
    ensures value { result ≡ results_place (sig_view sig.now) }
{
    match &sig.results {
        Results::List(params) => params.place,
        Results::None => sig.params.place,
        Results::Type(_) => sig.params.place,
    }
}

/// Whether one of them has a name.
pub fn some_named(params: &[Grouped<'_>]) -> bool
    ensures value { result ≡ some_named (map grouped_view params.now) }
{
    for p in params {
        if p.name.is_some() {
            return true;
        }
    }
    false
}

/// Whether each of them has a name.
pub fn all_named(params: &[Grouped<'_>]) -> bool
    ensures value { result ≡ all_named (map grouped_view params.now) }
{
    for p in params {
        if p.name.is_none() {
            return false;
        }
    }
    true
}

/// Whether some have names and some have none.
pub fn is_mixed(params: &[Grouped<'_>]) -> bool
    ensures value { result ≡ is_mixed (map grouped_view params.now) }
{
    some_named(params) && !all_named(params)
}
