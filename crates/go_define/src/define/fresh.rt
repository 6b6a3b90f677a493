//! Names on the left of `:=`: new ones, those that the scope has, and what takes any value.
//!
//! Go, "Short variable declarations".

ghost use Rattle.std.specs.Prelude.{◌≡◌, ◌<◌, ◌∷◌, ◌+◌, ◌&&◌, [], Some, false, List, OnOk, IfOk, IfSome, MatchOption, length, map, option_map};
ghost use Rattle.go_type.specs.Tree.{Ty};
ghost use Rattle.go_type.specs.Table.{size};
ghost use Rattle.go_syntax.specs.View.{expr_view};
ghost use Rattle.go_operands.specs.EnvView.{table_of};
ghost use Rattle.go_calls.specs.Words.{types_of};
ghost use Rattle.go_typing.specs.Env.{is_blank};
ghost use Rattle.go_typing.specs.Walk.{is_there};
ghost use Rattle.go_typing.specs.Assign as go;
ghost use Rattle.go_walk.specs.WalkView.{walk_outside, depth};
ghost use Rattle.go_assign.specs.Moves.{Stays};
ghost use Rattle.go_define.specs.FreshView.{old_spot, spot_of, spots_of, fresh_view, freshes_view, FreshBelow, FreshesBelow, plain_name, is_new_spot, any_new_spot, spot_typed, spots_typed};

use gj_base::{NoMemory, Place, Text};
use go_assign::assign::left::{Left, is_left, left_of};
use go_assign::effects::place_in;
use go_operands::scopes::Env;
use go_syntax::tree::{Expr, ExprForm, Name};
use go_walk::labels::blank::is_blank;
use go_walk::walk::Walk;
use go_walk::walk::scopes::there;

/// A name on the left.
#[derive(Drop)]
pub enum Fresh {
    New(Name),
    Old(Left),
    Blank,
    /// What is no name.
    Other,
}

/// Names in order, where the last one is held first.
#[derive(Drop)]
pub struct Freshes {
    pub items: Vec<Fresh>,
}

/// The name that it is, if it is one without parentheses.
pub fn plain_name(e: &Expr) -> Option<&Text>
    ensures value { option_map (λ x. x.now) result ≡ plain_name (expr_view e.now) }
{
    match &*e.form {
        ExprForm::Name(text) => Some(text),
        ExprForm::Paren(_) => None,
        ExprForm::Int(_) => None,
        ExprForm::Rune(_) => None,
        ExprForm::Str(_) => None,
        ExprForm::Unary(_, _) => None,
        ExprForm::Binary(_, _, _) => None,
        ExprForm::Select(_, _) => None,
        ExprForm::Index(_, _) => None,
        ExprForm::Slice(_, _, _, _) => None,
        ExprForm::Assert(_, _) => None,
        ExprForm::Call(_, _, _) => None,
        ExprForm::Literal(_, _) => None,
        ExprForm::Func(_, _) => None,
        ExprForm::ArrayT(_, _) => None,
        ExprForm::SliceT(_) => None,
        ExprForm::StructT(_) => None,
        ExprForm::FuncT(_) => None,
        ExprForm::InterfaceT(_) => None,
        ExprForm::MapT(_, _) => None,
        ExprForm::ChanT(_, _) => None,
    }
}

// A name of the text at a place.
fn name_at(at: Place, text: &Text) -> Result<Name, NoMemory>
    ensures value { IfOk result (λ n. n ≡ go.name_of at text.now) }
{
    let text = text.clone()?;
    Ok(Name { place: at, text })
}

// A name that its scope has, as a left side.
#[tactic(auto, using(crate::proofs::FreshLemmas::old_view, go_assign::proofs::WalkLemmas::stays_grown))]
fn stood(walk: &mut Walk, e: &Expr) -> Result<Fresh, NoMemory>
    ensures view { IfOk result (λ f. fresh_view (types_of walk.new.env) f ≡ old_spot (go.left_of (walk_outside walk.old.env) (expr_view e.now))) }
    ensures within { IfOk result (λ f. FreshBelow (size (table_of walk.new.env)) f) }
    ensures stays { OnOk result (Stays walk.old walk.new) }
{
    let alloc = *walk.used.allocator();
    match left_of(alloc, &mut walk.env, e) {
        Ok(left) => Ok(Fresh::Old(left)),
        Err(error) => Err(error),
    }
}

// Where its scope has it, if it does.
fn found(walk: &Walk, n: &Name) -> Option<Place>
    requires depth { 0 < depth walk.now }
    ensures value { result ≡ is_there n.now (walk_outside walk.now.env) }
{
    there(walk, n)
}

// A name that is not `_`, and whether it is new.
#[tactic(auto, using(crate::proofs::FreshLemmas::named_new, crate::proofs::FreshLemmas::named_old, crate::proofs::FreshLemmas::stays_not))]
fn named(walk: &mut Walk, e: &Expr, text: &Text) -> Result<Fresh, NoMemory>
    requires depth { 0 < depth walk.old }
    requires named { Some text.now ≡ plain_name (expr_view e.now) }
    requires plain { false ≡ is_blank text.now }
    ensures view { IfOk result (λ f. fresh_view (types_of walk.new.env) f ≡ spot_of (walk_outside walk.old.env) (expr_view e.now)) }
    ensures within { IfOk result (λ f. FreshBelow (size (table_of walk.new.env)) f) }
    ensures stays { OnOk result (Stays walk.old walk.new) }
{
    match name_at(place_in(e), text) {
        Ok(n) => match found(walk, &n) {
            None => Ok(Fresh::New(n)),
            Some(_) => match stood(walk, e) {
                Ok(fresh) => Ok(fresh),
                Err(error) => Err(error),
            },
        },
        Err(error) => Err(error),
    }
}

/// What a name on the left is.
#[tactic(auto, using(crate::proofs::FreshLemmas::blank_view, crate::proofs::FreshLemmas::other_view, crate::proofs::FreshLemmas::stays_not))]
pub fn fresh_of(walk: &mut Walk, e: &Expr) -> Result<Fresh, NoMemory>
    requires depth { 0 < depth walk.old }
    ensures view { IfOk result (λ f. fresh_view (types_of walk.new.env) f ≡ spot_of (walk_outside walk.old.env) (expr_view e.now)) }
    ensures within { IfOk result (λ f. FreshBelow (size (table_of walk.new.env)) f) }
    ensures stays { OnOk result (Stays walk.old walk.new) }
{
    match plain_name(e) {
        Some(text) => {
            if is_blank(text) {
                return Ok(Fresh::Blank);
            }
            match named(walk, e, text) {
                Ok(fresh) => Ok(fresh),
                Err(error) => Err(error),
            }
        }
        None => Ok(Fresh::Other),
    }
}

// One more stands before the others.
#[tactic(auto, using(crate::proofs::FreshLemmas::before_view, crate::proofs::FreshLemmas::before_within))]
fn fresh_before(walk: &mut Walk, e: &Expr, freshes: &mut Freshes) -> Result<(), NoMemory>
    requires depth { 0 < depth walk.old }
    requires within { FreshesBelow (size (table_of walk.old.env)) freshes.old }
    ensures view { OnOk result (freshes_view (types_of walk.new.env) freshes.new ≡ spot_of (walk_outside walk.old.env) (expr_view e.now) ∷ freshes_view (types_of walk.old.env) freshes.old) }
    ensures within { OnOk result (FreshesBelow (size (table_of walk.new.env)) freshes.new) }
    ensures stays { OnOk result (Stays walk.old walk.new) }
{
    let fresh = fresh_of(walk, e)?;
    freshes.items.push(fresh)?;
    Ok(())
}

/// Names on the left, in order. They are gone through from the last one to the first.
#[tactic(auto, using(crate::proofs::FreshLemmas::fill_view, crate::proofs::FreshLemmas::depth_kept, go_assign::proofs::WalkLemmas::stays_on, crate::proofs::FreshLemmas::stays_not))]
pub fn freshes_in(walk: &mut Walk, es: &[Expr]) -> Result<Freshes, NoMemory>
    requires depth { 0 < depth walk.old }
    ensures view { IfOk result (λ fs. freshes_view (types_of walk.new.env) fs ≡ spots_of (walk_outside walk.old.env) (map expr_view es.now)) }
    ensures within { IfOk result (λ fs. FreshesBelow (size (table_of walk.new.env)) fs) }
    ensures stays { OnOk result (Stays walk.old walk.new) }
{
    let alloc = *walk.used.allocator();
    let mut freshes = Freshes {
        items: Vec::new(alloc),
    };
    let mut left = es.len();
    while left > 0 {
        left -= 1;
        fresh_before(walk, &es[left], &mut freshes)?;
    }
    Ok(freshes)
}

/// The next one is taken away, if there is one.
#[tactic(auto, using(crate::proofs::FreshLemmas::next_view, crate::proofs::FreshLemmas::next_count))]
pub fn next_fresh(env: &Env, freshes: &mut Freshes) -> Option<Fresh>
    requires within { FreshesBelow (size (table_of env.now)) freshes.old }
    ensures view { MatchOption result (freshes_view (types_of env.now) freshes.old ≡ []) (λ f. freshes_view (types_of env.now) freshes.old ≡ fresh_view (types_of env.now) f ∷ freshes_view (types_of env.now) freshes.new) }
    ensures within { FreshesBelow (size (table_of env.now)) freshes.new }
    ensures fresh { IfSome result (FreshBelow (size (table_of env.now))) }
    ensures count { MatchOption result (length freshes.old.items.items ≡ 0) (λ f. length freshes.new.items.items + 1 ≡ length freshes.old.items.items) }
{
    let _ = env;
    freshes.items.pop()
}

// Whether a name is new. Own: what is no name has its own fault.
fn is_new(fresh: &Fresh) -> bool
    ensures value { (ts : List Ty) → result ≡ is_new_spot (fresh_view ts fresh.now) }
{
    match fresh {
        Fresh::New(_) => true,
        Fresh::Old(_) => false,
        Fresh::Blank => false,
        Fresh::Other => true,
    }
}

/// Whether one of them is new.
#[tactic(auto, using(crate::proofs::FreshLemmas::new_step, crate::proofs::FreshLemmas::new_stop, crate::proofs::FreshLemmas::new_end))]
pub fn any_new(freshes: &Freshes) -> bool
    ensures value { (ts : List Ty) → result ≡ any_new_spot (freshes_view ts freshes.now) }
{
    for fresh in &freshes.items {
        if is_new(fresh) {
            return true;
        }
    }
    false
}

/// Whether both the names and the values are typed.
pub fn both_typed(names: bool, values: bool) -> bool
    ensures value { result ≡ (names && values) }
{
    names && values
}

// Whether it declares a name, or can be assigned.
fn is_typed(fresh: &Fresh) -> bool
    ensures value { (ts : List Ty) → result ≡ spot_typed (fresh_view ts fresh.now) }
{
    match fresh {
        Fresh::New(_) => true,
        Fresh::Old(left) => is_left(left),
        Fresh::Blank => true,
        Fresh::Other => false,
    }
}

/// Whether each of them declares a name, or can be assigned.
#[tactic(auto, using(crate::proofs::FreshLemmas::typed_step, crate::proofs::FreshLemmas::typed_stop, crate::proofs::FreshLemmas::typed_end))]
pub fn names_typed(freshes: &Freshes) -> bool
    ensures value { (ts : List Ty) → result ≡ spots_typed (freshes_view ts freshes.now) }
{
    for fresh in &freshes.items {
        if !is_typed(fresh) {
            return false;
        }
    }
    true
}
