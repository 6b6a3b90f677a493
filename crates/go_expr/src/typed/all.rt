//! Several expressions, typed over one table of types.
//!
//! The table first gets the types of what all their calls give, and stays from then on. So what each
//! of them stands for is said over the same types.

ghost use Rattle.std.specs.Prelude.{◌≡◌, ◌∷◌, [], OnOk, IfOk, map};
ghost use Rattle.go_type.specs.Table.{size};
ghost use Rattle.go_syntax.specs.View.{expr_view};
ghost use Rattle.go_operands.specs.EnvView.{table_of};
ghost use Rattle.go_calls.specs.Words.{types_of, names_of, scopes_of};
ghost use Rattle.go_calls.specs.ResultTypes.{AreRight};
ghost use Rattle.go_expr.specs.Ready.{IsReady};
ghost use Rattle.go_expr.specs.Raw.{raw_of, raws_of, raw_view, raws_view, RawBelow, RawsBelow, Grows, AllReady};

use crate::expr::numbers_fit;
use crate::expr::typing::typing;
use crate::parts::stack::take;
use crate::typed::raw::{Raw, Raws, gone_raw, gone_raws};
use gj_base::NoMemory;
use go_calls::callee::gives::{Gives, gives_of};
use go_calls::given::gone::gone_parts;
use go_operands::scopes::Env;
use go_syntax::tree::Expr;
use std::alloc::Global;

// The types of what the calls in an expression give.
#[tactic(auto, using(crate::proofs::TypedReadyLemmas::ready, crate::proofs::RawLemmas::grows_from))]
fn ready(alloc: Global, env: &mut Env, e: &Expr) -> Result<Gives, NoMemory>
    ensures right { IfOk result (AreRight (scopes_of env.new) (table_of env.new)) }
    ensures ready { IfOk result (λ g. IsReady (scopes_of env.new) g (expr_view e.now)) }
    ensures grows { OnOk result (Grows env.old env.new) }
{
    // Own: the lexical stage has refused greater numbers.
    if !numbers_fit(e) {
        return Err(NoMemory);
    }
    match gives_of(alloc, env, e) {
        Ok(gives) => Ok(gives),
        Err(error) => Err(error),
    }
}

#[tactic(auto, using(crate::proofs::RawLemmas::grows_not))]
fn all_ready(alloc: Global, env: &mut Env, es: &[Expr]) -> Result<Vec<Gives>, NoMemory>
    ensures ready { IfOk result (λ gs. AllReady (scopes_of env.new) (table_of env.new) gs.items (map expr_view es.now)) }
    ensures grows { OnOk result (Grows env.old env.new) }
{
    let mut all = Vec::new(alloc);
    for e in es {
        let gives = ready(alloc, env, e)?;
        all.push(gives)?;
    }
    Ok(all)
}

// An expression over a table that has what its calls give.
fn typed(alloc: Global, env: &Env, gives: &Gives, e: &Expr) -> Result<Raw, NoMemory>
    requires right { AreRight (scopes_of env.now) (table_of env.now) gives.now }
    requires ready { IsReady (scopes_of env.now) gives.now (expr_view e.now) }
    ensures view { IfOk result (λ r. raw_view (types_of env.now) r ≡ raw_of (names_of env.now) (scopes_of env.now) (expr_view e.now)) }
    ensures within { IfOk result (λ r. RawBelow (size (table_of env.now)) r) }
{
    let mut parts = Vec::new(alloc);
    let mut flaws = Vec::new(alloc);
    match typing(alloc, env, gives, e, &mut parts, &mut flaws) {
        Ok(()) => {
            let part = take(env, &mut parts);
            gone_parts(parts);
            Ok(Raw { part, flaws })
        }
        Err(error) => {
            gone_parts(parts);
            Err(error)
        }
    }
}

// One more stands before the others.
#[tactic(auto, using(crate::proofs::RawLemmas::before_view))]
fn before(env: &Env, raw: Raw, raws: &mut Raws) -> Result<(), NoMemory>
    requires raw { RawBelow (size (table_of env.now)) raw }
    requires within { RawsBelow (size (table_of env.now)) raws.old }
    ensures view { OnOk result (raws_view (types_of env.now) raws.new ≡ raw_view (types_of env.now) raw ∷ raws_view (types_of env.now) raws.old) }
    ensures within { OnOk result (RawsBelow (size (table_of env.now)) raws.new) }
{
    let _ = env;
    match raws.items.push(raw) {
        Ok(()) => Ok(()),
        Err(refused) => {
            gone_raw(refused.value);
            Err(NoMemory)
        }
    }
}

fn typed_before(
    alloc: Global,
    env: &Env,
    gives: &Gives,
    e: &Expr,
    raws: &mut Raws,
) -> Result<(), NoMemory>
    requires right { AreRight (scopes_of env.now) (table_of env.now) gives.now }
    requires ready { IsReady (scopes_of env.now) gives.now (expr_view e.now) }
    requires within { RawsBelow (size (table_of env.now)) raws.old }
    ensures view { OnOk result (raws_view (types_of env.now) raws.new ≡ raw_of (names_of env.now) (scopes_of env.now) (expr_view e.now) ∷ raws_view (types_of env.now) raws.old) }
    ensures within { OnOk result (RawsBelow (size (table_of env.now)) raws.new) }
{
    match typed(alloc, env, gives, e) {
        Ok(raw) => before(env, raw, raws),
        Err(error) => Err(error),
    }
}

// From the last one to the first.
#[tactic(auto, using(crate::proofs::TypedReadyLemmas::bound_at, crate::proofs::TypedReadyLemmas::right_at, crate::proofs::TypedReadyLemmas::ready_at, crate::proofs::RawLemmas::fill_view))]
fn fill(
    alloc: Global,
    env: &Env,
    gives: &[Gives],
    es: &[Expr],
    raws: &mut Raws,
) -> Result<(), NoMemory>
    requires ready { AllReady (scopes_of env.now) (table_of env.now) gives.now (map expr_view es.now) }
    requires none { raws.old.items.items ≡ [] }
    ensures view { OnOk result (raws_view (types_of env.now) raws.new ≡ raws_of (names_of env.now) (scopes_of env.now) (map expr_view es.now)) }
    ensures within { OnOk result (RawsBelow (size (table_of env.now)) raws.new) }
{
    let mut left = es.len();
    while left > 0 {
        left -= 1;
        typed_before(alloc, env, &gives[left], &es[left], raws)?;
    }
    Ok(())
}

fn all_typed(alloc: Global, env: &Env, gives: &[Gives], es: &[Expr]) -> Result<Raws, NoMemory>
    requires ready { AllReady (scopes_of env.now) (table_of env.now) gives.now (map expr_view es.now) }
    ensures view { IfOk result (λ rs. raws_view (types_of env.now) rs ≡ raws_of (names_of env.now) (scopes_of env.now) (map expr_view es.now)) }
    ensures within { IfOk result (λ rs. RawsBelow (size (table_of env.now)) rs) }
{
    let mut raws = Raws {
        items: Vec::new(alloc),
    };
    match fill(alloc, env, gives, es, &mut raws) {
        Ok(()) => Ok(raws),
        Err(error) => {
            gone_raws(raws);
            Err(error)
        }
    }
}

/// Expressions, each typed once, in the scopes before all of them.
///
/// Go, "Expressions".
pub fn all_in(alloc: Global, env: &mut Env, es: &[Expr]) -> Result<Raws, NoMemory>
    ensures view { IfOk result (λ rs. raws_view (types_of env.new) rs ≡ raws_of (names_of env.new) (scopes_of env.new) (map expr_view es.now)) }
    ensures within { IfOk result (λ rs. RawsBelow (size (table_of env.new)) rs) }
    ensures grows { OnOk result (Grows env.old env.new) }
{
    match all_ready(alloc, env, es) {
        Ok(gives) => all_typed(alloc, env, gives.as_slice(), es),
        Err(error) => Err(error),
    }
}

// The second one, where the first one is typed.
fn with_second(
    alloc: Global,
    env: &Env,
    gives: &Gives,
    y: &Expr,
    x: Raw,
) -> Result<(Raw, Raw), NoMemory>
    requires right { AreRight (scopes_of env.now) (table_of env.now) gives.now }
    requires ready { IsReady (scopes_of env.now) gives.now (expr_view y.now) }
    requires first { RawBelow (size (table_of env.now)) x }
    ensures first { IfOk result (λ r. raw_view (types_of env.now) r.0 ≡ raw_view (types_of env.now) x) }
    ensures second { IfOk result (λ r. raw_view (types_of env.now) r.1 ≡ raw_of (names_of env.now) (scopes_of env.now) (expr_view y.now)) }
    ensures within { IfOk result (λ r. RawBelow (size (table_of env.now)) r.0 × RawBelow (size (table_of env.now)) r.1) }
{
    match typed(alloc, env, gives, y) {
        Ok(y) => Ok((x, y)),
        Err(error) => {
            gone_raw(x);
            Err(error)
        }
    }
}

/// Two expressions, in the scopes before both.
#[tactic(auto, using(crate::proofs::RawLemmas::grows_on, crate::proofs::TypedReadyLemmas::right_kept, crate::proofs::TypedReadyLemmas::ready_kept))]
pub fn both_in(alloc: Global, env: &mut Env, x: &Expr, y: &Expr) -> Result<(Raw, Raw), NoMemory>
    ensures first { IfOk result (λ r. raw_view (types_of env.new) r.0 ≡ raw_of (names_of env.new) (scopes_of env.new) (expr_view x.now)) }
    ensures second { IfOk result (λ r. raw_view (types_of env.new) r.1 ≡ raw_of (names_of env.new) (scopes_of env.new) (expr_view y.now)) }
    ensures within { IfOk result (λ r. RawBelow (size (table_of env.new)) r.0 × RawBelow (size (table_of env.new)) r.1) }
    ensures grows { OnOk result (Grows env.old env.new) }
{
    let of_x = ready(alloc, env, x)?;
    let of_y = ready(alloc, env, y)?;
    match typed(alloc, env, &of_x, x) {
        Ok(x) => with_second(alloc, env, &of_y, y, x),
        Err(error) => Err(error),
    }
}
