//! Expressions that are typed once, before it is known what their places want.

ghost use Rattle.std.specs.Prelude.{◌≡◌, ◌∷◌, [], OnOk, IfOk, IfSome, MatchOption};
ghost use Rattle.go_type.specs.Table.{size};
ghost use Rattle.go_syntax.specs.View.{expr_view};
ghost use Rattle.go_operands.specs.EnvView.{table_of};
ghost use Rattle.go_calls.specs.Words.{types_of, names_of, scopes_of};
ghost use Rattle.go_expr.specs.Raw.{raw_of, raw_view, raws_view, RawBelow, RawsBelow, Grows};

use crate::expr::answered::part_in;
use crate::expr::numbers_fit;
use gj_base::NoMemory;
use go_operands::answers::answer::Flaw;
use go_operands::operands::part::{Part, gone_part};
use go_operands::scopes::Env;
use go_syntax::tree::Expr;
use std::alloc::Global;

/// An expression as it is typed, with all that is told of it.
pub struct Raw {
    pub part: Part,
    pub flaws: Vec<Flaw>,
}

/// Several of them in order, where the last one is held first.
pub struct Raws {
    pub items: Vec<Raw>,
}

/// Lets one go.
pub fn gone_raw(raw: Raw) {
    let Raw {
        part,
        flaws: _flaws,
    } = raw;
    gone_part(part);
}

/// Lets them go.
pub fn gone_raws(raws: Raws) {
    let Raws { items } = raws;
    let mut items = items;
    while let Some(raw) = items.pop() {
        gone_raw(raw);
    }
    items.destroy_empty();
}

/// An expression, typed by the types, names and scopes of the environment.
///
/// Go, "Expressions".
#[tactic(auto, using(crate::proofs::RawLemmas::grows_from))]
pub fn raw_in(alloc: Global, env: &mut Env, e: &Expr) -> Result<Raw, NoMemory>
    ensures view { IfOk result (λ r. raw_view (types_of env.new) r ≡ raw_of (names_of env.new) (scopes_of env.new) (expr_view e.now)) }
    ensures within { IfOk result (λ r. RawBelow (size (table_of env.new)) r) }
    ensures grows { OnOk result (Grows env.old env.new) }
{
    // Own: the lexical stage has refused greater numbers.
    if !numbers_fit(e) {
        return Err(NoMemory);
    }
    let mut flaws = Vec::new(alloc);
    match part_in(alloc, env, e, &mut flaws) {
        Ok(part) => Ok(Raw { part, flaws }),
        Err(error) => Err(error),
    }
}

/// The next one is taken away, if there is one.
#[tactic(auto, using(crate::proofs::RawLemmas::next_view))]
pub fn next_raw(env: &Env, raws: &mut Raws) -> Option<Raw>
    requires within { RawsBelow (size (table_of env.now)) raws.old }
    ensures view { MatchOption result (raws_view (types_of env.now) raws.old ≡ []) (λ r. raws_view (types_of env.now) raws.old ≡ raw_view (types_of env.now) r ∷ raws_view (types_of env.now) raws.new) }
    ensures within { RawsBelow (size (table_of env.now)) raws.new }
    ensures raw { IfSome result (RawBelow (size (table_of env.now))) }
{
    let _ = env;
    raws.items.pop()
}
