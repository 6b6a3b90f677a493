//! Expressions as answers, for what is around them.

ghost use Rattle.std.specs.Prelude.{◌≡◌, ◌≤◌, ◌++◌, map, OnOk, IfOk};
ghost use Rattle.go_type.specs.Table.{size, name_count, KeepsTrees};
ghost use Rattle.go_syntax.specs.View.{expr_view};
ghost use Rattle.go_typing.specs.Typing as go;
ghost use Rattle.go_operands.specs.EnvView.{table_of, env_of, KeepsLiterals};
ghost use Rattle.go_operands.specs.AnswerView.{answer_view, flaw_view};
ghost use Rattle.go_operands.specs.Below.{AnswerBelow};
ghost use Rattle.go_typing.specs.Typing.{place_of};
ghost use Rattle.go_operands.specs.Parts.{part, part_view, PartBelow};
ghost use Rattle.go_calls.specs.Words.{types_of, names_of, scopes_of};
ghost use Rattle.go_calls.specs.ResultTypes.{AreRight};
ghost use Rattle.go_expr.specs.Ready.{NumbersFit, IsReady};

use crate::expr::typing::typing;
use crate::parts::stack::take;
use gj_base::NoMemory;
use go_calls::callee::gives::{Gives, gives_of};
use go_calls::given::gone::gone_parts;
use go_operands::answers::answer::{Answer, Flaw};
use go_operands::operands::part::Part;
use go_operands::scopes::Env;
use go_syntax::tree::Expr;
use std::alloc::Global;

fn walked(
    alloc: Global,
    env: &Env,
    gives: &Gives,
    e: &Expr,
    flaws: &mut Vec<Flaw>,
) -> Result<Part, NoMemory>
    requires right { AreRight (scopes_of env.now) (table_of env.now) gives.now }
    requires ready { IsReady (scopes_of env.now) gives.now (expr_view e.now) }
    ensures view { IfOk result (λ p. part_view (types_of env.now) p ≡ part (place_of (expr_view e.now)) (go.typing (names_of env.now) (scopes_of env.now) (expr_view e.now))) }
    ensures told { OnOk result (map flaw_view flaws.new.items ≡ map flaw_view flaws.old.items ++ go.flaws (names_of env.now) (scopes_of env.now) (expr_view e.now)) }
    ensures within { IfOk result (λ p. PartBelow (size (table_of env.now)) p) }
{
    let mut parts = Vec::new(alloc);
    match typing(alloc, env, gives, e, &mut parts, flaws) {
        Ok(()) => {
            let part = take(env, &mut parts);
            gone_parts(parts);
            Ok(part)
        }
        Err(error) => {
            gone_parts(parts);
            Err(error)
        }
    }
}

/// An expression as a part, with its place: what `answer_in` gives.
pub fn part_in(
    alloc: Global,
    env: &mut Env,
    e: &Expr,
    flaws: &mut Vec<Flaw>,
) -> Result<Part, NoMemory>
    // Own: the lexical stage has refused greater numbers.
    requires numbers { NumbersFit (expr_view e.now) }
    ensures view { IfOk result (λ p. part_view (types_of env.new) p ≡ part (place_of (expr_view e.now)) (go.typing (names_of env.new) (scopes_of env.new) (expr_view e.now))) }
    ensures told { OnOk result (map flaw_view flaws.new.items ≡ map flaw_view flaws.old.items ++ go.flaws (names_of env.new) (scopes_of env.new) (expr_view e.now)) }
    ensures within { IfOk result (λ p. PartBelow (size (table_of env.new)) p) }

    // What is declared stays, and each type keeps its id.
    ensures env { env_of env.new ≡ env_of env.old }
    ensures kept { KeepsTrees (table_of env.old) (table_of env.new) }
    ensures counts { (size (table_of env.old) ≤ size (table_of env.new)) × (name_count (table_of env.new) ≡ name_count (table_of env.old)) }
    ensures literals { KeepsLiterals env.old env.new }
{
    let gives = gives_of(alloc, env, e)?;
    walked(alloc, env, &gives, e, flaws)
}

/// What an expression is, by the types, names and scopes of the environment. The faults in it are told,
/// parts before what they are parts of; where the expression itself is faulty its own are in the answer
/// too. Where memory runs out the table may have more types, and keeps those that it had.
///
/// Go, "Expressions".
pub fn answer_in(
    alloc: Global,
    env: &mut Env,
    e: &Expr,
    flaws: &mut Vec<Flaw>,
) -> Result<Answer, NoMemory>
    // Own: the lexical stage has refused greater numbers.
    requires numbers { NumbersFit (expr_view e.now) }
    ensures view { IfOk result (λ a. answer_view (types_of env.new) a ≡ go.typing (names_of env.new) (scopes_of env.new) (expr_view e.now)) }
    ensures told { OnOk result (map flaw_view flaws.new.items ≡ map flaw_view flaws.old.items ++ go.flaws (names_of env.new) (scopes_of env.new) (expr_view e.now)) }
    ensures within { IfOk result (λ a. AnswerBelow (size (table_of env.new)) a) }

    // What is declared stays, and each type keeps its id.
    ensures env { env_of env.new ≡ env_of env.old }
    ensures kept { KeepsTrees (table_of env.old) (table_of env.new) }
    ensures counts { (size (table_of env.old) ≤ size (table_of env.new)) × (name_count (table_of env.new) ≡ name_count (table_of env.old)) }
    ensures literals { KeepsLiterals env.old env.new }
{
    match part_in(alloc, env, e, flaws) {
        Ok(part) => {
            let Part {
                place: _place,
                answer,
            } = part;
            Ok(answer)
        }
        Err(error) => Err(error),
    }
}
