//! What stands at a script's top: ECMA-262 5.1, 13 and 14, cut to the subset.

ghost use Rattle.std.specs.Prelude.{◌≡◌, ◌<◌, ◌≤◌, length, IfOk, [], map, MatchResult, ◌++◌, ◌∷◌, ◌||◌, Ok, codes};
ghost use Rattle.js_tree.specs.View.{item_view, script_view};
ghost use Rattle.js_grammar.specs.Tokens.{places, is_first};
ghost use Rattle.js_tree.specs.Scripts.{word};
ghost use Rattle.js_grammar.specs.Goals as goal;
ghost use Rattle.js_grammar.specs.Reads.{Reads, seen};
ghost use Rattle.js_read.specs.Unread.{Treeless, at_start};
ghost use Rattle.js_nodes.specs.Views.{items_read, item_read, script_read, names_read};

use crate::effect::declaration;
use crate::stmt::{all, block};
use gj_base::Text;
use js_grammar::{ReadRefusal, Token, laws, syntax};
use js_nodes::nodes::literal::{take_name, take_own_name};
use js_nodes::nodes::look::{is_sign, is_word, place, take_sign, take_word};
use js_nodes::stmt_nodes::node_item as node;
use js_tree::{JsFunction, JsItem, Script};
use std::alloc::Global;

/// A whole script, but for its preamble, and the tokens after it.
pub fn script<'a>(
    alloc: Global,
    ts: &'a [Token<'a>],
) -> Result<(Script, &'a [Token<'a>]), ReadRefusal>
    ensures read { Reads goal.whole (places ts.now) (seen script_read result) }
{
    let (items, rest) = items(alloc, ts)?;
    let start_at = place(rest);
    let (start, rest) = take_name(alloc, rest, 0)?;
    let rest = take_sign(rest, 0, b"(")?;
    let rest = take_sign(rest, 0, b")")?;
    let rest = take_sign(rest, 0, b";")?;
    Ok((
        Script {
            items,
            start,
            start_at,
        },
        rest,
    ))
}

/// Whether a function or a variable comes first.
fn begins_item(ts: &[Token]) -> bool
    ensures { result ≡ (is_first (word (codes "function")) (places ts.now) || is_first (word (codes "var")) (places ts.now)) }
{
    is_word(ts, b"function") || is_word(ts, b"var")
}

/// Functions and variables.
fn items<'a>(
    alloc: Global,
    ts: &'a [Token<'a>],
) -> Result<(Vec<JsItem>, &'a [Token<'a>]), ReadRefusal>
    ensures read { Reads (goal.items []) (places ts.now) (seen items_read result) }
{
    let mut items = Vec::new(alloc);
    let mut rest = ts;
    'each: while begins_item(rest) {
        let (item, after) = item(alloc, rest)?;
        node::add(&mut items, item)?;
        rest = all(after);
    }
    Ok((items, rest))
}

fn item<'a>(alloc: Global, ts: &'a [Token<'a>]) -> Result<(JsItem, &'a [Token<'a>]), ReadRefusal>
    ensures read { Reads goal.item (places ts.now) (seen item_read result) }
    ensures shorter { IfOk result (λ p. length p.1.now < length ts.now) }
{
    let at = place(ts);
    if is_word(ts, b"var") {
        let (x, e, rest) = declaration(alloc, ts, 0)?;
        return Ok((JsItem::Global(x, e, at), rest));
    }
    let rest = take_word(ts, 0, b"function")?;
    let (name, rest) = take_own_name(alloc, rest, 0)?;
    let rest = take_sign(rest, 0, b"(")?;
    let (params, rest) = parameters(alloc, rest)?;
    let rest = take_sign(rest, 0, b")")?;
    let (body, rest) = block(alloc, rest, 0)?;
    Ok((
        JsItem::Function(JsFunction {
            name,
            params,
            body,
            at,
        }),
        rest,
    ))
}

/// Names with commas between.
fn parameters<'a>(
    alloc: Global,
    ts: &'a [Token<'a>],
) -> Result<(Vec<Text>, &'a [Token<'a>]), ReadRefusal>
    ensures read { Reads goal.parameters (places ts.now) (seen names_read result) }
    ensures shorter { IfOk result (λ p. length p.1.now ≤ length ts.now) }
{
    let mut names = Vec::new(alloc);
    if is_sign(ts, b")") {
        return Ok((names, ts));
    }
    let (x, after) = take_own_name(alloc, ts, 1)?;
    node::add_name(&mut names, x)?;
    let mut rest = after;
    'commas: while is_sign(rest, b",") {
        let after = take_sign(rest, 1, b",")?;
        let (x, after) = take_own_name(alloc, after, 1)?;
        node::add_name(&mut names, x)?;
        rest = after;
    }
    Ok((names, rest))
}

/// A whole script, but for its preamble, that all tokens are.
pub fn whole(alloc: Global, ts: &[Token]) -> Result<Script, ReadRefusal>
    ensures { MatchResult result (λ s. Reads goal.whole (places ts.now) (Ok (script_view s, []))) (λ e. Treeless (places ts.now) e) }
{
    laws::reads_once();
    match script(alloc, ts) {
        Ok((s, rest)) => {
            if rest.len() > 0 {
                return Err(syntax());
            }
            Ok(s)
        }
        Err(e) => Err(plain(e)),
    }
}

/// The same refusal, at offset 0.
fn plain(e: ReadRefusal) -> ReadRefusal
    ensures { result ≡ at_start e }
{
    match e {
        ReadRefusal::Syntax(_) => syntax(),
        ReadRefusal::NoMemory => ReadRefusal::NoMemory,
    }
}
