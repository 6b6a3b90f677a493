//! The script reader.
//!
//! Tokens are made first; a descent reads them, with a loop for each chain of
//! operators, parts, statements and cases.
#![tactic(auto)]

ghost use Rattle.std.specs.Prelude.{◌<◌, ◌-◌, ◌^◌, length, MatchResult, IfOk};
ghost use Rattle.js_tree.specs.Scripts.{IsScript};
ghost use Rattle.js_tree.specs.View.{script_view};
ghost use Rattle.js_read.specs.Unread.{Unread};
ghost use Rattle.js_read.specs.Back.{HasNoOtherTree, GivesBack};

mod effect;
mod item;
mod stmt;

use item::whole;
pub use js_grammar::ReadRefusal;
use js_grammar::lexer::{begins, tokens};
use js_grammar::{laws, syntax};
use js_tree::{Script, preamble};
use std::alloc::Global;

/// The script that the bytes are, by the grammar of the subset and after the preamble, with the
/// offset of each part: ECMA-262 5.1, 7 and 11 to 14. No part of it is nested deeper than 1000.
///
/// `Syntax(0)` says that the bytes are no script. Nothing is kept after an error.
pub fn read(alloc: Global, bytes: &[u8]) -> Result<Script, ReadRefusal>
    requires { length bytes.now < 2 ^ 32 - 1 }
    ensures tree { MatchResult result (λ s. IsScript bytes.now (script_view s)) (λ e. Unread bytes.now e) }
    ensures one { IfOk result (λ s. HasNoOtherTree bytes.now (script_view s)) }

    // What was printed to these bytes is read back, places aside.
    ensures back { GivesBack bytes.now result }
{
    laws::one_script();
    laws::reads_back();
    read_script(alloc, bytes)
}

fn read_script(alloc: Global, bytes: &[u8]) -> Result<Script, ReadRefusal>
    requires { length bytes.now < 2 ^ 32 - 1 }
    ensures { MatchResult result (λ s. IsScript bytes.now (script_view s)) (λ e. Unread bytes.now e) }
{
    laws::reads_scripts();
    laws::one_list();
    let front = preamble();
    if !begins(bytes, front) {
        return Err(syntax());
    }
    let tokens = tokens(alloc, bytes, front.len())?;
    whole(alloc, tokens.as_slice())
}
