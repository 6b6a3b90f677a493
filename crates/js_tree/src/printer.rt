//! Scripts to text.

ghost use Rattle.std.specs.Prelude.{◌≡◌, IfOk};
ghost use Rattle.js_tree.specs.View.{script_view};
ghost use Rattle.js_tree.specs.Printed.{preamble, plain};
ghost use Rattle.js_tree.specs.Printable.{IsPrintable};
ghost use Rattle.js_tree.specs.Prints.{Prints};

mod expr;
mod item;
mod level;
mod simple;
mod stmt;
mod text;
mod words;

use crate::tree::Script;
use gj_base::{NoMemory, Sink, SinkError, Text};
use std::alloc::Global;
use thiserror::Error;

/// What stands at the head of each script: the host's functions, by what node has.
pub const PREAMBLE: &[u8] = b"var $fs=require(\"fs\");
function $write(s){var b=Buffer.from(s,\"latin1\"),i=0;while(i<b.length){i+=$fs.writeSync(1,b,i);}}
function $pick(k){return Math.floor(Math.random()*k);}
function $end(c,t){var b=Buffer.from(t,\"latin1\"),i=0;while(i<b.length){i+=$fs.writeSync(2,b,i);}process.exit(c);}
";

/// The bytes of `PREAMBLE`, which are those of the definition.
#[tactic(auto, unfolding(crate::specs::Printed::preamble))]
pub fn preamble() -> &'static [u8]
    ensures { result.now ≡ preamble }
{
    PREAMBLE
}

/// How a script is laid out.
#[derive(Clone, Copy, Debug, PartialEq, Eq)]
pub enum Style {
    /// One statement a line.
    Plain,
}

/// Why a script was not printed.
#[derive(Clone, Copy, Debug, PartialEq, Eq, Error)]
pub enum PrintRefusal {
    /// The sink failed.
    #[error("Failed")]
    Failed,
    /// Memory was refused, here or by the sink.
    #[error("NoMemory")]
    NoMemory,
}

impl From<NoMemory> for PrintRefusal {
    ghost use Rattle.std.specs.Prelude.{◌≡◌};
    ghost use Rattle.js_tree.specs.declared.printer.PrintRefusal.TheVariants as refusal;

    ghost from_gives = { λ _ r. r ≡ refusal.NoMemory };

    fn from(_e: NoMemory) -> PrintRefusal {
        PrintRefusal::NoMemory
    }
}

/// The text of a script, preamble included.
pub fn printed(alloc: Global, script: &Script, style: Style) -> Result<Text, NoMemory>
    requires { IsPrintable (script_view script.now) }
    ensures text { IfOk result (λ t. t ≡ plain (script_view script.now)) }
{
    match style {
        Style::Plain => item::script(alloc, script),
    }
}

/// Writes the text of a script, preamble included.
///
/// What a refusal leaves in the sink is a prefix of the text.
pub fn print<S: Sink>(
    alloc: Global,
    script: &Script,
    style: Style,
    sink: &mut S,
) -> Result<(), PrintRefusal>
    requires { IsPrintable (script_view script.now) }
    ensures printed { Prints result (plain (script_view script.now)) (S.state sink.old) (S.state sink.new) }
{
    let text = printed(alloc, script, style)?;
    match sink.write(text.as_bytes()) {
        Ok(()) => Ok(()),
        Err(SinkError::Failed) => Err(PrintRefusal::Failed),
        Err(SinkError::NoMemory) => Err(PrintRefusal::NoMemory),
    }
}
