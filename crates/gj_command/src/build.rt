//! The command `build`: from a folder to a stored script.

ghost use Rattle.std.specs.Prelude.{◌≡◌, List, ℕ, IfOk};
ghost use Rattle.js_tree.specs.Printable.{IsPrintable};
ghost use Rattle.js_tree.specs.View.{script_view};
ghost use Rattle.gj_command.specs.Headline.{BuildAnswers, IsTextOf};
ghost use Rattle.gj_command.specs.Stored.{StoresAs};
ghost use Rattle.gj_command.specs.Told.{Told};

use crate::outcome::Outcome;
use crate::refusal::{out_of_memory, refuse, write_failed};
use crate::small::small;
use gj_base::{Files, NoMemory, Sink, StoreError, Text};
use gj_compile::compile;
use js_tree::{Script, Style, printed};
use std::alloc::Global;

/// Where the script is stored.
pub const OUT_FILE: &str = "out.js";

/// The folder under which import paths are looked up.
pub const SOURCE_FOLDER: &str = "src";

/// Compiles the package in a folder, and stores its script.
pub fn build<F: Files, E: Sink>(
    alloc: Global,
    folder: &str,
    out_file: &str,
    src: &str,
    is_small: bool,
    files: &mut F,
    err: &mut E,
) -> Outcome
    ensures { (line : List ℕ) × BuildAnswers result line folder.now out_file.now is_small (F.state files.old) (F.state files.new) × Told line (E.state err.old) (E.state err.new) }
{
    match compile(alloc, folder, src, files) {
        Ok(script) => store(alloc, script, out_file, is_small, files, err),
        Err(refused) => refuse(alloc, refused, err),
    }
}

/// Stores the text of a script.
fn store<F: Files, E: Sink>(
    alloc: Global,
    script: Script,
    out_file: &str,
    is_small: bool,
    files: &mut F,
    err: &mut E,
) -> Outcome
    requires { IsPrintable (script_view script) }
    ensures { (line : List ℕ) × StoresAs result line (script_view script) out_file.now is_small (F.state files.old) (F.state files.new) × Told line (E.state err.old) (E.state err.new) }
{
    let Ok(text) = text_of(alloc, script, is_small) else {
        return out_of_memory(err);
    };
    match files.store(out_file, text.as_bytes()) {
        Ok(()) => Outcome::Done,
        Err(StoreError::Failed) => write_failed(err),
        Err(StoreError::NoMemory) => out_of_memory(err),
    }
}

/// The text of a script.
fn text_of(alloc: Global, script: Script, is_small: bool) -> Result<Text, NoMemory>
    requires { IsPrintable (script_view script) }
    ensures { IfOk result (λ text. IsTextOf is_small (script_view script) text) }
{
    let text = printed(alloc, &script, Style::Plain)?;
    if is_small {
        return small(alloc, text.as_bytes());
    }
    Ok(text)
}
