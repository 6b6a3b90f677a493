//! From the files of a folder to a script.

ghost use Rattle.gj_compile.specs.Answers.{Compiles};

use crate::front::check_folder;
use crate::refused::Refused;
use crate::script::script_of;
use gj_base::Files;
use js_tree::Script;
use std::alloc::Global;

/// The script of the program whose root is in a folder, or why there is none.
pub fn compile<F: Files>(
    alloc: Global,
    root: &str,
    src: &str,
    files: &mut F,
) -> Result<Script, Refused>
    ensures { Compiles result root.now (F.state files.old) (F.state files.new) }
{
    match check_folder(alloc, root, src, files) {
        Ok(checked) => script_of(alloc, checked),
        Err(refused) => Err(refused),
    }
}
