//! The functions of a program that may wait.

ghost use Rattle.gj_compile.specs.Answers.{Asks};

use crate::front::check_folder;
use crate::refused::Refused;
use gj_base::{Files, NoMemory, Text};
use go_core::program::Program;
use go_marks::marks;
use go_stmt::gone_program;
use std::alloc::Global;

/// The names of those functions of the program in a folder that may wait, generated ones aside.
pub fn blocking_names<F: Files>(
    alloc: Global,
    root: &str,
    src: &str,
    files: &mut F,
) -> Result<Vec<Text>, Refused>
    ensures { Asks result root.now (F.state files.old) (F.state files.new) }
{
    match check_folder(alloc, root, src, files) {
        Ok(checked) => {
            let names = marked_names(alloc, &checked.program);
            gone_program(checked.program);
            match names {
                Ok(names) => Ok(names),
                Err(_) => Err(Refused::NoMemory),
            }
        }
        Err(refused) => Err(refused),
    }
}

fn marked_names(alloc: Global, program: &Program) -> Result<Vec<Text>, NoMemory> {
    let marked = marks(alloc, program)?;
    let mut names = Vec::new(alloc);
    for id in &marked.items {
        if let Some(func) = program.funcs.items.as_slice().get(id.0 as usize) {
            if !func.name.as_bytes().is_empty() {
                names.push(func.name.clone()?)?;
            }
        }
    }
    Ok(names)
}
