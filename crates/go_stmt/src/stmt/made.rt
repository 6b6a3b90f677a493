//! The program of a package of which nothing is told.
//!
//! Go, "Packages", "Program execution".

ghost use Rattle.std.specs.Prelude.{◌≡◌, List, IfOk, map};
ghost use Rattle.go_type.specs.Levels.{tree_of};
ghost use Rattle.go_type.specs.Table.{places};
ghost use Rattle.go_type.specs.Tree as ty;
ghost use Rattle.go_operands.specs.EnvView.{table_of};
ghost use Rattle.go_syntax.specs.Tree as t;
ghost use Rattle.go_syntax.specs.View.{file_view};
ghost use Rattle.go_items.specs.ItemView.{decls_of};
ghost use Rattle.go_stmt.specs.Checks.{IsProgramOf};
ghost use Rattle.go_stmt.specs.Made.{AreMade, IsFrameOf};

use gj_base::NoMemory;
use go_core::program::{Func, Funcs, Program};
use go_items::hidden::{Rows, gone_funcs, hidden_functions, rows_of, whole};
use go_items::items::count::{count_functions, main_number};
use go_operands::scopes::Env;
use go_syntax::tree::File;
use go_type::types::TypeId;
use std::alloc::Global;

/// What a program has beside its functions and types: the number of its `main`, and its rows.
#[derive(Drop)]
pub struct Frame {
    pub main: u32,
    pub rows: Rows,
}

// The frame of the program of these files.
fn frame_of(alloc: Global, files: &[File], hidden: TypeId) -> Result<Frame, NoMemory>
    ensures value { IfOk result (λ r. IsFrameOf (decls_of (map file_view files.now)) hidden r) }
{
    let main = main_number(files)?;
    let count = count_functions(files)?;
    let rows = rows_of(alloc, hidden, count)?;
    Ok(Frame { main, rows })
}

// The type of strings.
fn text_type(env: &Env) -> TypeId
    ensures value { tree_of (places (table_of env.now)) result ≡ ty.str }
{
    let _table = env.table();
    TypeId(1)
}

// The program of these functions, with the two of the type of run-time panics.
fn with_hidden(
    alloc: Global,
    env: Env,
    next: u64,
    funcs: Vec<Func>,
    hidden: TypeId,
    frame: Frame,
) -> Result<Program, NoMemory>
    ensures value { IfOk result (λ p. (ds : List t.Decl) → AreMade ds env next funcs.items hidden → IsFrameOf ds hidden frame → IsProgramOf ds p) }
{
    let mut funcs = funcs;
    let text = text_type(&env);
    match hidden_functions(alloc, &mut funcs, hidden, text, next) {
        Ok(()) => {
            let Frame { main, rows } = frame;
            Ok(whole(alloc, env.into_table(), funcs, rows, main, hidden))
        }
        Err(error) => {
            gone_funcs(funcs);
            Err(error)
        }
    }
}

/// The program of the files with these functions.
pub fn program_of(
    alloc: Global,
    files: &[File],
    env: Env,
    next: u64,
    funcs: Vec<Func>,
    hidden: TypeId,
) -> Result<Program, NoMemory>
    requires made { AreMade (decls_of (map file_view files.now)) env next funcs.items hidden }
    ensures value { IfOk result (λ p. IsProgramOf (decls_of (map file_view files.now)) p) }
{
    match frame_of(alloc, files, hidden) {
        Ok(frame) => with_hidden(alloc, env, next, funcs, hidden, frame),
        Err(error) => {
            gone_funcs(funcs);
            Err(error)
        }
    }
}

/// Lets a program go.
pub fn gone_program(program: Program) {
    let Program {
        types: _types,
        funcs,
        globals: _globals,
        methods: _methods,
        main: _main,
        packages: _packages,
        hidden: _hidden,
    } = program;
    let Funcs { items } = funcs;
    gone_funcs(items);
}
