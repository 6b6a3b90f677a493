//! The check of a package.
//!
//! Go, "Packages", "Program execution".

ghost use Rattle.std.specs.Prelude.{◌≡◌, ◌++◌, List, Option, map, IfOk};
ghost use Rattle.gj_base.specs.declared.place.Place as place;
ghost use Rattle.go_syntax.specs.Tree as t;
ghost use Rattle.go_syntax.specs.View.{file_view};
ghost use Rattle.go_items.specs.ItemView.{decls_of};
ghost use Rattle.go_load.specs.Packages.{paths_view};
ghost use Rattle.go_operands.specs.AnswerView.{flaw_view};
ghost use Rattle.go_typing.specs.Walk as go;
ghost use Rattle.go_typing.specs.Functions.{Between, functions_from};
ghost use Rattle.go_typing.specs.Checked.{count_functions, program_of};
ghost use Rattle.go_decls.specs.Heads.{heads_from, functions_by};
ghost use Rattle.go_core.specs.SoundProgram.{Sound};
ghost use Rattle.go_sound.specs.Grammar.{DeclsOfGrammar};
ghost use Rattle.go_sound.specs.SoundPrograms.{HasMain};
ghost use Rattle.go_stmt.specs.Checks.{root_trees, flaws_before, Checks};
ghost use Rattle.go_stmt.specs.Made.{AreMade, functions_of};

use crate::functions::functions;
use crate::stmt::before::{Before, before_bodies};
use crate::stmt::files::root_files;
use crate::stmt::made::program_of;
use crate::stmt::verdict::judge;
use gj_base::Refusal;
use go_core::program::{Func, Program};
use go_decls::heads::laws;
use go_items::hidden::gone_funcs;
use go_items::items::count::count_functions;
use go_load::Packages;
use go_operands::answers::answer::Flaw;
use go_operands::scopes::Env;
use go_sound::programs::laws::programs;
use go_syntax::tree::File;
use go_type::types::TypeId;
use go_walk::walk::Walk;
use std::alloc::Global;

// The functions of a package with their bodies.
fn after_bodies(
    alloc: Global,
    files: &[File],
    flaws: Vec<Flaw>,
    env: Env,
    next: u64,
    funcs: Vec<Func>,
    hidden: TypeId,
    count: u32,
) -> Result<Program, Refusal>
    requires made { AreMade (decls_of (map file_view files.now)) env next funcs.items hidden }
    requires told { map flaw_view flaws.items ≡ flaws_before (decls_of (map file_view files.now)) ++ (functions_of (decls_of (map file_view files.now))).flaws }
    requires count { count ≡ count_functions (decls_of (map file_view files.now)) }
    ensures answer { Checks result (decls_of (map file_view files.now)) }
{
    match judge(alloc, flaws, count) {
        Ok(()) => match program_of(alloc, files, env, next, funcs, hidden) {
            Ok(program) => Ok(program),
            Err(_) => Err(Refusal::NoMemory),
        },
        Err(refusal) => {
            gone_funcs(funcs);
            Err(refusal)
        }
    }
}

// The functions of a package go by what is known of each before its body.
fn by_heads()
    ensures law { (far : Option place.Place) (w : go.Walk) (ds : List t.Decl) (k : Between) → functions_by w (heads_from far w ds) k ≡ functions_from far w ds k }
{
    laws::functions();
}

// The check of the package of these files.
fn check_files(alloc: Global, files: &[File]) -> Result<Program, Refusal>
    ensures answer { Checks result (decls_of (map file_view files.now)) }
{
    by_heads();
    let count = count_functions(files)?;
    let mut flaws = Vec::new(alloc);
    let before = before_bodies(alloc, &mut flaws, files)?;
    let Before { env, hidden, heads } = before;
    let mut walk = Walk::new(alloc, env);
    match functions(alloc, &mut walk, &mut flaws, heads) {
        Ok(funcs) => {
            let Walk {
                env,
                next,
                next_label: _label,
                vars: _vars,
                declared: _declared,
                used: _used,
                lost: _lost,
            } = walk;
            after_bodies(alloc, files, flaws, env, next, funcs, hidden, count)
        }
        Err(_) => Err(Refusal::NoMemory),
    }
}

/// The program of the root, or the least fault that is told of it.
pub fn check(alloc: Global, packages: &Packages) -> Result<Program, Refusal>
    // What comes of it.
    ensures answer { Checks result (decls_of (root_trees (paths_view packages.now.packages))) }

    // The program has a meaning, where the trees are ones that the grammar gives, and there is a `main`.
    ensures sound { IfOk result (λ p. DeclsOfGrammar (decls_of (root_trees (paths_view packages.now.packages))) → HasMain (decls_of (root_trees (paths_view packages.now.packages))) → Sound (program_of (decls_of (root_trees (paths_view packages.now.packages))))) }
{
    programs();
    check_files(alloc, root_files(&packages.packages))
}
