//! What is known of a package before the bodies of its functions, and all that is told up to there.
//!
//! Go, "Declarations and scope", "Run-time panics", "Function declarations".

ghost use Rattle.std.specs.Prelude.{◌≡◌, ◌<◌, ◌++◌, List, IfOk, OnOk, map};
ghost use Rattle.go_type.specs.Levels.{tree_of};
ghost use Rattle.go_type.specs.Table.{places, size, name_count};
ghost use Rattle.go_type.specs.Tree.{Ty};
ghost use Rattle.go_syntax.specs.View.{file_view};
ghost use Rattle.go_operands.specs.EnvView.{table_of, env_of};
ghost use Rattle.go_operands.specs.AnswerView.{flaw_view};
ghost use Rattle.go_items.specs.ItemView.{decls_of};
ghost use Rattle.go_typing.specs.Checked.{known_in, first_too_far};
ghost use Rattle.go_typing.specs.Known.{hidden, outside};
ghost use Rattle.go_typing.specs.Told.{decls_told};
ghost use Rattle.go_items.specs.Stands.{Stands};
ghost use Rattle.go_walk.specs.WalkView.{Keeps};
ghost use Rattle.go_expr.specs.Raw.{Grows};
ghost use Rattle.go_decls.specs.Heads.{heads_from};
ghost use Rattle.go_decls.specs.HeadView.{head_view, AreReady};
ghost use Rattle.go_stmt.specs.Checks.{names_flaws, flaws_before};

use gj_base::NoMemory;
use go_decls::decls::decls_told;
use go_decls::heads::Head;
use go_decls::heads::heads::heads;
use go_decls::known::known;
use go_decls::told::names_told;
use go_items::first::{First, first_env};
use go_items::items::count::first_too_far;
use go_items::items::items::items_of;
use go_operands::answers::answer::Flaw;
use go_operands::scopes::Env;
use go_syntax::tree::File;
use go_type::types::{GoType, NamedId, TypeId};
use std::alloc::Global;

/// A package before the bodies of its functions: what is known of it, the type of run-time panics, and
/// its functions.
#[derive(Drop)]
pub struct Before<'a> {
    pub env: Env,
    pub hidden: TypeId,
    pub heads: Vec<Head<'a>>,
}

// The names of the package, and what they stand for.
fn named(alloc: Global, flaws: &mut Vec<Flaw>, files: &[File]) -> Result<Env, NoMemory>
    ensures stands { IfOk result (λ e. Stands (known_in (decls_of (map file_view files.now))) (env_of e)) }
    ensures told { OnOk result (map flaw_view flaws.new.items ≡ map flaw_view flaws.old.items ++ names_flaws (decls_of (map file_view files.now))) }
{
    let items = items_of(alloc, files)?;
    let first = first_env(alloc)?;
    let First {
        mut env,
        hidden: _hidden,
    } = first;
    names_told(alloc, flaws, items.as_slice())?;
    known(alloc, &mut env, flaws, items.as_slice())?;
    Ok(env)
}

// The type of run-time panics, which stands before those of the package.
fn hidden_type(env: &mut Env) -> Result<TypeId, NoMemory>
    requires { 1 < name_count (table_of env.old) }
    ensures tree { IfOk result (λ id. tree_of (places (table_of env.new)) id ≡ hidden) }
    ensures within { IfOk result (λ id. id.0 < size (table_of env.new)) }
    ensures grows { Grows env.old env.new }
{
    env.add(GoType::Named(NamedId(1)))
}

// What is told outside of bodies, and the functions before theirs.
fn outside_bodies<'a>(
    alloc: Global,
    env: &mut Env,
    flaws: &mut Vec<Flaw>,
    files: &'a [File],
) -> Result<Vec<Head<'a>>, NoMemory>
    requires stands { Stands (known_in (decls_of (map file_view files.now))) (env_of env.old) }
    ensures stands { OnOk result (Stands (known_in (decls_of (map file_view files.now))) (env_of env.new)) }
    ensures told { OnOk result (map flaw_view flaws.new.items ≡ map flaw_view flaws.old.items ++ decls_told (outside (known_in (decls_of (map file_view files.now)))) (decls_of (map file_view files.now))) }
    ensures view { IfOk result (λ hs. (ts : List Ty) → Keeps (table_of env.new) ts → map (head_view ts) hs.items ≡ heads_from (first_too_far (decls_of (map file_view files.now))) (outside (known_in (decls_of (map file_view files.now)))) (decls_of (map file_view files.now))) }
    ensures ready { IfOk result (λ hs. AreReady (table_of env.new) (outside (known_in (decls_of (map file_view files.now)))) hs.items) }
    ensures grows { OnOk result (Grows env.old env.new) }
{
    decls_told(alloc, env, flaws, files)?;
    let far = first_too_far(files);
    let all = heads(alloc, env, far, files)?;
    Ok(all)
}

/// A package before the bodies of its functions.
pub fn before_bodies<'a>(
    alloc: Global,
    flaws: &mut Vec<Flaw>,
    files: &'a [File],
) -> Result<Before<'a>, NoMemory>
    ensures stands { IfOk result (λ b. Stands (known_in (decls_of (map file_view files.now))) (env_of b.env)) }
    ensures hidden { IfOk result (λ b. tree_of (places (table_of b.env)) b.hidden ≡ hidden) }
    ensures within { IfOk result (λ b. b.hidden.0 < size (table_of b.env)) }
    ensures view { IfOk result (λ b. (ts : List Ty) → Keeps (table_of b.env) ts → map (head_view ts) b.heads.items ≡ heads_from (first_too_far (decls_of (map file_view files.now))) (outside (known_in (decls_of (map file_view files.now)))) (decls_of (map file_view files.now))) }
    ensures ready { IfOk result (λ b. AreReady (table_of b.env) (outside (known_in (decls_of (map file_view files.now)))) b.heads.items) }
    ensures told { OnOk result (map flaw_view flaws.new.items ≡ map flaw_view flaws.old.items ++ flaws_before (decls_of (map file_view files.now))) }
{
    let mut env = named(alloc, flaws, files)?;
    let hidden = hidden_type(&mut env)?;
    let heads = outside_bodies(alloc, &mut env, flaws, files)?;
    Ok(Before { env, hidden, heads })
}
