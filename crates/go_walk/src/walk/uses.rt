//! Uses: each variable whose name occurs in an expression is used there.

ghost use Rattle.std.specs.Prelude.{◌≡◌, ◌∷◌, ◌++◌, [], ◌+◌, List, Some, OnOk, map, if◌then◌else◌};
ghost use Rattle.go_type.specs.Tree.{Ty};
ghost use Rattle.go_syntax.specs.View.{expr_view, exprs_of, stmt_view};
ghost use Rattle.go_operands.specs.EnvView.{env_of};
ghost use Rattle.go_operands.specs.View.{decl_of};
ghost use Rattle.go_typing.specs.Scopes.{visible};
ghost use Rattle.go_typing.specs.Env.{lookup};
ghost use Rattle.go_typing.specs.Uses.{names_in, names_in_stmt};
ghost use Rattle.go_typing.specs.Walk as go;
ghost use Rattle.go_typing.specs.Walk.{declared_place, places_of, count_untyped, with_lost, with_uses, uses, uses_all};
ghost use Rattle.go_walk.specs.Texts.{texts};
ghost use Rattle.go_walk.specs.WalkView.{walk_of};

use crate::uses::names::{in_expr, in_exprs, in_stmt};
use crate::walk::walk::Walk;
use gj_base::{NoMemory, Place, Text};
use go_operands::scopes::{Declared, Env};
use go_syntax::tree::{Expr, Stmt};

fn and_place(used: &mut Vec<Place>, place: Place) -> Result<(), NoMemory>
    ensures value { OnOk result (used.new.items ≡ used.old.items ++ place ∷ []) }
{
    used.push(place)?;
    Ok(())
}

// A name, by where its innermost declaration stands.
fn use_name(env: &Env, used: &mut Vec<Place>, x: &Text) -> Result<(), NoMemory>
    ensures value { OnOk result (used.new.items ≡ used.old.items ++ declared_place x.now (visible (env_of env.now))) }
{
    match env.origin(x.as_bytes()) {
        Some(place) => and_place(used, place),
        None => Ok(()),
    }
}

fn use_names(env: &Env, used: &mut Vec<Place>, names: &[&Text]) -> Result<(), NoMemory>
    ensures value { OnOk result (used.new.items ≡ used.old.items ++ places_of (texts names.now) (visible (env_of env.now))) }
{
    for x in names {
        use_name(env, used, *x)?;
    }
    Ok(())
}

// Whether a declaration isn't typed.
fn is_untyped(what: &Declared) -> bool
    ensures value { (ts : List Ty) → result ≡ go.is_untyped (Some (decl_of ts what.now)) }
{
    match what {
        Declared::Var(_, _) => false,
        Declared::Global(_, _) => false,
        Declared::Const(_, _) => false,
        Declared::TypeName(_) => false,
        Declared::Func(_, _) => false,
        Declared::Import(_) => false,
        Declared::Builtin(_) => false,
        Declared::Nil => false,
        Declared::Refused(_) => false,
        Declared::Unknown => true,
    }
}

// Whether a name's declaration isn't typed.
fn names_untyped(env: &Env, x: &Text) -> bool
    ensures value { result ≡ go.is_untyped (lookup x.now (visible (env_of env.now))) }
{
    match env.lookup(x.as_bytes()) {
        Some(what) => is_untyped(what),
        None => false,
    }
}

fn count_name(env: &Env, lost: &mut u64, x: &Text) -> Result<(), NoMemory>
    ensures value { OnOk result (lost.new ≡ lost.old + (if go.is_untyped (lookup x.now (visible (env_of env.now))) then 1 else 0)) }
{
    if names_untyped(env, x) {
        let Some(more) = lost.checked_add(1) else {
            return Err(NoMemory);
        };
        *lost = more;
        return Ok(());
    }
    Ok(())
}

fn count_names(env: &Env, lost: &mut u64, names: &[&Text]) -> Result<(), NoMemory>
    ensures value { OnOk result (lost.new ≡ lost.old + count_untyped (texts names.now) (visible (env_of env.now))) }
{
    for x in names {
        count_name(env, lost, *x)?;
    }
    Ok(())
}

// Names that are used.
fn use_all(walk: &mut Walk, names: &[&Text]) -> Result<(), NoMemory>
    ensures value { OnOk result ((ts : List Ty) → walk_of ts walk.new ≡ with_uses (texts names.now) (walk_of ts walk.old)) }
    ensures env { walk.new.env ≡ walk.old.env }
    ensures next { (walk.new.next ≡ walk.old.next) × (walk.new.next_label ≡ walk.old.next_label) }
{
    use_names(&walk.env, &mut walk.used, names)?;
    count_names(&walk.env, &mut walk.lost, names)
}

/// The variables that an expression or a type uses.
pub fn use_expr(walk: &mut Walk, e: &Expr) -> Result<(), NoMemory>
    ensures value { OnOk result ((ts : List Ty) → walk_of ts walk.new ≡ uses (expr_view e.now) (walk_of ts walk.old)) }
    ensures env { walk.new.env ≡ walk.old.env }
    ensures next { (walk.new.next ≡ walk.old.next) × (walk.new.next_label ≡ walk.old.next_label) }
{
    let mut names = Vec::new(*walk.used.allocator());
    in_expr(&mut names, e)?;
    use_all(walk, names.as_slice())
}

/// The variables that expressions use.
pub fn use_exprs(walk: &mut Walk, es: &[Expr]) -> Result<(), NoMemory>
    ensures value { OnOk result ((ts : List Ty) → walk_of ts walk.new ≡ uses_all (exprs_of (map expr_view es.now)) (walk_of ts walk.old)) }
    ensures env { walk.new.env ≡ walk.old.env }
    ensures next { (walk.new.next ≡ walk.old.next) × (walk.new.next_label ≡ walk.old.next_label) }
{
    let mut names = Vec::new(*walk.used.allocator());
    in_exprs(&mut names, es)?;
    use_all(walk, names.as_slice())
}

/// The variables that a statement uses that isn't built yet.
pub fn use_stmt(walk: &mut Walk, s: &Stmt) -> Result<(), NoMemory>
    ensures value { OnOk result ((ts : List Ty) → walk_of ts walk.new ≡ with_uses (names_in_stmt (stmt_view s.now)) (walk_of ts walk.old)) }
    ensures env { walk.new.env ≡ walk.old.env }
    ensures next { (walk.new.next ≡ walk.old.next) × (walk.new.next_label ≡ walk.old.next_label) }
{
    let mut names = Vec::new(*walk.used.allocator());
    in_stmt(&mut names, s)?;
    use_all(walk, names.as_slice())
}

/// An expression of which no name is used: whether their declarations are typed counts.
pub fn lose_expr(walk: &mut Walk, e: &Expr) -> Result<(), NoMemory>
    ensures value { OnOk result ((ts : List Ty) → walk_of ts walk.new ≡ with_lost (names_in (expr_view e.now)) (walk_of ts walk.old)) }
    ensures env { walk.new.env ≡ walk.old.env }
    ensures next { (walk.new.next ≡ walk.old.next) × (walk.new.next_label ≡ walk.old.next_label) }
{
    let mut names = Vec::new(*walk.used.allocator());
    in_expr(&mut names, e)?;
    count_names(&walk.env, &mut walk.lost, names.as_slice())
}
