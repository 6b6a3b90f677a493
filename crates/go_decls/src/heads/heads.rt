//! The functions of a package, one after the other.

ghost use Rattle.std.specs.Prelude.{◌≡◌, ◌∷◌, ◌++◌, List, OnOk, IfOk, map};
ghost use Rattle.go_type.specs.Tree.{Ty};
ghost use Rattle.go_syntax.specs.Tree as t;
ghost use Rattle.go_syntax.specs.View.{decl_view, file_view, sig_view, block_view};
ghost use Rattle.go_operands.specs.EnvView.{table_of};
ghost use Rattle.go_items.specs.ItemView.{decls_of};
ghost use Rattle.go_walk.specs.WalkView.{walk_outside, Keeps};
ghost use Rattle.go_expr.specs.Raw.{Grows};
ghost use Rattle.go_decls.specs.Heads.{heads_from};
ghost use Rattle.go_decls.specs.HeadView.{head_view, AreReady, HeadsLeft};

use crate::heads::head::{Head, head_of};
use gj_base::{NoMemory, Place};
use go_items::items::item::is_init;
use go_operands::scopes::Env;
use go_syntax::tree::{Block, Decl, DeclForm, File, Name, Sig};
use std::alloc::Global;

// A function `init` is not built yet.
fn and_function<'a>(
    alloc: Global,
    env: &mut Env,
    heads: &mut Vec<Head<'a>>,
    far: Option<Place>,
    at: Place,
    n: &Name,
    sig: &'a Sig,
    b: &'a Block,
) -> Result<(), NoMemory>
    ensures value { OnOk result ((rest : List t.Decl) → HeadsLeft far env.old env.new heads.old.items heads.new.items rest (t.FuncDecl at n.now (sig_view sig.now) (block_view b.now) ∷ rest)) }
{
    if is_init(n) {
        return Ok(());
    }
    let one = head_of(alloc, env, far, at, n, sig, b)?;
    heads.push(one)?;
    Ok(())
}

// Methods are not built yet.
fn and_decl<'a>(
    alloc: Global,
    env: &mut Env,
    heads: &mut Vec<Head<'a>>,
    far: Option<Place>,
    d: &'a Decl,
) -> Result<(), NoMemory>
    ensures value { OnOk result ((rest : List t.Decl) → HeadsLeft far env.old env.new heads.old.items heads.new.items rest (decl_view d.now ∷ rest)) }
{
    match &*d.form {
        DeclForm::Func(receiver, n, sig, b) => match receiver {
            None => {
                and_function(alloc, env, heads, far, d.place, n, sig, b)?;
                Ok(())
            }
            Some(_) => Ok(()),
        },
        DeclForm::Const(_) => Ok(()),
        DeclForm::TypeDecl(_) => Ok(()),
        DeclForm::Var(_) => Ok(()),
    }
}

fn file_heads<'a>(
    alloc: Global,
    env: &mut Env,
    heads: &mut Vec<Head<'a>>,
    far: Option<Place>,
    decls: &'a [Decl],
) -> Result<(), NoMemory>
    ensures value { OnOk result ((rest : List t.Decl) → HeadsLeft far env.old env.new heads.old.items heads.new.items rest (map decl_view decls.now ++ rest)) }
{
    for d in decls {
        and_decl(alloc, env, heads, far, d)?;
    }
    Ok(())
}

/// The functions of these files in order, each before its body, in the scope of their package; `far` is
/// where the first one stands that is one too many.
pub fn heads<'a>(
    alloc: Global,
    env: &mut Env,
    far: Option<Place>,
    files: &'a [File],
) -> Result<Vec<Head<'a>>, NoMemory>
    ensures view { IfOk result (λ hs. (ts : List Ty) → Keeps (table_of env.new) ts → map (head_view ts) hs.items ≡ heads_from far (walk_outside env.old) (decls_of (map file_view files.now))) }
    ensures ready { IfOk result (λ hs. AreReady (table_of env.new) (walk_outside env.old) hs.items) }
    ensures grows { OnOk result (Grows env.old env.new) }
{
    let mut all = Vec::new(alloc);
    for file in files {
        file_heads(alloc, env, &mut all, far, file.decls.as_slice())?;
    }
    Ok(all)
}
