//! What a declaration's name stands for, where its declaration sets no type.

ghost use Rattle.std.specs.Prelude.{◌≡◌, List};
ghost use Rattle.go_typing.specs.Items as go;
ghost use Rattle.go_typing.specs.Known as known;
ghost use Rattle.go_type.specs.Table.{places, size};
ghost use Rattle.go_operands.specs.EnvView.{table_of, env_of};
ghost use Rattle.go_operands.specs.View.{decl_of};
ghost use Rattle.go_operands.specs.Within.{DeclaredBelow};
ghost use Rattle.go_sound.specs.Rows.{Row, known_by};
ghost use Rattle.go_decls.specs.Before.{is_unknown, SetsNone, Before, Outcome};

use go_items::binds::settle::settle;
use go_operands::scopes::{Declared, Env};
use go_syntax::tree::Name;
use go_walk::sets::NameMap;

fn is_unknown(what: &Declared) -> bool
    ensures value { result ≡ is_unknown what.now }
{
    match what {
        Declared::Unknown => true,
        _ => false,
    }
}

/// What the name of the declaration of a number stands for, which sets no type; whether that is known.
pub fn settle_name<'a>(
    env: &mut Env,
    numbers: &NameMap<'a>,
    n: &'a Name,
    index: usize,
    what: Declared,
) -> bool
    requires { DeclaredBelow (size (table_of env.old)) what }
    ensures value { (i : go.Item) (rs : List Row) → Before rs index i numbers.now (env_of env.old) → go.name_of i ≡ n.now → SetsNone i → decl_of (places (table_of env.old)) what ≡ known.decl_of (known_by rs) i → Outcome result rs index i (env_of env.new) }
{
    if is_unknown(&what) {
        return false;
    }
    settle(env, numbers, n, index, what);
    true
}
