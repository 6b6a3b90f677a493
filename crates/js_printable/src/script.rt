//! Whole scripts.

ghost use Rattle.std.specs.Prelude.{◌≡◌, map, true};
ghost use Rattle.std.specs.List.{list_all};
ghost use Rattle.js_tree.specs.View.{item_view, script_view};
ghost use Rattle.js_tree.specs.Printable.{item_fits, IsPrintable};

use crate::expr::expr;
use crate::name::{are_own_names, is_name, is_own_name};
use crate::stmt::stmts;
use js_tree::{JsItem, Script};

/// Whether an item has a text.
fn item(x: &JsItem) -> bool
    ensures fits { result ≡ true → item_fits (item_view x.now) ≡ true }
{
    match x {
        JsItem::Function(f) => {
            is_own_name(&f.name) && are_own_names(f.params.as_slice()) && stmts(1, &f.body)
        }
        JsItem::Global(x, e, _) => is_own_name(x) && expr(0, e),
    }
}

fn items(list: &[JsItem]) -> bool
    ensures fits { result ≡ true → list_all item_fits (map item_view list.now) ≡ true }
{
    for x in list {
        if !item(x) {
            return false;
        }
    }
    true
}

/// Whether a script has a text, so that it can be printed.
///
/// True is told of no other script. A script with a chain of a thousand operators or parts is refused,
/// even where its tokens are nested less deep.
pub fn is_printable(script: &Script) -> bool
    ensures printable { result ≡ true → IsPrintable (script_view script.now) }
{
    items(script.items.as_slice()) && is_name(&script.start)
}
