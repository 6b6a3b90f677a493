//! In which order declarations can be typed, and which ones need themselves.

ghost use Rattle.std.specs.Prelude.{◌≡◌, IfOk, IsPermutation, length, map};
ghost use Rattle.std.specs.List.{range_with_len};
ghost use Rattle.go_operands.specs.EnvView.{env_of};
ghost use Rattle.go_typing.specs.Scopes.{visible};
ghost use Rattle.go_items.specs.ItemView.{item_view};
ghost use Rattle.go_items.specs.Leads.{Tells, IsInOrder};

use crate::items::item::Item;
use crate::needs::graph::graph_of;
use gj_base::NoMemory;
use go_graph::{Lasting, lasting_in};
use go_operands::scopes::Env;
use std::alloc::Global;

/// Which declarations can't be found without themselves, by their numbers; and the numbers in an order
/// in which each other one comes after those that it needs.
pub fn order_of<'a>(alloc: Global, env: &Env, items: &[Item<'a>]) -> Result<Lasting, NoMemory>
    ensures tells { IfOk result (λ r. Tells (visible (env_of env.now)) (map item_view items.now) r.is_lasting.items) }
    ensures each { IfOk result (λ r. IsPermutation (range_with_len 0 (length items.now)) r.nodes.items) }
    ensures order { IfOk result (λ r. IsInOrder (visible (env_of env.now)) (map item_view items.now) r.is_lasting.items r.nodes.items) }
{
    let edges = graph_of(alloc, env, items)?;
    lasting_in(alloc, edges.as_slice())
}
