//! What names stand for: ECMA-262 5.1, 8.7.2, 10.3.1 and 12.14.

ghost use Rattle.std.specs.Prelude.{◌≡◌, ◌≤◌, IfSome, IfOk, OnOk, map, option_map, bytes_eq, codes};
ghost use Rattle.js_tree.specs.Value as defined;
ghost use Rattle.js_tree.specs.Evaluate as part;
ghost use Rattle.js_tree.specs.View.{function_view, item_view, stmts_view};
ghost use Rattle.js_value.specs.ValueSeen.{value_of, entries_of};
ghost use Rattle.js_eval.specs.Limited.{Deeper};
ghost use Rattle.js_eval.specs.Seen.{names_of, host_of, flow_of, scope_of, setting_of, world_of, frame_of, DoesIn};
ghost use Rattle.js_eval.specs.Weight.{stmts_weight, items_weight};

use crate::state::{Context, End, Flow, Scope, Stop};
use crate::world::World;
use gj_base::{NoMemory, Text};
use js_tree::{JsFunction, JsItem};
use js_value::value::entries::{self, Entry};
use js_value::value::value::{Str, Value};

/// A function of the host.
#[derive(Clone, Copy, Debug, PartialEq, Eq)]
pub enum Host {
    Write,
    Pick,
    Finish,
}

/// The function of the host with a name.
pub fn host_named(x: &[u8]) -> Option<Host>
    ensures value { option_map host_of result ≡ part.host_named x.now }
{
    if x == b"$write".as_slice() {
        return Some(Host::Write);
    }
    if x == b"$pick".as_slice() {
        return Some(Host::Pick);
    }
    if x == b"$end".as_slice() {
        return Some(Host::Finish);
    }
    None
}

/// Whether a name is one of several.
pub fn holds(x: &[u8], names: &[&Text]) -> bool
    ensures value { result ≡ defined.holds x.now (names_of names.now) }
{
    for name in names {
        if x == name.as_bytes() {
            return true;
        }
    }
    false
}

/// The function of a name.
pub fn find_function<'a>(x: &[u8], items: &'a [JsItem]) -> Option<&'a JsFunction>
    ensures value { option_map (λ f. function_view f.now) result ≡ part.find_function x.now (map item_view items.now) }
    ensures within { IfSome result (λ f. stmts_weight (stmts_view f.now.body) ≤ items_weight (map item_view items.now)) }
{
    for item in items {
        if let JsItem::Function(f) = item {
            if x == f.name.as_bytes() {
                return Some(f);
            }
        }
    }
    None
}

/// Whether a name is that of a top-level variable.
pub fn is_global(x: &[u8], items: &[JsItem]) -> bool
    ensures value { result ≡ part.is_global x.now (map item_view items.now) }
{
    for item in items {
        if let JsItem::Global(y, _, _) = item {
            if x == y.as_bytes() {
                return true;
            }
        }
    }
    false
}

// A value that may be missing.
fn again<'a>(value: &Option<Value<'a>>) -> Result<Option<Value<'a>>, NoMemory>
    ensures value { IfOk result (λ v. option_map value_of v ≡ option_map value_of value.now) }
{
    match value {
        Some(v) => {
            let v = v.again()?;
            Ok(Some(v))
        }
        None => Ok(None),
    }
}

// A function, or a top-level variable that has been set.
fn global_value<'a>(
    context: &Context<'a>,
    world: &World<'a>,
    x: &'a Text,
) -> Result<Option<Value<'a>>, NoMemory>
    ensures value { IfOk result (λ v. (deeper : Deeper) → option_map value_of v ≡ part.global_value (setting_of context.now deeper) x.now (world_of world.now)) }
{
    let name = x.as_bytes();
    if host_named(name).is_some()
        || find_function(name, context.script.items.as_slice()).is_some()
    {
        return Ok(Some(Value::Function(x)));
    }
    entries::lookup(world.globals.as_slice(), name)
}

// Whether a name is that of what was caught.
fn is_catch(x: &[u8]) -> bool
    ensures value { result ≡ bytes_eq x.now (codes "$catch") }
{
    x == b"$catch".as_slice()
}

/// The value under a name, if there is one: 10.3.1, 12.14.
pub fn name_value<'a>(
    context: &Context<'a>,
    scope: &Scope<'_, 'a>,
    locals: &[Entry<'a>],
    world: &World<'a>,
    x: &'a Text,
) -> Result<Option<Value<'a>>, NoMemory>
    ensures value { IfOk result (λ v. (deeper : Deeper) → option_map value_of v ≡ part.name_value (setting_of context.now deeper) (scope_of scope.now) (entries_of locals.now) x.now (world_of world.now)) }
{
    let name = x.as_bytes();
    if is_catch(name) {
        let value = again(&scope.caught)?;
        return Ok(value);
    }
    if holds(name, scope.names) {
        let value = entries::lookup(locals, name)?;
        return Ok(value);
    }
    let value = global_value(context, world, x)?;
    Ok(value)
}

/// Sets a local.
pub fn set_local<'a>(
    locals: &mut Vec<Entry<'a>>,
    x: &'a Text,
    value: Value<'a>,
) -> Result<(), NoMemory>
    ensures value { OnOk result (entries_of locals.new.items ≡ defined.with_entry x.now (value_of value.entry) (entries_of locals.old.items)) }
{
    entries::set(locals, Str::Literal(x), value)
}

/// Sets a local, else a top-level variable: 8.7.2.
pub fn set_name<'a>(
    context: &Context<'a>,
    scope: &Scope<'_, 'a>,
    locals: &mut Vec<Entry<'a>>,
    world: &mut World<'a>,
    at: u32,
    x: &'a Text,
    value: Value<'a>,
) -> Result<Flow<'a>, Stop<'a>>
    ensures value { DoesIn flow_of result locals.new.items world.new (λ deeper. part.set_name (setting_of context.now deeper) (scope_of scope.now) at x.now (value_of value.entry) (frame_of locals.old.items world.old)) }
{
    let name = x.as_bytes();
    if holds(name, scope.names) {
        set_local(locals, x, value)?;
        return Ok(Flow::Onward);
    }
    if is_global(name, context.script.items.as_slice()) {
        set_local(&mut world.globals, x, value)?;
        return Ok(Flow::Onward);
    }
    Err(Stop::Over(End::Stuck(at)))
}
