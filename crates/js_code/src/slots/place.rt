//! Where what a name stands for is kept: ECMA-262 5.1, 8.7.2, 10.3.1 and 12.14.

ghost use Rattle.std.specs.Prelude.{◌≡◌, option_map, bytes_eq, codes};
ghost use Rattle.js_tree.specs.Evaluate as part;
ghost use Rattle.js_code.specs.Places.{host_of, table, global_place, top_place, place_of, target_of};

use crate::slots::names::Names;
use gj_base::Text;

/// A function of the host.
#[derive(Clone, Copy, Debug, PartialEq, Eq)]
pub enum Host {
    /// `$write`
    Write,
    /// `$pick`
    Pick,
    /// `$end`
    Finish,
}

/// Where what a name stands for is kept.
#[derive(Clone, Copy, Debug, PartialEq, Eq)]
pub enum Place {
    /// What the innermost `catch` caught.
    Caught,
    /// A slot of the function's call.
    Local(usize),
    /// A function of the host.
    Host(Host),
    /// A function, by its number in the script.
    Function(usize),
    /// A slot of the top-level variables.
    Global(usize),
    /// No variable and no function has the name.
    Nowhere,
}

/// The names of a script, and those of the locals of one of its functions.
#[derive(Clone, Copy)]
pub struct Scope<'t, 'a> {
    pub functions: &'t Names<'a>,
    pub globals: &'t Names<'a>,
    pub locals: &'t Names<'a>,
}

/// The function of the host with a name.
pub fn host_named(x: &Text) -> Option<Host>
    ensures value { option_map host_of result ≡ part.host_named x.now }
{
    let name = x.as_bytes();
    if name == b"$write".as_slice() {
        return Some(Host::Write);
    }
    if name == b"$pick".as_slice() {
        return Some(Host::Pick);
    }
    if name == b"$end".as_slice() {
        return Some(Host::Finish);
    }
    None
}

fn is_catch(x: &Text) -> bool
    ensures value { result ≡ bytes_eq x.now (codes "$catch") }
{
    x.as_bytes() == b"$catch".as_slice()
}

fn global_place<'t, 'a>(scope: Scope<'t, 'a>, x: &'a Text) -> Place
    ensures value { result ≡ global_place (table scope.entry) x.now }
{
    match scope.globals.slot(x) {
        Some(slot) => Place::Global(slot),
        None => Place::Nowhere,
    }
}

fn top_place<'t, 'a>(scope: Scope<'t, 'a>, x: &'a Text) -> Place
    ensures value { result ≡ top_place (table scope.entry) x.now }
{
    if let Some(host) = host_named(x) {
        return Place::Host(host);
    }
    match scope.functions.slot(x) {
        Some(number) => Place::Function(number),
        None => global_place(scope, x),
    }
}

/// Where the value of a name is.
pub fn place_of<'t, 'a>(scope: Scope<'t, 'a>, x: &'a Text) -> Place
    ensures value { result ≡ place_of (table scope.entry) x.now }
{
    if is_catch(x) {
        return Place::Caught;
    }
    match scope.locals.slot(x) {
        Some(slot) => Place::Local(slot),
        None => top_place(scope, x),
    }
}

/// What an assignment to a name sets.
pub fn target_of<'t, 'a>(scope: Scope<'t, 'a>, x: &'a Text) -> Place
    ensures value { result ≡ target_of (table scope.entry) x.now }
{
    match scope.locals.slot(x) {
        Some(slot) => Place::Local(slot),
        None => global_place(scope, x),
    }
}
