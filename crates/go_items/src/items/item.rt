//! A declaration of the package's scope, before it is typed.

ghost use Rattle.std.specs.Prelude.{◌≡◌, bytes_eq, codes};
ghost use Rattle.go_typing.specs.Items.{is_init, name_of};
ghost use Rattle.go_items.specs.ItemView.{item_view};

use go_core::tree::FuncId;
use go_syntax::tree::{Expr, Name, Sig, ValueSpec};

/// A declaration, by where it stands in the tree.
#[derive(Drop)]
pub enum Item<'a> {
    /// A name of a constant specification: the specification's number in its declaration, the
    /// specification that has its type and its list if there is one, and the name's value, where the
    /// list has one for each name.
    Constant {
        name: &'a Name,
        number: u64,
        spec: Option<&'a ValueSpec>,
        value: Option<&'a Expr>,
    },
    /// A type, by its number among the named types of the package.
    Type {
        name: &'a Name,
        number: u64,
        ty: &'a Expr,
    },
    Alias {
        name: &'a Name,
        ty: &'a Expr,
    },
    /// A function, by its number among all functions.
    Function {
        name: &'a Name,
        id: FuncId,
        sig: &'a Sig,
    },
    /// A package variable, which is not built yet.
    Variable {
        name: &'a Name,
    },
    /// A function `init`, which is not built yet.
    Init {
        name: &'a Name,
    },
}

/// The name that is declared.
pub fn name_of<'a>(item: &Item<'a>) -> &'a Name
    ensures value { result.now ≡ name_of (item_view item.now) }
{
    match item {
        Item::Constant {
            name,
            number: _,
            spec: _,
            value: _,
        } => name,
        Item::Type {
            name,
            number: _,
            ty: _,
        } => name,
        Item::Alias { name, ty: _ } => name,
        Item::Function {
            name,
            id: _,
            sig: _,
        } => name,
        Item::Variable { name } => name,
        Item::Init { name } => name,
    }
}

/// Whether a name is `init`.
pub fn is_init(name: &Name) -> bool
    ensures value { result ≡ is_init name.now }
{
    name.text.as_bytes() == b"init".as_slice()
}
