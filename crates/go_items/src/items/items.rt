//! What the files of a package declare.

ghost use Rattle.std.specs.Prelude.{◌≡◌, ◌∷◌, ◌++◌, suc, List, OnOk, IfOk, map};
ghost use Rattle.go_syntax.specs.Tree as t;
ghost use Rattle.go_syntax.specs.View.{decl_view, file_view, value_spec_view, type_spec_view, sig_view, joined};
ghost use Rattle.go_typing.specs.Items.{each_variable, variable_items, type_items, types_after, function_of, items_from, items_of};
ghost use Rattle.go_items.specs.ItemView.{item_view, decls_of};

use crate::items::constant::{constant_items, next};
use crate::items::item::{Item, is_init};
use gj_base::NoMemory;
use go_core::tree::FuncId;
use go_syntax::tree::{Decl, DeclForm, File, Name, Sig, TypeSpec, ValueSpec};
use std::alloc::Global;

/// Declarations so far, and the numbers of the next type and of the next function.
#[derive(Drop)]
struct Items<'a> {
    items: Vec<Item<'a>>,
    types: u64,
    functions: u32,
}

fn each_variable<'a>(items: &mut Vec<Item<'a>>, names: &'a [Name]) -> Result<(), NoMemory>
    ensures value { OnOk result (map item_view items.new.items ≡ map item_view items.old.items ++ each_variable names.now) }
{
    for name in names {
        items.push(Item::Variable { name })?;
    }
    Ok(())
}

fn variable_items<'a>(items: &mut Vec<Item<'a>>, specs: &'a [ValueSpec]) -> Result<(), NoMemory>
    ensures value { OnOk result (map item_view items.new.items ≡ map item_view items.old.items ++ variable_items (joined (map value_spec_view specs.now) t.NoValues)) }
{
    for spec in specs {
        each_variable(items, spec.names.as_slice())?;
    }
    Ok(())
}

// One type more, and the number of the next one.
fn type_item<'a>(
    items: &mut Vec<Item<'a>>,
    number: u64,
    spec: &'a TypeSpec,
) -> Result<u64, NoMemory>
    ensures value { IfOk result (λ n. (rest : t.TypeSpecs) → map item_view items.new.items ++ type_items n rest ≡ map item_view items.old.items ++ type_items number (type_spec_view spec.now rest)) }
    ensures next { IfOk result (λ n. (rest : t.TypeSpecs) → types_after n rest ≡ types_after number (type_spec_view spec.now rest)) }
{
    let name = &spec.name;
    let ty = &spec.ty;
    if spec.alias {
        items.push(Item::Alias { name, ty })?;
        return Ok(number);
    }
    items.push(Item::Type { name, number, ty })?;
    next(number)
}

fn type_items<'a>(all: &mut Items<'a>, specs: &'a [TypeSpec]) -> Result<(), NoMemory>
    ensures value { OnOk result (map item_view all.new.items.items ≡ map item_view all.old.items.items ++ type_items all.old.types (joined (map type_spec_view specs.now) t.NoTypes)) }
    ensures types { OnOk result (all.new.types ≡ types_after all.old.types (joined (map type_spec_view specs.now) t.NoTypes)) }
    ensures functions { OnOk result (all.new.functions ≡ all.old.functions) }
{
    for spec in specs {
        all.types = type_item(&mut all.items, all.types, spec)?;
    }
    Ok(())
}

fn function_of<'a>(name: &'a Name, id: u32, sig: &'a Sig) -> Item<'a>
    ensures value { item_view result ≡ function_of name.now id (sig_view sig.now) }
{
    if is_init(name) {
        return Item::Init { name };
    }
    Item::Function {
        name,
        id: FuncId(id),
        sig,
    }
}

fn count_function<'a>(all: &mut Items<'a>) -> Result<(), NoMemory>
    ensures items { all.new.items.items ≡ all.old.items.items }
    ensures types { all.new.types ≡ all.old.types }
    ensures functions { OnOk result (all.new.functions ≡ suc all.old.functions) }
{
    match all.functions.checked_add(1) {
        Some(n) => {
            all.functions = n;
            Ok(())
        }
        None => Err(NoMemory),
    }
}

fn decl_items<'a>(all: &mut Items<'a>, d: &'a Decl) -> Result<(), NoMemory>
    ensures value { OnOk result ((rest : List t.Decl) → map item_view all.new.items.items ++ items_from all.new.types all.new.functions rest ≡ map item_view all.old.items.items ++ items_from all.old.types all.old.functions (decl_view d.now ∷ rest)) }
{
    match &*d.form {
        DeclForm::Const(specs) => constant_items(&mut all.items, specs.as_slice()),
        DeclForm::TypeDecl(specs) => type_items(all, specs.as_slice()),
        DeclForm::Var(specs) => variable_items(&mut all.items, specs.as_slice()),
        DeclForm::Func(None, name, sig, _) => {
            let item = function_of(name, all.functions, sig);
            all.items.push(item)?;
            count_function(all)
        }
        DeclForm::Func(Some(_), _, _, _) => count_function(all),
    }
}

fn file_items<'a>(all: &mut Items<'a>, decls: &'a [Decl]) -> Result<(), NoMemory>
    ensures value { OnOk result ((rest : List t.Decl) → map item_view all.new.items.items ++ items_from all.new.types all.new.functions rest ≡ map item_view all.old.items.items ++ items_from all.old.types all.old.functions (map decl_view decls.now ++ rest)) }
{
    for d in decls {
        decl_items(all, d)?;
    }
    Ok(())
}

/// What these files declare, in order.
pub fn items_of<'a>(alloc: Global, files: &'a [File]) -> Result<Vec<Item<'a>>, NoMemory>
    ensures value { IfOk result (λ r. map item_view r.items ≡ items_of (decls_of (map file_view files.now))) }
{
    let mut all = Items {
        items: Vec::new(alloc),
        types: 0,
        functions: 0,
    };
    for file in files {
        file_items(&mut all, file.decls.as_slice())?;
    }
    Ok(all.items)
}
