//! The numbers of functions.

ghost use Rattle.std.specs.Prelude.{◌≡◌, ◌+◌, ◌++◌, ◌∷◌, ◌-◌, ◌==◌, [], suc, List, IfOk, map, if◌then◌else◌};
ghost use Rattle.go_syntax.specs.Tree as t;
ghost use Rattle.go_syntax.specs.View.{decl_view, file_view};
ghost use Rattle.go_typing.specs.Checked.{count_functions, function_at, first_too_far, main_from};
ghost use Rattle.go_typing.specs.Told.{is_main};
ghost use Rattle.go_items.specs.ItemView.{decls_of};
ghost use Rattle.go_items.specs.MainSearch.{main_after};
ghost use Rattle.go_items.specs.PlaceSearch.{own_place, place_after};

use gj_base::{NoMemory, Place};
use go_syntax::tree::{Decl, DeclForm, File, Name, Params};

/// Whether a name is `main`.
pub fn is_main(name: &Name) -> bool
    ensures value { result ≡ is_main name.now }
{
    name.text.as_bytes() == b"main".as_slice()
}

fn one_more(id: u32) -> Result<u32, NoMemory>
    ensures value { IfOk result (λ n. n ≡ suc id) }
{
    match id.checked_add(1) {
        Some(n) => Ok(n),
        None => Err(NoMemory),
    }
}

// One more where a function or a method is declared.
fn counted(id: u32, d: &Decl) -> Result<u32, NoMemory>
    ensures value { IfOk result (λ n. n ≡ id + count_functions (decl_view d.now ∷ [])) }
{
    match &*d.form {
        DeclForm::Func(None, _, _, _) => one_more(id),
        DeclForm::Func(Some(_), _, _, _) => one_more(id),
        DeclForm::Const(_) => Ok(id),
        DeclForm::TypeDecl(_) => Ok(id),
        DeclForm::Var(_) => Ok(id),
    }
}

// The functions and methods of a file after so many.
fn count_from(id: u32, decls: &[Decl]) -> Result<u32, NoMemory>
    ensures value { IfOk result (λ n. n ≡ id + count_functions (map decl_view decls.now)) }
{
    let mut n = id;
    for d in decls {
        n = counted(n, d)?;
    }
    Ok(n)
}

/// How many functions and methods these files have.
pub fn count_functions(files: &[File]) -> Result<u32, NoMemory>
    ensures value { IfOk result (λ n. n ≡ count_functions (decls_of (map file_view files.now))) }
{
    let mut n = 0;
    for file in files {
        n = count_from(n, file.decls.as_slice())?;
    }
    Ok(n)
}

/// A function `main` was found, by its number, or none so far, and the next number.
#[derive(Clone, Copy)]
enum Search {
    Found(u32),
    From(u32),
}

fn main_at(id: u32, name: &Name) -> Result<Search, NoMemory>
    ensures value { IfOk result (λ s. (rest : List t.Decl) → main_after s rest ≡ (if is_main name.now then id else main_from (suc id) rest)) }
{
    if is_main(name) {
        return Ok(Search::Found(id));
    }
    let next = one_more(id)?;
    Ok(Search::From(next))
}

fn main_step(id: u32, d: &Decl) -> Result<Search, NoMemory>
    ensures value { IfOk result (λ s. (rest : List t.Decl) → main_after s rest ≡ main_from id (decl_view d.now ∷ rest)) }
{
    match &*d.form {
        DeclForm::Func(None, name, _, _) => main_at(id, name),
        DeclForm::Func(Some(_), _, _, _) => {
            let next = one_more(id)?;
            Ok(Search::From(next))
        }
        DeclForm::Const(_) => Ok(Search::From(id)),
        DeclForm::TypeDecl(_) => Ok(Search::From(id)),
        DeclForm::Var(_) => Ok(Search::From(id)),
    }
}

fn main_in(id: u32, decls: &[Decl]) -> Result<Search, NoMemory>
    ensures value { IfOk result (λ s. (rest : List t.Decl) → main_after s rest ≡ main_from id (map decl_view decls.now ++ rest)) }
{
    let mut n = id;
    for d in decls {
        match main_step(n, d)? {
            Search::Found(main) => return Ok(Search::Found(main)),
            Search::From(next) => n = next,
        }
    }
    Ok(Search::From(n))
}

/// The number of the first function `main`; where there is none, how many functions there are.
pub fn main_number(files: &[File]) -> Result<u32, NoMemory>
    ensures value { IfOk result (λ n. n ≡ main_from 0 (decls_of (map file_view files.now))) }
{
    let mut n = 0;
    for file in files {
        match main_in(n, file.decls.as_slice())? {
            Search::Found(main) => return Ok(main),
            Search::From(next) => n = next,
        }
    }
    Ok(n)
}

/// The function of a number was passed, which may have a core or not, or so many stand before it.
#[derive(Clone, Copy)]
enum Counting {
    Passed(Option<Place>),
    Left(u32),
}

// A function that stands here, or none that may have a core.
fn place_at(left: u32, at: Option<Place>) -> Counting
    ensures value { (rest : List t.Decl) → place_after result rest ≡ (if left == 0 then at else function_at (left - 1) rest) }
{
    if left == 0 {
        return Counting::Passed(at);
    }
    Counting::Left(left - 1)
}

// A method has no core yet.
fn own_place(receiver: &Option<Params>, at: Place) -> Option<Place>
    ensures value { result ≡ own_place receiver.now at }
{
    match receiver {
        None => Some(at),
        Some(_) => None,
    }
}

fn place_step(left: u32, d: &Decl) -> Counting
    ensures value { (rest : List t.Decl) → place_after result rest ≡ function_at left (decl_view d.now ∷ rest) }
{
    match &*d.form {
        DeclForm::Func(receiver, _, _, _) => place_at(left, own_place(receiver, d.place)),
        DeclForm::Const(_) => Counting::Left(left),
        DeclForm::TypeDecl(_) => Counting::Left(left),
        DeclForm::Var(_) => Counting::Left(left),
    }
}

fn place_in(left: u32, decls: &[Decl]) -> Counting
    ensures value { (rest : List t.Decl) → place_after result rest ≡ function_at left (map decl_view decls.now ++ rest) }
{
    let mut n = left;
    for d in decls {
        match place_step(n, d) {
            Counting::Passed(at) => return Counting::Passed(at),
            Counting::Left(next) => n = next,
        }
    }
    Counting::Left(n)
}

/// Where the first function stands that is one too many. A method is none, as it has no core yet.
pub fn first_too_far(files: &[File]) -> Option<Place>
    ensures value { result ≡ first_too_far (decls_of (map file_view files.now)) }
{
    let mut n = 65535;
    for file in files {
        match place_in(n, file.decls.as_slice()) {
            Counting::Passed(at) => return at,
            Counting::Left(next) => n = next,
        }
    }
    None
}
