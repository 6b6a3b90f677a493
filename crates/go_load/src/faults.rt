//! The least fault of files that were read.

ghost use Rattle.std.specs.Prelude.{◌≡◌, ◌≤◌, ◌&&◌, ◌||◌, ◌==◌, [], None, not, nat_lt, length, map, option_map, IfOk, MatchOption};
ghost use Rattle.std.specs.List.{list_any};
ghost use Rattle.go_syntax.specs.View.{decl_view, file_view, import_view};
ghost use Rattle.go_load.specs.Root.{count_limit};
ghost use Rattle.go_load.specs.Faults.{lexical_fault, lexical_faults, syntax_fault, syntax_faults, package_name, load_faults, stage_faults, main_faults, faults_of, tree_faults, import_faults, constraint_faults, fault_where, fault_in, first_package, may_have_main, is_main, is_before, IsLeast};
ghost use Rattle.go_load.specs.Numbered.{AreNumbered};
ghost use Rattle.go_load.specs.Least.{flaw_view, first_in, lesser, least_from};
ghost use Rattle.go_load.specs.ReadingView.{reading_view};

use crate::reading::Reading;
use gj_base::{Fault, NoMemory, Place, Text};
use go_syntax::tree::{Decl, DeclForm, File, Import};
use std::alloc::Global;

/// A fault without a text of its own.
#[derive(Clone, Copy, Debug)]
pub struct Flaw {
    pub place: Place,
    pub code: u16,
}

/// The least fault of the first stage that has one.
pub fn find_fault(alloc: Global, readings: &[Reading]) -> Result<Option<Fault>, NoMemory>
    requires count { length readings.now ≤ count_limit }
    requires numbered { AreNumbered 0 (map reading_view readings.now) }
    ensures { IfOk result (λ found. let rs = map reading_view readings.now in MatchOption found (stage_faults rs ≡ []) (λ fault. IsLeast fault (stage_faults rs))) }
{
    if let Some(fault) = first_lexical(readings) {
        return Ok(Some(copy_of(fault)?));
    }
    if let Some(fault) = first_syntax(readings) {
        return Ok(Some(copy_of(fault)?));
    }
    match least_flaw(readings) {
        Some(flaw) => Ok(Some(fault_of(alloc, flaw))),
        None => Ok(None),
    }
}

/// A fault like this one.
fn copy_of(fault: &Fault) -> Result<Fault, NoMemory>
    ensures { IfOk result (λ copy. copy ≡ fault.now) }
{
    Ok(Fault {
        place: fault.place,
        code: fault.code,
        text: fault.text.clone()?,
    })
}

/// The flaw as a fault.
pub fn fault_of(alloc: Global, flaw: Flaw) -> Fault
    ensures { result ≡ flaw_view flaw }
{
    Fault {
        place: flaw.place,
        code: flaw.code,
        text: Text::new(alloc),
    }
}

/// The lexical fault of the first file that has one.
fn first_lexical(readings: &[Reading]) -> Option<&Fault>
    ensures { option_map (λ f. f.now) result ≡ first_in (lexical_faults (map reading_view readings.now)) }
{
    for reading in readings {
        if let Some(fault) = lexical_fault(reading) {
            return Some(fault);
        }
    }
    None
}

fn lexical_fault(reading: &Reading) -> Option<&Fault>
    ensures { option_map (λ f. f.now) result ≡ lexical_fault (reading_view reading.now) }
{
    match reading {
        Reading::Long => None,
        Reading::Unlexed(fault) => Some(fault),
        Reading::Unparsed(_) => None,
        Reading::Parsed(_, _, _) => None,
    }
}

/// The syntax fault of the first file that has one.
fn first_syntax(readings: &[Reading]) -> Option<&Fault>
    ensures { option_map (λ f. f.now) result ≡ first_in (syntax_faults (map reading_view readings.now)) }
{
    for reading in readings {
        if let Some(fault) = syntax_fault(reading) {
            return Some(fault);
        }
    }
    None
}

fn syntax_fault(reading: &Reading) -> Option<&Fault>
    ensures { option_map (λ f. f.now) result ≡ syntax_fault (reading_view reading.now) }
{
    match reading {
        Reading::Long => None,
        Reading::Unlexed(_) => None,
        Reading::Unparsed(fault) => Some(fault),
        Reading::Parsed(_, _, _) => None,
    }
}

/// The least fault of the load stage.
fn least_flaw(readings: &[Reading]) -> Option<Flaw>
    requires { length readings.now ≤ count_limit }
    ensures { option_map flaw_view result ≡ least_from None (load_faults (map reading_view readings.now)) }
{
    let first = first_package(readings);
    let mut least = main_flaw(readings);
    for i in 0..readings.len() {
        least = with_file(least, first, i as u32, &readings[i]);
    }
    least
}

/// The name that the first file with a tree gives its package.
fn first_package(readings: &[Reading]) -> &[u8]
    ensures { result.now ≡ first_package (map reading_view readings.now) }
{
    for reading in readings {
        if let Some(name) = package_name(reading) {
            return name;
        }
    }
    b""
}

fn package_name(reading: &Reading) -> Option<&[u8]>
    ensures { option_map (λ name. name.now) result ≡ package_name (reading_view reading.now) }
{
    match reading {
        Reading::Long => None,
        Reading::Unlexed(_) => None,
        Reading::Unparsed(_) => None,
        Reading::Parsed(_, _, file) => Some(file.package.text.as_bytes()),
    }
}

/// The flaw of files of which none declares a function `main`, or may.
fn main_flaw(readings: &[Reading]) -> Option<Flaw>
    ensures { option_map flaw_view result ≡ least_from None (main_faults (map reading_view readings.now)) }
{
    with_flaw_where(None, !has_main(readings), 0, 0, 43)
}

/// Whether a file declares a function `main`, or may: past the limit none can tell.
fn has_main(readings: &[Reading]) -> bool
    ensures { result ≡ list_any may_have_main (map reading_view readings.now) }
{
    for r in readings {
        if may_have_main(r) {
            return true;
        }
    }
    false
}

fn may_have_main(reading: &Reading) -> bool
    ensures { result ≡ may_have_main (reading_view reading.now) }
{
    match reading {
        Reading::Long => true,
        Reading::Unlexed(_) => false,
        Reading::Unparsed(_) => false,
        Reading::Parsed(_, _, file) => declares_main(file.decls.as_slice()),
    }
}

fn declares_main(decls: &[Decl]) -> bool
    ensures { result ≡ list_any is_main (map decl_view decls.now) }
{
    for d in decls {
        if is_main(d) {
            return true;
        }
    }
    false
}

/// Whether this declares a function `main`.
fn is_main(decl: &Decl) -> bool
    ensures { result ≡ is_main (decl_view decl.now) }
{
    match &*decl.form {
        DeclForm::Func(None, name, _, _) => name.text.as_bytes() == b"main".as_slice(),
        _ => false,
    }
}

/// The least of the faults so far and those of one file.
fn with_file(least: Option<Flaw>, first: &[u8], number: u32, reading: &Reading) -> Option<Flaw>
    ensures { option_map flaw_view result ≡ least_from (option_map flaw_view least) (faults_of first.now number (reading_view reading.now)) }
{
    match reading {
        Reading::Long => Some(lesser(least, flaw_in(number, 0, 45))),
        Reading::Unlexed(_) => least,
        Reading::Unparsed(_) => least,
        Reading::Parsed(start, constraint, file) => {
            with_tree(least, first, number, *start, *constraint, file)
        }
    }
}

/// The least of the faults so far and those of a file with this tree.
fn with_tree(
    least: Option<Flaw>,
    first: &[u8],
    number: u32,
    start: u32,
    constraint: Option<u32>,
    file: &File,
) -> Option<Flaw>
    ensures { option_map flaw_view result ≡ least_from (option_map flaw_view least) (tree_faults first.now number start constraint (file_view file.now)) }
{
    let name = file.package.text.as_bytes();
    let least = with_imports(least, number, file.imports.as_slice());
    let least = with_flaw_where(least, name != first, number, start, 42);
    let least = with_flaw_where(least, name != b"main".as_slice(), number, start, 44);
    with_constraint(least, number, constraint)
}

/// Imports are not built yet: each is a fault at the first token of its Spec.
fn with_imports(least: Option<Flaw>, number: u32, imports: &[Import]) -> Option<Flaw>
    ensures { option_map flaw_view result ≡ least_from (option_map flaw_view least) (import_faults number (map import_view imports.now)) }
{
    let mut least = least;
    for i in imports {
        least = Some(lesser(least, flaw_in(number, i.place.offset, 0)));
    }
    least
}

/// A build constraint is not in the profile.
fn with_constraint(least: Option<Flaw>, number: u32, constraint: Option<u32>) -> Option<Flaw>
    ensures { option_map flaw_view result ≡ least_from (option_map flaw_view least) (constraint_faults number constraint) }
{
    match constraint {
        Some(offset) => Some(lesser(least, flaw_in(number, offset, 47))),
        None => least,
    }
}

/// The least of the faults so far and one that there is where something holds.
fn with_flaw_where(
    least: Option<Flaw>,
    holds: bool,
    number: u32,
    offset: u32,
    code: u16,
) -> Option<Flaw>
    ensures { option_map flaw_view result ≡ least_from (option_map flaw_view least) (fault_where holds number offset code) }
{
    if holds {
        return Some(lesser(least, flaw_in(number, offset, code)));
    }
    least
}

/// The flaw with this code in the file with this number.
pub fn flaw_in(number: u32, offset: u32, code: u16) -> Flaw
    ensures { flaw_view result ≡ fault_in number offset code }
{
    Flaw {
        place: Place {
            file: number,
            offset,
        },
        code,
    }
}

/// The flaw so far, or this one where it comes before.
fn lesser(least: Option<Flaw>, flaw: Flaw) -> Flaw
    ensures { flaw_view result ≡ lesser (option_map flaw_view least) (flaw_view flaw) }
{
    match least {
        Some(other) if !is_before(flaw, other) => other,
        _ => flaw,
    }
}

/// Whether the first comes before the second: by file, then offset, then code.
fn is_before(a: Flaw, b: Flaw) -> bool
    ensures { result ≡ is_before (flaw_view a) (flaw_view b) }
{
    if a.place.file != b.place.file {
        return a.place.file < b.place.file;
    }
    if a.place.offset != b.place.offset {
        return a.place.offset < b.place.offset;
    }
    a.code < b.code
}
