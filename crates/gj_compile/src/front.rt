//! From the files of a folder to the program of its root and of all that this imports.
//!
//! The proved loader and the proved checker of scalar programs come first, and what they answer stands.
//! Only where they tell that a form isn't built yet the loader of imports and the checker of the whole
//! profile go on. A program that isn't plain, whichever checker gives it, goes on only where it is Sound.

ghost use Rattle.std.specs.Prelude.{◌≡◌, [], ℕ, Err, IfOk, codes, drop, is_some, take, true};
ghost use Rattle.go_typing.specs.Checked.{told};
ghost use Rattle.go_stmt.specs.Checks.{Checks, IsProgramOf};
ghost use Rattle.gj_compile.specs.Answers.{Fronts, NameImport, NamesImport};
ghost use Rattle.gj_compile.specs.Fronts.{decls_in, main_of, FrontsPackages, FrontsUnloaded};

use crate::refused::Refused;
use crate::whole::{check_imports, check_whole, only_sound};
use gj_base::{Files, NoMemory, Refusal};
use gj_plain::plain::plain_main;
use go_core::program::Program;
use go_lines::laws::plain;
use go_load::{FileEntry, LoadRefusal, Packages, Sources, load};
use go_stmt::{check, gone_program, root_files};
use std::alloc::Global;

/// The code of a form that isn't built yet.
const UNBUILT: u16 = 0;

/// A program in which there is no fault of types, with its files by number.
#[derive(Drop)]
pub struct Checked {
    pub program: Program,
    pub files: Sources,
    /// Whether the root is plain: what is proved of scripts holds of its script.
    pub is_plain: bool,
}

/// Reads the folder `root` and what it imports, from folders under `src` or embedded ones, and checks it.
pub fn check_folder<F: Files>(
    alloc: Global,
    root: &str,
    src: &str,
    files: &mut F,
) -> Result<Checked, Refused>
    ensures { Fronts result root.now (F.state files.old) (F.state files.new) }
{
    match load(alloc, files, root, src) {
        Ok(packages) => check_packages(alloc, packages),
        Err(refusal) => check_unloaded(alloc, root, src, refusal, files),
    }
}

/// What comes of a folder that the proved loader refuses.
fn check_unloaded<F: Files>(
    alloc: Global,
    root: &str,
    src: &str,
    refusal: LoadRefusal,
    files: &mut F,
) -> Result<Checked, Refused>
    ensures { FrontsUnloaded result refusal (F.state files.old) (F.state files.new) }
{
    match refusal {
        LoadRefusal::Fault(fault, sources) => {
            if fault.code == UNBUILT || name_import(&sources) {
                return check_imports(alloc, root, src, files);
            }
            Err(Refused::Fault(fault, sources))
        }
        LoadRefusal::ReadFault => Err(Refused::ReadFault),
        LoadRefusal::NoMemory => Err(Refused::NoMemory),
    }
}

/// Whether a file may import a package: a fault of that package may come before those of the root.
fn name_import(sources: &Sources) -> bool
    ensures { result ≡ true → NameImport sources.now }
{
    for entry in sources.as_slice() {
        if entry_names_import(entry) {
            return true;
        }
    }
    false
}

/// Whether a file may import a package.
fn entry_names_import(entry: &FileEntry) -> bool
    ensures { result ≡ true → NamesImport entry.now }
{
    names_import(entry.bytes.as_bytes())
}

/// Whether the letters `import` stand somewhere in a text.
fn names_import(bytes: &[u8]) -> bool
    ensures { result ≡ true → (k : ℕ) × (take 6 (drop k bytes.now) ≡ codes "import") }
{
    for place in 0..bytes.len() {
        if begins_import(&bytes[place..]) {
            return true;
        }
    }
    false
}

/// Whether a text begins with the letters `import`.
fn begins_import(bytes: &[u8]) -> bool
    ensures { result ≡ true → take 6 bytes.now ≡ codes "import" }
{
    bytes.starts_with(b"import")
}

/// Checks a root without imports.
fn check_packages(alloc: Global, packages: Packages) -> Result<Checked, Refused>
    ensures { FrontsPackages result packages }
{
    match check(alloc, &packages) {
        Ok(program) => accepted(alloc, packages, program),
        Err(refusal) => unchecked(alloc, packages, refusal),
    }
}

/// What comes of a package that the proved checker refuses.
fn unchecked(alloc: Global, packages: Packages, refusal: Refusal) -> Result<Checked, Refused>
    requires { Checks (Err refusal) (decls_in packages) }
    ensures { FrontsPackages result packages }
{
    match refusal {
        Refusal::Fault(fault) => {
            if fault.code == UNBUILT {
                return check_whole(alloc, packages);
            }
            Err(Refused::Fault(fault, packages.into_files()))
        }
        Refusal::NoMemory => Err(Refused::NoMemory),
    }
}

/// What comes of a package of which nothing is told.
fn accepted(alloc: Global, packages: Packages, program: Program) -> Result<Checked, Refused>
    requires right { told (decls_in packages) ≡ [] }
    requires is { IsProgramOf (decls_in packages) program }
    ensures { FrontsPackages result packages }
{
    match is_plain(alloc, &packages) {
        Ok(is_plain) => of_kind(alloc, packages, program, is_plain),
        Err(_) => {
            gone_program(program);
            Err(Refused::NoMemory)
        }
    }
}

/// The same, where it is known whether the root is plain.
fn of_kind(
    alloc: Global,
    packages: Packages,
    program: Program,
    is_plain: bool,
) -> Result<Checked, Refused>
    requires right { told (decls_in packages) ≡ [] }
    requires is { IsProgramOf (decls_in packages) program }
    requires asked { is_plain ≡ is_some (main_of packages) }
    ensures { FrontsPackages result packages }
{
    plain();
    if is_plain {
        return Ok(Checked {
            program,
            files: packages.into_files(),
            is_plain,
        });
    }
    only_sound(alloc, packages, program)
}

/// Whether the root is plain.
fn is_plain(alloc: Global, packages: &Packages) -> Result<bool, NoMemory>
    ensures { IfOk result (λ b. b ≡ is_some (main_of packages.now)) }
{
    let main = plain_main(alloc, root_files(&packages.packages))?;
    Ok(main.is_some())
}
