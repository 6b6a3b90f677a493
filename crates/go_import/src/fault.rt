//! The least fault of the load stage.

use crate::program::{FileForm, ImportRow, PackageRow, Program, Target};
use gj_base::NoMemory;
use go_graph::lasting_in;
use go_syntax::tree::{Decl, DeclForm, File};

/// A fault: by its package's place among packages, its file, its offset and its code; with the number of
/// the path that it tells.
#[derive(Clone, Copy)]
pub struct Flaw {
    pub rank: usize,
    pub file: usize,
    pub offset: u32,
    pub code: u16,
    pub path: usize,
}

/// The least of the faults that were told so far.
#[derive(Clone, Copy)]
pub struct Least {
    pub flaw: Option<Flaw>,
}

impl Least {
    fn tell(&mut self, flaw: Flaw) {
        match self.flaw {
            Some(least) if !is_before(flaw, least) => {}
            _ => self.flaw = Some(flaw),
        }
    }

    fn tell_where(&mut self, holds: bool, rank: usize, file: usize, offset: u32, code: u16) {
        if holds {
            self.tell(Flaw {
                rank,
                file,
                offset,
                code,
                path: 0,
            });
        }
    }
}

fn is_before(a: Flaw, b: Flaw) -> bool {
    if a.rank != b.rank {
        return a.rank < b.rank;
    }
    if a.file != b.file {
        return a.file < b.file;
    }
    if a.offset != b.offset {
        return a.offset < b.offset;
    }
    a.code < b.code
}

/// The place of a package in the byte order of the paths.
pub fn rank_of(p: &Program, package: usize) -> usize {
    match p.packages.get(package) {
        Some(row) => row.rank,
        None => 0,
    }
}

/// The least fault of the load stage, of a program with ranks that isn't too large.
pub fn least_flaw(p: &Program) -> Result<Option<Flaw>, NoMemory> {
    let mut least = Least { flaw: None };
    least.tell_where(!has_main(p), rank_of(p, 0), 0, 0, 43);
    for package in 0..p.packages.len() {
        tell_package(p, &mut least, package);
    }
    for import in &p.imports {
        tell_missing(p, &mut least, *import);
    }
    tell_cycles(p, &mut least)?;
    Ok(least.flaw)
}

fn tree_in(p: &Program, form: FileForm) -> Option<&File> {
    match form {
        FileForm::Parsed { tree, .. } => p.trees.get(tree),
        _ => None,
    }
}

// Whether a file of the root declares a function `main`, or may: past the limit none can tell.
fn has_main(p: &Program) -> bool {
    for row in &p.files {
        if row.package == 0 && may_have_main(p, row.form) {
            return true;
        }
    }
    false
}

fn may_have_main(p: &Program, form: FileForm) -> bool {
    match tree_in(p, form) {
        Some(tree) => declares_main(tree.decls.as_slice()),
        None => matches!(form, FileForm::Long),
    }
}

fn declares_main(decls: &[Decl]) -> bool {
    for decl in decls {
        if let DeclForm::Func(None, name, _, _) = &*decl.form {
            if name.text.as_bytes() == b"main".as_slice() {
                return true;
            }
        }
    }
    false
}

fn tell_package(p: &Program, least: &mut Least, package: usize) {
    let Some(row) = p.packages.get(package).copied() else {
        return;
    };
    let first = first_name(p, row);
    for file in row.first..row.first.saturating_add(row.count) {
        tell_file(p, least, row.rank, first, file);
    }
}

fn tell_file(p: &Program, least: &mut Least, rank: usize, first: &[u8], file: usize) {
    let Some(row) = p.files.get(file).copied() else {
        return;
    };
    match row.form {
        FileForm::Long => least.tell_where(true, rank, file, 0, 45),
        FileForm::Unlexed(_) => {}
        FileForm::Unparsed(_) => {}
        FileForm::Parsed {
            tree,
            start,
            constraint,
        } => {
            if let Some(tree) = p.trees.get(tree) {
                let name = tree.package.text.as_bytes();
                let is_right = is_right_name(row.package, name);
                least.tell_where(!is_right, rank, file, start, 44);
                least.tell_where(name != first, rank, file, start, 42);
            }
            if let Some(offset) = constraint {
                least.tell_where(true, rank, file, offset, 47);
            }
        }
    }
}

// Whether a package may have this name: the root is `main`, and no other one.
fn is_right_name(package: usize, name: &[u8]) -> bool {
    let is_main = name == b"main".as_slice();
    if package == 0 {
        return is_main;
    }
    !is_main && name != b"_".as_slice()
}

// The name in the package clause of the first file of a package that has a tree.
fn first_name(p: &Program, row: PackageRow) -> &[u8] {
    for number in row.first..row.first.saturating_add(row.count) {
        if let Some(file) = p.files.get(number) {
            if let Some(tree) = tree_in(p, file.form) {
                return tree.package.text.as_bytes();
            }
        }
    }
    b""
}

// An import that leads nowhere.
fn tell_missing(p: &Program, least: &mut Least, import: ImportRow) {
    let is_missing = match p.target(import.path) {
        Target::Package(_) => false,
        Target::Host => !p.is_embedded(import.package),
        Target::Missing => true,
    };
    if is_missing {
        least.tell(Flaw {
            rank: rank_of(p, import.package),
            file: import.file,
            offset: import.offset,
            code: 40,
            path: import.path,
        });
    }
}

// Imports of packages that lead back.
fn tell_cycles(p: &Program, least: &mut Least) -> Result<(), NoMemory> {
    let edges = import_graph(p)?;
    let lasting = lasting_in(p.alloc, edges.as_slice())?;
    for number in 0..p.imports.len() {
        if let Some(import) = p.imports.get(number).copied() {
            let node = p.packages.len().saturating_add(number);
            let is_lasting = lasting.is_lasting.get(node).copied().unwrap_or(false);
            least.tell_where(
                is_lasting,
                rank_of(p, import.package),
                import.file,
                import.offset,
                41,
            );
        }
    }
    Ok(())
}

// Packages and then imports as nodes: a package leads to its imports, and an import to its package. So an
// import is on a cycle exactly where its package leads back.
fn import_graph(p: &Program) -> Result<Vec<Vec<usize>>, NoMemory> {
    let mut edges: Vec<Vec<usize>> = Vec::new(p.alloc);
    for _ in 0..p.packages.len() {
        edges.push(Vec::new(p.alloc))?;
    }
    for import in &p.imports {
        let node = edges.len();
        if let Some(list) = edges.get_mut(import.package) {
            list.push(node)?;
        }
        let mut list = Vec::new(p.alloc);
        if let Target::Package(package) = p.target(import.path) {
            list.push(package)?;
        }
        edges.push(list)?;
    }
    Ok(edges)
}
