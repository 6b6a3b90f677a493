//! A tree of files in memory.

ghost use Rattle.std.specs.Prelude.{◌≡◌, ◌↔◌, ℕ, List, All, IfOk, OnOk, OnErr, IsTrue, Option, option_map, map as each};
ghost use Rattle.std.specs.BTreeMap.{IsOrdered};
ghost use Rattle.std.specs.String.{string_cmp};
ghost use Rattle.std.specs.FinMap as map;
ghost use Rattle.gj_base.specs.Tree.{Tree, bytes_at, with_file, IsName, HasFolder, AreNamesIn};
ghost use Rattle.gj_base.specs.Folder.{rest_under, name_under, names_under, has_under};
ghost use Rattle.gj_base.specs.Entries.{paths_of, tree_of, tree_code};

use crate::memory::NoMemory;
use crate::text::Text;
use std::alloc::Global;
use std::collections::BTreeMap;
use std::marker::Model;

/// The bytes of each file, by its path.
#[derive(Drop)]
pub struct FileTree {
    files: BTreeMap<String, Text>,
    alloc: Global,
}

impl Model for FileTree {
    ghost Value = { Tree };

    ghost coded = { tree_code };

    ghost view = { λ t. tree_of t.files.entries };
}

impl FileTree {
    /// No file.
    pub fn new(alloc: Global) -> FileTree
        ensures { result ≡ map.empty }
    {
        FileTree {
            files: BTreeMap::new(alloc),
            alloc,
        }
    }

    /// The bytes of the file at a path, if there is one.
    pub fn get(&self, path: &str) -> Option<&[u8]>
        ensures { option_map (λ b. b.now) result ≡ bytes_at self.now path.now }
    {
        match self.files.get(path) {
            Some(bytes) => Some(bytes.as_bytes()),
            None => None,
        }
    }

    /// Makes these the bytes at a path; a refusal leaves the tree as it was.
    pub fn put(&mut self, path: &str, bytes: &[u8]) -> Result<(), NoMemory>
        ensures value { OnOk result (self.new ≡ with_file self.old path.now bytes.now) }
        ensures same { OnErr result (self.new ≡ self.old) }
    {
        let path = String::from_str(self.alloc, path)?;
        let bytes = Text::from_slice(self.alloc, bytes)?;
        self.files.insert(path, bytes)?;
        Ok(())
    }

    /// Whether some file lies under a folder.
    pub fn has_folder(&self, folder: &str) -> bool
        ensures { IsTrue result ↔ HasFolder self.now folder.now }
    {
        has_under(&self.files, folder)
    }

    /// The names of the files directly under a folder, in byte order.
    pub fn names(&self, alloc: Global, folder: &str) -> Result<Vec<Text>, NoMemory>
        ensures names { IfOk result (λ names. All IsName names.items) }
        ensures all { IfOk result (λ names. AreNamesIn self.now folder.now names.items) }
    {
        let names = names_under(alloc, &self.files, folder)?;
        Ok(names)
    }
}

fn has_under(files: &BTreeMap<String, Text>, folder: &str) -> bool
    ensures { result ≡ has_under folder.now (paths_of files.now.entries) }
{
    for (path, _) in files {
        if rest_under(folder.as_bytes(), path.as_bytes()).is_some() {
            return true;
        }
    }
    false
}

fn names_under(
    alloc: Global,
    files: &BTreeMap<String, Text>,
    folder: &str,
) -> Result<Vec<Text>, NoMemory>
    ensures names { IfOk result (λ names. names.items ≡ names_under folder.now (paths_of files.now.entries)) }
    ensures ordered { IsOrdered string_cmp files.now }
{
    let mut names = Vec::new(alloc);
    for (path, _) in files {
        if let Some(name) = name_under(folder.as_bytes(), path.as_bytes()) {
            names.push(Text::from_slice(alloc, name)?)?;
        }
    }
    Ok(names)
}

// What a path has after a folder and a `/`, where it lies under the folder.
fn rest_under<'p>(folder: &[u8], path: &'p [u8]) -> Option<&'p [u8]>
    ensures { option_map (λ rest. rest.now) result ≡ rest_under folder.now path.now }
{
    let end = folder.len();
    if end < path.len() && path[end] == b'/' && &path[..end] == folder {
        Some(&path[end + 1..])
    } else {
        None
    }
}

// The name of what a path is directly under a folder.
fn name_under<'p>(folder: &[u8], path: &'p [u8]) -> Option<&'p [u8]>
    ensures { option_map (λ name. name.now) result ≡ name_under folder.now path.now }
{
    let rest = rest_under(folder, path)?;
    if rest.is_empty() || rest.contains(&b'/') {
        None
    } else {
        Some(rest)
    }
}
