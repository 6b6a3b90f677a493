//! Files in memory.

ghost use Rattle.std.specs.Prelude.{◌≡◌, OnOk, OnErr, option_map};
ghost use Rattle.gj_base.specs.Counts.{Rose};
ghost use Rattle.gj_base.specs.Plan.{with_failure};
ghost use Rattle.gj_base.specs.Tree.{bytes_at, with_file};
ghost use Rattle.gj_base.specs.Files.{Lists, Reads, Stores};
ghost use Rattle.gj_base.specs.MemoryFiles.{files_state, no_files, after_call, after_failed_read, after_store, after_failed_store, ReadsInMemory, StoresInMemory};

use crate::file_tree::FileTree;
use crate::files::{FileError, Files, StoreError};
use crate::memory::NoMemory;
use crate::plan::{Plan, counted, prefix};
use crate::text::Text;
use std::alloc::Global;
use std::marker::Model;

/// Files that are kept in memory, and whose calls fail where they were told so.
///
/// Lists, reads and stores are numbered together from 0. A call that memory was refused to keeps
/// its number for the next.
#[derive(Drop)]
pub struct TreeFiles {
    tree: FileTree,
    reading_faults: u64,
    storing_faults: u64,
    calls: u64,
    plan: Plan,
}

impl Model for TreeFiles {
    ghost use Rattle.gj_base.specs.MemoryFiles.{MemoryFiles, memory_files_code};

    ghost Value = { MemoryFiles };

    ghost coded = { memory_files_code };

    ghost view = { λ f. record { tree = f.tree; reading_faults = f.reading_faults; storing_faults = f.storing_faults; calls = f.calls; plan = f.plan } };
}

impl TreeFiles {
    /// No file, and no call is told to fail.
    pub fn new(alloc: Global) -> TreeFiles
        ensures { result ≡ no_files }
    {
        TreeFiles {
            tree: FileTree::new(alloc),
            reading_faults: 0,
            storing_faults: 0,
            calls: 0,
            plan: Plan::new(alloc),
        }
    }

    /// Makes these the bytes at a path, whatever it held; not a call that is numbered.
    ///
    /// A refusal leaves all as it was.
    pub fn put(&mut self, path: &str, bytes: &[u8]) -> Result<(), NoMemory>
        ensures value { OnOk result (self.new ≡ record self.old { tree = with_file self.old.tree path.now bytes.now }) }
        ensures same { OnErr result (self.new ≡ self.old) }
    {
        self.tree.put(path, bytes)
    }

    /// Tells the call with this number to fail; a store has then taken `after` bytes, or all where
    /// there are fewer. The later of two for one call holds. A refusal leaves all as it was.
    pub fn fail(&mut self, call: u64, after: u64) -> Result<(), NoMemory>
        ensures value { OnOk result (self.new ≡ record self.old { plan = with_failure self.old.plan call after }) }
        ensures same { OnErr result (self.new ≡ self.old) }
    {
        self.plan.fail(call, after)
    }

    /// The bytes at a path, if there is a file.
    pub fn bytes(&self, path: &str) -> Option<&[u8]>
        ensures { option_map (λ b. b.now) result ≡ bytes_at self.now.tree path.now }
    {
        self.tree.get(path)
    }

    fn count_call(&mut self)
        ensures { self.new ≡ after_call self.old }
    {
        self.calls = counted(self.calls);
    }

    fn count_failed_read(&mut self)
        ensures value { self.new ≡ after_failed_read self.old }
        ensures rose { Rose self.old.reading_faults self.new.reading_faults }
    {
        self.calls = counted(self.calls);
        self.reading_faults = counted(self.reading_faults);
    }

    // Stores these bytes and counts the call.
    fn store_all(&mut self, path: &str, bytes: &[u8]) -> Result<(), NoMemory>
        ensures value { OnOk result (self.new ≡ after_store self.old path.now bytes.now) }
        ensures same { OnErr result (self.new ≡ self.old) }
    {
        self.tree.put(path, bytes)?;
        self.calls = counted(self.calls);
        Ok(())
    }

    // Stores the first `after` of these bytes, or all where there are fewer, and counts the call
    // and the fault.
    fn store_in_part(&mut self, path: &str, bytes: &[u8], after: u64) -> Result<(), NoMemory>
        ensures value { OnOk result (self.new ≡ after_failed_store self.old path.now bytes.now after) }
        ensures rose { OnOk result (Rose self.old.storing_faults self.new.storing_faults) }
        ensures same { OnErr result (self.new ≡ self.old) }
    {
        self.tree.put(path, prefix(bytes, after))?;
        self.calls = counted(self.calls);
        self.storing_faults = counted(self.storing_faults);
        Ok(())
    }
}

impl Files for TreeFiles {
    ghost state = { files_state };

    fn list(&mut self, alloc: Global, path: &str) -> Result<Vec<Text>, FileError>
        ensures lists { Lists result path.now (files_state self.old) (files_state self.new) }
        ensures exact { ReadsInMemory result self.old self.new }
    {
        if self.plan.failure_at(self.calls).is_some() {
            self.count_failed_read();
            return Err(FileError::Failed);
        }
        if !self.tree.has_folder(path) {
            self.count_call();
            return Err(FileError::Missing);
        }
        match self.tree.names(alloc, path) {
            Ok(names) => {
                self.count_call();
                Ok(names)
            }
            Err(NoMemory) => Err(FileError::NoMemory),
        }
    }

    fn read(&mut self, alloc: Global, path: &str, limit: u64) -> Result<Vec<u8>, FileError>
        ensures reads { Reads result path.now limit (files_state self.old) (files_state self.new) }
        ensures exact { ReadsInMemory result self.old self.new }
    {
        if self.plan.failure_at(self.calls).is_some() {
            self.count_failed_read();
            return Err(FileError::Failed);
        }
        let Some(bytes) = self.tree.get(path) else {
            self.count_call();
            return Err(FileError::Missing);
        };
        if limit < bytes.len() as u64 {
            self.count_call();
            return Err(FileError::TooLong);
        }
        match Vec::from_slice(alloc, bytes) {
            Ok(copy) => {
                self.count_call();
                Ok(copy)
            }
            Err(_) => Err(FileError::NoMemory),
        }
    }

    fn store(&mut self, path: &str, bytes: &[u8]) -> Result<(), StoreError>
        ensures stores { Stores result path.now bytes.now (files_state self.old) (files_state self.new) }
        ensures exact { StoresInMemory result path.now bytes.now self.old self.new }
    {
        match self.plan.failure_at(self.calls) {
            None => match self.store_all(path, bytes) {
                Ok(()) => Ok(()),
                Err(NoMemory) => Err(StoreError::NoMemory),
            },
            Some(after) => match self.store_in_part(path, bytes, after) {
                Ok(()) => Err(StoreError::Failed),
                Err(NoMemory) => Err(StoreError::NoMemory),
            },
        }
    }
}
