//! Files on a disk. This is the trusted edge: it tells no content, and no clause says what a disk
//! holds.

ghost use Rattle.std.specs.Prelude.{◌≡◌, ◌≢◌, ◌≤◌, None, length, All, IfOk, IfErr, OnOk};
ghost use Rattle.gj_base.specs.Tree.{IsName};
ghost use Rattle.gj_base.specs.declared.files.FileError.TheVariants.{TooLong};

use gj_base::{FileError, Files, NoMemory, StoreError, Text};
use std::alloc::Global;
use std::fs::File;
use std::io::{ErrorKind, Read};
use std::{fs, io, rt};

/// The most entries of a folder that is listed.
const ENTRY_LIMIT: u32 = 1000000;

/// The files of a disk, by their paths.
#[derive(Drop)]
pub struct DiskFiles<'a, R> {
    rt: &'a R,
    reading_faults: u64,
    storing_faults: u64,
}

impl<'a, R> DiskFiles<'a, R> {
    /// The files that the runtime reaches, of which no call has failed.
    pub fn new(rt: &'a R) -> DiskFiles<'a, R>
        ensures counts { (result.reading_faults ≡ 0) × (result.storing_faults ≡ 0) }
    {
        DiskFiles {
            rt,
            reading_faults: 0,
            storing_faults: 0,
        }
    }
}

impl<'a, R: rt::Files + AllocGlobal + Clone + Drop> Files for DiskFiles<'a, R> {
    ghost state = { λ d. record { tree = None; reading_faults = d.reading_faults; storing_faults = d.storing_faults } };

    fn list(&mut self, alloc: Global, path: &str) -> Result<Vec<Text>, FileError> {
        match regular_files(self.rt, alloc, path) {
            Ok(names) => Ok(names),
            Err(FileError::Failed) => {
                self.reading_faults = self.reading_faults.saturating_add(1);
                Err(FileError::Failed)
            }
            Err(error) => Err(error),
        }
    }

    fn read(&mut self, alloc: Global, path: &str, limit: u64) -> Result<Vec<u8>, FileError> {
        match file_bytes(self.rt, alloc, path, limit) {
            Ok(bytes) => Ok(bytes),
            Err(FileError::Failed) => {
                self.reading_faults = self.reading_faults.saturating_add(1);
                Err(FileError::Failed)
            }
            Err(error) => Err(error),
        }
    }

    fn store(&mut self, path: &str, bytes: &[u8]) -> Result<(), StoreError> {
        match fs::write(self.rt, path, bytes) {
            Ok(()) => Ok(()),
            Err(_) => {
                self.storing_faults = self.storing_faults.saturating_add(1);
                Err(StoreError::Failed)
            }
        }
    }
}

/// The names of the regular files of a folder.
fn regular_files<R: rt::Files + AllocGlobal + Clone + Drop>(
    rt: &R,
    alloc: Global,
    path: &str,
) -> Result<Vec<Text>, FileError>
    ensures value { IfOk result (λ names. All IsName names.items) }
    ensures fault { IfErr result (λ error. error ≢ TooLong) }
{
    let entries = match fs::read_dir(rt, path) {
        Ok(entries) => entries,
        Err(error) => return Err(refusal(&error)),
    };
    let mut names = Vec::new(alloc);
    let mut count = 0u32;
    for entry in entries {
        if count == ENTRY_LIMIT {
            return Err(FileError::Failed);
        }
        count += 1;
        let entry = match entry {
            Ok(entry) => entry,
            Err(error) => return Err(refusal(&error)),
        };
        match entry.file_type() {
            Ok(kind) if kind.is_file() => push_name(alloc, &mut names, entry.file_name())?,
            Ok(_) => {}
            Err(error) => return Err(refusal(&error)),
        }
    }
    Ok(names)
}

/// Adds the name of a file.
fn push_name(alloc: Global, names: &mut Vec<Text>, name: &str) -> Result<(), FileError>
    ensures value { OnOk result (All IsName names.old.items → All IsName names.new.items) }
    ensures fault { IfErr result (λ error. error ≢ TooLong) }
{
    let name = name_of(alloc, name)?;
    let Ok(()) = names.push(name) else {
        return Err(FileError::NoMemory);
    };
    Ok(())
}

/// The name of a file, which isn't empty and has no `/`.
fn name_of(alloc: Global, name: &str) -> Result<Text, FileError>
    ensures value { IfOk result IsName }
    ensures fault { IfErr result (λ error. error ≢ TooLong) }
{
    if name.is_empty() || name.as_bytes().contains(&b'/') {
        return Err(FileError::Failed);
    }
    match Text::from_slice(alloc, name.as_bytes()) {
        Ok(name) => Ok(name),
        Err(NoMemory) => Err(FileError::NoMemory),
    }
}

/// All bytes of a file, where they are at most `limit`.
fn file_bytes<R: rt::Files>(
    rt: &R,
    alloc: Global,
    path: &str,
    limit: u64,
) -> Result<Vec<u8>, FileError>
    ensures { IfOk result (λ bytes. length bytes.items ≤ limit) }
{
    let mut file = match File::open(rt, path) {
        Ok(file) => file,
        Err(error) => return Err(refusal(&error)),
    };
    let mut bytes = Vec::new(alloc);
    let mut buffer = [0u8; 8192];
    for _ in 0..u64::MAX {
        let taken = match file.read(&mut buffer) {
            Ok(taken) => taken,
            Err(error) if error.kind() == ErrorKind::Interrupted => continue,
            Err(error) => return Err(refusal(&error)),
        };
        if taken == 0 {
            return Ok(bytes);
        }
        if limit - (bytes.len() as u64) < taken as u64 {
            return Err(FileError::TooLong);
        }
        if bytes.extend_from_slice(&buffer[..taken]).is_err() {
            return Err(FileError::NoMemory);
        }
    }
    Err(FileError::Failed)
}

/// What a failed call of the system means here.
fn refusal(error: &io::Error) -> FileError
    ensures { result ≢ TooLong }
{
    match error.kind() {
        ErrorKind::NotFound => FileError::Missing,
        ErrorKind::NotADirectory => FileError::Missing,
        ErrorKind::OutOfMemory => FileError::NoMemory,
        _ => FileError::Failed,
    }
}

#[cfg(test)]
mod tests {
    use super::*;
    use std::test::Fail;

    /// What goes to a disk comes back from it.
    #[test]
    fn stores_lists_and_reads(rt: HostRuntime) -> Result<(), Fail> {
        let mut folder = format!(in rt.alloc();
            "{}",
            std::env::temp_dir(&rt)?.as_path().display()
        )?;
        folder.push_str("/gopherjs-disk-test")?;
        fs::create_dir_all(&rt, folder.as_str())?;
        let mut path = folder.clone()?;
        path.push_str("/a.go")?;
        let mut files = DiskFiles::new(&rt);
        files.store(path.as_str(), b"package a\n")?;
        let names = files.list(rt.alloc(), folder.as_str())?;
        assert_eq!(rt; names.len(), 1);
        assert_eq!(rt; names[0].as_bytes(), b"a.go".as_slice());
        let bytes = files.read(rt.alloc(), path.as_str(), 10)?;
        assert_eq!(rt; bytes.as_slice(), b"package a\n".as_slice());
        assert_eq!(rt;
            files.read(rt.alloc(), path.as_str(), 9).err(),
            Some(FileError::TooLong)
        );
        path.push_str("x")?;
        assert_eq!(rt;
            files.read(rt.alloc(), path.as_str(), 9).err(),
            Some(FileError::Missing)
        );
        assert_eq!(rt;
            files.list(rt.alloc(), path.as_str()).err(),
            Some(FileError::Missing)
        );
        assert_eq!(rt;
            files.read(rt.alloc(), folder.as_str(), 9).err(),
            Some(FileError::Failed)
        );
        fs::remove_dir_all(&rt, folder.as_str())?;
        Ok(())
    }
}
