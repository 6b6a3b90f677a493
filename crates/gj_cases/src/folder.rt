//! The cases of a folder on the disk.

use crate::case::{Case, Part};
use crate::rows::add_rows;
use gj_base::Text;
use std::alloc::Global;
use std::io::ErrorKind;
use std::{fs, io, rt};

/// More folders than a case has.
const MOST_FOLDERS: u32 = 10000;

/// The cases of the folder that the program runs in.
pub fn cases_here<R: rt::Files + AllocGlobal + Clone + Drop>(
    rt: &R,
    alloc: Global,
) -> io::Result<Vec<Case>> {
    let mut cases = Vec::new(alloc);
    for entry in fs::read_dir(rt, ".")? {
        let entry = entry?;
        let name = entry.file_name();
        let kind = entry.file_type()?;
        if kind.is_dir() {
            cases.push(folder_case(rt, alloc, name)?)?;
        } else if name.ends_with(".rows") {
            let bytes = fs::read(rt, name)?;
            let topic = name.trim_end_matches(".rows");
            if add_rows(alloc, topic.as_bytes(), bytes.as_slice(), &mut cases).is_err() {
                return Err(io::Error::from(ErrorKind::OutOfMemory));
            }
        }
    }
    Ok(cases)
}

// The case of a folder.
fn folder_case<R: rt::Files + AllocGlobal + Clone + Drop>(
    rt: &R,
    alloc: Global,
    name: &str,
) -> io::Result<Case> {
    let mut case = Case {
        name: Text::from_vec(name.as_bytes().to_vec(alloc)?),
        parts: Vec::new(alloc),
    };
    let mut folders = Vec::new(alloc);
    folders.push(String::new(alloc))?;
    for _ in 0..MOST_FOLDERS {
        let Some(folder) = folders.pop() else {
            return Ok(case);
        };
        add_folder(rt, alloc, name, folder.as_str(), &mut case, &mut folders)?;
    }
    Ok(case)
}

// Adds the files of a folder of a case; its folders are left to be added.
fn add_folder<R: rt::Files + AllocGlobal + Clone + Drop>(
    rt: &R,
    alloc: Global,
    name: &str,
    folder: &str,
    case: &mut Case,
    folders: &mut Vec<String>,
) -> io::Result<()> {
    let path = format!(in alloc; "{name}/{folder}")?;
    for entry in fs::read_dir(rt, path.as_str())? {
        let entry = entry?;
        let below = format!(in alloc; "{}{}", folder, entry.file_name())?;
        if entry.file_type()?.is_dir() {
            folders.push(format!(in alloc; "{}/", below.as_str())?)?;
        } else {
            let bytes = fs::read(rt, format!(in alloc; "{name}/{}", below.as_str())?.as_str())?;
            case.parts.push(Part {
                path: Text::from_vec(below.as_bytes().to_vec(alloc)?),
                bytes: Text::from_vec(bytes),
            })?;
        }
    }
    Ok(())
}
