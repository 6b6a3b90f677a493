//! What differs from what a case says.

use gj_base::{NoMemory, Text};
use std::alloc::{AllocError, AllocFailed, Global};

/// Why a case doesn't hold.
#[derive(Debug, Drop)]
pub enum Failed {
    /// What differs, in words.
    Differs(Text),
    NoMemory,
}

impl From<NoMemory> for Failed {
    ghost from_gives = { λ _ _. Unit {0} };

    fn from(_e: NoMemory) -> Failed {
        Failed::NoMemory
    }
}

impl From<AllocError> for Failed {
    ghost from_gives = { λ _ _. Unit {0} };

    fn from(_e: AllocError) -> Failed {
        Failed::NoMemory
    }
}

impl<T: Drop> From<AllocFailed<T>> for Failed {
    ghost from_gives = { λ _ _. Unit {0} };

    fn from(_e: AllocFailed<T>) -> Failed {
        Failed::NoMemory
    }
}

/// The bytes of a difference that are shown.
const SHOWN: usize = 160;

/// Words about a path.
pub fn differs(alloc: Global, path: &[u8], words: &[u8]) -> Failed {
    match joined(alloc, path, words) {
        Ok(text) => Failed::Differs(text),
        Err(_) => Failed::NoMemory,
    }
}

fn joined(alloc: Global, path: &[u8], words: &[u8]) -> Result<Text, NoMemory> {
    let mut text = Text::from_slice(alloc, path)?;
    text.push_bytes(words)?;
    Ok(text)
}

/// Compares bytes with those that are wanted.
pub fn same(alloc: Global, what: &[u8], wanted: &[u8], found: &[u8]) -> Result<(), Failed> {
    if wanted == found {
        return Ok(());
    }
    Err(Failed::Differs(unlike(alloc, what, wanted, found)?))
}

fn unlike(alloc: Global, what: &[u8], wanted: &[u8], found: &[u8]) -> Result<Text, NoMemory> {
    let mut text = Text::from_slice(alloc, what)?;
    let from = common(wanted, found);
    text.push_bytes(b" differs: wanted `")?;
    show(&mut text, wanted, from)?;
    text.push_bytes(b"`, found `")?;
    show(&mut text, found, from)?;
    text.push_bytes(b"`")?;
    Ok(text)
}

// How many bytes both begin with.
fn common(a: &[u8], b: &[u8]) -> usize {
    for place in 0..a.len() {
        if a.get(place) != b.get(place) {
            return place;
        }
    }
    a.len()
}

// Shows bytes from a place on, on one line.
fn show(text: &mut Text, bytes: &[u8], from: usize) -> Result<(), NoMemory> {
    for (place, byte) in bytes.iter().enumerate() {
        if place >= from && place - from < SHOWN {
            if *byte == b'\n' {
                text.push_bytes(b"\\n")?;
            } else {
                text.push(*byte)?;
            }
        }
    }
    Ok(())
}
