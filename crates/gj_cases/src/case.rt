//! A case: a call of the program, what it is called on, and what comes of it.

use gj_base::{NoMemory, Text};
use std::alloc::Global;

/// A file of a case: its path within the folder of the case, and its bytes.
#[derive(Debug, Drop)]
pub struct Part {
    pub path: Text,
    pub bytes: Text,
}

/// A case: its name, and the files of its folder.
#[derive(Debug, Drop)]
pub struct Case {
    pub name: Text,
    pub parts: Vec<Part>,
}

impl Case {
    /// The bytes of a file, if it is there.
    pub fn bytes(&self, path: &[u8]) -> Option<&[u8]> {
        for part in &self.parts {
            if part.path.as_bytes() == path {
                return Some(part.bytes.as_bytes());
            }
        }
        None
    }

    /// The same, or no bytes where the file isn't there.
    pub fn bytes_or_none(&self, path: &[u8]) -> &[u8] {
        match self.bytes(path) {
            Some(bytes) => bytes,
            None => b"",
        }
    }

    /// The lines of a file without their newlines, if it is there.
    pub fn lines(&self, alloc: Global, path: &[u8]) -> Result<Option<Vec<Text>>, NoMemory> {
        match self.bytes(path) {
            Some(bytes) => Ok(Some(lines_of(alloc, bytes)?)),
            None => Ok(None),
        }
    }

    /// The number in a file, if it has one.
    pub fn number(&self, path: &[u8]) -> Option<u64> {
        match self.bytes(path) {
            Some(bytes) => number_of(bytes),
            None => None,
        }
    }
}

/// The lines of a text without their newlines. What comes after the last newline is a line, if it isn't
/// empty.
pub fn lines_of(alloc: Global, text: &[u8]) -> Result<Vec<Text>, NoMemory> {
    let mut lines = Vec::new(alloc);
    let mut line = Text::new(alloc);
    for byte in text {
        if *byte == b'\n' {
            lines.push(line)?;
            line = Text::new(alloc);
        } else {
            line.push(*byte)?;
        }
    }
    if !line.as_bytes().is_empty() {
        lines.push(line)?;
    }
    Ok(lines)
}

/// The words of a line, which spaces part.
pub fn words_of(alloc: Global, line: &[u8]) -> Result<Vec<Text>, NoMemory> {
    let mut words = Vec::new(alloc);
    let mut word = Text::new(alloc);
    for byte in line {
        if *byte == b' ' {
            words.push(word)?;
            word = Text::new(alloc);
        } else {
            word.push(*byte)?;
        }
    }
    words.push(word)?;
    Ok(words)
}

/// The text of bytes; where they are none, the empty one.
pub fn string_of(alloc: Global, bytes: &[u8]) -> Result<String, NoMemory> {
    match std::str::from_utf8(bytes) {
        Ok(text) => Ok(String::from_str(alloc, text)?),
        Err(_) => Ok(String::new(alloc)),
    }
}

/// The number that the digits at the front of a text spell, if there are some.
pub fn number_of(text: &[u8]) -> Option<u64> {
    let mut number = None;
    for byte in text {
        if !byte.is_ascii_digit() {
            return number;
        }
        let digit = (*byte - b'0') as u64;
        number = match number {
            Some(before) => plus_digit(before, digit),
            None => Some(digit),
        };
    }
    number
}

fn plus_digit(before: u64, digit: u64) -> Option<u64> {
    before.checked_mul(10)?.checked_add(digit)
}
