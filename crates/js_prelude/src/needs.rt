//! Which parts of the library a script needs, and their trees.

use crate::gates::GATES;
use crate::halves::HALVES;
use crate::maps::MAPS;
use crate::memory::MEMORY;
use crate::talk::{TALK, TURN_ALONE, TURN_CALM};
use crate::text::TEXT;
use crate::unwinding::{
    REPORT_ALONE, REPORT_PLAIN, TOLD_NARROW, UNWIND_ALONE, UNWIND_CALM, UNWINDING,
};
use crate::word::{first_word, panic_number};
use js_pool::Unmade;
use js_read::{ReadRefusal, read};
use js_tree::{JsItem, Script, preamble};
use std::alloc::Global;

/// A function or a variable of the library, with its text.
#[derive(Clone, Copy)]
struct Part {
    name: &'static [u8],
    text: &'static [u8],
    needed: bool,
}

/// The parts of the library, and which of them are needed: those that are asked for, and what they
/// mention in turn.
#[derive(Drop)]
pub struct Needs {
    alloc: Global,
    parts: Vec<Part>,
    /// Parts whose texts are still to be gone over.
    work: Vec<usize>,
    /// Which run-time panics are mentioned.
    panics: [bool; 13],
    /// Whether some type has a method `Error` that a report calls.
    pub errors: bool,
    /// Whether these methods never wait.
    pub errors_are_plain: bool,
    /// Whether a report may tell a number of 64 bits.
    pub wide: bool,
    /// Whether memory ran out.
    failed: bool,
}

impl Needs {
    /// Nothing is needed.
    pub fn new(alloc: Global) -> Needs {
        let mut needs = Needs {
            alloc,
            parts: Vec::new(alloc),
            work: Vec::new(alloc),
            panics: [false; 13],
            errors: true,
            errors_are_plain: false,
            wide: true,
            failed: false,
        };
        needs.add_parts(HALVES.as_slice());
        needs.add_parts(TEXT.as_slice());
        needs.add_parts(MEMORY.as_slice());
        needs.add_parts(MAPS.as_slice());
        needs.add_parts(TALK.as_slice());
        needs.add_parts(GATES.as_slice());
        needs.add_parts(UNWINDING.as_slice());
        needs
    }

    fn add_parts(&mut self, texts: &'static [&'static str]) {
        for text in texts {
            self.add_part(text.as_bytes());
        }
    }

    // The name of a part is its second word, after `function` or `var`.
    fn add_part(&mut self, text: &'static [u8]) {
        let (_, rest) = first_word(text);
        let (name, _) = first_word(rest);
        let part = Part {
            name,
            text,
            needed: false,
        };
        if self.parts.push(part).is_err() {
            self.failed = true;
        }
    }

    // ---- what is needed

    // The number of the part with a name; most names in a script are shorter than all of theirs.
    fn find(&self, name: &[u8]) -> Option<usize> {
        if name.len() < 3 && name != b"$q".as_slice() {
            return None;
        }
        for i in 0..self.parts.len() {
            if self.part(i).name == name {
                return Some(i);
            }
        }
        None
    }

    // The part with a number.
    fn part(&self, i: usize) -> Part {
        match self.parts.get(i) {
            Some(part) => *part,
            None => Part {
                name: b"",
                text: b"",
                needed: false,
            },
        }
    }

    /// A name is mentioned: the part of this name is needed, where there is one.
    pub fn need(&mut self, name: &[u8]) {
        self.need_panic(panic_number(name));
        if let Some(i) = self.find(name) {
            self.need_part(i);
        }
    }

    fn need_part(&mut self, i: usize) {
        if i >= self.parts.len() || self.parts[i].needed {
            return;
        }
        self.parts[i].needed = true;
        if self.work.push(i).is_err() {
            self.failed = true;
        }
    }

    fn need_panic(&mut self, n: usize) {
        if n < 13 {
            self.panics[n] = true;
        }
    }

    /// What needed parts mention is needed. The texts of a few parts depend on what else is needed.
    pub fn follow(&mut self) {
        for _ in 0..self.parts.len() {
            self.follow_work();
            self.need_chosen(b"$turn");
            self.need_chosen(b"$unwind");
            self.need_chosen(b"$report");
            self.need_chosen(b"$told");
            if self.work.is_empty() {
                return;
            }
        }
    }

    // What a needed part mentions in the text that it has by now.
    fn need_chosen(&mut self, name: &[u8]) {
        if let Some(i) = self.find(name)
            && self.part(i).needed
        {
            let text = self.text_of(i);
            self.need_words(text);
        }
    }

    fn follow_work(&mut self) {
        for _ in 0..self.parts.len() {
            let Some(i) = self.work.pop() else {
                return;
            };
            let text = self.text_of(i);
            self.need_words(text);
        }
    }

    fn need_words(&mut self, text: &[u8]) {
        let mut rest = text;
        for _ in 0..text.len() {
            let (word, after) = first_word(rest);
            if word.len() == 0 {
                return;
            }
            self.need(word);
            rest = after;
        }
    }

    /// Whether a part is needed.
    pub fn has(&self, name: &[u8]) -> bool {
        match self.find(name) {
            Some(i) => self.part(i).needed,
            None => false,
        }
    }

    /// Whether the run-time panic with this number is mentioned.
    pub fn has_panic(&self, n: usize) -> bool {
        n < 13 && self.panics[n]
    }

    // Whether a frame may wait.
    fn waits(&self) -> bool {
        self.has(b"$q") || self.has(b"$line")
    }

    // The text of a part in this script.
    fn text_of(&self, i: usize) -> &'static [u8] {
        let part = self.part(i);
        match part.name {
            b"$turn" => self.turn_text(part.text),
            b"$unwind" => self.unwind_text(part.text),
            b"$report" if !self.errors => REPORT_ALONE.as_bytes(),
            b"$report" if self.errors_are_plain => REPORT_PLAIN.as_bytes(),
            b"$told" if !self.wide => TOLD_NARROW.as_bytes(),
            _ => part.text,
        }
    }

    fn turn_text(&self, whole: &'static [u8]) -> &'static [u8] {
        if self.waits() {
            return whole;
        }
        if self.has(b"$panic") {
            return TURN_ALONE.as_bytes();
        }
        TURN_CALM.as_bytes()
    }

    fn unwind_text(&self, whole: &'static [u8]) -> &'static [u8] {
        if self.has(b"$defer") {
            return whole;
        }
        if self.has(b"$panic") {
            return UNWIND_ALONE.as_bytes();
        }
        UNWIND_CALM.as_bytes()
    }

    // ---- trees

    /// Adds the functions and variables that are needed, in the order of the library.
    pub fn add_items(&self, items: &mut Vec<JsItem>) -> Result<(), Unmade> {
        if self.failed {
            return Err(Unmade::NoMemory);
        }
        let bytes = self.script_text()?;
        add_read(self.alloc, bytes.as_slice(), items)
    }

    // A script of the parts that are needed.
    fn script_text(&self) -> Result<Vec<u8>, Unmade> {
        let mut bytes = Vec::from_slice(self.alloc, preamble())?;
        for i in 0..self.parts.len() {
            if self.part(i).needed {
                bytes.extend_from_slice(self.text_of(i))?;
            }
        }
        bytes.extend_from_slice(b"$f();")?;
        Ok(bytes)
    }
}

// Adds the items of a script's text.
fn add_read(alloc: Global, bytes: &[u8], items: &mut Vec<JsItem>) -> Result<(), Unmade> {
    if bytes.len() >= 4294967295 {
        return Err(Unmade::Internal);
    }
    match read(alloc, bytes) {
        Ok(script) => {
            let Script { items: parts, .. } = script;
            for part in parts {
                items.push(part)?;
            }
            Ok(())
        }
        Err(ReadRefusal::NoMemory) => Err(Unmade::NoMemory),
        Err(ReadRefusal::Syntax(_)) => Err(Unmade::Internal),
    }
}
