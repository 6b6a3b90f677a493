//! The rows of methods by their types and by the texts under which they are found at run time. A row is
//! needed where its type is a reached dynamic type, and what is reached has its text.

use gj_base::{NoMemory, Text};
use js_body::Body;
use js_facts::keys::method_key;
use std::alloc::Global;
use std::collections::BTreeMap;

/// Rows in lists, by their numbers from 1 on; 0 ends a list.
#[derive(Drop)]
pub struct Methods {
    texts: BTreeMap<Text, usize>,
    /// By row: the number of its text; the next row of its type, and of its text.
    text_of: Vec<usize>,
    next_of_type: Vec<u32>,
    next_of_text: Vec<u32>,
    /// By type, and by text: the first row.
    first_of_type: Vec<u32>,
    first_of_text: Vec<u32>,
    used: Vec<bool>,
}

/// What stands at a place, 0 where nothing does.
pub fn get(list: &[u32], at: usize) -> u32 {
    match list.get(at) {
        Some(n) => *n,
        None => 0,
    }
}

/// Sets what stands at a place, with 0 before it where the list is shorter.
pub fn put(list: &mut Vec<u32>, at: usize, n: u32) -> Result<(), NoMemory> {
    for _ in list.len()..at.saturating_add(1) {
        list.push(0)?;
    }
    if at < list.len() {
        list[at] = n;
    }
    Ok(())
}

impl Methods {
    /// The rows of a program, of whose texts none is used.
    pub fn new(alloc: Global, b: &Body<'_>) -> Result<Methods, NoMemory> {
        let mut all = Methods {
            texts: BTreeMap::new(alloc),
            text_of: Vec::new(alloc),
            next_of_type: Vec::new(alloc),
            next_of_text: Vec::new(alloc),
            first_of_type: Vec::new(alloc),
            first_of_text: Vec::new(alloc),
            used: Vec::new(alloc),
        };
        let mut n: u32 = 0;
        for row in b.facts.program.methods.items.as_slice() {
            n = n.saturating_add(1);
            let text = match b.facts.func(row.func) {
                Some(f) => method_key(alloc, &row.name, &row.package, &f.sig)?,
                None => Text::new(alloc),
            };
            all.add(n, row.ty.0, b.table().len(), text)?;
        }
        Ok(all)
    }

    fn add(&mut self, n: u32, t: u64, types: u64, text: Text) -> Result<(), NoMemory> {
        let k = self.text_number(text)?;
        self.text_of.push(k)?;
        let before = get(self.first_of_text.as_slice(), k);
        self.next_of_text.push(before)?;
        put(&mut self.first_of_text, k, n)?;
        if t >= types {
            self.next_of_type.push(0)?;
            return Ok(());
        }
        let before = get(self.first_of_type.as_slice(), t as usize);
        self.next_of_type.push(before)?;
        put(&mut self.first_of_type, t as usize, n)
    }

    fn number_of(&self, text: &Text) -> Option<usize> {
        match self.texts.get(text) {
            Some(k) => Some(*k),
            None => None,
        }
    }

    fn text_number(&mut self, text: Text) -> Result<usize, NoMemory> {
        if let Some(k) = self.number_of(&text) {
            return Ok(k);
        }
        let k = self.used.len();
        self.used.push(false)?;
        let _ = self.texts.insert(text, k)?;
        Ok(k)
    }

    /// A string is used: the first row with this text, where it wasn't used before.
    pub fn use_text(&mut self, alloc: Global, text: &[u8]) -> Result<u32, NoMemory> {
        let text = Text::from_slice(alloc, text)?;
        let Some(k) = self.number_of(&text) else {
            return Ok(0);
        };
        if k >= self.used.len() || self.used[k] {
            return Ok(0);
        }
        self.used[k] = true;
        Ok(get(self.first_of_text.as_slice(), k))
    }

    /// Whether the text of a row is used.
    pub fn is_used(&self, row: u32) -> bool {
        match self.text_of.get(row as usize) {
            Some(k) => *k < self.used.len() && self.used[*k],
            None => false,
        }
    }

    /// How many rows there are.
    pub fn many(&self) -> usize {
        self.text_of.len()
    }

    /// The first row of a type.
    pub fn first_of_type(&self, t: u32) -> u32 {
        get(self.first_of_type.as_slice(), t as usize)
    }

    /// The row after one of the same type.
    pub fn next_of_type(&self, n: u32) -> u32 {
        get(self.next_of_type.as_slice(), before(n))
    }

    /// The row after one of the same text.
    pub fn next_of_text(&self, n: u32) -> u32 {
        get(self.next_of_text.as_slice(), before(n))
    }
}

fn before(n: u32) -> usize {
    n.saturating_sub(1) as usize
}
