//! What a script needs: the items that `$start` leads to by names, and the parts of the run-time library
//! that these mention.

ghost use Rattle.std.specs.Prelude.{◌≡◌};
ghost use Rattle.js_emit.specs.Items.{is_reached};

use crate::methods::{Methods, get, put};
use crate::top::{name_number, predeclared};
use gj_base::NoMemory;
use go_core::program::MethodRow;
use go_type::predeclared::STR;
use go_type::types::TypeId;
use js_body::Body;
use js_facts::Held;
use js_pool::{Item, Name, Node, Pool};
use js_prelude::Needs;
use std::alloc::Global;

/// The letters after `$` in names with numbers: the items of each are found by their numbers.
const LETTERS: &[u8] = b"fmarnozdygp";

/// The items of a script under construction, and which of them are reached.
#[derive(Drop)]
pub struct Reach {
    /// By letter and number: the number of the item from 1 on, or 0.
    by_number: Vec<Vec<u32>>,
    pub reached: Vec<bool>,
    work: Vec<u32>,
    methods: Methods,
    pub needs: Needs,
}

// The place of a letter, behind all where it has none.
fn letter(word: &[u8]) -> usize {
    let [_, c] = word else {
        return LETTERS.len();
    };
    for i in 0..LETTERS.len() {
        if LETTERS[i] == *c {
            return i;
        }
    }
    LETTERS.len()
}

fn item_name(item: Item) -> Name {
    match item {
        Item::Function(x, _, _) => x,
        Item::Global(x, _) => x,
    }
}

impl Reach {
    /// Nothing is reached.
    pub fn new(alloc: Global, b: &Body<'_>) -> Result<Reach, NoMemory> {
        let mut all = Reach {
            by_number: Vec::new(alloc),
            reached: Vec::new(alloc),
            work: Vec::new(alloc),
            methods: Methods::new(alloc, b)?,
            needs: Needs::new(alloc),
        };
        all.needs.errors = false;
        all.needs.wide = false;
        for _ in 0..LETTERS.len() {
            all.by_number.push(Vec::new(alloc))?;
        }
        all.add_items(&b.pool)?;
        Ok(all)
    }

    fn add_items(&mut self, pool: &Pool) -> Result<(), NoMemory> {
        let mut n: u32 = 0;
        for item in pool.items.as_slice() {
            self.reached.push(false)?;
            n = n.saturating_add(1);
            if let Name::Numbered(word, k) = item_name(*item) {
                let i = letter(word);
                if i < self.by_number.len() {
                    put(&mut self.by_number[i], k as usize, n)?;
                }
            }
        }
        Ok(())
    }

    // ---- what is reached

    /// The item of a name with a number is needed, where there is one.
    pub fn need(&mut self, word: &[u8], n: u32) -> Result<(), NoMemory> {
        let i = letter(word);
        if i < self.by_number.len() {
            let item = get(self.by_number[i].as_slice(), n as usize);
            if item > 0 {
                return self.need_item(item - 1);
            }
        }
        Ok(())
    }

    fn need_item(&mut self, n: u32) -> Result<(), NoMemory> {
        let at = n as usize;
        if at < self.reached.len() && !self.reached[at] {
            self.reached[at] = true;
            self.work.push(n)?;
        }
        Ok(())
    }

    /// The items of a word's name are needed, and the part of the library of this name.
    pub fn need_word(&mut self, pool: &Pool, word: &'static [u8]) -> Result<(), NoMemory> {
        self.needs.need(word);
        if word == b"$init".as_slice() || word == b"$first".as_slice() {
            return self.need_top(pool, word);
        }
        Ok(())
    }

    fn need_top(&mut self, pool: &Pool, word: &'static [u8]) -> Result<(), NoMemory> {
        let mut n: u32 = 0;
        for item in pool.items.as_slice() {
            if let Name::Word(x) = item_name(*item)
                && x == word
            {
                self.need_item(n)?;
            }
            n = n.saturating_add(1);
        }
        Ok(())
    }

    /// Whether an item is reached.
    pub fn has_item(&self, n: usize) -> bool
        ensures { result ≡ is_reached self.now.reached.items n }
    {
        match self.reached.get(n) {
            Some(b) => *b,
            None => false,
        }
    }

    /// Whether the item of a name with a number is reached.
    pub fn has(&self, word: &[u8], n: u32) -> bool {
        let i = letter(word);
        if i >= self.by_number.len() {
            return false;
        }
        let item = get(self.by_number[i].as_slice(), n as usize);
        item > 0 && self.has_item((item - 1) as usize)
    }

    /// Goes on until nothing more is reached.
    pub fn follow(&mut self, b: &Body<'_>) -> Result<(), NoMemory> {
        for _ in 0..u64::MAX {
            self.follow_items(b)?;
            self.needs.follow();
            self.need_panics()?;
            if self.work.is_empty() {
                return Ok(());
            }
        }
        Ok(())
    }

    fn need_panics(&mut self) -> Result<(), NoMemory> {
        for n in 1..13 {
            if self.needs.has_panic(n as usize) {
                self.need(b"$p", n)?;
            }
        }
        Ok(())
    }

    fn follow_items(&mut self, b: &Body<'_>) -> Result<(), NoMemory> {
        for _ in 0..u64::MAX {
            let Some(n) = self.work.pop() else {
                return Ok(());
            };
            self.follow_item(b, n as usize)?;
        }
        Ok(())
    }

    fn follow_item(&mut self, b: &Body<'_>, n: usize) -> Result<(), NoMemory> {
        let from = if n == 0 { 0 } else { end_of(&b.pool, n - 1) };
        let to = end_of(&b.pool, n);
        for i in from..to {
            if let Some(node) = b.pool.nodes.get(i) {
                let node = *node;
                self.need_node(b, node)?;
            }
        }
        if let Some(item) = b.pool.items.get(n)
            && let Name::Numbered(word, k) = item_name(*item)
            && word == b"$y".as_slice()
        {
            return self.need_type(b, k);
        }
        Ok(())
    }

    fn need_node(&mut self, b: &Body<'_>, node: Node) -> Result<(), NoMemory> {
        match node {
            Node::Name(x) => self.need_name(&b.pool, x),
            Node::Str(bytes) => self.need_text(b, bytes.of(b.pool.bytes.as_slice())),
            _ => Ok(()),
        }
    }

    fn need_name(&mut self, pool: &Pool, x: Name) -> Result<(), NoMemory> {
        match x {
            Name::Word(word) => self.need_word(pool, word),
            Name::Numbered(word, n) => self.need(word, n),
        }
    }

    // The methods of a dynamic type, and its predeclared type; a report may tell its values.
    fn need_type(&mut self, b: &Body<'_>, t: u32) -> Result<(), NoMemory> {
        let mut row = self.methods.first_of_type(t);
        for _ in 0..self.methods.many() {
            if row == 0 {
                break;
            }
            self.tell_error(b, row - 1)?;
            if self.methods.is_used(row - 1) {
                self.need(b"$r", row - 1)?;
            }
            row = self.methods.next_of_type(row);
        }
        if let Held::Wide(_) = b.held(TypeId(t as u64)) {
            self.needs.wide = true;
            self.needs.need(b"$str64");
        }
        if let Some(plain) = predeclared(b, TypeId(t as u64)) {
            return self.need(b"$y", name_number(plain.0));
        }
        Ok(())
    }

    // A string may be the text under which a method is found.
    fn need_text(&mut self, b: &Body<'_>, text: &[u8]) -> Result<(), NoMemory> {
        if text.first() != Some(&b'$') {
            return Ok(());
        }
        let mut row = self.methods.use_text(b.pool.alloc, text)?;
        for _ in 0..self.methods.many() {
            if row == 0 {
                return Ok(());
            }
            if let Some(found) = b.facts.method_row(row - 1)
                && self.has(b"$y", name_number(found.ty.0))
            {
                self.need(b"$r", row - 1)?;
            }
            row = self.methods.next_of_text(row);
        }
        Ok(())
    }

    // A report calls a method `Error`, but for that of a run-time panic, whose text it is.
    fn tell_error(&mut self, b: &Body<'_>, number: u32) -> Result<(), NoMemory> {
        if let Some(row) = b.facts.method_row(number)
            && row.ty.0 != b.facts.program.hidden.0
            && is_error(b, row)
        {
            self.needs.errors = true;
            self.needs.errors_are_plain = !b.facts.is_marked(row.func);
            return self.need_text(b, b"$Error.:>1,");
        }
        Ok(())
    }
}

// Whether a report calls a method.
fn is_error(b: &Body<'_>, row: &MethodRow) -> bool {
    if row.name.as_bytes() != b"Error".as_slice() {
        return false;
    }
    match b.facts.func(row.func) {
        Some(f) => {
            f.sig.params.as_slice().is_empty() && f.sig.results.as_slice() == [STR].as_slice()
        }
        None => false,
    }
}

// How many expressions there were after an item.
fn end_of(pool: &Pool, n: usize) -> usize {
    match pool.ends.get(n) {
        Some(end) => *end,
        None => 0,
    }
}
