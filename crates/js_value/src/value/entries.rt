//! Values under names, in the order in which they were set first.

ghost use Rattle.std.specs.Prelude.{◌≡◌, OnOk, IfOk, option_map, is_some, position, bytes_eq};
ghost use Rattle.js_tree.specs.Value.{lookup, with_entry, without_entry};
ghost use Rattle.js_value.specs.ValueSeen.{str_bytes, value_of, entries_of};

use crate::value::value::{Str, Value};
use gj_base::NoMemory;

/// A value under a name.
#[derive(Drop)]
pub struct Entry<'a> {
    pub name: Str<'a>,
    pub value: Value<'a>,
}

fn place(entries: &[Entry], name: &[u8]) -> Option<usize>
    ensures value { result ≡ position (λ e. bytes_eq name.now (str_bytes e.name)) entries.now }
{
    entries.iter().position(|e| name == e.name.as_bytes())
}

/// Whether there is a value under a name.
pub fn has(entries: &[Entry], name: &[u8]) -> bool
    ensures value { result ≡ is_some (lookup name.now (entries_of entries.now)) }
{
    place(entries, name).is_some()
}

/// The value under a name.
pub fn lookup<'a>(entries: &[Entry<'a>], name: &[u8]) -> Result<Option<Value<'a>>, NoMemory>
    ensures value { IfOk result (λ v. option_map value_of v ≡ lookup name.now (entries_of entries.now)) }
{
    match place(entries, name) {
        Some(i) => {
            let value = entries[i].value.again()?;
            Ok(Some(value))
        }
        None => Ok(None),
    }
}

/// Puts a value under a name.
pub fn set<'a>(
    entries: &mut Vec<Entry<'a>>,
    name: Str<'a>,
    value: Value<'a>,
) -> Result<(), NoMemory>
    ensures value { OnOk result (entries_of entries.new.items ≡ with_entry (str_bytes name.entry) (value_of value.entry) (entries_of entries.old.items)) }
{
    match place(entries.as_slice(), name.as_bytes()) {
        Some(i) => {
            entries[i] = Entry { name, value };
            Ok(())
        }
        None => {
            entries.push(Entry { name, value })?;
            Ok(())
        }
    }
}

/// Takes away what is under a name.
pub fn remove(entries: &mut Vec<Entry>, name: &[u8])
    ensures value { entries_of entries.new.items ≡ without_entry name.now (entries_of entries.old.items) }
{
    entries.retain(|e| name != e.name.as_bytes());
}
