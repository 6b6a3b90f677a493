//! Values under names, in the order in which they were set first. A look-up takes the same time
//! however many there are.

ghost use Rattle.std.specs.Prelude.{◌≡◌, OnOk, option_map, is_some};
ghost use Rattle.js_tree.specs.Value.{lookup, with_entry, without_entry};
ghost use Rattle.js_value.specs.HeapSeen.{value_of, entries_of};

use crate::heap::value::Value;
use gj_base::NoMemory;
use indexmap::IndexMap;

/// A dictionary.
pub type Entries<'a> = IndexMap<&'a [u8], Value<'a>>;

/// The value under a name.
pub fn lookup<'a>(entries: &Entries<'a>, name: &'a [u8]) -> Option<Value<'a>>
    ensures value { option_map value_of result ≡ lookup name.now (entries_of entries.now.entries) }
{
    entries.get(&name).copied()
}

/// Whether there is a value under a name.
pub fn has<'a>(entries: &Entries<'a>, name: &'a [u8]) -> bool
    ensures value { result ≡ is_some (lookup name.now (entries_of entries.now.entries)) }
{
    lookup(entries, name).is_some()
}

/// Puts a value under a name.
pub fn set<'a>(entries: &mut Entries<'a>, name: &'a [u8], value: Value<'a>) -> Result<(), NoMemory>
    ensures value { OnOk result (entries_of entries.new.entries ≡ with_entry name.now (value_of value.entry) (entries_of entries.old.entries)) }
{
    entries.insert(name, value)?;
    Ok(())
}

/// Takes away what is under a name.
pub fn remove<'a>(entries: &mut Entries<'a>, name: &'a [u8])
    ensures value { entries_of entries.new.entries ≡ without_entry name.now (entries_of entries.old.entries) }
{
    let _lost = entries.shift_remove(&name);
}
