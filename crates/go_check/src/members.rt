//! The members of a type by its own fields and by embedding. Go, "Struct types", "Selectors".

use crate::promoted::home_of;
use gj_base::NoMemory;
use go_check_state::state::{MethodEntry, joined};
use go_check_state::ways::{Stop, Ways};
use go_check_state::{Checker, NONE, NameId, Shape};
use go_type::types::{NamedId, TypeId};
use std::collections::HashMap;

/// The numbers of each named type's methods: that of the last one by the type's number, and from each that
/// of the one before it.
#[derive(Drop)]
pub struct OwnMethods {
    last: HashMap<u64, usize>,
    before: Vec<Option<usize>>,
}

/// The methods by their types.
pub fn own_methods(c: &Checker) -> Result<OwnMethods, NoMemory> {
    let mut own = OwnMethods {
        last: HashMap::new(c.alloc),
        before: Vec::new(c.alloc),
    };
    for number in 0..c.methods.len() {
        if let Some(entry) = c.methods.get(number) {
            own.before.push(own.last.get(&entry.named).copied())?;
            own.last.insert(entry.named, number)?;
        }
    }
    Ok(own)
}

/// A field or a method that is nearest among those of its name.
#[derive(Clone, Copy, Debug)]
pub struct Member {
    name: NameId,
    package: NameId,
    /// The stop that has it, and where those of the same distance begin.
    stop: usize,
    start: usize,
    /// Whether there are several at this distance.
    several: bool,
    /// The signature of a method.
    sig: Option<TypeId>,
    /// Whether a method is one of the type's values too, not of pointers alone.
    pub of_value: bool,
}

impl Member {
    /// The name, its package and the signature, where it is a method that is promoted.
    pub fn promoted(&self) -> Option<(NameId, NameId, TypeId)> {
        match self.sig {
            Some(sig) if self.stop > 0 && !self.several => Some((self.name, self.package, sig)),
            _ => None,
        }
    }
}

// The members so far, and their numbers by name and package.
#[derive(Drop)]
struct Found {
    rows: Vec<Member>,
    numbers: HashMap<u64, usize>,
}

impl Found {
    // One more member, which one that is nearer hides.
    fn add(&mut self, member: Member) -> Result<(), NoMemory> {
        let key = joined(member.package.0, member.name.0);
        match self.numbers.get(&key).copied() {
            None => {
                self.numbers.insert(key, self.rows.len())?;
                self.rows.push(member)?;
            }
            Some(number) => {
                if let Some(row) = self.rows.as_mut_slice().get_mut(number) {
                    if row.start == member.start {
                        row.several = true;
                    }
                }
            }
        }
        Ok(())
    }
}

/// The members of a type, the nearest of each name.
pub fn members(c: &mut Checker, own: &OwnMethods, t: TypeId) -> Result<Vec<Member>, NoMemory> {
    let mut ways = Ways::new(c.alloc, t)?;
    let mut found = Found {
        rows: Vec::new(c.alloc),
        numbers: HashMap::new(c.alloc),
    };
    for _ in 0..u64::MAX {
        for number in ways.start..ways.stops.len() {
            if let Some(stop) = ways.stops.get(number).copied() {
                let member = member_of(stop, number, ways.start);
                declared(c, own, &mut found, member, stop.ty)?;
                listed(c, &mut found, member, stop.ty)?;
            }
        }
        if !ways.go_on(c)? {
            break;
        }
    }
    Ok(found.rows)
}

// A member of a stop, whose name isn't known yet.
fn member_of(stop: Stop, number: usize, start: usize) -> Member {
    Member {
        name: NameId(0),
        package: NameId(0),
        stop: number,
        start,
        several: stop.several,
        sig: None,
        of_value: stop.indirect,
    }
}

// The methods that are declared for a type.
fn declared(
    c: &mut Checker,
    own: &OwnMethods,
    found: &mut Found,
    member: Member,
    t: TypeId,
) -> Result<(), NoMemory> {
    let Shape::Named(id) = c.level(t) else {
        return Ok(());
    };
    let mut at = own.last.get(&id.0).copied();
    for _ in 0..c.methods.len() {
        let Some(number) = at else { return Ok(()) };
        if let Some(entry) = c.methods.get(number).copied() {
            found.add(declared_member(c, member, id, entry)?)?;
        }
        at = own.before.get(number).copied().unwrap_or(None);
    }
    Ok(())
}

fn declared_member(
    c: &mut Checker,
    member: Member,
    id: NamedId,
    entry: MethodEntry,
) -> Result<Member, NoMemory> {
    Ok(Member {
        name: entry.name,
        package: home_of(c, id, entry.name)?,
        sig: Some(entry.sig),
        of_value: member.of_value || !entry.pointer,
        ..member
    })
}

// The fields of a struct, or the methods of an interface.
fn listed(c: &mut Checker, found: &mut Found, member: Member, t: TypeId) -> Result<(), NoMemory> {
    match c.shape(t) {
        Shape::Struct(count) => {
            for number in 0..count {
                let (name, package) = field_name(c, t, number)?;
                found.add(Member {
                    name,
                    package,
                    ..member
                })?;
            }
            Ok(())
        }
        Shape::Interface(count) => {
            for number in 0..count {
                let (name, package, sig) = method_name(c, t, number)?;
                found.add(Member {
                    name,
                    package,
                    sig: Some(sig),
                    of_value: true,
                    ..member
                })?;
            }
            Ok(())
        }
        _ => Ok(()),
    }
}

fn field_name(c: &mut Checker, t: TypeId, number: usize) -> Result<(NameId, NameId), NoMemory> {
    let (name, package) = match c.field(t, number) {
        Some(row) => (row.name.clone()?, row.package.clone()?),
        None => return Ok((NameId(0), NameId(0))),
    };
    let name = c.names.intern(name.as_bytes())?;
    let package = c.names.intern(package.as_bytes())?;
    Ok((name, package))
}

fn method_name(
    c: &mut Checker,
    t: TypeId,
    number: usize,
) -> Result<(NameId, NameId, TypeId), NoMemory> {
    let (name, package, params, results, variadic) = match c.method_spec(t, number) {
        Some(spec) => (
            spec.name.clone()?,
            spec.package.clone()?,
            Vec::from_slice(c.alloc, spec.sig.params.as_slice())?,
            Vec::from_slice(c.alloc, spec.sig.results.as_slice())?,
            spec.sig.variadic,
        ),
        None => return Ok((NameId(0), NameId(0), NONE)),
    };
    let name = c.names.intern(name.as_bytes())?;
    let package = c.names.intern(package.as_bytes())?;
    let sig = c.func_of(params, results, variadic)?;
    Ok((name, package, sig))
}
