//! Methods of interfaces. Go, "Interface types".

use crate::struct_type::MOST_PARTS;
use gj_base::{NoMemory, Place, Text};
use go_check_state::{Checker, FaultCode, NONE, Shape};
use go_syntax::tree::Name;
use go_type::Sig;
use go_type::types::{MethodSpec, TypeId};

/// The methods of an interface type so far, what it embeds, and whether all are typed.
#[derive(Drop)]
pub struct InterfaceRows {
    specs: Vec<MethodSpec>,
    embedded: Vec<(Place, TypeId)>,
    known: bool,
}

/// No methods.
pub fn interface_rows(c: &Checker) -> InterfaceRows {
    InterfaceRows {
        specs: Vec::new(c.alloc),
        embedded: Vec::new(c.alloc),
        known: true,
    }
}

// Where a method goes among methods in order.
fn place_among(specs: &Vec<MethodSpec>, name: &Text, package: &Text) -> usize {
    for at in 0..specs.len() {
        if let Some(spec) = specs.get(at) {
            if !(spec.name < *name || spec.name == *name && spec.package < *package) {
                return at;
            }
        }
    }
    specs.len()
}

fn is_there(specs: &Vec<MethodSpec>, name: &Text, package: &Text) -> bool {
    specs
        .iter()
        .any(|spec| spec.name == *name && spec.package == *package)
}

/// One more method of an interface: F77 where one has the name. Past the limit of parts nothing is added.
pub fn add_method(
    c: &mut Checker,
    out: &mut InterfaceRows,
    name: &Name,
    t: TypeId,
) -> Result<(), NoMemory> {
    if out.specs.len() > MOST_PARTS {
        return Ok(());
    }
    let id = c.names.intern(name.text.as_bytes())?;
    let text = c.names.copy(id)?;
    let package = c.names.copy(c.package_of(id))?;
    if is_there(&out.specs, &text, &package) {
        out.known = false;
        return c.fault_of(FaultCode::Duplicate, name.place, id);
    }
    let Some(sig) = c.sig_copy(t)? else {
        out.known = false;
        return Ok(());
    };
    let spec = MethodSpec {
        name: text,
        package,
        sig,
    };
    insert_spec(&mut out.specs, spec)
}

// Puts a method in its place among methods in order.
fn insert_spec(specs: &mut Vec<MethodSpec>, spec: MethodSpec) -> Result<(), NoMemory> {
    let at = place_among(specs, &spec.name, &spec.package);
    if at <= specs.len() {
        specs.insert(at, spec)?;
    }
    Ok(())
}

/// One more embedded interface, which is merged at the end.
pub fn add_interface(out: &mut InterfaceRows, place: Place, t: TypeId) -> Result<(), NoMemory> {
    out.embedded.push((place, t))?;
    Ok(())
}

// The methods of an embedded interface: F51 where it is none, F77 where one differs from one of its name.
fn merge(
    c: &mut Checker,
    specs: &mut Vec<MethodSpec>,
    place: Place,
    t: TypeId,
) -> Result<bool, NoMemory> {
    let Shape::Interface(count) = c.shape(t) else {
        if c.has(t) {
            c.fault(FaultCode::NotAType, place)?;
        }
        return Ok(false);
    };
    let mut known = true;
    for number in 0..count {
        if specs.len() > MOST_PARTS {
            break;
        }
        known &= merge_one(c, specs, place, t, number)?;
    }
    Ok(known)
}

fn merge_one(
    c: &mut Checker,
    specs: &mut Vec<MethodSpec>,
    place: Place,
    t: TypeId,
    number: usize,
) -> Result<bool, NoMemory> {
    let (name, package, sig) = match c.method_spec(t, number) {
        Some(spec) => (
            spec.name.clone()?,
            spec.package.clone()?,
            copy_sig(c, &spec.sig)?,
        ),
        None => return Ok(false),
    };
    for spec in specs.iter() {
        if spec.name == name && spec.package == package {
            let same = same_sig(&spec.sig, &sig);
            if !same {
                let id = c.names.intern(name.as_bytes())?;
                c.fault_of(FaultCode::Duplicate, place, id)?;
            }
            return Ok(same);
        }
    }
    insert_spec(specs, MethodSpec { name, package, sig })?;
    Ok(true)
}

fn copy_sig(c: &Checker, sig: &Sig) -> Result<Sig, NoMemory> {
    let params = Vec::from_slice(c.alloc, sig.params.as_slice())?;
    let results = Vec::from_slice(c.alloc, sig.results.as_slice())?;
    Ok(Sig {
        params: go_type::Ids::from_vec(params),
        results: go_type::Ids::from_vec(results),
        variadic: sig.variadic,
    })
}

fn same_ids(a: &[TypeId], b: &[TypeId]) -> bool {
    a.len() == b.len() && a.iter().zip(b.iter()).all(|(x, y)| x.0 == y.0)
}

fn same_sig(a: &Sig, b: &Sig) -> bool {
    same_ids(a.params.as_slice(), b.params.as_slice())
        && same_ids(a.results.as_slice(), b.results.as_slice())
        && a.variadic == b.variadic
}

/// The interface type of members. Go, "Interface types".
pub fn interface_type(
    c: &mut Checker,
    place: Place,
    out: InterfaceRows,
) -> Result<TypeId, NoMemory> {
    let mut out = out;
    for number in 0..out.embedded.len() {
        if let Some((at, t)) = out.embedded.get(number).copied() {
            out.known &= merge(c, &mut out.specs, at, t)?;
        }
    }
    if !out.known {
        return Ok(NONE);
    }
    if out.specs.len() > MOST_PARTS {
        c.fault(FaultCode::TooManyParts, place)?;
        return Ok(NONE);
    }
    c.interface_of(out.specs)
}
