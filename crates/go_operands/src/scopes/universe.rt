//! The universe scope.
//!
//! Go, "Predeclared identifiers".

ghost use Rattle.std.specs.Prelude.{◌≡◌, OnOk, IfOk};
ghost use Rattle.go_operands.specs.Held.{declare_held};
ghost use Rattle.go_operands.specs.Holds.{held};
ghost use Rattle.go_operands.specs.Universe.{predeclared, first_types, signed_types, unsigned_types, values, first_functions, last_functions, universe_held, declare_all};

use crate::rules::builtin::Builtin;
use crate::scopes::declared::Declared;
use crate::scopes::scope::Scope;
use gj_base::{NoMemory, Place, Text};
use go_const::Const;
use go_type::types::TypeId;
use std::alloc::Global;

const BOOL: TypeId = TypeId(0);

const STRING: TypeId = TypeId(1);

const UNTYPED_BOOL: TypeId = TypeId(3);

const INT: TypeId = TypeId(7);

const INT8: TypeId = TypeId(8);

const INT16: TypeId = TypeId(9);

const INT32: TypeId = TypeId(10);

const INT64: TypeId = TypeId(11);

const UINT: TypeId = TypeId(12);

const UINT8: TypeId = TypeId(13);

const UINT16: TypeId = TypeId(14);

const UINT32: TypeId = TypeId(15);

const UINT64: TypeId = TypeId(16);

const UINTPTR: TypeId = TypeId(17);

// Own: predeclared names stand nowhere.
fn predeclare(alloc: Global, scope: &mut Scope, name: &[u8], what: Declared) -> Result<(), NoMemory>
    ensures value { OnOk result (held scope.new ≡ declare_held (predeclared name.now what) (held scope.old)) }
{
    let name = Text::from_slice(alloc, name)?;
    scope.declare(name, Place { file: 0, offset: 0 }, what)?;
    Ok(())
}

fn first_types(alloc: Global, scope: &mut Scope) -> Result<(), NoMemory>
    ensures value { OnOk result (held scope.new ≡ declare_all (held scope.old) first_types) }
{
    predeclare(alloc, scope, b"bool", Declared::TypeName(BOOL))?;
    predeclare(alloc, scope, b"byte", Declared::TypeName(UINT8))?;
    predeclare(alloc, scope, b"complex64", Declared::Refused(71))?;
    predeclare(alloc, scope, b"complex128", Declared::Refused(71))?;
    predeclare(alloc, scope, b"error", Declared::Refused(0))?;
    predeclare(alloc, scope, b"float32", Declared::Refused(71))?;
    predeclare(alloc, scope, b"float64", Declared::Refused(71))
}

fn signed_types(alloc: Global, scope: &mut Scope) -> Result<(), NoMemory>
    ensures value { OnOk result (held scope.new ≡ declare_all (held scope.old) signed_types) }
{
    predeclare(alloc, scope, b"int", Declared::TypeName(INT))?;
    predeclare(alloc, scope, b"int8", Declared::TypeName(INT8))?;
    predeclare(alloc, scope, b"int16", Declared::TypeName(INT16))?;
    predeclare(alloc, scope, b"int32", Declared::TypeName(INT32))?;
    predeclare(alloc, scope, b"int64", Declared::TypeName(INT64))?;
    predeclare(alloc, scope, b"rune", Declared::TypeName(INT32))?;
    predeclare(alloc, scope, b"string", Declared::TypeName(STRING))
}

fn unsigned_types(alloc: Global, scope: &mut Scope) -> Result<(), NoMemory>
    ensures value { OnOk result (held scope.new ≡ declare_all (held scope.old) unsigned_types) }
{
    predeclare(alloc, scope, b"uint", Declared::TypeName(UINT))?;
    predeclare(alloc, scope, b"uint8", Declared::TypeName(UINT8))?;
    predeclare(alloc, scope, b"uint16", Declared::TypeName(UINT16))?;
    predeclare(alloc, scope, b"uint32", Declared::TypeName(UINT32))?;
    predeclare(alloc, scope, b"uint64", Declared::TypeName(UINT64))?;
    predeclare(alloc, scope, b"uintptr", Declared::TypeName(UINTPTR))
}

fn values(alloc: Global, scope: &mut Scope) -> Result<(), NoMemory>
    ensures value { OnOk result (held scope.new ≡ declare_all (held scope.old) values) }
{
    let yes = Declared::Const(Const::Bool(true), UNTYPED_BOOL);
    let no = Declared::Const(Const::Bool(false), UNTYPED_BOOL);
    predeclare(alloc, scope, b"true", yes)?;
    predeclare(alloc, scope, b"false", no)?;
    predeclare(alloc, scope, b"nil", Declared::Nil)
}

fn first_functions(alloc: Global, scope: &mut Scope) -> Result<(), NoMemory>
    ensures value { OnOk result (held scope.new ≡ declare_all (held scope.old) first_functions) }
{
    predeclare(alloc, scope, b"append", Declared::Builtin(Builtin::Append))?;
    predeclare(alloc, scope, b"cap", Declared::Builtin(Builtin::Cap))?;
    predeclare(alloc, scope, b"close", Declared::Builtin(Builtin::Close))?;
    predeclare(
        alloc,
        scope,
        b"complex",
        Declared::Builtin(Builtin::Complex),
    )?;
    predeclare(alloc, scope, b"copy", Declared::Builtin(Builtin::Copy))?;
    predeclare(alloc, scope, b"delete", Declared::Builtin(Builtin::Delete))?;
    predeclare(alloc, scope, b"imag", Declared::Builtin(Builtin::Imag))?;
    predeclare(alloc, scope, b"len", Declared::Builtin(Builtin::Len))
}

fn last_functions(alloc: Global, scope: &mut Scope) -> Result<(), NoMemory>
    ensures value { OnOk result (held scope.new ≡ declare_all (held scope.old) last_functions) }
{
    predeclare(alloc, scope, b"make", Declared::Builtin(Builtin::Make))?;
    predeclare(alloc, scope, b"new", Declared::Builtin(Builtin::New))?;
    predeclare(alloc, scope, b"panic", Declared::Builtin(Builtin::Panic))?;
    predeclare(alloc, scope, b"print", Declared::Builtin(Builtin::Print))?;
    predeclare(
        alloc,
        scope,
        b"println",
        Declared::Builtin(Builtin::Println),
    )?;
    predeclare(alloc, scope, b"real", Declared::Builtin(Builtin::Real))?;
    predeclare(
        alloc,
        scope,
        b"recover",
        Declared::Builtin(Builtin::Recover),
    )
}

/// The universe scope outside of constant specifications.
pub fn universe(alloc: Global) -> Result<Scope, NoMemory>
    ensures value { IfOk result (λ s. held s ≡ universe_held) }
{
    let mut scope = Scope::new(alloc);
    first_types(alloc, &mut scope)?;
    signed_types(alloc, &mut scope)?;
    unsigned_types(alloc, &mut scope)?;
    values(alloc, &mut scope)?;
    first_functions(alloc, &mut scope)?;
    last_functions(alloc, &mut scope)?;
    Ok(scope)
}
