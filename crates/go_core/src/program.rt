//! The whole core program.
//!
//! The Go Programming Language Specification (as of Go 1.17), "Packages", "Declarations and scope".

use crate::node::{CoreExpr, VarId, Vars};
use crate::statement::CoreStmts;
use crate::tree::FuncId;
use gj_base::{Place, Text};
use go_type::TypeTable;
use go_type::types::{Sig, TypeId};

/// Variables by their numbers.
#[derive(Drop)]
pub struct VarIds {
    pub items: Vec<VarId>,
}

/// A function. `vars` are the receiver, the parameters, the results, and then what it declares.
#[derive(Drop)]
pub struct Func {
    /// The name that is told of it; empty for a function that the compiler makes.
    pub name: Text,
    pub sig: Sig,
    pub vars: Vars,
    pub captured: VarIds,
    pub body: CoreStmts,
    pub place: Place,
}

/// Functions by number.
#[derive(Drop)]
pub struct Funcs {
    pub items: Vec<Func>,
}

/// A package variable. Of those that one expression sets, the first alone holds the initialiser.
#[derive(Drop)]
pub struct PackageVar {
    pub name: Text,
    pub package: Text,
    pub ty: TypeId,
    pub place: Place,
    pub initialiser: Option<CoreExpr>,
    /// The variables that the initialiser declares.
    pub vars: Vars,
    /// Its number of declaration in its package, and that of the first variable of its initialiser.
    pub number: u64,
    pub first: u64,
}

/// The package variables of the program.
#[derive(Drop)]
pub struct PackageVars {
    pub items: Vec<PackageVar>,
}

/// Paths of packages.
#[derive(Drop)]
pub struct Texts {
    pub items: Vec<Text>,
}

/// Functions by their numbers, in order.
#[derive(Drop)]
pub struct FuncIds {
    pub items: Vec<FuncId>,
}

/// A package: its path, which is empty for the root, what it imports, and its `init` functions in
/// the order of the text.
#[derive(Drop)]
pub struct PackageRow {
    pub path: Text,
    pub imports: Texts,
    pub inits: FuncIds,
}

/// The packages of the program.
#[derive(Drop)]
pub struct PackageRows {
    pub items: Vec<PackageRow>,
}

/// A method of a type with its function. Its package is empty for an exported name.
#[derive(Drop)]
pub struct MethodRow {
    pub ty: TypeId,
    pub name: Text,
    pub package: Text,
    pub func: FuncId,
}

/// The methods of the program.
#[derive(Drop)]
pub struct MethodRows {
    pub items: Vec<MethodRow>,
}

/// A whole program. `hidden` is the type of run-time panics.
#[derive(Drop)]
pub struct Program {
    pub types: TypeTable,
    pub funcs: Funcs,
    pub globals: PackageVars,
    pub methods: MethodRows,
    pub main: FuncId,
    pub packages: PackageRows,
    pub hidden: TypeId,
}

/// What is done before `main`: a package variable is set, with those that its initialiser sets too,
/// or an `init` function is called.
#[derive(Clone, Copy, Debug, PartialEq, Eq)]
pub enum InitStep {
    Initialise(u64),
    Call(FuncId),
}

/// The initialisers and `init` functions, in the order in which they run.
#[derive(Drop)]
pub struct InitSteps {
    pub items: Vec<InitStep>,
}

/// A set of variables.
#[derive(Drop)]
pub struct VarSet {
    pub items: Vec<VarId>,
}
