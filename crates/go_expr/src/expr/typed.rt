//! Expressions as they are typed.

ghost use Rattle.std.specs.Prelude.{◌≡◌, ◌≤◌, ◌<◌, ◌++◌, [], List, None, map, IfOk, IfSome, option_map};
ghost use Rattle.go_type.specs.Tree as ty;
ghost use Rattle.go_type.specs.Tree.{Ty};
ghost use Rattle.go_type.specs.Levels.{tree_of};
ghost use Rattle.go_type.specs.Table.{places, names, size, name_count, KeepsTrees};
ghost use Rattle.go_core.specs.CoreTree as core;
ghost use Rattle.go_core.specs.CoreView.{expr_view, exprs_view};
ghost use Rattle.go_syntax.specs.View as tree;
ghost use Rattle.go_typing.specs.Answer as go;
ghost use Rattle.go_typing.specs.Answer.{type_, does, own};
ghost use Rattle.go_typing.specs.Operand.{untyped_constant, settled_alone, pending_operand};
ghost use Rattle.go_typing.specs.Wanted.{settled_answer};
ghost use Rattle.go_operands.specs.RulesReady.{HasPredeclared};
ghost use Rattle.go_operands.specs.EnvView.{table_of, env_of, KeepsLiterals};
ghost use Rattle.go_operands.specs.AnswerView.{answer_view, flaw_view, pending_view, settled_view};
ghost use Rattle.go_operands.specs.Below.{AnswerBelow, SettledBelow};
ghost use Rattle.go_operands.specs.Parts.{PartBelow};
ghost use Rattle.go_calls.specs.Words.{types_of, names_of, scopes_of};
ghost use Rattle.go_expr.specs.Ready.{NumbersFit};
ghost use Rattle.go_expr.specs.Typed.{decided, fitted, result_of, faults_of, core_in, type_in, constant_in, print_in, print_view, fault_view, Shows};

use crate::expr::answered::part_in;
use crate::parts::stack::add_own;
use gj_base::{Fault, NoMemory, Place, Text};
use go_const::Const;
use go_core::node::{CoreExpr, CoreExprs};
use go_operands::answers::answer::{Answer, Flaw, Found, Operand, Pending, Settled};
use go_operands::answers::constant::constant_at;
use go_operands::answers::gone::gone_answer;
use go_operands::answers::passed::settled_alone;
use go_operands::nodes::gone::gone_expr;
use go_operands::nodes::leaf;
use go_operands::operands::part::Part;
use go_operands::operands::wanted::wanted;
use go_operands::rules::constant::basis_of;
use go_operands::scopes::Env;
use go_syntax::tree::Expr;
use go_type::TypeTable;
use go_type::predeclared::{NIL, untyped_id};
use go_type::types::{Basis, TypeId};
use std::alloc::Global;

/// Faults, in the order in which they are told.
#[derive(Debug, Drop)]
pub struct Faults {
    pub items: Vec<Fault>,
}

/// Places, in text order.
#[derive(Debug, Drop)]
pub struct Places {
    pub items: Vec<Place>,
}

/// A call of `println`, where it ends the line, or of `print`: a statement of its own.
pub struct Print {
    pub operands: CoreExprs,
    pub ends_line: bool,
}

/// An expression as it is typed.
pub struct Typed {
    /// None exactly where the expression isn't typed or is no value.
    pub core: Option<CoreExpr>,
    /// None exactly where the expression isn't typed or is neither a value nor a type.
    pub ty: Option<TypeId>,
    /// The constant that the expression is, if it is one.
    pub value: Option<Const>,
    /// A call of `print` or `println`, which has no type.
    pub prints: Option<Print>,
    /// The faults of the faulty nodes in the expression, and of the place that wants a value.
    pub faults: Faults,
    /// The places of the function literals in the expression, whose bodies are typed later.
    pub literals: Places,
}

fn gone_print(prints: Option<Print>) {
    match prints {
        Some(
            Print {
                operands,
                ends_line,
            },
        ) => gone_answer(Answer::Prints {
            operands,
            ends_line,
        }),
        None => {}
    }
}

/// Lets an expression go.
pub fn gone_typed(typed: Typed) {
    let Typed {
        core,
        ty: _ty,
        value: _value,
        prints,
        faults: _faults,
        literals: _literals,
    } = typed;
    match core {
        Some(core) => gone_expr(core),
        None => {}
    }
    gone_print(prints);
}

// ---- what an answer gives

fn of_core(alloc: Global, core: CoreExpr, ty: TypeId, value: Option<Const>, faults: Faults) -> Typed
    ensures shows { (ts : List Ty) → Shows ts (go.value (expr_view ts core) (tree_of ts ty) value) faults.items.items result }
{
    Typed {
        core: Some(core),
        ty: Some(ty),
        value,
        prints: None,
        faults,
        literals: Places {
            items: Vec::new(alloc),
        },
    }
}

fn of_type(alloc: Global, ty: TypeId, faults: Faults) -> Typed
    ensures shows { (ts : List Ty) → Shows ts (type_ (tree_of ts ty)) faults.items.items result }
{
    Typed {
        core: None,
        ty: Some(ty),
        value: None,
        prints: None,
        faults,
        literals: Places {
            items: Vec::new(alloc),
        },
    }
}

fn of_print(alloc: Global, operands: CoreExprs, ends_line: bool, faults: Faults) -> Typed
    ensures shows { (ts : List Ty) → Shows ts (does (core.print (exprs_view ts operands) ends_line)) faults.items.items result }
{
    Typed {
        core: None,
        ty: None,
        value: None,
        prints: Some(Print {
            operands,
            ends_line,
        }),
        faults,
        literals: Places {
            items: Vec::new(alloc),
        },
    }
}

// What is neither a value nor a type nor a statement.
fn of_nothing(alloc: Global, faults: Faults) -> Typed
    ensures core { result.core ≡ None }
    ensures ty { result.ty ≡ None }
    ensures value { result.value ≡ None }
    ensures prints { result.prints ≡ None }
    ensures faults { result.faults.items.items ≡ faults.items.items }
    ensures literals { result.literals.items.items ≡ [] }
{
    Typed {
        core: None,
        ty: None,
        value: None,
        prints: None,
        faults,
        literals: Places {
            items: Vec::new(alloc),
        },
    }
}

// The type of an untyped value.
fn untyped_type(table: &TypeTable, basis: Basis) -> TypeId
    requires { HasPredeclared table.now }
    ensures tree { tree_of (places table.now) result ≡ ty.untyped basis }
{
    let _ = table;
    untyped_id(basis)
}

fn nil_type(table: &TypeTable) -> TypeId
    requires { HasPredeclared table.now }
    ensures tree { tree_of (places table.now) result ≡ ty.nil }
{
    let _ = table;
    NIL
}

fn of_constant(
    alloc: Global,
    table: &TypeTable,
    k: Const,
    faults: Faults,
) -> Result<Typed, NoMemory>
    requires table { HasPredeclared table.now }
    ensures shows { IfOk result (Shows (places table.now) (untyped_constant k) faults.items.items) }
{
    let t = untyped_type(table, basis_of(&k));
    match constant_at(alloc, t, &k) {
        Ok(core) => Ok(of_core(alloc, core, t, Some(k), faults)),
        Err(error) => Err(error),
    }
}

fn of_nil(alloc: Global, table: &TypeTable, faults: Faults) -> Result<Typed, NoMemory>
    requires table { HasPredeclared table.now }
    ensures shows { IfOk result (Shows (places table.now) (go.value (core.zero_value ty.nil) ty.nil None) faults.items.items) }
{
    let t = nil_type(table);
    match leaf::zero(alloc, t) {
        Ok(core) => Ok(of_core(alloc, core, t, None, faults)),
        Err(error) => Err(error),
    }
}

fn typed_of(
    alloc: Global,
    table: &TypeTable,
    answer: Answer,
    faults: Faults,
) -> Result<Typed, NoMemory>
    requires table { HasPredeclared table.now }
    ensures shows { IfOk result (Shows (places table.now) (answer_view (places table.now) answer) faults.items.items) }
{
    match answer {
        Answer::Value(found) => {
            let Found { core, ty, value } = found;
            Ok(of_core(alloc, core, ty, value, faults))
        }
        Answer::Constant(k) => of_constant(alloc, table, k, faults),
        Answer::Truth(core) => {
            Ok(of_core(alloc, core, untyped_type(table, Basis::Bool), None, faults))
        }
        Answer::Nil => of_nil(alloc, table, faults),
        Answer::Type(t) => Ok(of_type(alloc, t, faults)),
        Answer::Prints {
            operands,
            ends_line,
        } => Ok(of_print(alloc, operands, ends_line, faults)),
        Answer::Pending(p, basis) => {
            gone_answer(Answer::Pending(p, basis));
            Ok(of_nothing(alloc, faults))
        }
        Answer::Package(_path) => Ok(of_nothing(alloc, faults)),
        Answer::BuiltIn(_function) => Ok(of_nothing(alloc, faults)),
        Answer::Blank => Ok(of_nothing(alloc, faults)),
        Answer::Wrong(_flaws) => Ok(of_nothing(alloc, faults)),
        Answer::Unknown => Ok(of_nothing(alloc, faults)),
    }
}

// ---- where a type is wanted, and where none is

fn settled_answer(table: &TypeTable, settled: Settled) -> Answer
    requires within { SettledBelow (size table.now) settled }
    ensures view { answer_view (places table.now) result ≡ settled_answer (settled_view (places table.now) settled) }
    ensures within { AnswerBelow (size table.now) result }
{
    let _ = table;
    match settled {
        Settled::Value(found) => Answer::Value(found),
        Settled::Refused(flaws) => Answer::Wrong(flaws),
    }
}

fn decided_number(
    alloc: Global,
    table: &TypeTable,
    at: Place,
    p: Pending,
    basis: Basis,
) -> Result<Answer, NoMemory>
    requires table { HasPredeclared table.now }
    ensures view { IfOk result (λ a. answer_view (places table.now) a ≡ settled_answer (settled_alone (names table.now) at (pending_operand (pending_view (places table.now) p) basis))) }
    ensures within { IfOk result (λ a. AnswerBelow (size table.now) a) }
{
    match settled_alone(alloc, table, at, Operand::Pending(p, basis)) {
        Ok(settled) => Ok(settled_answer(table, settled)),
        Err(error) => Err(error),
    }
}

// An untyped number whose type nothing decides has its default type.
fn decided(alloc: Global, table: &TypeTable, at: Place, answer: Answer) -> Result<Answer, NoMemory>
    requires table { HasPredeclared table.now }
    requires within { AnswerBelow (size table.now) answer }
    ensures view { IfOk result (λ a. answer_view (places table.now) a ≡ decided (names table.now) at (answer_view (places table.now) answer)) }
    ensures within { IfOk result (λ a. AnswerBelow (size table.now) a) }
{
    match answer {
        Answer::Pending(p, basis) => decided_number(alloc, table, at, p, basis),
        Answer::Wrong(_flaws) => Ok(Answer::Unknown),
        Answer::Value(found) => Ok(Answer::Value(found)),
        Answer::Constant(k) => Ok(Answer::Constant(k)),
        Answer::Truth(core) => Ok(Answer::Truth(core)),
        Answer::Nil => Ok(Answer::Nil),
        Answer::Type(t) => Ok(Answer::Type(t)),
        Answer::Package(path) => Ok(Answer::Package(path)),
        Answer::BuiltIn(function) => Ok(Answer::BuiltIn(function)),
        Answer::Blank => Ok(Answer::Blank),
        Answer::Prints {
            operands,
            ends_line,
        } => Ok(Answer::Prints {
            operands,
            ends_line,
        }),
        Answer::Unknown => Ok(Answer::Unknown),
    }
}

fn fitted(
    alloc: Global,
    table: &TypeTable,
    at: Place,
    ty: Option<TypeId>,
    answer: Answer,
) -> Result<Answer, NoMemory>
    requires table { HasPredeclared table.now }
    requires wanted { IfSome ty (λ t. t.0 < size table.now) }
    requires within { AnswerBelow (size table.now) answer }
    ensures view { IfOk result (λ a. answer_view (places table.now) a ≡ fitted (names table.now) at (option_map (tree_of (places table.now)) ty) (answer_view (places table.now) answer)) }
    ensures within { IfOk result (λ a. AnswerBelow (size table.now) a) }
{
    match ty {
        Some(t) => wanted(alloc, table, at, t, answer),
        None => decided(alloc, table, at, answer),
    }
}

// ---- faults

fn fault_of(alloc: Global, flaw: &Flaw) -> Result<Fault, NoMemory>
    ensures fault { IfOk result (λ f. fault_view f ≡ flaw_view flaw.now) }
{
    let text = Text::from_slice(alloc, flaw.name.as_bytes())?;
    Ok(Fault {
        place: flaw.place,
        code: flaw.code,
        text,
    })
}

fn faults_in(alloc: Global, flaws: &[Flaw]) -> Result<Faults, NoMemory>
    ensures faults { IfOk result (λ r. map fault_view r.items.items ≡ map flaw_view flaws.now) }
{
    let mut items = Vec::new(alloc);
    for flaw in flaws {
        let fault = fault_of(alloc, flaw)?;
        items.push(fault)?;
    }
    Ok(Faults { items })
}

// The faults in an expression, and then those of the place that wants its value.
fn all_faults(alloc: Global, flaws: Vec<Flaw>, answer: &Answer) -> Result<Faults, NoMemory>
    ensures faults { IfOk result (λ r. (ts : List Ty) → map fault_view r.items.items ≡ map flaw_view flaws.items ++ own (answer_view ts answer.now)) }
{
    let mut flaws = flaws;
    add_own(alloc, &mut flaws, answer)?;
    faults_in(alloc, flaws.as_slice())
}

fn told(alloc: Global, env: &Env, answer: Answer, flaws: Vec<Flaw>) -> Result<Typed, NoMemory>
    ensures shows { IfOk result (λ r. Shows (types_of env.now) (answer_view (types_of env.now) answer) r.faults.items.items r) }
    ensures faults { IfOk result (λ r. map fault_view r.faults.items.items ≡ map flaw_view flaws.items ++ own (answer_view (types_of env.now) answer)) }
{
    match all_faults(alloc, flaws, &answer) {
        Ok(faults) => typed_of(alloc, env.table(), answer, faults),
        Err(error) => {
            gone_answer(answer);
            Err(error)
        }
    }
}

fn fitted_part(alloc: Global, env: &Env, ty: Option<TypeId>, part: Part) -> Result<Answer, NoMemory>
    requires wanted { IfSome ty (λ t. t.0 < size (table_of env.now)) }
    requires within { PartBelow (size (table_of env.now)) part }
    ensures view { IfOk result (λ a. answer_view (types_of env.now) a ≡ fitted (names_of env.now) part.place (option_map (tree_of (types_of env.now)) ty) (answer_view (types_of env.now) part.answer)) }
{
    let Part { place, answer } = part;
    fitted(alloc, env.table(), place, ty, answer)
}

fn typed_in(
    alloc: Global,
    env: &Env,
    ty: Option<TypeId>,
    part: Part,
    flaws: Vec<Flaw>,
) -> Result<Typed, NoMemory>
    requires wanted { IfSome ty (λ t. t.0 < size (table_of env.now)) }
    requires within { PartBelow (size (table_of env.now)) part }
    ensures shows { IfOk result (λ r. Shows (types_of env.now) (fitted (names_of env.now) part.place (option_map (tree_of (types_of env.now)) ty) (answer_view (types_of env.now) part.answer)) r.faults.items.items r) }
    ensures faults { IfOk result (λ r. map fault_view r.faults.items.items ≡ map flaw_view flaws.items ++ own (fitted (names_of env.now) part.place (option_map (tree_of (types_of env.now)) ty) (answer_view (types_of env.now) part.answer))) }
{
    match fitted_part(alloc, env, ty, part) {
        Ok(answer) => told(alloc, env, answer, flaws),
        Err(error) => Err(error),
    }
}

/// Types an expression, where a value of a type is wanted if one is given: its core, its type and its
/// constant value, and exactly the faults of the faulty nodes in it, parts before what they are parts
/// of, and of the place that wants the value. Where memory runs out the table of types may have more
/// types, and keeps those that it had.
///
/// Go, "Expressions".
pub fn type_expr(
    alloc: Global,
    env: &mut Env,
    expr: &Expr,
    wanted: Option<TypeId>,
) -> Result<Typed, NoMemory>
    // Own: the lexical stage has refused greater numbers.
    requires numbers { NumbersFit (tree.expr_view expr.now) }
    requires wanted { IfSome wanted (λ t. t.0 < size (table_of env.old)) }
    ensures core { IfOk result (λ r. option_map (expr_view (types_of env.new)) r.core ≡ core_in (result_of (names_of env.new) (scopes_of env.new) (option_map (tree_of (types_of env.new)) wanted) (tree.expr_view expr.now))) }
    ensures ty { IfOk result (λ r. option_map (tree_of (types_of env.new)) r.ty ≡ type_in (result_of (names_of env.new) (scopes_of env.new) (option_map (tree_of (types_of env.new)) wanted) (tree.expr_view expr.now))) }
    ensures value { IfOk result (λ r. r.value ≡ constant_in (result_of (names_of env.new) (scopes_of env.new) (option_map (tree_of (types_of env.new)) wanted) (tree.expr_view expr.now))) }
    ensures prints { IfOk result (λ r. option_map (print_view (types_of env.new)) r.prints ≡ print_in (result_of (names_of env.new) (scopes_of env.new) (option_map (tree_of (types_of env.new)) wanted) (tree.expr_view expr.now))) }
    ensures faults { IfOk result (λ r. map fault_view r.faults.items.items ≡ faults_of (names_of env.new) (scopes_of env.new) (option_map (tree_of (types_of env.new)) wanted) (tree.expr_view expr.now)) }
    ensures literals { IfOk result (λ r. r.literals.items.items ≡ []) }

    // What is declared stays, and each type keeps its id.
    ensures env { env_of env.new ≡ env_of env.old }
    ensures kept { KeepsTrees (table_of env.old) (table_of env.new) }
    ensures counts { (size (table_of env.old) ≤ size (table_of env.new)) × (name_count (table_of env.new) ≡ name_count (table_of env.old)) }
    ensures numbers { KeepsLiterals env.old env.new }
{
    let mut flaws = Vec::new(alloc);
    match part_in(alloc, env, expr, &mut flaws) {
        Ok(part) => typed_in(alloc, env, wanted, part, flaws),
        Err(error) => Err(error),
    }
}
