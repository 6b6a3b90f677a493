//! Statements that hold others.
//!
//! Go, "Statements", "Blocks", "Declarations and scope".

ghost use Rattle.std.specs.Prelude.{◌≡◌, true, List, ℕ, IfOk, OnOk, map, option_map};
ghost use Rattle.go_type.specs.Tree.{Ty};
ghost use Rattle.go_core.specs.CoreTree.{Stmts, stmt};
ghost use Rattle.go_core.specs.CoreView.{bound_of, expr_view, stmt_view, stmts_view, tests_of, var_of, option_var, communication_view};
ghost use Rattle.go_type.specs.Levels.{tree_of};
ghost use Rattle.go_core.specs.SoundNode.{Around, IsBool, with_all};
ghost use Rattle.go_core.specs.Sound.{SoundStmt, SoundStmts, SoundClauses, SoundCases, SoundTests, SoundCondition, HasDefault, HasClause, after_stmt, vars_of, SoundExpr, GivesSome, IsNew};
ghost use Rattle.go_sound_nodes.specs.ListView.{clauses_view, cases_view};
ghost use Rattle.go_sound_nodes.specs.Around.{around, program_in, trees_in};
ghost use Rattle.go_sound_nodes.specs.Known.{Knows};
ghost use Rattle.go_sound_nodes.specs.Statements.{with_option, Ranges};

use crate::judge::Judge;
use crate::round::Round;
use crate::targets::{is_ranged, key_goes, reads_array, value_goes};
use gj_base::NoMemory;
use go_core::node::{CoreExpr, Var};
use go_core::statement::{
    Communication, CoreCases, CoreClauses, CoreStmt, CoreStmtForm, CoreStmts, CoreTest, CoreTests,
    Label,
};
use go_sound_parts::given::gives;
use go_sound_parts::parts::gives_bool;
use go_type::types::TypeId;

// The variable that a statement declares.
fn declared(s: &CoreStmt) -> Option<Var>
    ensures is { (ts : List Ty) (a : Around) → after_stmt (stmt_view ts s.now) a ≡ with_option (option_map (var_of ts) result) a }
{
    match &*s.form {
        CoreStmtForm::Declare(v) => Some(*v),
        _ => None,
    }
}

// The variable that a statement declares comes after those that were declared before it.
fn declare(vars: &mut Vec<Var>, s: &CoreStmt) -> Result<(), NoMemory>
    ensures is { OnOk result ((ts : List Ty) (a : Around) → after_stmt (stmt_view ts s.now) (with_all (map (var_of ts) vars.old.items) a) ≡ with_all (map (var_of ts) vars.new.items) a) }
{
    match declared(s) {
        Some(v) => {
            vars.push(v)?;
            Ok(())
        }
        None => Ok(()),
    }
}

// The variables of a clause of a select.
fn received(c: &Communication) -> &[Var]
    ensures is { (ts : List Ty) → map (var_of ts) result.now ≡ vars_of (communication_view ts c.now) }
{
    match c {
        Communication::Send { .. } => &[],
        Communication::Receive { vars, .. } => vars.items.as_slice(),
    }
}

fn has_clause(list: &CoreClauses, number: u32) -> bool
    ensures is { result ≡ true → (ts : List Ty) → HasClause (clauses_view ts list.now) number }
{
    (number as usize) < list.items.len()
}

fn has_default(list: &CoreClauses, default: Option<u32>) -> bool
    ensures is { result ≡ true → (ts : List Ty) → HasDefault (clauses_view ts list.now) default }
{
    match default {
        Some(number) => has_clause(list, number),
        None => true,
    }
}

impl<'a> Judge<'a> {
    fn truth(&self, round: &Round<'_>, e: &CoreExpr) -> bool
        ensures is { Knows self.now → result ≡ true → SoundExpr (program_in self.now) (around self.now round.now) (expr_view (trees_in self.now) e.now) × GivesSome (program_in self.now) (expr_view (trees_in self.now) e.now) IsBool }
    {
        self.expr(round, e) && gives_bool(self.program, e)
    }

    fn condition(&self, round: &Round<'_>, e: &Option<CoreExpr>) -> bool
        ensures is { Knows self.now → result ≡ true → SoundCondition (program_in self.now) (around self.now round.now) (bound_of (option_map (expr_view (trees_in self.now)) e.now)) }
    {
        match e {
            Some(e) => self.truth(round, e),
            None => true,
        }
    }

    // A test in front of the clauses that it chooses from.
    fn test(&self, round: &Round<'_>, test: &CoreTest, clauses: &CoreClauses) -> bool
        ensures is { let ts = trees_in self.now in Knows self.now → result ≡ true → SoundExpr (program_in self.now) (around self.now round.now) (expr_view ts test.now.condition) × GivesSome (program_in self.now) (expr_view ts test.now.condition) IsBool × HasClause (clauses_view ts clauses.now) test.now.clause }
    {
        self.truth(round, &test.condition) && has_clause(clauses, test.clause)
    }

    // Tests in front of the clauses that they choose from.
    fn tests(&self, round: &Round<'_>, list: &CoreTests, clauses: &CoreClauses) -> bool
        ensures is { let ts = trees_in self.now in Knows self.now → result ≡ true → SoundTests (program_in self.now) (around self.now round.now) (tests_of ts list.now.items.items) (clauses_view ts clauses.now) }
    {
        for test in &list.items {
            if !self.test(round, test, clauses) {
                return false;
            }
        }
        true
    }

    // The tests and the default of a switch.
    fn chooses(
        &self,
        round: &Round<'_>,
        tests: &CoreTests,
        clauses: &CoreClauses,
        default: Option<u32>,
    ) -> bool
        ensures is { let ts = trees_in self.now in Knows self.now → result ≡ true → SoundTests (program_in self.now) (around self.now round.now) (tests_of ts tests.now.items.items) (clauses_view ts clauses.now) × HasDefault (clauses_view ts clauses.now) default }
    {
        self.tests(round, tests, clauses) && has_default(clauses, default)
    }

    // A switch without the bodies of its clauses.
    fn switches(
        &self,
        round: &Round<'_>,
        label: Label,
        tests: &CoreTests,
        clauses: &CoreClauses,
        default: Option<u32>,
    ) -> bool
        ensures is { let ts = trees_in self.now in let a = around self.now round.now in Knows self.now → result ≡ true → IsNew label.0 a × SoundTests (program_in self.now) a (tests_of ts tests.now.items.items) (clauses_view ts clauses.now) × HasDefault (clauses_view ts clauses.now) default }
    {
        self.is_new(round, label) && self.chooses(round, tests, clauses, default)
    }

    // What is ranged over, and where its keys and values go.
    fn ranges(
        &self,
        round: &Round<'_>,
        from: TypeId,
        e: &CoreExpr,
        key: &Option<Var>,
        value: &Option<Var>,
    ) -> bool
        ensures is { Knows self.now → result ≡ true → Ranges (program_in self.now) (around self.now round.now) (tree_of (trees_in self.now) from) (expr_view (trees_in self.now) e.now) (option_var (trees_in self.now) key.now) (option_var (trees_in self.now) value.now) }
    {
        self.expr(round, e)
            && gives(&self.program.types, e, from)
            && is_ranged(self.program, from)
            && key_goes(self.program, round, from, key)
            && value_goes(self.program, round, from, value)
            && reads_array(self.program, from, value)
    }

    /// Whether a statement is sound.
    #[cycle(stmt)]
    fn stmt(&self, round: &Round<'_>, s: &CoreStmt) -> Result<bool, NoMemory>
        ensures is { Knows self.now → IfOk result (λ b. b ≡ true → SoundStmt (program_in self.now) (around self.now round.now) (stmt_view (trees_in self.now) s.now)) }
    {
        match &*s.form {
            CoreStmtForm::Seq(list) => self.stmts(round, list),
            CoreStmtForm::If {
                condition,
                when_true,
                when_false,
            } => {
                if !self.truth(round, condition) || !self.stmts(round, when_true)? {
                    return Ok(false);
                }
                self.stmts(round, when_false)
            }
            CoreStmtForm::Loop {
                label,
                condition,
                body,
                post,
            } => {
                if !self.is_new(round, *label) || !self.condition(round, condition) {
                    return Ok(false);
                }
                if !self.stmts(&self.in_loop(*label, &*round), body)? {
                    return Ok(false);
                }
                self.stmts(round, post)
            }
            CoreStmtForm::SwitchOn {
                label,
                tests,
                clauses,
                default,
            } => {
                if !self.switches(round, *label, tests, clauses, *default) {
                    return Ok(false);
                }
                self.clauses(&self.in_break(*label, &*round), clauses)
            }
            CoreStmtForm::RangeNext {
                label,
                from,
                operand,
                key,
                value,
                body,
            } => {
                if !self.is_new(round, *label) || !self.ranges(round, *from, operand, key, value) {
                    return Ok(false);
                }
                self.stmts(&self.in_loop(*label, &*round), body)
            }
            CoreStmtForm::Labeled { label, body } => {
                if !self.is_new(round, *label) {
                    return Ok(false);
                }
                self.stmts(&self.in_break(*label, &*round), body)
            }
            CoreStmtForm::SelectStep {
                label,
                cases,
                default,
                ..
            } => {
                if !self.is_new(round, *label)
                    || !self.cases(&self.in_break(*label, &*round), cases)?
                {
                    return Ok(false);
                }
                self.stmts(&self.in_break(*label, &*round), default)
            }
            form => Ok(self.plain(round, form)),
        }
    }

    /// Whether statements are sound, one after another.
    #[cycle(stmt)]
    pub fn stmts(&self, round: &Round<'_>, list: &CoreStmts) -> Result<bool, NoMemory>
        ensures is { Knows self.now → IfOk result (λ b. b ≡ true → SoundStmts (program_in self.now) (around self.now round.now) (stmts_view (trees_in self.now) list.now)) }
    {
        let mut vars = Vec::new(self.alloc);
        for s in &list.items {
            if !self.next(round, &mut vars, s)? {
                return Ok(false);
            }
        }
        Ok(true)
    }

    // A statement after those that declared these variables.
    #[cycle(stmt)]
    fn next(&self, round: &Round<'_>, vars: &mut Vec<Var>, s: &CoreStmt) -> Result<bool, NoMemory>
        ensures is { let q = program_in self.now in let ts = trees_in self.now in let a = around self.now round.now in Knows self.now → IfOk result (λ b. b ≡ true → (rest : Stmts) → SoundStmts q (with_all (map (var_of ts) vars.new.items) a) rest → SoundStmts q (with_all (map (var_of ts) vars.old.items) a) (stmt (stmt_view ts s.now) rest)) }
    {
        if !self.stmt(&self.among(vars.as_slice(), &*round), s)? {
            return Ok(false);
        }
        declare(vars, s)?;
        Ok(true)
    }

    #[cycle(stmt)]
    fn clauses(&self, round: &Round<'_>, list: &CoreClauses) -> Result<bool, NoMemory>
        ensures is { Knows self.now → IfOk result (λ b. b ≡ true → SoundClauses (program_in self.now) (around self.now round.now) (clauses_view (trees_in self.now) list.now)) }
    {
        for c in &list.items {
            if !self.stmts(round, &c.body)? {
                return Ok(false);
            }
        }
        Ok(true)
    }

    // What a clause receives is in scope in its body alone.
    #[cycle(stmt)]
    fn cases(&self, round: &Round<'_>, list: &CoreCases) -> Result<bool, NoMemory>
        ensures is { Knows self.now → IfOk result (λ b. b ≡ true → SoundCases (program_in self.now) (around self.now round.now) (cases_view (trees_in self.now) list.now)) }
    {
        for c in &list.items {
            if !self.communication(round, &c.communication) {
                return Ok(false);
            }
            if !self.stmts(&self.among(received(&c.communication), &*round), &c.body)? {
                return Ok(false);
            }
        }
        Ok(true)
    }
}
