//! Statements that hold no others.
//!
//! Go, "Statements".

ghost use Rattle.std.specs.Prelude.{◌≡◌, true, List, map};
ghost use Rattle.go_type.specs.Tree.{Ty};
ghost use Rattle.go_type.specs.Levels.{tree_of};
ghost use Rattle.go_type.specs.Underlying.{underlying};
ghost use Rattle.go_core.specs.CoreTree as core;
ghost use Rattle.go_core.specs.CoreView.{expr_view, stmt_form_view, communication_view, var_of};
ghost use Rattle.go_core.specs.SoundNode.{AreDeclarable};
ghost use Rattle.go_core.specs.Sound.{Gives, IsChannelOf, ReceivesInto, SoundExpr, SoundStmt, SoundCommunication};
ghost use Rattle.go_sound_nodes.specs.Around.{around, program_in, trees_in};
ghost use Rattle.go_sound_nodes.specs.Known.{Knows};

use crate::judge::Judge;
use crate::round::Round;
use crate::targets::{all_print, counts, receives_into};
use go_core::node::{CoreExpr, Var};
use go_core::statement::{Communication, CoreStmtForm};
use go_sound_parts::given::gives;
use go_sound_parts::parts::{
    gives_channel, gives_int, gives_interface, gives_text, key_fits, sent_fits,
};
use go_type::types::TypeId;

impl<'a> Judge<'a> {
    /// Whether a statement that holds no others is sound.
    pub fn plain(&self, round: &Round<'_>, form: &CoreStmtForm) -> bool
        ensures is { Knows self.now → result ≡ true → SoundStmt (program_in self.now) (around self.now round.now) (stmt_form_view (trees_in self.now) form.now) }
    {
        match form {
            CoreStmtForm::Perform { operand, values } => {
                self.expr(round, operand) && counts(&self.program.types, operand, *values)
            }
            CoreStmtForm::Declare(v) => self.may_declare(*v) && self.is_good(v.ty),
            CoreStmtForm::Store { targets, values } => {
                self.exprs(round, values) && self.all_take(round, targets, values)
            }
            CoreStmtForm::MapDelete {
                map_type,
                operand,
                key,
            } => {
                self.expr(round, operand)
                    && self.expr(round, key)
                    && gives(&self.program.types, operand, *map_type)
                    && key_fits(self.program, *map_type, key)
            }
            CoreStmtForm::Branch { kind, label } => self.has_target(round, *kind, *label),
            CoreStmtForm::Send {
                channel,
                operand,
                value,
            } => {
                self.expr(round, operand)
                    && self.expr(round, value)
                    && gives(&self.program.types, operand, *channel)
                    && sent_fits(self.program, *channel, value)
            }
            CoreStmtForm::Close(e) => self.expr(round, e) && gives_channel(self.program, e),
            CoreStmtForm::GateTake(cell) => self.gate(round, cell),
            CoreStmtForm::GateAwait(cell) => self.gate(round, cell),
            CoreStmtForm::Yield => true,
            CoreStmtForm::GoCall { callee, operands } => {
                self.callee(round, callee)
                    && self.exprs(round, operands)
                    && self.start_fits(round, callee, operands)
            }
            CoreStmtForm::DeferCall { callee, operands } => {
                self.callee(round, callee)
                    && self.exprs(round, operands)
                    && self.start_fits(round, callee, operands)
            }
            CoreStmtForm::Return(values) => self.exprs(round, values) && self.returns(values),
            CoreStmtForm::Panic(e) => self.expr(round, e) && gives_interface(self.program, e),
            CoreStmtForm::Print { operands, .. } => {
                self.exprs(round, operands) && all_print(self.program, operands)
            }
            CoreStmtForm::Exit(e) => self.expr(round, e) && gives_int(self.program, e),
            CoreStmtForm::Fatal(e) => self.expr(round, e) && gives_text(self.program, e),
            _ => false,
        }
    }

    // An operand that gives a value of a type.
    fn operand(&self, round: &Round<'_>, e: &CoreExpr, t: TypeId) -> bool
        ensures is { let q = program_in self.now in let ts = trees_in self.now in Knows self.now → result ≡ true → SoundExpr q (around self.now round.now) (expr_view ts e.now) × Gives q (expr_view ts e.now) (tree_of ts t) }
    {
        self.expr(round, e) && gives(&self.program.types, e, t)
    }

    // What a channel is sent.
    fn sent(&self, round: &Round<'_>, channel: TypeId, value: &CoreExpr) -> bool
        ensures is { let q = program_in self.now in let ts = trees_in self.now in Knows self.now → result ≡ true → SoundExpr q (around self.now round.now) (expr_view ts value.now) × (u : Ty) × Gives q (expr_view ts value.now) u × IsChannelOf (underlying q.names (tree_of ts channel)) u }
    {
        self.expr(round, value) && sent_fits(self.program, channel, value)
    }

    // Fresh variables that what a channel gives goes to.
    fn goes_to(&self, channel: TypeId, vars: &[Var]) -> bool
        ensures is { let q = program_in self.now in let ts = trees_in self.now in let vs = map (var_of ts) vars.now in result ≡ true → AreDeclarable vs (map (var_of ts) self.now.declarable.now) × (u : Ty) × IsChannelOf (underlying q.names (tree_of ts channel)) u × ReceivesInto u vs }
    {
        self.may_declare_all(vars) && receives_into(self.program, channel, vars)
    }

    fn sends(
        &self,
        round: &Round<'_>,
        channel: TypeId,
        operand: &CoreExpr,
        value: &CoreExpr,
    ) -> bool
        ensures is { let ts = trees_in self.now in Knows self.now → result ≡ true → SoundCommunication (program_in self.now) (around self.now round.now) (core.sends (tree_of ts channel) (expr_view ts operand.now) (expr_view ts value.now)) }
    {
        self.operand(round, operand, channel) && self.sent(round, channel, value)
    }

    fn receives(&self, round: &Round<'_>, channel: TypeId, operand: &CoreExpr, vars: &[Var]) -> bool
        ensures is { let ts = trees_in self.now in Knows self.now → result ≡ true → SoundCommunication (program_in self.now) (around self.now round.now) (core.receives (tree_of ts channel) (expr_view ts operand.now) (map (var_of ts) vars.now)) }
    {
        self.operand(round, operand, channel) && self.goes_to(channel, vars)
    }

    /// Whether the communication of a clause is sound.
    pub fn communication(&self, round: &Round<'_>, c: &Communication) -> bool
        ensures is { Knows self.now → result ≡ true → SoundCommunication (program_in self.now) (around self.now round.now) (communication_view (trees_in self.now) c.now) }
    {
        match c {
            Communication::Send {
                channel,
                operand,
                value,
            } => self.sends(round, *channel, operand, value),
            Communication::Receive {
                channel,
                operand,
                vars,
            } => self.receives(round, *channel, operand, vars.items.as_slice()),
        }
    }
}
