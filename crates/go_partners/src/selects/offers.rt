//! The ways in which operations can proceed.
//!
//! The Go Programming Language Specification (as of Go 1.17), "Send statements", "Receive operator",
//! "Select statements".

ghost use Rattle.std.specs.Prelude.{◌≡◌, ◌≤◌, ◌++◌, [], ◌∷◌, ℕ, Some, IfOk, OnOk, length, option_and_then};
ghost use Rattle.go_type.specs.Levels.{tree_of};
ghost use Rattle.go_type.specs.Table.{places, names};
ghost use Rattle.go_core.specs.Communicate as defined;
ghost use Rattle.go_core.specs.CoreTree as tree;
ghost use Rattle.go_core.specs.CoreTree.{CoreProgram};
ghost use Rattle.go_core.specs.Goroutine as core;
ghost use Rattle.go_core.specs.CoreView.{stmts_view};
ghost use Rattle.go_core.specs.Layout.{shape_of};
ghost use Rattle.go_core.specs.Opened.{cases_of};
ghost use Rattle.go_state.specs.TasksSeen.{case_view, cases_view};
ghost use Rattle.go_values.specs.ValuesSeen.{value_of, values_of};
ghost use Rattle.go_state.specs.StateSeen.{after_of, offer_of, vars_of};
ghost use Rattle.go_partners.specs.Ways.{AreOffers, IsOffer, IsWay, offers_by_first};

use crate::partners::partners::named_channel;
use gj_base::NoMemory;
use go_core::statement::{Communication, CoreCase, CoreCases, CoreStmts};
use go_state::state::state::{Clause, Offer};
use go_type::types::{GoType, TypeId};
use go_values::operators::did::{Context, Stop};
use go_values::operators::places::{weight_of, zeros_of};
use go_values::values::level::{level_at, underlying};
use go_values::values::scalar::Scalar;

// The type of a channel's elements.
fn element_of(c: &Context, t: TypeId) -> TypeId
    ensures value { (p : CoreProgram) (g : ℕ) (free : core.Move) → p.names ≡ names c.now.table.now → let ts = places c.now.table.now in shape_of p.names (tree_of ts result) ≡ defined.element_shape p g free (tree_of ts t) }
{
    let under = underlying(c.table, t);
    match level_at(c.table, under) {
        Some(GoType::Chan(_, element)) => *element,
        _ => under,
    }
}

/// A send.
pub fn send_offer<'p, 'a>(
    c: &Context<'a>,
    t: TypeId,
    channel: Option<u64>,
    value: &'a [Scalar<'a>],
    after: Option<Clause<'p>>,
) -> Result<Offer<'p, 'a>, NoMemory>
    ensures value { IfOk result (λ o. (p : CoreProgram) (g : ℕ) (free : core.Move) → p.names ≡ names c.now.table.now → let ts = places c.now.table.now in offer_of ts o ≡ defined.send_offer p g free (tree_of ts t) channel (value_of ts value.now) (after_of ts after.entry)) }
{
    let units = weight_of(c, element_of(c, t))?;
    Ok(Offer::Sending {
        channel,
        value,
        units,
        after,
    })
}

/// A receive of so many values.
pub fn receive_offer<'p, 'a>(
    c: &Context<'a>,
    t: TypeId,
    channel: Option<u64>,
    values: u64,
    after: Option<Clause<'p>>,
) -> Result<Offer<'p, 'a>, NoMemory>
    ensures value { IfOk result (λ o. (p : CoreProgram) (g : ℕ) (free : core.Move) → p.names ≡ names c.now.table.now → let ts = places c.now.table.now in offer_of ts o ≡ defined.receive_offer p g free (tree_of ts t) channel values (after_of ts after.entry)) }
{
    let element = element_of(c, t);
    let zero = zeros_of(c, element)?;
    let units = weight_of(c, element)?;
    Ok(Offer::Receiving {
        channel,
        zero,
        units,
        values,
        after,
    })
}

// The way of a clause that sends, which takes the channel and the value.
fn sending<'p, 'a>(
    c: &Context<'a>,
    t: TypeId,
    channel: &[Scalar<'a>],
    value: &'a [Scalar<'a>],
    after: Clause<'p>,
) -> Result<Offer<'p, 'a>, Stop>
    ensures value { (p : CoreProgram) (g : ℕ) (free : core.Move) → p.names ≡ names c.now.table.now → let ts = places c.now.table.now in IsOffer ts result (option_and_then (λ name. Some (defined.send_offer p g free (tree_of ts t) name (value_of ts value.now) (after_of ts (Some after.entry)))) (defined.named_channel (value_of ts channel.now))) }
{
    match named_channel(channel) {
        Some(name) => {
            let offer = send_offer(c, t, name, value, Some(after))?;
            Ok(offer)
        }
        None => Err(Stop::NoStep),
    }
}

// The way of a clause that receives, which takes the channel.
fn receiving<'p, 'a>(
    c: &Context<'a>,
    t: TypeId,
    channel: &[Scalar<'a>],
    after: Clause<'p>,
) -> Result<Offer<'p, 'a>, Stop>
    ensures value { (p : CoreProgram) (g : ℕ) (free : core.Move) → p.names ≡ names c.now.table.now → let ts = places c.now.table.now in IsOffer ts result (option_and_then (λ name. Some (defined.receive_offer p g free (tree_of ts t) name (length after.entry.vars.now) (after_of ts (Some after.entry)))) (defined.named_channel (value_of ts channel.now))) }
{
    match named_channel(channel) {
        Some(name) => {
            let offer = receive_offer(c, t, name, after.vars.len() as u64, Some(after))?;
            Ok(offer)
        }
        None => Err(Stop::NoStep),
    }
}

/// A way of a clause, and how many operands it took.
#[derive(Clone, Copy)]
pub struct Way<'p, 'a> {
    pub offer: Offer<'p, 'a>,
    pub count: usize,
}

// The way of a clause that sends takes a channel and a value.
fn sent_by<'p, 'a>(
    c: &Context<'a>,
    t: TypeId,
    body: &'p CoreStmts,
    vs: &[&'a [Scalar<'a>]],
) -> Result<Way<'p, 'a>, Stop>
    ensures value { (p : CoreProgram) (g : ℕ) (free : core.Move) → p.names ≡ names c.now.table.now → let ts = places c.now.table.now in IsWay ts vs.now result (λ others. defined.offers_by p g free (core.case_sends (tree_of ts t)) (stmts_view ts body.now) (values_of ts vs.now) others) }
    ensures within { IfOk result (λ w. w.count ≤ length vs.now) }
{
    if vs.len() < 2 {
        return Err(Stop::NoStep);
    }
    let after = Clause { vars: &[], body };
    let offer = sending(c, t, vs[0], vs[1], after)?;
    Ok(Way { offer, count: 2 })
}

// The way of a clause that receives takes a channel.
fn received_by<'p, 'a>(
    c: &Context<'a>,
    t: TypeId,
    after: Clause<'p>,
    vs: &[&'a [Scalar<'a>]],
) -> Result<Way<'p, 'a>, Stop>
    ensures value { (p : CoreProgram) (g : ℕ) (free : core.Move) → p.names ≡ names c.now.table.now → let ts = places c.now.table.now in IsWay ts vs.now result (λ others. defined.offers_by p g free (core.case_receives (tree_of ts t) (vars_of ts after.entry.vars.now)) (stmts_view ts after.entry.body.now) (values_of ts vs.now) others) }
    ensures within { IfOk result (λ w. w.count ≤ length vs.now) }
{
    if vs.is_empty() {
        return Err(Stop::NoStep);
    }
    let offer = receiving(c, t, vs[0], after)?;
    Ok(Way { offer, count: 1 })
}

// The way of a clause, which takes the first operands.
fn offer_by<'p, 'a>(
    c: &Context<'a>,
    case: &'p CoreCase,
    vs: &[&'a [Scalar<'a>]],
) -> Result<Way<'p, 'a>, Stop>
    ensures value { (p : CoreProgram) (g : ℕ) (free : core.Move) → p.names ≡ names c.now.table.now → let ts = places c.now.table.now in let k = cases_of (case_view ts case.now tree.no_cases) in IsWay ts vs.now result (λ others. offers_by_first (defined.offers_by p g free) k (values_of ts vs.now) others) }
    ensures within { IfOk result (λ w. w.count ≤ length vs.now) }
{
    match &case.communication {
        Communication::Send { channel, .. } => sent_by(c, *channel, &case.body, vs),
        Communication::Receive { channel, vars, .. } => {
            let after = Clause {
                vars: vars.items.as_slice(),
                body: &case.body,
            };
            received_by(c, *channel, after, vs)
        }
    }
}

// One more way.
fn add<'p, 'a>(offers: &mut Vec<Offer<'p, 'a>>, offer: Offer<'p, 'a>) -> Result<(), NoMemory>
    ensures value { OnOk result (offers.new.items ≡ offers.old.items ++ offer.entry ∷ []) }
{
    offers.push(offer)?;
    Ok(())
}

/// The ways of the clauses of a select, in the order of the text, with their operands.
pub fn offers_from<'p, 'a>(
    c: &Context<'a>,
    cases: &'p CoreCases,
    vs: &[&'a [Scalar<'a>]],
) -> Result<Vec<Offer<'p, 'a>>, Stop>
    ensures value { (p : CoreProgram) (g : ℕ) (free : core.Move) → p.names ≡ names c.now.table.now → let ts = places c.now.table.now in AreOffers ts result (defined.offers_from p g free (cases_of (cases_view ts cases.now)) (values_of ts vs.now)) }
{
    let mut offers = Vec::new(c.alloc);
    let mut at: usize = 0;
    'clauses: for i in 0..cases.items.len() {
        let way = offer_by(c, &cases.items[i], &vs[at..])?;
        add(&mut offers, way.offer)?;
        at += way.count;
    }
    if at != vs.len() {
        return Err(Stop::NoStep);
    }
    Ok(offers)
}
