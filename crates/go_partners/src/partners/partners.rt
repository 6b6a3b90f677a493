//! Partners: other goroutines that wait at an operation on a channel.
//!
//! The Go Programming Language Specification (as of Go 1.17), "Channel types", "Send statements",
//! "Receive operator". There are no waiting lists: a goroutine waits at its operation.

ghost use Rattle.std.specs.Prelude.{◌≡◌, ◌≤◌, ◌==◌, ◌&&◌, not, ℕ, [], ◌∷◌, List, length, map, option_map, slice_get};
ghost use Rattle.go_type.specs.Tree.{Ty};
ghost use Rattle.go_core.specs.Communicate as defined;
ghost use Rattle.go_core.specs.CoreTree.{CoreProgram};
ghost use Rattle.go_core.specs.Goroutine as core;
ghost use Rattle.go_core.specs.Memory.{Value};
ghost use Rattle.go_values.specs.ValuesSeen.{scalar_of, value_of};
ghost use Rattle.go_state.specs.StateSeen.{goroutine_of, move_of, offer_of, state_of, waiting_of};
ghost use Rattle.go_partners.specs.Sought.{test_of};

use go_state::state::state::{Goroutine, Move, Offer, State, Waiting};
use go_values::values::scalar::Scalar;

/// What an operation does.
#[derive(Clone, Copy)]
pub enum Side {
    Sends,
    Receives,
    Either,
}

fn channel_in(x: Scalar) -> Option<Option<u64>>
    ensures value { (ts : List Ty) → result ≡ defined.named_channel (scalar_of ts x.entry ∷ []) }
{
    match x {
        Scalar::Channel(name) => Some(Some(name)),
        Scalar::Nil => Some(None),
        _ => None,
    }
}

/// A channel by its place; a nil one has none.
pub fn named_channel(x: &[Scalar]) -> Option<Option<u64>>
    ensures value { (ts : List Ty) → result ≡ defined.named_channel (value_of ts x.now) }
{
    match x {
        [x] => channel_in(*x),
        _ => None,
    }
}

/// Whether a channel has this place.
pub fn same_name(channel: Option<u64>, name: u64) -> bool
    ensures value { result ≡ defined.same_name channel name }
{
    match channel {
        Some(found) => found == name,
        None => false,
    }
}

// Whether a send on a channel is an operation of the side on the one of this name.
fn is_sender(side: Side, name: u64, channel: Option<u64>) -> bool
    ensures value { (x : Value) (units : ℕ) (after : List core.Task) → result ≡ test_of side name (core.sending channel x units after) }
{
    match side {
        Side::Sends => same_name(channel, name),
        Side::Receives => false,
        Side::Either => same_name(channel, name),
    }
}

// Whether a receive is.
fn is_receiver(side: Side, name: u64, channel: Option<u64>) -> bool
    ensures value { (x : Value) (units n : ℕ) (after : List core.Task) → result ≡ test_of side name (core.receiving channel x units n after) }
{
    match side {
        Side::Sends => false,
        Side::Receives => same_name(channel, name),
        Side::Either => same_name(channel, name),
    }
}

// Whether an operation is one of the side, on the channel.
fn is_sought(side: Side, name: u64, offer: Offer) -> bool
    ensures value { (ts : List Ty) → result ≡ test_of side name (offer_of ts offer.entry) }
{
    match offer {
        Offer::Sending {
            channel,
            value: _,
            units: _,
            after: _,
        } => is_sender(side, name, channel),
        Offer::Receiving {
            channel,
            zero: _,
            units: _,
            values: _,
            after: _,
        } => is_receiver(side, name, channel),
    }
}

fn any_sought(side: Side, name: u64, offers: &[Offer]) -> bool
    ensures value { (ts : List Ty) → result ≡ defined.any_offer (test_of side name) (map (offer_of ts) offers.now) }
{
    'offers: for i in 0..offers.len() {
        if is_sought(side, name, offers[i]) {
            return true;
        }
    }
    false
}

/// Whether a goroutine waits at such an operation.
pub fn waits_so(side: Side, name: u64, waiting: &Waiting) -> bool
    ensures value { (ts : List Ty) → result ≡ defined.any_offer (test_of side name) (defined.offers_of (waiting_of ts waiting.now)) }
{
    match waiting {
        Waiting::AtChannels(offers) => any_sought(side, name, offers.as_slice()),
        Waiting::Able => false,
        Waiting::AtTake(_) => false,
        Waiting::AtAwait(_) => false,
    }
}

// Whether a goroutine is another one than `g`, and waits so.
fn is_partner(side: Side, name: u64, g: usize, at: usize, waiting: &Waiting) -> bool
    ensures value { (ts : List Ty) → result ≡ (not (g == at) && defined.any_offer (test_of side name) (defined.offers_of (waiting_of ts waiting.now))) }
{
    g != at && waits_so(side, name, waiting)
}

/// Whether another goroutine than this one waits so.
pub fn has_partner(side: Side, name: u64, g: usize, goroutines: &[Goroutine]) -> bool
    ensures value { (ts : List Ty) → result ≡ defined.has_partner (test_of side name) g 0 (map (goroutine_of ts) goroutines.now) }
{
    'goroutines: for i in 0..goroutines.len() {
        if is_partner(side, name, g, i, &goroutines[i].waiting) {
            return true;
        }
    }
    false
}

/// How many goroutines wait at an operation on the channel.
pub fn waiting_at(name: u64, goroutines: &[Goroutine]) -> u64
    ensures value { (ts : List Ty) (p : CoreProgram) (g : ℕ) (free : core.Move) → result ≡ defined.waiting_at p g free name (map (goroutine_of ts) goroutines.now) }
    ensures within { result ≤ length goroutines.now }
{
    let mut count = 0;
    'goroutines: for i in 0..goroutines.len() {
        if waits_so(Side::Either, name, &goroutines[i].waiting) {
            count += 1;
        }
    }
    count
}

// The way of this number among those at which a goroutine waits.
fn way_at<'p, 'a>(waiting: &Waiting<'p, 'a>, way: u64) -> Option<Offer<'p, 'a>>
    ensures value { (ts : List Ty) → option_map (offer_of ts) result ≡ slice_get (defined.offers_of (waiting_of ts waiting.now)) way }
{
    match waiting {
        Waiting::AtChannels(offers) => {
            if way < offers.len() as u64 {
                Some(offers[way as usize])
            } else {
                None
            }
        }
        Waiting::Able => None,
        Waiting::AtTake(_) => None,
        Waiting::AtAwait(_) => None,
    }
}

/// The partner's way that is meant, where it is another goroutine that waits so.
pub fn partner_offer<'p, 'a>(state: &State<'p, 'a>, g: usize, free: Move) -> Option<Offer<'p, 'a>>
    ensures value { (ts : List Ty) → option_map (offer_of ts) result ≡ defined.partner_offer g (move_of free) (state_of ts state.now) }
{
    if g as u64 == free.partner {
        return None;
    }
    if free.partner < state.goroutines.len() as u64 {
        return way_at(
            &state.goroutines[free.partner as usize].waiting,
            free.partner_way,
        );
    }
    None
}
