//! When an operation is ready.
//!
//! The Go Programming Language Specification (as of Go 1.17), "Send statements", "Receive operator",
//! "Select statements".

ghost use Rattle.std.specs.Prelude.{◌≡◌, ◌&&◌, List, Some, IfOk, map};
ghost use Rattle.go_type.specs.Tree.{Ty};
ghost use Rattle.go_core.specs.Communicate as defined;
ghost use Rattle.go_values.specs.ValuesSeen.{channel_of};
ghost use Rattle.go_state.specs.StateSeen.{offer_of, state_of};

use crate::partners::partners::{Side, has_partner};
use gj_base::NoMemory;
use go_state::state::state::{Offer, State};
use go_values::values::memory::Channel;
use std::alloc::Global;

// Whether a partner counts, on an open channel of capacity 0.
fn meets(channel: &Channel, partner: bool) -> bool
    ensures value { (ts : List Ty) → result ≡ defined.meets (channel_of ts channel.now) partner }
{
    channel.capacity == 0 && !channel.closed && partner
}

// It is closed, or has room, or has a partner.
fn send_ready(channel: &Channel, partner: bool) -> bool
    ensures value { (ts : List Ty) → result ≡ defined.send_ready (Some (channel_of ts channel.now)) partner }
{
    if channel.closed {
        return true;
    }
    if (channel.values.len() as u64) < channel.capacity {
        return true;
    }
    meets(channel, partner)
}

// It holds a value, or is closed, or has a partner.
fn receive_ready(channel: &Channel, partner: bool) -> bool
    ensures value { (ts : List Ty) → result ≡ defined.receive_ready (Some (channel_of ts channel.now)) partner }
{
    if !channel.values.is_empty() {
        return true;
    }
    if channel.closed {
        return true;
    }
    meets(channel, partner)
}

// Whether a send on a channel can proceed.
fn can_send(state: &State, g: usize, channel: Option<u64>) -> bool
    ensures value { (ts : List Ty) → let s = state_of ts state.now in result ≡ defined.send_ready (defined.channel_at channel s.memory) (defined.partner_for defined.receives_from channel g s) }
{
    match channel {
        Some(name) => {
            if name < state.memory.channels.len() as u64 {
                let partner = has_partner(Side::Receives, name, g, state.goroutines.as_slice());
                return send_ready(&state.memory.channels[name as usize], partner);
            }
            false
        }
        None => false,
    }
}

// Whether a receive from a channel can.
fn can_receive(state: &State, g: usize, channel: Option<u64>) -> bool
    ensures value { (ts : List Ty) → let s = state_of ts state.now in result ≡ defined.receive_ready (defined.channel_at channel s.memory) (defined.partner_for defined.sends_to channel g s) }
{
    match channel {
        Some(name) => {
            if name < state.memory.channels.len() as u64 {
                let partner = has_partner(Side::Sends, name, g, state.goroutines.as_slice());
                return receive_ready(&state.memory.channels[name as usize], partner);
            }
            false
        }
        None => false,
    }
}

/// Whether a goroutine's operation can proceed.
pub fn offer_ready(state: &State, g: usize, offer: Offer) -> bool
    ensures value { (ts : List Ty) → result ≡ defined.offer_ready g (state_of ts state.now) (offer_of ts offer.entry) }
{
    match offer {
        Offer::Sending {
            channel,
            value: _,
            units: _,
            after: _,
        } => can_send(state, g, channel),
        Offer::Receiving {
            channel,
            zero: _,
            units: _,
            values: _,
            after: _,
        } => can_receive(state, g, channel),
    }
}

/// The places of those ways that are ready.
pub fn ready_ways(
    alloc: Global,
    state: &State,
    g: usize,
    offers: &[Offer],
) -> Result<Vec<u64>, NoMemory>
    ensures value { IfOk result (λ ways. (ts : List Ty) → ways.items ≡ defined.ready_ways g (state_of ts state.now) 0 (map (offer_of ts) offers.now)) }
{
    let mut ways = Vec::new(alloc);
    'offers: for i in 0..offers.len() {
        if offer_ready(state, g, offers[i]) {
            ways.push(i as u64)?;
        }
    }
    Ok(ways)
}

/// Whether one of the ways is ready.
pub fn any_ready(state: &State, g: usize, offers: &[Offer]) -> bool
    ensures value { (ts : List Ty) → result ≡ defined.any_ready g (state_of ts state.now) (map (offer_of ts) offers.now) }
{
    'offers: for i in 0..offers.len() {
        if offer_ready(state, g, offers[i]) {
            return true;
        }
    }
    false
}
