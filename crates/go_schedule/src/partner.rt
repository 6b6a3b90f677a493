//! The partner of an operation on a channel: of the goroutines that wait at the opposite operation,
//! the one that has waited longest.
//!
//! Go, "Channel types", "Send statements", "Receive operator".

use go_partners::partners::partners::{Side, same_name};
use go_state::state::state::{Offer, State, Waiting};

/// A goroutine that waits, and which of its ways is meant.
#[derive(Clone, Copy)]
pub struct Partner {
    pub goroutine: u64,
    pub way: u64,
}

// Whether a way is an operation of the side on the channel.
fn is_meant(offer: Offer, side: Side, name: u64) -> bool {
    match offer {
        Offer::Sending { channel, .. } => match side {
            Side::Sends => same_name(channel, name),
            _ => false,
        },
        Offer::Receiving { channel, .. } => match side {
            Side::Receives => same_name(channel, name),
            _ => false,
        },
    }
}

// The first such way.
fn way_in(offers: &[Offer], side: Side, name: u64) -> Option<u64> {
    'offers: for i in 0..offers.len() {
        if is_meant(offers[i], side, name) {
            return Some(i as u64);
        }
    }
    None
}

// The first such way of a goroutine.
fn way_of(waiting: &Waiting, side: Side, name: u64) -> Option<u64> {
    match waiting {
        Waiting::AtChannels(offers) => way_in(offers.as_slice(), side, name),
        _ => None,
    }
}

// When a goroutine began to wait; never, where it says nothing.
fn began(since: &[u64], g: usize) -> u64 {
    if g < since.len() { since[g] } else { u64::MAX }
}

/// The partner of a goroutine's operation, whose side it is. `since` says of each goroutine in which
/// step it began to wait.
pub fn partner_of(
    state: &State,
    g: usize,
    side: Side,
    name: u64,
    since: &[u64],
) -> Option<Partner> {
    let mut found = None;
    let mut earliest = u64::MAX;
    'goroutines: for i in 0..state.goroutines.len() {
        let from = began(since, i);
        if i != g && from < earliest {
            if let Some(way) = way_of(&state.goroutines[i].waiting, side, name) {
                earliest = from;
                found = Some(Partner {
                    goroutine: i as u64,
                    way,
                });
            }
        }
    }
    found
}
