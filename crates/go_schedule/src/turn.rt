//! What Go leaves free at the next step of a goroutine.
//!
//! Go, "Select statements", "Appending to and copying slices", "For statements with range clause".

ghost use Rattle.std.specs.Prelude.{◌≡◌, IfOk, IfSome, false};
ghost use Rattle.go_state.specs.Measure.{opens};
ghost use Rattle.go_state.specs.TasksSeen.{is_opened};

use crate::partner::partner_of;
use crate::schedule::is_able;
use gj_base::NoMemory;
use go_entries::doing::doing::doing;
use go_entries::doing::task::Doing;
use go_partners::partners::partners::{Side, named_channel};
use go_partners::partners::ready::{offer_ready, ready_ways};
use go_partners::selects::offers::offers_from;
use go_slices::composites::operator::Operator;
use go_state::frame_steps::parts::Select;
use go_state::state::frame::{Cursor, Frame, Todo};
use go_state::state::next::next_todo;
use go_state::state::state::{Goroutine, Move, Offer, State, Waiting};
use go_state::tasks::task::Task;
use go_values::operators::did::{Context, Stop};
use go_values::values::memory::{Entry, Memory};
use go_values::values::scalar::Scalar;

/// The least capacity that an append gives a new array.
const LEAST_CAPACITY: u64 = 4;

/// A move, and whether the goroutine lets the others go first after it.
#[derive(Clone, Copy)]
pub struct Chosen {
    pub free: Move,
    pub yields: bool,
}

/// A goroutine whose turn it is, and what its move is chosen by.
#[derive(Clone, Copy)]
pub struct Turn<'s, 'p, 'a> {
    pub c: &'s Context<'a>,
    pub g: usize,
    /// The numbers of `select` statements, one more than were taken.
    pub choices: &'s [u64],
    /// When each goroutine began to wait.
    pub since: &'s [u64],
    pub state: &'s State<'p, 'a>,
}

// The next step of the running frame, which stays first of its tasks.
fn peek<'p, 'a>(frames: &mut Vec<Frame<'p, 'a>>) -> Result<Option<Todo<'p, 'a>>, NoMemory>
    ensures closed { IfOk result (λ r. IfSome r (λ t. opens t ≡ false)) }
{
    let Some(frame) = frames.pop() else {
        return Ok(None);
    };
    let Frame {
        func,
        mut tasks,
        mut values,
        places,
        deferred,
        results,
        mode,
        purpose,
    } = frame;
    let next = next_todo(&mut tasks, &mut values)?;
    if let Some(todo) = next {
        tasks.push(todo)?;
    }
    frames.push(Frame {
        func,
        tasks,
        values,
        places,
        deferred,
        results,
        mode,
        purpose,
    })?;
    Ok(next)
}

/// The next step of a goroutine that is able, which stays where it is. What stands before it and is
/// no step is passed over.
pub fn next_step<'p, 'a>(
    state: &mut State<'p, 'a>,
    g: usize,
) -> Result<Option<Todo<'p, 'a>>, NoMemory>
    ensures closed { IfOk result (λ r. IfSome r (λ t. opens t ≡ false)) }
{
    if g >= state.goroutines.len() {
        return Ok(None);
    }
    if !is_able(&state.goroutines[g]) {
        return Ok(None);
    }
    peek(&mut state.goroutines[g].frames)
}

fn doubled(slice: Scalar) -> u64 {
    match slice {
        Scalar::Slice { capacity, .. } => capacity.saturating_mul(2),
        _ => LEAST_CAPACITY,
    }
}

// The capacity of the new array of an append to a slice: twice that of the old one.
fn capacity_after(slice: &[Scalar]) -> u64 {
    match slice {
        [slice] => doubled(*slice),
        _ => LEAST_CAPACITY,
    }
}

// The same of the slice that lies so deep, from 1 on.
fn capacity_at(values: &[&[Scalar]], depth: usize) -> u64 {
    if depth == 0 || depth > values.len() {
        return LEAST_CAPACITY;
    }
    capacity_after(values[values.len() - depth])
}

// The channel that lies so deep, from 1 on.
fn channel_at(values: &[&[Scalar]], depth: usize) -> Option<u64> {
    if depth == 0 || depth > values.len() {
        return None;
    }
    named_channel(values[values.len() - depth]).unwrap_or(None)
}

// Whether a birth comes after all that were produced, the last one first.
fn is_after(birth: u64, produced: &[u64]) -> bool {
    match produced {
        [] => true,
        [last, ..] => *last < birth,
    }
}

// The first birth after those that were produced.
fn birth_in(entries: &[Entry], produced: &[u64], since: u64) -> Option<u64> {
    'entries: for i in 0..entries.len() {
        let birth = entries[i].birth;
        if birth < since && is_after(birth, produced) {
            return Some(birth);
        }
    }
    None
}

// The same of a map, where it isn't nil.
fn next_birth(memory: &Memory, map: Option<u64>, produced: &[u64], since: u64) -> Option<u64> {
    match map {
        Some(name) if name < memory.maps.len() as u64 => birth_in(
            memory.maps[name as usize].entries.as_slice(),
            produced,
            since,
        ),
        _ => None,
    }
}

// The values of the running frame.
fn values_in<'s, 'p, 'a>(goroutine: &'s Goroutine<'p, 'a>) -> &'s [&'a [Scalar<'a>]] {
    match goroutine.frames.as_slice() {
        [.., frame] => frame.values.as_slice(),
        [] => &[],
    }
}

// The same of such a goroutine, if there is one.
fn values_of<'s, 'p, 'a>(state: &'s State<'p, 'a>, g: usize) -> &'s [&'a [Scalar<'a>]] {
    if g >= state.goroutines.len() {
        return &[];
    }
    values_in(&state.goroutines[g])
}

impl<'s, 'p, 'a> Turn<'s, 'p, 'a> {
    /// The move of a goroutine with this next step; where it has none, it waits, or its frame ends.
    pub fn chosen(self, next: Option<Todo<'p, 'a>>) -> Result<Chosen, NoMemory>
        requires { IfSome next (λ t. opens t ≡ false) }
    {
        match next {
            Some(todo) => self.of_todo(todo),
            None => Ok(self.waiting()),
        }
    }

    fn of_todo(self, todo: Todo<'p, 'a>) -> Result<Chosen, NoMemory>
        requires { opens todo ≡ false }
    {
        match todo {
            Todo::Text(task) => self.of_task(task),
            Todo::NextRange(_, cursor) => Ok(self.of_range(cursor)),
            _ => Ok(self.plain()),
        }
    }

    // A move at which nothing is free.
    fn plain(self) -> Chosen {
        Chosen {
            free: Move {
                goroutine: self.g as u64,
                way: 0,
                partner: 0,
                partner_way: 0,
                capacity: 0,
                birth: None,
            },
            yields: false,
        }
    }

    // ---- communication

    // A way on a channel, whose partner is of this side.
    fn met(self, way: usize, side: Side, channel: Option<u64>) -> Chosen {
        let mut chosen = self.plain();
        chosen.free.way = way as u64;
        if let Some(name) = channel {
            if let Some(partner) = partner_of(self.state, self.g, side, name, self.since) {
                chosen.free.partner = partner.goroutine;
                chosen.free.partner_way = partner.way;
            }
        }
        chosen
    }

    fn by_offer(self, way: usize, offer: Offer) -> Chosen {
        match offer {
            Offer::Sending { channel, .. } => self.met(way, Side::Receives, channel),
            Offer::Receiving { channel, .. } => self.met(way, Side::Sends, channel),
        }
    }

    // The first ready way of a goroutine that waits.
    fn waiting(self) -> Chosen {
        if self.g >= self.state.goroutines.len() {
            return self.plain();
        }
        match &self.state.goroutines[self.g].waiting {
            Waiting::AtChannels(offers) => self.first_ready(offers.as_slice()),
            _ => self.plain(),
        }
    }

    fn first_ready(self, offers: &[Offer]) -> Chosen {
        'offers: for i in 0..offers.len() {
            if offer_ready(self.state, self.g, offers[i]) {
                return self.by_offer(i, offers[i]);
            }
        }
        self.plain()
    }

    // A select that is reached.
    fn at_select(self, select: Select<'p>) -> Result<Chosen, NoMemory> {
        let values = values_of(self.state, self.g);
        if select.count > values.len() {
            return Ok(self.plain());
        }
        match offers_from(self.c, select.cases, &values[values.len() - select.count..]) {
            Ok(offers) => self.of_offers(offers.as_slice()),
            Err(Stop::NoMemory) => Err(NoMemory),
            Err(_) => Ok(self.plain()),
        }
    }

    // Of several ready ways the next number takes one.
    fn of_offers(self, offers: &[Offer]) -> Result<Chosen, NoMemory> {
        let ready = ready_ways(self.c.alloc, self.state, self.g, offers)?;
        if ready.is_empty() {
            return Ok(self.plain());
        }
        let way = ready[self.number() as usize % ready.len()] as usize;
        if way < offers.len() {
            return Ok(self.by_offer(way, offers[way]));
        }
        Ok(self.plain())
    }

    // The next number that a select takes.
    fn number(self) -> u64 {
        if self.state.taken < self.choices.len() as u64 {
            self.choices[self.state.taken as usize]
        } else {
            0
        }
    }

    // ---- steps

    fn of_task(self, task: Task<'p>) -> Result<Chosen, NoMemory>
        requires { is_opened task ≡ false }
    {
        match doing(task)? {
            Some(doing) => self.of_doing(doing),
            None => Ok(self.plain()),
        }
    }

    fn of_doing(self, doing: Doing<'p>) -> Result<Chosen, NoMemory> {
        match doing {
            Doing::Operate(Operator::ToAppended(_), _) => Ok(self.appending()),
            Doing::SendTo(_) => Ok(self.met(
                0,
                Side::Receives,
                channel_at(values_of(self.state, self.g), 2),
            )),
            Doing::ReceiveFrom(_, _) => Ok(self.met(
                0,
                Side::Sends,
                channel_at(values_of(self.state, self.g), 1),
            )),
            Doing::SelectFrom(select) => self.at_select(select),
            Doing::Yield => Ok(self.yielding()),
            _ => Ok(self.plain()),
        }
    }

    fn yielding(self) -> Chosen {
        let mut chosen = self.plain();
        chosen.yields = true;
        chosen
    }

    fn appending(self) -> Chosen {
        let mut chosen = self.plain();
        chosen.free.capacity = capacity_at(values_of(self.state, self.g), 2);
        chosen
    }

    // The next turn of a range: of a map's entries that were there at its begin in the order of their
    // births.
    fn of_range(self, cursor: Cursor) -> Chosen {
        let mut chosen = self.plain();
        chosen.free.birth = match cursor {
            Cursor::Entries {
                map,
                produced,
                since,
            } => next_birth(&self.state.memory, map, produced, since),
            _ => None,
        };
        chosen
    }
}
