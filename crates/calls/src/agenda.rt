// The agenda of a clock call: the starts and ends that its reading passes, each one number, in ascending order, with an end mark behind them.
ghost use Rattle.std.specs.Prelude.{◌≡◌, true, false, not, ◌&&◌, leb, ltb, ◌+◌, ◌-◌, ◌*◌, ◌/◌, ◌<◌, ◌≤◌, length, get_or, replicate};
ghost use Rattle.rules.specs.Records.{most_events, last_clock};
ghost use Rattle.calls.specs.Agenda.{most_changes, agenda_size, second_width, end_at, start_at, nothing, Agenda, Filled, Inserted, Stops, TakenTo};

use crate::held::Slots;
use crate::{bits, held, sorted};
use rules::Schedule;

// A start and an end for each event, and the end mark.
pub(crate) const AGENDA_SIZE: usize = 2 * Schedule::EVENTS + 1;

pub(crate) type Agenda = [u64; AGENDA_SIZE];

// The end mark: no change is as late.
pub(crate) const NOTHING: u64 = 0xFFFF_FFFF_FFFF_FFFF;

// A second has a number for the end and one for the start of each place.
const SECOND_WIDTH: u64 = 2 * bits::SET_WIDTH;

// The end of the event at place i as one number, and its start.
fn end_at(t: u64, i: usize) -> u64
    requires { (t ≤ last_clock) × (i < most_events) }
    ensures { result ≡ end_at t i }
{
    t * SECOND_WIDTH + i as u64
}

// Kept: beside `end_at`, a function each for the definitions of that name.
pub(crate) fn start_at(t: u64, i: usize) -> u64
    requires { (t ≤ last_clock) × (i < most_events) }
    ensures { result ≡ start_at t i }
{
    t * SECOND_WIDTH + bits::SET_WIDTH + i as u64
}

// Puts x in its place among the first m. Those that are later move up by one.
fn plan(agenda: &mut Agenda, m: usize, x: u64)
    requires { (m < most_changes) × Filled m agenda.old }
    ensures { Inserted m x agenda.old agenda.new }
{
    let at = agenda[..m].partition_point(|y| *y <= x);
    sorted::put_in(agenda, m, at, x);
}

// Whether an event begins after the clock and up to the reading. A cancelled one never does.
fn is_coming(clock: u64, to: u64, stopped: bool, begins: u64) -> bool
    ensures { result ≡ (not stopped && (ltb clock begins && leb begins to)) }
{
    !stopped & ((clock < begins) & (begins <= to))
}

// The starts and ends of the first n events, after the clock and up to the reading.
pub(crate) fn gather(clock: u64, to: u64, slots: &Slots, n: usize, agenda: &mut Agenda)
    requires { (n ≤ most_events) × (length slots.now ≡ most_events) × (to ≤ last_clock) × (agenda.old ≡ replicate agenda_size nothing) }
    ensures { Agenda clock to n slots.now agenda.new }
{
    let mut m = 0;
    // Kept: no `enumerate`, as the place is what the changes carry, and `ends_at` takes the slots with it.
    for i in 0..n {
        let begins = slots[i].begins;
        if is_coming(clock, to, slots[i].cancelled, begins) {
            plan(agenda, m, start_at(begins, i));
            m += 1;
        }
        let ends = held::ends_at(slots, i);
        if ends <= to {
            plan(agenda, m, end_at(ends, i));
            m += 1;
        }
    }
}

// Changes that were taken: the set of their places, and where the next change stands.
#[derive(Clone, Copy)]
pub(crate) struct Taken {
    pub(crate) places: u64,
    pub(crate) next: usize,
}

// The changes from `from` on that are before the bound.
pub(crate) fn take(agenda: &Agenda, from: usize, bound: u64) -> Taken
    requires { Stops agenda.now from bound }
    ensures { TakenTo agenda.now from bound result }
{
    let mut places: u64 = 0;
    // Kept: a `for` over the slice counts `next` as well, since the place is itself asked for, and adds the test and the `break`.
    let mut next = from;
    while agenda[next] < bound {
        places |= 1 << (agenda[next] % bits::SET_WIDTH);
        next += 1;
    }
    Taken { places, next }
}

// The time of the change at place k.
pub(crate) fn time_at(agenda: &Agenda, k: usize) -> u64
    requires { k < agenda_size }
    ensures { result ≡ get_or agenda.now k 0 / second_width }
{
    agenda[k] / SECOND_WIDTH
}

// The bound of a moment's starts. That of its ends is the start of the event at place 0.
pub(crate) fn after_starts(t: u64) -> u64
    requires { t ≤ last_clock }
    ensures { result ≡ t * second_width + second_width }
{
    t * SECOND_WIDTH + SECOND_WIDTH
}
