// One moment of a clock call. What each event holds stands in the slots and nowhere else. Sets of places, one bit each, say who: the events that hold something,
// those that end and those that begin at the moment, those that give a row, those for which a held second has been counted.
ghost use Rattle.std.specs.Prelude.{◌≡◌, true, [], ◌∷◌, ℕ, ◌+◌, ◌≤◌, ◌<◌, length};
ghost use Rattle.rules.specs.Records.{has, id_number, most_events, most_rows};
ghost use Rattle.rules.specs.Calls.{response_number};
ghost use Rattle.rules.specs.Rows.{end_code};
ghost use Rattle.rules.specs.Bytes.{rows_size};
ghost use Rattle.calls.specs.Slots.{InUse};
ghost use Rattle.calls.specs.Sets.{event_at, Holders, SecondCounted, kind_number, kind_code, set_rows};
ghost use Rattle.calls.specs.Written.{Written};
ghost use Rattle.calls.specs.Moment.{CanStart, Started, Released, Ahead, Past};

use crate::bits::Places;
use crate::held::{Head, Rows, Slots};
use crate::settle;
use rules::{Choice, Id, Response};

// The places whose events end, and those whose events begin, at a moment.
#[derive(Clone, Copy)]
pub(crate) struct Due {
    pub(crate) ending: u64,
    pub(crate) starting: u64,
}

// Where a clock call stands: the places whose events hold something, those for which a held second has been counted since the clock, and how many rows
// there are. The choices stay as they are during the call, so that a second one would count for nothing.
#[derive(Clone, Copy)]
pub(crate) struct Standing {
    pub(crate) holding: u64,
    pub(crate) counted: u64,
    pub(crate) rows: usize,
}

// The places of those of the first n events that hold something.
pub(crate) fn holders(slots: &Slots, n: usize) -> u64
    requires { InUse n slots.now }
    ensures { Holders n slots.now result }
{
    let mut set = 0;
    for (i, h) in slots[..n].iter().enumerate() {
        if h.held != 0 {
            set |= 1 << (i as u64);
        }
    }
    set
}

// A row behind the first `at`.
fn add_row(rows: &mut Rows, at: usize, t: u64, id: Id, code: u8)
    requires { (length rows.old ≡ rows_size) × (at < most_rows) }
    ensures { Written rows.old at rows.new (at + 1) (record { time = t; id = id_number id; code = code } ∷ []) }
{
    let b = at * rules::ROW_SIZE;
    octets::put8(rows, b, t);
    octets::put_id(rows, b + rules::ROW_ID, id);
    rows[b + rules::ROW_CODE] = code;
}

// The kinds of rows.
#[derive(Clone, Copy)]
pub(crate) enum Kind {
    Ended,
    Superseded,
    Started,
}

// Document 02, #102: the code of an end, by the choice.
fn end_code(c: Choice) -> Response
    ensures { response_number result ≡ end_code c }
{
    if !c.was_out {
        return Response::Completed;
    }
    if !c.was_in {
        return Response::NotTaken;
    }
    if c.out {
        return Response::PartlyOut;
    }
    Response::PartlyIn
}

// The code of the event in slot i with a kind of row.
fn code_at(slots: &Slots, i: usize, kind: Kind) -> Response
    requires { i < most_events }
    ensures { response_number result ≡ kind_code (kind_number kind) (event_at slots.now i) }
{
    match kind {
        Kind::Ended => end_code(slots[i].choice),
        Kind::Superseded => Response::Superseded,
        Kind::Started => Response::Started,
    }
}

// The rows of one kind of the events at the places of a set; how many there are now.
fn report(rows: &mut Rows, from: usize, t: u64, slots: &Slots, set: u64, kind: Kind) -> usize
    requires { (length rows.old ≡ rows_size) × ((i : ℕ) → has set i ≡ true → i < most_events)
        × (from + length (set_rows t (kind_number kind) slots.now set) ≤ most_rows) }
    ensures { Written rows.old from rows.new result (set_rows t (kind_number kind) slots.now set) }
{
    // Kept: no `zip` with `from..`, as the place behind the last row is itself the result and would be counted beside it.
    let mut at = from;
    for place in Places::of(set) {
        let code = code_at(slots, place, kind);
        add_row(rows, at, t, slots[place].event.id, code.number());
        at += 1;
    }
    at
}

// The events of a set hold nothing any more; those that still hold something.
fn release(slots: &mut Slots, holding: u64, ended: u64) -> u64
    requires { (length slots.old ≡ most_events) × ((i : ℕ) → has ended i ≡ true → i < most_events) }
    ensures { Released ended holding slots.old slots.new result }
{
    let mut now = holding;
    for place in Places::of(ended) {
        now = settle::hold(slots, now, place, 0);
    }
    now
}

// The events of a set begin, one after the other; those that hold something then.
fn start(d: Head, slots: &mut Slots, holding: u64, starting: u64) -> u64
    requires { CanStart d slots.old holding starting }
    ensures { Started d starting slots.old slots.new result }
{
    let mut now = holding;
    for place in Places::of(starting) {
        now = settle::contend(d, slots, now, place);
    }
    now
}

// Document 02, #102: a held second is counted for the events of a set.
pub(crate) fn count(slots: &mut Slots, set: u64)
    requires { (length slots.old ≡ most_events) × ((i : ℕ) → has set i ≡ true → i < most_events) }
    ensures { SecondCounted set slots.old slots.new }
{
    for place in Places::of(set) {
        let choice = &mut slots[place].choice;
        choice.was_in |= !choice.out;
        choice.was_out |= choice.out;
    }
}

// Moment t: what ends gives its row and its controls, and then what begins contends with those that hold. The rows are those of ends, those of who holds nothing
// any more or not even at its start, those of starts. Then the second is counted for those that hold something.
pub(crate) fn moment(
    d: Head,
    slots: &mut Slots,
    t: u64,
    due: Due,
    s: Standing,
    rows: &mut Rows,
) -> Standing
    requires { Ahead d slots.old t due s rows.old }
    ensures { Past d slots.old slots.new t s rows.old rows.new result }
{
    let ended = due.ending & s.holding;
    let ends = report(rows, s.rows, t, slots, ended, Kind::Ended);
    let before = release(slots, s.holding, ended);
    let holding = start(d, slots, before, due.starting);
    let contenders = before | due.starting;
    let losses = report(
        rows,
        ends,
        t,
        slots,
        contenders & !holding,
        Kind::Superseded,
    );
    let all = report(
        rows,
        losses,
        t,
        slots,
        due.starting & holding,
        Kind::Started,
    );
    count(slots, holding & !s.counted);
    Standing {
        holding,
        counted: s.counted | holding,
        rows: all,
    }
}
