// Bytes in a slice: numbers, the most significant byte first, ids, events, and copies. Each function takes every place and every width.

#![tactic(auto)]

ghost use Rattle.std.specs.Prelude.{◌≡◌, ◌+◌, leb};
ghost use Rattle.rules.specs.Records.{id_size, id_number};
ghost use Rattle.octets.specs.Octets.{get_at, put_at, get_id, get_event, put_event, copied};

mod numbers;
#[cfg(test)]
mod tests;

pub use numbers::{Number, Word};
use rules::{Event, Id};

// Where the fields of an event stand behind its id.
const PROGRAM: usize = Id::SIZE;

const CONTROLS: usize = Id::SIZE + 1;

const CREATED: usize = Id::SIZE + 5;

const START: usize = Id::SIZE + 9;

const DURATION: usize = Id::SIZE + 13;

const RANDOMIZE_START: usize = Id::SIZE + 17;

const RANDOMIZE_DURATION: usize = Id::SIZE + 19;

const START_DRAW: usize = Id::SIZE + 21;

const DURATION_DRAW: usize = Id::SIZE + 23;

// Whether there is room for n bytes from `at` on in a slice of a length. The sum is not made, so that it cannot wrap.
pub fn has_room(length: usize, at: usize, n: usize) -> bool
    ensures { result ≡ leb (at + n) length }
{
    n <= length && at <= length - n
}

// The number in the n bytes from `at`; 0 if they are more than 8 or not all there.
// Kept: a width as a number, here and at `put`, beside the methods of `Number`: docs/CALLS.md promises every width.
pub fn get(b: &[u8], at: usize, n: usize) -> u64
    ensures { result ≡ get_at n at b.now }
{
    if 8 < n || !has_room(b.len(), at, n) {
        return 0;
    }
    let mut x: u64 = 0;
    for byte in &b[at..at + n] {
        x = x * 256 + *byte as u64;
    }
    x
}

// Writes the last n bytes of x from `at` on; leaves the slice alone if there is no room for them all.
pub fn put(b: &mut [u8], at: usize, n: usize, x: u64)
    ensures { b.new ≡ put_at n at x b.old }
{
    if !has_room(b.len(), at, n) {
        return;
    }
    let mut rest = x;

    // Kept: after `for byte in b[at..at + n].iter_mut().rev()` a proof knows how long b is, and no byte of it.
    for i in (at..at + n).rev() {
        b[i] = (rest % 256) as u8;
        rest /= 256;
    }
}

// The same of 8 bytes, without a loop.
// Kept: docs/CALLS.md names it. `put` of 8 bytes says the same and goes by its loop, and `write_at` of a u64 is what it calls.
pub fn put8(b: &mut [u8], at: usize, x: u64)
    ensures { b.new ≡ put_at 8 at x b.old }
{
    x.write_at(b, at);
}

// The id whose bytes stand at `at`; id 0 if they are not all there.
pub fn get_id(b: &[u8], at: usize) -> Id
    ensures { result ≡ get_id at b.now }
{
    if !has_room(b.len(), at, Id::SIZE) {
        return Id::of(0, 0);
    }
    let high = u64::read_at(b, at);
    let low = u64::read_at(b, at + Id::HALF);
    Id::of(high, low)
}

// Writes the bytes of an id from `at` on; leaves the slice alone if there is no room for them all.
pub fn put_id(out: &mut [u8], at: usize, id: Id)
    ensures { out.new ≡ put_at id_size at (id_number id) out.old }
{
    if !has_room(out.len(), at, Id::SIZE) {
        return;
    }
    id.upper().write_at(out, at);
    id.lower().write_at(out, at + Id::HALF);
}

// The event whose bytes stand at `at`; one with all fields zero if they are not all there.
pub fn get_event(b: &[u8], at: usize) -> Event
    ensures { result ≡ get_event at b.now }
{
    if !has_room(b.len(), at, Event::SIZE) {
        return Event::none();
    }
    Event {
        id: get_id(b, at),
        program: u8::read_at(b, at + PROGRAM),
        controls: u32::read_at(b, at + CONTROLS),
        created: u32::read_at(b, at + CREATED),
        start: u32::read_at(b, at + START),
        duration: u32::read_at(b, at + DURATION),
        randomize_start: u16::read_at(b, at + RANDOMIZE_START),
        randomize_duration: u16::read_at(b, at + RANDOMIZE_DURATION),
        start_draw: u16::read_at(b, at + START_DRAW),
        duration_draw: u16::read_at(b, at + DURATION_DRAW),
    }
}

// Writes the bytes of an event from `at` on; leaves the slice alone if there is no room for them all.
pub fn put_event(out: &mut [u8], at: usize, e: Event)
    ensures { out.new ≡ put_event at e out.old }
{
    if !has_room(out.len(), at, Event::SIZE) {
        return;
    }
    put_id(out, at, e.id);
    e.program.write_at(out, at + PROGRAM);
    e.controls.write_at(out, at + CONTROLS);
    e.created.write_at(out, at + CREATED);
    e.start.write_at(out, at + START);
    e.duration.write_at(out, at + DURATION);
    e.randomize_start.write_at(out, at + RANDOMIZE_START);
    e.randomize_duration.write_at(out, at + RANDOMIZE_DURATION);
    e.start_draw.write_at(out, at + START_DRAW);
    e.duration_draw.write_at(out, at + DURATION_DRAW);
}

// Copies the first n bytes of `from` to `to`, from `at` on; leaves `to` alone if there are fewer or there is no room for them.
// Kept: byte by byte and no `copy_from_slice`, which calls memmove where the count is not known; the archive of x86-64 asks memcpy and memset alone of a host
// (tests/c.sh). `from` with n, and the places here and above, are public clauses.
pub fn copy(to: &mut [u8], at: usize, from: &[u8], n: usize)
    ensures { to.new ≡ copied at n from.now to.old }
{
    if from.len() < n {
        return;
    }
    if !has_room(to.len(), at, n) {
        return;
    }
    for i in 0..n {
        to[at + i] = from[i];
    }
}
