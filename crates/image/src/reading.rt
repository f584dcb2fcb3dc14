// The parts of an image, read at their places.
ghost use Rattle.std.specs.Prelude.{◌≡◌, ◌+◌, ◌≤◌, length};
ghost use Rattle.rules.specs.Bytes.{entry_size, entry_at, choice_of};
ghost use Rattle.rules.specs.Image.{program_size, image_size, program_from, loaded, marked, formed};
ghost use Rattle.image.specs.Exchange.{MarksInside};

use crate::{
    BEGINS, COUNT, DEFAULTS, FIRST_CHOICE, FIRST_MARK, HELD, LAST_CHOICE, LAST_MARK, PRIMACY,
};
use octets::Number;
use rules::{Choice, Entry, Program, Schedule};
use std::array;

// Document 02, #102. The choice that is in a byte: whether the user is out, was in, was out, from the lowest bit.
// Kept: a function, as `choice_byte` of writing.rt is. `From` between Choice and u8 could stand in crates/rules alone, where no code reads or
// writes bytes, and would take the bytes above 7 too, which `is_formed` refuses.
fn choice_of(b: u8) -> Choice
    ensures { result ≡ choice_of b }
{
    Choice {
        out: b % 2 == 1,
        was_in: b / 2 % 2 == 1,
        was_out: b / 4 % 2 == 1,
    }
}

// The event entry whose bytes stand at `at`.
fn entry_at(b: &[u8], at: usize) -> Entry
    requires { at + entry_size ≤ length b.now }
    ensures { result ≡ entry_at at b.now }
{
    Entry {
        event: octets::get_event(b, at),
        begins: u64::read_at(b, at + BEGINS),
        held: u32::read_at(b, at + HELD),
        cancelled: u8::read_at(b, at + Entry::MARK) == 1,
        choice: choice_of(u8::read_at(b, at + Entry::CHOICE)),
    }
}

// The program entry whose bytes stand at `at`.
fn program_at(b: &[u8], at: usize) -> Program
    requires { at + program_size ≤ length b.now }
    ensures { result ≡ program_from at b.now }
{
    Program {
        added: u8::read_at(b, at) == 1,
        primacy: u8::read_at(b, at + PRIMACY),
        defaults: u32::read_at(b, at + DEFAULTS),
    }
}

// Whether so many bytes, `step` bytes from one to the next, are at most `most` each.
fn is_marked(b: &[u8], most: u8, step: usize, count: usize, at: usize) -> bool
    requires { MarksInside step count at b.now }
    ensures { result ≡ marked most step count at b.now }
{
    (0..count).all(|i| b[at + step * i] <= most)
}

// Whether bytes have an image's length, its marks and the bits of its choices.
// It returns after each test, so that each has a proof of its own.
pub(crate) fn is_formed(b: &[u8]) -> bool
    ensures { result ≡ formed b.now }
{
    if b.len() != Schedule::SIZE {
        return false;
    }
    if !is_marked(
        b,
        LAST_MARK,
        Program::SIZE,
        Schedule::PROGRAMS,
        Schedule::PROGRAMS_AT,
    ) {
        return false;
    }
    if !is_marked(b, LAST_MARK, Entry::SIZE, Schedule::EVENTS, FIRST_MARK) {
        return false;
    }
    if !is_marked(b, LAST_CHOICE, Entry::SIZE, Schedule::EVENTS, FIRST_CHOICE) {
        return false;
    }
    true
}

// The schedule in an image.
pub(crate) fn schedule(b: &[u8]) -> Schedule
    requires { length b.now ≡ image_size }
    ensures { result ≡ loaded b.now }
{
    Schedule {
        clock: u64::read_at(b, 0),
        count: u8::read_at(b, COUNT) as usize,
        programs: array::from_fn(|i| program_at(b, Schedule::PROGRAMS_AT + Program::SIZE * i)),
        entries: array::from_fn(|i| entry_at(b, Schedule::ENTRIES_AT + Entry::SIZE * i)),
    }
}
