// The calls by value. Each takes the schedule and any other input, and hands the schedule back with an answer. What it returns and leaves behind is
// one equation with `call` of the definitions, refusals included: first 2 for a schedule that breaks a rule, then the call's own numbers in order.

#![tactic(auto)]

ghost use Rattle.std.specs.Prelude.{◌≡◌, []};
ghost use Rattle.rules.specs.Records.{id_number};
ghost use Rattle.rules.specs.Calls.{call, add_program, deliver, cancel, choose, set_clock, ask};
ghost use Rattle.calls.specs.Answered.{outcome_of, refused_with};
ghost use Rattle.calls.specs.Lines.{line_outcome, ran_of, run_outcome};
ghost use Rattle.calls.specs.Whole.{WholeText};

mod advance;
mod agenda;
mod bits;
mod clock;
mod events;
mod finish;
mod held;
mod lines;
mod programs;
mod reading;
mod settle;
mod sorted;

use held::SoundSchedule;
use rules::{Answer, Event, Frame, Id, Line, Refusal, Schedule};

// What a call returns.
// Kept: a result beside the schedule and none with it inside, as a refused call hands the schedule back (clause `call`).
#[derive(Clone, Copy)]
pub struct Answered {
    pub answer: Answer,
    pub schedule: Schedule,
}

// What a run over lines returns: how many bytes it wrote, or its refusal; how many bytes of the lines it took.
// Kept: as `Answered` (clause `run_outcome`).
#[derive(Clone, Copy)]
pub struct Ran {
    pub answer: Answer,
    pub read: usize,
    pub schedule: Schedule,
}

// A call that was refused leaves the schedule as it is.
pub(crate) fn refused(s: Schedule, refusal: Refusal) -> Answered
    ensures { result ≡ refused_with refusal s }
{
    Answered {
        answer: Err(refusal),
        schedule: s,
    }
}

// Kept: the six calls by value are a function each and not one that takes the call as a closure: what a closure does through a loan is said by `F.post`, longer
// than the equation that each has.
// Kept: the seven tests of soundness are no `TryFrom` with `?`, as a refused call hands the schedule back and so returns no `Result`.

// Calls, add a program: code 0.
pub fn add_program(s: Schedule, number: u8, primacy: u8, defaults: u32) -> Answered
    ensures { outcome_of result [] [] ≡ call s (add_program number primacy defaults) }
{
    if !sound::is_sound(s) {
        return refused(s, Refusal::BrokenRule);
    }
    let mut s = SoundSchedule { schedule: s };
    let answer = programs::add_program(&mut s, number, primacy, defaults);
    Answered {
        answer,
        schedule: s.schedule,
    }
}

// Calls, deliver an event: code 1 if it is new, 0 if it is held already with every field equal.
pub fn deliver(s: Schedule, e: Event) -> Answered
    ensures { outcome_of result [] [] ≡ call s (deliver e) }
{
    if !sound::is_sound(s) {
        return refused(s, Refusal::BrokenRule);
    }
    let mut s = SoundSchedule { schedule: s };
    let answer = events::deliver(&mut s, e);
    Answered {
        answer,
        schedule: s.schedule,
    }
}

// Calls, cancel: code 6, or 0 if the event was cancelled before.
pub fn cancel(s: Schedule, id: Id) -> Answered
    ensures { outcome_of result [] [] ≡ call s (cancel (id_number id)) }
{
    if !sound::is_sound(s) {
        return refused(s, Refusal::BrokenRule);
    }
    let mut s = SoundSchedule { schedule: s };
    let answer = events::cancel(&mut s, id);
    Answered {
        answer,
        schedule: s.schedule,
    }
}

// Document 02, #102, opt out (`out`) and opt in: code 4 or 5, or 0 if it repeats the present choice.
pub fn choose(s: Schedule, id: Id, out: bool) -> Answered
    ensures { outcome_of result [] [] ≡ call s (choose (id_number id) out) }
{
    if !sound::is_sound(s) {
        return refused(s, Refusal::BrokenRule);
    }
    let mut s = SoundSchedule { schedule: s };
    let answer = events::choose(&mut s, id, out);
    Answered {
        answer,
        schedule: s.schedule,
    }
}

// Calls, set the clock: the rows of the moments passed go into the buffer, and their count is the answer.
pub fn set_clock(s: Schedule, reading: u64, buffer: &mut [u8]) -> Answered
    ensures { outcome_of result buffer.new [] ≡ call s (set_clock reading buffer.old) }
{
    if sound::is_sound(s) {
        return reading::set_clock(SoundSchedule { schedule: s }, reading, buffer);
    }
    refused(s, Refusal::BrokenRule)
}

// Calls, ask for a control: its holder if that one's user is in, else the program of its default, else nobody.
pub fn ask(s: Schedule, control: u8) -> Answered
    ensures { outcome_of result [] [] ≡ call s (ask control) }
{
    if !sound::is_sound(s) {
        return refused(s, Refusal::BrokenRule);
    }
    let s = SoundSchedule { schedule: s };
    let answer = programs::ask(&s, control);
    Answered {
        answer,
        schedule: s.schedule,
    }
}

// Numbers given, 1. A line is decoded and its call made; the buffer is lent for the rows of a clock reading.
// Kept: beside `act_on` of lines.rt. By value the lent buffer may be too short, 13, and the schedule goes back; in place neither happens.
pub fn act(s: Schedule, line: &[u8], buffer: &mut [u8]) -> Answered
    ensures { outcome_of result buffer.new [] ≡ line_outcome s line.now buffer.old }
{
    let decoded = frame::decode(line);
    let Line::Good(f) = decoded else {
        return refused(s, Refusal::NoFrame);
    };
    match f {
        Frame::Event(e) => deliver(s, e),
        Frame::Cancel(id) => cancel(s, id),
        Frame::Clock(t) => set_clock(s, t, buffer),
        Frame::Program(n, p, d) => add_program(s, n, p, d),
        Frame::Ask(c) => ask(s, c),
        Frame::OptOut(id) => choose(s, id, true),
        Frame::OptIn(id) => choose(s, id, false),
    }
}

// Frames and image, the program. Acts on each line that ends with a line feed and writes what the program prints for it over the front of `out`, one text
// after the other. It stops before a line when less than `text::MOST` bytes of room are left. It checks the schedule once, and keeps it to itself from line
// to line.
pub fn run(s: Schedule, lines: &[u8], out: &mut [u8]) -> Ran
    ensures { ran_of result out.new ≡ run_outcome s lines.now out.old }
{
    if sound::is_sound(s) {
        return lines::run(SoundSchedule { schedule: s }, lines, out);
    }
    Ran {
        answer: Err(Refusal::BrokenRule),
        read: 0,
        schedule: s,
    }
}

// Frames and image, the program. Runs one after the other write what document 01 has printed for the whole text, wherever the text is cut and whatever room
// each run has; and one run does, if there is room. This function does nothing: it carries the theorem as its promise.
pub fn whole_text()
    ensures { WholeText }
{}
