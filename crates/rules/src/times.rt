// What is read off a record by value: an event's times and whether its fields are in range, an answer's number and count.
ghost use Rattle.std.specs.Prelude.{◌≡◌, ◌+◌, ◌<◌, ◌^◌, min, max};
ghost use Rattle.rules.specs.declared.Reply.TheVariants.{Code};
ghost use Rattle.rules.specs.Records.{primacy_is, last_clock};
ghost use Rattle.rules.specs.Period.{lift, plus, drawn_start, effective_end, earliest_start, period_of, dated};
ghost use Rattle.rules.specs.Sound.{outside, drawn, out_of_range, malformed};
ghost use Rattle.rules.specs.Calls.{refusal_number, response_number, reply_value, value_of, counted};

use crate::{Dated, Event, Period, Primacy, Refusal, Reply, Response, Schedule};

impl From<u8> for Primacy {
    ghost from_gives = { λ primacy p. p ≡ primacy_is primacy };

    // Records, primacy: the ranges that may be used.
    fn from(primacy: u8) -> Primacy {
        match primacy {
            0..=2 | 65..=191 => Primacy::Usable,
            _ => Primacy::Reserved,
        }
    }
}

// 16 bits of two's complement, moved up by 32,768.
// Kept: the definitions `lift` and `plus` read a field as 16 bits, and C hosts hand it in as such; a signed type would give both another meaning.
pub(crate) fn lifted(b: u16) -> u64
    ensures { result ≡ lift b }
{
    (b as u64 + 32768) % 65536
}

// n plus a signed number, cut off at 0.
pub(crate) fn moved(n: u64, b: u16) -> u64
    requires { n < 2 ^ 40 }
    ensures { result ≡ plus n b }
{
    (n + lifted(b)).saturating_sub(32768)
}

// Numbers given, 7: a randomisation beyond an hour either way.
pub(crate) fn is_outside(r: u16) -> bool
    ensures { result ≡ outside r }
{
    let y = lifted(r);
    (y < 32768 - 3600) | (32768 + 3600 < y)
}

// Effective period, draw: between 0 and its randomisation.
pub(crate) fn is_drawn(r: u16, d: u16) -> bool
    ensures { result ≡ drawn r d }
{
    let y = lifted(r);
    let z = lifted(d);
    (y.min(32768) <= z) & (z <= y.max(32768))
}

// Numbers given, 7: the conditions on single fields.
pub(crate) fn is_out_of_range(e: Event) -> bool
    ensures { result ≡ out_of_range e }
{
    (e.controls == 0)
        | (e.start < 3600)
        | (e.duration == 0)
        | is_outside(e.randomize_start)
        | is_outside(e.randomize_duration)
        | !is_drawn(e.randomize_start, e.start_draw)
        | !is_drawn(e.randomize_duration, e.duration_draw)
}

impl Event {
    // Numbers given, 7: whether a field or a draw is outside its range, or the drawn duration below 1.
    pub fn is_malformed(self) -> bool
        ensures { result ≡ malformed self }
    {
        is_out_of_range(self) | (self.duration as u64 + lifted(self.duration_draw) < 32768 + 1)
    }

    // The effective period of an event that is first accepted at a receipt clock, in the sequence of IEEE 2030.5, 10.2.2.2 (document 02, #103). Above each
    // step stands the clause's term for it; its name is document 01's. The clause says Effective Start Time where document 01 says drawn start.
    pub fn period(self, receipt: u64) -> Period
        ensures { result ≡ period_of self (min receipt last_clock) }
    {
        // Start Time.
        let start = self.start as u64;
        // Start Randomization, as the client applies it: the draw, within the bound randomizeStart.
        let start_draw = self.start_draw;
        // Effective Start Time. The end counts from here, however late the event came.
        let drawn_start = moved(start, start_draw);
        // No term of the clause: document 01's effective start, not before receipt + 1. A late receipt moves this alone; one beyond the last reading counts as
        // that reading.
        let effective_start = drawn_start.max(receipt.min(Schedule::LAST_CLOCK) + 1);
        // Duration.
        let duration = self.duration as u64;
        // Duration Randomization, as the client applies it: the draw, within the bound randomizeDuration.
        let duration_draw = self.duration_draw;
        // Effective End Time: from the clause's Effective Start Time, which is the drawn start.
        let effective_end = moved(drawn_start + duration, duration_draw);
        // Earliest Effective Start Time (document 02, #101): beside the sequence, without a draw and without the receipt clock.
        let earliest = self.earliest_start();
        Period {
            start: effective_start,
            end: effective_end,
            earliest: earliest.time,
        }
    }

    // Effective period, drawn start.
    pub fn drawn_start(self) -> Dated
        ensures { result ≡ dated (drawn_start self) self }
    {
        Dated {
            time: moved(self.start as u64, self.start_draw),
            event: self,
        }
    }

    // Effective period, effective end: the same whatever the receipt clock.
    pub fn effective_end(self) -> Dated
        ensures { result ≡ dated (effective_end self) self }
    {
        let period = self.period(0);
        Dated {
            time: period.end,
            event: self,
        }
    }

    // Document 02, #101, Earliest Effective Start Time: without a draw and without the receipt clock.
    pub fn earliest_start(self) -> Dated
        ensures { result ≡ dated (earliest_start self) self }
    {
        let start = self.start as u64;
        Dated {
            time: start.min(moved(start, self.randomize_start)),
            event: self,
        }
    }
}

impl Refusal {
    // Numbers given: the number of a refusal.
    // Kept: a method here and one of `Response`, each a cast of its own variants. A trait for the two, or a `From` for each with its clause once more as a ghost
    // member, would be longer.
    pub fn number(self) -> u8
        ensures { result ≡ refusal_number self }
    {
        self as u8
    }
}

impl Response {
    // Response codes: the number that a host sends.
    pub fn number(self) -> u8
        ensures { result ≡ response_number self }
    {
        self as u8
    }
}

impl From<Response> for Reply {
    ghost from_gives = { λ r reply. reply ≡ Code (response_number r) };

    fn from(response: Response) -> Reply {
        Reply::Code(response.number())
    }
}

impl Reply {
    // How much an answer counts, 0 if it counts nothing.
    pub fn count(self) -> usize
        ensures { result ≡ counted (reply_value self) }
    {
        match self {
            Reply::Count(n) => n,
            _ => 0,
        }
    }
}

// How much an answer counts, whatever says why a call was refused: 0 of a refusal.
pub fn counted<E: Drop>(answer: Result<Reply, E>) -> usize
    ensures { result ≡ counted (value_of answer) }
{
    match answer {
        Ok(reply) => reply.count(),
        Err(_) => 0,
    }
}
