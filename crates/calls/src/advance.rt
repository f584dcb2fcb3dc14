// The core of the clock call, on slots that are known to be sound. It looks at what moves: from one moment to the next at which an event begins or ends.
//
// slots             each held event; its mask is what it holds after the last moment (`settle::hold` writes the masks, `clock::count` the marks of choices,
//                   `finish` drops slots)
// agenda            the starts and ends up to the reading, each one number, ascending, then end marks (`agenda::gather` writes it, once)
// rows              the rows so far, as bytes (`clock::report` writes them)
// holding           a set of places, one bit each: whose mask is not 0 (`settle::hold` keeps it beside the masks)
// counted           a set: for whom a held second has been counted since the clock (`clock::count` counts it in the slots)
// ending, starting  sets: who ends, who begins at the moment (`agenda::take`)
// ended             a set: who has ended since the clock (`moments`)
ghost use Rattle.std.specs.Prelude.{◌≡◌, true, ◌&&◌, ℕ, ◌+◌, ◌<◌, ◌≤◌, ltb, length};
ghost use Rattle.rules.specs.Records.{has, last_clock, most_events};
ghost use Rattle.rules.specs.Bytes.{rows_size};
ghost use Rattle.calls.specs.Slots.{Ready};
ghost use Rattle.calls.specs.Agenda.{Agenda};
ghost use Rattle.calls.specs.Advanced.{Opened, Passes, Advanced};

use crate::clock::{Due, Standing};
use crate::held::{Head, Rows, Slots, SoundSchedule};
use crate::{agenda, clock, finish, held};

// What the moments leave besides the slots: the places of the events that have ended, and how many rows there are.
#[derive(Clone, Copy)]
struct Through {
    ended: u64,
    rows: usize,
}

// Whether the reading passes the second after the clock, and the next change comes after it.
fn is_quiet(clock: u64, to: u64, next: u64) -> bool
    requires { clock ≤ last_clock }
    ensures { result ≡ (ltb (clock + 1) next && ltb clock to) }
{
    (clock + 1 < next) & (clock < to)
}

// Document 02, #102. A quiet second is counted for those that hold something: choices may have been made since the last one.
fn open(slots: &mut Slots, holding: u64, quiet: bool) -> Standing
    requires { (length slots.old ≡ most_events) × ((i : ℕ) → has holding i ≡ true → i < most_events) }
    ensures { Opened quiet holding slots.old slots.new result }
{
    if quiet {
        clock::count(slots, holding);
        return Standing {
            holding,
            counted: holding,
            rows: 0,
        };
    }
    Standing {
        holding,
        counted: 0,
        rows: 0,
    }
}

// All moments of the agenda.
fn moments(d: Head, slots: &mut Slots, to: u64, agenda: &agenda::Agenda, rows: &mut Rows) -> Through
    requires ready { Ready d slots.old × Agenda d.clock to d.count slots.old agenda.now }
    requires clock_le_to { (d.clock ≤ to) × (to ≤ last_clock) × (length rows.old ≡ rows_size) }
    ensures { Passes d slots.old to rows.new result.ended result.rows slots.new }
{
    let holding = clock::holders(slots, d.count);
    let mut k = 0;
    let mut t = agenda::time_at(agenda, k);
    let mut s = open(slots, holding, is_quiet(d.clock, to, t));
    let mut ended = 0;
    // Kept: no `for`, as the place of the next moment is where the one before left the agenda.
    while t <= to {
        let ends = agenda::take(agenda, k, agenda::start_at(t, 0));
        let starts = agenda::take(agenda, ends.next, agenda::after_starts(t));
        let due = Due {
            ending: ends.places,
            starting: starts.places,
        };
        s = clock::moment(d, slots, t, due, s, rows);
        ended |= ends.places;
        k = starts.next;
        t = agenda::time_at(agenda, k);
    }
    Through {
        ended,
        rows: s.rows,
    }
}

// A reading: the moments up to it, and what has ended dropped; how many rows there are.
pub(crate) fn advance(s: &mut SoundSchedule, to: u64, rows: &mut Rows) -> usize
    requires { (s.old.schedule.clock ≤ to) × (to ≤ last_clock) × (length rows.old ≡ rows_size) }
    ensures { Advanced s.old.schedule to rows.new s.new.schedule result }
{
    let mut agenda: agenda::Agenda = [agenda::NOTHING; agenda::AGENDA_SIZE];
    agenda::gather(
        s.schedule.clock,
        to,
        &s.schedule.entries,
        s.schedule.count,
        &mut agenda,
    );
    let d = held::head_of(&s.schedule);
    let through = moments(d, &mut s.schedule.entries, to, &agenda, rows);
    if through.ended != 0 {
        s.schedule.count = finish::finish(&mut s.schedule.entries, s.schedule.count, through.ended);
    }
    s.schedule.clock = to;
    through.rows
}
