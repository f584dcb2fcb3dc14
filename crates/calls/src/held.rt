// Held events in their slots, the places of a schedule's array, which are lent and changed in place; and what else of a schedule a moment reads.
ghost use Rattle.std.specs.Prelude.{◌≡◌, true, ◌<◌};
ghost use Rattle.rules.specs.Records.{view, most_events};
ghost use Rattle.rules.specs.Sound.{sound};
ghost use Rattle.rules.specs.Holding.{end_of};
ghost use Rattle.calls.specs.Slots.{head_of};
ghost use Rattle.calls.specs.Sets.{event_at};

use rules::{Entry, Program, Schedule};

pub(crate) type Slots = [Entry; Schedule::EVENTS];

// The bytes of rows, as many as a clock call can give.
pub(crate) type Rows = [u8; rules::ROWS_SIZE];

pub(crate) const NO_ROWS: Rows = [0; rules::ROWS_SIZE];

// What a schedule has besides its events. It is small and goes by value.
// Kept: beside the slots, and no struct of both: it is read while the slots are lent to be written.
#[derive(Clone, Copy)]
pub(crate) struct Head {
    pub(crate) clock: u64,
    pub(crate) count: usize,
    pub(crate) programs: Programs,
}

pub(crate) type Programs = [Program; Schedule::PROGRAMS];

// A schedule that keeps every rule.
#[derive(Clone, Copy)]
pub(crate) struct SoundSchedule {
    pub(crate) schedule: Schedule,
    ghost good: { sound schedule ≡ true },
}

impl SoundSchedule {
    // The events held, by ascending id.
    pub(crate) fn events(&self) -> &[Entry]
        ensures { result.now ≡ (view self.now.schedule).entries }
    {
        &self.schedule.entries[..self.schedule.count]
    }
}

// The effective end of the event in slot i.
pub(crate) fn ends_at(slots: &Slots, i: usize) -> u64
    requires { i < most_events }
    ensures { result ≡ end_of (event_at slots.now i) }
{
    let e = slots[i].event;
    let end = e.effective_end();
    end.time
}

// Kept: called once, and an impl of `From` would be longer.
pub(crate) fn head_of(s: &Schedule) -> Head
    ensures { result ≡ head_of s.now }
{
    Head {
        clock: s.clock,
        count: s.count,
        programs: s.programs,
    }
}
