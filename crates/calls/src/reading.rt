// Setting the clock, on a schedule that is known to be sound: 12, then the moments.
ghost use Rattle.std.specs.Prelude.{◌≡◌, ◌||◌, [], ltb, length};
ghost use Rattle.rules.specs.Records.{last_clock};
ghost use Rattle.rules.specs.Bytes.{rows_size};
ghost use Rattle.rules.specs.Calls.{call, set_clock};
ghost use Rattle.calls.specs.Answered.{outcome_of};
ghost use Rattle.calls.specs.Advanced.{Reads};

use crate::held::{NO_ROWS, Rows, SoundSchedule};
use crate::{Answered, advance, refused};
use rules::{Answer, Refusal, Reply, Schedule};

// Numbers given, 12.
fn is_out_of_range(clock: u64, reading: u64) -> bool
    ensures { result ≡ (ltb reading clock || ltb last_clock reading) }
{
    (reading < clock) | (Schedule::LAST_CLOCK < reading)
}

// In place; the rows go over the front of a buffer that all rows fit, so that there is no 13.
pub(crate) fn pass(s: &mut SoundSchedule, reading: u64, rows: &mut Rows) -> Answer
    requires { length rows.old ≡ rows_size }
    ensures { Reads s.old.schedule reading result s.new.schedule rows.new }
{
    if is_out_of_range(s.schedule.clock, reading) {
        return Err(Refusal::ClockOutOfRange);
    }
    Ok(Reply::Count(advance::advance(s, reading, rows)))
}

// By value; the rows go into the lent buffer once it is known that they fit.
// Kept: beside `pass`. Here the buffer may be too short, 13, and the schedule goes back as it was; in place neither happens.
pub(crate) fn set_clock(s: SoundSchedule, reading: u64, buffer: &mut [u8]) -> Answered
    ensures { outcome_of result buffer.new [] ≡ call s.schedule (set_clock reading buffer.old) }
{
    if is_out_of_range(s.schedule.clock, reading) {
        return refused(s.schedule, Refusal::ClockOutOfRange);
    }
    let mut passed = s;
    let mut rows = NO_ROWS;
    let n = advance::advance(&mut passed, reading, &mut rows);
    if buffer.len() < rules::ROW_SIZE * n {
        return refused(s.schedule, Refusal::NoRoom);
    }
    octets::copy(buffer, 0, &rows, rules::ROW_SIZE * n);
    Answered {
        answer: Ok(Reply::Count(n)),
        schedule: passed.schedule,
    }
}
