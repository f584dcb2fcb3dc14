// The image of a schedule, read and written whatever it says: whether the schedule is sound is for the calls to check.

#![tactic(auto)]

ghost use Rattle.std.specs.Prelude.{◌≡◌};
ghost use Rattle.image.specs.Exchange.{read_of, written_to, put_record};

mod reading;
mod writing;

use octets::Number;
use rules::{Entry, Event, Record, Schedule};
use writing::Part;

// Where the count of events stands in an image, and the mark and the choice of the first.
const COUNT: usize = 8;

const FIRST_MARK: usize = Schedule::ENTRIES_AT + Entry::MARK;

const FIRST_CHOICE: usize = Schedule::ENTRIES_AT + Entry::CHOICE;

// The greatest byte of a mark.
const LAST_MARK: u8 = 1;

// Document 02, #102. The greatest byte of a choice: it has no bit above 2.
const LAST_CHOICE: u8 = 7;

// Where primacy and defaults stand in a program entry, and effective start and held mask in an event entry.
const PRIMACY: usize = 1;

const DEFAULTS: usize = 2;

const BEGINS: usize = Event::SIZE;

const HELD: usize = Event::SIZE + 8;

// Frames and image. The schedule in bytes that keep an image's length, its marks and the bits of its choices. Bytes that are no image give the fresh schedule.
pub fn read(b: &[u8]) -> Result<Schedule, Schedule>
    ensures { result ≡ read_of b.now }
{
    if !reading::is_formed(b) {
        return Err(Schedule::fresh());
    }
    Ok(reading::schedule(b))
}

// Frames and image. Writes the image into a buffer of its length; leaves any other alone and returns false.
pub fn write(s: Schedule, out: &mut [u8]) -> bool
    ensures { (result, out.new) ≡ written_to s out.old }
{
    if out.len() != Schedule::SIZE {
        return false;
    }
    s.clock.write_at(out, 0);
    octets::put(out, COUNT, 1, s.count as u64);
    writing::put_all(out, Schedule::PROGRAMS_AT, &s.programs);
    writing::put_all(out, Schedule::ENTRIES_AT, &s.entries);
    true
}

// Calls, list. Writes the bytes of a listed record from `at` on; leaves the slice alone if there is no room for them all.
pub fn put_record(out: &mut [u8], at: usize, r: Record)
    ensures { out.new ≡ put_record at r out.old }
{
    if octets::has_room(out.len(), at, Record::SIZE) {
        r.entry.put(out, at);
        r.earliest.write_at(out, at + Entry::SIZE);
    }
}
