// List: the records of the held events by ascending id, by value and written into a lent list.
ghost use Rattle.std.specs.Prelude.{◌≡◌, true, map};
ghost use Rattle.rules.specs.Lists.{over};
ghost use Rattle.rules.specs.Records.{view};
ghost use Rattle.rules.specs.Sound.{sound};
ghost use Rattle.rules.specs.Calls.{record_of, call, list};
ghost use Rattle.listing.specs.Listed.{no_records, left_with, Counts};

use rules::{Answer, Entry, Record, Refusal, Reply, Schedule};

pub(crate) fn no_records() -> [Record; Schedule::EVENTS]
    ensures { result ≡ no_records }
{
    let record = Record::from(Entry::none());
    [record; Schedule::EVENTS]
}

// A record for each held event, over the front of empty ones.
fn records_of(s: Schedule) -> [Record; Schedule::EVENTS]
    requires { sound s ≡ true }
    ensures { result ≡ over (map record_of (view s).entries) no_records }
{
    let n = s.count;
    let mut records = no_records();
    for i in 0..n {
        records[i] = Record::from(s.entries[i]);
    }
    records
}

// How many records are to be written into a lent list with `room` places.
fn check(s: Schedule, room: usize) -> Result<usize, Refusal>
    ensures { Counts s room result }
{
    if !sound::is_sound(s) {
        return Err(Refusal::BrokenRule);
    }
    let count = s.count;
    if room < count {
        return Err(Refusal::NoRoom);
    }
    Ok(count)
}

// Writes the records into a lent list. A refused call writes none.
pub(crate) fn write(s: Schedule, records: &mut [Record]) -> Answer
    ensures { left_with result s records.new ≡ call s (list records.old) }
{
    let count = check(s, records.len())?;
    let held = records_of(s);
    records[..count].copy_from_slice(&held[..count]);
    Ok(Reply::Count(count))
}
