// Calls, list: the held events by ascending id, by value and into a list that the host lends.

#![tactic(auto)]

ghost use Rattle.std.specs.Prelude.{◌≡◌, []};
ghost use Rattle.rules.specs.Calls.{call, list};
ghost use Rattle.calls.specs.Answered.{outcome_of};
ghost use Rattle.listing.specs.Listed.{no_records, listed_outcome};

mod records;

use calls::Answered;
use rules::{Answer, Record, Schedule};

// What a listing by value returns: the answer, and the lent list as the call left it.
// Kept: a result beside the schedule and the list: a refused call hands both back.
#[derive(Clone, Copy)]
pub struct AnsweredList {
    pub answer: Answer,
    pub records: [Record; Schedule::EVENTS],
    pub schedule: Schedule,
}

// Calls, list: a record for each held event by ascending id, over the front of empty records, and their count as the answer.
pub fn listed(s: Schedule) -> AnsweredList
    ensures { listed_outcome result ≡ call s (list no_records) }
{
    let mut records = records::no_records();
    let answer = records::write(s, &mut records);
    AnsweredList {
        answer,
        records,
        schedule: s,
    }
}

// Calls, list, into a list that the host lends: 13 if it is too short, and then it is untouched; what stands after the last record stays.
pub fn list(s: Schedule, records: &mut [Record]) -> Answered
    ensures { outcome_of result [] records.new ≡ call s (list records.old) }
{
    let answer = records::write(s, records);
    Answered {
        answer,
        schedule: s,
    }
}
