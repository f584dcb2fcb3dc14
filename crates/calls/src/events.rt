// Events delivered and cancelled, and choices on them: the place of an id among the events, the tests in checking order, and the event stored there.
ghost use Rattle.std.specs.Prelude.{◌≡◌, cond, [], ◌≤◌};
ghost use Rattle.rules.specs.Records.{view, last_clock, id_number, id_of, differ};
ghost use Rattle.rules.specs.Refusals.{late, first_of};
ghost use Rattle.rules.specs.Calls.{response_number, call, deliver, cancel, choose, checks};
ghost use Rattle.calls.specs.Answered.{checked, told};
ghost use Rattle.calls.specs.Found.{Found};

use crate::held::SoundSchedule;
use crate::sorted;
use rules::{Answer, Choice, Entry, Event, Id, Program, Refusal, Reply, Response, Schedule};

// The place of the event that bears an id, or else the place where one with that id would stand: the events held stand by ascending id.
fn place_of(s: &SoundSchedule, id: Id) -> Result<usize, usize>
    ensures { Found (view s.now.schedule).entries (id_number id) result }
{
    s.events().binary_search_by_key(&id, |h| h.event.id)
}

// Numbers given, 9.
fn is_late(e: Event, clock: u64) -> bool
    requires { clock ≤ last_clock }
    ensures { result ≡ late clock e }
{
    let end = e.effective_end();
    (e.start as u64 + e.duration as u64 <= clock) | (end.time <= clock + 1)
}

// Numbers given, of a delivery in checking order.
fn check(s: &SoundSchedule, e: Event, place: Result<usize, usize>) -> Result<(), Refusal>
    requires { Found (view s.now.schedule).entries (id_of e) place }
    ensures { checked result ≡ first_of (checks (view s.now.schedule) (deliver e)) }
{
    if Program::LAST < e.program {
        return Err(Refusal::NoSuchProgram);
    }
    if !s.schedule.programs[e.program as usize].added {
        return Err(Refusal::NotAdded);
    }
    if e.is_malformed() {
        return Err(Refusal::Malformed);
    }
    if let Ok(at) = place {
        if s.schedule.entries[at].event == e {
            return Ok(());
        }
        return Err(Refusal::OtherFields);
    }
    if is_late(e, s.schedule.clock) {
        return Err(Refusal::Late);
    }
    if s.schedule.count == Schedule::EVENTS {
        return Err(Refusal::Full);
    }
    Ok(())
}

// Calls, deliver an event. One that is held already changes nothing.
pub(crate) fn deliver(s: &mut SoundSchedule, e: Event) -> Answer
    ensures { told result s.new.schedule ≡ call s.old.schedule (deliver e) }
{
    let place = place_of(s, e.id);
    check(s, e, place)?;
    let Err(at) = place else {
        return Ok(Reply::from(Response::Silent));
    };
    let period = e.period(s.schedule.clock);
    let h = Entry {
        event: e,
        begins: period.start,
        held: 0,
        cancelled: false,
        choice: Choice::none(),
    };
    sorted::put_in(&mut s.schedule.entries, s.schedule.count, at, h);
    s.schedule.count += 1;
    Ok(Reply::from(Response::Received))
}

// Calls, cancel: the mark is set, and nothing is held any more. Twice changes nothing.
pub(crate) fn cancel(s: &mut SoundSchedule, id: Id) -> Answer
    ensures { told result s.new.schedule ≡ call s.old.schedule (cancel (id_number id)) }
{
    let Ok(at) = place_of(s, id) else {
        return Err(Refusal::NotHeld);
    };
    let before = s.schedule.entries[at].cancelled;
    let h = &mut s.schedule.entries[at];
    h.held = 0;
    h.cancelled = true;
    if before {
        return Ok(Reply::from(Response::Silent));
    }
    Ok(Reply::from(Response::Cancelled))
}

// Document 02, #102: the response to a choice; one that repeats the present choice gives none.
fn choice_code(before: bool, out: bool) -> Response
    ensures { response_number result ≡ cond (differ before out) (cond out 4 5) 0 }
{
    match (before, out) {
        (false, true) => Response::OptedOut,
        (true, false) => Response::OptedIn,
        _ => Response::Silent,
    }
}

// Document 02, #102, opt out and opt in. Nothing but the present choice changes.
pub(crate) fn choose(s: &mut SoundSchedule, id: Id, out: bool) -> Answer
    ensures { told result s.new.schedule ≡ call s.old.schedule (choose (id_number id) out) }
{
    let Ok(at) = place_of(s, id) else {
        return Err(Refusal::NotHeld);
    };
    let before = s.schedule.entries[at].choice;
    let code = choice_code(before.out, out);
    let choice = &mut s.schedule.entries[at].choice;
    choice.out = out;
    Ok(Reply::from(code))
}
