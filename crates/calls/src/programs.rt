// Programs added, and questions: a control's holder or its default.
ghost use Rattle.std.specs.Prelude.{◌≡◌, ◌<◌};
ghost use Rattle.rules.specs.Records.{most_controls};
ghost use Rattle.rules.specs.Calls.{call, add_program, ask, reply_value, governs, holder_in, best_of, best_default, default_for};
ghost use Rattle.calls.specs.Answered.{told};
ghost use Rattle.calls.specs.Best.{ranked, carrying};

use crate::held::{Programs, SoundSchedule};
use crate::settle;
use rules::{Answer, Entry, Primacy, Program, Refusal, Reply, Response, Schedule};

// Numbers given, of adding a program, in checking order; then the program in its place.
pub(crate) fn add_program(s: &mut SoundSchedule, number: u8, primacy: u8, defaults: u32) -> Answer
    ensures { told result s.new.schedule ≡ call s.old.schedule (add_program number primacy defaults) }
{
    if Program::LAST < number {
        return Err(Refusal::NoSuchProgram);
    }
    let at = number as usize;
    if s.schedule.programs[at].added {
        return Err(Refusal::AddedBefore);
    }
    let Primacy::Usable = Primacy::from(primacy) else {
        return Err(Refusal::ReservedPrimacy);
    };
    s.schedule.programs[at] = Program {
        added: true,
        primacy,
        defaults,
    };
    Ok(Reply::from(Response::Silent))
}

// A program with a default: its number and primacy.
#[derive(Clone, Copy)]
struct Best {
    number: u8,
    primacy: u8,
}

// The better of a program, if it has a default, and the best of those with larger numbers; of equal ones this one.
fn better_default(p: Program, number: u8, control: u32, best: Option<Best>) -> Option<Best>
    requires { control < most_controls }
    ensures { ranked result ≡ best_of (carrying control number p) (ranked best) }
{
    let carried = settle::is_in(p.defaults, control);
    if !(p.added & carried) {
        return best;
    }
    if let Some(b) = best {
        if b.primacy < p.primacy {
            return best;
        }
    }
    Some(Best {
        number,
        primacy: p.primacy,
    })
}

// How many numbers of programs there are.
const PROGRAMS: u8 = Program::LAST + 1;

// Calls, ask: the program with the best primacy whose defaults carry the control.
fn default_of(programs: Programs, control: u32) -> Reply
    requires { control < most_controls }
    ensures { reply_value result ≡ default_for (best_default control 0 programs) }
{
    let mut best = None;
    // Kept: no `enumerate`, as the number of a program is a `u8` that goes into the answer.
    for i in (0..PROGRAMS).rev() {
        let p = programs[i as usize];
        best = better_default(p, i, control, best);
    }
    match best {
        Some(b) => Reply::Default(b.number),
        None => Reply::Nobody,
    }
}

// Whether an event holds the control and its user is in.
fn is_governor(h: &Entry, control: u32) -> bool
    requires { control < most_controls }
    ensures { result ≡ governs control h.now }
{
    let choice = h.choice;
    settle::is_in(h.held, control) & !choice.out
}

// Calls, ask: the event that holds the control if its user is in, else the other reply.
fn holder_or(events: &[Entry], control: u32, other: Reply) -> Reply
    requires { control < most_controls }
    ensures { reply_value result ≡ holder_in control events.now (reply_value other) }
{
    for h in events {
        if is_governor(h, control) {
            return Reply::Holder(h.event.id);
        }
    }
    other
}

// Calls, ask for a control. Nothing changes.
pub(crate) fn ask(s: &SoundSchedule, control: u8) -> Answer
    ensures { told result s.now.schedule ≡ call s.now.schedule (ask control) }
{
    if Schedule::LAST_CONTROL < control {
        return Err(Refusal::NoSuchControl);
    }
    let c = control as u32;
    let other = default_of(s.schedule.programs, c);
    Ok(holder_or(s.events(), c, other))
}
