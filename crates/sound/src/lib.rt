// Refusal 2: whether a schedule by value keeps the rules of an image, each array in one pass.

#![tactic(auto)]

ghost use Rattle.std.specs.Prelude.{◌≡◌, ◌&&◌};
ghost use Rattle.std.specs.List.{list_all};
ghost use Rattle.rules.specs.Sound.{sound_program, unused, in_period, lasting, carried, held_since_start, none_if_cancelled, counted_since_start, counted_if_held, sound_entry, sound};
ghost use Rattle.sound.specs.HeldRules.{precedes, clear, held_rules};

use rules::{Entry, Event, Id, Primacy, Program, Schedule};

// An unused event place is zero.
fn is_unused(h: Entry) -> bool
    ensures { result ≡ unused h }
{
    h == Entry::none()
}

// A program that was added has a primacy that may be used; an unused place is zero.
fn is_sound_program(p: Program) -> bool
    ensures { result ≡ sound_program p }
{
    if p.added {
        return Primacy::from(p.primacy) == Primacy::Usable;
    }
    (p.primacy == 0) & (p.defaults == 0)
}

// The effective start is within the period, and the effective end after the clock.
fn is_in_period(h: Entry, clock: u64) -> bool
    ensures { result ≡ in_period h && lasting clock h }
{
    let start = h.event.drawn_start();
    let end = h.event.effective_end();
    (start.time <= h.begins) & (h.begins < end.time) & (clock < end.time)
}

// The held mask is within the controls, and zero before the start and if the event is cancelled.
fn is_rightly_held(h: Entry, clock: u64) -> bool
    ensures { result ≡ carried h && (held_since_start clock h && none_if_cancelled h) }
{
    (h.held ^ (h.held & h.event.controls) == 0)
        & (((h.begins <= clock) | (h.held == 0)) & (!h.cancelled | (h.held == 0)))
}

// Document 02, #102. The user was neither in nor out before the start, and was one of them while the held mask is not zero.
fn is_rightly_counted(h: Entry, clock: u64) -> bool
    ensures { result ≡ counted_since_start clock h && counted_if_held h }
{
    let counted = h.choice.was_in | h.choice.was_out;
    ((h.begins <= clock) | !counted) & ((h.held == 0) | counted)
}

// The rules of one entry by itself. Only what has a program's number is looked up.
fn is_sound_entry(h: Entry, programs: &[Program; Schedule::PROGRAMS], clock: u64) -> bool
    ensures { result ≡ sound_entry programs.now clock h }
{
    let Some(p) = programs.get(h.event.program as usize) else {
        return false;
    };
    p.added
        & (!h.event.is_malformed()
            & (is_in_period(h, clock) & (is_rightly_held(h, clock) & is_rightly_counted(h, clock))))
}

// An entry with those after it: `next` is the id of the first if there are any, `used` all that they hold.
fn is_before(h: Entry, next: Option<Id>, used: u32) -> bool
    ensures { result ≡ precedes next h && clear used h }
{
    next.is_none_or(|id| h.event.id < id) & (h.held ^ (h.held & used) == h.held)
}

fn has_sound_programs(programs: &[Program; Schedule::PROGRAMS]) -> bool
    ensures { result ≡ list_all sound_program programs.now }
{
    programs.iter().all(|p| is_sound_program(*p))
}

fn has_unused_rest(rest: &[Entry]) -> bool
    ensures { result ≡ list_all unused rest.now }
{
    rest.iter().all(|h| is_unused(*h))
}

// The held events. From the back, so that each entry meets what those after it came to.
fn has_sound_entries(held: &[Entry], programs: &[Program; Schedule::PROGRAMS], clock: u64) -> bool
    ensures { result ≡ held_rules programs.now clock held.now }
{
    let mut ok = true;
    let mut used = 0;
    let mut next = None;
    for h in held.iter().rev() {
        ok = is_sound_entry(*h, programs, clock) & (is_before(*h, next, used) & ok);
        used = h.held | used;
        next = Some(h.event.id);
    }
    ok
}

// All rules.
pub fn is_sound(s: Schedule) -> bool
    ensures { result ≡ sound s }
{
    if (s.clock <= Schedule::LAST_CLOCK) & (s.count <= Schedule::EVENTS) {
        let (held, rest) = s.entries.split_at(s.count);
        return has_sound_programs(&s.programs)
            & (has_unused_rest(rest) & has_sound_entries(held, &s.programs, s.clock));
    }
    false
}
