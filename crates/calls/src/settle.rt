// Who keeps which control when an event begins. The masks stand in the slots; a set of places, one bit each, says which events hold something.
ghost use Rattle.std.specs.Prelude.{◌≡◌, ◌<◌, length};
ghost use Rattle.rules.specs.Records.{has, cut, id_number, most_controls, most_events, most_programs, program_at};
ghost use Rattle.rules.specs.Holding;
ghost use Rattle.rules.specs.Holding.{better};
ghost use Rattle.calls.specs.Sets.{event_at, rank_in, Masked, Kept};
ghost use Rattle.calls.specs.Settled.{Comes, Contended};

use crate::bits;
use crate::bits::Places;
use crate::held::{Head, Programs, Slots};
use rules::Id;
use std::marker::Model;

// What decides between two events.
#[derive(Drop)]
struct Rank {
    primacy: u8,
    created: u32,
    id: Id,
}

impl Model for Rank {
    ghost Value = { Holding.Rank };

    ghost view = { λ r. record { primacy = r.primacy; created = r.created; id = id_number r.id } };
}

impl Rank {
    // Kept: key by key. A chain of `cmp` proves, but takes 1.4 % more instructions over random C calls, since each key becomes an `Ordering` first.
    fn is_better(&self, other: &Rank) -> bool
        ensures { result ≡ better self.now other.now }
    {
        if self.primacy != other.primacy {
            return self.primacy < other.primacy;
        }
        if self.created != other.created {
            return other.created < self.created;
        }
        other.id < self.id
    }
}

// Whether control c is in the mask m.
pub(crate) fn is_in(m: u32, c: u32) -> bool
    requires { c < most_controls }
    ensures { result ≡ has m c }
{
    bits::contains(m as u64, c as usize)
}

// The rank of the event in a slot.
fn rank_at(programs: Programs, slots: &Slots, i: usize) -> Rank
    requires { (i < most_events) × ((event_at slots.now i).event.program < most_programs) }
    ensures { result ≡ rank_in programs slots.now i }
{
    let number = slots[i].event.program as usize;
    Rank {
        primacy: programs[number].primacy,
        created: slots[i].event.created,
        id: slots[i].event.id,
    }
}

// A mask without the controls that another has.
// Kept: control by control, by shifts, as document 01 names this form (Form by location, masks).
fn without(mask: u32, other: u32) -> u32
    ensures { result ≡ cut mask other }
{
    let mut left = mask;
    for control in Places::of((mask & other) as u64) {
        left &= !(1 << (control as u32));
    }
    left
}

// Gives the event at place i a mask; the set of those that hold something follows.
pub(crate) fn hold(slots: &mut Slots, holding: u64, i: usize, mask: u32) -> u64
    requires { (i < most_events) × (length slots.old ≡ most_events) }
    ensures { Masked i mask slots.old slots.new × Kept i mask holding result }
{
    let h = &mut slots[i];
    h.held = mask;
    let bit = 1 << (i as u64);
    let others = holding & !bit;
    if mask == 0 {
        return others;
    }
    others | bit
}

// The event at place i claims all that it carries: a better one keeps what it holds, any other loses what is claimed.
pub(crate) fn contend(d: Head, slots: &mut Slots, holding: u64, i: usize) -> u64
    requires { Comes d slots.old holding i }
    ensures { Contended d i slots.old slots.new result }
{
    let claim = slots[i].event.controls;
    let own = rank_at(d.programs, slots, i);
    let mut left = claim;
    let mut now = holding;
    for rival in Places::of(holding) {
        let mask = slots[rival].held;
        if claim & mask != 0 {
            if rank_at(d.programs, slots, rival).is_better(&own) {
                left = without(left, mask);
            } else {
                now = hold(slots, now, rival, without(mask, claim));
            }
        }
    }
    hold(slots, now, i, left)
}
