// After the last moment: what has ended is dropped.
ghost use Rattle.calls.specs.Slots.{Unused};
ghost use Rattle.calls.specs.Finished.{Finished};

use crate::bits;
use crate::held::Slots;
use rules::Entry;

// The events at places that are not in the set come to the front, and what is behind them is not in use; how many they are.
pub(crate) fn finish(slots: &mut Slots, n: usize, ended: u64) -> usize
    requires { Unused n slots.old }
    ensures { Finished n ended slots.old slots.new result }
{
    let none = Entry::none();
    // Kept: no `retain`, which slices and arrays do not have: the slots are lent and changed in place, and there is no heap for a `Vec`.
    let mut k = 0;
    for i in 0..n {
        let h = slots[i];
        slots[i] = none;
        if !bits::contains(ended, i) {
            slots[k] = h;
            k += 1;
        }
    }
    k
}
