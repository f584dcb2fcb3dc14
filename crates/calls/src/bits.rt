// Sets of places, one bit each: place i is in a set if bit i is 1. A mask is such a set, of controls.
ghost use Rattle.std.specs.Prelude.{◌≡◌, ◌<◌, MatchOption};
ghost use Rattle.std.specs.Iterator.{at_most};
ghost use Rattle.rules.specs.Records.{has};
ghost use Rattle.calls.specs.Sets.{set_width, Lowest};

// How many places a set can have.
pub(crate) const SET_WIDTH: u64 = 64;

// The places of a set, the lowest first.
#[derive(Drop)]
pub(crate) struct Places {
    rest: u64,
}

impl Places {
    pub(crate) fn of(set: u64) -> Places
        ensures { result.rest ≡ set }
    {
        Places { rest: set }
    }
}

impl Iterator for Places {
    type Item = usize;

    ghost next_gives = { λ s place t. MatchOption place ((s.rest ≡ 0) × (t.rest ≡ 0)) (λ i. Lowest s.rest i t.rest) };

    ghost remaining = { λ s. at_most s.rest };

    fn next(&mut self) -> Option<usize> {
        if self.rest == 0 {
            return None;
        }
        let place = self.rest.trailing_zeros();
        self.rest ^= 1 << place;
        Some(place as usize)
    }
}

// Whether place i is in a set.
pub(crate) fn contains(set: u64, i: usize) -> bool
    requires { i < set_width }
    ensures { result ≡ has set i }
{
    (set >> (i as u64)) % 2 == 1
}
