// An id: made from its halves, taken apart, compared. Its bytes are in crates/octets, its digits in crates/text.
ghost use Rattle.std.specs.Prelude.{◌≡◌, ◌==◌, ◌/◌, ◌%◌};
ghost use Rattle.std.proofs.Common.{rules};
ghost use Rattle.std.specs.Cmp.{partial_order_from_own_ties};
ghost use Rattle.std.specs.Cmp.Rules.{comparing};
ghost use Rattle.std.specs.Ordering.{nat_cmp, on, as_partial_cmp};
ghost use Rattle.rules.specs.Records.{half_limit, halves, id_number, id_from};

use crate::Id;
use std::cmp::Ordering;

impl Id {
    // Document 02, #104. Bytes of half an id, and of an id.
    pub const HALF: usize = 8;

    pub const SIZE: usize = 2 * Id::HALF;

    // The id of two halves.
    pub fn of(high: u64, low: u64) -> Id
        ensures { result ≡ id_from (halves high low) }
    {
        Id { high, low }
    }

    // The halves of an id.
    // Kept: a function for each half, so that a call says which it wants.
    pub fn upper(self) -> u64
        ensures { result ≡ id_number self / half_limit }
    {
        self.high
    }

    pub fn lower(self) -> u64
        ensures { result ≡ id_number self % half_limit }
    {
        self.low
    }
}

// Kept: the comparisons are written out, so that their clauses speak of `id_number`, the number that an id is; derived ones would speak of the halves.
impl PartialEq for Id {
    ghost eq = { on id_number ◌==◌ };

    ghost laws = { Prim.search (comparing, rules) };

    fn eq(&self, other: &Id) -> bool {
        (self.low == other.low) & (self.high == other.high)
    }
}

impl Eq for Id {
    ghost laws = { Prim.search (comparing, rules) };
}

impl PartialOrd for Id {
    ghost partial_cmp = { as_partial_cmp (on id_number nat_cmp) };

    ghost laws = { partial_order_from_own_ties (Prim.search (comparing, rules)) (Prim.search (comparing, rules)) };

    fn partial_cmp(&self, other: &Id) -> Option<Ordering> {
        Some(self.cmp(other))
    }
}

impl Ord for Id {
    ghost cmp = { on id_number nat_cmp };

    ghost total = { Prim.search (comparing, rules) };

    ghost matches_partial_cmp = { Prim.search (comparing, rules) };

    ghost matches_eq = { Prim.search (comparing, rules) };

    fn cmp(&self, other: &Id) -> Ordering {
        self.upper()
            .cmp(&other.upper())
            .then(self.lower().cmp(&other.lower()))
    }
}
