// Numbers of a fixed width.
ghost use Rattle.std.specs.Prelude.{◌≡◌, ◌≤◌, ℕ};
ghost use Rattle.std.proofs.Common.{rules};
ghost use Rattle.octets.specs.Octets.{number_at, get_at, put_at};

use crate::has_room;

// An unsigned number with its own count of bytes, the most significant first: read as 0 if they are not all there, and not written if there is no room for
// them all.
// Kept: bytes named one by one and no `try_from` of a slice, whose error cannot occur behind the test for room and would need a value.
// Kept: an impl for each type. `from_be_bytes` and `to_be_bytes` are methods of no trait, and `rt ci` takes no impl that a macro of this repository writes.
pub trait Number {
    ghost width: { ℕ };

    ghost value: { Self → ℕ };

    fn read_at(b: &[u8], at: usize) -> Self
        ensures { value result ≡ number_at width at b.now };

    fn write_at(self, b: &mut [u8], at: usize)
        ensures { b.new ≡ put_at width at (value self) b.old };
}

impl Number for u8 {
    ghost width = { 1 };

    ghost value = { λ x. x };

    fn read_at(b: &[u8], at: usize) -> u8 {
        if has_room(b.len(), at, 1) { b[at] } else { 0 }
    }

    fn write_at(self, b: &mut [u8], at: usize) {
        if !has_room(b.len(), at, 1) {
            return;
        }
        b[at] = self;
    }
}

impl Number for u16 {
    ghost width = { 2 };

    ghost value = { λ x. x };

    fn read_at(b: &[u8], at: usize) -> u16 {
        if has_room(b.len(), at, 2) {
            u16::from_be_bytes([b[at], b[at + 1]])
        } else {
            0
        }
    }

    fn write_at(self, b: &mut [u8], at: usize) {
        if !has_room(b.len(), at, 2) {
            return;
        }
        b[at..at + 2].copy_from_slice(&self.to_be_bytes());
    }
}

impl Number for u32 {
    ghost width = { 4 };

    ghost value = { λ x. x };

    fn read_at(b: &[u8], at: usize) -> u32 {
        if has_room(b.len(), at, 4) {
            u32::from_be_bytes([b[at], b[at + 1], b[at + 2], b[at + 3]])
        } else {
            0
        }
    }

    fn write_at(self, b: &mut [u8], at: usize) {
        if !has_room(b.len(), at, 4) {
            return;
        }
        b[at..at + 4].copy_from_slice(&self.to_be_bytes());
    }
}

impl Number for u64 {
    ghost width = { 8 };

    ghost value = { λ x. x };

    fn read_at(b: &[u8], at: usize) -> u64 {
        if has_room(b.len(), at, 8) {
            u64::from_be_bytes([
                b[at],
                b[at + 1],
                b[at + 2],
                b[at + 3],
                b[at + 4],
                b[at + 5],
                b[at + 6],
                b[at + 7],
            ])
        } else {
            0
        }
    }

    fn write_at(self, b: &mut [u8], at: usize) {
        if !has_room(b.len(), at, 8) {
            return;
        }
        b[at..at + 8].copy_from_slice(&self.to_be_bytes());
    }
}

// A number of at most 8 bytes, which is read as `get` reads one.
pub trait Word: Number + Sized {
    final fn get_at(b: &[u8], at: usize) -> Self
        ensures { Self.value result ≡ get_at Self.width at b.now }
    {
        Self::read_at(b, at)
    }

    ghost short: { Self.width ≤ 8 };
}

impl Word for u8 {
    ghost short = { Prim.search rules };
}

impl Word for u16 {
    ghost short = { Prim.search rules };
}

impl Word for u32 {
    ghost short = { Prim.search rules };
}

impl Word for u64 {
    ghost short = { Prim.search rules };
}
