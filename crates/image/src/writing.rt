// The parts of an image, written at their places.
ghost use Rattle.std.specs.Prelude.{◌≡◌, ℕ, List, ◌+◌, ◌*◌, ◌≤◌, length};
ghost use Rattle.rules.specs.Lists.{over_at};
ghost use Rattle.rules.specs.Bytes.{flat, entry_size, entry_bytes, choice_byte};
ghost use Rattle.rules.specs.Image.{program_size, program_bytes};
ghost use Rattle.rules.proofs.Entries.{entry_size_lem};
ghost use Rattle.rules.proofs.Images.{program_size_lem};

use crate::{BEGINS, DEFAULTS, HELD, PRIMACY};
use octets::Number;
use rules::{Choice, Entry, Program};

// What stands in an image in a row of its kind: a program entry or an event entry, always of so many bytes.
pub(crate) trait Part: Copy {
    ghost SIZE: { ℕ };

    ghost bytes: { Self → List ℕ };

    const SIZE: usize;

    fn put(self, out: &mut [u8], at: usize)
        requires { at + SIZE ≤ length out.old }
        ensures { out.new ≡ over_at at (bytes self) out.old };

    ghost sized: { (x : Self) → length (bytes x) ≡ SIZE };
}

impl Part for Program {
    ghost SIZE = { program_size };

    ghost bytes = { program_bytes };

    const SIZE: usize = Program::SIZE;

    fn put(self, out: &mut [u8], at: usize) {
        (self.added as u8).write_at(out, at);
        self.primacy.write_at(out, at + PRIMACY);
        self.defaults.write_at(out, at + DEFAULTS);
    }

    ghost sized = { program_size_lem };
}

impl Part for Entry {
    ghost SIZE = { entry_size };

    ghost bytes = { entry_bytes };

    const SIZE: usize = Entry::SIZE;

    fn put(self, out: &mut [u8], at: usize) {
        octets::put_event(out, at, self.event);
        self.begins.write_at(out, at + BEGINS);
        self.held.write_at(out, at + HELD);
        (self.cancelled as u8).write_at(out, at + Entry::MARK);
        choice_byte(self.choice).write_at(out, at + Entry::CHOICE);
    }

    ghost sized = { entry_size_lem };
}

// Document 02, #102. The byte of a choice: whether the user is out, was in, was out, from the lowest bit.
fn choice_byte(c: Choice) -> u8
    ensures { result ≡ choice_byte c }
{
    c.out as u8 + (c.was_in as u8 * 2 + c.was_out as u8 * 4)
}

// Parts of one kind, one after the other, from `at` on.
pub(crate) fn put_all<P: Part>(out: &mut [u8], at: usize, parts: &[P])
    requires { at + P.SIZE * length parts.now ≤ length out.old }
    ensures { out.new ≡ over_at at (flat P.bytes parts.now) out.old }
{
    for (i, part) in parts.iter().enumerate() {
        part.put(out, at + P::SIZE * i);
    }
}
