// What the program prints for a line, as text in a lent buffer. Each function writes from `at` on and returns the place behind what it wrote; without room
// for the longest text of its kind it writes nothing and returns `at`.

#![tactic(auto)]

ghost use Rattle.std.specs.Prelude.{◌≡◌, ◌+◌, cond, ◌&&◌, [], leb, eqb, length};
ghost use Rattle.rules.specs.Records.{most_rows};
ghost use Rattle.rules.specs.Bytes.{rows_size};
ghost use Rattle.rules.specs.Calls.{Outcome, value_of, counted};
ghost use Rattle.rules.specs.Printed.{refused_text, frame_text};
ghost use Rattle.text.specs.Texts.{Stands, most_refused, most_text, number_told, if_room};

mod writing;

use rules::{Frame, Reply};
use writing::Text;

// The most decimal digits of a number, and of an id.
const DIGITS: usize = 20;

const ID_DIGITS: usize = 39;

// The longest text of a refusal, with its word, and of a row: a time, an id and a code, each with the byte behind it.
const REFUSED: usize = 8 + DIGITS + 1;

const ROW: usize = DIGITS + 1 + ID_DIGITS + 1 + DIGITS + 1;

// Frames and image. The longest text of a line: as many rows as there can be.
pub const MOST: usize = rules::MOST_ROWS * ROW;

// Frames and image: refused n.
// Kept: a place beside the buffer, here and at `told`: that is their public signature. Inside the two are one `Text`.
pub fn refused(out: &mut [u8], at: usize, n: u8) -> usize
    ensures { Stands out.old at (if_room most_refused at out.old (refused_text n)) out.new result }
{
    if !octets::has_room(out.len(), at, REFUSED) {
        return at;
    }
    let mut text = Text { out, at };
    text.refused(n);
    text.at
}

// Frames and image. What a frame's call gives to print: what it replied, or the number that it was refused with. `clock` is the schedule's before the call,
// `rows` the buffer that a clock reading was lent.
// Kept: a refusal comes as its number, here and at `refused`, and every number has its text; a `Refusal` would ask more of callers than the promise does.
pub fn told(
    out: &mut [u8],
    at: usize,
    clock: u64,
    f: Frame,
    answer: Result<Reply, u8>,
    rows: &[u8],
) -> usize
    ensures { (o : Outcome) → o.number ≡ number_told answer → o.value ≡ value_of answer → o.bytes ≡ rows.now
        → Stands out.old at
        (cond (eqb (length rows.now) rows_size && leb (counted o.value) most_rows)
        (if_room most_text at out.old (cond (eqb o.number 0) (frame_text clock f o) (refused_text o.number))) []) out.new result }
{
    if rows.len() != rules::ROWS_SIZE {
        return at;
    }
    if rules::MOST_ROWS < rules::times::counted(answer) {
        return at;
    }
    if !octets::has_room(out.len(), at, MOST) {
        return at;
    }
    let mut text = Text { out, at };
    text.told(clock, f, answer, rows);
    text.at
}
