// Document 02, #105. Recorded lines turned: ids of 64 bits into ids of 128 bits, and back. No field is looked at: whatever a frame says, it is turned.

#![tactic(auto)]

ghost use Rattle.std.specs.Prelude.{◌≡◌, ◌+◌, ◌^◌, ◌<◌, ◌≤◌, ◌++◌, length, cond};
ghost use Rattle.rules.specs.Converted.{kind_digits, half_digits, widened, narrowed, lengthened, shortened, turned_into};
ghost use Rattle.convert.specs.Turns.{other_than, turned_to, answered, refused_line, written_at, turned_at, upper_zero};
ghost use Rattle.convert.specs.Recorded.{Conversions};

use frame::{Shape, Width};
use rules::{Answer, Id, Refusal, Reply};

// Digits of a line's kind, and of half an id.
const KIND: usize = 2;

const HALF: usize = 2 * Id::HALF;

// The digits of an upper half that is zero.
const ZEROS: [u8; HALF] = [b'0'; HALF];

// The width that lines are turned from.
pub fn other_than(to: Width) -> Width
    ensures { result ≡ other_than to }
{
    match to {
        Width::Short => Width::Long,
        Width::Long => Width::Short,
    }
}

// Three parts of a line, one behind the other, over what stands in `out` from `at` on; 13 if there is no room for them.
fn write(out: &mut [u8], at: usize, kind: &[u8], zeros: &[u8], rest: &[u8]) -> Answer
    requires { length kind.now + length zeros.now + length rest.now < 2 ^ 64 }
    ensures { answered result out.new ≡ written_at (kind.now ++ (zeros.now ++ rest.now)) at out.old }
{
    let n = kind.len() + zeros.len() + rest.len();
    if !octets::has_room(out.len(), at, n) {
        return Err(Refusal::NoRoom);
    }
    octets::copy(out, at, kind, kind.len());
    octets::copy(out, at + kind.len(), zeros, zeros.len());
    octets::copy(out, at + kind.len() + zeros.len(), rest, rest.len());
    Ok(Reply::Count(n))
}

// A line with an id, the digits of a zero upper half behind its kind.
fn widen(line: &[u8], out: &mut [u8], at: usize) -> Answer
    requires { kind_digits ≤ length line.now }
    ensures { answered result out.new ≡ written_at (widened line.now) at out.old }
{
    let (kind, id) = line.split_at(KIND);
    write(out, at, kind, &ZEROS, id)
}

// Whether the digits of an id's upper half are all 0.
fn upper_is_zero(line: &[u8]) -> bool
    requires { kind_digits + half_digits ≤ length line.now }
    ensures { result ≡ upper_zero line.now }
{
    line[KIND..].starts_with(&ZEROS)
}

// A line with an id, without the digits of its upper half; 15 if these are not all 0.
fn narrow(line: &[u8], out: &mut [u8], at: usize) -> Answer
    requires { kind_digits + half_digits ≤ length line.now }
    ensures { answered result out.new ≡ cond (upper_zero line.now) (written_at (narrowed line.now) at out.old) (refused_line 15 out.old) }
{
    if !upper_is_zero(line) {
        return Err(Refusal::UpperHalf);
    }
    write(out, at, &line[..KIND], &ZEROS[..0], &line[KIND + HALF..])
}

// Document 02, #105. A line turned to a width, over what stands in `out` from `at` on: how long it became, or 1, 15, 13 and `out` as it was.
pub fn turn(to: Width, line: &[u8], out: &mut [u8], at: usize) -> Answer
    ensures { answered result out.new ≡ turned_at (turned_to to line.now) at out.old }
{
    match frame::shape_of(other_than(to), line) {
        Shape::NoFrame => Err(Refusal::NoFrame),
        Shape::WithoutId => write(out, at, line, &ZEROS[..0], &ZEROS[..0]),
        Shape::WithId => match to {
            Width::Short => narrow(line, out, at),
            Width::Long => widen(line, out, at),
        },
    }
}

// Kept: a function each way beside `turn`, as the documents name both.

// Document 02, #105. A line with ids of 64 bits becomes one with ids of 128 bits, over the front of `out`: how long it became, or 1, 13 and `out` as it was.
pub fn lengthen(line: &[u8], out: &mut [u8]) -> Answer
    ensures { answered result out.new ≡ turned_into (lengthened line.now) out.old }
{
    turn(Width::Long, line, out, 0)
}

// Document 02, #105. The way back: how long the line became, or 1, 15, 13 and `out` as it was.
pub fn shorten(line: &[u8], out: &mut [u8]) -> Answer
    ensures { answered result out.new ≡ turned_into (shortened line.now) out.old }
{
    turn(Width::Short, line, out, 0)
}

// Document 02, #105: its sentences, of the definitions.
pub fn conversions()
    ensures { Conversions }
{}
