// Pairs of upper-case hexadecimal digits, read and written.
ghost use Rattle.std.specs.Prelude.{◌≡◌, ◌*◌, ◌<◌, ◌≤◌, ltb, length, get_or};
ghost use Rattle.rules.specs.Lists.{over};
ghost use Rattle.rules.specs.Frames.{digit, unhex};
ghost use Rattle.frame.specs.Decoded.{worth, all_digits, Table, LineOfPairs, Unhexed};
ghost use Rattle.frame.specs.Encoded.{hex, hexed};

use crate::LONGEST;

// The most frequent lengths of recorded lines: an event's, and that of a clock reading, which a cancellation shares.
const SHORT_EVENT: usize = 68;

const CLOCK: usize = 18;

// What a digit stands for, 16 for any other byte.
// Kept: 16, not None: the definition `digit` says so, and one comparison of `size_of` tests the kind and both its digits.
// Kept: a `match` beside `table`: this reads one pair of a line, for which a table of 256 entries would first be made.
fn nibble(c: u8) -> u8
    ensures { result ≡ digit c }
{
    match c {
        b'0'..=b'9' => c - b'0',
        b'A'..=b'F' => c - b'A' + 10,
        _ => 16,
    }
}

// What the first pair stands for. It is above 15 where a byte of it is no digit.
// Kept: 0, not None, where there is no pair: the promise says so by `get_or`, and 0 is the number of no kind.
pub(crate) fn first(line: &[u8]) -> u16
    ensures { result ≡ get_or (unhex line.now) 0 0 }
{
    let [high, low, ..] = line else {
        return 0;
    };
    16 * nibble(*high) as u16 + nibble(*low) as u16
}

// Whether a byte is a digit. Both tests are made of every byte, so that no branch stands in the way of taking many bytes at once.
fn is_digit(c: u8) -> bool
    ensures { result ≡ ltb (digit c) 16 }
{
    let low = (b'0' <= c) & (c <= b'9');
    let high = (b'A' <= c) & (c <= b'F');
    low | high
}

// Whether every byte is a digit. The loop does not stop at one that is none, so that it can take many bytes at once.
fn all_digits(line: &[u8]) -> bool
    ensures { result ≡ all_digits line.now }
{
    let mut all = true;
    for c in line {
        all &= is_digit(*c);
    }
    all
}

// The same. Most lines are of one of two lengths, and a loop whose end is known leaves no bytes over that are taken one by one.
pub(crate) fn are_digits(line: &[u8]) -> bool
    ensures { result ≡ all_digits line.now }
{
    let n = line.len();
    if n == SHORT_EVENT {
        return all_digits(&line[..SHORT_EVENT]);
    }
    if n == CLOCK {
        return all_digits(&line[..CLOCK]);
    }
    all_digits(line)
}

// What each byte stands for as a digit, 256 where it is none.
// Kept: 256, not None, here and at `value`: the definition `worth` says so, and one comparison of `read_pairs` tests both bytes of a pair.
fn table() -> [u16; 256]
    ensures { Table result }
{
    let mut values = [256u16; 256];
    for d in 0..16u8 {
        values[digit_of(d) as usize] = d as u16;
    }
    values
}

// What one byte stands for.
fn value(values: &[u16; 256], c: u8) -> u16
    requires { Table values.now }
    ensures { result ≡ worth c }
{
    values[c as usize]
}

// The bytes that the pairs of a line stand for, in one pass that stops at the first pair with a byte that is no digit; whether there is no such byte.
// Kept: a `bool` and a lent array, not an `Option` of the array: that is copied byte by byte, 30 instructions more for each line.
pub(crate) fn read_pairs(line: &[u8], bytes: &mut [u8; LONGEST]) -> bool
    requires { LineOfPairs line.now bytes.old }
    ensures { Unhexed line.now result bytes.new }
{
    let values = table();
    let (pairs, _) = line.as_chunks::<2>();
    for (i, [high, low]) in pairs.iter().enumerate() {
        let high = value(&values, *high);
        let low = value(&values, *low);
        let pair = 16 * high + low;
        if 255 < pair {
            return false;
        }
        bytes[i] = pair as u8;
    }
    true
}

// The digit of a number below 16.
fn digit_of(d: u8) -> u8
    requires { d < 16 }
    ensures { result ≡ hex d }
{
    match d {
        0..=9 => b'0' + d,
        _ => b'A' + (d - 10),
    }
}

// Writes bytes as pairs over the front of `out`.
// Kept: two places of `out` by their index: the library says nothing of what a slice ends as whose chunks were lent to be written.
pub(crate) fn put_pairs(out: &mut [u8], bytes: &[u8])
    requires { 2 * length bytes.now ≤ length out.old }
    ensures { out.new ≡ over (hexed bytes.now) out.old }
{
    for (i, byte) in bytes.iter().enumerate() {
        out[2 * i] = digit_of(*byte / 16);
        out[2 * i + 1] = digit_of(*byte % 16);
    }
}
