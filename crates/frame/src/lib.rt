// Lines of document 01 and the frames that they stand for: a decoder, an encoder, and that each undoes the other.

#![tactic(auto)]

ghost use Rattle.std.specs.Prelude.{◌≡◌, ◌*◌, ◌<◌, length, get_or};
ghost use Rattle.rules.specs.declared.Frame.{Frame};
ghost use Rattle.rules.specs.declared.Line.TheVariants.{Good, Bad};
ghost use Rattle.rules.specs.Frames.{unhex, line_in, line_of};
ghost use Rattle.frame.specs.Decoded.{width_of, shape_of, size_in, longest_line};
ghost use Rattle.frame.specs.Ends.{up_to, likely_end, LikelyEnd};
ghost use Rattle.frame.specs.Encoded.{encoded, encoded_into, kind_of};

mod digits;
mod fields;

use rules::{Event, Frame, Id, Line};

// Document 02, #105. The width of the ids in frames: 64 bits in recorded lines, 128 bits in those of the calls.
#[derive(Clone, Copy)]
pub enum Width {
    Short,
    Long,
}

// Frames and image. Bytes of each kind of frame: the kind, and then the fields; of those with an id all but the id. An event's frame is the longest.
const EVENT_FRAME: usize = 1 + Event::SIZE - Id::SIZE;

// A cancellation's, and document 02, #102: an opt-out's and an opt-in's.
const ID_FRAME: usize = 1;

const CLOCK_FRAME: usize = 9;

const PROGRAM_FRAME: usize = 7;

const ASK_FRAME: usize = 2;

const LONGEST: usize = EVENT_FRAME + Id::SIZE;

// Frames and image. The longest line of a frame.
pub const LONGEST_LINE: usize = 2 * LONGEST;

// Document 02, #105. Of the kinds from 0 to 7, 0 being none: how many bytes a frame has without its ids, and how many ids.
const FIELDS: [usize; 8] = [
    0,
    EVENT_FRAME,
    ID_FRAME, // a cancellation
    CLOCK_FRAME,
    PROGRAM_FRAME,
    ASK_FRAME,
    ID_FRAME, // an opt-out
    ID_FRAME, // an opt-in
];

const IDS: [usize; 8] = [0, 1, 1, 0, 0, 0, 1, 1];

// Frames and image. How many bytes a frame of a kind has, 0 for a number that is no kind. Every line asks for it, so it does not branch by the kind.
// Kept: 0, not None: `size_in` says so. All that ask compare twice the size with a length, and all but `shape_of` need no case for 0; each would for None.
fn size_of(width: Width, kind: u16) -> usize
    ensures { result ≡ size_in (width_of width) kind }
{
    if 7 < kind {
        return 0;
    }
    let id = match width {
        Width::Short => Id::HALF,
        Width::Long => Id::SIZE,
    };
    FIELDS[kind as usize] + IDS[kind as usize] * id
}

// Frames and image. Where the first line of a text ends: at its line feed, or where the text ends.
pub fn line_end(text: &[u8]) -> usize
    ensures { result ≡ up_to text.now }
{
    text.iter().position(|b| *b == b'\n').unwrap_or(text.len())
}

// Frames and image. Where the first line of a text ends if it is a frame's, whose kind tells how long it is; 0 if no line feed stands there.
// Kept: 0, not None: the public clauses `found` and `is` say so.
pub fn likely_end(width: Width, text: &[u8]) -> usize
    ensures found { LikelyEnd (width_of width) text.now result }
    ensures is { result ≡ likely_end (width_of width) text.now }
{
    let end = 2 * size_of(width, digits::first(text));
    if end < text.len() && text[end] == b'\n' {
        return end;
    }
    0
}

// What a line is: no frame, a frame without an id, or one with an id.
#[derive(Clone, Copy)]
pub enum Shape {
    NoFrame,
    WithoutId,
    WithId,
}

// Document 02, #105. Whether a line is a frame, whatever its fields say, and whether it has an id.
pub fn shape_of(width: Width, line: &[u8]) -> Shape
    ensures { result ≡ shape_of (line_in (width_of width) line.now) }
{
    let kind = digits::first(line);
    let size = size_of(width, kind);
    if size == 0 {
        return Shape::NoFrame;
    }
    if 2 * size != line.len() {
        return Shape::NoFrame;
    }
    if !digits::are_digits(line) {
        return Shape::NoFrame;
    }
    match kind {
        3 | 4 | 5 => Shape::WithoutId,
        _ => Shape::WithId,
    }
}

// Frames and image. The frame that a line stands for. Its first pair is the kind, which tells how long it has to be.
pub fn decode(line: &[u8]) -> Line
    ensures { result ≡ line_of line.now }
{
    let kind = digits::first(line);
    let size = size_of(Width::Long, kind);
    if line.len() != 2 * size {
        return Line::Bad;
    }
    let mut bytes = [0u8; LONGEST];
    if !digits::read_pairs(line, &mut bytes) {
        return Line::Bad;
    }
    fields::frame_as(kind, &bytes)
}

// Frames and image. The kind of a frame.
// Kept: a number, here, at `shape_of`, in the tables and at `fields::frame_as`: document 01 has the kind matched as the primacy byte is (Form by location,
// primacies), and `kind_of` of the definitions gives the number, which their `size_in` and `frame_as` take.
fn kind_of(f: Frame) -> u16
    ensures { result ≡ kind_of f }
{
    match f {
        Frame::Event(_) => 1,
        Frame::Cancel(_) => 2,
        Frame::Clock(_) => 3,
        Frame::Program(_, _, _) => 4,
        Frame::Ask(_) => 5,
        Frame::OptOut(_) => 6,
        Frame::OptIn(_) => 7,
    }
}

// Frames and image. Writes the line of a frame over the front of `out` and returns its length; if `out` is too short, leaves it alone and returns 0.
// Kept: 0, not None: the public clause says so by `encoded_into`.
pub fn encode(f: Frame, out: &mut [u8]) -> usize
    ensures { (result, out.new) ≡ encoded_into f out.old }
{
    let kind = kind_of(f);
    let size = size_of(Width::Long, kind);
    if out.len() < 2 * size {
        return 0;
    }
    let mut bytes = [0u8; LONGEST];
    octets::put(&mut bytes, 0, 1, kind as u64);
    fields::put(&mut bytes, f);
    digits::put_pairs(out, &bytes[..size]);
    2 * size
}

// Frames and image. A frame is decoded from its line.
pub fn decode_encoded(f: Frame)
    ensures { line_of (encoded f) ≡ Good f }
{}

// Frames and image. A line that is decoded is the line of its frame.
pub fn encode_decoded(line: &[u8])
    ensures { (f : Frame) → line_of line.now ≡ Good f → encoded f ≡ line.now }
{}

// Frames and image. A line of more than `LONGEST_LINE` bytes is no frame, so a host need not keep more than one byte more of any line.
pub fn long_line(line: &[u8])
    ensures { longest_line < length line.now → line_of line.now ≡ Bad }
{}
