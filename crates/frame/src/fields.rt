// The fields of frames, behind the byte of the kind: read from bytes, and written as bytes.
ghost use Rattle.std.specs.Prelude.{◌≡◌, length};
ghost use Rattle.rules.specs.Lists.{over_at};
ghost use Rattle.rules.specs.Frames.{event_frame};
ghost use Rattle.frame.specs.Decoded.{frame_as};
ghost use Rattle.frame.specs.Encoded.{program_fields, field_bytes};

use rules::{Frame, Line};

// Frames and image. The frame of a kind.
pub(crate) fn frame_as(kind: u16, b: &[u8]) -> Line
    requires { length b.now ≡ event_frame }
    ensures { result ≡ frame_as kind b.now }
{
    match kind {
        1 => Line::Good(Frame::Event(octets::get_event(b, 1))),
        2 => Line::Good(Frame::Cancel(octets::get_id(b, 1))),
        3 => Line::Good(Frame::Clock(octets::get(b, 1, 8))),
        4 => {
            let defaults = octets::get(b, 3, 4) as u32;
            Line::Good(Frame::Program(b[1], b[2], defaults))
        }
        5 => Line::Good(Frame::Ask(b[1])),
        6 => Line::Good(Frame::OptOut(octets::get_id(b, 1))),
        7 => Line::Good(Frame::OptIn(octets::get_id(b, 1))),
        _ => Line::Bad,
    }
}

// The fields of a frame.
pub(crate) fn put(b: &mut [u8], f: Frame)
    requires { length b.old ≡ event_frame }
    ensures { b.new ≡ over_at 1 (field_bytes f) b.old }
{
    match f {
        Frame::Event(e) => octets::put_event(b, 1, e),
        Frame::Cancel(id) | Frame::OptOut(id) | Frame::OptIn(id) => octets::put_id(b, 1, id),
        Frame::Clock(t) => octets::put8(b, 1, t),
        Frame::Program(n, p, d) => put_program(b, n, p, d),
        Frame::Ask(c) => octets::put(b, 1, 1, c as u64),
    }
}

// The fields of a program.
fn put_program(b: &mut [u8], n: u8, p: u8, d: u32)
    requires { length b.old ≡ event_frame }
    ensures { b.new ≡ over_at 1 (program_fields n p d) b.old }
{
    octets::put(b, 1, 1, n as u64);
    octets::put(b, 2, 1, p as u64);
    octets::put(b, 3, 4, d as u64);
}
