// Texts where there is room for them, one behind the other.
ghost use Rattle.std.specs.Prelude.{◌≡◌, cond, [], ◌∷◌, ◌++◌, ◌+◌, eqb, length};
ghost use Rattle.rules.specs.Records.{id_number, halves};
ghost use Rattle.rules.specs.Calls.{Outcome, reply_value, value_of, counted};
ghost use Rattle.rules.specs.Printed.{decimal, most_digits, digits, most_id_digits, id_digits, space};
ghost use Rattle.rules.specs.Printed.{refused_text, three_text, code_text, row_text, rows_text, ask_text, frame_text};
ghost use Rattle.text.specs.Texts.{Adds, HasRoom, padded, DigitsFit, Divides, RowsFit, LineFits, number_told};
ghost use Rattle.text.specs.Texts.{most_number, most_id, most_refused, most_ask, most_row};

use rules::{Frame, Id, ROW_CODE, ROW_ID, ROW_SIZE, Reply};

// A number of two halves in two parts: the front, in two halves too, and the last eight digits.
// Kept: halves, as an id has them and `id_digits` of the definitions takes them; a u128 is divided by a call of a routine for each eight digits.
#[derive(Clone, Copy)]
struct Divided {
    high: u64,
    low: u64,
    rest: u32,
}

// Divides a number of two halves by 100000000 as on paper: what is left of one place goes before the next, and a place has 32 bits.
fn divide(high: u64, low: u64) -> Divided
    ensures { Divides high low result }
{
    let upper = high % 100000000 * 0x1_0000_0000 + low / 0x1_0000_0000;
    let lower = upper % 100000000 * 0x1_0000_0000 + low % 0x1_0000_0000;
    Divided {
        high: high / 100000000,
        low: upper / 100000000 * 0x1_0000_0000 + lower / 100000000,
        rest: (lower % 100000000) as u32,
    }
}

// A text in a lent buffer, up to a place.
#[derive(Drop)]
pub(crate) struct Text<'a> {
    pub(crate) out: &'a mut [u8],
    pub(crate) at: usize,
}

impl<'a> Text<'a> {
    // Bytes as they are. It is compiled into its callers, most of which know how many bytes there are.
    #[inline(always)]
    fn put(&mut self, bytes: &[u8])
        requires { HasRoom (length bytes.now) self.old }
        ensures { Adds self.old bytes.now self.new }
    {
        let end = self.at + bytes.len();
        self.out[self.at..end].copy_from_slice(bytes);
        self.at = end;
    }

    // Two digits of a number below 100, zeros too.
    // Kept: a function for each width, here and for `below_hundred` to `below_eight`: each calls that of half its width, and no const argument can be computed.
    fn put_two(&mut self, x: u32)
        requires { DigitsFit 2 x self.old }
        ensures { Adds self.old (padded 2 x) self.new }
    {
        let tens = b'0' + (x / 10) as u8;
        let ones = b'0' + (x % 10) as u8;
        self.put(&[tens, ones]);
    }

    // Four digits of a number below 10000, zeros too. Two pairs stand in one number, so that one product has the tens of both; the bytes of `d` are the digits.
    fn put_four(&mut self, x: u32)
        requires { DigitsFit 4 x self.old }
        ensures { Adds self.old (padded 4 x) self.new }
    {
        let pairs = x / 100 + 65536 * (x % 100);
        let scaled = pairs * 103 / 1024;
        let tens = scaled / 65536 * 65536 + scaled % 16;
        let d = tens + 256 * (pairs - 10 * tens) + 0x3030_3030;
        self.put(&d.to_le_bytes());
    }

    // Eight digits of a number below 100000000, zeros too.
    fn put_eight(&mut self, x: u32)
        requires { DigitsFit 8 x self.old }
        ensures { Adds self.old (padded 8 x) self.new }
    {
        self.put_four(x / 10000);
        self.put_four(x % 10000);
    }

    // A number below 100, no zero in front.
    fn below_hundred(&mut self, x: u32)
        requires { DigitsFit 2 x self.old }
        ensures { Adds self.old (decimal 2 x) self.new }
    {
        if 9 < x {
            self.put_two(x);
            return;
        }
        self.put(&[b'0' + x as u8]);
    }

    // A number below 10000, no zero in front.
    fn below_myriad(&mut self, x: u32)
        requires { DigitsFit 4 x self.old }
        ensures { Adds self.old (decimal 4 x) self.new }
    {
        if x < 100 {
            self.below_hundred(x);
            return;
        }
        self.below_hundred(x / 100);
        self.put_two(x % 100);
    }

    // A number below 100000000, no zero in front.
    fn below_eight(&mut self, x: u32)
        requires { DigitsFit 8 x self.old }
        ensures { Adds self.old (decimal 8 x) self.new }
    {
        if x < 10000 {
            self.below_myriad(x);
            return;
        }
        self.below_myriad(x / 10000);
        self.put_four(x % 10000);
    }

    // A number in decimal digits, no zero in front.
    fn decimal(&mut self, x: u64)
        requires { HasRoom most_digits self.old }
        ensures { Adds self.old (digits x) self.new }
    {
        if x < 100000000 {
            self.below_eight(x as u32);
            return;
        }
        let high = x / 100000000;
        let low = (x % 100000000) as u32;
        if high < 100000000 {
            self.below_eight(high as u32);
            self.put_eight(low);
            return;
        }
        self.below_myriad((high / 100000000) as u32);
        self.put_eight((high % 100000000) as u32);
        self.put_eight(low);
    }

    // A number and the byte behind it.
    fn number(&mut self, x: u64, behind: u8)
        requires { HasRoom most_number self.old }
        ensures { Adds self.old (digits x ++ (behind ∷ [])) self.new }
    {
        if x < 10 {
            self.put(&[b'0' + x as u8, behind]);
            return;
        }
        self.decimal(x);
        self.put(&[behind]);
    }

    // A number of two halves, no zero in front: its front, for which it calls itself, four times at the most, and its last eight digits. `decimal` is left to
    // `number`, into which it is compiled as long as nothing else calls it.
    fn wide(&mut self, high: u64, low: u64)
        requires { HasRoom most_id_digits self.old }
        ensures { Adds self.old (id_digits (halves high low)) self.new }
    {
        if (high == 0) & (low < 100000000) {
            self.below_eight(low as u32);
            return;
        }
        let d = divide(high, low);
        self.wide(d.high, d.low);
        self.put_eight(d.rest);
    }

    // An id and the byte behind it.
    fn id_text(&mut self, id: Id, behind: u8)
        requires { HasRoom most_id self.old }
        ensures { Adds self.old (id_digits (id_number id) ++ (behind ∷ [])) self.new }
    {
        let high = id.upper();
        let low = id.lower();
        if high == 0 {
            self.number(low, behind);
            return;
        }
        self.wide(high, low);
        self.put(&[behind]);
    }

    // refused n
    pub(crate) fn refused(&mut self, n: u8)
        requires { HasRoom most_refused self.old }
        ensures { Adds self.old (refused_text n) self.new }
    {
        self.put(b"refused ");
        self.number(n as u64, b'\n');
    }

    // Three numbers: a clock or a time, an id, a code.
    fn three(&mut self, t: u64, id: Id, k: u8)
        requires { HasRoom most_row self.old }
        ensures { Adds self.old (three_text t (id_number id) k) self.new }
    {
        self.number(t, b' ');
        self.id_text(id, b' ');
        self.number(k as u64, b'\n');
    }

    // A call that names an id and gives a code; nothing for code 0.
    fn code_text(&mut self, clock: u64, id: Id, reply: Reply)
        requires { HasRoom most_row self.old }
        ensures { Adds self.old (code_text clock (id_number id) (reply_value reply)) self.new }
    {
        match reply {
            Reply::Code(k) => {
                if k == 0 {
                    return;
                }
                self.three(clock, id, k)
            }
            _ => {}
        }
    }

    // A control and a word.
    fn control_text(&mut self, control: u8, w: &[u8])
        requires { HasRoom (most_number + length w.now) self.old }
        ensures { Adds self.old (digits control ++ (space ++ w.now)) self.new }
    {
        self.number(control as u64, b' ');
        self.put(w);
    }

    // A question: control event id, control default program, or control none.
    fn ask_text(&mut self, control: u8, reply: Reply)
        requires { HasRoom most_ask self.old }
        ensures { Adds self.old (ask_text control (reply_value reply)) self.new }
    {
        match reply {
            Reply::Holder(id) => {
                self.control_text(control, b"event ");
                self.id_text(id, b'\n')
            }
            Reply::Default(program) => {
                self.control_text(control, b"default ");
                self.number(program as u64, b'\n')
            }
            Reply::Nobody => self.control_text(control, b"none\n"),
            _ => {}
        }
    }

    // The row that stands in the buffer at `from`.
    // Kept: a place in the buffer, not a chunk of it: `row_text` and `rows_text` of the definitions go by places of the same buffer.
    fn row_text(&mut self, rows: &[u8], from: usize)
        requires { RowsFit from 1 rows.now self.old }
        ensures { Adds self.old (row_text from rows.now) self.new }
    {
        let time = octets::get(rows, from, 8);
        let id = octets::get_id(rows, from + ROW_ID);
        self.three(time, id, rows[from + ROW_CODE])
    }

    // The rows in a buffer.
    fn rows_text(&mut self, rows: &[u8], count: usize)
        requires { RowsFit 0 count rows.now self.old }
        ensures { Adds self.old (rows_text count 0 rows.now) self.new }
    {
        for i in 0..count {
            self.row_text(rows, ROW_SIZE * i);
        }
    }

    // What a frame's call gives to print: what it replied, or the number that it was refused with. `clock` is the schedule's before the call, `rows` the buffer
    // that a clock reading was lent.
    pub(crate) fn told(&mut self, clock: u64, f: Frame, answer: Result<Reply, u8>, rows: &[u8])
        requires { LineFits self.old rows.now (counted (value_of answer)) }
        ensures { (o : Outcome) → o.number ≡ number_told answer → o.value ≡ value_of answer → o.bytes ≡ rows.now
            → Adds self.old (cond (eqb o.number 0) (frame_text clock f o) (refused_text o.number)) self.new }
    {
        match answer {
            Ok(reply) => self.replied(clock, f, reply, rows),
            // No call is refused with 0, and there is no text for it.
            Err(n) => {
                if n != 0 {
                    self.refused(n)
                }
            }
        }
    }

    // What a frame's call replied.
    fn replied(&mut self, clock: u64, f: Frame, reply: Reply, rows: &[u8])
        requires { LineFits self.old rows.now (counted (reply_value reply)) }
        ensures { (o : Outcome) → o.value ≡ reply_value reply → o.bytes ≡ rows.now → Adds self.old (frame_text clock f o) self.new }
    {
        match f {
            Frame::Event(e) => self.code_text(clock, e.id, reply),
            Frame::Cancel(id) | Frame::OptOut(id) | Frame::OptIn(id) => {
                self.code_text(clock, id, reply)
            }
            Frame::Clock(_) => self.rows_text(rows, reply.count()),
            Frame::Program(_, _, _) => {}
            Frame::Ask(control) => self.ask_text(control, reply),
        }
    }
}
