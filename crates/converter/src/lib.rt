// Document 02, #105. Lines from a reader, each turned to a width, to a writer. It reads in large pieces and keeps no more of its input than one
// buffer; it writes whole blocks, so nothing until there is one or the input ends.

#![tactic(auto)]

ghost use Rattle.std.specs.Prelude.{◌≡◌, eqb, ℕ, ◌+◌, ◌<◌, ◌≤◌, List, [], length, take, MatchOption, MatchResult};
ghost use Rattle.rules.specs.Calls.{number_of};
ghost use Rattle.text.specs.Texts.{Stands};
ghost use Rattle.converter.specs.Pieces.{most_turned, block_size, end_at, end_text, CanEnd, Tells, Unended, CanPrint, PrintsSome, Leaves};
ghost use Rattle.converter.specs.Cut.{CutLines};

use frame::Width;
use input::Lines;
use rules::{Answer, Refusal};
use std::io::{Read, Write};
use std::marker::Model;

// Room for the text of any line: a turned line and its line feed. The text of a refusal is shorter.
const MOST: usize = frame::LONGEST_LINE + 1;

// The output is written in blocks of whole pages: a system takes these in less time than parts of pages.
const BLOCK: usize = 65536;

// Ends the text of a line: the line feed behind a turned one, or the text of its refusal. The place behind it.
fn end_text(turned: Answer, out: &mut [u8], at: usize) -> usize
    requires { CanEnd turned at out.old }
    ensures { Stands out.old (end_at turned at) (end_text (number_of turned)) out.new result }
{
    match turned {
        Ok(reply) => {
            let end = at + reply.count();
            out[end] = b'\n';
            end + 1
        }
        Err(refusal) => text::refused(out, at, refusal.number()),
    }
}

// Whether a line is refused because it is no frame.
fn is_no_frame(turned: Answer) -> bool
    ensures { result ≡ eqb (number_of turned) 1 }
{
    turned == Err(Refusal::NoFrame)
}

// Where a line ends, and the place behind its text.
#[derive(Clone, Copy)]
struct Told {
    end: usize,
    behind: usize,
}

// Turns the first line, and writes its text from `at` on; what it writes of a line that has not ended does not count. A frame's kind tells where its line ends, so
// only a line that is no frame is searched for its line feed.
fn tell(to: Width, lines: &[u8], out: &mut [u8], at: usize) -> Option<Told>
    requires { at + most_turned ≤ length out.old }
    ensures { MatchOption result (Unended lines.now out.old at out.new) (Tells to lines.now out.old at out.new) }
{
    let likely = frame::likely_end(convert::other_than(to), lines);
    let turned = convert::turn(to, &lines[..likely], out, at);
    let behind = end_text(turned, out, at);
    let end = if is_no_frame(turned) {
        frame::line_end(lines)
    } else {
        likely
    };
    (end < lines.len()).then_some(Told { end, behind })
}

// How many bytes of a piece were taken, and how many bytes of texts are still to be written.
#[derive(Clone, Copy)]
struct Printed {
    read: usize,
    pending: usize,
}

// Line after line, until there is a block of texts.
fn print_some(to: Width, piece: &[u8], out: &mut [u8], pending: usize) -> Printed
    requires { CanPrint pending out.old }
    ensures { PrintsSome to piece.now pending out.old result out.new }
{
    let mut from = 0;
    let mut at = pending;
    // Kept: no `for`, as where the next line begins is where the one before ended.
    while at < BLOCK {
        let Some(told) = tell(to, &piece[from..], out, at) else {
            break;
        };
        from += told.end + 1;
        at = told.behind;
    }
    Printed {
        read: from,
        pending: at,
    }
}

// The texts that are still to be written, at the front of a buffer with room for a block and one text more.
#[derive(Drop)]
struct Output {
    buffer: [u8; BLOCK + MOST],
    end: usize,
}

impl Model for Output {
    ghost Value = { List ℕ };

    ghost view = { λ o. take o.end o.buffer };

    ghost invariant = { λ o. (o.end < block_size) × (length o.buffer ≡ block_size + most_turned) };
}

impl Output {
    fn new() -> Output
        ensures { result ≡ [] }
    {
        Output {
            buffer: [0; BLOCK + MOST],
            end: 0,
        }
    }

    // Turns all lines that end in a piece, and writes their texts, up to what makes no block. How many bytes these lines were: the bytes behind them go on where
    // the texts of these lines stop. In an error so many bytes were taken, but a block could not be written: no text is left.
    fn print_lines(
        &mut self,
        writer: &mut impl Write,
        to: Width,
        piece: &[u8],
    ) -> Result<usize, usize>
        ensures { MatchResult result (Leaves to piece.now self.old self.new) (λ read. (read ≤ length piece.now) × (self.new ≡ [])) }
    {
        let mut from = 0;
        // Kept: no `for`, as where the next block's lines begin is where those of the one before ended.
        loop {
            let some = print_some(to, &piece[from..], &mut self.buffer, self.end);
            from += some.read;
            if some.pending < BLOCK {
                self.end = some.pending;
                return Ok(from);
            }
            if writer.write_all(&self.buffer[..BLOCK]).is_err() {
                self.end = 0;
                return Err(from);
            }
            self.end = input::keep(&mut self.buffer, BLOCK, some.pending);
        }
    }

    // Kept: no one type with `Input` of crates/input: only `new` and this method would be shared, and the invariants differ: behind these texts there is room
    // for one more.
    fn rest(&self) -> &[u8]
        ensures { result.now ≡ self.now }
    {
        &self.buffer[..self.end]
    }
}

// Lines turned to a width.
#[derive(Drop)]
struct Converter {
    to: Width,
    output: Output,
}

impl Lines for Converter {
    fn print(&mut self, writer: &mut impl Write, piece: &[u8]) -> Result<usize, usize> {
        self.output.print_lines(writer, self.to, piece)
    }
}

// Document 02, #105. All lines of the reader. The last block is a part of one.
pub fn run(reader: &mut impl Read, writer: &mut impl Write, to: Width) {
    let mut converter = Converter {
        to,
        output: Output::new(),
    };
    input::run(reader, writer, &mut converter);
    let _ = writer.write_all(converter.output.rest());
}

// Document 02, #105. Of a line that has not ended no more counts than what is kept of it. This function does nothing: it carries the law as its promise.
pub fn cut_lines()
    ensures { CutLines }
{}
