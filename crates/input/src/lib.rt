// What a program keeps of its input from one piece to the next: the line that has not ended yet.

#![tactic(auto)]

ghost use Rattle.std.specs.Prelude.{◌≡◌, ℕ, ◌+◌, ◌-◌, ◌<◌, ◌≤◌, false, cond, List, [], ◌∷◌, ◌++◌, eqb, length, take, drop, MatchResult};
ghost use Rattle.std.specs.Io.{StartsWith};
ghost use Rattle.input.specs.Kept.{Within, KeepsLine, buffer_size, most_kept, kept};

use std::io::{Read, Write};
use std::marker::Model;

// The input is read in pieces of up to so many bytes.
const BUFFER: usize = 65536;

// No more bytes of a line can matter: one of so many is no frame, whatever follows.
const KEPT: usize = frame::LONGEST_LINE + 1;

// The bytes between two places go to the front of a buffer, as many of them as can matter; how many that is. Places that are not in it keep nothing.
pub fn keep(buffer: &mut [u8], from: usize, to: usize) -> usize
    ensures keeps { Within from to buffer.old → KeepsLine from to buffer.old buffer.new result }
    ensures is { (result, buffer.new) ≡ kept from to buffer.old }
{
    if buffer.len() < to || to < from {
        return 0;
    }
    let n = KEPT.min(to - from);
    buffer.copy_within(from..from + n, 0);
    n
}

// A loop by hand over an input has to end, and nothing says that the input does: its turns are counted down from a number that no run uses up. How many are left.
// Kept: docs/CALLS.md names it as a promise of this crate. `run` does not go through it: it counts its turns by a `for`.
pub fn left(turns: u64, more: bool) -> u64
    ensures fewer { 0 < turns → result < turns }
    ensures is { result ≡ cond more (turns - 1) 0 }
{
    if more { turns.saturating_sub(1) } else { 0 }
}

// The bytes of a program's input that no line has taken yet, at the front of a buffer.
#[derive(Drop)]
struct Input {
    buffer: [u8; BUFFER],
    end: usize,
}

impl Model for Input {
    ghost Value = { List ℕ };

    ghost view = { λ i. take i.end i.buffer };

    ghost invariant = { λ i. i.end ≤ buffer_size };
}

impl Input {
    // Nothing was read yet.
    fn new() -> Input
        ensures { result ≡ [] }
    {
        Input {
            buffer: [0; BUFFER],
            end: 0,
        }
    }

    fn piece(&self) -> &[u8]
        ensures { result.now ≡ self.now }
    {
        &self.buffer[..self.end]
    }

    // Reads behind the bytes that are there. Whether any byte came: none is the end of the input, and so is a read that fails.
    fn read(&mut self, reader: &mut impl Read) -> bool
        ensures behind { StartsWith self.new self.old }
        ensures none { result ≡ false → self.new ≡ self.old }
    {
        let came = reader.read(&mut self.buffer[self.end..]).unwrap_or(0);
        self.end += came;
        0 < came
    }

    // Lines took so many bytes. Of those behind them no more is kept than can matter.
    fn take(&mut self, taken: usize)
        requires { taken ≤ length self.old }
        ensures is { self.new ≡ take most_kept (drop taken self.old) }
        ensures few { length self.new ≤ most_kept }
    {
        self.end = keep(&mut self.buffer, taken, self.end);
    }

    // The line that has not ended ends here, if there is one.
    fn end_line(&mut self)
        requires { length self.old ≤ most_kept }
        ensures { self.new ≡ cond (eqb (length self.old) 0) [] (self.old ++ (10 ∷ [])) }
    {
        if 0 < self.end {
            self.buffer[self.end] = b'\n';
            self.end += 1;
        }
    }
}

// What a program does with the lines of its input.
pub trait Lines {
    // Takes all lines that end in a piece, and writes what is to be written for them. How many bytes these lines were. In an error so many were taken, and a write
    // failed: what was to be written for the last of them may be lost.
    fn print(&mut self, writer: &mut impl Write, piece: &[u8]) -> Result<usize, usize>
        ensures taken { MatchResult result (λ read. read ≤ length piece.now) (λ read. read ≤ length piece.now) };
}

// All lines of the reader, the last with or without its line feed. After an error nothing more is read, and what is kept of a line is the last. No run takes so many
// turns. How many bytes the last piece has: never more than can matter of a line, and a line feed.
pub fn run(reader: &mut impl Read, writer: &mut impl Write, lines: &mut impl Lines) -> usize
    ensures { result ≤ most_kept + 1 }
{
    let mut input = Input::new();
    for _turn in 0..u64::MAX {
        if !input.read(reader) {
            break;
        }
        match lines.print(writer, input.piece()) {
            Ok(read) => input.take(read),
            Err(read) => {
                input.take(read);
                break;
            }
        }
    }
    input.end_line();
    let last = input.piece();
    let _ = lines.print(writer, last);
    last.len()
}
