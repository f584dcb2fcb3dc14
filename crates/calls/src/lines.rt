// Frames acted on, and lines found in a text, on a sound schedule.
ghost use Rattle.std.specs.Prelude.{◌≡◌, ◌+◌, ◌≤◌, length};
ghost use Rattle.rules.specs.Bytes.{rows_size};
ghost use Rattle.rules.specs.Calls.{number_of, value_of};
ghost use Rattle.text.specs.Texts.{most_text, number_told};
ghost use Rattle.frame.specs.Ends.{ended_of};
ghost use Rattle.calls.specs.Says.{ActsOn, Says};
ghost use Rattle.calls.specs.Lines.{IsNext, runs, ran_of, ran_into};

use crate::held::{NO_ROWS, Rows, SoundSchedule};
use crate::{Ran, events, programs, reading};
use frame::Width;
use rules::{Answer, Frame, Line, Refusal, Reply};

// Frames and image. The call of a frame; a clock reading writes its rows over the front of the buffer.
fn act_on(s: &mut SoundSchedule, f: Frame, rows: &mut Rows) -> Answer
    requires { length rows.old ≡ rows_size }
    ensures { ActsOn s.old.schedule f result s.new.schedule rows.new }
{
    match f {
        Frame::Event(e) => events::deliver(s, e),
        Frame::Cancel(id) => events::cancel(s, id),
        Frame::Clock(t) => reading::pass(s, t, rows),
        Frame::Program(n, p, m) => programs::add_program(s, n, p, m),
        Frame::Ask(c) => programs::ask(s, c),
        Frame::OptOut(id) => events::choose(s, id, true),
        Frame::OptIn(id) => events::choose(s, id, false),
    }
}

// A line of a text: where it ends, and what it stands for.
#[derive(Clone, Copy)]
struct NextLine {
    end: usize,
    line: Line,
}

// Frames and image. The line that begins at `from`. A frame's line has no line feed in it, so only a line that is no frame is searched for one.
fn next_line(text: &[u8], from: usize) -> NextLine
    requires { from ≤ length text.now }
    ensures { IsNext text.now from result }
{
    let likely = from + frame::likely_end(Width::Long, &text[from..]);
    let decoded = frame::decode(&text[from..likely]);
    if let Line::Good(_) = decoded {
        return NextLine {
            end: likely,
            line: decoded,
        };
    }
    let end = from + frame::line_end(&text[from..]);
    let line = frame::decode(&text[from..end]);
    NextLine { end, line }
}

// What was answered, a refusal as its number.
fn numbered(answer: Answer) -> Result<Reply, u8>
    ensures number { number_told result ≡ number_of answer }
    ensures value { value_of result ≡ value_of answer }
{
    answer.map_err(|refusal| refusal.number())
}

// Frames and image, the program. Acts on what a line stands for and writes the line's text from `at` on; the place behind it.
fn tell(s: &mut SoundSchedule, line: Line, rows: &mut Rows, out: &mut [u8], at: usize) -> usize
    requires { (length rows.old ≡ rows_size) × (at + most_text ≤ length out.old) }
    ensures { Says s.old.schedule line out.old at result s.new.schedule rows.new out.new }
{
    let Line::Good(f) = line else {
        return text::refused(out, at, Refusal::NoFrame.number());
    };
    let clock = s.schedule.clock;
    let answer = act_on(s, f, rows);
    text::told(out, at, clock, f, numbered(answer), rows)
}

// Line after line, as long as there is room for any text.
pub(crate) fn run(s: SoundSchedule, lines: &[u8], out: &mut [u8]) -> Ran
    ensures { ran_of result out.new ≡ ran_into (runs (length out.old) s.schedule (ended_of lines.now)) out.old }
{
    let mut s = s;
    let mut rows = NO_ROWS;
    let mut from = 0;
    let mut at = 0;
    // Kept: no `for`, as where the next line begins is where the one before ended.
    while from < lines.len() {
        let found = next_line(lines, from);
        let end = found.end;
        if end == lines.len() {
            break;
        }
        if out.len() - at < text::MOST {
            break;
        }
        at = tell(&mut s, found.line, &mut rows, out, at);
        from = end + 1;
    }
    Ran {
        answer: Ok(Reply::Count(at)),
        read: from,
        schedule: s.schedule,
    }
}
