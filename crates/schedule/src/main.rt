// The program `schedule`: frames from standard input, one to a line, and what document 01 has printed for each on standard output. It reads and writes in
// large pieces, and keeps no more of its input than one buffer. What is printed for the lines in it is what `calls::run` promises.

#![tactic(auto)]

ghost use Rattle.std.specs.Prelude.{◌≡◌, ◌≤◌, true, length, MatchResult};
ghost use Rattle.rules.specs.Sound.{sound};
ghost use Rattle.text.specs.Texts.{most_text};
ghost use Rattle.input.specs.Kept.{buffer_size};
ghost use Rattle.schedule.specs.Pieces.{Leaves};

use input::Lines;
use rules::Schedule;
use std::io::Write;

// Room for texts: as many bytes as a piece of the input has at most.
const BUFFER: usize = 65536;

// Runs over all lines that end in a piece, and writes their texts. How many bytes these lines were: the bytes behind them go on, with the schedule, where the texts
// of these lines stop. In an error so many bytes were taken, and the texts of these were written. The lines of one more run are not counted, although the schedule is
// the one behind them: their texts could not be written.
fn print_lines(
    writer: &mut impl Write,
    s: &mut Schedule,
    piece: &[u8],
    out: &mut [u8],
) -> Result<usize, usize>
    requires kept_rules { sound s.old ≡ true }
    requires room { most_text ≤ length out.old }
    ensures kept_rules { sound s.new ≡ true }
    ensures taken { MatchResult result (Leaves s.old piece.now s.new) (λ read. read ≤ length piece.now) }
{
    let mut from = 0;
    // Kept: no `for`, as where the next run begins is where the one before ended.
    loop {
        let ran = calls::run(*s, &piece[from..], out);
        *s = ran.schedule;
        // No refusal, since the schedule is sound: how many bytes the run wrote.
        let n = rules::times::counted(ran.answer);
        if writer.write_all(&out[..n]).is_err() {
            return Err(from);
        }
        if ran.read == 0 {
            return Ok(from);
        }
        from += ran.read;
    }
}

// A schedule that is sound, and room for texts, as much as for a piece of the input.
#[derive(Drop)]
struct Scheduler {
    schedule: Schedule,
    out: [u8; BUFFER],
    ghost kept_rules: { sound schedule ≡ true },
    ghost room: { length out ≡ buffer_size },
}

impl Lines for Scheduler {
    fn print(&mut self, writer: &mut impl Write, piece: &[u8]) -> Result<usize, usize> {
        print_lines(writer, &mut self.schedule, piece, &mut self.out)
    }
}

fn main(rt: HostRuntime) {
    let mut scheduler = Scheduler {
        schedule: Schedule::fresh(),
        out: [0; BUFFER],
    };
    input::run(&mut rt.stdin(), &mut rt.stdout(), &mut scheduler);
}
