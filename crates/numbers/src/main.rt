// Each call on documents 01's and 02's numbers: the worked example, bench marks, choices, and every refusal of the six calls. What it writes is held to the file stdout.

#![tactic(auto)]

use calls::Answered;
use rules::{Event, Id, ROW_SIZE, ROWS_SIZE, Reply, Schedule};
use std::io;

// The bytes of a buffer that two rows do not fit.
const SHORT: usize = 2 * ROW_SIZE - 1;

// What a call replied, on a line; an id as its sixteen bytes.
// Kept: functions, here and at `show`, and no `Display`: `Reply` and `Answered` are types of other crates, and the words are this program's alone.
fn show_reply(rt: &impl Print, reply: Reply) -> io::Result<()> {
    match reply {
        Reply::Code(k) => println!(rt; "code {k}"),
        Reply::Count(n) => println!(rt; "count {n}"),
        Reply::Holder(id) => println!(rt; "event {:016x}{:016x}", id.upper(), id.lower()),
        Reply::Default(p) => println!(rt; "default {p}"),
        Reply::Nobody => println!(rt; "nobody"),
    }
}

// What a call answered, on a line.
fn show(rt: &impl Print, r: Answered) -> io::Result<Schedule> {
    match r.answer {
        Ok(reply) => show_reply(rt, reply)?,
        Err(refusal) => println!(rt; "refused {}", refusal.number())?,
    }
    Ok(r.schedule)
}

// A row on a line.
fn show_row(rt: &impl Print, row: &[u8]) -> io::Result<()> {
    for byte in row {
        print!(rt; "{byte:02x}")?;
    }
    println!(rt)
}

// The rows of a count, as they lie in the buffer.
fn show_rows(rt: &impl Print, buffer: &[u8], count: usize) -> io::Result<()> {
    for row in buffer.chunks_exact(ROW_SIZE).take(count) {
        show_row(rt, row)?;
    }
    Ok(())
}

// Sets the clock, and shows the rows and then the answer.
fn read_clock(rt: &impl Print, s: Schedule, reading: u64) -> io::Result<Schedule> {
    let mut buffer = [0u8; ROWS_SIZE];
    let r = calls::set_clock(s, reading, &mut buffer);
    show_rows(rt, &buffer, rules::times::counted(r.answer))?;
    show(rt, r)
}

// Id, program, controls, creation time, start, duration; nothing drawn.
fn event(id: Id, program: u8, controls: u32, created: u32, start: u32, duration: u32) -> Event {
    Event {
        id,
        program,
        controls,
        created,
        start,
        duration,
        ..Event::none()
    }
}

// An id below 2^64.
fn small(low: u64) -> Id {
    Id::of(0, low)
}

// The worked example.
fn example(rt: &impl Print) -> io::Result<()> {
    println!(rt; "example")?;
    let mut s = Schedule::fresh();
    s = show(rt, calls::add_program(s, 0, 1, 1))?;
    s = read_clock(rt, s, 4000)?;
    s = show(rt, calls::deliver(s, event(small(1), 0, 1, 100, 5000, 600)))?;
    s = show(rt, calls::deliver(s, event(small(2), 0, 1, 200, 5300, 60)))?;
    s = show(rt, calls::ask(s, 0))?;
    s = read_clock(rt, s, 5299)?;
    s = show(rt, calls::ask(s, 0))?;
    s = read_clock(rt, s, 6000)?;
    s = show(rt, calls::ask(s, 0))?;
    show(rt, calls::ask(s, 1))?;
    Ok(())
}

// T10 and T11, with a cancellation before the end of T11's first.
fn bench(rt: &impl Print) -> io::Result<()> {
    println!(rt; "T10")?;
    let mut s = Schedule::fresh();
    s = show(rt, calls::add_program(s, 1, 1, 0))?;
    s = read_clock(rt, s, 4000)?;
    s = show(rt, calls::deliver(s, event(small(1), 1, 1, 3, 5000, 10)))?;
    s = show(rt, calls::deliver(s, event(small(2), 1, 1, 2, 5005, 25)))?;
    s = show(rt, calls::deliver(s, event(small(3), 1, 1, 1, 5012, 8)))?;
    s = read_clock(rt, s, 5030)?;
    println!(rt; "T11")?;
    s = show(rt, calls::deliver(s, event(small(2), 1, 3, 0, 6000, 600)))?;
    s = show(rt, calls::deliver(s, event(small(1), 1, 1, 1, 6300, 60)))?;
    s = read_clock(rt, s, 6300)?;
    s = show(rt, calls::ask(s, 0))?;
    s = show(rt, calls::ask(s, 1))?;
    s = show(rt, calls::cancel(s, small(2)))?;
    s = show(rt, calls::cancel(s, small(2)))?;
    s = show(rt, calls::ask(s, 1))?;
    read_clock(rt, s, 9_000_000_000)?;
    Ok(())
}

// Document 02, #102 and #104: two events that end in one second, under ids that agree in their lower halves; the one's user comes back, the other's leaves.
fn choices(rt: &impl Print) -> io::Result<()> {
    println!(rt; "choices")?;
    let mut s = Schedule::fresh();
    s = show(rt, calls::add_program(s, 0, 1, 1))?;
    s = show(rt, calls::deliver(s, event(small(1), 0, 1, 0, 5000, 10)))?;
    s = show(
        rt,
        calls::deliver(s, event(Id::of(1, 1), 0, 2, 0, 5000, 10)),
    )?;
    s = show(rt, calls::choose(s, small(1), true))?;
    s = show(rt, calls::choose(s, small(1), true))?;
    s = read_clock(rt, s, 5003)?;
    s = show(rt, calls::ask(s, 0))?;
    s = show(rt, calls::choose(s, Id::of(1, 1), true))?;
    s = show(rt, calls::choose(s, small(1), false))?;
    s = show(rt, calls::ask(s, 0))?;
    s = read_clock(rt, s, 5010)?;
    show(rt, calls::choose(s, small(1), true))?;
    Ok(())
}

// Every refusal of the six calls but 10.
fn refusals(rt: &impl Print) -> io::Result<()> {
    println!(rt; "refusals")?;
    let mut s = Schedule::fresh();
    s = show(rt, calls::add_program(s, 8, 1, 0))?;
    s = show(rt, calls::add_program(s, 1, 64, 0))?;
    s = show(rt, calls::add_program(s, 1, 65, 0))?;
    s = show(rt, calls::add_program(s, 1, 65, 0))?;
    s = show(rt, calls::deliver(s, event(small(1), 8, 1, 0, 5000, 600)))?;
    s = show(rt, calls::deliver(s, event(small(1), 0, 1, 0, 5000, 600)))?;
    s = show(rt, calls::deliver(s, event(small(1), 1, 0, 0, 5000, 600)))?;
    s = show(rt, calls::deliver(s, event(small(1), 1, 1, 0, 5000, 600)))?;
    s = show(rt, calls::deliver(s, event(small(1), 1, 1, 0, 5000, 600)))?;
    s = show(rt, calls::deliver(s, event(small(1), 1, 1, 0, 5000, 601)))?;
    s = show(rt, calls::cancel(s, small(9)))?;
    s = read_clock(rt, s, 9_000_000_001)?;
    let mut short = [0u8; SHORT];
    s = show(rt, calls::set_clock(s, 5600, &mut short))?;
    s = read_clock(rt, s, 5600)?;
    s = show(rt, calls::deliver(s, event(small(1), 1, 1, 0, 5000, 600)))?;
    s = show(rt, calls::ask(s, 32))?;
    s.count = 49;
    show(rt, calls::ask(s, 0))?;
    Ok(())
}

// 10, at the 49th event.
fn full(rt: &impl Print) -> io::Result<()> {
    println!(rt; "full")?;
    let mut s = calls::add_program(Schedule::fresh(), 0, 0, 0).schedule;
    for i in 0..49 {
        let n = calls::deliver(s, event(small(i), 0, 1, 0, 5000, 600));
        if 46 < i {
            show(rt, n)?;
        }
        s = n.schedule;
    }
    Ok(())
}

fn main(rt: HostRuntime) -> io::Result<()> {
    example(&rt)?;
    bench(&rt)?;
    choices(&rt)?;
    refusals(&rt)?;
    full(&rt)
}
