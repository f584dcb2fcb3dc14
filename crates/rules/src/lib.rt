// Document 01 in checkable form: its records, its definitions (specs/), and what is proved of them (proofs/).
// The functions below the records do nothing: each carries a theorem as its promise, so that a reader of the code meets it.

#![tactic(auto)]

ghost use Rattle.std.specs.Prelude.{◌≡◌, true};
ghost use Rattle.rules.specs.Records.{no_event, no_choice, no_entry, fresh, pad};
ghost use Rattle.rules.specs.Sound.{sound};
ghost use Rattle.rules.specs.Calls.{record_of};
ghost use Rattle.rules.specs.Image.{image, loaded, imaged};
ghost use Rattle.rules.specs.Printed.{output};
ghost use Rattle.rules.specs.Clauses.{Clauses, ImageKept};
ghost use Rattle.rules.specs.Arrival.{ArrivalOrder};
ghost use Rattle.rules.specs.Sample.{Sample};
ghost use Rattle.rules.specs.Marks.{all_hold, edges_hold, replies};
ghost use Rattle.rules.specs.Table.{table};
ghost use Rattle.rules.specs.Edges.{edges};
ghost use Rattle.rules.specs.Example.{example_input, example_output};
ghost use Rattle.rules.specs.LineTable.{lines_hold, line_table};
ghost use Rattle.rules.specs.TextTable.{TextTables};
ghost use Rattle.rules.specs.ConvertTable.{ConvertTables};
ghost use Rattle.rules.specs.CallTable.{CallTables};
ghost use Rattle.rules.specs.ImageTable.{ImageTables};
ghost use Rattle.rules.specs.FaceTable.{FaceTables};
ghost use Rattle.rules.specs.History.{history_of};
ghost use Rattle.rules.specs.ScheduleTable.{ScheduleTables, histories_hold, history_table};
ghost use Rattle.rules.specs.MomentTable.{moments_hold, moment_table};
ghost use Rattle.rules.specs.ChoiceTable.{choices_hold, choice_table};

mod ids;
pub mod times;

// Response rows. Where id and code stand in a row, behind its time, and how many bytes it has; how many rows a clock call gives at the most, and the
// bytes of them all.
pub const ROW_ID: usize = 8;

pub const ROW_CODE: usize = ROW_ID + Id::SIZE;

pub const ROW_SIZE: usize = ROW_CODE + 1;

pub const MOST_ROWS: usize = 2 * Schedule::EVENTS;

pub const ROWS_SIZE: usize = MOST_ROWS * ROW_SIZE;

// Document 02, #104. An id: the mRID of an event, 128 bits in two halves. Definitions read it as one number (`id_number`). Code outside this crate can't look
// inside: ids.rt has what can be done with one, crates/octets its bytes, crates/text its digits.
#[derive(Clone, Copy)]
pub struct Id {
    high: u64,
    low: u64,
}

// Records. A program in its place, which is its number.
// Kept: a flag beside the fields and no Option, as the rules of an image speak of the fields of a program that was not added (`sound_program`).
#[derive(Clone, Copy, PartialEq, Eq)]
pub struct Program {
    pub added: bool,
    pub primacy: u8,
    pub defaults: u32,
}

// Records. Whether a primacy may be used.
#[derive(Clone, Copy, PartialEq, Eq)]
pub enum Primacy {
    Usable,
    Reserved,
}

// Records. An event. In memory its program comes before its id: an array of unused entries is then filled by a loop, which the compiler else writes out 48 times
// over wherever it stands.
#[derive(Clone, Copy, PartialEq, Eq)]
pub struct Event {
    pub program: u8,
    pub id: Id,
    pub controls: u32,
    pub created: u32,
    pub start: u32,
    pub duration: u32,
    // 16 bits of two's complement each.
    pub randomize_start: u16,
    pub randomize_duration: u16,
    pub start_draw: u16,
    pub duration_draw: u16,
}

// Effective period. The times that are worked out for an event: `start` is document 01's effective start, `end` the effective end, `earliest` what document 02, #101,
// takes from IEEE 2030.5 as Earliest Effective Start Time.
#[derive(Clone, Copy)]
pub struct Period {
    pub start: u64,
    pub end: u64,
    pub earliest: u64,
}

// A time that was worked out, with the record handed back.
// Kept: document 01 names this form (Form by location, effective end), and `dated` of the public clauses says it; so a time alone does not do.
#[derive(Clone, Copy)]
pub struct Dated {
    pub time: u64,
    pub event: Event,
}

// Document 02, #102. The user's choice on a held event: whether the user is out now, was in for a second in which it held something, was out for one.
// Kept: three truths, as `choice_byte` and the rules of an image name them, and no flag that says whether a value is there.
#[derive(Clone, Copy, PartialEq, Eq)]
pub struct Choice {
    pub out: bool,
    pub was_in: bool,
    pub was_out: bool,
}

// Frames and image. An event that is held: its effective start, the controls that it holds now, whether it is cancelled, the user's choice.
#[derive(Clone, Copy, PartialEq, Eq)]
pub struct Entry {
    pub event: Event,
    pub begins: u64,
    pub held: u32,
    pub cancelled: bool,
    pub choice: Choice,
}

// Calls. What a listing gives for each held event. Document 02, #101: with the moment at which it might begin at the earliest.
#[derive(Clone, Copy)]
pub struct Record {
    pub entry: Entry,
    pub earliest: u64,
}

// Records. The state that goes into each call and comes out of it.
// Kept: an array with a count beside it, as there is no heap, and the rules of an image speak of the places that are not in use (`unused`).
#[derive(Clone, Copy)]
pub struct Schedule {
    pub clock: u64,
    pub count: usize,
    pub programs: [Program; Schedule::PROGRAMS],
    pub entries: [Entry; Schedule::EVENTS],
}

// Numbers given: why a call is refused.
#[derive(Clone, Copy, PartialEq, Eq)]
pub enum Refusal {
    NoFrame = 1,
    BrokenRule = 2,
    NoSuchProgram = 3,
    AddedBefore = 4,
    ReservedPrimacy = 5,
    NotAdded = 6,
    Malformed = 7,
    OtherFields = 8,
    Late = 9,
    Full = 10,
    NotHeld = 11,
    ClockOutOfRange = 12,
    NoRoom = 13,
    NoSuchControl = 14,
    // Document 02, #105.
    UpperHalf = 15,
}

// Response codes, those of calls and those of rows; `Silent` is for none. Document 02, #102: the two of choices and the last three.
#[derive(Clone, Copy, PartialEq, Eq)]
pub enum Response {
    Silent = 0,
    Received = 1,
    Started = 2,
    Completed = 3,
    OptedOut = 4,
    OptedIn = 5,
    Cancelled = 6,
    Superseded = 7,
    PartlyOut = 8,
    PartlyIn = 9,
    NotTaken = 10,
}

// What an accepted call gives: a response code, a count, or what governs a control.
// Kept: a code as its number, since `text::told` takes every number and has a text for each; a `Response` would ask more of its callers.
#[derive(Clone, Copy, PartialEq, Eq)]
pub enum Reply {
    Code(u8),
    Count(usize),
    Holder(Id),
    Default(u8),
    Nobody,
}

// What a call answers.
pub type Answer = Result<Reply, Refusal>;

// A frame of a line.
#[derive(Clone, Copy)]
pub enum Frame {
    Event(Event),
    Cancel(Id),
    Clock(u64),
    Program(u8, u8, u32),
    Ask(u8),
    OptOut(Id),
    OptIn(Id),
}

// Kept: an enum of its own and no Option, as document 01 names this form (Form by location, frames), and `decode_encoded` and `long_line` speak of it.
#[derive(Clone, Copy)]
pub enum Line {
    Good(Frame),
    Bad,
}

impl Program {
    // Records. The greatest number.
    pub const LAST: u8 = 7;

    // Frames and image. Bytes of a program entry.
    pub const SIZE: usize = 6;
}

impl Event {
    // Frames and image. Bytes of its fields.
    pub const SIZE: usize = Id::SIZE + 25;

    // All fields zero.
    pub fn none() -> Event
        ensures { result ≡ no_event }
    {
        Event {
            id: Id::of(0, 0),
            program: 0,
            controls: 0,
            created: 0,
            start: 0,
            duration: 0,
            randomize_start: 0,
            randomize_duration: 0,
            start_draw: 0,
            duration_draw: 0,
        }
    }
}

impl Choice {
    // A new event is in, and has held nothing.
    pub fn none() -> Choice
        ensures { result ≡ no_choice }
    {
        Choice {
            out: false,
            was_in: false,
            was_out: false,
        }
    }
}

impl Entry {
    // Frames and image. Bytes of an event entry, and the places of its mark and of its choice among them.
    pub const SIZE: usize = Event::SIZE + 14;

    pub const MARK: usize = Event::SIZE + 12;

    pub const CHOICE: usize = Event::SIZE + 13;

    // A place that is not in use.
    pub fn none() -> Entry
        ensures { result ≡ no_entry }
    {
        Entry {
            event: Event::none(),
            begins: 0,
            held: 0,
            cancelled: false,
            choice: Choice::none(),
        }
    }
}

impl Record {
    // Frames and image, C hosts. Bytes of a listed record: the entry, and 8 of the earliest start.
    pub const SIZE: usize = Entry::SIZE + 8;
}

impl From<Entry> for Record {
    ghost from_gives = { λ h r. r ≡ record_of h };

    // Calls, list: the record of a held event.
    fn from(entry: Entry) -> Record {
        let earliest = entry.event.earliest_start();
        Record {
            entry,
            earliest: earliest.time,
        }
    }
}

impl Schedule {
    // Records. How many programs and events a schedule has places for, and the greatest reading of its clock.
    pub const PROGRAMS: usize = 8;

    pub const EVENTS: usize = 48;

    pub const LAST_CLOCK: u64 = 9_000_000_000;

    // Records. The greatest number of a control.
    pub const LAST_CONTROL: u8 = 31;

    // Frames and image. Where programs and events stand in an image, and its bytes.
    pub const PROGRAMS_AT: usize = 9;

    pub const ENTRIES_AT: usize = Schedule::PROGRAMS_AT + Schedule::PROGRAMS * Program::SIZE;

    pub const SIZE: usize = Schedule::ENTRIES_AT + Schedule::EVENTS * Entry::SIZE;

    // Records. The fresh schedule: clock 0, no program, no event.
    pub fn fresh() -> Schedule
        ensures { result ≡ pad fresh }
    {
        let entry = Entry::none();
        let program = Program {
            added: false,
            primacy: 0,
            defaults: 0,
        };
        Schedule {
            clock: 0,
            count: 0,
            programs: [program; Schedule::PROGRAMS],
            entries: [entry; Schedule::EVENTS],
        }
    }
}

// Bench marks T1 to T12: every line of the table holds, of the calls from the fresh schedule.
pub fn bench_marks()
    ensures { all_hold (replies (pad fresh)) table ≡ true }
{}

// Numbers given: 3 to 14, each given on the one side of its edge and not on the other. Number 1 is in `lines_read` and `texts_printed`, number 2 in
// `images_tried`.
pub fn number_edges()
    ensures { edges_hold (replies (pad fresh)) edges ≡ true }
{}

// Frames and image. The worked example: what the program writes for the lines that it reads.
pub fn worked_example()
    ensures { output example_input ≡ example_output }
{}

// Calls: what each answers and leaves in what is lent to it, call after call.
pub fn calls_answered()
    ensures { CallTables }
{}

// Call lists: what a list brings.
pub fn histories_brought()
    ensures { histories_hold history_of history_table ≡ true }
{}

// Call lists: the rows and the held events that the rules give for what was brought.
pub fn schedules_worked_out()
    ensures { ScheduleTables }
{}

// Frames and image: the seconds after an accepted state, one by one.
pub fn moments_passed()
    ensures { moments_hold moment_table ≡ true }
{}

// Document 02, #102: users who opt out, worked cases.
pub fn choices_counted()
    ensures { choices_hold (replies (pad fresh)) choice_table ≡ true }
{}

// Frames and image: each kind of frame with its fields, and lines that are no frame.
pub fn lines_read()
    ensures { lines_hold line_table ≡ true }
{}

// Frames and image: every text that the program prints, line after line, and where a line ends.
pub fn texts_printed()
    ensures { TextTables }
{}

// Document 02, #105: recorded lines and what each is turned into, lent buffers, texts, and document 01's example as it was recorded.
pub fn lines_converted()
    ensures { ConvertTables }
{}

// Frames and image: each rule of an image kept by one and broken by one, and each byte where it stands.
pub fn images_tried()
    ensures { ImageTables }
{}

// Frames and image, C hosts: what each operation returns and leaves, on both sides of each length.
pub fn operations_tried()
    ensures { FaceTables }
{}

// Document 01's clauses, one by one, of the definitions.
pub fn clauses()
    ensures { Clauses }
{}

// Demand 3: the order of arrival does not count. Any two lists of calls that bring the same programs, events, cancellations and choices to the same last
// reading give the same rows, listings and answers, and all of them are the schedule's; after no call does a control have two holders.
pub fn arrival_order()
    ensures { ArrivalOrder }
{}

// Demand 3 is not empty: two different lists that meet its premise, with the rows of both.
pub fn arrival_sample()
    ensures { Sample }
{}

// Frames and image. The image of a sound schedule is accepted, and gives the schedule back.
pub fn image_and_back(s: Schedule)
    ensures { sound s ≡ true → ImageKept s }
{}

// Frames and image. An accepted image is the image of its schedule.
pub fn load_and_back(b: &[u8])
    ensures { imaged b.now ≡ true → image (loaded b.now) ≡ b.now }
{
    // For the proof alone: where a function calls something, it is known that each element of `b` is a byte.
    Schedule::fresh();
}
