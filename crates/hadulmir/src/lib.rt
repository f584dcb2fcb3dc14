// The C face: every operation on an image as bytes. It answers, and leaves the image, as the same call by value does: it loads the image, makes the call
// and stores what the call left. A question stores nothing, since an accepted image is that of its schedule; a listing checks the schedule and writes its
// records, and makes no call. A number that is returned is an answer, or the two's complement of a refusal's negative; a refused operation leaves every byte.
// Document 02, #104: an id comes in as two numbers, its upper half first, and goes out as its bytes.

#![tactic(auto)]

ghost use Rattle.std.specs.Prelude.{◌≡◌, true, false, []};
ghost use Rattle.rules.specs.Records.{halves, event_of};
ghost use Rattle.rules.specs.Converted.{lengthened, shortened, turned_into, face_line};
ghost use Rattle.rules.specs.Face.{adds_program, delivers, cancels, chooses, sets_clock, asks, lists, face, face_fresh};
ghost use Rattle.hadulmir.specs.Outcomes.{no_image, load_outcome, store_outcome, face_of};

mod answers;

use rules::{Answer, Event, Id, Record, Refusal, Reply, Response, Schedule};

// What loading returns.
// Kept: a schedule beside the answer and no result with one in it, as `load` promises the fresh schedule with its refusal.
#[derive(Clone, Copy)]
pub struct Opened {
    pub answer: Answer,
    pub schedule: Schedule,
}

// Frames and image. The schedule of an image: code 0, or 2 and the fresh schedule.
pub fn load(b: &[u8]) -> Opened
    ensures { result ≡ load_outcome b.now }
{
    let schedule = match image::read(b) {
        Ok(schedule) => schedule,
        // The fresh schedule: the bytes are no image.
        Err(schedule) => {
            return Opened {
                answer: Err(Refusal::BrokenRule),
                schedule,
            };
        }
    };
    if sound::is_sound(schedule) {
        return Opened {
            answer: Ok(Reply::from(Response::Silent)),
            schedule,
        };
    }
    no_image()
}

fn no_image() -> Opened
    ensures { result ≡ no_image }
{
    Opened {
        answer: Err(Refusal::BrokenRule),
        schedule: Schedule::fresh(),
    }
}

// Frames and image. The image of a schedule into a buffer of its length: code 0, or 2 and the buffer as it came.
pub fn store(s: Schedule, out: &mut [u8]) -> Answer
    ensures { (result, out.new) ≡ store_outcome s out.old }
{
    if sound::is_sound(s) {
        if image::write(s, out) {
            return Ok(Reply::from(Response::Silent));
        }
    }
    Err(Refusal::BrokenRule)
}

// The fresh image, into a buffer of its length.
#[unsafe(no_mangle)]
pub extern "C" fn hadulmir_fresh(image: &mut [u8]) -> u32
    ensures { face_of result image.new [] ≡ face_fresh image.old }
{
    if image::write(Schedule::fresh(), image) {
        return 0;
    }
    answers::negative(Refusal::BrokenRule)
}

// Calls, add a program.
#[unsafe(no_mangle)]
pub extern "C" fn hadulmir_add_program(
    image: &mut [u8],
    number: u8,
    primacy: u8,
    defaults: u32,
) -> u32
    ensures { face_of result image.new [] ≡ face image.old (adds_program number primacy defaults) [] }
{
    let Ok(s) = image::read(image) else {
        return answers::negative(Refusal::BrokenRule);
    };
    answers::finish(calls::add_program(s, number, primacy, defaults), image)
}

// Calls, deliver an event.
#[unsafe(no_mangle)]
pub extern "C" fn hadulmir_deliver(
    image: &mut [u8],
    id_high: u64,
    id_low: u64,
    program: u8,
    controls: u32,
    created: u32,
    start: u32,
    duration: u32,
    randomize_start: u16,
    randomize_duration: u16,
    start_draw: u16,
    duration_draw: u16,
) -> u32
    ensures { face_of result image.new [] ≡ face image.old
        (delivers (event_of (halves id_high id_low) program controls created start duration randomize_start randomize_duration start_draw duration_draw)) [] }
{
    let Ok(s) = image::read(image) else {
        return answers::negative(Refusal::BrokenRule);
    };
    let e = Event {
        id: Id::of(id_high, id_low),
        program,
        controls,
        created,
        start,
        duration,
        randomize_start,
        randomize_duration,
        start_draw,
        duration_draw,
    };
    answers::finish(calls::deliver(s, e), image)
}

// Calls, cancel.
#[unsafe(no_mangle)]
pub extern "C" fn hadulmir_cancel(image: &mut [u8], id_high: u64, id_low: u64) -> u32
    ensures { face_of result image.new [] ≡ face image.old (cancels (halves id_high id_low)) [] }
{
    let Ok(s) = image::read(image) else {
        return answers::negative(Refusal::BrokenRule);
    };
    answers::finish(calls::cancel(s, Id::of(id_high, id_low)), image)
}

// Document 02, #102, opt out or opt in.
// Kept: an id as two numbers, here and wherever one comes in: C hosts hand it in so.
fn choose(image: &mut [u8], id_high: u64, id_low: u64, out: bool) -> u32
    ensures { face_of result image.new [] ≡ face image.old (chooses (halves id_high id_low) out) [] }
{
    let Ok(s) = image::read(image) else {
        return answers::negative(Refusal::BrokenRule);
    };
    answers::finish(calls::choose(s, Id::of(id_high, id_low), out), image)
}

// Document 02, #102, opt out.
// Kept: a function each way, as C hosts call them.
#[unsafe(no_mangle)]
pub extern "C" fn hadulmir_opt_out(image: &mut [u8], id_high: u64, id_low: u64) -> u32
    ensures { face_of result image.new [] ≡ face image.old (chooses (halves id_high id_low) true) [] }
{
    choose(image, id_high, id_low, true)
}

// Document 02, #102, opt in.
#[unsafe(no_mangle)]
pub extern "C" fn hadulmir_opt_in(image: &mut [u8], id_high: u64, id_low: u64) -> u32
    ensures { face_of result image.new [] ≡ face image.old (chooses (halves id_high id_low) false) [] }
{
    choose(image, id_high, id_low, false)
}

// Calls, set the clock. The rows go over the front of `rows`.
#[unsafe(no_mangle)]
pub extern "C" fn hadulmir_set_clock(image: &mut [u8], reading: u64, rows: &mut [u8]) -> u32
    ensures { face_of result image.new rows.new ≡ face image.old (sets_clock reading) rows.old }
{
    let Ok(s) = image::read(image) else {
        return answers::negative(Refusal::BrokenRule);
    };
    answers::finish(calls::set_clock(s, reading, rows), image)
}

// Calls, ask for a control. The id of a holder goes over the front of `id`. An accepted image is that of its schedule, so nothing is stored.
#[unsafe(no_mangle)]
pub extern "C" fn hadulmir_ask(image: &[u8], control: u8, id: &mut [u8]) -> u32
    ensures { face_of result image.now id.new ≡ face image.now (asks control) id.old }
{
    let Ok(s) = image::read(image) else {
        return answers::negative(Refusal::BrokenRule);
    };
    let answer = calls::ask(s, control).answer;
    let Some(holder) = answers::holder_of(answer) else {
        return answers::returned(answer);
    };
    if id.len() < Id::SIZE {
        return answers::negative(Refusal::NoRoom);
    }
    octets::put_id(id, 0, holder);
    1
}

// Calls, list. The record of each held event goes over the front of `records`.
#[unsafe(no_mangle)]
pub extern "C" fn hadulmir_list(image: &[u8], records: &mut [u8]) -> u32
    ensures { face_of result image.now records.new ≡ face image.now lists records.old }
{
    let Ok(s) = image::read(image) else {
        return answers::negative(Refusal::BrokenRule);
    };
    if !sound::is_sound(s) {
        return answers::negative(Refusal::BrokenRule);
    }
    let n = s.count;
    if records.len() < Record::SIZE * n {
        return answers::negative(Refusal::NoRoom);
    }
    for i in 0..n {
        image::put_record(records, Record::SIZE * i, Record::from(s.entries[i]));
    }
    n as u32
}

// Document 02, #105. A recorded line's ids of 64 bits become ids of 128 bits, over the front of `out`. No image takes part.
// Kept: a function each way, as C hosts call them.
#[unsafe(no_mangle)]
pub extern "C" fn hadulmir_lengthen(line: &[u8], out: &mut [u8]) -> u32
    ensures { (result, out.new) ≡ face_line (turned_into (lengthened line.now) out.old) }
{
    answers::returned(convert::lengthen(line, out))
}

// Document 02, #105. The way back.
#[unsafe(no_mangle)]
pub extern "C" fn hadulmir_shorten(line: &[u8], out: &mut [u8]) -> u32
    ensures { (result, out.new) ≡ face_line (turned_into (shortened line.now) out.old) }
{
    answers::returned(convert::shorten(line, out))
}
