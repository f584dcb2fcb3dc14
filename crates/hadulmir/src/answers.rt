// What an operation returns for an answer, and when it stores.
ghost use Rattle.std.specs.Prelude.{◌≡◌, ◌≤◌};
ghost use Rattle.rules.specs.Records.{most_rows};
ghost use Rattle.rules.specs.Calls.{refusal_number, reply_value, value_of, counted};
ghost use Rattle.rules.specs.Face.{shown, negative};
ghost use Rattle.hadulmir.specs.Outcomes.{MayStore, holder_of, returned_for, finished};

use calls::Answered;
use rules::{Answer, Id, Refusal, Reply};

// What an accepted call gives as one number.
fn shown(reply: Reply) -> u32
    requires { counted (reply_value reply) ≤ most_rows }
    ensures { result ≡ shown (reply_value reply) }
{
    match reply {
        Reply::Code(n) => n as u32,
        Reply::Count(n) => n as u32,
        Reply::Holder(_) => 1,
        Reply::Default(p) => 2 + p as u32,
        Reply::Nobody => 0,
    }
}

// A refusal as one number: two's complement on 32 bits.
pub(crate) fn negative(refusal: Refusal) -> u32
    ensures { result ≡ negative (refusal_number refusal) }
{
    (refusal.number() as u32).wrapping_neg()
}

// The event that a question's answer names, if it names one.
pub(crate) fn holder_of(answer: Answer) -> Option<Id>
    ensures { result ≡ holder_of answer }
{
    match answer {
        Ok(reply) => match reply {
            Reply::Holder(id) => Some(id),
            _ => None,
        },
        Err(_) => None,
    }
}

// What an operation returns for an answer.
pub(crate) fn returned(answer: Answer) -> u32
    requires { counted (value_of answer) ≤ most_rows }
    ensures { result ≡ returned_for answer }
{
    match answer {
        Ok(reply) => shown(reply),
        Err(refusal) => negative(refusal),
    }
}

// The end of an operation that changes the schedule. An accepted one is stored.
pub(crate) fn finish(a: Answered, image: &mut [u8]) -> u32
    requires { MayStore a.answer image.old }
    ensures { (result, image.new) ≡ finished a image.old }
{
    match a.answer {
        Ok(reply) => {
            image::write(a.schedule, image);
            shown(reply)
        }
        Err(refused) => negative(refused),
    }
}
