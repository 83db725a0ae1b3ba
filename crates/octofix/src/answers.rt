//! Answers, as calls give them back: a code, details, and a value.
ghost use Rattle.std.specs.Prelude.{◌≡◌};
ghost use Rattle.octofix.specs.Codes.{answer_code, answer_details, answer_value};

use crate::refusal::{DONE, Refusal};
use crate::types::Details;

/// The code of an answer: 0 where it is none of a refusal.
pub fn code_of<T>(answer: &Result<T, Refusal>) -> u32
    ensures { result ≡ answer_code answer.now }
{
    match answer {
        Ok(_) => DONE,
        Err(refusal) => refusal.code(),
    }
}

/// What an answer names: nothing where it is none of a refusal.
pub fn details_of<T>(answer: &Result<T, Refusal>) -> Details
    ensures { result ≡ answer_details answer.now }
{
    match answer {
        Ok(_) => Details::none(),
        Err(refusal) => refusal.details(),
    }
}

/// Tells the value of an answer, and its code. Where it is that of a refusal, the place stays as it
/// was.
pub fn tell<T: Copy>(answer: &Result<T, Refusal>, place: &mut T) -> u32
    ensures code { result ≡ answer_code answer.now }
    ensures value { place.new ≡ answer_value place.old answer.now }
{
    if let Ok(value) = answer {
        *place = *value;
    }
    code_of(answer)
}
