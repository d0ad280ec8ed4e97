// What a query comes to.
ghost use Rattle.std.specs.Prelude.{◌≡◌, ◌+◌, ◌*◌};
ghost use Rattle.definition.specs.Answers.{refusal_number, response_answer, response_refusal};

use crate::answers::Answer;

// Why a query is refused, in the order of document 01's table.
#[derive(Debug, Clone, Copy, PartialEq, Eq)]
pub enum Refusal {
    BookLength,
    BookLine,
    BookHeader,
    BookBody,
    UnknownGoal,
    DepthAboveTop,
    CacheLength,
    CacheForm,
    WorkLength,
    ProvisionalCacheFull,
    CacheConflict,
    // Stands in branches that never happen; it is no refusal of the table.
    Unreachable,
}

// What a query comes to: an answer, or why it is refused.
pub type Response = Result<Answer, Refusal>;

// Document 01's number.
impl From<Refusal> for u32 {
    ghost from_gives = { λ refusal n. n ≡ refusal_number refusal };

    fn from(refusal: Refusal) -> u32 {
        match refusal {
            Refusal::BookLength => 1,
            Refusal::BookLine => 2,
            Refusal::BookHeader => 3,
            Refusal::BookBody => 4,
            Refusal::UnknownGoal => 5,
            Refusal::DepthAboveTop => 6,
            Refusal::CacheLength => 7,
            Refusal::CacheForm => 8,
            Refusal::WorkLength => 9,
            Refusal::ProvisionalCacheFull => 10,
            Refusal::CacheConflict => 11,
            Refusal::Unreachable => 255,
        }
    }
}

// Answer and refusal in one number.
pub fn code(response: Response) -> u32
    ensures { result ≡ response_answer response + 256 * response_refusal response }
{
    match response {
        Ok(answer) => u32::from(u8::from(answer)),
        Err(refusal) => 256 * u32::from(refusal),
    }
}
