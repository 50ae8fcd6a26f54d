// Answers by their numbers.
ghost use Rattle.std.specs.Prelude.{◌≡◌};
ghost use Rattle.sector.specs.Answers.{refusal_number, number_of, carried_byte};

use crate::Refusal;

impl Refusal {
    // Document 01's number.
    pub fn number(self) -> u8
        ensures { result ≡ refusal_number self }
    {
        match self {
            Refusal::BadImage => 1,
            Refusal::BadRecord => 2,
            Refusal::WrongState => 3,
            Refusal::BadRequest => 4,
            Refusal::ValueTooLong => 5,
            Refusal::PageFull => 6,
            Refusal::KeyNotFound => 7,
            Refusal::ItemTypeMismatch(_) => 8,
            Refusal::CorruptedData => 9,
            Refusal::NotWritten => 10,
            Refusal::Stopped => 11,
        }
    }
}

// Document 01's number of an answer: 0 is done.
pub fn number_of(answer: Result<(), Refusal>) -> u8
    ensures { result ≡ number_of answer }
{
    match answer {
        Ok(()) => 0,
        Err(refusal) => refusal.number(),
    }
}

// The type byte that an answer carries, 0 but for ItemTypeMismatch.
pub fn carried_byte(answer: Result<(), Refusal>) -> u8
    ensures { result ≡ carried_byte answer }
{
    match answer {
        Err(Refusal::ItemTypeMismatch(byte)) => byte,
        _ => 0,
    }
}
