// What the C functions hand back: an answer's number in document 01, with the answer or the new record laid out in its buffer.
#![tactic(auto)]

ghost use Rattle.std.specs.Prelude.{◌≡◌, length};
ghost use Rattle.sector.specs.Answers.{number_of, carried_byte, answer_in, value_in};
ghost use Rattle.boundary_encoding.specs.Encoding.{record_size, record_bytes, answer_size, answer_bytes, zero_item, no_counts};
ghost use Rattle.boundary_results.specs.Handing.{record_left};
ghost use Rattle.page.specs.Record.{uninitialized};
ghost use Rattle.page.specs.Writing.{answered};

use page::ThinPage;
use sector::{Refusal, Statistics, answers};

// Of a call that has no item.
const NO_ITEM: [u8; 32] = [0; 32];

// Of a call that has no counts.
const NO_COUNTS: Statistics = Statistics {
    empty: 0,
    written: 0,
    erased: 0,
    illegal: 0,
};

// Lays out an answer with a number and an item, and hands back its number in document 01.
pub fn give(buffer: &mut [u8], answer: Result<(), Refusal>, value: u64, item: [u8; 32]) -> u32
    requires { length buffer.old ≡ answer_size }
    ensures number { result ≡ number_of answer }
    ensures buffer { buffer.new ≡ answer_bytes (carried_byte answer) value item no_counts }
{
    boundary_encoding::put_answer(
        buffer,
        answers::carried_byte(answer),
        value,
        item,
        NO_COUNTS,
    );
    answers::number_of(answer) as u32
}

// Lays out a number, 0 with a refusal, and hands back the answer's number in document 01.
pub fn give_number(buffer: &mut [u8], found: Result<u64, Refusal>) -> u32
    requires { length buffer.old ≡ answer_size }
    ensures number { result ≡ number_of (answer_in found) }
    ensures buffer { buffer.new ≡ answer_bytes (carried_byte (answer_in found)) (value_in 0 found) zero_item no_counts }
{
    match found {
        Ok(value) => give(buffer, Ok(()), value, NO_ITEM),
        Err(refusal) => give(buffer, Err(refusal), 0, NO_ITEM),
    }
}

// Lays out an entry's bytes, zeros with a refusal, and hands back the answer's number in document 01.
pub fn give_item(buffer: &mut [u8], loaded: Result<[u8; 32], Refusal>) -> u32
    requires { length buffer.old ≡ answer_size }
    ensures number { result ≡ number_of (answer_in loaded) }
    ensures buffer { buffer.new ≡ answer_bytes (carried_byte (answer_in loaded)) 0 (value_in zero_item loaded) no_counts }
{
    match loaded {
        Ok(item) => give(buffer, Ok(()), 0, item),
        Err(refusal) => give(buffer, Err(refusal), 0, NO_ITEM),
    }
}

// Lays out a record beside an answer, whatever the two are, and hands back the answer's number in document 01.
pub fn hand_out(buffer: &mut [u8], answer: Result<(), Refusal>, given: &ThinPage) -> u32
    requires { length buffer.old ≡ record_size }
    ensures number { result ≡ number_of answer }
    ensures buffer { buffer.new ≡ record_bytes given.now }
{
    boundary_encoding::put_record(given, buffer);
    answers::number_of(answer) as u32
}

// Lays out the record that opening hands back, the Uninitialized one with a refusal and a stop, and hands back its number in
// document 01.
pub fn hand_opened(buffer: &mut [u8], opened: Result<ThinPage, Refusal>) -> u32
    requires { length buffer.old ≡ record_size }
    ensures number { result ≡ number_of (answer_in opened) }
    ensures buffer { buffer.new ≡ record_bytes (value_in uninitialized opened) }
{
    match opened {
        Ok(page) => hand_out(buffer, Ok(()), &page),
        Err(refusal) => hand_out(buffer, Err(refusal), &ThinPage::uninitialized()),
    }
}

// Lays out the new record where the call is done, and hands back its number in document 01.
pub fn hand_back(buffer: &mut [u8], answer: Result<(), Refusal>, page: &ThinPage) -> u32
    requires { length buffer.old ≡ record_size }
    ensures number { result ≡ number_of answer }
    ensures buffer { buffer.new ≡ record_left buffer.old (answered answer page.now) }
{
    match answer {
        Ok(()) => {
            boundary_encoding::put_record(page, buffer);
            0
        }
        Err(refusal) => refusal.number() as u32,
    }
}
