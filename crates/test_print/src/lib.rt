// What the programs print of an answer, and of a test.
#![tactic(auto)]

ghost use Rattle.std.specs.Prelude.{◌≡◌, cond, codes};

use sector::{Refusal, answers};
use std::fmt;

// Document 01's number of an answer, whatever comes with it; after the 8 of a mismatch, the type byte that it carries.
#[derive(Clone, Copy)]
pub struct Numbered<T>(pub Result<T, Refusal>);

impl<T: Copy> fmt::Display for Numbered<T> {
    fn fmt<W: fmt::Write>(&self, f: &mut fmt::Formatter<W>) -> fmt::Result {
        let answer = self.0.map(|_| ());
        let number = answers::number_of(answer);
        match answer {
            Err(Refusal::ItemTypeMismatch(carried)) => write!(f, "{number} {carried:#04x}"),
            _ => write!(f, "{number}"),
        }
    }
}

// What stands before the word for what holds, or does not.
pub fn not_unless(holds: bool) -> &'static str
    ensures { result.now ≡ cond holds (codes "") (codes "not ") }
{
    if holds { "" } else { "not " }
}
