// Why there are no cuts to show, each in a sentence.
use crate::Words;
use crate::files::Unusable;
use crate::show::{Grouped, Reason};
use cuts_request::Wrong;
use sector::Refusal;
use std::io;

// What is refused first.
#[derive(Clone, Copy)]
pub(crate) enum Refused {
    Word(Wrong),
    // The file of the image, or of the data.
    Image(Unusable),
    Data(Unusable),
    Opening(Refusal),
}

impl From<Wrong> for Refused {
    fn from(wrong: Wrong) -> Refused {
        Refused::Word(wrong)
    }
}

fn print_word(rt: &impl Print, bytes: &[u8]) -> io::Result<()> {
    if bytes.is_empty() {
        return print!(rt; "(empty)");
    }
    rt.write_all(bytes)
}

// A sentence begins with what it is about, and the word.
fn print_about(rt: &impl Print, what: &str, word: &[u8]) -> io::Result<()> {
    print!(rt; "cuts: {what}")?;
    print_word(rt, word)
}

pub(crate) fn print_usage(rt: &impl Print) -> io::Result<()> {
    print!(rt;
        "cuts: give no argument, or five: IMAGE NAMESPACE TYPE KEY VALUE, where VALUE is a number, "
    )?;
    println!(rt; "or for Sized, Blob and BlobData the file of the data")
}

pub(crate) fn print_too_long(rt: &impl Print) -> io::Result<()> {
    println!(rt; "cuts: an argument has more than 4,096 bytes")
}

fn print_wrong(rt: &impl Print, words: Words, wrong: Wrong) -> io::Result<()> {
    match wrong {
        Wrong::BadNamespace => {
            print_about(rt, "namespace ", words.namespace)?;
            println!(rt; " is not a number from 0 to 255")
        }
        Wrong::BadType => {
            print_about(rt, "type ", words.kind)?;
            print!(rt;
                " is none of U8, I8, U16, I16, U32, I32, U64, I64, Sized, Blob, BlobData, BlobIndex and Any, "
            )?;
            println!(rt; "and not a number from 0 to 255")
        }
        Wrong::BadKey => {
            print_about(rt, "key ", words.key)?;
            println!(rt;
                " has {} bytes; a key has 1 to 15",
                Grouped(words.key.len())
            )
        }
        Wrong::BadValue => {
            print_about(rt, "value ", words.value)?;
            println!(rt;
                " is not a number from 0 to {}",
                cuts_request::largest_of(words.kind)
            )
        }
    }
}

fn print_unusable(rt: &impl Print, path: &[u8], unusable: Unusable) -> io::Result<()> {
    print_about(rt, "", path)?;
    println!(rt; "{unusable}")
}

// The sentence that says what is refused.
pub(crate) fn print(rt: &impl Print, words: Words, refused: Refused) -> io::Result<()> {
    match refused {
        Refused::Word(wrong) => print_wrong(rt, words, wrong),
        Refused::Image(unusable) => print_unusable(rt, words.image, unusable),
        Refused::Data(unusable) => print_unusable(rt, words.value, unusable),
        Refused::Opening(refusal) => {
            print!(rt; "cuts: ")?;
            rt.write_all(words.image)?;
            println!(rt; ": opening refuses the page, {}", Reason(refusal))
        }
    }
}
