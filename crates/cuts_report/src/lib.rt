// What the program `cuts` reads and prints: the cuts of an append, or in one sentence what is wrong.
//
// What it says rests on `cuts_append` and `cuts_request`, whose contracts determine it. Files are opened for reading alone.
#![tactic(auto)]

mod files;
mod refused;
mod show;

use cuts_append::{Append, Sector};
use cuts_request::Value;
use refused::Refused;
use sector::SECTOR_SIZE;
use std::env::FillError;
use std::io;
use std::rt::{Env, Files};

// The most bytes that an argument may have.
const WORD_SIZE: usize = 4096;

// The words of a run: the file of the image, the namespace, the type, the key, and the value of a single entry or the file
// of an item's data.
#[derive(Clone, Copy)]
pub struct Words<'a> {
    pub image: &'a [u8],
    pub namespace: &'a [u8],
    pub kind: &'a [u8],
    pub key: &'a [u8],
    pub value: &'a [u8],
}

// The page that opening leaves of an image.
fn opened(mut image: [u8; 4096]) -> Result<Sector, Refused> {
    let page = opening::open_page(&mut image).map_err(Refused::Opening)?;
    Ok(Sector { image, page })
}

// The append that the words ask for. Of a longer file of data 4,096 bytes are taken, which is too long too.
fn append_of<'a, R: Files>(
    rt: &R,
    words: Words,
    data: &'a mut [u8; 4096],
) -> Result<Append<'a>, Refused> {
    let request = cuts_request::request_of(words.namespace, words.kind, words.key, words.value)?;
    let image = files::read_sector(rt, words.image).map_err(Refused::Image)?;
    let before = opened(image)?;
    let payload = match request.value {
        Value::Single(_) => &data[..0],
        Value::Data => {
            files::read_start(rt, words.value, data)
                .map_err(Refused::Data)?
                .bytes
        }
    };
    Ok(Append {
        before,
        request,
        payload,
    })
}

// All the cuts of an append, or why it is refused, after a title.
pub fn print_cuts(rt: &impl Print, title: &[u8], name: &[u8], append: &Append) -> io::Result<()> {
    rt.write_all(title)?;
    show::cuts(rt, name, append)
}

// The cuts of one append to the page in a file, or what is wrong with the words.
pub fn print_words<R: Files + Print>(rt: &R, words: Words) -> io::Result<()> {
    let mut data = [0u8; SECTOR_SIZE];
    let append = match append_of(rt, words, &mut data) {
        Ok(append) => append,
        Err(refused) => return refused::print(rt, words, refused),
    };
    print!(rt; "cuts of the item ")?;
    rt.write_all(words.key)?;
    print!(rt; " on ")?;
    rt.write_all(words.image)?;
    show::cuts(rt, b"item", &append)
}

// Whether the program has an argument at this place: its name is at 0.
pub fn is_given(rt: &impl Env, place: usize) -> bool {
    !matches!(rt.arg(place, &mut []), Err(FillError::NotPresent))
}

fn argument<'a>(rt: &impl Env, place: usize, buffer: &'a mut [u8]) -> Result<&'a [u8], FillError> {
    let count = rt.arg(place, buffer)?;
    Ok(&buffer[..count])
}

// `print_words` of the program's arguments.
pub fn print_arguments<R: Env + Files + Print>(rt: &R) -> io::Result<()> {
    if !is_given(rt, 5) || is_given(rt, 6) {
        return refused::print_usage(rt);
    }
    let mut image = [0u8; WORD_SIZE];
    let mut namespace = [0u8; WORD_SIZE];
    let mut kind = [0u8; WORD_SIZE];
    let mut key = [0u8; WORD_SIZE];
    let mut value = [0u8; WORD_SIZE];
    let (Ok(image), Ok(namespace), Ok(kind), Ok(key), Ok(value)) = (
        argument(rt, 1, &mut image),
        argument(rt, 2, &mut namespace),
        argument(rt, 3, &mut kind),
        argument(rt, 4, &mut key),
        argument(rt, 5, &mut value),
    ) else {
        return refused::print_too_long(rt);
    };
    let words = Words {
        image,
        namespace,
        kind,
        key,
        value,
    };
    print_words(rt, words)
}
