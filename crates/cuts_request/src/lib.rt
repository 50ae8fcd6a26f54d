// A request in words: the namespace, the type, the key and the value of an item to append.
#![tactic(auto)]

ghost use Rattle.std.specs.Prelude.{◌≡◌, ◌<◌, ◌≤◌, unwrap_or, IfSome};
ghost use Rattle.cuts_request.specs.Words.{digits_of, number_in, is_key, key_bytes, type_names, named_among, type_of, value_width, most_of, value_of, value_bytes, held_value, parsed};

use sector_types::kind_of;

const KEY_SIZE: usize = 16;

// What is asked for beside the key: a single entry's eight bytes, or data, whose bytes are lent beside the request.
#[derive(Clone, Copy, Debug, PartialEq, Eq)]
pub enum Value {
    Single([u8; 8]),
    Data,
}

// An item to append.
#[derive(Clone, Copy, Debug, PartialEq, Eq)]
pub struct Request {
    pub namespace: u8,
    pub kind: u8,
    pub key: [u8; 16],
    pub value: Value,
}

// The first word that is wrong.
#[derive(Clone, Copy, Debug, PartialEq, Eq)]
pub enum Wrong {
    BadNamespace,
    BadType,
    BadKey,
    BadValue,
}

// ---- numbers

// The number that digits of a base stand for.
#[tactic(auto, using(crate::proofs::Laws::digits))]
fn digits_of(base: u32, most: u64, text: &[u8]) -> Option<u64>
    requires least { 2 ≤ base }
    requires largest { base ≤ 16 }
    ensures number { result ≡ digits_of base most text.now }
    ensures bound { IfSome result (λ number. number ≤ most) }
{
    if text.is_empty() {
        return None;
    }
    let mut value = 0u64;
    for byte in text {
        let digit = char::from(*byte).to_digit(base)?;
        value = value
            .checked_mul(u64::from(base))?
            .checked_add(u64::from(digit))?;
        if value > most {
            return None;
        }
    }
    Some(value)
}

// A number from 0 to `most`, in decimal digits, or in hexadecimal ones with a 0x prefix. Any other word is no number.
pub fn number_of(most: u64, text: &[u8]) -> Option<u64>
    ensures number { result ≡ number_in most text.now }
    ensures bound { IfSome result (λ number. number ≤ most) }
{
    match text {
        [b'0', b'x', digits @ ..] => digits_of(16, most, digits),
        _ => digits_of(10, most, text),
    }
}

// A number from 0 to 255.
fn byte_of(text: &[u8]) -> Option<u8>
    ensures { result ≡ number_in 0xFF text.now }
{
    u8::try_from(number_of(0xFF, text)?).ok()
}

// ---- the key

// Whether a word has the 1 to 15 bytes of a key.
pub fn is_key(text: &[u8]) -> bool
    ensures { result ≡ is_key text.now }
{
    !text.is_empty() && text.len() < KEY_SIZE
}

// The 16 key bytes: the word, and zeros after it. Of a word that is no key, zeros.
pub fn key_bytes(text: &[u8]) -> [u8; 16]
    ensures { result ≡ key_bytes text.now }
{
    let mut key = [0u8; KEY_SIZE];
    if is_key(text) {
        key[..text.len()].copy_from_slice(text);
    }
    key
}

// ---- the type

// The type byte of a name of document 01.
fn named_byte(text: &[u8]) -> Option<u8>
    ensures { result ≡ named_among type_names text.now }
{
    match text {
        b"U8" => Some(0x01),
        b"I8" => Some(0x11),
        b"U16" => Some(0x02),
        b"I16" => Some(0x12),
        b"U32" => Some(0x04),
        b"I32" => Some(0x14),
        b"U64" => Some(0x08),
        b"I64" => Some(0x18),
        b"Sized" => Some(0x21),
        b"Blob" => Some(0x41),
        b"BlobData" => Some(0x42),
        b"BlobIndex" => Some(0x48),
        b"Any" => Some(0xFF),
        _ => None,
    }
}

// The type byte: a number from 0 to 255, or a name of document 01.
pub fn type_of(text: &[u8]) -> Option<u8>
    ensures { result ≡ type_of text.now }
{
    byte_of(text).or_else(|| named_byte(text))
}

// ---- the value of a single entry

// How many bytes a value takes: a primitive's width; of other types 8.
pub fn value_width(kind: u8) -> u8
    ensures { result ≡ value_width kind }
{
    match kind_of(kind).width {
        0 => 8,
        width => width,
    }
}

// The largest number of so many bytes.
pub fn most_of(width: u8) -> u64
    ensures { result ≡ most_of width }
{
    match width {
        1 => u64::from(u8::MAX),
        2 => u64::from(u16::MAX),
        4 => u64::from(u32::MAX),
        _ => u64::MAX,
    }
}

// A single's value. Of data it is 0, since the word is a file's name.
pub fn value_of(kind: u8, text: &[u8]) -> Option<u64>
    ensures { result ≡ value_of kind text.now }
{
    if kind_of(kind).payload {
        return Some(0);
    }
    number_of(most_of(value_width(kind)), text)
}

// The value's lowest bytes, lowest first, and 0xFF in the rest of the eight, as in the namespace entries of document 01.
pub fn value_bytes(width: u8, value: u64) -> [u8; 8]
    ensures { result ≡ value_bytes width value }
{
    let mut bytes = value.to_le_bytes();
    let count = usize::from(width).min(8);
    bytes[count..].fill(0xFF);
    bytes
}

// ---- the request

fn held_value(kind: u8, value: u64) -> Value
    ensures { result ≡ held_value kind value }
{
    if kind_of(kind).payload {
        Value::Data
    } else {
        Value::Single(value_bytes(value_width(kind), value))
    }
}

// The request that four words stand for, or the first word that is wrong.
pub fn request_of(namespace: &[u8], kind: &[u8], key: &[u8], value: &[u8]) -> Result<Request, Wrong>
    ensures { result ≡ parsed namespace.now kind.now key.now value.now }
{
    let namespace = byte_of(namespace).ok_or(Wrong::BadNamespace)?;
    let kind = type_of(kind).ok_or(Wrong::BadType)?;
    if !is_key(key) {
        return Err(Wrong::BadKey);
    }
    let value = value_of(kind, value).ok_or(Wrong::BadValue)?;
    Ok(Request {
        namespace,
        kind,
        key: key_bytes(key),
        value: held_value(kind, value),
    })
}

// The largest value of the type that a word names.
pub fn largest_of(kind: &[u8]) -> u64
    ensures { result ≡ most_of (value_width (unwrap_or (type_of kind.now) 0)) }
{
    most_of(value_width(type_of(kind).unwrap_or(0)))
}
