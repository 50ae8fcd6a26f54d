// Files, opened for reading, and why one cannot be used.
ghost use Rattle.std.specs.Prelude.{◌≤◌, IfOk, length};

use crate::show::Grouped;
use sector::SECTOR_SIZE;
use std::io::{ErrorKind, Read};
use std::rt::Files;
use std::{fmt, fs, io, str};

// Why a file cannot be used.
#[derive(Clone, Copy, Debug, PartialEq, Eq)]
pub(crate) enum Unusable {
    Missing,
    Forbidden,
    NotOpened,
    // It cannot be read, as a folder, or it ends and then goes on.
    NotRead,
    // It has so many bytes, which are fewer than a sector has.
    Short(usize),
    Long,
}

impl From<ErrorKind> for Unusable {
    fn from(kind: ErrorKind) -> Unusable {
        match kind {
            ErrorKind::NotFound => Unusable::Missing,
            ErrorKind::PermissionDenied => Unusable::Forbidden,
            _ => Unusable::NotOpened,
        }
    }
}

// What follows the file's name in the sentence.
impl fmt::Display for Unusable {
    fn fmt<W: fmt::Write>(&self, f: &mut fmt::Formatter<W>) -> fmt::Result {
        match self {
            Unusable::Missing => f.write_str(": there is no such file"),
            Unusable::Forbidden => f.write_str(": the file may not be read"),
            Unusable::NotOpened => f.write_str(": it cannot be opened"),
            Unusable::NotRead => f.write_str(": it is no file that can be read"),
            Unusable::Short(size) => {
                write!(
                    f,
                    " has {} bytes; a sector has 4,096: 1 BadImage",
                    Grouped(*size)
                )
            }
            Unusable::Long => {
                f.write_str(" has more than 4,096 bytes; a sector has 4,096: 1 BadImage")
            }
        }
    }
}

// A file's first bytes, as many as a buffer takes, or all that it has.
#[derive(Clone, Copy)]
pub(crate) struct Start<'a> {
    pub(crate) bytes: &'a [u8],
    // Whether the file has more.
    pub(crate) more: bool,
}

fn open<R: Files>(rt: &R, path: &[u8]) -> Result<R::File, Unusable> {
    let name = str::from_utf8(path).map_err(|_| Unusable::NotOpened)?;
    fs::open(rt, name).map_err(|error| Unusable::from(error.kind()))
}

// Reads until the buffer is full or the file ends: how many bytes it has put at the buffer's start.
fn fill<F: Read>(file: &mut F, bytes: &mut [u8]) -> io::Result<usize>
    ensures { IfOk result (λ count. count ≤ length bytes.new) }
{
    let mut count = 0;
    while count < bytes.len() {
        let more = file.read(&mut bytes[count..])?;
        if more == 0 {
            break;
        }
        count += more;
    }
    Ok(count)
}

fn start_of<'a, F: Read>(file: &mut F, buffer: &'a mut [u8]) -> io::Result<Start<'a>> {
    let count = fill(file, buffer)?;
    let more = fill(file, &mut [0u8; 1])? > 0;
    Ok(Start {
        bytes: &buffer[..count],
        more,
    })
}

// The start of a file. What ends and then goes on is no file.
pub(crate) fn read_start<'a, R: Files>(
    rt: &R,
    path: &[u8],
    buffer: &'a mut [u8],
) -> Result<Start<'a>, Unusable> {
    let size = buffer.len();
    let mut file = open(rt, path)?;
    match start_of(&mut file, buffer) {
        Ok(start) if start.bytes.len() == size || !start.more => Ok(start),
        _ => Err(Unusable::NotRead),
    }
}

// The bytes of a file that has as many as a sector.
pub(crate) fn read_sector<R: Files>(rt: &R, path: &[u8]) -> Result<[u8; 4096], Unusable> {
    let mut image = [0u8; SECTOR_SIZE];
    let start = read_start(rt, path, &mut image)?;
    if start.more {
        return Err(Unusable::Long);
    }
    if start.bytes.len() < SECTOR_SIZE {
        return Err(Unusable::Short(start.bytes.len()));
    }
    Ok(image)
}
