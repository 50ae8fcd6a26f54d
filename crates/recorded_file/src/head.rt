// The first 16 bytes of the file: a name, the version, the number of cases.
use crate::input;
use std::io::Read;
use std::{fmt, io};

const VERSION: u32 = 1;

// Why a file is not replayed at all.
#[derive(Clone, Copy)]
pub enum HeadError {
    // It ends within the head.
    CutShort,
    // It has another name or another version.
    Other,
}

impl fmt::Display for HeadError {
    fn fmt<W: fmt::Write>(&self, f: &mut fmt::Formatter<W>) -> fmt::Result {
        f.write_str(match self {
            HeadError::CutShort => "the file is cut short: its first 16 bytes are not all there",
            HeadError::Other => {
                "this is no recorded file of version 1: its first 12 bytes are others"
            }
        })
    }
}

// How many cases the file says that it has.
fn cases_of(bytes: [u8; 16]) -> Result<u32, HeadError> {
    let version = u32::from_le_bytes([bytes[8], bytes[9], bytes[10], bytes[11]]);
    if !bytes.starts_with(b"nvs_page") || version != VERSION {
        return Err(HeadError::Other);
    }
    Ok(u32::from_le_bytes([bytes[12], bytes[13], bytes[14], bytes[15]]))
}

// The number of cases. What the file is to blame for stays apart from a read that fails.
pub fn read<R: Read>(file: &mut R) -> io::Result<Result<u32, HeadError>> {
    let mut bytes = [0u8; 16];
    if !input::read_full(file, &mut bytes)? {
        return Ok(Err(HeadError::CutShort));
    }
    Ok(cases_of(bytes))
}
