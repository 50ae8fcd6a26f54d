// The seven buffers, one after the other in one array: first what a call changes, then what it only reads.
ghost use Rattle.std.specs.Prelude.{◌≡◌, ◌+◌, ◌≤◌, ◌<◌, ◌↔◌, IfOk, IsErrOf};
ghost use Rattle.recorded_file.specs.Buffers.{all_size, start_of, buffer_size};
ghost use Rattle.recorded_file.specs.Names.{buffer_number, NamesBuffer};

use crate::error::ReplayError;
use sector::SECTOR_SIZE;

const RECORD_SIZE: usize = 675;

const REQUEST_SIZE: usize = 64;

// A number of four bytes, and an answer of 57.
const RESULT_SIZE: usize = 61;

pub const IMAGE: usize = 0;

pub const RECORD: usize = IMAGE + SECTOR_SIZE;

pub const OUTPUT: usize = RECORD + RECORD_SIZE;

pub const RESULT: usize = OUTPUT + SECTOR_SIZE;

// So many bytes are what a call changes.
pub const CHANGED: usize = RESULT + RESULT_SIZE;

pub const SOURCE: usize = CHANGED;

pub const DATA: usize = SOURCE + SECTOR_SIZE;

pub const REQUEST: usize = DATA + SECTOR_SIZE;

pub const ALL: usize = REQUEST + REQUEST_SIZE;

// Bytes of the array that lie next to each other.
#[derive(Clone, Copy)]
pub(crate) struct Place {
    pub(crate) start: usize,
    pub(crate) size: usize,
    ghost inside: { start + size ≤ all_size },
}

impl Place {
    // The bytes from an offset on, which may not leave these.
    pub(crate) fn part(self, offset: u16, size: u16) -> Result<Place, ReplayError>
        ensures start { IfOk result (λ part. part.start ≡ self.start + offset) }
        ensures size { IfOk result (λ part. part.size ≡ size) }
        ensures refused { IsErrOf result ReplayError.OutOfBuffer ↔ (self.size < offset + size) }
    {
        let offset = offset as usize;
        let size = size as usize;
        if offset + size > self.size {
            return Err(ReplayError::OutOfBuffer);
        }
        Ok(Place {
            start: self.start + offset,
            size,
        })
    }
}

// In the order of their numbers in the file.
#[derive(Clone, Copy)]
pub(crate) enum Buffer {
    Image,
    Source,
    Record,
    Data,
    Output,
    Request,
    Result,
}

impl TryFrom<u8> for Buffer {
    type Error = ReplayError;

    ghost try_from_gives = { NamesBuffer };

    fn try_from(number: u8) -> Result<Self, ReplayError> {
        match number {
            0 => Ok(Buffer::Image),
            1 => Ok(Buffer::Source),
            2 => Ok(Buffer::Record),
            3 => Ok(Buffer::Data),
            4 => Ok(Buffer::Output),
            5 => Ok(Buffer::Request),
            6 => Ok(Buffer::Result),
            _ => Err(ReplayError::OutOfBuffer),
        }
    }
}

impl Buffer {
    #[tactic(auto, unfolding(crate::specs::Buffers::start_of, crate::specs::Buffers::buffer_size))]
    pub(crate) fn place(self) -> Place
        ensures start { result.start ≡ start_of (buffer_number self) }
        ensures size { result.size ≡ buffer_size (buffer_number self) }
    {
        let (start, size) = match self {
            Buffer::Image => (IMAGE, SECTOR_SIZE),
            Buffer::Source => (SOURCE, SECTOR_SIZE),
            Buffer::Record => (RECORD, RECORD_SIZE),
            Buffer::Data => (DATA, SECTOR_SIZE),
            Buffer::Output => (OUTPUT, SECTOR_SIZE),
            Buffer::Request => (REQUEST, REQUEST_SIZE),
            Buffer::Result => (RESULT, RESULT_SIZE),
        };
        Place { start, size }
    }
}
