// Why a replay ends before it has met the end frame and the cases of the file's head.
ghost use Rattle.std.specs.Prelude.{◌≡◌};
ghost use Rattle.recorded_file.specs.declared.error.ReplayError.TheVariants.{Io};

use std::{fmt, io};

#[derive(Clone, Copy)]
pub enum ReplayError {
    // The file cannot be read.
    Io(io::Error),
    // The file ends within a frame, or without the end frame.
    CutShort,
    // A frame of no kind.
    NoFrame,
    // A frame leaves its buffer, or names none.
    OutOfBuffer,
    // A call frame with the number of no call.
    NoCall,
    // A request's data or output is longer than its buffer.
    LongRequest,
    // A call whose compare is missing, or a compare without a call.
    OutOfOrder,
    // Bytes after the end frame.
    MoreBytes,
    // The end frame comes after another number of cases than the head says.
    OtherNumber,
    // More frames than are read.
    MoreFrames,
}

impl From<io::Error> for ReplayError {
    ghost from_gives = { λ error replayed. replayed ≡ Io error };

    fn from(error: io::Error) -> ReplayError {
        ReplayError::Io(error)
    }
}

impl fmt::Display for ReplayError {
    fn fmt<W: fmt::Write>(&self, f: &mut fmt::Formatter<W>) -> fmt::Result {
        f.write_str(match self {
            ReplayError::Io(error) => return write!(f, "{error}"),
            ReplayError::CutShort => "the file is cut short there",
            ReplayError::NoFrame => "a frame there is of none of the kinds 0 to 6",
            ReplayError::OutOfBuffer => {
                "a frame there leaves its buffer, or names none of the seven"
            }
            ReplayError::NoCall => "a frame there names none of the calls",
            ReplayError::LongRequest => "a request there is for more bytes than a buffer has",
            ReplayError::OutOfOrder => "a call and its compare do not follow each other there",
            ReplayError::MoreBytes => "bytes follow the end frame there",
            ReplayError::OtherNumber => "the file ends there, and its head says another number",
            ReplayError::MoreFrames => "the file goes on there, with more frames than 4 MB have",
        })
    }
}
