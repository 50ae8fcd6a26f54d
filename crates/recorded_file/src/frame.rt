// The frames, and those that change a buffer: put, fill, and the two copies.
ghost use Rattle.std.specs.Prelude.{◌≡◌, ◌+◌, ◌≤◌, length};
ghost use Rattle.recorded_file.specs.Buffers.{all_size};
ghost use Rattle.recorded_file.specs.Frames.{frame_of, filled, copied};

use crate::buffers::{Buffer, Place};
use crate::error::ReplayError;
use crate::input;
use crate::kind::{FrameKind, UnknownKind};
use std::io::Read;

#[derive(Clone, Copy)]
pub struct Frame {
    // A frame of no kind is refused only after its place.
    pub kind: Result<FrameKind, UnknownKind>,
    // A buffer's number, or a call's.
    pub name: u8,
    pub offset: u16,
    pub size: u16,
    // The byte of a fill; where a copy starts.
    pub argument: u16,
}

impl From<[u8; 8]> for Frame {
    ghost from_gives = { λ bytes frame. frame ≡ frame_of bytes };

    fn from(bytes: [u8; 8]) -> Frame {
        Frame {
            kind: FrameKind::try_from(bytes[0]),
            name: bytes[1],
            offset: u16::from_le_bytes([bytes[2], bytes[3]]),
            size: u16::from_le_bytes([bytes[4], bytes[5]]),
            argument: u16::from_le_bytes([bytes[6], bytes[7]]),
        }
    }
}

// Bytes of the file go into the buffers.
fn put<R: Read>(file: &mut R, all: &mut [u8], place: Place) -> Result<(), ReplayError>
    requires { length all.old ≡ all_size }
{
    if !input::read_full(file, &mut all[place.start..place.start + place.size])? {
        return Err(ReplayError::CutShort);
    }
    Ok(())
}

fn fill(all: &mut [u8], place: Place, byte: u8)
    requires { length all.old ≡ all_size }
    ensures { all.new ≡ filled all.old place.start place.size byte }
{
    all[place.start..place.start + place.size].fill(byte);
}

// As many bytes as the place has become those from another on.
fn copy(all: &mut [u8], place: Place, from: Place)
    requires { (length all.old ≡ all_size) × (from.size ≡ place.size) }
    ensures { all.new ≡ copied all.old place.start place.size from.start }
{
    all.copy_within(from.start..from.start + from.size, place.start);
}

pub fn change<R: Read>(file: &mut R, all: &mut [u8], frame: Frame) -> Result<(), ReplayError>
    requires { length all.old ≡ all_size }
{
    let place = Buffer::try_from(frame.name)?
        .place()
        .part(frame.offset, frame.size)?;
    match frame.kind? {
        FrameKind::Put => put(file, all, place)?,
        FrameKind::Fill => fill(all, place, (frame.argument % 256) as u8),
        FrameKind::CopyData => {
            copy(
                all,
                place,
                Buffer::Data.place().part(frame.argument, frame.size)?,
            )
        }
        FrameKind::CopySource => {
            copy(
                all,
                place,
                Buffer::Source.place().part(frame.argument, frame.size)?,
            )
        }
        FrameKind::End | FrameKind::Call | FrameKind::Compare => return Err(ReplayError::NoFrame),
    }
    Ok(())
}
