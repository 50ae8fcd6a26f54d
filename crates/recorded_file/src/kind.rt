// The kinds of frames, by their numbers in the file.
ghost use Rattle.std.specs.Prelude.{◌≡◌};
ghost use Rattle.recorded_file.specs.Names.{kind_of};
ghost use Rattle.recorded_file.specs.declared.error.ReplayError.TheVariants.{NoFrame};

use crate::error::ReplayError;

#[derive(Clone, Copy)]
pub enum FrameKind {
    End,
    Put,
    Fill,
    CopyData,
    CopySource,
    Call,
    Compare,
}

// The number of no kind.
#[derive(Clone, Copy)]
pub struct UnknownKind(pub u8);

impl TryFrom<u8> for FrameKind {
    type Error = UnknownKind;

    ghost try_from_gives = { λ number r. r ≡ kind_of number };

    fn try_from(number: u8) -> Result<Self, UnknownKind> {
        match number {
            0 => Ok(FrameKind::End),
            1 => Ok(FrameKind::Put),
            2 => Ok(FrameKind::Fill),
            3 => Ok(FrameKind::CopyData),
            4 => Ok(FrameKind::CopySource),
            5 => Ok(FrameKind::Call),
            6 => Ok(FrameKind::Compare),
            _ => Err(UnknownKind(number)),
        }
    }
}

impl From<UnknownKind> for ReplayError {
    ghost from_gives = { λ _ error. error ≡ NoFrame };

    fn from(_kind: UnknownKind) -> ReplayError {
        ReplayError::NoFrame
    }
}
