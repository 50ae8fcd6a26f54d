// The file from front to back, a frame a turn.
ghost use Rattle.std.specs.Prelude.{◌≡◌, true, length, take};
ghost use Rattle.recorded_file.specs.Buffers.{all_size, changed_size};

use crate::tally::Tally;
use recorded_calls::call::Call;
use recorded_file::buffers::{ALL, CHANGED, IMAGE};
use recorded_file::error::ReplayError;
use recorded_file::frame::Frame;
use recorded_file::kind::FrameKind;
use recorded_file::{frame, input};
use std::io::Read;
use std::ops::ControlFlow;

const FRAME_SIZE: usize = 8;

// A file of under 4 MB has no more.
const MOST_FRAMES: u32 = 500000;

// Whether the call left what the file has: the buffers that a call may change are compared.
fn agrees(all: &[u8], left: &[u8]) -> bool
    requires { length all.now ≡ all_size }
    ensures yes { result ≡ true → take changed_size all.now ≡ left.now }
    ensures no { take changed_size all.now ≡ left.now → result ≡ true }
{
    &all[IMAGE..CHANGED] == left
}

#[derive(Drop)]
pub(crate) struct Replay {
    // The cases that the file says it has.
    pub(crate) cases: u64,
    all: [u8; ALL],
    // What the last call left of the buffers that it may change.
    left: [u8; CHANGED],
    // The call that waits for its compare.
    open: Option<Call>,
    pub(crate) tally: Tally,
}

impl Replay {
    pub(crate) fn new(cases: u32) -> Replay {
        Replay {
            cases: cases as u64,
            all: [0; ALL],
            left: [0; CHANGED],
            open: None,
            tally: Tally::default(),
        }
    }

    // Up to the end frame, after which nothing may follow.
    pub(crate) fn run<R: Read>(&mut self, file: &mut R) -> Result<(), ReplayError> {
        for _ in 0..MOST_FRAMES {
            if self.step(file)?.is_break() {
                return Ok(());
            }
        }
        Err(ReplayError::MoreFrames)
    }

    // Reads a frame, and does what it says. Breaks at the end frame.
    fn step<R: Read>(&mut self, file: &mut R) -> Result<ControlFlow<()>, ReplayError> {
        let mut bytes = [0u8; FRAME_SIZE];
        if !input::read_full(file, &mut bytes)? {
            return Err(ReplayError::CutShort);
        }
        let frame = Frame::from(bytes);
        match frame.kind {
            Ok(FrameKind::End) => {
                self.end(file)?;
                return Ok(ControlFlow::Break(()));
            }
            Ok(FrameKind::Call) => self.call(frame.name)?,
            Ok(FrameKind::Compare) => self.compare()?,
            // One of no kind is refused there, after its place.
            _ => frame::change(file, &mut self.all, frame)?,
        }
        Ok(ControlFlow::Continue(()))
    }

    fn end<R: Read>(&self, file: &mut R) -> Result<(), ReplayError> {
        if self.open.is_some() {
            return Err(ReplayError::OutOfOrder);
        }
        let mut more = [0u8; 1];
        if input::read_full(file, &mut more)? {
            return Err(ReplayError::MoreBytes);
        }
        if self.tally.compared != self.cases {
            return Err(ReplayError::OtherNumber);
        }
        Ok(())
    }

    fn call(&mut self, number: u8) -> Result<(), ReplayError> {
        if self.open.is_some() {
            return Err(ReplayError::OutOfOrder);
        }
        self.open = Some(recorded_calls::run(number, &self.all, &mut self.left)?);
        Ok(())
    }

    fn compare(&mut self) -> Result<(), ReplayError> {
        let call = self.open.take().ok_or(ReplayError::OutOfOrder)?;
        self.tally.count(call, agrees(&self.all, &self.left));
        Ok(())
    }
}
