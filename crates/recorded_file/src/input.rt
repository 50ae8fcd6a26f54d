// Reading the file.
use std::io;
use std::io::{ErrorKind, Read};

// Fills the bytes from the file. False where it ends before; no more than its end is read then.
pub fn read_full<R: Read>(file: &mut R, bytes: &mut [u8]) -> io::Result<bool> {
    match file.read_exact(bytes) {
        Ok(()) => Ok(true),
        Err(error) => {
            if error.kind() == ErrorKind::UnexpectedEof {
                return Ok(false);
            }
            Err(error)
        }
    }
}
