// The request of a call: its numbers, out of the 64 bytes of their buffer.
ghost use Rattle.std.specs.Prelude.{◌≡◌, ◌+◌, ◌≤◌, length};
ghost use Rattle.sector.specs.Layout.{number, field};
ghost use Rattle.recorded_file.specs.Buffers.{request_size};
ghost use Rattle.recorded_file.specs.Requests.{request_of};

use sector::bytes;

#[derive(Clone, Copy)]
pub struct Request {
    pub namespace: u8,
    pub kind: u8,
    pub chunk: u8,
    pub value: u8,
    // The start of a CRC, or the sequence of a new page.
    pub start: u32,
    pub index: u64,
    pub span: u64,
    pub stop: u64,
    // So many first bytes of the buffers data and output are the call's.
    pub payload: u16,
    pub room: u16,
}

// The number in the eight bytes from an offset on, lowest first.
fn number_8(bytes: &[u8], offset: usize) -> u64
    requires { offset + 8 ≤ length bytes.now }
    ensures { result ≡ number (field offset 8 bytes.now) }
{
    u64::from_le_bytes(bytes[offset..offset + 8].try_into().unwrap())
}

#[tactic(auto, unfolding(crate::specs::Requests::request_of))]
pub fn request_of(bytes: &[u8]) -> Request
    requires { length bytes.now ≡ request_size }
    ensures { result ≡ request_of bytes.now }
{
    Request {
        namespace: bytes[0],
        kind: bytes[1],
        chunk: bytes[2],
        value: bytes[3],
        start: bytes::number_at(bytes, 4),
        index: number_8(bytes, 8),
        span: number_8(bytes, 16),
        stop: number_8(bytes, 24),
        payload: u16::from_le_bytes([bytes[32], bytes[33]]),
        room: u16::from_le_bytes([bytes[34], bytes[35]]),
    }
}
