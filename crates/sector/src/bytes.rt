// Bytes at offsets, which the Rust reads and writes through unions and `transmute`.
ghost use Rattle.std.specs.Prelude.{◌≡◌, [], ◌∷◌, ◌++◌, ◌+◌, ◌≤◌, length, take, drop};
ghost use Rattle.sector.specs.Layout.{number, field, little_endian, same_bytes};

// The four bytes of a number, lowest first (`u32::to_le_bytes`).
pub fn little_endian(word: u32) -> [u8; 4]
    ensures { result ≡ little_endian 4 word }
{
    word.to_le_bytes()
}

// The eight bytes of a number, lowest first (`u64::to_le_bytes`).
pub fn little_endian_8(word: u64) -> [u8; 8]
    ensures { result ≡ little_endian 8 word }
{
    word.to_le_bytes()
}

// The number in the four bytes from an offset on, lowest first (`u32::from_le_bytes`).
pub fn number_at(bytes: &[u8], offset: usize) -> u32
    requires { offset + 4 ≤ length bytes.now }
    ensures { result ≡ number (field offset 4 bytes.now) }
{
    u32::from_le_bytes(array_of(&bytes[offset..offset + 4]))
}

// Lays bytes over what stands at an offset (`copy_from_slice`).
pub fn put(out: &mut [u8], offset: usize, bytes: &[u8])
    requires { offset + length bytes.now ≤ length out.old }
    ensures { out.new ≡ take offset out.old ++ (bytes.now ++ drop (offset + length bytes.now) out.old) }
{
    out[offset..offset + bytes.len()].copy_from_slice(bytes);
}

// Bytes as an array of as many: a key, data, an entry, a map.
pub fn array_of<const N: usize>(bytes: &[u8]) -> [u8; N]
    requires { length bytes.now ≡ N }
    ensures { result ≡ bytes.now }
{
    bytes.try_into().unwrap()
}

// Whether two lists of bytes are the same.
#[tactic(auto, using(crate::proofs::Laws::same_bytes_pairs))]
pub fn same(first: &[u8], second: &[u8]) -> bool
    ensures { result ≡ same_bytes first.now second.now }
{
    first == second
}
