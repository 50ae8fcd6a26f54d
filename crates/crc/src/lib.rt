// CRC-32 as the ESP ROM computes it (`software_crc32` of the Rust), eight bytes at a time, each nibble looked up.
#![tactic(auto)]

ghost use Rattle.std.specs.Prelude.{◌≡◌, ◌*◌, ◌≤◌};
ghost use Rattle.crc.specs.Crc.{shifts, intake, register, crc32};

// Four shifts of a word for each of the rows. Each nibble that falls out is looked up, in the row of the shifts that it has
// left to go.
#[tactic(auto, using(crate::proofs::Nibbles::shift_turn), unfolding(crate::specs::Crc::shifts))]
fn shift(rows: usize, word: u32) -> u32
    requires { rows ≤ 16 }
    ensures { result ≡ shifts (4 * rows) word }
{
    let mut looked_up = 0;
    let mut rest = word;
    for row in (0..rows).rev() {
        looked_up ^= crc_tables::nibble(row, rest % 16);
        rest /= 16;
    }
    looked_up ^ rest
}

#[tactic(auto, unfolding(crate::specs::Crc::intake))]
fn intake_byte(start: u32, byte: &u8) -> u32
    ensures { result ≡ intake start byte.now }
{
    shift(2, start ^ u32::from(*byte))
}

#[tactic(auto, using(crate::proofs::Laws::register_word))]
fn intake_word(start: u32, word: &[u8; 4]) -> u32
    ensures { result ≡ register start word.now }
{
    shift(8, start ^ u32::from_le_bytes(*word))
}

// The first word has the shifts of the second to go too.
#[tactic(auto, using(crate::proofs::Laws::register_words))]
fn intake_block(start: u32, block: &[u8; 8]) -> u32
    ensures { result ≡ register start block.now }
{
    let low = u32::from_le_bytes([block[0], block[1], block[2], block[3]]);
    let high = u32::from_le_bytes([block[4], block[5], block[6], block[7]]);
    shift(16, start ^ low) ^ shift(8, high)
}

// The CRC of bytes, from a start value (`software_crc32`). With an earlier CRC as the start it goes on from that.
//
// It refuses nothing: the CRC of no bytes is the start.
pub fn crc32(start: u32, bytes: &[u8]) -> u32
    ensures { result ≡ crc32 start bytes.now }
{
    let (blocks, tail) = bytes.as_chunks::<8>();
    let (words, last) = tail.as_chunks::<4>();
    let after_blocks = blocks.iter().fold(!start, intake_block);
    let after_words = words.iter().fold(after_blocks, intake_word);
    !last.iter().fold(after_words, intake_byte)
}
