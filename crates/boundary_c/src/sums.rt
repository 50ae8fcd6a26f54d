// C functions over bytes and numbers alone: CRCs, the hash, the type byte.
ghost use Rattle.std.specs.Prelude.{◌≡◌};
ghost use Rattle.crc.specs.Crc.{crc32};
ghost use Rattle.sector.specs.Types.{type_byte};
ghost use Rattle.boundary.specs.Boundary.{item_crc_given, header_crc_given, hash_given};

// The CRC of the data from a start value.
#[unsafe(no_mangle)]
pub extern "C" fn nvs_crc32(start: u32, bytes: &[u8]) -> u32
    ensures { result ≡ crc32 start bytes.now }
{
    boundary::sums::nvs_crc32(start, bytes)
}

// The CRC over bytes 0..4 and 8..32 of an item as it stands (`item_crc`).
#[unsafe(no_mangle)]
pub extern "C" fn nvs_item_crc(bytes: &[u8], buffer: &mut [u8]) -> u32
    ensures number { result ≡ (item_crc_given bytes.now buffer.old).number }
    ensures buffer { buffer.new ≡ (item_crc_given bytes.now buffer.old).buffer }
{
    boundary::sums::nvs_item_crc(bytes, buffer)
}

// The CRC over bytes 4..28 of a page's header as it stands (`header_crc`).
#[unsafe(no_mangle)]
pub extern "C" fn nvs_header_crc(bytes: &[u8], buffer: &mut [u8]) -> u32
    ensures number { result ≡ (header_crc_given bytes.now buffer.old).number }
    ensures buffer { buffer.new ≡ (header_crc_given bytes.now buffer.old).buffer }
{
    boundary::sums::nvs_header_crc(bytes, buffer)
}

// The 24-bit hash of namespace, key and chunk (`calculate_hash`).
#[unsafe(no_mangle)]
pub extern "C" fn nvs_hash(namespace: u8, key: &[u8], chunk: u8, buffer: &mut [u8]) -> u32
    ensures number { result ≡ (hash_given namespace key.now chunk buffer.old).number }
    ensures buffer { buffer.new ≡ (hash_given namespace key.now chunk buffer.old).buffer }
{
    boundary::sums::nvs_hash(namespace, key, chunk, buffer)
}

// The byte, or 0xFF where it is none of the thirteen types.
#[unsafe(no_mangle)]
pub extern "C" fn nvs_type_byte(byte: u8) -> u8
    ensures { result ≡ type_byte byte }
{
    boundary::sums::nvs_type_byte(byte)
}
