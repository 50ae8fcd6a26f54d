// C functions that read.
ghost use Rattle.std.specs.Prelude.{◌≡◌};
ghost use Rattle.boundary.specs.Boundary.{width_given, load_given, raw_given, data_given, data_left, state_given, statistics_given, bound_given};

// A primitive's width (`get_primitive_bytes_width`).
#[unsafe(no_mangle)]
pub extern "C" fn nvs_width(byte: u8, buffer: &mut [u8]) -> u32
    ensures number { result ≡ (width_given byte buffer.old).number }
    ensures buffer { buffer.new ≡ (width_given byte buffer.old).buffer }
{
    boundary::reading::nvs_width(byte, buffer)
}

// An item by its index (`load_item`).
#[unsafe(no_mangle)]
pub extern "C" fn nvs_load(image: &[u8], index: u64, buffer: &mut [u8]) -> u32
    ensures number { result ≡ (load_given image.now index buffer.old).number }
    ensures buffer { buffer.new ≡ (load_given image.now index buffer.old).buffer }
{
    boundary::reading::nvs_load(image, index, buffer)
}

// An entry's bytes as they lie (`read_raw_entry`).
#[unsafe(no_mangle)]
pub extern "C" fn nvs_raw_read(image: &[u8], index: u64, buffer: &mut [u8]) -> u32
    ensures number { result ≡ (raw_given image.now index buffer.old).number }
    ensures buffer { buffer.new ≡ (raw_given image.now index buffer.old).buffer }
{
    boundary::reading::nvs_raw_read(image, index, buffer)
}

// The data after an item's header (`load_referenced_data_into`), and its size.
#[unsafe(no_mangle)]
pub extern "C" fn nvs_load_data(
    image: &[u8],
    index: u64,
    output: &mut [u8],
    buffer: &mut [u8],
) -> u32
    ensures number { result ≡ (data_given image.now index output.old buffer.old).number }
    ensures output { output.new ≡ data_left image.now index output.old buffer.old }
    ensures buffer { buffer.new ≡ (data_given image.now index output.old buffer.old).buffer }
{
    boundary::reading::nvs_load_data(image, index, output, buffer)
}

// The two bits that a map holds for an entry (`get_entry_state`).
#[unsafe(no_mangle)]
pub extern "C" fn nvs_entry_state(bytes: &[u8], index: u64, buffer: &mut [u8]) -> u32
    ensures number { result ≡ (state_given bytes.now index buffer.old).number }
    ensures buffer { buffer.new ≡ (state_given bytes.now index buffer.old).buffer }
{
    boundary::reading::nvs_entry_state(bytes, index, buffer)
}

// How many entries are in each state (`get_entry_statistics`).
#[unsafe(no_mangle)]
pub extern "C" fn nvs_statistics(bytes: &[u8], buffer: &mut [u8]) -> u32
    ensures number { result ≡ (statistics_given bytes.now buffer.old).number }
    ensures buffer { buffer.new ≡ (statistics_given bytes.now buffer.old).buffer }
{
    boundary::reading::nvs_statistics(bytes, buffer)
}

// A bound on the items outside namespace 0 (`hashed_item_bound`), by the map and the 126 entries.
#[unsafe(no_mangle)]
pub extern "C" fn nvs_hash_bound(bytes: &[u8], entries: &[u8], buffer: &mut [u8]) -> u32
    ensures number { result ≡ (bound_given bytes.now entries.now buffer.old).number }
    ensures buffer { buffer.new ≡ (bound_given bytes.now entries.now buffer.old).buffer }
{
    boundary::reading::nvs_hash_bound(bytes, entries, buffer)
}
