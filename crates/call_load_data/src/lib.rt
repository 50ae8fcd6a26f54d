// Reading the data after an item's header out of a sector (page.rs): load data.
#![tactic(auto)]

ghost use Rattle.std.specs.Prelude.{◌≡◌, ◌^◌, ◌<◌, ◌≤◌, ◌++◌, length, drop};
ghost use Rattle.sector.specs.Answers.{refusal, value_where_done};
ghost use Rattle.sector.specs.Layout.{entries_per_page};
ghost use Rattle.call_load_data.specs.Payload.{rounded_up, payload_checks, data_answer, data_output};

use sector::{ENTRIES_PER_PAGE, ENTRY_SIZE, Refusal, layout};

// A size rounded up to the read unit.
fn rounded_up(size: usize) -> usize
    requires { size < 2 ^ 16 }
    ensures { result ≡ rounded_up size }
{
    (size + 3) / 4 * 4
}

// The first check of an item's payload that refuses, for an output of `room` bytes.
fn payload_refusal(entry: [u8; 32], index: usize, room: usize) -> Result<(), Refusal>
    requires { index < entries_per_page }
    ensures { result ≡ refusal (payload_checks entry index room) }
{
    if !sector_types::kind_of(entry[1]).payload {
        return Err(Refusal::ItemTypeMismatch(entry[1]));
    }
    let span = entry[2] as usize;
    if span == 0 {
        return Err(Refusal::CorruptedData);
    }
    if span > ENTRIES_PER_PAGE - index {
        return Err(Refusal::CorruptedData);
    }
    let size = layout::size_of(entry);
    if size > ENTRY_SIZE * (span - 1) {
        return Err(Refusal::CorruptedData);
    }
    if room < rounded_up(size) {
        return Err(Refusal::CorruptedData);
    }
    Ok(())
}

// The bytes of a part go to the start of the output; its rest stays.
//
// A loop: the library's `copy_from_slice` would have the archive for C ask for `memmove`, which it needs nowhere else.
fn copy_to(part: &[u8], output: &mut [u8])
    requires { length part.now ≤ length output.old }
    ensures { output.new ≡ part.now ++ drop (length part.now) output.old }
{
    for (k, byte) in part.iter().enumerate() {
        output[k] = *byte;
    }
}

// The data after an item's header, to the start of the output, and its size
// (`ThinPage::load_referenced_data_into`). The output gets the size rounded up to 4 bytes, its rest stays.
// The payload's CRC is not checked.
//
// Refuses what `load_item` refuses; a type that is not Sized, Blob or BlobData (ItemTypeMismatch, with the
// type byte); then, each as CorruptedData, a span of 0, a span that leaves the page, a size that
// the span does not hold, and an output shorter than the rounded size. The Rust takes the item from its
// caller, and so loads nothing here.
pub fn load_referenced_data_into(
    image: &[u8],
    index: usize,
    output: &mut [u8],
) -> Result<usize, Refusal>
    ensures answer { result ≡ value_where_done (data_answer image.now index (length output.old)).answer (data_answer image.now index (length output.old)).size }
    ensures output { output.new ≡ data_output image.now index output.old }
{
    let item = call_load::load_item(image, index)?;
    payload_refusal(item, index, output.len())?;
    let size = layout::size_of(item);
    let read = rounded_up(size);
    let start = layout::entry_address(index + 1);
    copy_to(&image[start..start + read], output);
    Ok(size)
}
