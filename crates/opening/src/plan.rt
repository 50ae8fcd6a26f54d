// What opening does to a page that opens, read off its bytes before any is programmed.
ghost use Rattle.std.specs.Prelude.{◌≡◌, length};
ghost use Rattle.sector.specs.Layout.{sector_size};
ghost use Rattle.opening.specs.Steps.{header_record, ChangesOf};

use crate::listing::Listing;
use crate::{Changes, Walked, walk};
use page::ThinPage;
use sector::{bytes, layout};

// The record of a header, with the map and the list that opening leaves.
fn header_record(image: &[u8], map: [u8; 32], listing: Listing) -> ThinPage
    requires { length image.now ≡ sector_size }
    ensures { result ≡ header_record image.now map listing }
{
    let state = sector_header::state_of_word(bytes::number_at(image, 0));
    let statistics = sector_map::get_entry_statistics(map);
    let Listing { len, list } = listing;
    ThinPage {
        state,
        sequence: bytes::number_at(image, 4),
        version: image[8],
        crc: bytes::number_at(image, 28),
        map,
        used: statistics.written as u8,
        erased: statistics.erased as u8,
        len,
        list,
    }
}

// Reads the page: the walk, the entries before the free tail, the first pass, the record.
pub(crate) fn changes(image: &[u8]) -> Changes
    requires { length image.now ≡ sector_size }
    ensures { ChangesOf image.now result }
{
    let map = layout::map_of(image);
    let Walked {
        map: marked,
        heads,
        listing,
    } = walk::walk(image, map);
    let opened = opening_marks::shut_before_tail(image, marked);
    let first = opening_marks::first_pass(map, opened, heads);
    let page = header_record(image, opened, listing);
    Changes { map, first, page }
}
