// The walk over the entries: from header to header, each verdict marked in the map and its item listed.
ghost use Rattle.std.specs.Prelude.{◌≡◌, ◌+◌, ◌<◌, length};
ghost use Rattle.sector.specs.Layout.{sector_size, entries_per_page, entry_at};
ghost use Rattle.opening_reading.specs.Reading.{steps_over};
ghost use Rattle.opening.specs.Opening.{is_refused_item};
ghost use Rattle.opening.specs.Steps.{marked_by, listed_by, WalkLeaves};

use crate::Walked;
use crate::listing::Listing;
use opening_reading::{Verdict, Walk};
use page::Listed;
use sector::{EntryMapState, layout};

fn is_refused_item(verdict: Verdict) -> bool
    ensures { result ≡ is_refused_item verdict }
{
    matches!(verdict, Verdict::RefusedItem(_, _))
}

// The map with the mark that a verdict gives: what is kept is Written, what is refused Erased.
fn marked_by(map: [u8; 32], index: usize, verdict: Verdict) -> [u8; 32]
    requires { index + steps_over verdict < entries_per_page }
    ensures { result ≡ marked_by verdict index map }
{
    match verdict {
        Verdict::NotAnItem => map,
        Verdict::RefusedEntry(_) => sector_map::mark_range(map, EntryMapState::Erased, index, 1),
        Verdict::RefusedItem(_, covered) => {
            sector_map::mark_range(map, EntryMapState::Erased, index, covered + 1)
        }
        Verdict::Kept(covered) => {
            sector_map::mark_range(map, EntryMapState::Written, index, covered + 1)
        }
    }
}

// One place more where the verdict at an entry keeps an item, unless it is in namespace 0.
fn list_by(listing: &mut Listing, image: &[u8], index: usize, verdict: Verdict)
    requires { (length image.now ≡ sector_size) × (index < entries_per_page) × (length listing.old < entries_per_page) }
    ensures { listing.new ≡ listed_by verdict index (entry_at image.now index) listing.old }
{
    let Verdict::Kept(_) = verdict else {
        return;
    };
    let entry = layout::entry_at(image, index);
    if entry[0] != 0 {
        listing.push(Listed {
            hash: sector_hash::hash_of_item(entry),
            index: index as u8,
        });
    }
}

// Walks from entry 0 to the last: what it leaves of the map, where it refused a payload item, and the items that it kept.
pub(crate) fn walk(image: &[u8], map: [u8; 32]) -> Walked
    requires { length image.now ≡ sector_size }
    ensures { WalkLeaves image.now map result }
{
    let mut marked = map;
    let mut heads = [false; 126];
    let mut listing = Listing::empty();
    for (index, verdict) in Walk::new(image, map, 0) {
        let next = marked_by(marked, index, verdict);
        marked = next;
        heads[index] = is_refused_item(verdict);
        list_by(&mut listing, image, index, verdict);
    }
    Walked {
        map: marked,
        heads,
        listing,
    }
}
