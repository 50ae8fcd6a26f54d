// Purging by namespace (page.rs): `purge_erased_for_namespace`.
#![tactic(auto)]

ghost use Rattle.std.specs.Prelude.{◌≡◌, false, ◌&&◌, zero, length};
ghost use Rattle.flash.specs.Flash.{run};
ghost use Rattle.sector.specs.Item.{loads};
ghost use Rattle.sector.specs.Layout.{sector_size, entries_of};
ghost use Rattle.sector.specs.Map.{states_of};
ghost use Rattle.call_purge_namespace.specs.PurgeNamespace.{behind_header, purged, passed, to_zero, zero_units, purge_namespace, purge_namespace_image};

use page::ThinPage;
use sector::{EntryMapState, Refusal, SECTOR_SIZE, layout};

// What the walk does at an entry: whether the entry is zeroed, and how many of the following entries share its fate.
#[derive(Clone, Copy)]
struct Step {
    zeroed: bool,
    behind: usize,
}

// An entry that stays as it is, alone.
const STAYS: Step = Step {
    zeroed: false,
    behind: 0,
};

// The step over an entry that may head an item: with its span where it loads, else by one.
fn step_over(entry: [u8; 32], zeroed: bool) -> Step
    ensures { (result.zeroed ≡ (loads entry && zeroed)) × (result.behind ≡ behind_header entry) }
{
    if !sector_item::loads(entry) {
        return STAYS;
    }
    Step {
        zeroed,
        behind: (entry[2] as usize).saturating_sub(1),
    }
}

fn step_at(state: EntryMapState, entry: [u8; 32], namespace: u8) -> Step
    ensures { (result.zeroed ≡ purged namespace state entry) × (result.behind ≡ passed state entry) }
{
    match state {
        EntryMapState::Written => step_over(entry, false),
        EntryMapState::Erased => step_over(entry, entry[0] == namespace),
        EntryMapState::Empty | EntryMapState::Illegal => STAYS,
    }
}

// Which entries are zeroed, header by header.
fn to_zero(image: &[u8], map: [u8; 32], namespace: u8) -> [bool; 126]
    requires { length image.now ≡ sector_size }
    ensures { result ≡ to_zero namespace zero false (states_of map) (entries_of image.now) }
{
    let mut marks = [false; 126];
    let mut step = STAYS;
    for (i, mark) in marks.iter_mut().enumerate() {
        step = if step.behind > 0 {
            Step {
                behind: step.behind - 1,
                ..step
            }
        } else {
            step_at(
                sector_map::state_at(map, i),
                layout::entry_at(image, i),
                namespace,
            )
        };
        *mark = step.zeroed;
    }
    marks
}

// Programs the entries so marked to zero.
fn zero_marked(image: &mut [u8], marks: &[bool; 126])
    requires { length image.old ≡ sector_size }
    ensures { image.new ≡ run (zero_units 0 marks.now) image.old }
{
    for (i, marked) in marks.iter().enumerate() {
        if *marked {
            call_purge::zero_entry(image, i);
        }
    }
}

// Zeroes the Erased items of a namespace (`ThinPage::purge_erased_for_namespace`); the record is only read.
//
// Refuses, in this order: BadImage, BadRecord; in any state. Which entries to zero is found out first. The Rust zeroes as it
// walks. It never comes back to an entry, so it reads the same items.
pub fn purge_erased_for_namespace(
    image: &mut [u8],
    page: &ThinPage,
    namespace: u8,
) -> Result<(), Refusal>
    ensures answer { result ≡ (purge_namespace image.old page.now namespace).answer }
    ensures image { image.new ≡ purge_namespace_image image.old page.now namespace }
{
    if image.len() != SECTOR_SIZE {
        return Err(Refusal::BadImage);
    }
    if !page.fit_to_use() {
        return Err(Refusal::BadRecord);
    }
    let marks = to_zero(image, page.map, namespace);
    zero_marked(image, &marks);
    Ok(())
}
