// Power cuts: an append stopped after n units, the page opened, and what was found.
#![tactic(auto)]

ghost use Rattle.std.specs.Prelude.{◌≡◌, ℕ, ◌≤◌, length};
ghost use Rattle.sector.specs.Answers.{value_where_done};
ghost use Rattle.cuts_append.specs.Cutting.{appended, appended_image, left_after, cut_of, cut_after, finished_by, is_stopped, unit_count, same_items, same_entries, same_sector, found_in, found_after, last_alike, curve};

use call_append::{Single, Variable};
use cuts_request::{Request, Value};
use page::ThinPage;
use sector::{ENTRIES_PER_PAGE, ENTRY_SIZE, ITEMS_OFFSET, Refusal};

const NO_CHUNK: u8 = 0xFF;

// More units than any append has.
const MOST: usize = 1100;

// A sector and its record.
#[derive(Clone, Copy)]
pub struct Sector {
    pub image: [u8; 4096],
    pub page: ThinPage,
}

// An append to a sector: of a single entry, or of the data that is lent.
#[derive(Clone, Copy)]
pub struct Append<'a> {
    pub before: Sector,
    pub request: Request,
    pub payload: &'a [u8],
}

// What the stopped append answered; the image that opening then left, and its record, or why it refuses.
#[derive(Clone, Copy)]
pub struct Cut {
    pub answer: Result<(), Refusal>,
    pub image: [u8; 4096],
    pub opened: Result<ThinPage, Refusal>,
}

// What opening found after a cut: the items from before and nothing of the new one, these and the new one, or something else.
#[derive(Clone, Copy, Debug, PartialEq, Eq)]
pub enum Found {
    Absent,
    Whole,
    Otherwise,
}

// Appends the item, stopped after `stop` units where it has more.
#[tactic(auto, unfolding(crate::specs::Cutting::appended, crate::specs::Cutting::appended_image))]
pub fn append_item(
    image: &mut [u8],
    page: &mut ThinPage,
    request: Request,
    payload: &[u8],
    stop: usize,
) -> Result<(), Refusal>
    ensures answer { result ≡ (appended image.old page.old request payload.now stop).answer }
    ensures page { page.new ≡ (appended image.old page.old request payload.now stop).page }
    ensures image { image.new ≡ appended_image image.old page.old request payload.now stop }
{
    let Request {
        namespace,
        kind,
        key,
        value,
    } = request;
    match value {
        Value::Single(bytes) => {
            let item = Single {
                namespace,
                kind,
                span: 1,
                chunk: NO_CHUNK,
                key,
                bytes,
            };
            call_append::write_item(image, page, item, stop)
        }
        Value::Data => {
            let item = Variable {
                namespace,
                kind,
                chunk: NO_CHUNK,
                key,
            };
            call_append_variable::write_variable_sized_item(image, page, item, payload, stop)
        }
    }
}

// ---- two sectors

// Whether two records have the same items: as many entries used, and the same list.
fn same_items(first: &ThinPage, second: &ThinPage) -> bool
    ensures { result ≡ same_items first.now second.now }
{
    first.used == second.used && first.len == second.len && first.list == second.list
}

// Whether the first `count` entries of two images are the same.
fn same_entries(first: &[u8; 4096], second: &[u8; 4096], count: usize) -> bool
    ensures { result ≡ same_entries first.now second.now count }
{
    if count > ENTRIES_PER_PAGE {
        return false;
    }
    let end = ITEMS_OFFSET + ENTRY_SIZE * count;
    first[ITEMS_OFFSET..end] == second[ITEMS_OFFSET..end]
}

impl Sector {
    // Appends the item to it, as `append_item` does.
    fn append(&mut self, request: Request, payload: &[u8], stop: usize) -> Result<(), Refusal>
        ensures answer { result ≡ (left_after self.old request payload.now stop).answer }
        ensures sector { self.new ≡ (left_after self.old request payload.now stop).sector }
    {
        append_item(&mut self.image, &mut self.page, request, payload, stop)
    }

    // Whether it has the items of another, with the bytes of all entries that are not free there.
    fn has_items_of(&self, wanted: &Sector) -> bool
        ensures { result ≡ same_sector self.now wanted.now }
    {
        let count = wanted.page.get_next_free_entry();
        same_items(&self.page, &wanted.page) && same_entries(&self.image, &wanted.image, count)
    }
}

impl Cut {
    // What it left, by the sectors before the append and after it: opening answers Done and finds the one's items, or the other's.
    pub fn found_in(&self, before: &Sector, after: &Sector) -> Found
        ensures { result ≡ found_in before.now after.now (cut_of self.now) }
    {
        let Ok(page) = self.opened else {
            return Found::Otherwise;
        };
        let image = self.image;
        let sector = Sector { image, page };
        if sector.has_items_of(before) {
            return Found::Absent;
        }
        if sector.has_items_of(after) {
            return Found::Whole;
        }
        Found::Otherwise
    }
}

// ---- all the cuts

impl Append<'_> {
    // The append stopped after `stop` units, and the page opened then.
    pub fn cut_after(&self, stop: usize) -> Cut
        ensures { cut_of result ≡ cut_after self.now.before self.now.request self.now.payload.now stop }
    {
        let mut left = self.before;
        let answer = left.append(self.request, self.payload, stop);
        let opened = opening::open_page(&mut left.image);
        let image = left.image;
        Cut {
            answer,
            image,
            opened,
        }
    }

    // The append that nothing stops: the sector that it leaves. One that is refused leaves it as it was.
    pub fn finish(&self) -> Result<Sector, Refusal>
        ensures { result ≡ value_where_done (finished_by self.now.before self.now.request self.now.payload.now).answer (finished_by self.now.before self.now.request self.now.payload.now).sector }
    {
        let mut sector = self.before;
        sector.append(self.request, self.payload, MOST)?;
        Ok(sector)
    }

    // Whether it is stopped after `stop` units.
    fn is_stopped(&self, stop: usize) -> bool
        ensures { result ≡ is_stopped self.now.before self.now.request self.now.payload.now stop }
    {
        let mut sector = self.before;
        sector.append(self.request, self.payload, stop) == Err(Refusal::Stopped)
    }

    // The units of the append: the first n at which it is not stopped; 0 where it is refused.
    pub fn count_units(&self) -> usize
        ensures count { result ≡ unit_count self.now.before self.now.request self.now.payload.now }
        ensures most { result ≤ 1100 }
    {
        (0..MOST).find(|n| !self.is_stopped(*n)).unwrap_or(MOST)
    }

    // What is found when the append is cut after n units.
    pub fn found_after(&self, after: &Sector, n: usize) -> Found
        ensures { result ≡ found_after self.now.before after.now self.now.request self.now.payload.now n }
    {
        self.cut_after(n).found_in(&self.before, after)
    }

    // The last cut from `first` to `last` up to which all are found as the first is.
    pub fn last_alike(&self, after: &Sector, first: usize, last: usize) -> usize
        ensures within { (first ≤ result) × (first ≤ last → result ≤ last) }
        ensures alike { (k : ℕ) → first ≤ k → k ≤ result → found_after self.now.before after.now self.now.request self.now.payload.now k ≡ found_after self.now.before after.now self.now.request self.now.payload.now first }
        ensures last { result ≡ last_alike self.now.before after.now self.now.request self.now.payload.now first last }
    {
        let wanted = self.found_after(after, first);
        (first..last)
            .find(|n| self.found_after(after, *n + 1) != wanted)
            .unwrap_or(first.max(last))
    }
}

// Bytes for an item: 0, 1 and so on, and after 250 from 0 again.
#[tactic(auto, using(crate::proofs::Laws::curve_steps))]
pub fn fill(payload: &mut [u8])
    ensures { payload.new ≡ curve (length payload.old) }
{
    for (i, byte) in payload.iter_mut().enumerate() {
        *byte = (i % 251) as u8;
    }
}
