// A 4,000-byte curve on a fresh page.
use cuts_append::{Append, Sector};
use cuts_request::{Request, Value};
use page::ThinPage;
use sector::SECTOR_SIZE;
use std::io;

// A page whose header was written whole. A blank one takes it.
fn page() -> Sector {
    let mut image = [0xFFu8; SECTOR_SIZE];
    let mut page = ThinPage::uninitialized();
    let Ok(()) = call_page_state::initialize(&mut image, &mut page, 1, 8) else {
        unreachable!()
    };
    Sector { image, page }
}

fn curve() -> Request {
    Request {
        namespace: 1,
        kind: 0x42,
        key: cuts_request::key_bytes(b"curve"),
        value: Value::Data,
    }
}

pub(crate) fn print_all(rt: &impl Print) -> io::Result<()> {
    let mut payload = [0u8; 4000];
    cuts_append::fill(&mut payload);
    let append = Append {
        before: page(),
        request: curve(),
        payload: &payload,
    };
    cuts_report::print_cuts(
        rt,
        b"cuts of a 4,000-byte curve on a fresh page",
        b"curve",
        &append,
    )
}
