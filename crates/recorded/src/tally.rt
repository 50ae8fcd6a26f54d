// What a replay has counted. The counts wrap at 2^64, which no file reaches.
use recorded_calls::call::Call;

// A case that does not agree, by its number in the file.
#[derive(Clone, Copy)]
pub(crate) struct Difference {
    pub(crate) case: u64,
    pub(crate) call: Call,
}

#[derive(Default, Drop)]
pub(crate) struct Tally {
    pub(crate) compared: u64,
    pub(crate) agreed: u64,
    pub(crate) first: Option<Difference>,
    // How many cases of each call agree, by the call's number.
    counts: [u64; 22],
}

impl Tally {
    pub(crate) fn count(&mut self, call: Call, agrees: bool) {
        self.compared = self.compared.wrapping_add(1);
        if agrees {
            self.agreed = self.agreed.wrapping_add(1);
            let count = &mut self.counts[call as usize];
            *count = count.wrapping_add(1);
        } else if self.first.is_none() {
            self.first = Some(Difference {
                case: self.compared,
                call,
            });
        }
    }

    pub(crate) fn agreed_of(&self, call: Call) -> u64 {
        self.counts[call as usize]
    }
}
