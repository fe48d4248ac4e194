//! How much may be put at once.

/// What was put at once so far, beside the terms that came otherwise. Those pay for it: whatever a
/// file does, all that is put takes no more than a constant times what its terms take. No clause
/// speaks of it.
#[derive(Drop)]
pub struct Pace {
    /// How many terms there were at the last look, and how many more what was put since then may
    /// have made.
    seen: u64,
    /// How many terms came otherwise: the library's own, and those that units made.
    earned: u64,
    /// How many steps were spent on what was put.
    spent: u64,
}

/// At one time so many steps may be spent for each term that is earned.
const STEPS: u64 = 16;

impl Pace {
    /// Nothing is earned, and nothing spent.
    pub fn new() -> Self {
        Pace {
            seen: 0,
            earned: 0,
            spent: 0,
        }
    }

    /// From here on there are so many terms, which may be fewer than there were.
    pub fn start(&mut self, terms: u64) {
        self.seen = self.seen.min(terms);
    }

    /// So many terms are there now. Those that came are earned.
    pub fn note(&mut self, terms: u64) {
        self.earned = self.earned.saturating_add(terms.saturating_sub(self.seen));
        self.seen = terms;
    }

    /// How many steps may be spent at one time: none where more were spent than terms are earned,
    /// so many times.
    pub fn most(&self, times: u64) -> u64 {
        if self.spent > self.earned.saturating_mul(times) {
            return 0;
        }
        self.earned.saturating_mul(STEPS)
    }

    /// A type was looked at in so many steps, and nothing is put. A look is far cheaper than what
    /// it would have put, so one type that is too large takes the means of no other one.
    pub fn spend_on_look(&mut self, steps: u64) {
        self.spent = self.spent.saturating_add(steps / STEPS);
    }

    /// So many steps are spent. The terms that they make, which are no more, are not earned.
    pub fn spend(&mut self, steps: u64) {
        self.spent = self.spent.saturating_add(steps);
        self.seen = self.seen.saturating_add(steps);
    }
}
