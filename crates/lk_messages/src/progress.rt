//! How far a check is, as one line on standard error, where that is a terminal.

use lk_port::Gate;
use std::io::Eprint;
use std::sync::atomic::{AtomicU64, Ordering};
use std::time::{Clock, Instant};

/// So many milliseconds lie between two lines at least.
const PAUSE: u64 = 100;

/// How far a check is, and when that was told last.
#[derive(Drop)]
pub struct Progress<'a, R: Eprint + Clock> {
    rt: &'a R,
    /// When the program began; nothing is told without it.
    start: Option<Instant>,
    /// How many milliseconds after that the line was written last; 0 where it was not.
    told: AtomicU64,
    bytes: AtomicU64,
    units: AtomicU64,
    checked: AtomicU64,
    refused: AtomicU64,
}

impl<'a, R: Eprint + Clock> Progress<'a, R> {
    /// Nothing is done yet. Only where standard error is a terminal something is told.
    pub fn new(rt: &'a R, is_terminal: bool) -> Progress<'a, R> {
        let start = if is_terminal {
            Instant::now(rt).ok()
        } else {
            None
        };
        Progress {
            rt,
            start,
            told: AtomicU64::new(0),
            bytes: AtomicU64::new(0),
            units: AtomicU64::new(0),
            checked: AtomicU64::new(0),
            refused: AtomicU64::new(0),
        }
    }

    /// Whether the line is to be written: the last time is long enough ago. From now on it is not.
    fn is_due(&self) -> bool {
        let Some(start) = self.start else {
            return false;
        };
        let Ok(passed) = start.elapsed(self.rt) else {
            return false;
        };
        let now = passed
            .as_secs()
            .saturating_mul(1000)
            .saturating_add(u64::from(passed.subsec_millis()));
        let told = self.told.load(Ordering::SeqCst);
        // Of several workers that come at one time one tells.
        now >= told.saturating_add(PAUSE)
            && self
                .told
                .compare_exchange(told, now, Ordering::SeqCst, Ordering::SeqCst)
                .is_ok()
    }

    /// So many more bytes were read.
    pub(crate) fn took(&self, count: usize) {
        let bytes = self.bytes.fetch_add(count as u64, Ordering::SeqCst);
        if self.is_due() {
            let _ = eprint!(self.rt; "\r\x1b[Kleancheck: {} MB read", bytes / 1_000_000);
        }
    }

    /// Takes the line away, where there is one.
    pub fn end(&self) {
        if self.told.swap(0, Ordering::SeqCst) > 0 {
            let _ = eprint!(self.rt; "\r\x1b[K");
        }
    }

    /// How many units the library has; 0 where none was read.
    pub fn units(&self) -> u64 {
        self.units.load(Ordering::SeqCst)
    }
}

impl<'a, R: Eprint + Clock + Sync> Gate for Progress<'a, R> {
    fn begins(&self, units: u64) {
        self.units.store(units, Ordering::SeqCst);
    }

    fn before_unit(&self, _unit: u32) {
        if self.is_due() {
            let units = self.units.load(Ordering::SeqCst);
            let checked = self.checked.load(Ordering::SeqCst);
            let refused = self.refused.load(Ordering::SeqCst);
            let _ = eprint!(self.rt;
                "\r\x1b[Kleancheck: {checked} of {units} units checked, {refused} say no"
            );
        }
    }

    fn after_unit(&self, _unit: u32, yes: bool) {
        self.checked.fetch_add(1, Ordering::SeqCst);
        if !yes {
            self.refused.fetch_add(1, Ordering::SeqCst);
        }
    }
}
