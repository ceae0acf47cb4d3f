//! How far a hunt is, as a line on standard error.
use std::io::Eprint;
use std::time::{Clock, Instant};
use wdf_hunt::Progress;

/// The least round: fewer seeds aren't worth a thread on each processor.
const LEAST_ROUND: u32 = 256;

/// So many rounds there are a second, where a round has more seeds than the least.
const ROUNDS_A_SECOND: u64 = 4;

/// A line that is written again after each round, where one is wanted.
#[derive(Drop)]
pub(crate) struct Line<'a, R> {
    rt: &'a R,
    /// Since when the hunt goes on; `None` where no line is wanted.
    began: Option<Instant>,
    /// How many seeds the next round has.
    round: u32,
}

impl<'a, R: Clock + Eprint> Line<'a, R> {
    /// A line of a hunt that begins now, where one is wanted.
    pub(crate) fn new(rt: &'a R, is_wanted: bool) -> Line<'a, R> {
        let began = if is_wanted {
            Instant::now(rt).ok()
        } else {
            None
        };
        Line {
            rt,
            began,
            round: LEAST_ROUND,
        }
    }

    /// Writes the line anew, or wipes it where all is done. Where standard error fails, there is no line.
    fn write(&self, done: u32, count: u32, a_second: u64, kinds: usize) {
        let rt = self.rt;
        let left = u64::from(count.saturating_sub(done)) / a_second.max(1);
        let _written = if done == count {
            eprint!(rt; "\r\x1b[K")
        } else {
            eprint!(rt;
                "\r{done} of {count} seeds, {a_second} a second, {left} s left, {kinds} kinds\x1b[K"
            )
        };
    }
}

impl<'a, R: Clock + Eprint> Progress for Line<'a, R> {
    fn round(&mut self) -> u32 {
        match self.began {
            Some(_) => self.round,
            None => u32::MAX,
        }
    }

    fn tell(&mut self, done: u32, count: u32, kinds: usize) {
        let Some(began) = self.began else {
            return;
        };
        let Ok(time) = began.elapsed(self.rt) else {
            return;
        };
        let millis = time.as_secs().saturating_mul(1000);
        let millis = millis.saturating_add(u64::from(time.subsec_millis()));
        let a_second = u64::from(done) * 1000 / millis.max(1);
        let round = u32::try_from(a_second / ROUNDS_A_SECOND).unwrap_or(u32::MAX);
        self.round = round.max(LEAST_ROUND);
        self.write(done, count, a_second, kinds);
    }
}
