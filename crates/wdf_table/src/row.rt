ghost use Rattle.std.specs.Prelude.{◌≡◌, ◌+◌, ◌<◌, ◌^◌};
ghost use Rattle.wdf_table.specs.Rows.{is_as_plain, is_of, joined_rows, row_cmp};

use std::cmp::Ordering;
use wdf_writing::Text;

/// What is known of the seeds whose runs end in one kind.
#[derive(Drop)]
pub struct Row {
    /// The kind, as its text.
    pub kind: Text,
    /// How many seeds there are of it.
    pub count: u64,
    /// The seed whose run has the fewest events, and of several such the least.
    pub seed: u64,
    /// How many events that run has.
    pub events: u64,
}

impl Row {
    /// Whether the row is of this kind.
    pub fn is_of(&self, kind: &[u8]) -> bool
        ensures { result ≡ is_of kind.now self.now }
    {
        self.kind.is(kind)
    }

    /// Whether the row's run is as plain as the other's.
    fn is_as_plain(&self, other: &Row) -> bool
        ensures { result ≡ is_as_plain self.now other.now }
    {
        self.events < other.events || (self.events == other.events && self.seed <= other.seed)
    }

    /// Which of two rows comes first in a table.
    pub(crate) fn compare(&self, other: &Row) -> Ordering
        ensures { result ≡ row_cmp self.now other.now }
    {
        match other.count.cmp(&self.count) {
            Ordering::Equal => self.kind.bytes().cmp(other.kind.bytes()),
            by_count => by_count,
        }
    }

    /// Takes in another row of the same kind.
    pub(crate) fn join(&mut self, other: &Row)
        requires { self.old.count + other.now.count < 2 ^ 64 }
        ensures { self.new ≡ joined_rows self.old other.now }
    {
        self.count += other.count;
        if !self.is_as_plain(other) {
            self.seed = other.seed;
            self.events = other.events;
        }
    }
}
