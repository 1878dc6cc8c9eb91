//! The commits that a journal has, and the type that names it.
use std::marker::Brand;
use watermark::WatermarkId;

/// A prefix of one history of commits. Threads keep copies of it; a journal of one table or of several has its own.
pub trait HistoryPrefix: Drop {
    ghost use Rattle.std.specs.Prelude.{◌≡◌, ℕ, List, true};

    /// The payloads of its commits since the opening, in order.
    ghost payloads: { Self → List (List ℕ) };

    /// The same prefix. Takes no memory.
    fn again(&self) -> Self
        ensures { result ≡ self.now };

    /// Whether two prefixes have the same commits. It takes one comparison of their lengths, since both are of one history.
    fn has_same_commits(&self, other: &Self) -> bool
        ensures same { result ≡ true → payloads self.now ≡ payloads other.now }
        ensures found { payloads self.now ≡ payloads other.now → result ≡ true };
}

/// Names a journal: what the device had at the opening, the number of the commit before, the seed of its frames, and its watermark.
pub trait JournalId: WatermarkId {
    ghost use Rattle.std.specs.Prelude.{ℕ, List};

    ghost front: { List ℕ };

    ghost base: { ℕ };

    ghost seed: { ℕ };
}

impl JournalId for Brand {
    ghost use Rattle.std.specs.Prelude.{[]};

    ghost front = { [] };

    ghost base = { 0 };

    ghost seed = { 0 };
}
