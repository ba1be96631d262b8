// A ranking of records, and records that can be void.
ghost use Rattle.std.specs.Prelude.{◌≡◌, ℕ, Bool, true, List};
ghost use Rattle.std.specs.Ordering.{MatchOrdering};
ghost use Rattle.ordered.specs.Ranking.{Lawful};

use std::cmp::Ordering;

// A record with a ranking. It is no `Ord`: records of one rank may differ in the fields that are not ranked, and `Ord` answers `Equal` only where
// `==` holds.
pub trait Rank {
    // The fields that the record is ranked by; records that agree in all of them have the same rank.
    ghost fields: { Self → List ℕ };

    // Whether the first record comes before the second.
    ghost before: { Self → Self → Bool };

    // Less where this record comes before the other, Equal where both have the same rank, Greater where it comes after.
    fn rank(&self, other: &Self) -> Ordering
        ensures { MatchOrdering result (before self.now other.now ≡ true) (fields self.now ≡ fields other.now) (before other.now self.now ≡ true) };

    // Of two records exactly one of before, same and after holds; before is transitive.
    ghost lawful: { Lawful before fields };
}

// A record that can be void: one that a compaction drops.
pub trait Void {
    ghost void: { Self → Bool };

    fn is_void(&self) -> bool
        ensures { result ≡ void self.now };
}
