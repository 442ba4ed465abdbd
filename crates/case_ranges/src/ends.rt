//! The ends of a range among the numbers of 64 bits.

ghost use Rattle.std.specs.Prelude.{◌≡◌};
ghost use Rattle.case_ranges.specs.Ends.{high_end as high_end_of, low_end as low_end_of};

use checked_tree::statement::CaseRange;

/// The least number of a range that has one.
pub fn low_end(range: CaseRange) -> i64
    ensures { result ≡ low_end_of range }
{
    match range {
        CaseRange::Value(value) => value,
        CaseRange::AtLeast(low) => low,
        CaseRange::AtMost(_) => i64::MIN,
        CaseRange::Between(low, _) => low,
    }
}

/// The greatest number of a range that has one.
pub fn high_end(range: CaseRange) -> i64
    ensures { result ≡ high_end_of range }
{
    match range {
        CaseRange::Value(value) => value,
        CaseRange::AtLeast(_) => i64::MAX,
        CaseRange::AtMost(high) => high,
        CaseRange::Between(_, high) => high,
    }
}
