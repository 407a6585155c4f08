// The lowest row that repeats an earlier row.
//
// `first_repeat` answers for a slice of any length, and its contract determines the answer. Nothing is
// assumed. This crate must not know what the values stand for: refusals 4, 5 and 9 all ask it.
#![tactic(auto)]

ghost use Rattle.std.specs.Prelude.{◌≡◌, ◌<◌, length};
ghost use Rattle.repeats.specs.Repeats.{first_repeat};
ghost use Rattle.repeats.specs.private.Buckets.{bucket_of};

use names::{FEW, Row};

// Values are kept apart in so many buckets, and rows are held against each other only where two are in one.
const BUCKETS: usize = 1024;

// Among 1,024 neighbours have buckets of their own, and so have those of two halves that are not far apart, as labels of a few groups.
fn bucket(value: u32, buckets: usize) -> usize
    requires { 0 < buckets }
    ensures value { result ≡ bucket_of buckets value }
    ensures upper_bound { result < buckets }
{
    (value as usize % 65536 + 251 * (value as usize / 65536)) & (buckets - 1)
}

// The lowest row that has the value of an earlier row. A bucket may be met from the start: then only more rows are held against each other.
fn first_by_buckets<const COUNT: usize>(values: &[u32], mut met: [bool; COUNT]) -> Option<Row>
    requires { 0 < COUNT }
    ensures { result ≡ first_repeat values.now }
{
    for (i, value) in values.iter().enumerate() {
        let b = bucket(*value, COUNT);
        if met[b] && values[0..i].contains(value) {
            return Some(Row(i));
        }
        met[b] = true;
    }
    None
}

// The lowest row that has the value of an earlier row, or that all rows differ. A few rows have one bucket, met from the start.
pub fn first_repeat(values: &[u32]) -> Option<Row>
    ensures { result ≡ first_repeat values.now }
{
    if values.len() <= FEW {
        return first_by_buckets(values, [true]);
    }
    first_by_buckets(values, [false; BUCKETS])
}
