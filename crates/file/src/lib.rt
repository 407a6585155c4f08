// The plan file: its definition, what reading and writing give, and that one plan is one file of edition 3.
//
// specs/ goes from bytes to raw words, from raw words to a plan, and back; proofs/ has the two round trips. The reader and
// the writer are crates above, which promise what is defined here. Nothing is assumed. The two functions are lent nothing.
#![tactic(auto)]

ghost use Rattle.std.specs.Prelude.{◌≡◌};
ghost use Rattle.carried.specs.Layout as layout;
ghost use Rattle.file.specs.File as spec;

use carried::{CONTENTS, Edition, WORD, record_at, timing_body};

// The bytes of a file of n streams and m noise sources.
pub fn size(edition: Edition, n: u16, m: u16) -> usize
    ensures { result ≡ layout.size edition n m }
{
    WORD * (CONTENTS + (record_at(edition, n) + m as usize))
}

// The contents of a file of n streams and m noise sources.
pub fn contents(edition: Edition, n: u16, m: u16) -> [u32; CONTENTS]
    ensures { result ≡ spec.contents edition n m }
{
    let number = u32::from(edition);
    let timing = timing_body(edition);
    let entries = 3;
    let noise = record_at(edition, n);
    [
        number,
        entries,
        1,
        (WORD * CONTENTS) as u32,
        (WORD * timing) as u32,
        2,
        (WORD * (CONTENTS + timing)) as u32,
        (WORD * (noise - timing)) as u32,
        3,
        (WORD * (CONTENTS + noise)) as u32,
        (WORD * m as usize) as u32,
    ]
}
