// Whether the plan in a second file is lighter than the plan in a first, or why not.
//
// `lighter_files` answers for any bytes at all, as the crate compare does for values. Nothing is assumed. This crate knows of files; it
// must not know of text, and it runs no analysis: that the answers of the two files agree with what it says is proved, not computed.
#![tactic(auto)]

ghost use Rattle.compare_files.specs.Files.{SaysLighterOfFiles};

use compare::{Compared, outcome};
use reader::read;

pub fn lighter_files(old: &[u8], new: &[u8]) -> Compared
    ensures { SaysLighterOfFiles old.now new.now result }
{
    let first = read(old);
    let second = read(new);
    match first {
        Err(r) => Compared::FirstRefused(r),
        Ok(first_plan) => match second {
            Err(r) => Compared::SecondRefused(r),
            Ok(second_plan) => outcome(Ok(first_plan), Ok(second_plan)),
        },
    }
}
