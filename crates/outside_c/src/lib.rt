// What C calls: each export calls the function of `outside` that has its name, and promises what that promises. C links the exports of a
// static library, and Rust and the tests call the functions of `outside`, so each stands in both.
#![tactic(auto)]

ghost use Rattle.std.specs.Prelude.{◌≡◌};
ghost use Rattle.answer_files.specs.AnswerFiles.{answer_file_of};
ghost use Rattle.compare_files.specs.Files.{compared_files};
ghost use Rattle.tournament.specs.Answers.{parting_of};
ghost use Rattle.rewriter.specs.Rewriter.{rewrite_of};
ghost use Rattle.outside.specs.Outside as number;
ghost use Rattle.outside.specs.Outside.{Screened};

use outside::{Said, Stepped, Weighed};
use plan::Stream;

// The answer words of a file's plan.
#[unsafe(no_mangle)]
pub extern "C" fn livnakesh_answers(file: &[u8], out: &mut [u64]) -> Said
    ensures value { result ≡ number.checked (answer_file_of file.now out.old).0 }
    ensures out_after { out.new ≡ (answer_file_of file.now out.old).1 }
{
    outside::livnakesh_answers(file, out)
}

// The plan in a file, written again into lent bytes.
#[unsafe(no_mangle)]
pub extern "C" fn livnakesh_rewrite(file: &[u8], out: &mut [u8]) -> Said
    ensures value { result ≡ number.written (rewrite_of file.now out.old).0 }
    ensures out_after { out.new ≡ (rewrite_of file.now out.old).1 }
{
    outside::livnakesh_rewrite(file, out)
}

// The file of the plan that is meant by lent words, ten of the timing, seven for each of n streams and m noise gaps, written into lent bytes.
#[unsafe(no_mangle)]
pub extern "C" fn livnakesh_write(n: usize, m: usize, values: &[u32], out: &mut [u8]) -> Said
    ensures value { result ≡ number.written (number.write_from n m values.now out.old).0 }
    ensures out_after { out.new ≡ (number.write_from n m values.now out.old).1 }
{
    outside::livnakesh_write(n, m, values, out)
}

// The answer words of lent streams, each of them its seven words in file order, under a timing of ten words and these noise gaps.
#[unsafe(no_mangle)]
pub extern "C" fn livnakesh_screen(
    streams: &[Stream],
    timing: &[u32],
    gaps: &[u32],
    out: &mut [u64],
) -> Said
    ensures { Screened streams.now timing.now gaps.now out.old result out.new }
{
    outside::livnakesh_screen(streams, timing, gaps, out)
}

// The bit at which two priorities part.
#[unsafe(no_mangle)]
pub extern "C" fn livnakesh_parting(bits: u32, a: u32, b: u32) -> Said
    ensures { result ≡ number.parting (parting_of bits (record { 0 = a }) (record { 0 = b })) }
{
    outside::livnakesh_parting(bits, a, b)
}

// Whether the plan in the second file is lighter.
#[unsafe(no_mangle)]
pub extern "C" fn livnakesh_lighter(old: &[u8], new: &[u8]) -> Weighed
    ensures { result ≡ number.weighed (compared_files old.now new.now) }
{
    outside::livnakesh_lighter(old, new)
}

// The start of a tournament of as many contenders as there are priorities: what stood in the lent marks is not looked at.
#[unsafe(no_mangle)]
pub extern "C" fn livnakesh_start(bits: u32, priorities: &[u32], marks: &mut [u8]) -> Stepped
    ensures value { result ≡ number.started bits priorities.now marks.old }
    ensures marks_after { marks.new ≡ number.start_marks bits priorities.now marks.old }
{
    outside::livnakesh_start(bits, priorities, marks)
}

// One step of the tournament that is lent: its marks are copied out before they are written over.
#[unsafe(no_mangle)]
pub extern "C" fn livnakesh_step(
    bits: u32,
    phase: u32,
    at: u32,
    priorities: &[u32],
    marks: &mut [u8],
) -> Stepped
    ensures value { result ≡ number.gone_on bits phase at priorities.now marks.old }
    ensures marks_after { marks.new ≡ number.step_marks bits phase at priorities.now marks.old }
{
    outside::livnakesh_step(bits, phase, at, priorities, marks)
}
