// Plans written from their values, as other languages call it, into short and long memory of this program's own, a line for each call:
// what is lent, what comes back and, after a bar, what all the lent bytes end with. Lent bytes are 7 before the call.
//
// The answers are proved in the crate outside; here they are run and compared. This program must not know any rule.
#![tactic(auto)]

ghost use Rattle.std.specs.Prelude.{◌<◌, ◌^◌};

use outside::livnakesh_write;
use shown::{P2, answer, bytes};

// As many bytes as the file of P1 has, one byte too few for it, and fewer than any file has.
const ENOUGH: usize = 168;

const SHORT: usize = ENOUGH - 1;

const FEW: usize = 10;

// The words of P2 with another word in one place; a place past their end changes nothing.
fn values(at: usize, word: u32) -> [u32; 32] {
    let mut words = P2;
    if let Some(old) = words.get_mut(at) {
        *old = word;
    }
    words
}

// Into so many bytes.
fn write<const N: usize>(rt: &impl Print, n: usize, m: usize, at: usize, word: u32)
    requires { N < 2 ^ 63 }
{
    let _ = print!(rt; "write {n} {m} with word {at} {word}");
    let mut lent = [7; N];
    let said = livnakesh_write(n, m, &values(at, word), &mut lent);
    answer(rt, said.refusal, said.value);
    bytes(rt, &lent);
}

// P2 with bytes to spare, P1 whole and with a byte too few; the first stream of P1 alone.
fn room(rt: &impl Print) {
    write::<176>(rt, 3, 1, 32, 0);
    write::<ENOUGH>(rt, 3, 0, 32, 0);
    write::<SHORT>(rt, 3, 0, 32, 0);
    write::<112>(rt, 1, 0, 32, 0);
}

// Wrong counts, and the most streams, of which three are lent; a payload and a period of 0, an acknowledgement at its limit and past it, one
// priority and one label twice: a buffer that is too small comes last.
fn wrong(rt: &impl Print) {
    write::<FEW>(rt, 0, 0, 32, 0);
    write::<FEW>(rt, 257, 0, 32, 0);
    write::<FEW>(rt, 256, 0, 32, 0);
    write::<FEW>(rt, 3, 9, 32, 0);
    write::<FEW>(rt, 3, 1, 14, 0);
    write::<FEW>(rt, 3, 1, 12, 0);
    write::<FEW>(rt, 3, 1, 30, 65535);
    write::<FEW>(rt, 3, 1, 30, 65536);
    write::<FEW>(rt, 3, 1, 18, 1);
    write::<FEW>(rt, 3, 1, 17, 655361);
}

// P1 in slots of 30 ticks, whole and with a byte too few; slots that are too short for 10.10, and a P past its limit.
fn slots(rt: &impl Print) {
    write::<ENOUGH>(rt, 3, 0, 9, 30);
    write::<SHORT>(rt, 3, 0, 9, 30);
    write::<SHORT>(rt, 3, 0, 9, 20);
    write::<SHORT>(rt, 3, 0, 9, 19);
    write::<SHORT>(rt, 3, 0, 9, 5000001);
}

// P1 without a LAG; with one that makes 65,535 of ETG, and one that makes more; and one past its own limit.
fn lags(rt: &impl Print) {
    write::<ENOUGH>(rt, 3, 0, 7, 0);
    write::<ENOUGH>(rt, 3, 0, 7, 65533);
    write::<SHORT>(rt, 3, 0, 7, 65533);
    write::<SHORT>(rt, 3, 0, 7, 65534);
    write::<SHORT>(rt, 3, 0, 7, 65536);
}

// An acknowledgement and a gap that are not lent are 0.
fn not_lent(rt: &impl Print) {
    let mut few = [7; FEW];
    let said = livnakesh_write(1, 1, &P2[..16], &mut few);
    let _ = print!(rt; "write 1 1 without the acknowledgement and the gap");
    answer(rt, said.refusal, said.value);
    bytes(rt, &few);
}

fn main(rt: HostRuntime) {
    room(&rt);
    wrong(&rt);
    slots(&rt);
    lags(&rt);
    not_lent(&rt);
}
