// The planner's screen as other languages call it, on three streams of this program's own, a line for each call: what is lent, what comes
// back and, after a bar, what all the lent words end with. Lent words are 7 before the call.
//
// The answers are proved in the crate outside; here they are run and compared. This program must not know any rule.
#![tactic(auto)]

use names::{Label, Priority};
use outside::livnakesh_screen;
use plan::Stream;
use shown::{answer, words};

fn stream(
    label: u32,
    priority: u32,
    period: u32,
    jitter: u32,
    payload: u32,
    deadline: u32,
    acknowledgement: u32,
) -> Stream {
    Stream {
        label: Label(label),
        priority: Priority(priority),
        period,
        jitter,
        payload,
        deadline,
        acknowledgement,
    }
}

// Those of P1, but for the first one's payload and the second one's label, priority and acknowledgement.
fn streams(payload: u32, label: u32, priority: u32, acknowledgement: u32) -> [Stream; 3] {
    let first = stream(655361, 1, 100, 0, payload, 60, 0);
    let second = stream(label, priority, 150, 10, 7, 120, acknowledgement);
    let third = stream(720898, 3, 400, 0, 2, 200, 0);
    [first, second, third]
}

fn screen(rt: &impl Print, streams: [Stream; 3], timing: &[u32], gaps: &[u32], out: &mut [u64]) {
    let _ = print!(rt; "screen {} {}", timing.len(), gaps.len());
    let said = livnakesh_screen(&streams, timing, gaps, out);
    answer(rt, said.refusal, said.value);
    words(rt, &out[..]);
}

// P1 with words to spare, its LAG of 1 in ETG, and with too few, and P2.
fn answered(rt: &impl Print) {
    let p1 = streams(5, 655370, 2, 0);
    let folded = [4, 1, 1, 2, 1, 1, 3, 0, 4];
    let timing = [4, 1, 1, 2, 1, 1, 2, 1, 4];
    let gaps = [1000];
    let mut long = [7; 14];
    screen(rt, p1, &timing, &gaps[..0], &mut long);
    screen(rt, p1, &folded, &gaps[..0], &mut long);
    let mut short = [7; 11];
    screen(rt, p1, &timing, &gaps[..0], &mut short);
    let mut enough = [7; 12];
    screen(rt, p1, &timing, &gaps, &mut enough);
}

// A timing without NB, which is then 0, one with P, and one with a word more; nine gaps.
fn lengths(rt: &impl Print) {
    let p1 = streams(5, 655370, 2, 0);
    let timing = [4, 1, 1, 2, 1, 1, 2, 1, 4, 30, 9];
    let gaps = [1000; 9];
    let mut out = [7; 12];
    screen(rt, p1, &timing[..8], &gaps[..0], &mut out);
    screen(rt, p1, &timing, &gaps, &mut out);
    screen(rt, p1, &timing[..10], &gaps[..0], &mut out);
    screen(rt, p1, &timing, &gaps[..1], &mut out);
}

// P1 with an acknowledgement of the second.
fn waiting(rt: &impl Print, acknowledgement: u32) {
    let timing = [4, 1, 1, 2, 1, 1, 2, 1, 4];
    let gaps = [1000];
    let mut out = [7; 12];
    screen(
        rt,
        streams(5, 655370, 2, acknowledgement),
        &timing,
        &gaps[..0],
        &mut out,
    );
}

// P1 in slots of so many ticks, in too few words.
fn slots(rt: &impl Print, slot: u32, payload: u32, acknowledgement: u32) {
    let timing = [4, 1, 1, 2, 1, 1, 2, 1, 4, slot];
    let gaps = [1000];
    let mut out = [7; 3];
    screen(
        rt,
        streams(payload, 655370, 2, acknowledgement),
        &timing,
        &gaps,
        &mut out,
    );
}

// One stream that is wrong, in too few words, since 6 comes last.
fn wrong(rt: &impl Print, payload: u32, label: u32, priority: u32) {
    let timing = [4, 1, 1, 2, 1, 1, 2, 1, 4];
    let gaps = [1000];
    let mut out = [7; 3];
    screen(
        rt,
        streams(payload, label, priority, 0),
        &timing,
        &gaps,
        &mut out,
    );
}

// P1 with another LAG and the priority of the second, in too few words.
fn lagging(rt: &impl Print, lag: u32, priority: u32) {
    let timing = [4, 1, 1, 2, 1, 1, 2, lag, 4];
    let gaps = [1000];
    let mut out = [7; 3];
    screen(
        rt,
        streams(5, 655370, priority, 0),
        &timing,
        &gaps[..0],
        &mut out,
    );
}

fn main(rt: HostRuntime) {
    answered(&rt);
    lengths(&rt);
    wrong(&rt, 0, 655370, 2);
    wrong(&rt, 5, 655370, 1);
    wrong(&rt, 5, 655361, 1);
    wrong(&rt, 5, 655361, 2);
    waiting(&rt, 2);
    waiting(&rt, 65536);
    slots(&rt, 20, 5, 0);
    slots(&rt, 20, 5, 1);
    slots(&rt, 19, 5, 0);
    slots(&rt, 19, 0, 0);
    slots(&rt, 5000001, 5, 0);
    lagging(&rt, 65533, 2);
    lagging(&rt, 65533, 1);
    lagging(&rt, 65534, 1);
    lagging(&rt, 65536, 1);
}
