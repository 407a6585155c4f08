// What a message costs the channel beside its payload and its acknowledgement, worked out of a plan's timing: V and U, and in slots H and U.
//
// The one public function answers for every timing, and its contract determines the answer; within the limits these are the letters
// of the rules. Nothing is assumed. This crate knows of a plan's timing; it must not know of checks or refusals.
#![tactic(auto)]

ghost use Rattle.std.specs.Prelude.{◌≡◌, ◌+◌, ◌*◌, ◌^◌, ◌≤◌, ◌<◌, max, min};
ghost use Rattle.names.specs.Limits as limit;
ghost use Rattle.plan.specs.Rules.{«V», U};
ghost use Rattle.costs.specs.Costs.{few_bits, overheads_of};

use names::BITS;
use plan::Timing;

// What goes before C' in C'', U, how late a release still joins a cycle, and P.
#[derive(Clone, Copy)]
pub struct Overheads {
    pub lead: u64,
    pub u: u64,
    pub late: u64,
    pub slot: u64,
}

// A pulse and its guard for each priority bit, of which there are 32 at most.
fn pulses(h: u32, g: u32, nb: u32) -> u64
    ensures value { result ≡ (h + g) * min nb limit.bits }
    ensures upper_bound { result ≤ 2 ^ 33 * limit.bits }
{
    (u64::from(h) + u64::from(g)) * u64::from(nb.min(BITS))
}

// V = F + E + max(TFCS, SWX) + H.
fn v_of(t: Timing) -> u64
    ensures { result ≡ «V» t }
{
    u64::from(t.f) + u64::from(t.e) + u64::from(t.tfcs.max(t.swx)) + u64::from(t.h)
}

// U = G + (H + G) * NB + ETG.
fn u_of(t: Timing) -> u64
    ensures { result ≡ U (few_bits t) }
{
    u64::from(t.g) + pulses(t.h, t.g, t.nb) + u64::from(t.etg)
}

// V comes first, and a release joins while it lasts; in slots H alone does, and none joins after the pulse.
pub fn overheads_of(t: Timing) -> Overheads
    ensures { result ≡ overheads_of t }
{
    let u = u_of(t);
    if t.p == 0 {
        let lead = v_of(t);
        return Overheads {
            lead,
            u,
            late: lead,
            slot: 0,
        };
    }
    Overheads {
        lead: u64::from(t.h),
        u,
        late: 0,
        slot: u64::from(t.p),
    }
}
