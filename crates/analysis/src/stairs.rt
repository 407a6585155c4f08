// A right side as stairs, one for each noise source and each more urgent stream: where they start, and how they go on to x.
//
// Stairs stand in lots, so that those which do not rise are passed over eight at a time.
ghost use Rattle.std.specs.Prelude.{◌≡◌, ◌+◌, ◌-◌, ◌≤◌, ◌<◌, length, get_or};
ghost use Rattle.names.specs.Limits.{ticks};
ghost use Rattle.laws.specs.Lists.{ceil};
ghost use Rattle.terms.specs.Gathered.{cost};
ghost use Rattle.analysis.specs.private.Fitting.{stairs_in};
ghost use Rattle.analysis.specs.private.Stairs.{far, height, Due, Risen, NoEdgeBefore, Near, NewNearest, Moved};
ghost use Rattle.analysis.specs.private.Stairs.{Room, StreamsStarted, SourcesStarted, Started};

use crate::fitting::Fitting;
use names::TICKS;

// Time is counted from so long before a busy period that no edge of a stair is below zero.
pub(crate) const START: u64 = 2 * (TICKS + 1);

// No edge comes so far.
const FAR: u64 = 2 * START;

// No edge is so early.
const EARLIEST: u64 = START / 4;

// Stairs are looked at in lots: in a lot whose nearest edge is not passed none of them rises.
pub(crate) const LOT: usize = 8;

// How many periods x is past an edge, rounded up. A chain mostly passes one at a time, and needs no division then.
pub(crate) fn periods_past(x: u64, edge: u64, period: u64) -> u64
    requires le_period { 1 ≤ period }
    requires period_le_ticks { period ≤ ticks }
    requires x_lt_far { x < far }
    ensures { result ≡ ceil (x - edge) period }
{
    if x <= edge {
        return 0;
    }
    let over = x - edge;
    if over <= period {
        return 1;
    }
    over.div_ceil(period)
}

// How often a stair among many rises up to x. No guess helps which of them rise next, so no branch decides between none and one.
fn rises(x: u64, edge: u64, period: u64) -> u64
    requires le_period { 1 ≤ period }
    requires period_le_ticks { period ≤ ticks }
    requires x_lt_far { x < far }
    requires edge_lt_far { edge < far }
    ensures { result ≡ ceil (x - edge) period }
{
    if edge + period < x {
        return periods_past(x, edge, period);
    }
    if edge < x { 1 } else { 0 }
}

// What is left when a lot was gone through: the sum, and an edge that none of its own is before.
#[derive(Clone, Copy)]
struct Lot {
    total: u64,
    nearest: u64,
}

// The stairs from `from` up to `to`, gone on to x: `sum` and what they rise by. Each edge goes on to the last one before the next rise.
fn lot_at(
    x: u64,
    from: usize,
    to: usize,
    costs: &[u64],
    periods: &[u64],
    edges: &mut [u64],
    sum: u64,
) -> Lot
    requires { Due costs.now periods.now edges.old from to x sum }
    ensures risen { Risen costs.now periods.now edges.old edges.new from to x sum result.total }
    ensures no_edge_before { NoEdgeBefore result.nearest edges.new from to }
{
    let mut total = sum;
    let mut nearest = FAR;
    for k in from..to {
        let edge = edges[k];
        let period = periods[k];
        let d = rises(x, edge, period);
        let next = edge + d * period;
        edges[k] = next;
        total += d * costs[k];
        nearest = nearest.min(next);
    }
    Lot { total, nearest }
}

// A noise source's stair starts `window` before time's start.
fn start_sources(n: usize, window: u64, edges: &mut [u64])
    requires n_in_bounds { n ≤ length edges.old }
    requires window_le_cost { window ≤ cost }
    ensures { SourcesStarted n window edges.old edges.new }
{
    edges[..n].fill(START - window);
}

// A stream's stair starts its jitter and `late` before time's start.
fn start_streams(fitting: Fitting, late: u64, edges: &mut [u64])
    requires late_le_cost { late ≤ cost }
    requires stairs_in_bounds { stairs_in fitting ≤ length edges.old }
    ensures { StreamsStarted fitting.entry.terms.jitters.now fitting.entry.terms.row.sources fitting.entry.terms.row.urgent late edges.old edges.new }
{
    let jitters = fitting.terms.jitters;
    let from = fitting.terms.row.sources;
    for k in 0..fitting.terms.row.urgent {
        edges[from + k] = START - (jitters[k] + late);
    }
}

// How far the stairs have gone on: the edge of each, and of each lot one that none of its own is before.
#[derive(Drop)]
pub(crate) struct Climber<const ROOM: usize, const LOTS_ROOM: usize> {
    pub(crate) edges: [u64; ROOM],
    pub(crate) nearest: [u64; LOTS_ROOM],
}

impl<const ROOM: usize, const LOTS_ROOM: usize> Climber<ROOM, LOTS_ROOM> {
    // Where all stairs start: those of the noise sources, and the streams' after them. Of no lot is the nearest edge known: 0 would do as well,
    // but a few zeros are cleared by a call that takes longer than they do.
    pub(crate) fn start(&mut self, fitting: Fitting, late: u64, window: u64)
        requires late_le_cost { late ≤ cost }
        requires window_le_cost { window ≤ cost }
        requires room { Room ROOM LOTS_ROOM (stairs_in fitting) }
        ensures started { Started fitting.entry.terms.jitters.now fitting.entry.terms.row.sources fitting.entry.terms.row.urgent late window self.new.edges }
        ensures near { Near self.new (stairs_in fitting.entry) }
    {
        start_sources(fitting.terms.row.sources, window, &mut self.edges);
        start_streams(fitting, late, &mut self.edges);
        self.nearest.fill(EARLIEST);
    }

    // Lot b goes on to x. Where its nearest edge is not passed none of its stairs rises, and it is not looked at.
    fn climbed_lot(
        &mut self,
        fitting: Fitting,
        x: u64,
        b: usize,
        from: usize,
        to: usize,
        sum: u64,
    ) -> u64
        requires due { Due fitting.terms.costs.now fitting.terms.periods.now self.old.edges from to x sum }
        requires b_in_bounds { b < length self.old.nearest }
        requires no_edge_before { NoEdgeBefore (get_or self.old.nearest b 0) self.old.edges from to }
        ensures risen { Risen fitting.entry.terms.costs.now fitting.entry.terms.periods.now self.old.edges self.new.edges from to x sum result }
        ensures new_nearest { NewNearest self.old self.new b from to }
    {
        if x <= self.nearest[b] {
            return sum;
        }
        let lot = lot_at(
            x,
            from,
            to,
            fitting.terms.costs,
            fitting.terms.periods,
            &mut self.edges,
            sum,
        );
        self.nearest[b] = lot.nearest;
        lot.total
    }

    // One evaluation: `sum` and what the stairs rise by up to x. A lot starts where the one before it ended: measured, that is faster than
    // `b * LOT`.
    pub(crate) fn climbed(&mut self, fitting: Fitting, x: u64, sum: u64) -> u64
        requires due { Due fitting.terms.costs.now fitting.terms.periods.now self.old.edges 0 (stairs_in fitting) x sum }
        requires near { Near self.old (stairs_in fitting) }
        ensures value { result ≡ sum + height fitting.entry.terms.costs.now fitting.entry.terms.periods.now self.old.edges (stairs_in fitting.entry) x }
        ensures moved { Moved fitting.entry.terms.costs.now fitting.entry.terms.periods.now self.old.edges self.new.edges (stairs_in fitting.entry) x }
        ensures near_2 { Near self.new (stairs_in fitting.entry) }
    {
        let n = fitting.stairs();
        let mut total = sum;
        let mut from = 0;
        for b in 0..n.div_ceil(LOT) {
            let to = n.min(from + LOT);
            total = self.climbed_lot(fitting, x, b, from, to, total);
            from = to;
        }
        total
    }
}
