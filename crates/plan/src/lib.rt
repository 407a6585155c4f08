// A plan's values, and in specs/ the rules of the bound that start from them.
//
// This crate knows of the names, the laws and the bound over terms; it must not know of files, lent memory
// or text. Nothing is assumed.
#![tactic(auto)]

use names::{Label, Priority, SOURCES, STREAMS};

// The timing constants of a plan, in the file's order and under the documents' letters. P is how often a master node pulses, 0 where there
// is none. A file has a LAG beside ETG, and a plan has none: reading adds it to ETG.
#[derive(Clone, Copy)]
pub struct Timing {
    pub f: u32,
    pub e: u32,
    pub tfcs: u32,
    pub swx: u32,
    pub h: u32,
    pub g: u32,
    pub etg: u32,
    pub nb: u32,
    pub p: u32,
}

// A stream's seven words, in the file's order: label, priority, T, J, C, D, K. In C's layout, since other languages lend lists of it.
#[repr(C)]
#[derive(Clone, Copy)]
pub struct Stream {
    pub label: Label,
    pub priority: Priority,
    pub period: u32,
    pub jitter: u32,
    pub payload: u32,
    pub deadline: u32,
    pub acknowledgement: u32,
}

// A plan's values in places of fixed number: the first `count` streams and the first `sources` gaps are the plan. There is no heap, and a sheet
// is handed on whole, so the counts stand beside the places.
#[derive(Clone, Copy)]
pub struct Sheet {
    pub timing: Timing,
    pub streams: [Stream; STREAMS],
    pub count: usize,
    pub gaps: [u32; SOURCES],
    pub sources: usize,
}
