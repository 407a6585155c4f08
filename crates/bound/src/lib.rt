// The bound of one stream, over the terms of its row: definitions in specs/, what is true of them in proofs/.
//
// The terms know no file, no label, no timing constant and no edition; a plan becomes terms in the crate
// above. There is no function here and nothing is assumed. This crate knows of names and laws alone.
#![tactic(auto)]

// How a row fares: its bound is at most its deadline, or above it, or there is none.
#[derive(Clone, Copy)]
pub enum Verdict {
    Met,
    Missed,
    None,
}

// A row's answer: its verdict, its bound, and the instance that gives it. Where there is no bound, both numbers are 0. They stand beside the
// verdict and not in its cases, since lent words may have any numbers beside any verdict and are handed back as they stand (row_words).
#[derive(Clone, Copy)]
pub struct Answer {
    pub verdict: Verdict,
    pub bound: u64,
    pub instance: u64,
}

// A row's answer, how many evaluations the search for its L took, and X: L, or 4,294,967,295 where there is none.
#[derive(Clone, Copy)]
pub struct Searched {
    pub answer: Answer,
    pub evaluations: u64,
    pub x: u64,
}

// How long a row's search may take: its evaluations, and the most that there can be.
#[derive(Clone, Copy)]
pub struct Wait {
    pub evaluations: u64,
    pub limit: u64,
}
