// The files that are lent, written from the words of document 01's plans.
use outside::livnakesh_write;
use shown::P2;

// The file of a plan that is written from its values, N bytes long.
fn written<const N: usize>(n: usize, m: usize, words: &[u32]) -> [u8; N] {
    let mut file = [7; N];
    livnakesh_write(n, m, words, &mut file);
    file
}

// P1 in slots of so many ticks; 0 is P1 itself.
pub(crate) fn p1_file(slot: u32) -> [u8; 168] {
    let mut words = P2;
    words[9] = slot;
    written(3, 0, &words)
}

pub(crate) fn p2_file() -> [u8; 172] {
    written(3, 1, &P2)
}

// P1's first stream by itself, with another period: 25 as in P3, 24 as in P4.
pub(crate) fn one_file(period: u32) -> [u8; 112] {
    let mut words = P2;
    words[12] = period;
    written(1, 0, &words)
}

// P7, whose last stream is latest at its second instance.
pub(crate) fn p7_file() -> [u8; 168] {
    let words = [
        0, 0, 0, 0, 0, 0, 0, 0, 4, 0, 655361, 1, 25, 0, 10, 1000, 0, 655362, 2, 35, 0, 10, 1000, 0,
        655363, 3, 35, 0, 10, 1000, 0,
    ];
    written(3, 0, &words)
}

// Another byte in one place; a place past the end changes nothing.
pub(crate) fn with_byte(file: [u8; 168], at: usize, byte: u8) -> [u8; 168] {
    let mut new = file;
    if let Some(old) = new.get_mut(at) {
        *old = byte;
    }
    new
}
