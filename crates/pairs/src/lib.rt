// Two names a line of a text: what programs that are given pairs of files share.
//
// The public functions answer for every text, every place and every part. A line is where its names stand, so no name is copied and
// none is cut; a line that is not two names is said to be wrong, and no line is passed over. Nothing is assumed. This crate
// must not know of files.
#![tactic(auto)]

ghost use Rattle.std.specs.Prelude.{◌≡◌, ◌+◌, ◌≤◌, ◌==◌, length, drop};
ghost use Rattle.std.specs.List.{position};
ghost use Rattle.std.specs.Iterator.{YieldsFirstBy, item_count};
ghost use Rattle.pairs.specs.Pairs.{before, name_in, names_as, next_line, line_of};
ghost use Rattle.pairs.specs.Lines.{both_in, both_now, lines_left, lines_of};

// The bytes of a text from a place up to another.
#[derive(Clone, Copy)]
pub struct Part {
    pub from: usize,
    pub to: usize,
}

// A line's two names, or that it is not two names, and the place where the next line starts.
// A name is its place, and no slice: what is proved of a line says where its names stand (Ordered, in specs/Pairs.antt).
#[derive(Clone, Copy)]
pub struct Line {
    pub names: Option<(Part, Part)>,
    pub next: usize,
}

// The place of the first such byte of a text.
fn first_of(text: &[u8], byte: u8) -> Option<usize>
    ensures { result ≡ position (λ x. x == byte) text.now }
{
    text.iter().position(|b| *b == byte)
}

// The place of the first such byte, or the text's end.
fn first_or_end(text: &[u8], byte: u8) -> usize
    ensures value { result ≡ length (before byte text.now) }
    ensures upper_bound { result ≤ length text.now }
{
    first_of(text, byte).unwrap_or(text.len())
}

// The same from a place on.
fn place_of(text: &[u8], from: usize, byte: u8) -> usize
    requires { from ≤ length text.now }
    ensures value { result ≡ from + length (before byte (drop from text.now)) }
    ensures upper_bound { result ≤ length text.now }
{
    from + first_or_end(&text[from..], byte)
}

// The names of the line that starts at a place of a text and ends where the text does.
fn names_in(text: &[u8], at: usize) -> Option<(Part, Part)>
    requires { at ≤ length text.now }
    ensures { result ≡ names_as (drop at text.now) at }
{
    let end = text.len();
    let space = place_of(text, at, b' ');
    let second = space + 1;
    if space == at || end <= second {
        return None;
    }
    if place_of(text, second, b' ') < end {
        return None;
    }
    let old = Part {
        from: at,
        to: space,
    };
    let new = Part {
        from: second,
        to: end,
    };
    Some((old, new))
}

// The line that starts at a place of a text, unless the text is over there.
pub fn line_at(text: &[u8], at: usize) -> Option<Line>
    ensures { result ≡ line_of text.now at }
{
    if text.len() <= at {
        return None;
    }
    let end = place_of(text, at, b'\n');
    Some(Line {
        names: names_in(&text[..end], at),
        next: next_line(text, at),
    })
}

// The bytes of a part of a text, as far as the text goes.
pub fn name_in(text: &[u8], part: Part) -> &[u8]
    ensures { result.now ≡ name_in text.now part }
{
    let to = part.to.min(text.len());
    let from = part.from.min(to);
    &text[from..to]
}

// Where the line after the one at a place starts: past the newline, or where the text ends.
pub fn next_line(text: &[u8], at: usize) -> usize
    ensures { result ≡ next_line text.now at }
{
    let end = place_of(text, at.min(text.len()), b'\n');
    (end + 1).min(text.len())
}

// The lines of a text that are left: each one's two names, or that it is not two names.
#[derive(Drop)]
pub struct Lines<'a> {
    text: &'a [u8],
    at: usize,
}

// The names that stand at two places of a text.
fn names_at(text: &[u8], names: Option<(Part, Part)>) -> Option<(&[u8], &[u8])>
    ensures { both_now result ≡ both_in text.now names }
{
    let (old, new) = names?;
    Some((name_in(text, old), name_in(text, new)))
}

impl<'a> Iterator for Lines<'a> {
    type Item = Option<(&'a [u8], &'a [u8])>;

    ghost next_gives = { YieldsFirstBy both_now lines_left };

    ghost remaining = { item_count lines_left };

    fn next(&mut self) -> Option<Option<(&'a [u8], &'a [u8])>> {
        let line = line_at(self.text, self.at)?;
        self.at = line.next;
        Some(names_at(self.text, line.names))
    }
}

// All the lines of a text, in their order.
pub fn lines_of(text: &[u8]) -> Lines<'_>
    ensures value { lines_left result ≡ lines_of text.now }
    ensures no_more_than_bytes { length (lines_left result) ≤ length text.now }
{
    Lines { text, at: 0 }
}
