// The rows of the input: a word and up to six numbers.
use crate::asked;
use crate::asked::{Asked, Lent, Piece};
use crate::choice::Run;
use copies::Kind;

// What a row is by its word: a call, an item, or no call: a title, the start of a run, which piece is short from here on, the start of a list of
// items, the end.
#[derive(Clone, Copy, PartialEq, Eq, Debug)]
pub enum Word {
    Call(Kind),
    Title,
    Begin,
    Short,
    Items,
    Item,
    End,
}

// A row's numbers, behind those in its word; `next` is behind the row.
#[derive(Clone, Copy)]
pub struct Row {
    pub word: Word,
    pub fields: [usize; 8],
    pub next: usize,
}

// What comes next: a call, nothing but what the rows behind it go by, or the end.
#[derive(Clone, Copy)]
pub enum Turn {
    Call(Asked),
    Note,
    End,
}

// The bytes from a place to the next space or line feed.
fn word_at(script: &[u8], at: usize) -> Option<&[u8]> {
    let rest = script.get(at..)?;
    let end = rest
        .iter()
        .position(|byte| *byte == b' ' || *byte == b'\n')?;
    Some(&rest[..end])
}

// What the row at a place is; the end where its word is none of these.
fn kind_at(script: &[u8], at: usize) -> Word {
    match word_at(script, at) {
        Some(b"reset") => Word::Call(Kind::Reset),
        Some(b"write") => Word::Call(Kind::Write),
        Some(b"read") => Word::Call(Kind::Read),
        Some(b"line") => Word::Call(Kind::Line),
        Some(b"mark") => Word::Call(Kind::Mark),
        Some(b"back") => Word::Call(Kind::Rollback),
        Some(b"advance") => Word::Call(Kind::Advance),
        Some(b"counts") => Word::Call(Kind::Counts),
        Some(b"check") => Word::Call(Kind::Check),
        Some(b"block") => Word::Call(Kind::Block),
        Some(b"title") => Word::Title,
        Some(b"begin") => Word::Begin,
        Some(b"short") => Word::Short,
        Some(b"items") => Word::Items,
        Some(b"item") => Word::Item,
        _ => Word::End,
    }
}

// How the memory is lent by the row at a place, behind whose word the piece is named that is short.
fn lent_at(script: &[u8], at: usize) -> Lent {
    match word_at(script, at.wrapping_add(6)) {
        Some(b"nothing") => Lent::Needed,
        Some(b"archive") => Lent::Short(Piece::Archive),
        Some(b"pool") => Lent::Short(Piece::Pool),
        Some(b"groups") => Lent::Short(Piece::Groups),
        Some(b"table") => Lent::Short(Piece::Table),
        Some(b"owners") => Lent::Short(Piece::Owners),
        Some(b"history") => Lent::Short(Piece::History),
        _ => Lent::Whole,
    }
}

// A number with one byte more; one that grows too large is 0.
fn grown(n: usize, letter: &u8) -> usize {
    match *letter {
        digit @ b'0'..=b'9' if n < 1000000000 => n * 10 + (digit - b'0') as usize,
        b'0'..=b'9' => 0,
        _ => n,
    }
}

// The row that starts at a place: each space starts the next of its numbers.
pub fn row_at(script: &[u8], at: usize) -> Row {
    let rest = script.get(at..).unwrap_or(&[]);
    let line = rest
        .split_inclusive(|byte| *byte == b'\n')
        .next()
        .unwrap_or(&[]);
    let mut fields = [0usize; 8];
    for (i, text) in line.split(|byte| *byte == b' ').enumerate() {
        fields[i % 8] = text.iter().fold(fields[i % 8], grown);
    }
    Row {
        word: kind_at(script, at),
        fields,
        next: at.wrapping_add(line.len()),
    }
}

impl Row {
    // A call by the row's numbers, with the memory lent so.
    pub fn call(&self, kind: Kind, lent: Lent) -> Asked {
        let [_, a, b, c, ..] = self.fields;
        asked::call(kind, a, b, c, lent)
    }

    // The start of a run, with its RESET.
    fn begin(&self, run: &mut Run) -> Asked {
        let [_, lines, frames, pages, left, every, seed, _] = self.fields;
        *run = Run {
            lines,
            frames,
            pages,
            left,
            every,
            seed,
            ..*run
        };
        asked::call(Kind::Reset, lines, frames, pages, run.lent)
    }

    // A row that is no start of a run is a call or an item, or says which piece is short or where the items are from here on.
    pub fn turn(&self, script: &[u8], run: &mut Run) -> Turn {
        let at = run.place;
        run.place = self.next;
        match self.word {
            Word::Call(kind) => Turn::Call(self.call(kind, run.lent)),
            Word::Begin => Turn::Call(self.begin(run)),
            Word::Short => {
                run.lent = lent_at(script, at);
                Turn::Note
            }
            Word::Items => {
                run.list = self.next;
                Turn::Note
            }
            Word::Title | Word::Item => Turn::Note,
            Word::End => Turn::End,
        }
    }
}
