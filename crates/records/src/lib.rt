// The records of a session: what a line asks for.
#![tactic(auto)]

ghost use Rattle.std.specs.Prelude.{◌≡◌, get_or};
ghost use Rattle.records.specs.Records.{rows, word_in, numbers_in, parsed};
ghost use Rattle.records.specs.Shown.{fields_behind, Gathers, numbers_of, refusal_number, shown_parsed};

// What a record asks for.
#[derive(Clone, Copy, PartialEq, Eq, Debug)]
pub enum Word {
    Reset,
    Read,
    Write,
    Mark,
    Back,
    Advance,
    Counts,
}

// A record: a word and the first so many numbers. (An array and a count, since nothing here allocates.)
#[derive(Clone, Copy, Debug)]
pub struct Record {
    pub word: Word,
    pub count: usize,
    pub numbers: [u32; 3],
}

// Why a line is turned down: it is too long, it is not one of the records, or it comes before a session's first reset.
#[derive(Clone, Copy, PartialEq, Eq, Debug)]
pub enum Refusal {
    Long = 1,
    NoRecord = 2,
    Early = 3,
}

impl From<Refusal> for u32 {
    ghost from_gives = { λ refusal n. n ≡ refusal_number refusal };

    fn from(refusal: Refusal) -> u32 {
        refusal as u32
    }
}

// The numbers of a line: the first so many. (An array and a count, since nothing here allocates.)
#[derive(Clone, Copy)]
struct Numbers {
    count: usize,
    numbers: [u32; 3],
}

// The word that a field is, if it takes so many numbers: one row a record.
#[tactic(auto, using(crate::proofs::Words::no_row))]
fn word_in(field: &[u8], count: usize) -> Option<Word>
    ensures { result ≡ word_in rows field.now count }
{
    let (word, takes) = match field {
        b"read" => (Word::Read, 2),
        b"write" => (Word::Write, 3),
        b"mark" => (Word::Mark, 0),
        b"back" => (Word::Back, 1),
        b"advance" => (Word::Advance, 1),
        b"counts" => (Word::Counts, 0),
        b"reset" => (Word::Reset, 3),
        _ => return None,
    };
    (count == takes).then_some(word)
}

// The numbers of the fields that follow, from the tab on that ends a field: if each of them says one and no record has more.
// (Not by `split`, with whose states a session takes over 3 % more instructions.)
fn gather(text: &[u8]) -> Option<Numbers>
    ensures { Gathers (numbers_in (fields_behind text.now)) result }
{
    let mut numbers = [0u32; 3];
    let mut count = 0;
    let mut rest = text;
    while let Some((_, fields)) = rest.split_first() {
        let end = text::part_end(fields, 0, b'\t');
        let n = text::read_number(&fields[..end])?;
        if numbers.len() <= count {
            return None;
        }
        numbers[count] = n;
        count += 1;
        rest = &fields[end..];
    }
    Some(Numbers { count, numbers })
}

// The most bytes of a line.
const LIMIT: usize = 80;

// What a line says: a record, or why it is turned down.
pub fn parse(line: &[u8]) -> Result<Record, Refusal>
    ensures { shown_parsed result ≡ parsed line.now }
{
    if LIMIT < line.len() {
        return Err(Refusal::Long);
    }
    let end = text::part_end(line, 0, b'\t');
    let Numbers { count, numbers } = gather(&line[end..]).ok_or(Refusal::NoRecord)?;
    let word = word_in(&line[..end], count).ok_or(Refusal::NoRecord)?;
    Ok(Record {
        word,
        count,
        numbers,
    })
}

// A number of a record; 0 for one that it has not.
pub fn number(asked: Record, i: usize) -> u32
    ensures { result ≡ get_or (numbers_of asked) i 0 }
{
    if asked.count <= i {
        return 0;
    }
    asked.numbers.get(i).copied().unwrap_or(0)
}
