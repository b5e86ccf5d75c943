// Why the plain store turns a call down: the first reason in the document's order.
use crate::{Call, Kind, Lengths, Plain, memory};
use std::fmt;

// The refusals by the papers' numbers; `Unknown` is for a number that they don't have, and no call of the plain store gets it.
#[derive(Clone, Copy, PartialEq, Eq, Debug)]
pub enum Refusal {
    Settings = 4,
    Blank = 5,
    Short = 6,
    Width = 7,
    Alignment = 8,
    End = 9,
    Value = 10,
    Count = 11,
    Marks = 12,
    Pool = 13,
    Answers = 14,
    Unknown = 77,
}

impl From<u32> for Refusal {
    fn from(number: u32) -> Refusal {
        match number {
            4 => Refusal::Settings,
            5 => Refusal::Blank,
            6 => Refusal::Short,
            7 => Refusal::Width,
            8 => Refusal::Alignment,
            9 => Refusal::End,
            10 => Refusal::Value,
            11 => Refusal::Count,
            12 => Refusal::Marks,
            13 => Refusal::Pool,
            14 => Refusal::Answers,
            _ => Refusal::Unknown,
        }
    }
}

impl fmt::Display for Refusal {
    fn fmt<W: fmt::Write>(&self, f: &mut fmt::Formatter<W>) -> fmt::Result {
        write!(f, "{}", *self as u32)
    }
}

// A refusal where a demand is not met.
fn demand(met: bool, refusal: Refusal) -> Result<(), Refusal> {
    if met { Ok(()) } else { Err(refusal) }
}

fn of_settings(lines: usize, frames: usize, pages: usize) -> Result<(), Refusal> {
    let sizes = lines % 8 == 0 && frames % 16 == 0;
    let limits = matches!(lines, 8..=4096)
        && matches!(frames, 16..=256)
        && matches!(pages, 1..=4096);
    demand(sizes && limits, Refusal::Settings)
}

fn of_lengths(lines: usize, frames: usize, pages: usize, lent: Lengths) -> Result<(), Refusal> {
    let need = Lengths::least(lines, frames, pages);
    demand(!lent.is_short(need), Refusal::Short)
}

fn of_reset(lines: usize, frames: usize, pages: usize, lent: Lengths) -> Result<(), Refusal> {
    of_settings(lines, frames, pages)?;
    of_lengths(lines, frames, pages, lent)
}

fn of_place(lines: usize, width: usize, address: usize) -> Result<(), Refusal> {
    let aligned = match width {
        1 => true,
        2 => address % 2 == 0,
        4 => address % 4 == 0,
        _ => return Err(Refusal::Width),
    };
    demand(aligned, Refusal::Alignment)?;
    let end = address.wrapping_add(width);
    demand(end <= memory::times(16, lines), Refusal::End)
}

fn of_write(
    memory: &[u32],
    plain: &Plain,
    width: usize,
    address: usize,
    n: usize,
) -> Result<(), Refusal> {
    of_place(plain.lines, width, address)?;
    let most = match width {
        1 => 255,
        2 => 65535,
        _ => 4294967295,
    };
    demand(n <= most, Refusal::Value)?;
    let room = memory::is_needed(memory, plain.lines, plain.live, address / 16)
        || memory::needed(memory, plain.lines, plain.live) < plain.pages;
    demand(room, Refusal::Pool)
}

fn of_store(plain: &Plain, blank: bool, lent: Lengths) -> Result<(), Refusal> {
    demand(!blank && plain.lines != 0, Refusal::Blank)?;
    of_lengths(plain.lines, plain.frames, plain.pages, lent)
}

// k is not 0, and not more than the live frames but one.
fn of_frames(live: usize, k: usize) -> Result<(), Refusal> {
    demand(0 < k && k < live, Refusal::Count)
}

fn of_call(memory: &[u32], plain: &Plain, call: Call) -> Result<(), Refusal> {
    let a = call.a as usize;
    let b = call.b as usize;
    match call.kind {
        Kind::Write => of_write(memory, plain, a, b, call.c as usize),
        Kind::Read => of_place(plain.lines, a, b),
        Kind::Line => demand(a < plain.lines, Refusal::End),
        Kind::Mark => demand(plain.live != plain.frames, Refusal::Marks),
        Kind::Rollback | Kind::Advance => of_frames(plain.live, a),
        Kind::Block => demand(a <= b, Refusal::Answers),
        Kind::Reset | Kind::Counts | Kind::Check => Ok(()),
    }
}

// Whether a call is accepted.
pub fn admit(memory: &[u32], plain: &Plain, call: Call, lent: Lengths) -> Result<(), Refusal> {
    if call.kind == Kind::Reset {
        return of_reset(call.a as usize, call.b as usize, call.c as usize, lent);
    }
    of_store(plain, call.blank, lent)?;
    of_call(memory, plain, call)
}
