// A block of writes: its items in order, each a WRITE of its own. Three numbers of the list are an item: width, address, value.
use crate::pieces::UNANSWERED;
use crate::{Call, Kind, Lengths, Plain, Refusal};
use std::fmt;

// How many items of a block were accepted; how far its answers are not as single writes have them, and the bits in which state and memory
// are not.
#[derive(Clone, Copy, PartialEq, Eq, Debug, Default)]
pub struct Tried {
    pub accepted: usize,
    pub others: usize,
    pub apart: u32,
}

impl Tried {
    // One item more: a weight is added where the answer in its place is another one.
    pub fn count(&mut self, single: u32, answer: u32, weight: usize) {
        if single == 0 {
            self.accepted = self.accepted.wrapping_add(1);
        }
        if single != answer {
            self.others = self.others.wrapping_add(weight);
        }
    }
}

impl fmt::Display for Tried {
    fn fmt<W: fmt::Write>(&self, f: &mut fmt::Formatter<W>) -> fmt::Result {
        write!(f, "{} {} {}", self.accepted, self.others, self.apart)
    }
}

// An answer as the lent list of a block holds it: the refusal's number, or 0.
fn number_of(outcome: Result<(), Refusal>) -> u32 {
    match outcome {
        Ok(()) => 0,
        Err(refusal) => refusal as u32,
    }
}

// The WRITE of an item, if there is one at that place.
fn item_at(items: &[u32], i: usize) -> Option<Call> {
    if items.len() / 3 <= i {
        return None;
    }
    Some(Call {
        kind: Kind::Write,
        a: items[3 * i],
        b: items[3 * i + 1],
        c: items[3 * i + 2],
        blank: false,
    })
}

// So many items, each tried, also behind one that is refused; behind them the answers are left, and so are all where there are
// none. An answer that is another one counts 1,000: at most 256 that differ from those to single writes count 1 each, and are never as much.
pub fn try_all(
    memory: &mut [u32],
    plain: &mut Plain,
    items: &[u32],
    answers: &[u32; 256],
    count: usize,
    lent: Lengths,
) -> Tried {
    let mut tried = Tried::default();
    for (i, answer) in answers.iter().enumerate() {
        let item = if i < count { item_at(items, i) } else { None };
        let single = match item {
            Some(call) => number_of(plain.single(memory, call, lent).outcome),
            None => UNANSWERED,
        };
        tried.count(single, *answer, 1000);
    }
    tried
}
