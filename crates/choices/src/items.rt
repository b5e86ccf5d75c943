// The items of a block: those of rows, or pseudo-random ones.
ghost use Rattle.std.specs.Prelude.{◌≡◌, ◌≤◌, length};

use crate::asked::Lent;
use crate::choice::Run;
use crate::rows::Word;
use crate::{choice, rows};
use copies::{Call, Kind};

// How many numbers the list of a block has: three for each item, and those behind the last.
pub fn numbers(call: Call) -> usize
    ensures { result ≤ 640 }
{
    ((call.a % 1024 * 3 + call.c % 1024) as usize).min(640)
}

// How many answers it is lent.
pub fn answers_lent(call: Call) -> usize
    ensures { result ≤ 256 }
{
    (call.b as usize).min(256)
}

// An item's width, address and value, and where the next one comes from.
#[derive(Drop)]
struct Item {
    numbers: [u32; 3],
    next: usize,
}

// The item of the row at a place, with noughts where it is none; or, in a run, one as its WRITEs are, by a seed of its own.
fn item_from(script: &[u8], run: Run, lines: usize, from: usize) -> Item {
    if 0 < run.left {
        let seed = choice::next(from);
        let write = choice::access(Kind::Write, seed, run.left, lines, Lent::Needed).call;
        return Item {
            numbers: [write.a, write.b, write.c],
            next: seed,
        };
    }
    let row = rows::row_at(script, from);
    if row.word != Word::Item {
        return Item {
            numbers: [0; 3],
            next: from,
        };
    }
    let write = row.call(Kind::Write, Lent::Needed).call;
    Item {
        numbers: [write.a, write.b, write.c],
        next: row.next,
    }
}

// The items of a block, flat, as many as one may have; noughts for any other call.
pub fn list(call: Call, script: &[u8], run: Run, lines: usize) -> [u32; 640]
    ensures { 640 ≡ length result }
{
    let mut items = [0u32; 640];
    if call.kind != Kind::Block {
        return items;
    }
    let mut from = if 0 < run.left { run.seed } else { run.list };
    for place in items.chunks_exact_mut(3) {
        let item = item_from(script, run, lines, from);
        place.copy_from_slice(&item.numbers);
        from = item.next;
    }
    items
}
