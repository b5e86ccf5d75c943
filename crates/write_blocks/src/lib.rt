// A block of writes: many WRITEs in one call. 5, 6 and 14 are tested once; each item is then done as a single WRITE is. The registers go by
// value and the cache's arrays are changed where they lie, as in `writing`.
#![tactic(auto)]

ghost use Rattle.std.specs.Prelude.{◌≡◌, ◌/◌, ◌<◌, length};
ghost use Rattle.std.specs.Result.{result_unwrap_or};
ghost use Rattle.rules.specs.Refusals.{refusal_in};
ghost use Rattle.cache.specs.Entries.{cache_of};
ghost use Rattle.storage.specs.Storage.{state_of, storage_of};
ghost use Rattle.storage.specs.Steps.{given_registers};
ghost use Rattle.storage.specs.Clauses.{WritesBlock};
ghost use Rattle.write_blocks.specs.Items.{item_of, item_at, items_of};

use rules::Refusal;
use storage::Registers;

// An item: a single WRITE.
#[derive(Clone, Copy)]
struct Item {
    width: u32,
    address: u32,
    value: u32,
}

// An item of a flat list.
fn item_at(items: &[u32], i: usize) -> Item
    requires { i < length items.now / 3 }
    ensures { item_of result ≡ item_at items.now i }
{
    Item {
        width: items[3 * i],
        address: items[3 * i + 1],
        value: items[3 * i + 2],
    }
}

// A block of writes: three numbers an item, its width, address and value; one or two numbers left over at the end are no item. The answers
// are lent for this call: each item's refusal, or 0, goes to its place, and what lies behind them stays. A refused item is passed over.
pub fn write_block(
    registers: Registers,
    held: &mut [u32; 32],
    origins: &mut [u16; 32],
    valid: &mut [u8; 32],
    bytes: &mut [u8; 512],
    last: &mut [u8; 16],
    archive: &[u8],
    pool: &mut [u8],
    groups: &mut [u32],
    table: &mut [u16],
    owners: &mut [u32],
    history: &[u16],
    items: &[u32],
    answers: &mut [u32],
) -> Result<u32, Refusal>
    ensures { WritesBlock
        (storage_of (state_of registers (cache_of held.old origins.old valid.old bytes.old last.old)) archive.now pool.old groups.old table.old owners.old history.now)
        (items_of items.now) answers.old (refusal_in result) answers.new
        (storage_of (state_of (given_registers registers (result_unwrap_or result registers.used)) (cache_of held.new origins.new valid.new bytes.new last.new)) archive.now pool.new groups.new table.new owners.new history.now) }
{
    let count = items.len() / 3;
    let lengths = storage::measure(archive, pool, groups, table, owners, history);
    storage::admit_write_block(registers, lengths, count, answers.len())?;
    let mut used = registers.used;
    for i in 0..count {
        let item = item_at(items, i);
        let mut current = registers;
        current.used = used;
        let written = writing::write_admitted(
            current,
            held,
            origins,
            valid,
            bytes,
            last,
            archive,
            pool,
            groups,
            table,
            owners,
            history,
            item.width,
            item.address,
            item.value,
        );
        answers[i] = rules::refusal_number(&written);
        used = written.unwrap_or(used);
    }
    Ok(used)
}
