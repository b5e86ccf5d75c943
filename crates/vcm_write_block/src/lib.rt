// The block of writes exported to C and Rust, as the calls of `vcm` are. It stands in a crate of its own, and so in a part of its own of the static
// library: the compiler then has one caller of WRITE's body in each part and puts it there, and a program that makes no block does not link it.
#![tactic(auto)]

ghost use Rattle.cache.specs.Entries.{cache_of};
ghost use Rattle.storage.specs.Storage.{state_of, storage_of};
ghost use Rattle.storage.specs.Clauses.{WritesBlock};
ghost use Rattle.border.specs.Lent.{registers_from};
ghost use Rattle.write_blocks.specs.Items.{items_of};

// A block of writes, three numbers an item: writes the registers, the cache, pool, groups, table, owners and the answers.
#[unsafe(no_mangle)]
pub extern "C" fn vcm_raw_write_block(
    registers: &mut [u32; 8],
    held: &mut [u32; 32],
    origins: &mut [u16; 32],
    valid: &mut [u8; 32],
    bytes: &mut [u8; 512],
    last: &mut [u8; 16],
    archive: &[u8],
    pool: &mut [u8],
    groups: &mut [u32],
    table: &mut [u16],
    owners: &mut [u32],
    history: &[u16],
    items: &[u32],
    answers: &mut [u32],
) -> u32
    ensures { WritesBlock
        (storage_of (state_of (registers_from registers.old) (cache_of held.old origins.old valid.old bytes.old last.old)) archive.now pool.old groups.old table.old owners.old history.now)
        (items_of items.now) answers.old result answers.new
        (storage_of (state_of (registers_from registers.new) (cache_of held.new origins.new valid.new bytes.new last.new)) archive.now pool.new groups.new table.new owners.new history.now) }
{
    match write_blocks::write_block(
        border::read_registers(registers),
        held,
        origins,
        valid,
        bytes,
        last,
        archive,
        pool,
        groups,
        table,
        owners,
        history,
        items,
        answers,
    ) {
        Ok(used) => {
            border::write_used(registers, used);
            0
        }
        Err(refusal) => u32::from(refusal),
    }
}
