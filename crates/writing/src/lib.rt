// WRITE, on the registers by value and the cache's arrays where they lie, so that nothing of the cache is copied. `store` has it on a whole state,
// `write_blocks` makes many in one call, `vcm` exports it.
#![tactic(auto)]

ghost use Rattle.std.specs.Prelude.{◌≡◌, ◌*◌, ◌/◌, ◌%◌};
ghost use Rattle.std.specs.Result.{result_unwrap_or};
ghost use Rattle.std.proofs.Math.ListN;
ghost use Rattle.rules.specs.Line.{line_of, offset_of, edit};
ghost use Rattle.rules.specs.Refusal.{write_refusal};
ghost use Rattle.rules.specs.Refusals.{refusal_in};
ghost use Rattle.lists.specs.Lines.{paste_line};
ghost use Rattle.written.specs.Bits.{written_at};
ghost use Rattle.written.specs.Steps.{renewed};
ghost use Rattle.pages.specs.Lines.{page_line, with_page_line};
ghost use Rattle.cache.specs.Entries.{cache_of, bytes_in, hit_in};
ghost use Rattle.storage.specs.Storage.{memory_of, lengths_in, registers_of, settings_at, shape_at, state_of, storage_of};
ghost use Rattle.storage.specs.Admit.{admitted};
ghost use Rattle.storage.specs.Steps.{given_registers, named_page, Put, AsksWrite, AsksEdit};
ghost use Rattle.storage.specs.Clauses.{Writes};

use rules::Refusal;
use storage::Registers;

// Writes a value to the most recent version of its line and puts the line in a page of CMF and in the cache.
fn put_value(
    registers: Registers,
    held: &mut [u32; 32],
    origins: &mut [u16; 32],
    valid: &mut [u8; 32],
    bytes: &mut [u8; 512],
    last: &mut [u8; 16],
    archive: &[u8],
    pool: &mut [u8],
    groups: &mut [u32],
    table: &mut [u16],
    owners: &mut [u32],
    history: &[u16],
    width: u32,
    address: u32,
    value: u32,
    found: Option<u32>,
    live: u32,
    page: u32,
)
    requires { (AsksWrite (storage_of (state_of registers (cache_of held.old origins.old valid.old bytes.old last.old)) archive.now pool.old groups.old table.old owners.old history.now) width address live page) × (found ≡ hit_in held.old valid.old (line_of address)) }
    ensures { Put (storage_of (state_of registers (cache_of held.old origins.old valid.old bytes.old last.old)) archive.now pool.old groups.old table.old owners.old history.now) width address value live page
        (cache_of held.new origins.new valid.new bytes.new last.new) (memory_of archive.now pool.new groups.new table.new owners.new history.now) }
{
    let line = address / 16;
    let shape = storage::shape(registers);
    let latest = versions::latest(
        origins,
        bytes,
        archive,
        pool,
        groups,
        table,
        history,
        shape,
        registers.pages,
        live,
        line,
        found,
    );
    let before = latest.content;
    let content = pages::lines::edited(before, width, address % 16, value);
    versions::put(
        pool,
        groups,
        table,
        owners,
        history,
        shape,
        registers.tag % 256,
        registers.pages,
        line,
        live - 1,
        page,
        content,
    );
    let frame = registers.cmf as u16;
    cache::place(
        held, origins, valid, bytes, last, line, found, frame, content,
    );
}

// WRITE past its tests, the short way, to a line that an entry of the cache holds with CMF as its frame. On storage that CHECK passes it is written
// there already, and its page is the table's. A number past the pool, which no well-formed table names, counts as the last page.
fn write_again(
    registers: Registers,
    bytes: &mut [u8; 512],
    last: &mut [u8; 16],
    pool: &mut [u8],
    groups: &mut [u32],
    table: &[u16],
    history: &[u16],
    width: u32,
    address: u32,
    value: u32,
    entry: u32,
)
    requires { AsksEdit registers width address entry pool.old groups.old table.now history.now }
    ensures bytes { bytes.new ≡ paste_line bytes.old (16 * entry) (edit width (offset_of address) value (bytes_in bytes.old entry)) }
    ensures last { last.new ≡ ListN.set last.old (entry / 2) (entry % 2) }
    ensures pool { pool.new ≡ with_page_line pool.old (named_page registers table.now (line_of address)) (line_of address % 8)
        (edit width (offset_of address) value (page_line pool.old (named_page registers table.now (line_of address)) (line_of address % 8))) }
    ensures groups { groups.new ≡ renewed (written_at (shape_at registers) groups.old history.now) (registers.tag % 256) (line_of address) registers.cmf }
{
    let line = address / 16;
    let offset = address % 16;
    let shape = storage::shape(registers);
    let named = pages::table::page_at(table, shape, registers.cmf, line / 8);
    let page = named.min(registers.pages - 1);
    pages::lines::edit_page_line(pool, page, line % 8, width, offset, value);
    cache::edit_at(bytes, entry, width, offset, value);
    written::renew(
        groups,
        history,
        shape,
        registers.tag % 256,
        line,
        registers.cmf,
    );
    cache::recall(last, entry);
}

// WRITE past its tests, the long way: to the line's page in CMF, which is the one that its block has there or the next of the ring. Gives how many
// pages are in use then.
fn write_newly(
    registers: Registers,
    held: &mut [u32; 32],
    origins: &mut [u16; 32],
    valid: &mut [u8; 32],
    bytes: &mut [u8; 512],
    last: &mut [u8; 16],
    archive: &[u8],
    pool: &mut [u8],
    groups: &mut [u32],
    table: &mut [u16],
    owners: &mut [u32],
    history: &[u16],
    width: u32,
    address: u32,
    value: u32,
    found: Option<u32>,
) -> Result<u32, Refusal>
    requires { (admitted (registers_of registers) (lengths_in (memory_of archive.now pool.old groups.old table.old owners.old history.now)) 0 ≡ 0) × (write_refusal (settings_at registers) width address value 0 ≡ 0) × (found ≡ hit_in held.old valid.old (line_of address)) }
    ensures { Writes
        (storage_of (state_of registers (cache_of held.old origins.old valid.old bytes.old last.old)) archive.now pool.old groups.old table.old owners.old history.now)
        width address value (refusal_in result)
        (storage_of (state_of (given_registers registers (result_unwrap_or result registers.used)) (cache_of held.new origins.new valid.new bytes.new last.new)) archive.now pool.new groups.new table.new owners.new history.now) }
{
    let live = frames::live(registers.frames, registers.omf, registers.cmf);
    let ring = storage::ring(registers);
    let choice = versions::page_for(table, owners, ring, registers.cmf, address / 16);
    let chosen = choice.page;
    match chosen {
        Some(page) => {
            put_value(
                registers, held, origins, valid, bytes, last, archive, pool, groups, table, owners,
                history, width, address, value, found, live, page,
            );
            Ok(choice.used)
        }
        None => Err(Refusal::Pages),
    }
}

// WRITE past 5 and 6; gives the pages in use, the one register that it may change.
pub fn write_admitted(
    registers: Registers,
    held: &mut [u32; 32],
    origins: &mut [u16; 32],
    valid: &mut [u8; 32],
    bytes: &mut [u8; 512],
    last: &mut [u8; 16],
    archive: &[u8],
    pool: &mut [u8],
    groups: &mut [u32],
    table: &mut [u16],
    owners: &mut [u32],
    history: &[u16],
    width: u32,
    address: u32,
    value: u32,
) -> Result<u32, Refusal>
    requires { admitted (registers_of registers) (lengths_in (memory_of archive.now pool.old groups.old table.old owners.old history.now)) 0 ≡ 0 }
    ensures { Writes
        (storage_of (state_of registers (cache_of held.old origins.old valid.old bytes.old last.old)) archive.now pool.old groups.old table.old owners.old history.now)
        width address value (refusal_in result)
        (storage_of (state_of (given_registers registers (result_unwrap_or result registers.used)) (cache_of held.new origins.new valid.new bytes.new last.new)) archive.now pool.new groups.new table.new owners.new history.now) }
{
    storage::write_refusal(registers, width, address, value)?;
    let found = cache::find(held, valid, address / 16);
    match cache::of_frame(origins, found, registers.cmf) {
        Some(entry) => {
            write_again(
                registers, bytes, last, pool, groups, table, history, width, address, value, entry,
            );
            Ok(registers.used)
        }
        None => write_newly(
            registers, held, origins, valid, bytes, last, archive, pool, groups, table, owners,
            history, width, address, value, found,
        ),
    }
}

// WRITE; gives the pages in use, the one register that it may change.
pub fn write(
    registers: Registers,
    held: &mut [u32; 32],
    origins: &mut [u16; 32],
    valid: &mut [u8; 32],
    bytes: &mut [u8; 512],
    last: &mut [u8; 16],
    archive: &[u8],
    pool: &mut [u8],
    groups: &mut [u32],
    table: &mut [u16],
    owners: &mut [u32],
    history: &[u16],
    width: u32,
    address: u32,
    value: u32,
) -> Result<u32, Refusal>
    ensures { Writes
        (storage_of (state_of registers (cache_of held.old origins.old valid.old bytes.old last.old)) archive.now pool.old groups.old table.old owners.old history.now)
        width address value (refusal_in result)
        (storage_of (state_of (given_registers registers (result_unwrap_or result registers.used)) (cache_of held.new origins.new valid.new bytes.new last.new)) archive.now pool.new groups.new table.new owners.new history.now) }
{
    let lengths = storage::measure(archive, pool, groups, table, owners, history);
    storage::admit(registers, lengths)?;
    write_admitted(
        registers, held, origins, valid, bytes, last, archive, pool, groups, table, owners,
        history, width, address, value,
    )
}
