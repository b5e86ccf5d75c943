// The calls that look at a line: READ, LINE and its companion. They take the registers by value and the cache's arrays where they lie, so that
// nothing of the cache is copied. `store` has the same calls on a whole state, `vcm` exports them.
#![tactic(auto)]

ghost use Rattle.std.specs.Prelude.{◌≡◌, None};
ghost use Rattle.rules.specs.Refusal.{line_refusal};
ghost use Rattle.rules.specs.Refusals.{refusal_in};
ghost use Rattle.rules.specs.Call.Answer.{outcome, lending};
ghost use Rattle.rules.specs.Call.Look.{LINE, LINE_REFUSAL};
ghost use Rattle.written.specs.Bits.{written_at};
ghost use Rattle.versions.specs.Newest.{newest_of, AsksNewest};
ghost use Rattle.cache.specs.Entries.{cache_of, hit_in};
ghost use Rattle.cache.specs.Steps.{placed_in};
ghost use Rattle.storage.specs.Storage.{memory_of, lengths_in, registers_of, settings_at, shape_at, state_of, storage_of};
ghost use Rattle.storage.specs.Admit.{admitted};
ghost use Rattle.storage.specs.Clauses.{Reads, Looks};
ghost use Rattle.access.specs.Reading.{value_in, origin_in};

use rules::Refusal;
use storage::Registers;
use versions::{Origin, Version};

// The value of a read and its origin.
#[derive(Clone, Copy)]
pub struct Reading {
    pub value: u32,
    pub origin: Origin,
}

// Finds the newest version of a line that the cache does not hold, and puts it there.
fn load(
    registers: Registers,
    held: &mut [u32; 32],
    origins: &mut [u16; 32],
    valid: &mut [u8; 32],
    bytes: &mut [u8; 512],
    last: &mut [u8; 16],
    archive: &[u8],
    pool: &[u8],
    groups: &[u32],
    table: &[u16],
    history: &[u16],
    live: u32,
    line: u32,
) -> Version
    requires { (AsksNewest (written_at (shape_at registers) groups.now history.now) registers.pages live line archive.now pool.now table.now) × (hit_in held.old valid.old line ≡ None) }
    ensures found { result ≡ newest_of (written_at (shape_at registers) groups.now history.now) registers.pages live archive.now pool.now table.now line }
    ensures held { (cache_of held.new origins.new valid.new bytes.new last.new) ≡ placed_in (cache_of held.old origins.old valid.old bytes.old last.old) line result.frame result.content }
{
    let version = versions::newest(
        archive,
        pool,
        groups,
        table,
        history,
        storage::shape(registers),
        registers.pages,
        live,
        line,
    );
    let content = version.content;
    cache::place(
        held,
        origins,
        valid,
        bytes,
        last,
        line,
        None,
        version.frame,
        content,
    );
    version
}

// READ: from the cache where it holds the line, else from where the newest version stands; the cache has the line afterwards. A line that no
// surviving write has touched is empty, in the cache or not.
pub fn read(
    registers: Registers,
    held: &mut [u32; 32],
    origins: &mut [u16; 32],
    valid: &mut [u8; 32],
    bytes: &mut [u8; 512],
    last: &mut [u8; 16],
    archive: &[u8],
    pool: &[u8],
    groups: &[u32],
    table: &[u16],
    owners: &[u32],
    history: &[u16],
    width: u32,
    address: u32,
) -> Result<Reading, Refusal>
    ensures { Reads
        (storage_of (state_of registers (cache_of held.old origins.old valid.old bytes.old last.old)) archive.now pool.now groups.now table.now owners.now history.now)
        width address (refusal_in result) (value_in result) (origin_in result)
        (storage_of (state_of registers (cache_of held.new origins.new valid.new bytes.new last.new)) archive.now pool.now groups.now table.now owners.now history.now) }
{
    let lengths = storage::measure(archive, pool, groups, table, owners, history);
    storage::admit_place(registers, lengths, width, address)?;
    let line = address / 16;
    match cache::find(held, valid, line) {
        Some(entry) => {
            cache::recall(last, entry);
            let frame = cache::frame_of(origins, entry);
            let value = cache::value_at(bytes, entry, width, address % 16);
            if versions::is_empty(owners, registers.pages, line, frame) {
                return Ok(Reading {
                    value,
                    origin: Origin::Empty,
                });
            }
            Ok(Reading {
                value,
                origin: Origin::Cache,
            })
        }
        None => {
            let live = frames::live(registers.frames, registers.omf, registers.cmf);
            let version = load(
                registers, held, origins, valid, bytes, last, archive, pool, groups, table,
                history, live, line,
            );
            let content = version.content;
            let origin = version.origin;
            let value = pages::lines::value_of(content, width, address % 16);
            if versions::is_empty(owners, registers.pages, line, version.frame) {
                return Ok(Reading {
                    value,
                    origin: Origin::Empty,
                });
            }
            Ok(Reading { value, origin })
        }
    }
}

// LINE past its tests: lends the part of the pool or of the archive that holds the line's most recent version. It does not look at the cache,
// whatever that holds.
pub fn line_admitted<'a>(
    registers: Registers,
    archive: &'a [u8],
    pool: &'a [u8],
    groups: &[u32],
    table: &[u16],
    owners: &[u32],
    history: &[u16],
    line: u32,
) -> &'a [u8]
    requires { admitted (registers_of registers) (lengths_in (memory_of archive.now pool.now groups.now table.now owners.now history.now)) (line_refusal (settings_at registers) line) ≡ 0 }
    ensures { Looks (LINE line) registers (memory_of archive.now pool.now groups.now table.now owners.now history.now) (lending result.now) }
{
    let live = frames::live(registers.frames, registers.omf, registers.cmf);
    let shape = storage::shape(registers);
    let found = written::search(groups, history, shape, line, live - 1);
    match versions::locate(table, shape, registers.pages, line, found) {
        Some(page) => pages::lines::page_line(pool, page, line % 8),
        None => pages::lines::archive_line(archive, line),
    }
}

// LINE; refused, it lends an empty part of the archive.
pub fn line<'a>(
    registers: Registers,
    archive: &'a [u8],
    pool: &'a [u8],
    groups: &[u32],
    table: &[u16],
    owners: &[u32],
    history: &[u16],
    line: u32,
) -> &'a [u8]
    ensures { Looks (LINE line) registers (memory_of archive.now pool.now groups.now table.now owners.now history.now) (lending result.now) }
{
    let lengths = storage::measure(archive, pool, groups, table, owners, history);
    match storage::admit_line(registers, lengths, line) {
        Ok(()) => line_admitted(
            registers, archive, pool, groups, table, owners, history, line,
        ),
        Err(_) => &archive[0..0],
    }
}

// LINE's companion: the refusal of `line` on the same arguments, if it gets one.
pub fn line_refusal(
    registers: Registers,
    archive: &[u8],
    pool: &[u8],
    groups: &[u32],
    table: &[u16],
    owners: &[u32],
    history: &[u16],
    line: u32,
) -> Result<(), Refusal>
    ensures { Looks (LINE_REFUSAL line) registers (memory_of archive.now pool.now groups.now table.now owners.now history.now) (outcome (refusal_in result)) }
{
    let lengths = storage::measure(archive, pool, groups, table, owners, history);
    storage::admit_line(registers, lengths, line)
}
