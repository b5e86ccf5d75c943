// The calls exported to C and Rust: the static library of this crate defines each under its plain name. include/vcm.h declares them, with
// an inline function for each that takes a pointer to the state and one to the memory. A lent piece crosses as its address and its
// count of elements, the registers and the cache's arrays where they lie; RESET and CHECK, which go over the whole store, take the
// state by value. No struct that crosses has a bool or an enum, so that every byte that a caller may hand over is a value: a refusal crosses as its
// number, and 0 says that there is none.
#![tactic(auto)]

ghost use Rattle.std.specs.Prelude.{◌≡◌};
ghost use Rattle.rules.specs.Sizing.{settings_of, sizing};
ghost use Rattle.rules.specs.Call.Answer.{outcome, counting};
ghost use Rattle.rules.specs.Call.Look.{LINE_REFUSAL, COUNTS};
ghost use Rattle.cache.specs.Entries.{cache_of};
ghost use Rattle.storage.specs.Storage.{memory_of, state_of, storage_of};
ghost use Rattle.storage.specs.Steps.{fresh_state};
ghost use Rattle.storage.specs.Clauses.{Resets, Writes, Looks, MarksIn, RollsBackIn, AdvancesIn};
ghost use Rattle.border.specs.Lent.{registers_from};
ghost use Rattle.vcm.specs.Numbers.{ReadsAs, CopiesLine, ChecksAs};

use store::{Need, State};

// The value of a read and its origin, with the refusal or 0.
#[repr(C)]
#[derive(Clone, Copy)]
pub struct Reading {
    pub refusal: u32,
    pub value: u32,
    pub origin: u32,
    pub marks_back: u32,
}

// The live frames and the pages needed, with the refusal or 0.
#[repr(C)]
#[derive(Clone, Copy)]
pub struct Counted {
    pub refusal: u32,
    pub live: u32,
    pub pages: u32,
}

// The state after a call, and its refusal or 0.
#[repr(C)]
#[derive(Clone, Copy)]
pub struct Outcome {
    pub state: State,
    pub refusal: u32,
}

// CHECK's answer, 1 for yes, with the refusal or 0.
#[repr(C)]
#[derive(Clone, Copy)]
pub struct Verdict {
    pub refusal: u32,
    pub yes: u32,
}

// The need of each piece of lent memory in bytes.
#[unsafe(no_mangle)]
pub extern "C" fn vcm_sizes(lines: u32, frames: u32, pages: u32) -> Need
    ensures { result ≡ sizing (settings_of lines frames pages) }
{
    store::sizes(lines, frames, pages)
}

// The blank state, which holds no store.
#[unsafe(no_mangle)]
pub extern "C" fn vcm_blank() -> State
    ensures { result ≡ fresh_state 0 0 0 }
{
    store::blank()
}

// RESET: writes archive, groups, the flags behind the owners, and history.
#[unsafe(no_mangle)]
pub extern "C" fn vcm_raw_reset(
    mut state: State,
    archive: &mut [u8],
    pool: &[u8],
    groups: &mut [u32],
    table: &[u16],
    owners: &mut [u32],
    history: &mut [u16],
    lines: u32,
    frames: u32,
    pages: u32,
) -> Outcome
    ensures { Resets
        (storage_of state archive.old pool.now groups.old table.now owners.old history.old)
        lines frames pages result.refusal
        (storage_of result.state archive.new pool.now groups.new table.now owners.new history.new) }
{
    let done = store::reset(
        &mut state, archive, pool, groups, table, owners, history, lines, frames, pages,
    );
    let refusal = store::refusal_number(&done);
    Outcome { state, refusal }
}

// WRITE: writes the registers, the cache, pool, groups, table and owners.
#[unsafe(no_mangle)]
pub extern "C" fn vcm_raw_write(
    registers: &mut [u32; 8],
    held: &mut [u32; 32],
    origins: &mut [u16; 32],
    valid: &mut [u8; 32],
    bytes: &mut [u8; 512],
    last: &mut [u8; 16],
    archive: &[u8],
    pool: &mut [u8],
    groups: &mut [u32],
    table: &mut [u16],
    owners: &mut [u32],
    history: &[u16],
    width: u32,
    address: u32,
    value: u32,
) -> u32
    ensures { Writes
        (storage_of (state_of (registers_from registers.old) (cache_of held.old origins.old valid.old bytes.old last.old)) archive.now pool.old groups.old table.old owners.old history.now)
        width address value result
        (storage_of (state_of (registers_from registers.new) (cache_of held.new origins.new valid.new bytes.new last.new)) archive.now pool.new groups.new table.new owners.new history.now) }
{
    match writing::write(
        border::read_registers(registers),
        held,
        origins,
        valid,
        bytes,
        last,
        archive,
        pool,
        groups,
        table,
        owners,
        history,
        width,
        address,
        value,
    ) {
        Ok(used) => {
            border::write_used(registers, used);
            0
        }
        Err(refusal) => u32::from(refusal),
    }
}

// READ: writes the cache.
#[unsafe(no_mangle)]
pub extern "C" fn vcm_raw_read(
    registers: &[u32; 8],
    held: &mut [u32; 32],
    origins: &mut [u16; 32],
    valid: &mut [u8; 32],
    bytes: &mut [u8; 512],
    last: &mut [u8; 16],
    archive: &[u8],
    pool: &[u8],
    groups: &[u32],
    table: &[u16],
    owners: &[u32],
    history: &[u16],
    width: u32,
    address: u32,
) -> Reading
    ensures { ReadsAs
        (storage_of (state_of (registers_from registers.now) (cache_of held.old origins.old valid.old bytes.old last.old)) archive.now pool.now groups.now table.now owners.now history.now)
        width address result.refusal result.value result.origin result.marks_back
        (storage_of (state_of (registers_from registers.now) (cache_of held.new origins.new valid.new bytes.new last.new)) archive.now pool.now groups.now table.now owners.now history.now) }
{
    match access::read(
        border::read_registers(registers),
        held,
        origins,
        valid,
        bytes,
        last,
        archive,
        pool,
        groups,
        table,
        owners,
        history,
        width,
        address,
    ) {
        Ok(r) => Reading {
            refusal: 0,
            value: r.value,
            origin: border::origin_number(r.origin),
            marks_back: border::marks_back(r.origin),
        },
        Err(refusal) => Reading {
            refusal: u32::from(refusal),
            value: 0,
            origin: border::ARCHIVE,
            marks_back: 0,
        },
    }
}

// LINE: puts the 16 bytes of the line's most recent version into the caller's, and gives the refusal or 0; refused, they stay.
#[unsafe(no_mangle)]
pub extern "C" fn vcm_raw_line<'a>(
    registers: &[u32; 8],
    archive: &'a [u8],
    pool: &'a [u8],
    groups: &[u32],
    table: &[u16],
    owners: &[u32],
    history: &[u16],
    line: u32,
    bytes: &mut [u8; 16],
) -> u32
    ensures { CopiesLine (registers_from registers.now) (memory_of archive.now pool.now groups.now table.now owners.now history.now) line result bytes.old bytes.new }
{
    let loaded = border::read_registers(registers);
    let lengths = storage::measure(archive, pool, groups, table, owners, history);
    match storage::admit_line(loaded, lengths, line) {
        Ok(()) => {
            let part = access::line_admitted(
                loaded, archive, pool, groups, table, owners, history, line,
            );
            border::copy_line(part, bytes);
            0
        }
        Err(refusal) => u32::from(refusal),
    }
}

// LINE's companion: its refusal or 0.
#[unsafe(no_mangle)]
pub extern "C" fn vcm_raw_line_refusal(
    registers: &[u32; 8],
    archive: &[u8],
    pool: &[u8],
    groups: &[u32],
    table: &[u16],
    owners: &[u32],
    history: &[u16],
    line: u32,
) -> u32
    ensures { Looks (LINE_REFUSAL line) (registers_from registers.now) (memory_of archive.now pool.now groups.now table.now owners.now history.now) (outcome result) }
{
    let done = access::line_refusal(
        border::read_registers(registers),
        archive,
        pool,
        groups,
        table,
        owners,
        history,
        line,
    );
    store::refusal_number(&done)
}

// MARK: writes the registers.
#[unsafe(no_mangle)]
pub extern "C" fn vcm_raw_mark(
    registers: &mut [u32; 8],
    archive: &[u8],
    pool: &[u8],
    groups: &[u32],
    table: &[u16],
    owners: &[u32],
    history: &[u16],
) -> u32
    ensures { MarksIn (registers_from registers.old) (memory_of archive.now pool.now groups.now table.now owners.now history.now) result (registers_from registers.new) }
{
    match marks::mark(
        border::read_registers(registers),
        archive,
        pool,
        groups,
        table,
        owners,
        history,
    ) {
        Ok(after) => {
            border::write_registers(registers, after);
            0
        }
        Err(refusal) => u32::from(refusal),
    }
}

// ROLLBACK: writes the registers, the cache's valid flags, groups and history.
#[unsafe(no_mangle)]
pub extern "C" fn vcm_raw_rollback(
    registers: &mut [u32; 8],
    origins: &[u16; 32],
    valid: &mut [u8; 32],
    archive: &[u8],
    pool: &[u8],
    groups: &mut [u32],
    table: &[u16],
    owners: &[u32],
    history: &mut [u16],
    k: u32,
) -> u32
    ensures { RollsBackIn origins.now (registers_from registers.old) valid.old (memory_of archive.now pool.now groups.old table.now owners.now history.old) k result (registers_from registers.new) valid.new
        (memory_of archive.now pool.now groups.new table.now owners.now history.new) }
{
    match marks::rollback(
        border::read_registers(registers),
        origins,
        valid,
        archive,
        pool,
        groups,
        table,
        owners,
        history,
        k,
    ) {
        Ok(after) => {
            border::write_registers(registers, after);
            0
        }
        Err(refusal) => u32::from(refusal),
    }
}

// ADVANCE: writes the registers, the frames of the cache's entries, archive, groups, the flags behind the owners, and history.
#[unsafe(no_mangle)]
pub extern "C" fn vcm_raw_advance(
    registers: &mut [u32; 8],
    origins: &mut [u16; 32],
    archive: &mut [u8],
    pool: &[u8],
    groups: &mut [u32],
    table: &[u16],
    owners: &mut [u32],
    history: &mut [u16],
    k: u32,
) -> u32
    ensures { AdvancesIn (registers_from registers.old) origins.old (memory_of archive.old pool.now groups.old table.now owners.old history.old) k result (registers_from registers.new) origins.new
        (memory_of archive.new pool.now groups.new table.now owners.new history.new) }
{
    match marks::advance(
        border::read_registers(registers),
        origins,
        archive,
        pool,
        groups,
        table,
        owners,
        history,
        k,
    ) {
        Ok(after) => {
            border::write_registers(registers, after);
            0
        }
        Err(refusal) => u32::from(refusal),
    }
}

// COUNTS: writes nothing.
#[unsafe(no_mangle)]
pub extern "C" fn vcm_raw_counts(
    registers: &[u32; 8],
    archive: &[u8],
    pool: &[u8],
    groups: &[u32],
    table: &[u16],
    owners: &[u32],
    history: &[u16],
) -> Counted
    ensures { Looks COUNTS (registers_from registers.now) (memory_of archive.now pool.now groups.now table.now owners.now history.now) (counting result.refusal result.live result.pages) }
{
    match marks::counts(
        border::read_registers(registers),
        archive,
        pool,
        groups,
        table,
        owners,
        history,
    ) {
        Ok(done) => Counted {
            refusal: 0,
            live: done.live,
            pages: done.pages,
        },
        Err(refusal) => Counted {
            refusal: u32::from(refusal),
            live: 0,
            pages: 0,
        },
    }
}

// CHECK: writes nothing.
#[unsafe(no_mangle)]
pub extern "C" fn vcm_raw_check(
    state: State,
    archive: &[u8],
    pool: &[u8],
    groups: &[u32],
    table: &[u16],
    owners: &[u32],
    history: &[u16],
) -> Verdict
    ensures { ChecksAs (storage_of state archive.now pool.now groups.now table.now owners.now history.now) result.refusal result.yes }
{
    match store::check(&state, archive, pool, groups, table, owners, history) {
        Ok(yes) => Verdict {
            refusal: 0,
            yes: u32::from(yes),
        },
        Err(refusal) => Verdict {
            refusal: u32::from(refusal),
            yes: 0,
        },
    }
}
