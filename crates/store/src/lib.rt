// The store: every call of document 01, in memory that the caller lends, on a state that the caller keeps. RESET and CHECK are
// done here; the other calls are those of `access`, `writing`, `write_blocks` and `marks`, which take the cache's arrays where they lie.
#![tactic(auto)]

ghost use Rattle.std.specs.Prelude.{◌≡◌, false};
ghost use Rattle.std.specs.Result.{result_unwrap_or};
ghost use Rattle.rules.specs.Call.Answer.{outcome, lending, verdict};
ghost use Rattle.rules.specs.Call.Look.{LINE, LINE_REFUSAL, COUNTS};
ghost use Rattle.rules.specs.Call.Act.{LOOK};
ghost use Rattle.rules.specs.Call.Call.{CHECK, ON};
ghost use Rattle.rules.specs.Promise.{Promise};
ghost use Rattle.rules.specs.Refusals.{refusal_in};
ghost use Rattle.wellformed.specs.Decision.{Decides};
ghost use Rattle.storage.specs.Storage.{registers_in, memory_of, lengths_in, storage_of, WellStore, store};
ghost use Rattle.storage.specs.Admit.{admitted};
ghost use Rattle.storage.specs.Steps.{fresh_state};
ghost use Rattle.storage.specs.Clauses.{Resets, Writes, WritesBlock, Reads, Marks, RollsBack, Advances};
ghost use Rattle.write_blocks.specs.Items.{items_of};
ghost use Rattle.marks.specs.Counting.{counts_in};
ghost use Rattle.access.specs.Reading.{value_in, origin_in};

pub use access::Reading;
pub use marks::Counted;
use pages::Ring;
pub use rules::{Need, Refusal, refusal_number, sizes};
pub use storage::{Registers, State};
pub use versions::Origin;
use written::Shape;

// The memory that a caller lends, piece by piece, as one value. The calls take the pieces one by one: each says by `&mut` which it writes, and C lends
// it the others to read only.
#[derive(Drop)]
pub struct Memory<'a> {
    pub archive: &'a mut [u8],
    pub pool: &'a mut [u8],
    pub groups: &'a mut [u32],
    pub table: &'a mut [u16],
    pub owners: &'a mut [u32],
    pub history: &'a mut [u16],
}

// The blank state, which holds no store: L is 0. Every call but RESET refuses it with 5.
pub fn blank() -> State
    ensures { result ≡ fresh_state 0 0 0 }
{
    fresh(0, 0, 0)
}

// The state of an empty store.
fn fresh(lines: u32, frames: u32, pages: u32) -> State
    ensures { result ≡ fresh_state lines frames pages }
{
    let registers = Registers {
        lines,
        frames,
        pages,
        cmf: 0,
        omf: 0,
        tag: 0,
        first: 0,
        used: 0,
    };
    State {
        registers,
        cache: cache::empty(),
    }
}

// RESET: an empty store with these settings, whatever the state and the lent memory held.
pub fn reset(
    state: &mut State,
    archive: &mut [u8],
    pool: &[u8],
    groups: &mut [u32],
    table: &[u16],
    owners: &mut [u32],
    history: &mut [u16],
    lines: u32,
    frames: u32,
    pages: u32,
) -> Result<(), Refusal>
    ensures { Resets
        (storage_of state.old archive.old pool.now groups.old table.now owners.old history.old)
        lines frames pages (refusal_in result)
        (storage_of state.new archive.new pool.now groups.new table.now owners.new history.new) }
{
    let lengths = storage::measure(archive, pool, groups, table, owners, history);
    storage::asked_refusal(lines, frames, pages, lengths)?;
    versions::zero(archive, lines);
    let shape = Shape {
        lines,
        frames,
        omf: 0,
    };
    written::reset(groups, history, shape);
    pages::flags::clear(owners, pages, lines);
    *state = fresh(lines, frames, pages);
    Ok(())
}

// WRITE.
pub fn write(
    state: &mut State,
    archive: &[u8],
    pool: &mut [u8],
    groups: &mut [u32],
    table: &mut [u16],
    owners: &mut [u32],
    history: &[u16],
    width: u32,
    address: u32,
    value: u32,
) -> Result<(), Refusal>
    ensures { Writes
        (storage_of state.old archive.now pool.old groups.old table.old owners.old history.now)
        width address value (refusal_in result)
        (storage_of state.new archive.now pool.new groups.new table.new owners.new history.now) }
{
    state.registers.used = writing::write(
        state.registers,
        &mut state.cache.held,
        &mut state.cache.origins,
        &mut state.cache.valid,
        &mut state.cache.bytes,
        &mut state.cache.last,
        archive,
        pool,
        groups,
        table,
        owners,
        history,
        width,
        address,
        value,
    )?;
    Ok(())
}

// A block of writes: three numbers an item, its width, address and value.
pub fn write_block(
    state: &mut State,
    archive: &[u8],
    pool: &mut [u8],
    groups: &mut [u32],
    table: &mut [u16],
    owners: &mut [u32],
    history: &[u16],
    items: &[u32],
    answers: &mut [u32],
) -> Result<(), Refusal>
    ensures { WritesBlock
        (storage_of state.old archive.now pool.old groups.old table.old owners.old history.now)
        (items_of items.now) answers.old (refusal_in result) answers.new
        (storage_of state.new archive.now pool.new groups.new table.new owners.new history.now) }
{
    state.registers.used = write_blocks::write_block(
        state.registers,
        &mut state.cache.held,
        &mut state.cache.origins,
        &mut state.cache.valid,
        &mut state.cache.bytes,
        &mut state.cache.last,
        archive,
        pool,
        groups,
        table,
        owners,
        history,
        items,
        answers,
    )?;
    Ok(())
}

// READ.
pub fn read(
    state: &mut State,
    archive: &[u8],
    pool: &[u8],
    groups: &[u32],
    table: &[u16],
    owners: &[u32],
    history: &[u16],
    width: u32,
    address: u32,
) -> Result<Reading, Refusal>
    ensures { Reads
        (storage_of state.old archive.now pool.now groups.now table.now owners.now history.now)
        width address (refusal_in result) (value_in result) (origin_in result)
        (storage_of state.new archive.now pool.now groups.now table.now owners.now history.now) }
{
    access::read(
        state.registers,
        &mut state.cache.held,
        &mut state.cache.origins,
        &mut state.cache.valid,
        &mut state.cache.bytes,
        &mut state.cache.last,
        archive,
        pool,
        groups,
        table,
        owners,
        history,
        width,
        address,
    )
}

// LINE.
pub fn line<'a>(
    state: &State,
    archive: &'a [u8],
    pool: &'a [u8],
    groups: &[u32],
    table: &[u16],
    owners: &[u32],
    history: &[u16],
    line: u32,
) -> &'a [u8]
    ensures { Promise store (ON (LOOK (LINE line)))
        (storage_of state.now archive.now pool.now groups.now table.now owners.now history.now)
        (lending result.now)
        (storage_of state.now archive.now pool.now groups.now table.now owners.now history.now) }
{
    access::line(
        state.registers,
        archive,
        pool,
        groups,
        table,
        owners,
        history,
        line,
    )
}

// LINE's companion.
pub fn line_refusal(
    state: &State,
    archive: &[u8],
    pool: &[u8],
    groups: &[u32],
    table: &[u16],
    owners: &[u32],
    history: &[u16],
    line: u32,
) -> Result<(), Refusal>
    ensures { Promise store (ON (LOOK (LINE_REFUSAL line)))
        (storage_of state.now archive.now pool.now groups.now table.now owners.now history.now)
        (outcome (refusal_in result))
        (storage_of state.now archive.now pool.now groups.now table.now owners.now history.now) }
{
    access::line_refusal(
        state.registers,
        archive,
        pool,
        groups,
        table,
        owners,
        history,
        line,
    )
}

// MARK.
pub fn mark(
    state: &mut State,
    archive: &[u8],
    pool: &[u8],
    groups: &[u32],
    table: &[u16],
    owners: &[u32],
    history: &[u16],
) -> Result<(), Refusal>
    ensures { Marks
        (storage_of state.old archive.now pool.now groups.now table.now owners.now history.now)
        (refusal_in result)
        (storage_of state.new archive.now pool.now groups.now table.now owners.now history.now) }
{
    state.registers = marks::mark(
        state.registers,
        archive,
        pool,
        groups,
        table,
        owners,
        history,
    )?;
    Ok(())
}

// ROLLBACK.
pub fn rollback(
    state: &mut State,
    archive: &[u8],
    pool: &[u8],
    groups: &mut [u32],
    table: &[u16],
    owners: &[u32],
    history: &mut [u16],
    k: u32,
) -> Result<(), Refusal>
    ensures { RollsBack
        (storage_of state.old archive.now pool.now groups.old table.now owners.now history.old)
        k (refusal_in result)
        (storage_of state.new archive.now pool.now groups.new table.now owners.now history.new) }
{
    state.registers = marks::rollback(
        state.registers,
        &state.cache.origins,
        &mut state.cache.valid,
        archive,
        pool,
        groups,
        table,
        owners,
        history,
        k,
    )?;
    Ok(())
}

// ADVANCE.
pub fn advance(
    state: &mut State,
    archive: &mut [u8],
    pool: &[u8],
    groups: &mut [u32],
    table: &[u16],
    owners: &mut [u32],
    history: &mut [u16],
    k: u32,
) -> Result<(), Refusal>
    ensures { Advances
        (storage_of state.old archive.old pool.now groups.old table.now owners.old history.old)
        k (refusal_in result)
        (storage_of state.new archive.new pool.now groups.new table.now owners.new history.new) }
{
    state.registers = marks::advance(
        state.registers,
        &mut state.cache.origins,
        archive,
        pool,
        groups,
        table,
        owners,
        history,
        k,
    )?;
    Ok(())
}

// COUNTS.
pub fn counts(
    state: &State,
    archive: &[u8],
    pool: &[u8],
    groups: &[u32],
    table: &[u16],
    owners: &[u32],
    history: &[u16],
) -> Result<Counted, Refusal>
    ensures { Promise store (ON (LOOK COUNTS))
        (storage_of state.now archive.now pool.now groups.now table.now owners.now history.now)
        (counts_in result)
        (storage_of state.now archive.now pool.now groups.now table.now owners.now history.now) }
{
    marks::counts(
        state.registers,
        archive,
        pool,
        groups,
        table,
        owners,
        history,
    )
}

// Whether admitted storage is well-formed.
fn is_well(
    state: State,
    archive: &[u8],
    pool: &[u8],
    groups: &[u32],
    table: &[u16],
    owners: &[u32],
    history: &[u16],
) -> bool
    requires { admitted (registers_in state) (lengths_in (memory_of archive.now pool.now groups.now table.now owners.now history.now)) 0 ≡ 0 }
    ensures { Decides result (WellStore (storage_of state archive.now pool.now groups.now table.now owners.now history.now)) }
{
    let lines = state.registers.lines;
    let frames = state.registers.frames;
    let omf = state.registers.omf;
    let pages = state.registers.pages;
    let live = frames::live(frames, omf, state.registers.cmf);
    let shape = Shape { lines, frames, omf };
    if !wellformed::bits(groups, history, shape, state.registers.tag, live) {
        return false;
    }
    let ring = Ring {
        shape,
        pages,
        first: state.registers.first,
        used: state.registers.used,
    };
    if !wellformed::ring(groups, history, table, owners, ring) {
        return false;
    }
    if !wellformed::entries(state.cache, lines) {
        return false;
    }
    if !wellformed::archive(archive, owners, lines, pages) {
        return false;
    }
    wellformed::bytes(archive, 16 * lines);
    wellformed::bytes(pool, 128 * pages);
    wellformed::coherent(
        state.cache,
        archive,
        pool,
        groups,
        table,
        history,
        shape,
        pages,
        live,
    )
}

// CHECK: yes exactly if the storage is well-formed.
pub fn check(
    state: &State,
    archive: &[u8],
    pool: &[u8],
    groups: &[u32],
    table: &[u16],
    owners: &[u32],
    history: &[u16],
) -> Result<bool, Refusal>
    ensures { Promise store CHECK
        (storage_of state.now archive.now pool.now groups.now table.now owners.now history.now)
        (verdict (refusal_in result) (result_unwrap_or result false))
        (storage_of state.now archive.now pool.now groups.now table.now owners.now history.now) }
{
    let lengths = storage::measure(archive, pool, groups, table, owners, history);
    storage::admit(state.registers, lengths)?;
    let yes = is_well(*state, archive, pool, groups, table, owners, history);
    Ok(yes)
}
