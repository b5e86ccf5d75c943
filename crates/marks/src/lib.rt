// The calls on frames: MARK, ROLLBACK, ADVANCE and COUNTS. They take the registers by value and, of the cache, the arrays that they look at
// where they lie. `store` has the same calls on a whole state, `vcm` exports them.
#![tactic(auto)]

ghost use Rattle.std.specs.Result.{result_unwrap_or};
ghost use Rattle.rules.specs.Call.Look.{COUNTS};
ghost use Rattle.rules.specs.Refusals.{refusal_in};
ghost use Rattle.storage.specs.Storage.{memory_of};
ghost use Rattle.storage.specs.Clauses.{Looks, MarksIn, RollsBackIn, AdvancesIn};
ghost use Rattle.marks.specs.Counting.{counts_in};

use rules::Refusal;
use storage::Registers;

// The live frames and the pages needed.
#[derive(Clone, Copy)]
pub struct Counted {
    pub live: u32,
    pub pages: u32,
}

// MARK: opens the next frame. Nothing is copied and nothing cleared.
pub fn mark(
    mut registers: Registers,
    archive: &[u8],
    pool: &[u8],
    groups: &[u32],
    table: &[u16],
    owners: &[u32],
    history: &[u16],
) -> Result<Registers, Refusal>
    ensures { MarksIn registers (memory_of archive.now pool.now groups.now table.now owners.now history.now) (refusal_in result) (result_unwrap_or result registers) }
{
    let lengths = storage::measure(archive, pool, groups, table, owners, history);
    storage::admit_mark(registers, lengths)?;
    registers.cmf = frames::next(registers.frames, registers.cmf);
    Ok(registers)
}

// ROLLBACK: drops the k newest frames. No written bit is cleared, but for the sweep when the tags run out: the history masks them, and no
// bit has the next tag. The pages of the frames that stay come first in the ring.
pub fn rollback(
    mut registers: Registers,
    origins: &[u16; 32],
    valid: &mut [u8; 32],
    archive: &[u8],
    pool: &[u8],
    groups: &mut [u32],
    table: &[u16],
    owners: &[u32],
    history: &mut [u16],
    k: u32,
) -> Result<Registers, Refusal>
    ensures { RollsBackIn origins.now registers valid.old (memory_of archive.now pool.now groups.old table.now owners.now history.old) k (refusal_in result) (result_unwrap_or result registers) valid.new
        (memory_of archive.now pool.now groups.new table.now owners.now history.new) }
{
    let lengths = storage::measure(archive, pool, groups, table, owners, history);
    storage::admit_frames(registers, lengths, k)?;
    let kept = frames::live(registers.frames, registers.omf, registers.cmf) - k;
    let ring = storage::ring(registers);
    let used = pages::segment::pages_below(owners, ring, kept);
    let tag = written::rollback(
        groups,
        history,
        ring.shape,
        registers.tag % 256,
        kept as u16,
    );
    cache::forget(origins, valid, registers.frames, registers.omf, kept);
    let cmf = (registers.cmf + registers.frames - k) % registers.frames;
    registers.cmf = cmf;
    registers.tag = tag;
    registers.used = used;
    Ok(registers)
}

// ADVANCE: folds the k oldest frames into the archive and frees them. The lines copied are collected from then on.
pub fn advance(
    mut registers: Registers,
    origins: &mut [u16; 32],
    archive: &mut [u8],
    pool: &[u8],
    groups: &mut [u32],
    table: &[u16],
    owners: &mut [u32],
    history: &mut [u16],
    k: u32,
) -> Result<Registers, Refusal>
    ensures { AdvancesIn registers origins.old (memory_of archive.old pool.now groups.old table.now owners.old history.old) k (refusal_in result) (result_unwrap_or result registers) origins.new
        (memory_of archive.new pool.now groups.new table.now owners.new history.new) }
{
    let lengths = storage::measure(archive, pool, groups, table, owners, history);
    storage::admit_frames(registers, lengths, k)?;
    let ring = storage::ring(registers);
    let gone = versions::fold(archive, pool, groups, owners, history, ring, k);
    versions::clear(groups, owners, ring, gone);
    written::lower(history, k as u16);
    cache::collect(origins, registers.frames, registers.omf, k);
    let omf = (registers.omf + k) % registers.frames;
    registers.omf = omf;
    registers.first = pages::segment::nth_page(ring, gone);
    registers.used = ring.used - gone;
    Ok(registers)
}

// COUNTS: the pages needed are those of the ring.
pub fn counts(
    registers: Registers,
    archive: &[u8],
    pool: &[u8],
    groups: &[u32],
    table: &[u16],
    owners: &[u32],
    history: &[u16],
) -> Result<Counted, Refusal>
    ensures { Looks COUNTS registers (memory_of archive.now pool.now groups.now table.now owners.now history.now) (counts_in result) }
{
    let lengths = storage::measure(archive, pool, groups, table, owners, history);
    storage::admit(registers, lengths)?;
    let live = frames::live(registers.frames, registers.omf, registers.cmf);
    let ring = storage::ring(registers);
    Ok(Counted {
        live,
        pages: ring.used,
    })
}
