// The state and the lent memory of a store, and the tests of settings, state and lent lengths that come before every call.
#![tactic(auto)]

ghost use Rattle.std.specs.Prelude.{◌≡◌, true, ◌%◌, ◌^◌, ◌≤◌, ltb};
ghost use Rattle.rules.specs.Settings.{covers};
ghost use Rattle.rules.specs.Sizing.{settings_of};
ghost use Rattle.rules.specs.Refusal.{unless, is_width, asked_refusal, line_refusal, marked_refusal, place_refusal, write_refusal, list_refusal};
ghost use Rattle.rules.specs.Refusals.{number, refusal_in};
ghost use Rattle.storage.specs.Storage.{settings_at, registers_of, live_at, memory_of, lengths_in, start_in, shape_at, ring_at};
ghost use Rattle.storage.specs.Admit.{pieces_of, in_elements, settings_refusal, admitted, Room, LineRoom, PlaceRoom, FramesRoom, Admits};

use cache::Cache;
use pages::Ring;
use rules::{Need, Refusal};
use written::Shape;

// The settings L, F and P, the registers CMF and OMF, the tag that a write gives, and of the ring of pages its first one and how many are
// needed from there on.
#[repr(C)]
#[derive(Clone, Copy)]
pub struct Registers {
    pub lines: u32,
    pub frames: u32,
    pub pages: u32,
    pub cmf: u32,
    pub omf: u32,
    pub tag: u32,
    pub first: u32,
    pub used: u32,
}

// The state may hold anything: each call tests it first. `store` takes it by reference; the calls themselves take the registers by value and
// the cache's arrays where they lie.
#[repr(C)]
#[derive(Clone, Copy)]
pub struct State {
    pub registers: Registers,
    pub cache: Cache,
}

// The lengths of the lent pieces, in elements.
#[derive(Clone, Copy)]
pub struct Lengths {
    pub archive: usize,
    pub pool: usize,
    pub groups: usize,
    pub table: usize,
    pub owners: usize,
    pub history: usize,
}

// The lengths of the pieces lent.
pub fn measure(
    archive: &[u8],
    pool: &[u8],
    groups: &[u32],
    table: &[u16],
    owners: &[u32],
    history: &[u16],
) -> Lengths
    ensures { pieces_of result ≡ lengths_in (memory_of archive.now pool.now groups.now table.now owners.now history.now) }
{
    Lengths {
        archive: archive.len(),
        pool: pool.len(),
        groups: groups.len(),
        table: table.len(),
        owners: owners.len(),
        history: history.len(),
    }
}

// Where the ring starts: a page past the pool counts as 0.
fn start(first: u32, pages: u32) -> u32
    ensures { result ≡ start_in first pages }
{
    if first < pages { first } else { 0 }
}

// What places the lent lists.
pub fn shape(registers: Registers) -> Shape
    ensures { result ≡ shape_at registers }
{
    Shape {
        lines: registers.lines,
        frames: registers.frames,
        omf: registers.omf,
    }
}

// The ring that the calls but CHECK see; more pages than there are count as all.
pub fn ring(registers: Registers) -> Ring
    ensures { result ≡ ring_at registers }
{
    Ring {
        shape: shape(registers),
        pages: registers.pages,
        first: start(registers.first, registers.pages),
        used: registers.used.min(registers.pages),
    }
}

// Whether each piece is as long as the sizing call says, or longer. The owners' test, the one with both L and P, comes early: behind the table's a
// MARK would take two instructions more.
fn is_covered(need: Need, lengths: Lengths) -> bool
    ensures { result ≡ covers (in_elements need) (pieces_of lengths) }
{
    if lengths.archive < need.archive {
        return false;
    }
    if lengths.owners < need.owners / 4 {
        return false;
    }
    if lengths.pool < need.pool {
        return false;
    }
    if lengths.groups < need.groups / 4 {
        return false;
    }
    if lengths.table < need.table / 2 {
        return false;
    }
    if lengths.history < need.history / 2 {
        return false;
    }
    true
}

// Whether the settings are within the limits, which a caller names that they may be outside of, and the lent pieces long enough.
fn test_settings(
    lines: u32,
    frames: u32,
    pages: u32,
    lengths: Lengths,
    outside: Refusal,
) -> Result<(), Refusal>
    ensures { refusal_in result ≡ settings_refusal (number outside) (settings_of lines frames pages) (pieces_of lengths) }
{
    let need = rules::sizes(lines, frames, pages);
    if need.refusal != 0 {
        return Err(outside);
    }
    if !is_covered(need, lengths) {
        return Err(Refusal::Memory);
    }
    Ok(())
}

// 4 and 6, for the settings asked for.
pub fn asked_refusal(lines: u32, frames: u32, pages: u32, lengths: Lengths) -> Result<(), Refusal>
    ensures { refusal_in result ≡ asked_refusal (pieces_of lengths) (settings_of lines frames pages) }
{
    test_settings(lines, frames, pages, lengths, Refusal::Settings)
}

// 5 and 6, which every call but RESET tests first.
pub fn admit(registers: Registers, lengths: Lengths) -> Result<(), Refusal>
    ensures { Admits (refusal_in result) (admitted (registers_of registers) (pieces_of lengths) 0) (Room (registers_of registers) (pieces_of lengths)) }
{
    if registers.frames <= registers.cmf {
        return Err(Refusal::State);
    }
    if registers.frames <= registers.omf {
        return Err(Refusal::State);
    }
    test_settings(
        registers.lines,
        registers.frames,
        registers.pages,
        lengths,
        Refusal::State,
    )
}

// 5, 6 and 9: the tests of LINE and its companion.
pub fn admit_line(registers: Registers, lengths: Lengths, line: u32) -> Result<(), Refusal>
    ensures { Admits (refusal_in result) (admitted (registers_of registers) (pieces_of lengths) (line_refusal (settings_at registers) line)) (LineRoom (registers_of registers) (pieces_of lengths) line) }
{
    admit(registers, lengths)?;
    if line < registers.lines {
        return Ok(());
    }
    Err(Refusal::Place)
}

// 5, 6 and 12: the tests of MARK.
pub fn admit_mark(registers: Registers, lengths: Lengths) -> Result<(), Refusal>
    ensures { Admits (refusal_in result) (admitted (registers_of registers) (pieces_of lengths) (unless (ltb (live_at registers) registers.frames) 12 0)) (Room (registers_of registers) (pieces_of lengths)) }
{
    admit(registers, lengths)?;
    if frames::next(registers.frames, registers.cmf) == registers.omf {
        return Err(Refusal::Full);
    }
    Ok(())
}

// 5, 6 and 11: the tests of ROLLBACK and ADVANCE.
pub fn admit_frames(registers: Registers, lengths: Lengths, k: u32) -> Result<(), Refusal>
    ensures { Admits (refusal_in result) (admitted (registers_of registers) (pieces_of lengths) (marked_refusal (live_at registers) k)) (FramesRoom (registers_of registers) (pieces_of lengths) k) }
{
    admit(registers, lengths)?;
    if k == 0 {
        return Err(Refusal::Frames);
    }
    if k < frames::live(registers.frames, registers.omf, registers.cmf) {
        return Ok(());
    }
    Err(Refusal::Frames)
}

// Whether a width is one of the three.
fn is_width(width: u32) -> bool
    ensures { result ≡ is_width width }
{
    if width == 1 {
        return true;
    }
    if width == 2 {
        return true;
    }
    if width == 4 {
        return true;
    }
    false
}

// What is left of an address by a width, which is one of the three: no division is made.
fn remainder(width: u32, address: u32) -> u32
    requires { is_width width ≡ true }
    ensures { result ≡ address % width }
{
    if width == 1 {
        return 0;
    }
    if width == 2 {
        return address % 2;
    }
    address % 4
}

// 7 to 9: the tests of a width and an address, which may be any number: nothing is added to it.
fn place_refusal(registers: Registers, width: u32, address: u32) -> Result<(), Refusal>
    requires { (8 ≤ registers.lines) × (registers.lines ≤ 4096) }
    ensures { refusal_in result ≡ place_refusal (settings_at registers) width address 0 }
{
    if !is_width(width) {
        return Err(Refusal::Width);
    }
    if remainder(width, address) != 0 {
        return Err(Refusal::Alignment);
    }
    if 16 * registers.lines - width < address {
        return Err(Refusal::Place);
    }
    Ok(())
}

// 5 to 9: the tests of READ.
pub fn admit_place(
    registers: Registers,
    lengths: Lengths,
    width: u32,
    address: u32,
) -> Result<(), Refusal>
    ensures { Admits (refusal_in result) (admitted (registers_of registers) (pieces_of lengths) (place_refusal (settings_at registers) width address 0)) (PlaceRoom (registers_of registers) (pieces_of lengths) width address) }
{
    admit(registers, lengths)?;
    place_refusal(registers, width, address)
}

// Whether a value has no more bytes than the width.
fn is_value(width: u32, value: u32) -> bool
    requires { is_width width ≡ true }
    ensures { result ≡ ltb value (256 ^ width) }
{
    if width == 1 {
        if value < 256 {
            return true;
        }
        return false;
    }
    if width == 2 {
        if value < 65536 {
            return true;
        }
        return false;
    }
    true
}

// 7 to 10: the tests of WRITE, once it is past 5 and 6, that come before 13.
pub fn write_refusal(
    registers: Registers,
    width: u32,
    address: u32,
    value: u32,
) -> Result<(), Refusal>
    requires { (8 ≤ registers.lines) × (registers.lines ≤ 4096) }
    ensures { refusal_in result ≡ write_refusal (settings_at registers) width address value 0 }
{
    place_refusal(registers, width, address)?;
    if is_value(width, value) {
        return Ok(());
    }
    Err(Refusal::Value)
}

// 5, 6 and 14: the tests of a block of writes, with so many items and room for so many answers.
pub fn admit_write_block(
    registers: Registers,
    lengths: Lengths,
    items: usize,
    room: usize,
) -> Result<(), Refusal>
    ensures { refusal_in result ≡ admitted (registers_of registers) (pieces_of lengths) (list_refusal items room) }
{
    let earlier = admit(registers, lengths);
    if room < items {
        return earlier.and(Err(Refusal::Answers));
    }
    earlier
}
