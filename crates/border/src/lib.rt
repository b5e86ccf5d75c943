// What crosses the C border in another form than it has inside: the registers, which are lent where they lie, as an array of eight numbers, an
// origin as two numbers, and LINE's part as a copy.
#![tactic(auto)]

ghost use Rattle.std.specs.Prelude.{◌≡◌, length};
ghost use Rattle.storage.specs.Steps.{given_registers};
ghost use Rattle.versions.specs.Newest.{origin_of};
ghost use Rattle.border.specs.Lent.{registers_from};
ghost use Rattle.border.specs.Answers.{origin_number, marks_back, copied};

use storage::Registers;
use versions::Origin;

// An origin as a number. Marks back are 0 but for a frame's.
pub const ARCHIVE: u32 = 0;

pub const FRAME: u32 = 1;

pub const CACHE: u32 = 2;

pub const EMPTY: u32 = 3;

// The registers that are lent.
pub fn read_registers(lent: &[u32; 8]) -> Registers
    ensures { result ≡ registers_from lent.now }
{
    Registers {
        lines: lent[0],
        frames: lent[1],
        pages: lent[2],
        cmf: lent[3],
        omf: lent[4],
        tag: lent[5],
        first: lent[6],
        used: lent[7],
    }
}

// Puts registers in their place.
pub fn write_registers(lent: &mut [u32; 8], registers: Registers)
    ensures { registers_from lent.new ≡ registers }
{
    *lent = [
        registers.lines,
        registers.frames,
        registers.pages,
        registers.cmf,
        registers.omf,
        registers.tag,
        registers.first,
        registers.used,
    ];
}

// Puts in their place how many pages are in use; the others stay.
pub fn write_used(lent: &mut [u32; 8], used: u32)
    ensures { registers_from lent.new ≡ given_registers (registers_from lent.old) used }
{
    lent[7] = used;
}

// The number of an origin.
pub fn origin_number(found: Origin) -> u32
    ensures { result ≡ origin_number (origin_of found) }
{
    match found {
        Origin::Cache => CACHE,
        Origin::Frame(_) => FRAME,
        Origin::Archive => ARCHIVE,
        Origin::Empty => EMPTY,
    }
}

// The marks back of an origin.
pub fn marks_back(found: Origin) -> u32
    ensures { result ≡ marks_back (origin_of found) }
{
    match found {
        Origin::Cache => 0,
        Origin::Frame(back) => back,
        Origin::Archive => 0,
        Origin::Empty => 0,
    }
}

// Copies a lent line over the caller's bytes, which stay where the part has not 16.
pub fn copy_line(part: &[u8], bytes: &mut [u8; 16])
    ensures { bytes.new ≡ copied part.now bytes.old }
{
    if part.len() != 16 {
        return;
    }
    bytes.copy_from_slice(part);
}
