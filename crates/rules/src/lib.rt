// The refusals, and the sizing call. The rest of this crate is specs/, the written rules that every contract of the store cites, and proofs/,
// what is proved of them.
#![tactic(auto)]

ghost use Rattle.std.specs.Prelude.{◌≡◌};
ghost use Rattle.rules.specs.Settings.{Settings, within};
ghost use Rattle.rules.specs.Sizing.{settings_of, sizing};
ghost use Rattle.rules.specs.Refusals.{number, refusal_in};

// Why a call is turned down, with its number. 1, 2 and 3 are a session's.
#[derive(Clone, Copy, PartialEq, Eq, Debug)]
pub enum Refusal {
    // L, F or P is outside its limits, of those asked for
    Settings = 4,
    // or in the state
    State = 5,
    // a lent piece is shorter than the settings need
    Memory = 6,
    // the width is not 1, 2 or 4
    Width = 7,
    // the address is not a multiple of the width
    Alignment = 8,
    // the address plus the width passes 16 * L, or the line is not below L
    Place = 9,
    // the value needs more bytes than the width
    Value = 10,
    // k is 0 or more than the marked states
    Frames = 11,
    // all F frames are live
    Full = 12,
    // the page that is wanted is not needed yet, and P pages are
    Pages = 13,
    // a block's answer list is shorter than its write list
    Answers = 14,
}

impl From<Refusal> for u32 {
    ghost from_gives = { λ refusal n. n ≡ number refusal };

    fn from(refusal: Refusal) -> u32 {
        refusal as u32
    }
}

// The refusal's number where there is one, and else 0, as C and the answer list of a block of writes have it.
pub fn refusal_number<T>(done: &Result<T, Refusal>) -> u32
    ensures { result ≡ refusal_in done.now }
{
    match done {
        Ok(_) => 0,
        Err(refusal) => u32::from(*refusal),
    }
}

// How many bytes of each piece of lent memory a store needs. Where refusal is not 0, every size is 0. (A number, and no Result about the sizes: C gets
// it whole.)
#[repr(C)]
#[derive(Clone, Copy)]
pub struct Need {
    pub refusal: u32,
    pub archive: usize,
    pub pool: usize,
    pub groups: usize,
    pub table: usize,
    pub owners: usize,
    pub history: usize,
}

// Whether the settings are within document 01's limits.
fn in_limits(lines: u32, frames: u32, pages: u32) -> bool
    ensures { result ≡ within (settings_of lines frames pages) }
{
    if lines < 8 {
        return false;
    }
    if 4096 < lines {
        return false;
    }
    if lines % 8 != 0 {
        return false;
    }
    if frames < 16 {
        return false;
    }
    if 256 < frames {
        return false;
    }
    if frames % 16 != 0 {
        return false;
    }
    if pages < 1 {
        return false;
    }
    if 4096 < pages {
        return false;
    }
    true
}

// The need of each piece for these settings, or refusal 4.
pub fn sizes(lines: u32, frames: u32, pages: u32) -> Need
    ensures { result ≡ sizing (settings_of lines frames pages) }
{
    if !in_limits(lines, frames, pages) {
        return Need {
            refusal: 4,
            archive: 0,
            pool: 0,
            groups: 0,
            table: 0,
            owners: 0,
            history: 0,
        };
    }
    let l = lines as usize;
    let f = frames as usize;
    let p = pages as usize;
    Need {
        refusal: 0,
        archive: 16 * l,
        pool: 128 * p,
        groups: 4 * (f / 16 * l),
        table: 2 * (f * (l / 8)),
        owners: 4 * (p + l),
        history: 512,
    }
}
