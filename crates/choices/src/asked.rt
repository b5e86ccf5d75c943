// A call, and how much of each lent piece it is given.
use copies::{Call, Kind, Lengths, Plain};

#[derive(Clone, Copy, PartialEq, Eq, Debug)]
pub enum Piece {
    Archive,
    Pool,
    Groups,
    Table,
    Owners,
    History,
}

// The pieces in the order of the calls' arguments.
pub const PIECES: [Piece; 6] = [
    Piece::Archive,
    Piece::Pool,
    Piece::Groups,
    Piece::Table,
    Piece::Owners,
    Piece::History,
];

// How the memory is lent: as long as needed; one piece an element short; all that there is; the same, on the blank state.
#[derive(Clone, Copy, PartialEq, Eq, Debug, Default)]
pub enum Lent {
    Needed,
    Short(Piece),
    #[default]
    Whole,
    Blank,
}

#[derive(Clone, Copy)]
pub struct Asked {
    pub call: Call,
    pub lent: Lent,
}

// A number as an argument: what does not fit is cut off.
fn narrow(n: usize) -> u32 {
    (n % 4294967296) as u32
}

pub fn call(kind: Kind, a: usize, b: usize, c: usize, lent: Lent) -> Asked {
    Asked {
        call: Call {
            kind,
            a: narrow(a),
            b: narrow(b),
            c: narrow(c),
            blank: lent == Lent::Blank,
        },
        lent,
    }
}

// The lengths with one piece an element short.
fn shortened(need: Lengths, piece: Piece) -> Lengths {
    let mut short = need;
    let length = match piece {
        Piece::Archive => &mut short.archive,
        Piece::Pool => &mut short.pool,
        Piece::Groups => &mut short.groups,
        Piece::Table => &mut short.table,
        Piece::Owners => &mut short.owners,
        Piece::History => &mut short.history,
    };
    *length = length.saturating_sub(1);
    short
}

// More than there is of any piece.
fn all() -> Lengths {
    let most = 4294967295;
    Lengths {
        archive: most,
        pool: most,
        groups: most,
        table: most,
        owners: most,
        history: most,
    }
}

// What a call needs: RESET by the settings asked for, every other call by those of the store.
fn need(call: Call, plain: &Plain) -> Lengths {
    if call.kind == Kind::Reset {
        return Lengths::least(call.a as usize, call.b as usize, call.c as usize);
    }
    Lengths::least(plain.lines, plain.frames, plain.pages)
}

impl Asked {
    // How much of each piece is lent, as far as there is so much.
    pub fn lengths(self, plain: &Plain) -> Lengths {
        match self.lent {
            Lent::Needed => need(self.call, plain),
            Lent::Short(piece) => shortened(need(self.call, plain), piece),
            Lent::Whole | Lent::Blank => all(),
        }
    }
}
