// What a call answers, and how it is printed.
use crate::{Kind, Refusal, Tried};
use std::fmt;

// Where a READ found its line: in the cache, in a frame so many marks back, in the archive, or nowhere since no write to it is left.
#[derive(Clone, Copy, PartialEq, Eq, Debug)]
pub enum Origin {
    Cache,
    Frame(usize),
    Archive,
    Empty,
}

// What a call answers beside its refusal. LINE: bytes as two numbers and how many they are; COUNTS: live frames and pages.
#[derive(Clone, Copy, PartialEq, Eq, Debug)]
pub enum Said {
    Nothing,
    Read {
        value: usize,
        origin: Origin,
    },
    Line {
        first: usize,
        second: usize,
        length: usize,
    },
    Counts {
        live: usize,
        pages: usize,
    },
    Check(bool),
    Block(Tried),
}

impl Said {
    // What stands beside the refusal of a call; READ names the archive.
    pub fn refused(kind: Kind) -> Said {
        match kind {
            Kind::Read => Said::Read {
                value: 0,
                origin: Origin::Archive,
            },
            Kind::Line => Said::Line {
                first: 0,
                second: 0,
                length: 0,
            },
            Kind::Counts => Said::Counts { live: 0, pages: 0 },
            Kind::Check => Said::Check(false),
            Kind::Block => Said::Block(Tried::default()),
            Kind::Reset | Kind::Write | Kind::Mark | Kind::Rollback | Kind::Advance => {
                Said::Nothing
            }
        }
    }
}

// What a call answers: READ has an origin and a block what its items did even where it is refused.
#[derive(Clone, Copy, PartialEq, Eq, Debug)]
pub struct Answer {
    pub outcome: Result<(), Refusal>,
    pub said: Said,
}

// A call's word in the rows.
impl fmt::Display for Kind {
    fn fmt<W: fmt::Write>(&self, f: &mut fmt::Formatter<W>) -> fmt::Result {
        f.pad(match self {
            Kind::Reset => "reset",
            Kind::Write => "write",
            Kind::Read => "read",
            Kind::Line => "line",
            Kind::Mark => "mark",
            Kind::Rollback => "back",
            Kind::Advance => "advance",
            Kind::Counts => "counts",
            Kind::Check => "check",
            Kind::Block => "block",
        })
    }
}

impl fmt::Display for Origin {
    fn fmt<W: fmt::Write>(&self, f: &mut fmt::Formatter<W>) -> fmt::Result {
        match self {
            Origin::Cache => f.write_str("1000"),
            Origin::Frame(back) => write!(f, "{back}"),
            Origin::Archive => f.write_str("1001"),
            Origin::Empty => f.write_str("1002"),
        }
    }
}

// Three numbers, whatever was answered.
impl fmt::Display for Said {
    fn fmt<W: fmt::Write>(&self, f: &mut fmt::Formatter<W>) -> fmt::Result {
        match self {
            Said::Nothing => f.write_str("0 0 0"),
            Said::Read { value, origin } => write!(f, "{value} {origin} 0"),
            Said::Line {
                first,
                second,
                length,
            } => write!(f, "{first} {second} {length}"),
            Said::Counts { live, pages } => write!(f, "{live} {pages} 0"),
            Said::Check(yes) => write!(f, "{} 0 0", u32::from(*yes)),
            Said::Block(tried) => write!(f, "{tried}"),
        }
    }
}

// The refusal, 0 for accepted, and those three numbers.
impl fmt::Display for Answer {
    fn fmt<W: fmt::Write>(&self, f: &mut fmt::Formatter<W>) -> fmt::Result {
        let said = self.said;
        match self.outcome {
            Ok(()) => write!(f, "0 {said}"),
            Err(refusal) => write!(f, "{refusal} {said}"),
        }
    }
}
