// Pages of 8 lines: the table that names them (table), the circle in which they are given out (segment), the lines in them (lines), and the flags
// of the lines that were collected from them (flags).
#![tactic(auto)]

pub mod flags;
pub mod lines;
pub mod segment;
pub mod table;

use written::Shape;

// What places the pages: what places the lent lists, and of the pool's circle P, the page where the needed ones start and how many they are.
#[derive(Clone, Copy)]
pub struct Ring {
    pub shape: Shape,
    pub pages: u32,
    pub first: u32,
    pub used: u32,
}
