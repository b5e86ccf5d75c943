// The page table: for each frame and block of 8 lines the page that was given to it last. Every function is safe on any contents; what the
// `requires` ask of numbers and lengths is tested by the store, and only our own crates call them.
ghost use Rattle.std.specs.Prelude.{◌≡◌, ◌≤◌, ◌<◌, length, get_or};
ghost use Rattle.std.proofs.Math.ListN;
ghost use Rattle.pages.specs.Table.{place_at, entry_at, AsksEntry};

use written::Shape;

// Where the table has the page of a frame and block.
fn entry_at(shape: Shape, frame: u32, block: u32) -> usize
    requires { (shape.lines ≤ 4096) × (frame ≤ 4096) × (block ≤ 4096) }
    ensures { result ≡ entry_at shape.lines frame block }
{
    (frame * (shape.lines / 8) + block) as usize
}

// The page that it has there.
pub fn page_at(table: &[u16], shape: Shape, frame: u32, block: u32) -> u32
    requires { AsksEntry shape.lines frame block (length table.now) }
    ensures { (result ≡ get_or table.now (entry_at shape.lines frame block) 0) × (result < 65536) }
{
    let at = entry_at(shape, frame, block);
    u32::from(table[at])
}

// Gives a page to a frame and block.
pub fn claim(table: &mut [u16], owners: &mut [u32], shape: Shape, frame: u32, block: u32, page: u16)
    requires { (AsksEntry shape.lines frame block (length table.old)) × (page < length owners.old) }
    ensures table { table.new ≡ ListN.set table.old (entry_at shape.lines frame block) page }
    ensures owner { owners.new ≡ ListN.set owners.old page (place_at frame block) }
{
    let at = entry_at(shape, frame, block);
    table[at] = page;
    owners[page as usize] = frame * 512 + block;
}
