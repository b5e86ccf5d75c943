// The flag of each line behind the pages' owners: whether a write to the line was collected. Every function is safe on any contents; what the
// `requires` ask of numbers and lengths is tested by the store, and only our own crates call them.
ghost use Rattle.std.specs.Prelude.{◌≡◌, ◌+◌, ◌≤◌, length};
ghost use Rattle.pages.specs.Flags.{collected_at, flagged, unflagged, AsksFlag};

// Whether a line was collected.
pub fn is_collected(owners: &[u32], pages: u32, line: u32) -> bool
    requires { AsksFlag pages line (length owners.now) }
    ensures { result ≡ collected_at pages owners.now line }
{
    let at = (pages + line) as usize;
    owners[at] != 0
}

// Notes that it was.
pub fn set_collected(owners: &mut [u32], pages: u32, line: u32)
    requires { AsksFlag pages line (length owners.old) }
    ensures { owners.new ≡ flagged pages line owners.old }
{
    let at = (pages + line) as usize;
    owners[at] = 1;
}

// Notes that no line was.
pub fn clear(owners: &mut [u32], pages: u32, lines: u32)
    requires { (pages ≤ 4096) × (lines ≤ 4096) × (pages + lines ≤ length owners.old) }
    ensures { owners.new ≡ unflagged pages lines owners.old }
{
    let first = pages as usize;
    let behind = (pages + lines) as usize;
    owners[first..behind].fill(0);
}
