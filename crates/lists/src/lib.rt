// Lists rewritten element by element, and lines of 16 bytes and values of some bytes in lists of bytes. The functions are called by our own
// crates alone, which test what a `requires` asks.
#![tactic(auto)]

ghost use Rattle.std.specs.Prelude.{◌≡◌, ◌+◌, ◌≤◌, length};
ghost use Rattle.rules.specs.Line.{value_at, edit};
ghost use Rattle.lists.specs.Lines.{line_at, paste_line, AsksValue};

// The line that starts at a byte.
pub fn read_line(list: &[u8], at: usize) -> [u8; 16]
    requires { at + 16 ≤ length list.now }
    ensures { result ≡ line_at list.now at }
{
    let mut line = [0u8; 16];
    line.copy_from_slice(&list[at..at + 16]);
    line
}

// Copies a line there.
pub fn write_line(list: &mut [u8], at: usize, line: [u8; 16])
    requires { at + 16 ≤ length list.old }
    ensures { list.new ≡ paste_line list.old at line }
{
    list[at..at + 16].copy_from_slice(&line);
}

// The value of so many bytes from a byte on, most significant first.
pub fn read_value(list: &[u8], at: usize, width: u32) -> u32
    requires { AsksValue width at (length list.now) }
    ensures { result ≡ value_at width at list.now }
{
    if width == 1 {
        return u32::from(list[at]);
    }
    if width == 2 {
        return u32::from(u16::from_be_bytes([list[at], list[at + 1]]));
    }
    u32::from_be_bytes([list[at], list[at + 1], list[at + 2], list[at + 3]])
}

// Writes a value of so many bytes there.
pub fn write_value(list: &mut [u8], at: usize, width: u32, value: u32)
    requires { AsksValue width at (length list.old) }
    ensures { list.new ≡ edit width at value list.old }
{
    if width == 1 {
        list[at] = (value % 256) as u8;
        return;
    }
    if width == 2 {
        let low = (value % 65536) as u16;
        list[at..at + 2].copy_from_slice(&low.to_be_bytes());
        return;
    }
    list[at..at + 4].copy_from_slice(&value.to_be_bytes());
}
