// Text in bytes: numbers read and written, where a part ends, and the beginning of a line that a chunk's end cuts.
#![tactic(auto)]

ghost use Rattle.std.specs.Prelude.{◌≡◌, [], ◌+◌, ◌≤◌, length, drop};
ghost use Rattle.text.specs.Parts.{up_to};
ghost use Rattle.text.specs.Output.{Puts};
ghost use Rattle.text.specs.Lines.{Holds, Extends, Ended};
ghost use Rattle.text.specs.Numbers.{field_number, decimal};

// The number that a field of 1 to 10 digits says, if it is at most 4,294,967,295.
pub fn read_number(field: &[u8]) -> Option<u32>
    ensures { result ≡ field_number field.now }
{
    if field.is_empty() || 10 < field.len() {
        return None;
    }
    let mut value = 0u64;
    for b in field {
        if !b.is_ascii_digit() {
            return None;
        }
        value = value * 10 + u64::from(*b - b'0');
    }
    u32::try_from(value).ok()
}

// The decimal digits of a number, without leading zeros: written to the end of the scratch, of which the part that holds them is returned.
pub fn write_decimal<'a>(scratch: &'a mut [u8], n: u64) -> &'a [u8]
    requires { 20 ≤ length scratch.old }
    ensures { result.now ≡ decimal n }
{
    let mut i = scratch.len();
    let mut rest = n;
    // A while: it divides until one digit is left, and no count of turns is known before.
    while 10 <= rest {
        i -= 1;
        scratch[i] = b'0' + (rest % 10) as u8;
        rest /= 10;
    }
    i -= 1;
    scratch[i] = b'0' + rest as u8;
    &scratch[i..]
}

// Puts bytes into a buffer from a place on, and returns the place behind them.
pub fn put(out: &mut [u8], at: usize, bytes: &[u8]) -> usize
    requires { at + length bytes.now ≤ length out.old }
    ensures { Puts out.old at bytes.now out.new result }
{
    let count = bytes.len();
    out[at..at + count].copy_from_slice(bytes);
    at + count
}

// Puts the decimal digits of a number into a buffer, and returns the place behind them.
pub fn put_decimal(out: &mut [u8], at: usize, n: u64) -> usize
    requires { at + 20 ≤ length out.old }
    ensures { Puts out.old at (decimal n) out.new result }
{
    let mut scratch = [0u8; 20];
    let digits = write_decimal(&mut scratch, n);
    put(out, at, digits)
}

// Where the part of a text that starts at a byte ends: at the next separator, or at the text's end.
pub fn part_end(bytes: &[u8], from: usize, separator: u8) -> usize
    requires { from ≤ length bytes.now }
    ensures { result ≡ from + up_to separator (drop from bytes.now) }
{
    let count = bytes.len();
    let mut i = from;
    // A while: by std's `position`, or a `for`, a session of empty lines takes twice the time.
    while i < count {
        if bytes[i] == separator {
            return i;
        }
        i += 1;
    }
    i
}

// The most bytes of a line that are looked at: one more than a line may have.
const LOOKED: usize = 81;

// The first bytes of a line that is not whole yet: as many as are looked at. There is room for a line feed behind them. (An array and a count, since
// nothing here allocates; any contents will do, so no invariant ties them.)
#[derive(Clone, Copy)]
pub struct Reader {
    pub kept: [u8; 82],
    pub count: usize,
}

// No byte of a line yet.
pub fn no_line() -> Reader
    ensures { Holds result [] }
{
    Reader {
        kept: [0; 82],
        count: 0,
    }
}

// The line with more bytes.
pub fn keep(reader: Reader, bytes: &[u8]) -> Reader
    ensures { Extends reader bytes.now result }
{
    let mut kept = reader.kept;
    let count = reader.count;
    if LOOKED <= count {
        return reader;
    }
    let more = bytes.len().min(LOOKED - count);
    kept[count..count + more].copy_from_slice(&bytes[..more]);
    Reader {
        kept,
        count: count + more,
    }
}

// The line with its line feed.
pub fn ended(reader: Reader) -> Reader
    ensures { Ended reader result }
{
    let mut kept = reader.kept;
    let count = reader.count;
    if LOOKED < count {
        return Reader { kept, count: 0 };
    }
    kept[count] = b'\n';
    Reader {
        kept,
        count: count + 1,
    }
}
