// Numbers: what all arithmetic here is made of, and written bits as binary digits. The functions with a `requires` are called by our own
// crates alone, which test what it asks.
#![tactic(auto)]

ghost use Rattle.std.specs.Prelude.{◌≡◌};
ghost use Prim.Native.Nat.{◌<◌, ◌^◌};
ghost use Rattle.numbers.specs.Digits.{Ends, range_of, set_at, newest_bit, bit, unset_at};

// What a digit stands for.
pub fn power_of_two(q: u32) -> u32
    requires { q < 32 }
    ensures { (result ≡ 2 ^ q) × (0 < result) }
{
    1u32 << q
}

// The digits of x from lo on and below hi, all others cleared.
pub fn range(x: u32, lo: u32, hi: u32) -> u32
    requires { Ends lo hi }
    ensures { result ≡ range_of x lo hi }
{
    let top = power_of_two(hi);
    let low = power_of_two(lo);
    x % top / low * low
}

// x with digit p set.
pub fn with_bit(x: u32, p: u32) -> u32
    requires { (x < 65536) × (p < 16) }
    ensures { result ≡ set_at x p }
{
    let here = power_of_two(p);
    let above = power_of_two(p + 1);
    x / above * above + here + x % here
}

// x with digit p cleared.
pub fn without_bit(x: u32, p: u32) -> u32
    requires { (x < 65536) × (p < 16) }
    ensures { (result ≡ unset_at x p) × (result < 65536) }
{
    let here = power_of_two(p);
    let above = power_of_two(p + 1);
    x / above * above + x % here
}

// Whether digit p is set.
pub fn is_set(x: u32, p: u32) -> bool
    requires { p < 32 }
    ensures { result ≡ bit x p }
{
    x / power_of_two(p) % 2 == 1
}

// The highest set digit of x from lo on and below hi, if one is set, by the leading zeros of what is left of x.
pub fn newest_bit(x: u32, lo: u32, hi: u32) -> Option<u32>
    requires { Ends lo hi }
    ensures { result ≡ newest_bit x lo hi }
{
    let top = power_of_two(hi);
    let low = power_of_two(lo);
    let y = x % top;
    if y < low {
        return None;
    }
    Some(31 - u32::leading_zeros(y))
}
