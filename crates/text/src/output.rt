// Numbers written in decimal.
ghost use Rattle.std.specs.Prelude.{◌≡◌, ◌+◌, ◌<◌, ◌≤◌, [], ◌∷◌, length};
ghost use Rattle.text.specs.Decimal.{decimal, field};
ghost use Rattle.text.specs.Output.{Wrote};

// How many digits n has in decimal.
fn digit_count(n: u32) -> usize
    requires { 0 < n }
    ensures { result ≡ length (decimal n) }
{
    n.ilog10() as usize + 1
}

// Writes n in decimal from `at` on, a single digit at once, else from its last digit to its first, and returns the
// position after it.
pub fn put_number(out: &mut [u8], at: usize, n: u32) -> usize
    requires { at + length (decimal n) ≤ length out.old }
    ensures { Wrote out.old at (decimal n) out.new result }
{
    if n < 10 {
        out[at] = b'0' + (n as u8);
        return at + 1;
    }
    let end = at + digit_count(n);
    let mut i = end;
    let mut m = n;
    // A `while`, since the value that is left ends it and no count.
    while m >= 10 {
        i -= 1;
        out[i] = b'0' + ((m % 10) as u8);
        m /= 10;
    }
    out[at] = b'0' + (m as u8);
    end
}

pub fn put_byte(out: &mut [u8], at: usize, b: u8) -> usize
    requires { at < length out.old }
    ensures { Wrote out.old at (b ∷ []) out.new result }
{
    out[at] = b;
    at + 1
}

// Writes n and the byte that ends it, a comma or LF.
pub fn put_field(out: &mut [u8], at: usize, n: u32, b: u8) -> usize
    requires { at + length (field n b) ≤ length out.old }
    ensures { Wrote out.old at (field n b) out.new result }
{
    let next = put_number(out, at, n);
    put_byte(out, next, b)
}
