// A number in decimal.
ghost use Rattle.std.specs.Prelude.{◌≡◌, ◌∷◌, ◌+◌, ◌≤◌, ◌<◌, length};
ghost use Rattle.std.proofs.lemmas.List.Edits.{sets};
ghost use Rattle.stg_text.specs.Canonical.{decimal};

// How many digits a number has. No time of an accepted graph has more than seven.
pub(crate) fn width(x: usize) -> usize
    requires { x < 10000000 }
    ensures { (result ≡ length (decimal x)) × (1 ≤ result) × (result ≤ 7) }
{
    if x < 10 {
        return 1;
    }
    if x < 100 {
        return 2;
    }
    if x < 1000 {
        return 3;
    }
    if x < 10000 {
        return 4;
    }
    if x < 100000 {
        return 5;
    }
    if x < 1000000 {
        return 6;
    }
    7
}

// Lays the digits of x from the place `at` on, the last first, and hands back the place past them.
pub(crate) fn put(out: &mut [u8], at: usize, x: usize) -> usize
    requires { (x < 10000000) × (at + length (decimal x) ≤ length out.old) }
    ensures { (result ≡ at + length (decimal x)) × (out.new ≡ sets out.old at (decimal x)) }
{
    let end = at + width(x);
    let mut y = x;
    for k in (at..end).rev() {
        out[k] = b'0' + (y % 10) as u8;
        y /= 10;
    }
    end
}

// The same, with a blank before them.
pub(crate) fn put_field(out: &mut [u8], at: usize, x: usize) -> usize
    requires { (x < 10000000) × (at + length (decimal x) < length out.old) }
    ensures { (result ≡ at + length (32 ∷ decimal x)) × (out.new ≡ sets out.old at (32 ∷ decimal x)) }
{
    out[at] = 32;
    put(out, at + 1, x)
}
