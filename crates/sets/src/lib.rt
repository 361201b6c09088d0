// A table with a set for each of the numbers below 128: a row of two words.
#![tactic(auto)]

ghost use Rattle.std.specs.Prelude.{◌≡◌, ◌<◌, set};
ghost use Rattle.sets.specs.Sets.{row_of, words_of, joined};

use vset::Vset;

pub fn row(t: &[[u64; 2]; 128], v: usize) -> Vset
    requires { v < 128 }
    ensures { result ≡ row_of t.now v }
{
    Vset {
        lo: t[v][0],
        hi: t[v][1],
    }
}

pub fn put(t: &mut [[u64; 2]; 128], v: usize, s: Vset)
    requires { v < 128 }
    ensures { t.new ≡ set t.old v (words_of s) }
{
    let lo = s.lo;
    let hi = s.hi;
    t[v] = [lo, hi];
}

// One member more for the set of v.
pub fn join(t: &mut [[u64; 2]; 128], v: usize, k: usize)
    requires { (v < 128) × (k < 128) }
    ensures { t.new ≡ joined t.old v k }
{
    let old = row(t, v);
    put(t, v, vset::with(old, k));
}
