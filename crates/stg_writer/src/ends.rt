// Whether a graph has other ends than a text can say: its entry is the first vertex, its exit the last, and neither has a time.
ghost use Rattle.std.specs.Prelude.{◌≡◌, ◌≤◌, ◌<◌};
ghost use Rattle.model.specs.Places.{any};
ghost use Rattle.stg_writer.specs.Before.{other_end_of, ends_other};

use vset::Vset;

// Whether v is another source than the first vertex, or another sink than the last.
fn other_end(n: usize, before: &[[u64; 2]; 128], some: Vset, v: usize) -> bool
    requires { (n ≤ 128) × (v < n) }
    ensures { result ≡ other_end_of n before.now some v }
{
    let set = sets::row(before, v);
    let source = vset::is_empty(set);
    let follows = vset::test(some, v);
    ((v != 0) & source) | ((v != n - 1) & !follows)
}

fn any_other(n: usize, before: &[[u64; 2]; 128], some: Vset) -> bool
    requires { n ≤ 128 }
    ensures { result ≡ any (other_end_of n before.now some) n }
{
    for v in 0..n {
        if other_end(n, before, some, v) {
            return true;
        }
    }
    false
}

pub(crate) fn other_ends(n: usize, before: &[[u64; 2]; 128], some: Vset, wcet: &[u32; 128]) -> bool
    requires { n ≤ 128 }
    ensures { result ≡ ends_other n before.now some wcet.now }
{
    if n < 3 {
        return true;
    }
    if any_other(n, before, some) {
        return true;
    }
    (0 < wcet[0]) | (0 < wcet[n - 1])
}
