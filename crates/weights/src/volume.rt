// The sum over the kinds that both bounds have, and the largest core number of a kind that a vertex has.
ghost use Rattle.std.specs.Prelude.{◌≡◌, false, List, ℕ, ◌≤◌, ◌<◌, max, eqb, get_or};
ghost use Rattle.model.specs.Places.{pick, any};
ghost use Rattle.model.specs.Bounds.{vol, volume, most_cores_of};
ghost use Rattle.weights.specs.Weight.{stages, Small};

use units::{Parts, Ticks};

// The WCETs of each kind, added up in one pass.
fn vols<'a>(
    kind: &'a [u8; 128],
    wcet: &'a [u32; 128],
    cores: &'a [u8; 10],
    kinds: usize,
    n: usize,
) -> [u64; 10]
    requires { Small (stages kind.now wcet.now cores.now kinds n) }
    ensures { (s : ℕ) → s < 10 → get_or result s 0 ≡ vol (stages kind.now wcet.now cores.now kinds n) s }
{
    let mut sums = [0u64; 10];
    for v in 0..n {
        let s = kind[v] as usize;
        sums[s] = sums[s] + wcet[v] as u64;
    }
    sums
}

pub fn volume<'a>(
    kind: &'a [u8; 128],
    wcet: &'a [u32; 128],
    cores: &'a [u8; 10],
    kinds: usize,
    n: usize,
) -> Parts
    requires { Small (stages kind.now wcet.now cores.now kinds n) }
    ensures result_value { result.0 ≡ volume (stages kind.now wcet.now cores.now kinds n) }
    ensures result_bound { result.0 ≤ 922521600000000 }
{
    let ticks = vols(kind, wcet, cores, kinds, n);
    let mut total = Parts(0);
    for s in 0..kinds {
        let share = Parts::of_ticks(Ticks(ticks[s])).over(cores[s]);
        total = total.plus(share);
    }
    total
}

// Which kinds at least one vertex has, whatever its WCET.
fn used_kinds(kind: &[u8; 128], n: usize) -> [bool; 10]
    requires n_bound { n ≤ 128 }
    requires by_index { (v : ℕ) → v < n → get_or kind.now v 0 < 10 }
    ensures { (s : ℕ) → s < 10 → get_or result s false ≡ any (λ v. eqb (get_or kind.now v 0) s) n }
{
    let mut used = [false; 10];
    for s in &kind[..n] {
        used[*s as usize] = true;
    }
    used
}

// A kind that is only declared counts as one without cores.
fn counted(used: bool, cores: u8) -> u8
    ensures { result ≡ pick used cores 0 }
{
    if used { cores } else { 0 }
}

// Mmax, which no WCET changes.
pub fn most_cores<'a>(kind: &'a [u8; 128], cores: &'a [u8; 10], kinds: usize, n: usize) -> u8
    requires { (c : List ℕ) × Small (stages kind.now c cores.now kinds n) }
    ensures { (c : List ℕ) → result ≡ most_cores_of (stages kind.now c cores.now kinds n) }
{
    let used = used_kinds(kind, n);
    let mut most: u8 = 0;
    for s in 0..kinds {
        most = most.max(counted(used[s], cores[s]));
    }
    most
}
