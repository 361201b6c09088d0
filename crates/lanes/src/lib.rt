// Which core each stretch of a log in form runs on, in one pass over its records. What the pass keeps are the vertices that have a core, and
// the core that each got last. Whether a vertex that stops runs on is looked up among the records of the same instant.
#![tactic(auto)]

ghost use Rattle.std.specs.Prelude.{◌≡◌, not, ◌++◌, ℕ, ◌+◌, ◌≤◌, ◌<◌, length, get_or, drop};
ghost use Rattle.model.specs.Places.{first};
ghost use Rattle.graph.specs.File.{records};
ghost use Rattle.vset.specs.Members.{is_in, Members};
ghost use Rattle.recorded.specs.Log.{who, InForm};
ghost use Rattle.lanes.specs.Lanes.{runs_on_of, has_core, taken, core_of, lanes_of};
ghost use Rattle.lanes.specs.Passing.{listed, Lists, Got};

use vset::Vset;

// Whether the vertex of record `k` starts again at the same instant. Records of a later instant need not be looked at.
fn runs_on(log: &[u8], n: usize, k: usize) -> bool
    requires { (k < records log.now) × (n ≤ 128) × InForm n log.now }
    ensures { result ≡ runs_on_of log.now k }
{
    let v = records::byte(log, k, 1);
    let t = records::word(log, k);
    for i in k + 1..log.len() / 8 {
        if records::word(log, i) != t {
            return false;
        }
        if formed::starts(log, i) & (records::byte(log, i, 1) == v) {
            return true;
        }
    }
    false
}

// Who has a core after one record more.
fn having(log: &[u8], n: usize, k: usize, held: Vset) -> Vset
    requires k_bound { (k < records log.now) × (n ≤ 128) × InForm n log.now }
    requires members { Members held (has_core log.now k) }
    ensures { Members result (has_core log.now (k + 1)) }
{
    let v = records::byte(log, k, 1);
    if formed::starts(log, k) {
        return vset::with(held, v);
    }
    formed::switched(held, v, runs_on(log, n, k))
}

// The cores of kind `s` that are not free.
fn busy(kind: &[u8; 128], core: &[u8; 128], n: usize, held: Vset, s: u8) -> Vset
    requires { (n ≤ 128) × ((v : ℕ) → get_or core.now v 0 ≤ 16) }
    ensures { Members result (taken (is_in held) (listed core.now) (listed kind.now) n s) }
{
    let mut got = vset::none();
    for u in 0..n {
        got = vset::with_if(got, core[u] as usize, vset::test(held, u) & (kind[u] == s));
    }
    got
}

// The lowest of `m` cores that is free, or `m`: a number and not an Option, since `core_of` (specs/Lanes) takes it as it is.
fn lowest_free(busy: Vset, m: usize) -> usize
    requires { m ≤ 16 }
    ensures { (result ≡ first (λ j. not (is_in busy j)) m) × (result ≤ 16) }
{
    for j in 0..m {
        if !vset::test(busy, j) {
            return j;
        }
    }
    m
}

// The core of the vertex of record `k`.
fn lane(
    log: &[u8],
    n: usize,
    k: usize,
    kind: &[u8; 128],
    cores: &[u8; 10],
    core: &[u8; 128],
    held: Vset,
) -> u8
    requires k_bound { (k < records log.now) × Lists n log.now kind.now cores.now }
    requires members { Members held (has_core log.now k) × Got n log.now kind.now cores.now k core.now }
    ensures { (result ≡ core_of n log.now (listed kind.now) (listed cores.now) (k + 1) (who log.now k)) × (result ≤ 16) }
{
    let v = records::byte(log, k, 1);
    if formed::starts(log, k) & !vset::test(held, v) {
        let s = kind[v];
        let m = cores[s as usize] as usize;
        return lowest_free(busy(kind, core, n, held, s), m) as u8;
    }
    core[v]
}

// A byte for each record: the core of its stretch.
pub fn name(log: &[u8], n: usize, kind: &[u8; 128], cores: &[u8; 10], out: &mut [u8])
    requires lists { Lists n log.now kind.now cores.now }
    requires log_in_bounds { records log.now ≤ length out.old }
    ensures { out.new ≡ lanes_of n log.now (listed kind.now) (listed cores.now) ++ drop (records log.now) out.old }
{
    let mut core = [0u8; 128];
    let mut held = vset::none();
    for k in 0..log.len() / 8 {
        let v = records::byte(log, k, 1);
        let c = lane(log, n, k, kind, cores, &core, held);
        core[v] = c;
        out[k] = c;
        held = having(log, n, k, held);
    }
}
