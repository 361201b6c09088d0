// What the vertices weigh, in one list for each measure. Places from N on are zero.
#![tactic(auto)]

ghost use Rattle.std.specs.Prelude.{◌≡◌, ℕ, ◌<◌, ◌≤◌, get_or};
ghost use Rattle.model.specs.Places.{padded};
ghost use Rattle.weights.specs.Weight.{rate_of, rates_of, weight_by, stages, Small};

use units::Parts;

pub mod volume; // volume.rt: the sum over the kinds, and the most cores of a kind that a vertex has

// Plain WCETs in ticks, or scaled weights in parts.
#[derive(Clone, Copy)]
pub enum Measure {
    Plain,
    Scaled,
}

fn rate(by: Measure, cores: u8) -> u64
    requires { 0 < cores }
    ensures { result ≡ rate_of by cores }
{
    match by {
        Measure::Plain => 1,
        Measure::Scaled => Parts::rest(cores).0,
    }
}

// What a tick weighs on each kind.
fn rates(cores: &[u8; 10], kinds: usize, by: Measure) -> [u64; 10]
    requires kinds_bound { kinds ≤ 10 }
    requires by_index { (s : ℕ) → s < kinds → 0 < get_or cores.now s 0 }
    ensures { result ≡ padded 10 (rates_of by cores.now) kinds }
{
    let mut list = [0u64; 10];
    for s in 0..kinds {
        list[s] = rate(by, cores[s]);
    }
    list
}

pub fn weights<'a>(
    kind: &'a [u8; 128],
    wcet: &'a [u32; 128],
    cores: &'a [u8; 10],
    kinds: usize,
    n: usize,
    by: Measure,
) -> [u64; 128]
    requires { Small (stages kind.now wcet.now cores.now kinds n) }
    ensures { result ≡ padded 128 (weight_by by (stages kind.now wcet.now cores.now kinds n)) n }
{
    let rate = rates(cores, kinds, by);
    let mut list = [0u64; 128];
    for v in 0..n {
        let s = kind[v] as usize;
        list[v] = (wcet[v] as u64) * rate[s];
    }
    list
}
