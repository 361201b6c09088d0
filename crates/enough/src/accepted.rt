// The smallest number of cores that is enough for an accepted graph, as it was laid.
ghost use Rattle.std.specs.Prelude.{◌≡◌, true, ◌↔◌, ◌-◌, ◌*◌, ◌≤◌, ◌<◌};
ghost use Rattle.graph.specs.Model.{as_model};
ghost use Rattle.reader.specs.Laid.{Usable};
ghost use Rattle.enough.specs.Fewest.{fewest};
ghost use Rattle.enough.specs.Answers.{Meets, EnoughIn};
ghost use Rattle.enough.specs.Halving.{Between};

use graph::Refusal;
use reader::Laid;
use weights::volume::volume;

// Whether m cores of type s are enough: NEW-B-1 found again, with the one number changed.
fn meets(laid: &Laid, s: usize, m: u8, limit: u32) -> bool
    requires usable { Usable laid.now }
    requires s_lt_kinds { (s < laid.now.graph.kinds) × (1 ≤ m) × (m ≤ 16) }
    ensures { (result ≡ true) ↔ Meets (as_model laid.now.graph) s limit m }
{
    let g = &laid.graph;
    let mut changed = g.cores;
    changed[s] = m;
    let shares = volume(&g.kind, &g.wcet, &changed, g.kinds, g.n);
    let new = bounds::new_of(laid, &changed, shares);
    let ticks = new.ticks();
    ticks.0 <= limit as u64
}

// The smallest number that is enough, or 17 where none is, lies from low to high.
#[derive(Clone, Copy)]
struct Span {
    low: u8,
    high: u8,
}

// More cores never raise NEW-B-1 (order 11). So where the number in the middle is enough no larger one is the smallest; where it is not, no smaller
// one is enough.
fn halved(span: Span, laid: &Laid, s: usize, limit: u32) -> Span
    requires usable { Usable laid.now }
    requires s_lt_kinds { s < laid.now.graph.kinds }
    requires between { Between (as_model laid.now.graph) s limit span.low span.high × (span.low < span.high) }
    ensures between_2 { Between (as_model laid.now.graph) s limit result.low result.high }
    ensures low_bound { 2 * (result.high - result.low) ≤ span.high - span.low }
{
    let low = span.low;
    let high = span.high;
    let m = (low + high) / 2;
    if meets(laid, s, m, limit) {
        return Span { low, high: m };
    }
    Span { low: m + 1, high }
}

// Five numbers at most are tried: 16 numbers halved are 8, 4, 2, 1 and none.
fn smallest(laid: &Laid, s: usize, limit: u32) -> u8
    requires usable { Usable laid.now }
    requires s_lt_kinds { s < laid.now.graph.kinds }
    ensures { Between (as_model laid.now.graph) s limit result result }
{
    let mut span = Span { low: 1, high: 17 };
    while span.low < span.high {
        span = halved(span, laid, s, limit);
    }
    span.low
}

// 25 where the type is not declared, then 26 where none of the sixteen numbers is enough.
pub(crate) fn fewest_of(laid: &Laid, s: u32, limit: u32) -> Result<u8, Refusal>
    requires { Usable laid.now }
    ensures { EnoughIn (as_model laid.now.graph) s limit (fewest result) }
{
    if laid.graph.kinds <= s as usize {
        return Err(Refusal::whole(25));
    }
    let c = smallest(laid, s as usize, limit);
    if 16 < c {
        return Err(Refusal::whole(26));
    }
    Ok(c)
}
