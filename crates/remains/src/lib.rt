// The ticks remaining of each vertex.
#![tactic(auto)]

ghost use Rattle.std.specs.Prelude.{◌≡◌, true, not, ◌&&◌, ℕ, ◌+◌, ◌≤◌, ◌<◌, min, eqb, leb, get_or, length};
ghost use Rattle.model.specs.Places.{pick, every, sum, table};
ghost use Rattle.vset.specs.Members.{is_in, Members};
ghost use Rattle.remains.specs.Remains.{TOP, lowered, LeastFrom, no_more, place};

use vset::Vset;

// The highest number. It stands for the fewest ticks left where there is nobody.
pub const TOP: u32 = 4294967295;

// The lesser of the two, or a where b does not count. A loop that calls this has no branch of its own.
fn lesser_if(a: u32, b: u32, on: bool) -> u32
    ensures { result ≡ pick on (min a b) a }
{
    if on { a.min(b) } else { a }
}

// The fewest ticks left of a vertex in `on`, or `top` where nobody there has as few.
pub fn least(left: &[u32; 128], on: Vset, top: u32) -> u32
    ensures { LeastFrom (place left.now) (is_in on) top result }
{
    let mut best = top;
    let mut rest = on;
    while !vset::is_empty(rest) {
        let next = vset::next(rest);
        let v = next.v;
        best = best.min(left[v]);
        rest = next.rest;
    }
    best
}

// Of those that ran: who has no ticks left, and the fewest that another has left, or TOP where there is no other.
#[derive(Clone, Copy)]
pub struct Spent {
    pub over: Vset,
    pub least: u32,
}

// d ticks less for each vertex in `on`, where they stand.
pub fn lower(left: &mut [u32; 128], on: Vset, d: u32) -> Spent
    requires left_len { length left.old ≡ 128 }
    requires by_index { (v : ℕ) → is_in on v ≡ true → d ≤ get_or left.old v 0 }
    ensures left_after { left.new ≡ table (lowered left.old (is_in on) d) 128 }
    ensures members { Members result.over (λ v. is_in on v && eqb (get_or left.new v 0) 0) }
    ensures least_from { LeastFrom (place left.new) (λ v. is_in on v && not (eqb (get_or left.new v 0) 0)) TOP result.least }
{
    let mut over = vset::none();
    let mut least: u32 = TOP;
    let mut rest = on;
    while !vset::is_empty(rest) {
        let next = vset::next(rest);
        let v = next.v;
        let more = left[v] - d;
        left[v] = more;
        over = vset::with_if(over, v, more == 0);
        least = lesser_if(least, more, more != 0);
        rest = next.rest;
    }
    Spent { over, least }
}

// Whether no remainder exceeds its WCET.
pub fn within(left: [u32; 128], wcet: [u32; 128]) -> bool
    ensures { result ≡ every (no_more left wcet) 128 }
{
    let mut ok = true;
    for (v, ticks) in left.iter().enumerate() {
        ok = ok & (*ticks <= wcet[v]);
    }
    ok
}

// All remainders. They are below 2^32 each, so that the sum is far below 2^64.
pub fn total(left: [u32; 128], n: usize) -> u64
    requires { n ≤ 128 }
    ensures { result ≡ sum (place left) n }
{
    let mut got = 0u64;
    for ticks in &left[..n] {
        got += *ticks as u64;
    }
    got
}

// Whether the instant plus what remains is at most `most`, for any instant: the sum itself is not taken.
pub fn in_time(instant: u64, rest: u64, most: u64) -> bool
    ensures { result ≡ leb (instant + rest) most }
{
    rest <= most && instant <= most - rest
}
