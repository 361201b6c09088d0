// What a vertex adds to a path.
ghost use Rattle.std.specs.Prelude.{◌≡◌, ℕ, ◌≤◌, ◌<◌, get_or};
ghost use Rattle.vset.specs.Members.{is_in};
ghost use Rattle.visit.specs.Cells.{total_of, Opened};

use crate::cell::Cell;
use vset::Vset;

// The WCETs of a set added up, member by member.
fn each(wcet: &[u32; 128], s: Vset) -> u64
    requires { (v : ℕ) → get_or wcet.now v 0 ≤ 1000000 }
    ensures { result ≡ total_of wcet.now (is_in s) }
{
    let mut rest = s;
    let mut total: u64 = 0;
    while !vset::is_empty(rest) {
        let next = vset::next(rest);
        let w = next.v;
        total = total + wcet[w] as u64;
        rest = next.rest;
    }
    total
}

// The same, word by word: where one of the words is known to be 0, the compiler leaves out the test of it for each member.
fn ticks(wcet: &[u32; 128], s: Vset) -> u64
    requires { (v : ℕ) → get_or wcet.now v 0 ≤ 1000000 }
    ensures { result ≡ total_of wcet.now (is_in s) }
{
    let low = Vset { lo: s.lo, hi: 0 };
    let high = Vset { lo: 0, hi: s.hi };
    each(wcet, low) + each(wcet, high)
}

// The cell of v after a path that has `beside` beside it and the value `value`: v adds its WCET, and its share of the WCETs of those parallel to it
// that were not beside the path yet.
pub(crate) fn opened(
    rows: &[[u64; 2]; 128],
    kind: &[u8; 128],
    wcet: &[u32; 128],
    share: &[u64; 10],
    v: usize,
    base: u64,
    beside: Vset,
    value: u64,
) -> Cell
    requires v_bound { (v < 128) × (get_or kind.now v 0 < 10) × (get_or share.now (get_or kind.now v 0) 0 ≤ 720720) }
    requires by_index { (w : ℕ) → get_or wcet.now w 0 ≤ 1000000 }
    requires value_bound { value ≤ 18000000000000000000 }
    ensures { Opened rows.now kind.now wcet.now share.now v base beside value result }
{
    let row = sets::row(rows, v);
    let fresh = ticks(wcet, vset::minus(row, beside));
    let own = wcet[v] as u64 * 720720;
    let rate = share[kind[v] as usize];
    let more = vset::either(beside, row);
    Cell {
        v,
        base,
        beside: more,
        value: value + (own + fresh * rate),
    }
}
