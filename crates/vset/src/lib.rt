#![tactic(auto)]

ghost use Rattle.std.specs.Prelude.{◌≡◌, true, false, not, ◌&&◌, ◌||◌, ◌<◌, eqb, ltb};
ghost use Rattle.model.specs.Places.{count, first, any};
ghost use Rattle.vset.specs.Members.{is_in, Members};

// A set of numbers below 128: number v is bit v mod 64 of word v / 64.
#[repr(C)]
#[derive(Clone, Copy)]
pub struct Vset {
    pub lo: u64,
    pub hi: u64,
}

pub fn none() -> Vset
    ensures { Members result (λ k. false) }
{
    Vset { lo: 0, hi: 0 }
}

// Whether i is a member.
pub fn test(s: Vset, i: usize) -> bool
    requires { i < 128 }
    ensures { result ≡ is_in s i }
{
    if i < 64 {
        (s.lo >> i) % 2 == 1
    } else {
        (s.hi >> (i - 64)) % 2 == 1
    }
}

pub fn with(s: Vset, i: usize) -> Vset
    requires { i < 128 }
    ensures { Members result (λ k. is_in s k || eqb k i) }
{
    if i < 64 {
        Vset {
            lo: s.lo | (1u64 << i),
            hi: s.hi,
        }
    } else {
        Vset {
            lo: s.lo,
            hi: s.hi | (1u64 << (i - 64)),
        }
    }
}

// A loop that gathers the numbers that pass a test calls this, and has no branch of its own.
pub fn with_if(s: Vset, i: usize, on: bool) -> Vset
    requires { i < 128 }
    ensures { Members result (λ k. is_in s k || (on && eqb k i)) }
{
    if on { with(s, i) } else { s }
}

pub fn without(s: Vset, i: usize) -> Vset
    requires { i < 128 }
    ensures { Members result (λ k. is_in s k && not (eqb k i)) }
{
    if i < 64 {
        Vset {
            lo: s.lo & !(1u64 << i),
            hi: s.hi,
        }
    } else {
        Vset {
            lo: s.lo,
            hi: s.hi & !(1u64 << (i - 64)),
        }
    }
}

pub fn both(a: Vset, b: Vset) -> Vset
    ensures { Members result (λ k. is_in a k && is_in b k) }
{
    Vset {
        lo: a.lo & b.lo,
        hi: a.hi & b.hi,
    }
}

pub fn either(a: Vset, b: Vset) -> Vset
    ensures { Members result (λ k. is_in a k || is_in b k) }
{
    Vset {
        lo: a.lo | b.lo,
        hi: a.hi | b.hi,
    }
}

pub fn minus(a: Vset, b: Vset) -> Vset
    ensures { Members result (λ k. is_in a k && not (is_in b k)) }
{
    Vset {
        lo: a.lo & !b.lo,
        hi: a.hi & !b.hi,
    }
}

pub fn is_empty(s: Vset) -> bool
    ensures { result ≡ not (any (is_in s) 128) }
{
    (s.lo == 0) & (s.hi == 0)
}

pub fn size(s: Vset) -> u32
    ensures { result ≡ count (is_in s) 128 }
{
    u64::count_ones(s.lo) + u64::count_ones(s.hi)
}

// The lowest member, or 128 where there is none: an empty word has 64 trailing zeros.
pub fn lowest(s: Vset) -> usize
    ensures { result ≡ first (is_in s) 128 }
{
    if s.lo == 0 {
        u64::trailing_zeros(s.hi) as usize + 64
    } else {
        u64::trailing_zeros(s.lo) as usize
    }
}

// The lowest member of a set that has one, and the others. A loop over a set takes its members so, one by one: a word less 1 differs
// from the word in its lowest 1 and the zeros below that.
#[derive(Clone, Copy)]
pub struct Taken {
    pub v: usize,
    pub rest: Vset,
}

pub fn next(s: Vset) -> Taken
    requires { any (is_in s) 128 ≡ true }
    ensures v_value { result.v ≡ first (is_in s) 128 }
    ensures members { Members result.rest (λ k. is_in s k && not (eqb k result.v)) }
{
    if s.lo != 0 {
        Taken {
            v: u64::trailing_zeros(s.lo) as usize,
            rest: Vset {
                lo: s.lo & (s.lo - 1),
                hi: s.hi,
            },
        }
    } else {
        Taken {
            v: u64::trailing_zeros(s.hi) as usize + 64,
            rest: Vset {
                lo: s.lo,
                hi: s.hi & (s.hi - 1),
            },
        }
    }
}

// The first n members, in ascending order: those with fewer than n members below them.
pub fn first(s: Vset, n: u32) -> Vset
    ensures { Members result (λ k. is_in s k && ltb (count (is_in s) k) n) }
{
    let mut got = none();
    let mut rest = s;
    for j in 0..n {
        if is_empty(rest) {
            return got;
        }
        let t = lowest(rest);
        got = with(got, t);
        rest = without(rest, t);
    }
    got
}
