// Which of the ready vertices run: those that ran in the tick before, and then the lowest numbered others of each kind, as far as
// its cores go. How many of a kind are ready and which comes first is read from the words masked by kind.
#![tactic(auto)]

ghost use Rattle.std.specs.Prelude.{◌≡◌, ◌&&◌, ℕ, ◌≤◌, ◌<◌, leb, get_or, length};
ghost use Rattle.model.specs.Places.{count};
ghost use Rattle.vset.specs.Members.{is_in, Members};
ghost use Rattle.choice.specs.Choice.{set_at_of, OfKinds, Joined, go_on, starts, chosen_by, fair_by};

use vset::Vset;

// The set of kind k, which stands in two of the words. No table of sets: `tick`, `leaps` and `frames` lend the words.
pub fn set_at(words: &[u64; 20], k: usize) -> Vset
    requires { k < 10 }
    ensures { result ≡ set_at_of words.now k }
{
    Vset {
        lo: words[2 * k],
        hi: words[2 * k + 1],
    }
}

// Vertex v joins the set of its kind.
fn join(words: &mut [u64; 20], kind: u8, v: usize)
    requires words_len { length words.old ≡ 20 }
    requires kind_bound { (kind < 10) × (v < 128) }
    ensures { Joined words.old kind v words.new }
{
    let k = kind as usize;
    let more = vset::with(set_at(words, k), v);
    words[2 * k] = more.lo;
    words[2 * k + 1] = more.hi;
}

// The vertices of each kind among the first n.
pub fn of_kinds(kind: &[u8; 128], n: usize) -> [u64; 20]
    requires n_bound { n ≤ 128 }
    requires by_index { (v : ℕ) → v < n → get_or kind.now v 0 < 10 }
    ensures { OfKinds result kind.now n }
{
    let mut words = [0u64; 20];
    for v in 0..n {
        join(&mut words, kind[v], v);
    }
    words
}

// Of the free vertices in the mask, those that start on the m cores that the vertices that stay leave.
fn started(stay: Vset, free: Vset, mask: Vset, m: u8) -> Vset
    requires { count (λ v. is_in stay v && is_in mask v) 128 ≤ m }
    ensures { Members result (starts (is_in stay) (is_in free) (is_in mask) m) }
{
    let mine = vset::both(free, mask);
    if vset::is_empty(mine) {
        return mine;
    }
    let taken = vset::size(vset::both(stay, mask));
    vset::first(mine, m as u32 - taken)
}

// The vertices that run in the next tick, of every kind.
pub fn chosen(kinds: usize, cores: &[u8; 10], words: &[u64; 20], able: Vset, ran: Vset) -> Vset
    requires kinds_bound { kinds ≤ 10 }
    requires by_index { (k : ℕ) → k < kinds → count (go_on (is_in able) (is_in ran) (is_in (set_at_of words.now k))) 128 ≤ get_or cores.now k 0 }
    ensures { Members result (chosen_by kinds cores.now words.now (is_in able) (is_in ran)) }
{
    let stay = vset::both(able, ran);
    let free = vset::minus(able, ran);
    let mut got = stay;
    for k in 0..kinds {
        got = vset::either(got, started(stay, free, set_at(words, k), cores[k]));
    }
    got
}

// Whether no more vertices in the mask are marked than there are cores for it.
fn few_marked(ran: Vset, mask: Vset, m: u8) -> bool
    ensures { result ≡ leb (count (λ v. is_in ran v && is_in mask v) 128) m }
{
    vset::size(vset::both(ran, mask)) <= m as u32
}

// Whether no more vertices of a kind are marked than it has cores, for every kind.
pub fn fair(kinds: usize, cores: &[u8; 10], words: &[u64; 20], ran: Vset) -> bool
    requires { kinds ≤ 10 }
    ensures { result ≡ fair_by kinds cores.now words.now (is_in ran) }
{
    let mut ok = true;
    for k in 0..kinds {
        ok = ok & few_marked(ran, set_at(words, k), cores[k]);
    }
    ok
}
