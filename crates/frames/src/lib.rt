// Numbers 19, 20 and 22 of a log in form, in one pass over its records. What a pass keeps from record to record are sets: who runs, who
// has ticks left, who stands behind one that has, and who is of a kind with no idle core. A vertex has ticks left as long as it has records
// to come; after its last one it tells its successors, so that each edge is looked at once.
#![tactic(auto)]

ghost use Rattle.std.specs.Prelude.{◌≡◌, true, false, not, ◌&&◌, ◌+◌, ◌*◌, ◌≤◌, ◌<◌, eqb, ltb, get_or, length};
ghost use Rattle.model.specs.Places.{pick, any};
ghost use Rattle.graph.specs.declared.Graph.{Graph};
ghost use Rattle.graph.specs.Model.{as_model};
ghost use Rattle.graph.specs.File.{records};
ghost use Rattle.vset.specs.Members.{is_in, Members};
ghost use Rattle.sets.specs.Sets.{Holds};
ghost use Rattle.rows.specs.Rows.{predecessor};
ghost use Rattle.waiting.specs.Waiting.{edges_by, Layout, Settled};
ghost use Rattle.recorded.specs.Log.{InForm};
ghost use Rattle.formed.specs.Passing.{Lasted};
ghost use Rattle.frames.specs.Frames.{LentOf, Lists, Framed, idles, MovedBy, FaultsBy, PassedBy};

use reader::Laid;
use vset::Vset;

#[derive(Clone, Copy)]
pub struct Frame {
    pub on: Vset,
    pub busy: Vset,
    pub behind: Vset,
    pub full: Vset,
}

// Who has ticks left, and who stands behind one that has.
#[derive(Clone, Copy)]
pub struct Rest {
    pub busy: Vset,
    pub behind: Vset,
}

// The frame after one record more, and whether that record is a start of number 20.
#[derive(Clone, Copy)]
pub struct Moved {
    pub frame: Frame,
    pub crowded: bool,
}

// The first starts of 19 and of 20, and the first instant of 22.
#[derive(Clone, Copy)]
pub struct Faults {
    pub early: Option<usize>,
    pub crowded: Option<usize>,
    pub idle: Option<usize>,
}

// A pass between two records: how it stands, what is found, and the instant of the record before.
#[derive(Clone, Copy)]
pub struct Pass {
    pub frame: Frame,
    pub faults: Faults,
    pub clock: usize,
}

// Those of a kind, in or out.
fn shifted(full: Vset, mine: Vset, in_it: bool) -> Vset
    ensures { Members result (λ v. pick (is_in mine v) in_it (is_in full v)) }
{
    if in_it {
        vset::either(full, mine)
    } else {
        vset::minus(full, mine)
    }
}

// Vertex `v` has no ticks left where its last record is over: it tells its successors, unless it stands behind another itself.
fn ended(
    edge: &[u16; 1024],
    starts: &[u16; 129],
    waiting: &mut [u8; 128],
    busy: Vset,
    behind: Vset,
    v: usize,
    over: bool,
) -> Rest
    requires layout { Layout edge.now starts.now }
    requires settled { Settled edge.now (edges_by starts.now) waiting.old (is_in busy) behind }
    requires v_bound { (v < 128) × (is_in busy v ≡ true) × Members busy (is_in busy) }
    ensures members { Members result.busy (λ u. is_in busy u && not (over && eqb u v)) }
    ensures settled_2 { Settled edge.now (edges_by starts.now) waiting.new (is_in result.busy) result.behind }
{
    if !over {
        return Rest { busy, behind };
    }
    let rest = vset::without(busy, v);
    let done = vset::minus(vset::with(vset::none(), v), behind);
    Rest {
        busy: rest,
        behind: waiting::settle(edge, starts, waiting, rest, behind, done),
    }
}

// One record more.
fn advance(
    log: &[u8],
    laid: &Laid,
    k: usize,
    words: &[u64; 20],
    lasts: &[u16; 128],
    used: &mut [u8; 10],
    waiting: &mut [u8; 128],
    f: Frame,
) -> Moved
    requires lists { Lists laid.now log.now words.now lasts.now }
    requires k_bound { k < records log.now }
    requires framed { Framed laid.now log.now k used.old waiting.old f }
    ensures { MovedBy laid.now log.now k used.new waiting.new result }
{
    let v = records::byte(log, k, 1);
    let start = formed::starts(log, k);
    let s = laid.graph.kind[v] as usize;
    let most = laid.graph.cores[s];
    let many = used[s] + 2 * u8::from(start) - 1;
    used[s] = many;
    let on = formed::switched(f.on, v, start);
    let full = shifted(f.full, choice::set_at(words, s), most <= many);
    let rest = ended(
        &laid.graph.edge,
        &laid.starts,
        waiting,
        f.busy,
        f.behind,
        v,
        lasts[v] as usize == k + 1,
    );
    Moved {
        frame: Frame {
            on,
            busy: rest.busy,
            behind: rest.behind,
            full,
        },
        crowded: start & (most < many),
    }
}

// Whether a vertex that could run does not, and a core of its kind is idle.
fn waits(f: Frame) -> bool
    ensures { result ≡ any (idles f) 128 }
{
    let able = vset::minus(f.busy, f.behind);
    let apart = vset::minus(able, f.on);
    !vset::is_empty(vset::minus(apart, f.full))
}

// The vertices that have a record.
fn with_records(lasts: &[u16; 128]) -> Vset
    requires { length lasts.now ≡ 128 }
    ensures { Members result (λ v. ltb 0 (get_or lasts.now v 0)) }
{
    let mut got = vset::none();
    for (v, last) in lasts.iter().enumerate() {
        got = vset::with_if(got, v, 0 < *last);
    }
    got
}

// One record more: what stands before it tells 19 and 22, what stands after it 20.
fn step(
    log: &[u8],
    laid: &Laid,
    k: usize,
    words: &[u64; 20],
    lasts: &[u16; 128],
    used: &mut [u8; 10],
    waiting: &mut [u8; 128],
    p: Pass,
) -> Pass
    requires lists { Lists laid.now log.now words.now lasts.now }
    requires k_bound { k < records log.now }
    requires passed_by { PassedBy laid.now log.now k used.old waiting.old p }
    ensures { PassedBy laid.now log.now (k + 1) used.new waiting.new result }
{
    let f = p.frame;
    let old = p.faults;
    let v = records::byte(log, k, 1);
    let t = records::word(log, k);
    let blocked = formed::starts(log, k) & vset::test(f.behind, v);
    let waited = waits(f) & (p.clock < t);
    let next = advance(log, laid, k, words, lasts, used, waiting, f);
    Pass {
        frame: next.frame,
        faults: Faults {
            early: old.early.or(blocked.then_some(k)),
            crowded: old.crowded.or(next.crowded.then_some(k)),
            idle: old.idle.or(waited.then_some(p.clock)),
        },
        clock: t,
    }
}

// Before the first record.
fn outset(busy: Vset, behind: Vset) -> Pass
    ensures busy_value { (result.frame.busy ≡ busy) × (result.frame.behind ≡ behind) × Members result.frame.on (λ v. false) × Members result.frame.full (λ v. false) }
    ensures faults_value { (result.faults ≡ record { early = None; crowded = None; idle = None }) × (result.clock ≡ 0) }
{
    let frame = Frame {
        on: vset::none(),
        busy,
        behind,
        full: vset::none(),
    };
    let faults = Faults {
        early: None,
        crowded: None,
        idle: None,
    };
    Pass {
        frame,
        faults,
        clock: 0,
    }
}

// Neither an order of the vertices nor a WCET is looked at, so that nothing is asked of them.
pub fn first_faults(log: &[u8], laid: &Laid, lasts: &[u16; 128]) -> Faults
    requires lent_of { (g : Graph) × LentOf g laid.now × Holds laid.now.pred (predecessor g.edge g.edges) }
    requires in_form { InForm laid.now.graph.n log.now × Lasted log.now (records log.now) lasts.now }
    ensures { (g : Graph) → LentOf g laid.now → FaultsBy (as_model g) log.now (records log.now) result }
{
    let g = &laid.graph;
    let words = choice::of_kinds(&g.kind, g.n);
    let busy = with_records(lasts);
    let begun = waiting::begun(&laid.pred, &g.edge, &laid.starts, g.n, busy);
    let mut waiting = begun.waiting;
    let mut used = [0u8; 10];
    let mut p = outset(busy, begun.behind);
    for k in 0..log.len() / 8 {
        p = step(log, laid, k, &words, lasts, &mut used, &mut waiting, p);
    }
    p.faults
}
