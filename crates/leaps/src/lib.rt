// A run by leaps, whole or up to a tick: between two finishes the same vertices run in every tick, so that all those ticks are taken at
// once. The cost does not grow with the execution times: each leap ends the ticks of one vertex at least, but for a last one that is cut
// short. The graph's lists are lent one by one, since a graph by value is copied on its way; what is required and ensured is said of the
// graph that they are.
#![tactic(auto)]

ghost use Rattle.std.specs.Prelude.{◌≡◌, ◌<◌, length, replicate};
ghost use Rattle.model.specs.Places.{count};
ghost use Rattle.graph.specs.declared.Graph.{Graph};
ghost use Rattle.graph.specs.Model.{AcceptedGraph};
ghost use Rattle.vset.specs.Members.{is_in};
ghost use Rattle.remains.specs.Remains.{place};
ghost use Rattle.tick.specs.Run.{left_of};
ghost use Rattle.tick.specs.Lists.{ListsOf, GraphOf};
ghost use Rattle.leaps.specs.Leaps.{Stamped, work_of, Timed, Sound, Leapt, Fresh, Kept, until_of, Stopped, end_of};

use tick::Run;
use vset::Vset;

// A run between two leaps: the instant, the vertices that ran up to it and have ticks left, the fewest that one of these has left, all
// that have ticks left, and those that stand behind them; an unfinished vertex is in either of the last two. Three tables go with it,
// and a leap changes them where they stand: what is left of each vertex and how many unfinished predecessors it waits for, which are those
// of the run record, and the finish instants.
#[derive(Clone, Copy)]
pub struct Moment {
    pub instant: u64,
    pub ran: Vset,
    pub least: u32,
    pub busy: Vset,
    pub behind: Vset,
}

// The end of a run: the finish, and the finish instants.
#[derive(Clone, Copy)]
pub struct Ended {
    pub instant: u64,
    pub finishes: [u32; 128],
}

// The instant for those that are finished now.
fn stamp(finishes: &mut [u32; 128], new: Vset, instant: u32)
    requires { length finishes.old ≡ 128 }
    ensures { Stamped finishes.old (is_in new) instant finishes.new }
{
    let mut rest = new;
    while !vset::is_empty(rest) {
        let next = vset::next(rest);
        let v = next.v;
        finishes[v] = instant;
        rest = next.rest;
    }
}

// As many ticks at once as the vertex that runs with the fewest left has, or as there is room for: of those that go on, that number is
// known from the leap before, so that only those that begin are looked at. Those that have none left then are finished; where the room cuts
// the leap short there are none.
fn leap(
    m: Moment,
    kinds: usize,
    cores: &[u8; 10],
    words: &[u64; 20],
    edge: &[u16; 1024],
    starts: &[u16; 129],
    left: &mut [u32; 128],
    waiting: &mut [u8; 128],
    finishes: &mut [u32; 128],
    room: u32,
) -> Moment
    requires lists_of { (g : Graph) × ListsOf g kinds cores.now words.now edge.now starts.now × Sound g (work_of g m left.old waiting.old finishes.old) }
    requires nonzero { 0 < count (is_in m.busy) 128 }
    requires room_nonzero { 0 < room }
    ensures { (g : Graph) → ListsOf g kinds cores.now words.now edge.now starts.now → Sound g (work_of g m left.old waiting.old finishes.old) → Leapt g room (work_of g m left.old waiting.old finishes.old) (work_of g result left.new waiting.new finishes.new) }
{
    let was_busy = m.busy;
    let was_behind = m.behind;
    let able = vset::minus(was_busy, was_behind);
    let on = choice::chosen(kinds, cores, words, able, m.ran);
    let fewest = remains::least(left, vset::minus(on, m.ran), m.least);
    let d = fewest.min(room);
    let spent = remains::lower(left, on, d);
    let done = spent.over;
    let ran = vset::minus(on, done);
    let busy = vset::minus(was_busy, done);
    let behind = waiting::settle(edge, starts, waiting, busy, was_behind, done);
    let new = vset::minus(
        vset::either(was_busy, was_behind),
        vset::either(busy, behind),
    );
    let instant = m.instant + d as u64;
    stamp(finishes, new, instant as u32);
    Moment {
        instant,
        ran,
        least: spent.least,
        busy,
        behind,
    }
}

// Instant 0. What is finished there has its finish instant already: the table of these begins with zeros.
fn at_start(left: &[u32; 128], waiting: &[u8; 128]) -> Moment
    ensures instant_value { result.instant ≡ 0 }
    ensures kept { (g : Graph) → AcceptedGraph g → Timed g left.now waiting.now → Kept g (place left.now) (work_of g result left.now waiting.now (replicate 128 0)) }
{
    let all = *left;
    let numbers = *waiting;
    let ran = vset::none();
    Moment {
        instant: 0,
        ran,
        least: remains::TOP,
        busy: ready::busy(all),
        behind: waiting::held(numbers),
    }
}

// Leap after leap until no vertex has ticks left or the instant is d: at most N of them. The tables hold what is left of each vertex and the
// numbers of unfinished predecessors at the start, and then at the end.
fn up_to(
    kinds: usize,
    n: usize,
    cores: &[u8; 10],
    kind: &[u8; 128],
    edge: &[u16; 1024],
    starts: &[u16; 129],
    d: u32,
    left: &mut [u32; 128],
    waiting: &mut [u8; 128],
    finishes: &mut [u32; 128],
) -> Moment
    requires graph_of { (g : Graph) × GraphOf g kinds n cores.now kind.now edge.now starts.now × Timed g left.old waiting.old }
    requires finishes_value { finishes.old ≡ replicate 128 0 }
    ensures { (g : Graph) → GraphOf g kinds n cores.now kind.now edge.now starts.now → Timed g left.old waiting.old → Stopped g (place left.old) d result left.new waiting.new finishes.new }
{
    let words = choice::of_kinds(kind, n);
    let mut m = at_start(left, waiting);
    while !vset::is_empty(m.busy) & (m.instant < d as u64) {
        let room = d - m.instant as u32;
        m = leap(
            m, kinds, cores, &words, edge, starts, left, waiting, finishes, room,
        );
    }
    m
}

// The record at tick d, or at the finish where that comes before. Nothing is played past d.
pub fn until(
    kinds: usize,
    n: usize,
    cores: &[u8; 10],
    kind: &[u8; 128],
    edge: &[u16; 1024],
    starts: &[u16; 129],
    run: Run,
    d: u32,
) -> Run
    requires { (g : Graph) × GraphOf g kinds n cores.now kind.now edge.now starts.now × Fresh g run }
    ensures { (g : Graph) → GraphOf g kinds n cores.now kind.now edge.now starts.now → Fresh g run → result ≡ until_of g (left_of run) d }
{
    let mut left = run.left;
    let mut waiting = run.waiting;
    let mut finishes = [0u32; 128];
    let m = up_to(
        kinds,
        n,
        cores,
        kind,
        edge,
        starts,
        d,
        &mut left,
        &mut waiting,
        &mut finishes,
    );
    let ran = m.ran;
    Run {
        n,
        instant: m.instant,
        left,
        ran,
        waiting,
    }
}

// A whole run: no tick is as high as the highest number.
pub fn play(
    kinds: usize,
    n: usize,
    cores: &[u8; 10],
    kind: &[u8; 128],
    edge: &[u16; 1024],
    starts: &[u16; 129],
    run: Run,
) -> Ended
    requires { (g : Graph) × GraphOf g kinds n cores.now kind.now edge.now starts.now × Fresh g run }
    ensures { (g : Graph) → GraphOf g kinds n cores.now kind.now edge.now starts.now → Fresh g run → result ≡ end_of g (left_of run) }
{
    let mut left = run.left;
    let mut waiting = run.waiting;
    let mut finishes = [0u32; 128];
    let m = up_to(
        kinds,
        n,
        cores,
        kind,
        edge,
        starts,
        remains::TOP,
        &mut left,
        &mut waiting,
        &mut finishes,
    );
    Ended {
        instant: m.instant,
        finishes,
    }
}
