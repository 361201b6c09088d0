// The run record, and one tick of it as a value that is handed back. For accepted graphs, whose lists are lent one by one: the entries for
// callers are in `schedule`.
#![tactic(auto)]

ghost use Rattle.std.specs.Prelude.{◌≡◌, true};
ghost use Rattle.graph.specs.declared.Graph.{Graph};
ghost use Rattle.tick.specs.Run.{ticked_of};
ghost use Rattle.tick.specs.Suits.{suits};
ghost use Rattle.tick.specs.Lists.{ListsOf, TestOf};

use graph::Refusal;
use vset::Vset;

// Document 01's limit for an instant and all that remains from it on.
const MOST: u64 = 128000000;

// N, the instant, the ticks remaining of each vertex, which vertices ran in the last tick and are unfinished, and for each vertex how many of
// its direct predecessors are unfinished. Places from N on are zero and unmarked.
#[repr(C)]
#[derive(Clone, Copy)]
pub struct Run {
    pub n: usize,
    pub instant: u64,
    pub left: [u32; 128],
    pub ran: Vset,
    pub waiting: [u8; 128],
}

#[derive(Clone, Copy)]
pub enum Step {
    Moved,
    Done,
}

#[derive(Clone, Copy)]
pub struct Ticked {
    pub report: Result<Step, Refusal>,
    pub run: Run,
}

impl Run {
    // One tick of the list schedule. A finished run is done and does not move. Whoever ends its ticks tells its successors, so that the
    // numbers are right again; nothing is searched for.
    pub fn tick(
        mut self,
        kinds: usize,
        cores: &[u8; 10],
        words: &[u64; 20],
        edge: &[u16; 1024],
        starts: &[u16; 129],
    ) -> Ticked
        requires { (g : Graph) × ListsOf g kinds cores.now words.now edge.now starts.now × (suits g self ≡ true) }
        ensures { (g : Graph) → ListsOf g kinds cores.now words.now edge.now starts.now → suits g self ≡ true → result ≡ ticked_of g self }
    {
        let mut left = self.left;
        let mut waiting = self.waiting;
        let ran = self.ran;
        let busy = ready::busy(left);
        if vset::is_empty(busy) {
            return Ticked {
                report: Ok(Step::Done),
                run: self,
            };
        }
        let behind = waiting::held(waiting);
        let able = vset::minus(busy, behind);
        let on = choice::chosen(kinds, cores, words, able, ran);
        let spent = remains::lower(&mut left, on, 1);
        let over = spent.over;
        let rest = vset::minus(busy, over);
        waiting::settle(edge, starts, &mut waiting, rest, behind, over);
        self.left = left;
        self.waiting = waiting;
        self.ran = vset::minus(on, over);
        self.instant = self.instant + 1;
        Ticked {
            report: Ok(Step::Moved),
            run: self,
        }
    }
}

// Whether the record suits the graph. The WCETs are zero from N on and no vertex is ready there, so that one test over all places
// tells both what holds below N and that the places from N on are zero, and another that they are unmarked. Their rows are empty too, so
// that numbers that agree with the rows are zero there. Who stands behind another is told by the numbers, which are counted afresh here
// and nowhere else: where they are wrong the record does not suit anyway.
pub fn suits(
    kinds: usize,
    n: usize,
    cores: &[u8; 10],
    words: &[u64; 20],
    wcet: &[u32; 128],
    pred: &[[u64; 2]; 128],
    run: Run,
) -> bool
    requires { (g : Graph) × TestOf g kinds n cores.now words.now wcet.now pred.now }
    ensures { (g : Graph) → TestOf g kinds n cores.now words.now wcet.now pred.now → result ≡ suits g run }
{
    let left = run.left;
    let waiting = run.waiting;
    let ran = run.ran;
    let most = *wcet;
    let busy = ready::busy(left);
    let behind = waiting::held(waiting);
    let able = vset::minus(busy, behind);
    let same = run.n == n;
    let within = remains::within(left, most);
    let timely = remains::in_time(run.instant, remains::total(left, n), MOST);
    let marked = vset::is_empty(vset::minus(ran, able));
    let fair = choice::fair(kinds, cores, words, ran);
    let numbers = waiting::agree(pred, waiting, busy, behind);
    (same & (within & (timely & (marked & fair)))) & numbers
}
