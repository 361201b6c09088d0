// The execution times that a caller gives: judged, and laid in a run record. For accepted graphs: the entries for callers are in
// `schedule`.
#![tactic(auto)]

ghost use Rattle.std.specs.Prelude.{◌≡◌, ◌≤◌, length};
ghost use Rattle.model.specs.Places.{padded};
ghost use Rattle.model.specs.ListSchedule.{begin};
ghost use Rattle.graph.specs.declared.Graph.{Graph};
ghost use Rattle.graph.specs.Model.{as_model};
ghost use Rattle.sets.specs.Sets.{Holds};
ghost use Rattle.rows.specs.Rows.{predecessor};
ghost use Rattle.tick.specs.Run.{record_for};
ghost use Rattle.tick.specs.Lists.{EdgesOf};
ghost use Rattle.times.specs.Times.{times_of, too_long_of, first_of, judge_times};

use graph::Refusal;
use tick::Run;

// The first vertex whose time is above its WCET.
fn first_too_long(wcet: &[u32; 128], times: &[u32]) -> Option<usize>
    requires { length times.now ≤ 128 }
    ensures { result ≡ first_of (too_long_of wcet.now times.now) (length times.now) }
{
    for (v, time) in times.iter().enumerate() {
        if wcet[v] < *time {
            return Some(v);
        }
    }
    None
}

// 13, then 14 at the first vertex whose time is above its WCET.
pub fn judge(n: usize, wcet: &[u32; 128], times: &[u32]) -> Result<(), Refusal>
    requires { n ≤ 128 }
    ensures { (g : Graph) → n ≡ g.n → wcet.now ≡ g.wcet → result ≡ judge_times g times.now }
{
    if times.len() != n {
        return Err(Refusal::whole(13));
    }
    match first_too_long(wcet, times) {
        Some(v) => Err(Refusal {
            number: 14,
            place: v as u32,
        }),
        None => Ok(()),
    }
}

fn laid(n: usize, times: &[u32]) -> [u32; 128]
    requires { (n ≤ 128) × (length times.now ≡ n) }
    ensures { result ≡ padded 128 (times_of times.now) n }
{
    let mut left = [0u32; 128];
    left[..n].copy_from_slice(times);
    left
}

// The record at instant 0: nothing has run, and each vertex waits for its predecessors but for those that are finished at once.
pub fn begun(
    n: usize,
    pred: &[[u64; 2]; 128],
    edge: &[u16; 1024],
    starts: &[u16; 129],
    times: &[u32],
) -> Run
    requires edges_of { (g : Graph) × EdgesOf g n edge.now starts.now × Holds pred.now (predecessor g.edge g.edges) }
    requires times_len { length times.now ≡ n }
    ensures { (g : Graph) → EdgesOf g n edge.now starts.now → result ≡ record_for (as_model g) 0 (begin (times_of times.now)) }
{
    let left = laid(n, times);
    let ran = vset::none();
    let busy = ready::busy(left);
    let begun = waiting::begun(pred, edge, starts, n, busy);
    let waiting = begun.waiting;
    Run {
        n,
        instant: 0,
        left,
        ran,
        waiting,
    }
}
