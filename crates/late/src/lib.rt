// Late or not: whether the list schedule with the given times ends by tick d. Where NEW-B-1 is at most d it does whatever the times are,
// and nothing is played; otherwise the run is played by leaps, and no further than d.
#![tactic(auto)]

ghost use Rattle.std.specs.Prelude.{◌≡◌, min, leb, Ok};
ghost use Rattle.graph.specs.Model.{as_model};
ghost use Rattle.reader.specs.Laid.{Usable};
ghost use Rattle.times.specs.Times.{times_of, Fitting};
ghost use Rattle.leaps.specs.Finishes.{finish_of};
ghost use Rattle.late.specs.Lateness.{lateness};
ghost use Rattle.late.specs.Answers.{Told, LateOf};

use graph::Refusal;
use reader::Laid;
use units::Ticks;
use weights::volume::volume;

// Whether the run ends by tick d, and how many ticks of it were played.
#[derive(Clone, Copy)]
pub struct Ending {
    pub yes: bool,
    pub played: Ticks,
}

// The run is played up to tick d: it has ended where nobody has ticks left then.
fn looked_up(laid: &Laid, times: &[u32], d: u32) -> Ending
    requires usable { Usable laid.now }
    requires fitting { Fitting laid.now.graph times.now }
    ensures { (result.yes ≡ leb (finish_of (as_model laid.now.graph) (times_of times.now)) d) × (result.played.0 ≡ min d (finish_of (as_model laid.now.graph) (times_of times.now))) }
{
    let g = &laid.graph;
    let begun = times::begun(g.n, &laid.pred, &g.edge, &laid.starts, times);
    let run = leaps::until(
        g.kinds,
        g.n,
        &g.cores,
        &g.kind,
        &g.edge,
        &laid.starts,
        begun,
        d,
    );
    let yes = remains::total(run.left, g.n) == 0;
    Ending {
        yes,
        played: Ticks(run.instant),
    }
}

// By demand 3 no run ends after NEW-B-1, so that there is nothing to look up where that is at most d. NEW-B-1 is the volume and a path's
// sum: where the volume alone is above d, no path is looked for.
fn decided(laid: &Laid, times: &[u32], d: u32) -> Ending
    requires usable { Usable laid.now }
    requires fitting { Fitting laid.now.graph times.now }
    ensures { Told (as_model laid.now.graph) (times_of times.now) d (lateness (Ok result)) }
{
    let g = &laid.graph;
    let shares = volume(&g.kind, &g.wcet, &g.cores, g.kinds, g.n);
    let least = shares.ticks();
    if least.0 <= d as u64 {
        let new = bounds::new_of(laid, &g.cores, shares);
        let bound = new.ticks();
        if bound.0 <= d as u64 {
            return Ending {
                yes: true,
                played: Ticks(0),
            };
        }
    }
    looked_up(laid, times, d)
}

pub fn late(file: &[u8], times: &[u32], d: u32) -> Result<Ending, Refusal>
    ensures { LateOf file.now times.now d (lateness result) }
{
    let mut laid = Laid::blank();
    reader::take_rows(file, &mut laid)?;
    times::judge(laid.graph.n, &laid.graph.wcet, times)?;
    Ok(decided(&laid, times, d))
}
