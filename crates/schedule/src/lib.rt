// The list schedule for callers: a run started, moved on by one tick, or run whole. Every entry takes the graph as its file's bytes
// and says no with 1 to 11 as the reader does, before any other number.
#![tactic(auto)]

ghost use Rattle.std.specs.Prelude.{◌≡◌, length};
ghost use Rattle.reader.specs.Laid.{Usable};
ghost use Rattle.schedule.specs.Start.{started, start_of};
ghost use Rattle.schedule.specs.Tick.{tick_on_of, tick_of};
ghost use Rattle.schedule.specs.Whole.{play_on_of, play_of, filled_beside, finishes_of};

use graph::Refusal;
use reader::Laid;
use tick::{Run, Step, Ticked};
use units::Ticks;

// The record at instant 0.
pub fn start(file: &[u8], times: &[u32]) -> Result<Run, Refusal>
    ensures { started result ≡ start_of file.now times.now }
{
    let mut laid = Laid::blank();
    reader::take_rows(file, &mut laid)?;
    let g = &laid.graph;
    times::judge(g.n, &g.wcet, times)?;
    Ok(times::begun(g.n, &laid.pred, &g.edge, &laid.starts, times))
}

// A record that does not suit the graph says no with 16. A refused tick hands back the record it was given.
fn tick_on(laid: &Laid, run: Run) -> Ticked
    requires { Usable laid.now }
    ensures { result ≡ tick_on_of laid.now.graph run }
{
    let g = &laid.graph;
    let words = choice::of_kinds(&g.kind, g.n);
    if tick::suits(g.kinds, g.n, &g.cores, &words, &g.wcet, &laid.pred, run) {
        run.tick(g.kinds, &g.cores, &words, &g.edge, &laid.starts)
    } else {
        Ticked {
            report: Err(Refusal::whole(16)),
            run,
        }
    }
}

pub fn tick(run: Run, file: &[u8]) -> Ticked
    ensures { result ≡ tick_of file.now run }
{
    let mut laid = Laid::blank();
    match reader::take_rows(file, &mut laid) {
        Ok(()) => tick_on(&laid, run),
        Err(refusal) => Ticked {
            report: Err(refusal),
            run,
        },
    }
}

fn play_on(laid: &Laid, times: &[u32], finishes: &mut [u32]) -> Result<Ticks, Refusal>
    requires { Usable laid.now }
    ensures { (result ≡ play_on_of laid.now.graph times.now (length finishes.old)) × (finishes.new ≡ filled_beside result laid.now.graph times.now finishes.old) }
{
    let g = &laid.graph;
    times::judge(g.n, &g.wcet, times)?;
    if finishes.len() < g.n {
        return Err(Refusal::whole(15));
    }
    let begun = times::begun(g.n, &laid.pred, &g.edge, &laid.starts, times);
    let done = leaps::play(
        g.kinds,
        g.n,
        &g.cores,
        &g.kind,
        &g.edge,
        &laid.starts,
        begun,
    );
    lent::hand_over(&done.finishes[..g.n], finishes);
    Ok(Ticks(done.instant))
}

// A whole run: each vertex's finish instant into the list that the caller lends, and the finish.
pub fn run(file: &[u8], times: &[u32], finishes: &mut [u32]) -> Result<Ticks, Refusal>
    ensures { (result ≡ play_of file.now times.now (length finishes.old)) × (finishes.new ≡ finishes_of file.now times.now finishes.old) }
{
    let mut laid = Laid::blank();
    reader::take_rows(file, &mut laid)?;
    play_on(&laid, times, finishes)
}

// The caller's record moves on by one tick where it stands. On a refusal it holds what it held: that is the record that a refused
// tick hands back.
pub fn tick_in_place(run: &mut Run, file: &[u8]) -> Result<Step, Refusal>
    ensures { (run.new ≡ (tick_of file.now run.old).run) × (result ≡ (tick_of file.now run.old).report) }
{
    let old = *run;
    let ticked = tick(old, file);
    let next = ticked.run;
    *run = next;
    ticked.report
}

// A caller with a record of its own: it lends the record, and hands it back by value. For every other caller.
pub fn ticked_in_place(run: Run, file: &[u8]) -> Ticked
    ensures { result ≡ tick_of file.now run }
{
    let mut own = run;
    let report = tick_in_place(&mut own, file);
    Ticked { report, run: own }
}
