// A recorded frame: the board's log of which vertex ran when, judged against the graph. A log is passed three times, for 18, for the totals
// and for 19, 20 and 22; the cost grows with its records, not with the instants that they name, and each edge is looked at once.
#![tactic(auto)]

ghost use Rattle.std.specs.Prelude.{◌≡◌, ◌≤◌, ◌<◌, length};
ghost use Rattle.graph.specs.Model.{as_model};
ghost use Rattle.graph.specs.File.{records};
ghost use Rattle.graph.specs.Answer.{Refused};
ghost use Rattle.reader.specs.Laid.{Usable};
ghost use Rattle.recorded.specs.Log.{InForm};
ghost use Rattle.recorded.specs.Recorded.{last_instant};
ghost use Rattle.recorded.specs.Judge.{judge_log};
ghost use Rattle.formed.specs.Passing.{TotalsOf, Lasted};
ghost use Rattle.frames.specs.Frames.{FirstIn};
ghost use Rattle.replay.specs.Answers.{replay_on_of, replay_of, times_beside, times_after_of};
ghost use Rattle.replay.specs.Steps.{above, JudgedBy};

use formed::Spent;
use graph::Refusal;
use reader::Laid;
use units::Ticks;

fn refused(number: u32, place: u32) -> Result<(), Refusal>
    ensures { result ≡ Refused (record { number = number; place = place }) }
{
    Err(Refusal { number, place })
}

// The log's last instant; 0 where it is empty.
fn last(log: &[u8], n: usize) -> usize
    requires { (n ≤ 128) × InForm n log.now }
    ensures { (result ≡ last_instant log.now) × (result < 4294967296) }
{
    let m = log.len() / 8;
    if m == 0 {
        return 0;
    }
    records::word(log, m - 1)
}

// The first of `n` vertices whose total is above its WCET.
fn first_above(wcet: &[u32; 128], totals: &[u32; 128], n: usize) -> Option<usize>
    requires { n ≤ 128 }
    ensures { FirstIn (above wcet.now totals.now) n result }
{
    for v in 0..n {
        if wcet[v] < totals[v] {
            return Some(v);
        }
    }
    None
}

// The numbers from 19 on, of a log in form.
fn ruled(
    log: &[u8],
    laid: &Laid,
    totals: &[u32; 128],
    lasts: &[u16; 128],
    room: usize,
) -> Result<(), Refusal>
    requires usable { Usable laid.now }
    requires in_form { InForm laid.now.graph.n log.now × TotalsOf laid.now.graph.n log.now totals.now × Lasted log.now (records log.now) lasts.now }
    ensures { result ≡ judge_log (as_model laid.now.graph) log.now room }
{
    let g = &laid.graph;
    let found = frames::first_faults(log, laid, lasts);
    if let Some(k) = found.early {
        return refused(19, k as u32);
    }
    if let Some(k) = found.crowded {
        return refused(20, k as u32);
    }
    if let Some(v) = first_above(&g.wcet, totals, g.n) {
        return refused(21, v as u32);
    }
    if let Some(t) = found.idle {
        return refused(22, t as u32);
    }
    if room < g.n {
        return Err(Refusal::whole(15));
    }
    Ok(())
}

// The answer to a log: the totals of the vertices, where it is accepted.
fn judge(log: &[u8], laid: &Laid, room: usize) -> Result<[u32; 128], Refusal>
    requires { Usable laid.now }
    ensures { JudgedBy laid.now.graph log.now room result }
{
    formed::judge(log, laid.graph.n)?;
    let Spent { totals, lasts } = formed::add_up(log, laid.graph.n);
    ruled(log, laid, &totals, &lasts, room)?;
    Ok(totals)
}

fn replay_on(log: &[u8], laid: &Laid, times: &mut [u32]) -> Result<Ticks, Refusal>
    requires { Usable laid.now }
    ensures value { result ≡ replay_on_of laid.now.graph log.now (length times.old) }
    ensures times_after { times.new ≡ times_beside result laid.now.graph log.now times.old }
{
    let totals = judge(log, laid, times.len())?;
    lent::hand_over(&totals[..laid.graph.n], times);
    Ok(Ticks(last(log, laid.graph.n) as u64))
}

// Replays a log: each vertex's execution time into the list that the caller lends, and the finish.
pub fn replay(file: &[u8], log: &[u8], times: &mut [u32]) -> Result<Ticks, Refusal>
    ensures { (result ≡ replay_of file.now log.now (length times.old)) × (times.new ≡ times_after_of file.now log.now times.old) }
{
    let mut laid = Laid::blank();
    reader::take_rows(file, &mut laid)?;
    replay_on(log, &laid, times)
}
