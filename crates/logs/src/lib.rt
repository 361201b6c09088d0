// The log of a run, for callers: the list schedule with the given times, as records of starts and stops. A vertex that has a time runs in the
// ticks before its finish instant, as many as its time says, so that the finish instants of a run tell every record.
#![tactic(auto)]

ghost use Rattle.std.specs.Prelude.{◌≡◌, length};
ghost use Rattle.reader.specs.Laid.{Usable};
ghost use Rattle.writer.specs.Write.{room_by};
ghost use Rattle.logs.specs.Answers.{logged_on, logged_of, log_for, log_room};

use graph::Refusal;
use reader::Laid;

mod pairs; // pairs.rt: the keys of the records, two of each vertex that has a time
mod lent; // lent.rt: the records, handed over to the caller's room

fn log_on(laid: &Laid, times: &[u32], out: &mut [u8]) -> Result<usize, Refusal>
    requires { Usable laid.now }
    ensures { (result ≡ logged_on laid.now.graph times.now (length out.old)) × (out.new ≡ room_by result (log_for laid.now.graph times.now) out.old) }
{
    let g = &laid.graph;
    times::judge(g.n, &g.wcet, times)?;
    let begun = times::begun(g.n, &laid.pred, &g.edge, &laid.starts, times);
    let done = leaps::play(
        g.kinds,
        g.n,
        &g.cores,
        &g.kind,
        &g.edge,
        &laid.starts,
        begun,
    );
    let mut keys = [0u64; 256];
    let m = pairs::gather(times, g.n, &done.finishes, &mut keys);
    sorting::sort(&mut keys, m);
    let size = 8 * m;
    if out.len() < size {
        return Err(Refusal::whole(15));
    }
    lent::hand_over(&keys, m, out);
    Ok(size)
}

// The log of the run with these times to the front of `out`, and its length in bytes.
pub fn log(file: &[u8], times: &[u32], out: &mut [u8]) -> Result<usize, Refusal>
    ensures { (result ≡ logged_of file.now times.now (length out.old)) × (out.new ≡ log_room file.now times.now out.old) }
{
    let mut laid = Laid::blank();
    reader::take_rows(file, &mut laid)?;
    log_on(&laid, times, out)
}
