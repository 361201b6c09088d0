// Every entry of the planner, its answer as `codes` lays it out for C. `planner_c` exports each of them.
#![tactic(auto)]

ghost use Rattle.std.specs.Prelude.{◌≡◌, length};
ghost use Rattle.graph.specs.Judge.{read_of};
ghost use Rattle.writer.specs.Lists.{lists};
ghost use Rattle.writer.specs.Write.{wrote_of, room_after};
ghost use Rattle.schedule.specs.Start.{start_of};
ghost use Rattle.schedule.specs.Tick.{tick_of};
ghost use Rattle.schedule.specs.Whole.{play_of, finishes_of};
ghost use Rattle.replay.specs.Answers.{replay_of, times_after_of};
ghost use Rattle.logs.specs.Answers.{logged_of, log_room};
ghost use Rattle.mends.specs.Answers.{mend_of, file_after, list_after_of};
ghost use Rattle.stg_text.specs.Answers.{read_stg_of, read_room, write_stg_of, write_room};
ghost use Rattle.codes.specs.Coded.{coded_graph_of, coded_wrote_of, coded_mend_of, BoundsCoded, SecondCoded, EnoughCoded, PathCoded, GainsCoded, AlteredCoded};
ghost use Rattle.codes.specs.CodedRun.{coded_start_of, coded_report_of, coded_tick_of, coded_play_of, coded_replay_of, LateCoded};
ghost use Rattle.planner.specs.Stepped.{coded_step};

use codes::{
    PlannerBounds, PlannerCount, PlannerEnough, PlannerFinish, PlannerGraph, PlannerLate,
    PlannerMended, PlannerMoved, PlannerRun, PlannerSecond, PlannerTick, coded_bounds, coded_count,
    coded_enough, coded_finish, coded_graph, coded_late, coded_mend, coded_report, coded_second,
    coded_start, coded_tick,
};
use reader::Laid;
use tick::Run;

pub fn planner_read(file: &[u8]) -> PlannerGraph
    ensures { result ≡ coded_graph_of (read_of file.now) }
{
    // Not by `reader::read`: its graph would be one more on the caller's stack, beside the laid one and the answer.
    let mut laid = Laid::blank();
    let answer = reader::take_rows(file, &mut laid);
    coded_graph(answer, &laid.graph)
}

pub fn planner_write(
    cores: &[u8],
    kinds: &[u8],
    wcets: &[u32],
    edges: &[u16],
    out: &mut [u8],
) -> PlannerCount
    ensures { (result ≡ coded_wrote_of (wrote_of (lists cores.now kinds.now wcets.now edges.now) (length out.old))) × (out.new ≡ room_after (lists cores.now kinds.now wcets.now edges.now) out.old) }
{
    coded_count(writer::write(cores, kinds, wcets, edges, out))
}

pub fn planner_bounds(file: &[u8]) -> PlannerBounds
    ensures { BoundsCoded file.now result }
{
    coded_bounds(bounds::bounds(file))
}

pub fn planner_second(file: &[u8]) -> PlannerSecond
    ensures { SecondCoded file.now result }
{
    coded_second(second::second(file))
}

pub fn planner_enough(file: &[u8], kind: u32, limit: u32) -> PlannerEnough
    ensures { EnoughCoded file.now kind limit result }
{
    coded_enough(enough::enough(file, kind, limit))
}

pub fn planner_path(file: &[u8], out: &mut [u8]) -> PlannerCount
    ensures { PathCoded file.now out.old result out.new }
{
    coded_count(bounds::path(file, out))
}

pub fn planner_gains(file: &[u8], out: &mut [u64]) -> PlannerCount
    ensures { GainsCoded file.now out.old result out.new }
{
    coded_count(gains::gains(file, out))
}

pub fn planner_gains_altered(file: &[u8], vertex: u32, wcet: u32, out: &mut [u64]) -> PlannerCount
    ensures { AlteredCoded file.now vertex wcet out.old result out.new }
{
    coded_count(gains::gains_altered(file, vertex, wcet, out))
}

pub fn planner_start(file: &[u8], times: &[u32]) -> PlannerRun
    ensures { result ≡ coded_start_of (start_of file.now times.now) }
{
    coded_start(schedule::start(file, times))
}

pub fn planner_tick(run: Run, file: &[u8]) -> PlannerTick
    ensures { result ≡ coded_tick_of (tick_of file.now run) }
{
    coded_tick(schedule::tick(run, file))
}

pub fn planner_run(file: &[u8], times: &[u32], finishes: &mut [u32]) -> PlannerFinish
    ensures { (result ≡ coded_play_of (play_of file.now times.now (length finishes.old))) × (finishes.new ≡ finishes_of file.now times.now finishes.old) }
{
    coded_finish(schedule::run(file, times, finishes))
}

pub fn planner_late(file: &[u8], times: &[u32], d: u32) -> PlannerLate
    ensures { LateCoded file.now times.now d result }
{
    coded_late(late::late(file, times, d))
}

pub fn planner_replay(file: &[u8], log: &[u8], times: &mut [u32]) -> PlannerFinish
    ensures { (result ≡ coded_replay_of (replay_of file.now log.now (length times.old))) × (times.new ≡ times_after_of file.now log.now times.old) }
{
    coded_finish(replay::replay(file, log, times))
}

pub fn planner_log(file: &[u8], times: &[u32], log: &mut [u8]) -> PlannerCount
    ensures { (result ≡ coded_wrote_of (logged_of file.now times.now (length log.old))) × (log.new ≡ log_room file.now times.now log.old) }
{
    coded_count(logs::log(file, times, log))
}

pub fn planner_stg_read(text: &[u8], cores: &[u8], kinds: &[u8], out: &mut [u8]) -> PlannerCount
    ensures { (result ≡ coded_wrote_of (read_stg_of text.now cores.now kinds.now (length out.old))) × (out.new ≡ read_room text.now cores.now kinds.now out.old) }
{
    coded_count(stg::read(text, cores, kinds, out))
}

pub fn planner_stg_write(file: &[u8], out: &mut [u8]) -> PlannerCount
    ensures { (result ≡ coded_wrote_of (write_stg_of file.now (length out.old))) × (out.new ≡ write_room file.now out.old) }
{
    coded_count(stg_writer::write(file, out))
}

pub fn planner_mend(file: &[u8], out: &mut [u8], list: &mut [u8]) -> PlannerMended
    ensures { (result ≡ coded_mend_of (mend_of file.now (length out.old) (length list.old))) × (out.new ≡ file_after file.now out.old list.old) × (list.new ≡ list_after_of file.now out.old list.old) }
{
    coded_mend(mend::mend(file, out, list))
}

// What the entry below stores, and what it hands back.
#[derive(Clone, Copy)]
pub struct Stepped {
    pub said: PlannerMoved,
    pub run: Run,
}

// All of that entry but the loan.
fn step(run: Run, file: &[u8]) -> Stepped
    ensures { result ≡ coded_step (tick_of file.now run) }
{
    let ticked = schedule::tick(run, file);
    let said = coded_report(ticked.report);
    let next = ticked.run;
    Stepped { said, run: next }
}

// The caller's record moves on by one tick where it stands. On a refusal it holds what it held.
pub fn planner_tick_in_place(run: &mut Run, file: &[u8]) -> PlannerMoved
    ensures { (run.new ≡ (tick_of file.now run.old).run) × (result ≡ coded_report_of (tick_of file.now run.old).report) }
{
    let old = *run;
    let stepped = step(old, file);
    *run = stepped.run;
    stepped.said
}
