// What C and Rust link: the entries of `planner`, each under its own name and with its own clauses. A list is a pointer and then a length.
// include/planner.h declares all of it.
#![tactic(auto)]

ghost use Rattle.std.specs.Prelude.{◌≡◌, length};
ghost use Rattle.graph.specs.Judge.{read_of};
ghost use Rattle.writer.specs.Lists.{lists};
ghost use Rattle.writer.specs.Write.{wrote_of, room_after};
ghost use Rattle.schedule.specs.Start.{start_of};
ghost use Rattle.schedule.specs.Tick.{tick_of};
ghost use Rattle.schedule.specs.Whole.{play_of, finishes_of};
ghost use Rattle.replay.specs.Answers.{replay_of, times_after_of};
ghost use Rattle.logs.specs.Answers.{logged_of, log_room};
ghost use Rattle.mends.specs.Answers.{mend_of, file_after, list_after_of};
ghost use Rattle.stg_text.specs.Answers.{read_stg_of, read_room, write_stg_of, write_room};
ghost use Rattle.codes.specs.Coded.{coded_graph_of, coded_wrote_of, coded_mend_of, BoundsCoded, SecondCoded, EnoughCoded, PathCoded, GainsCoded, AlteredCoded};
ghost use Rattle.codes.specs.CodedRun.{coded_start_of, coded_report_of, coded_tick_of, coded_play_of, coded_replay_of, LateCoded};

use codes::{
    PlannerBounds, PlannerCount, PlannerEnough, PlannerFinish, PlannerGraph, PlannerLate,
    PlannerMended, PlannerMoved, PlannerRun, PlannerSecond, PlannerTick,
};
use tick::Run;

#[unsafe(no_mangle)]
pub extern "C" fn planner_read(file: &[u8]) -> PlannerGraph
    ensures { result ≡ coded_graph_of (read_of file.now) }
{
    planner::planner_read(file)
}

#[unsafe(no_mangle)]
pub extern "C" fn planner_write(
    cores: &[u8],
    kinds: &[u8],
    wcets: &[u32],
    edges: &[u16],
    out: &mut [u8],
) -> PlannerCount
    ensures { (result ≡ coded_wrote_of (wrote_of (lists cores.now kinds.now wcets.now edges.now) (length out.old))) × (out.new ≡ room_after (lists cores.now kinds.now wcets.now edges.now) out.old) }
{
    planner::planner_write(cores, kinds, wcets, edges, out)
}

#[unsafe(no_mangle)]
pub extern "C" fn planner_bounds(file: &[u8]) -> PlannerBounds
    ensures { BoundsCoded file.now result }
{
    planner::planner_bounds(file)
}

#[unsafe(no_mangle)]
pub extern "C" fn planner_second(file: &[u8]) -> PlannerSecond
    ensures { SecondCoded file.now result }
{
    planner::planner_second(file)
}

#[unsafe(no_mangle)]
pub extern "C" fn planner_enough(file: &[u8], kind: u32, limit: u32) -> PlannerEnough
    ensures { EnoughCoded file.now kind limit result }
{
    planner::planner_enough(file, kind, limit)
}

#[unsafe(no_mangle)]
pub extern "C" fn planner_path(file: &[u8], out: &mut [u8]) -> PlannerCount
    ensures { PathCoded file.now out.old result out.new }
{
    planner::planner_path(file, out)
}

#[unsafe(no_mangle)]
pub extern "C" fn planner_gains(file: &[u8], out: &mut [u64]) -> PlannerCount
    ensures { GainsCoded file.now out.old result out.new }
{
    planner::planner_gains(file, out)
}

#[unsafe(no_mangle)]
pub extern "C" fn planner_gains_altered(
    file: &[u8],
    vertex: u32,
    wcet: u32,
    out: &mut [u64],
) -> PlannerCount
    ensures { AlteredCoded file.now vertex wcet out.old result out.new }
{
    planner::planner_gains_altered(file, vertex, wcet, out)
}

#[unsafe(no_mangle)]
pub extern "C" fn planner_start(file: &[u8], times: &[u32]) -> PlannerRun
    ensures { result ≡ coded_start_of (start_of file.now times.now) }
{
    planner::planner_start(file, times)
}

#[unsafe(no_mangle)]
pub extern "C" fn planner_tick(run: Run, file: &[u8]) -> PlannerTick
    ensures { result ≡ coded_tick_of (tick_of file.now run) }
{
    planner::planner_tick(run, file)
}

#[unsafe(no_mangle)]
pub extern "C" fn planner_run(file: &[u8], times: &[u32], finishes: &mut [u32]) -> PlannerFinish
    ensures { (result ≡ coded_play_of (play_of file.now times.now (length finishes.old))) × (finishes.new ≡ finishes_of file.now times.now finishes.old) }
{
    planner::planner_run(file, times, finishes)
}

#[unsafe(no_mangle)]
pub extern "C" fn planner_late(file: &[u8], times: &[u32], d: u32) -> PlannerLate
    ensures { LateCoded file.now times.now d result }
{
    planner::planner_late(file, times, d)
}

#[unsafe(no_mangle)]
pub extern "C" fn planner_replay(file: &[u8], log: &[u8], times: &mut [u32]) -> PlannerFinish
    ensures { (result ≡ coded_replay_of (replay_of file.now log.now (length times.old))) × (times.new ≡ times_after_of file.now log.now times.old) }
{
    planner::planner_replay(file, log, times)
}

#[unsafe(no_mangle)]
pub extern "C" fn planner_log(file: &[u8], times: &[u32], log: &mut [u8]) -> PlannerCount
    ensures { (result ≡ coded_wrote_of (logged_of file.now times.now (length log.old))) × (log.new ≡ log_room file.now times.now log.old) }
{
    planner::planner_log(file, times, log)
}

#[unsafe(no_mangle)]
pub extern "C" fn planner_stg_read(
    text: &[u8],
    cores: &[u8],
    kinds: &[u8],
    out: &mut [u8],
) -> PlannerCount
    ensures { (result ≡ coded_wrote_of (read_stg_of text.now cores.now kinds.now (length out.old))) × (out.new ≡ read_room text.now cores.now kinds.now out.old) }
{
    planner::planner_stg_read(text, cores, kinds, out)
}

#[unsafe(no_mangle)]
pub extern "C" fn planner_stg_write(file: &[u8], out: &mut [u8]) -> PlannerCount
    ensures { (result ≡ coded_wrote_of (write_stg_of file.now (length out.old))) × (out.new ≡ write_room file.now out.old) }
{
    planner::planner_stg_write(file, out)
}

#[unsafe(no_mangle)]
pub extern "C" fn planner_mend(file: &[u8], out: &mut [u8], list: &mut [u8]) -> PlannerMended
    ensures { (result ≡ coded_mend_of (mend_of file.now (length out.old) (length list.old))) × (out.new ≡ file_after file.now out.old list.old) × (list.new ≡ list_after_of file.now out.old list.old) }
{
    planner::planner_mend(file, out, list)
}

// The caller's record moves on by one tick where it stands. On a refusal it holds what it held.
#[unsafe(no_mangle)]
pub extern "C" fn planner_tick_in_place(run: &mut Run, file: &[u8]) -> PlannerMoved
    ensures { (run.new ≡ (tick_of file.now run.old).run) × (result ≡ coded_report_of (tick_of file.now run.old).report) }
{
    planner::planner_tick_in_place(run, file)
}
