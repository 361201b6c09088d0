// The answers as C sees them: numbers, and structs laid out as C lays them out. An answer begins with `number` and `place`: number 0 is no
// refusal.
#![tactic(auto)]

ghost use Rattle.std.specs.Prelude.{◌≡◌};
ghost use Rattle.graph.specs.Answer.{taken};
ghost use Rattle.graph.specs.File.{no_graph_of};
ghost use Rattle.bounds.specs.Bounded.{bounded};
ghost use Rattle.second.specs.Seconded.{seconded};
ghost use Rattle.enough.specs.Fewest.{fewest};
ghost use Rattle.schedule.specs.Start.{no_run, started};
ghost use Rattle.late.specs.Lateness.{lateness};
ghost use Rattle.codes.specs.Coded.{with_graph, coded_graph_of, coded_count_of, coded_mend_of, coded_bounds_of, coded_second_of, coded_enough_of};
ghost use Rattle.codes.specs.CodedRun.{coded_start_of, coded_report_of, coded_tick_of, coded_finish_of, coded_late_of};

use bounds::BothBounds;
use graph::{Graph, Refusal};
use late::Ending;
use mends::Sizes;
use tick::{Run, Step, Ticked};
use units::{Parts, Ticks};
use vset::Vset;

// The graph of a file; zero throughout beside a refusal.
#[repr(C)]
#[derive(Clone, Copy)]
pub struct PlannerGraph {
    pub number: u32,
    pub place: u32,
    pub graph: Graph,
}

// How many bytes were written, or vertices a path or a graph has; 0 beside a refusal.
#[repr(C)]
#[derive(Clone, Copy)]
pub struct PlannerCount {
    pub number: u32,
    pub place: u32,
    pub count: u64,
}

// How many bytes the mended file and the list of what was done have; both 0 beside a refusal.
#[repr(C)]
#[derive(Clone, Copy)]
pub struct PlannerMended {
    pub number: u32,
    pub place: u32,
    pub file: u64,
    pub list: u64,
}

// Both bounds in parts of a tick, and NEW-B-1 in whole ticks; 0 beside a refusal.
#[repr(C)]
#[derive(Clone, Copy)]
pub struct PlannerBounds {
    pub number: u32,
    pub place: u32,
    pub old: u64,
    pub new: u64,
    pub ticks: u64,
}

// NEW-B-2 in parts of a tick; 0 beside a refusal.
#[repr(C)]
#[derive(Clone, Copy)]
pub struct PlannerSecond {
    pub number: u32,
    pub place: u32,
    pub parts: u64,
}

// The smallest number of cores that is enough; 0 beside a refusal.
#[repr(C)]
#[derive(Clone, Copy)]
pub struct PlannerEnough {
    pub number: u32,
    pub place: u32,
    pub cores: u64,
}

// A run record at instant 0; zero and unmarked throughout beside a refusal.
#[repr(C)]
#[derive(Clone, Copy)]
pub struct PlannerRun {
    pub number: u32,
    pub place: u32,
    pub run: Run,
}

// What a tick reports: `moved` is 1 where the run moved, 0 where it was done or the tick was refused.
#[repr(C)]
#[derive(Clone, Copy)]
pub struct PlannerMoved {
    pub number: u32,
    pub place: u32,
    pub moved: u32,
}

// The same, and the record; the one that was given beside a refusal.
#[repr(C)]
#[derive(Clone, Copy)]
pub struct PlannerTick {
    pub number: u32,
    pub place: u32,
    pub moved: u32,
    pub run: Run,
}

// The finish of a whole run, or of a log; 0 beside a refusal.
#[repr(C)]
#[derive(Clone, Copy)]
pub struct PlannerFinish {
    pub number: u32,
    pub place: u32,
    pub finish: u64,
}

// Whether a run ends by a tick, 1 or 0, and how many ticks of it were played; both 0 beside a refusal.
#[repr(C)]
#[derive(Clone, Copy)]
pub struct PlannerLate {
    pub number: u32,
    pub place: u32,
    pub yes: u64,
    pub played: u64,
}

// What stands beside a refusal.
fn no_graph() -> Graph
    ensures { result ≡ no_graph_of }
{
    Graph {
        kinds: 0,
        n: 0,
        edges: 0,
        cores: [0; 10],
        kind: [0; 128],
        wcet: [0; 128],
        edge: [0; 1024],
    }
}

fn no_run() -> Run
    ensures { result ≡ no_run }
{
    Run {
        n: 0,
        instant: 0,
        left: [0; 128],
        ran: Vset { lo: 0, hi: 0 },
        waiting: [0; 128],
    }
}

// A graph that was laid, or what stands beside a refusal. The function stands by itself on the stack, and the graph is lent: each is 2.8 KB
// of the caller's.
#[inline(never)]
pub fn coded_graph(answer: Result<(), Refusal>, graph: &Graph) -> PlannerGraph
    ensures { result ≡ coded_graph_of (taken (with_graph answer graph.now)) }
{
    match answer {
        Ok(()) => PlannerGraph {
            number: 0,
            place: 0,
            graph: *graph,
        },
        Err(r) => PlannerGraph {
            number: r.number,
            place: r.place,
            graph: no_graph(),
        },
    }
}

// Whatever is counted: the bytes of a file, of a log or of a text, the vertices of a path or the gains.
pub fn coded_count(counted: Result<usize, Refusal>) -> PlannerCount
    ensures { result ≡ coded_count_of counted }
{
    match counted {
        Ok(n) => PlannerCount {
            number: 0,
            place: 0,
            count: n as u64,
        },
        Err(r) => PlannerCount {
            number: r.number,
            place: r.place,
            count: 0,
        },
    }
}

pub fn coded_mend(mended: Result<Sizes, Refusal>) -> PlannerMended
    ensures { result ≡ coded_mend_of mended }
{
    match mended {
        Ok(sizes) => PlannerMended {
            number: 0,
            place: 0,
            file: sizes.file as u64,
            list: sizes.list as u64,
        },
        Err(r) => PlannerMended {
            number: r.number,
            place: r.place,
            file: 0,
            list: 0,
        },
    }
}

pub fn coded_bounds(bounds: Result<BothBounds, Refusal>) -> PlannerBounds
    ensures { result ≡ coded_bounds_of (bounded bounds) }
{
    match bounds {
        Ok(b) => PlannerBounds {
            number: 0,
            place: 0,
            old: b.old.0,
            new: b.new.0,
            ticks: b.ticks.0,
        },
        Err(r) => PlannerBounds {
            number: r.number,
            place: r.place,
            old: 0,
            new: 0,
            ticks: 0,
        },
    }
}

pub fn coded_second(second: Result<Parts, Refusal>) -> PlannerSecond
    ensures { result ≡ coded_second_of (seconded second) }
{
    match second {
        Ok(parts) => PlannerSecond {
            number: 0,
            place: 0,
            parts: parts.0,
        },
        Err(r) => PlannerSecond {
            number: r.number,
            place: r.place,
            parts: 0,
        },
    }
}

pub fn coded_enough(enough: Result<u8, Refusal>) -> PlannerEnough
    ensures { result ≡ coded_enough_of (fewest enough) }
{
    match enough {
        Ok(cores) => PlannerEnough {
            number: 0,
            place: 0,
            cores: cores as u64,
        },
        Err(r) => PlannerEnough {
            number: r.number,
            place: r.place,
            cores: 0,
        },
    }
}

pub fn coded_start(start: Result<Run, Refusal>) -> PlannerRun
    ensures { result ≡ coded_start_of (started start) }
{
    match start {
        Ok(run) => PlannerRun {
            number: 0,
            place: 0,
            run,
        },
        Err(r) => PlannerRun {
            number: r.number,
            place: r.place,
            run: no_run(),
        },
    }
}

pub fn coded_report(report: Result<Step, Refusal>) -> PlannerMoved
    ensures { result ≡ coded_report_of report }
{
    match report {
        Ok(Step::Moved) => PlannerMoved {
            number: 0,
            place: 0,
            moved: 1,
        },
        Ok(Step::Done) => PlannerMoved {
            number: 0,
            place: 0,
            moved: 0,
        },
        Err(r) => PlannerMoved {
            number: r.number,
            place: r.place,
            moved: 0,
        },
    }
}

pub fn coded_tick(ticked: Ticked) -> PlannerTick
    ensures { result ≡ coded_tick_of ticked }
{
    let said = coded_report(ticked.report);
    PlannerTick {
        number: said.number,
        place: said.place,
        moved: said.moved,
        run: ticked.run,
    }
}

pub fn coded_late(late: Result<Ending, Refusal>) -> PlannerLate
    ensures { result ≡ coded_late_of (lateness late) }
{
    match late {
        Ok(ending) => PlannerLate {
            number: 0,
            place: 0,
            yes: u64::from(ending.yes),
            played: ending.played.0,
        },
        Err(r) => PlannerLate {
            number: r.number,
            place: r.place,
            yes: 0,
            played: 0,
        },
    }
}

// The finish of a run, or of a log that is replayed.
pub fn coded_finish(finish: Result<Ticks, Refusal>) -> PlannerFinish
    ensures { result ≡ coded_finish_of finish }
{
    match finish {
        Ok(ticks) => PlannerFinish {
            number: 0,
            place: 0,
            finish: ticks.0,
        },
        Err(r) => PlannerFinish {
            number: r.number,
            place: r.place,
            finish: 0,
        },
    }
}
