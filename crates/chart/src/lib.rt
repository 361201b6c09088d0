// A picture of a log in form, as SVG: a row for each core, a bar for each stretch that a stage ran, and what the planner says of it. What it looks like is
// in docs/PICTURES.md. Every function that writes answers whether the system took all of it: no contract can say that, or what was written.
#![tactic(auto)]

mod bare;
mod bars;
mod core_rows;
mod heading;
mod legend;
mod lines;
mod stretch;

ghost use Rattle.std.specs.Prelude.{◌<◌};
ghost use Rattle.graph.specs.Model.{AcceptedGraph};
ghost use Rattle.recorded.specs.Log.{InForm};

use board::Names;
use chart_page::axis::Axis;
use chart_page::called::Titles;
use chart_page::page;
use core_rows::Rows;
use graph::{Graph, Refusal};
use stretch::Log;
use vset::Vset;

// What a log is of: a run with each stage at its WCET, one at times that were given, or a frame that a board recorded.
#[derive(Clone, Copy, Debug, PartialEq, Eq)]
pub enum Origin {
    Run,
    Timed,
    Frame,
}

// What is said of a log: what it is of; what it is refused for, if it is; and the bounds in whole ticks.
#[derive(Clone, Copy)]
pub struct Told {
    pub origin: Origin,
    pub refusal: Option<Refusal>,
    pub new: u64,
    pub second: Option<u64>,
}

// What is drawn: the log and its finish, what is said of it, the names, the axis and the rows; the start of the stretch that is shown without a core, if any; the
// stages of the path; and how long each stage ran in all.
#[derive(Clone, Copy)]
pub(crate) struct Drawing<'a> {
    pub titles: Titles<'a>,
    pub log: Log<'a>,
    pub finish: u64,
    pub told: Told,
    pub axis: Axis,
    pub rows: Rows<'a>,
    pub bare: Option<usize>,
    pub path: Vset,
    pub totals: &'a [u32; 128],
}

// The path's stages, whose numbers are below 128.
fn members(path: &[u8]) -> Vset {
    let mut set = vset::none();
    for v in path {
        set = vset::with(set, (*v % 128) as usize);
    }
    set
}

impl Told {
    // The ticks that have to be seen. A log that is refused is no schedule that the bounds are about.
    fn need(self, finish: u64) -> u64 {
        if self.refusal.is_some() {
            return finish;
        }
        finish.max(self.new).max(self.second.unwrap_or(0))
    }
}

impl Drawing<'_> {
    // What stands on the page around the bars, from the top to the picture that has them.
    fn above(&self, height: u64) -> bool
        requires { height < 60000 }
    {
        let first = page::begin(height + 168) & self.heading();
        let under = self.rows.all(self.titles) & self.axis.grid(height + 104);
        first & under & self.axis.begin(height)
    }

    fn below(&self, height: u64) -> bool
        requires { height < 60000 }
    {
        self.labels() & legend::all(self.told, height + 140) & page::end()
    }

    // The bars and the lines; and on them, so that no bar hides a name, the names.
    fn inside(&self) -> bool {
        self.bars() & self.lines() & page::end() & self.names()
    }

    fn laid_out(&self) -> bool {
        let height = self.rows.height();
        self.above(height) & self.inside() & self.below(height)
    }
}

// The path's stages stand in the list.
pub fn picture(t: &[u8], of: Names, g: Graph, log: &[u8], path: &[u8], told: Told) -> bool
    requires { AcceptedGraph g × InForm g.n log.now }
{
    let kind = g.kind;
    let cores = g.cores;
    let mut on = [0u8; 8192];
    lanes::name(log, g.n, &kind, &cores, &mut on);
    let spent = formed::add_up(log, g.n);
    let finish = stretch::finish(log);
    let log = Log {
        g: &g,
        log,
        on: &on,
    };
    let bare = told.refusal.and_then(|r| log.bare(r));
    let drawing = Drawing {
        titles: Titles {
            text: t,
            names: &of,
        },
        log,
        finish,
        told,
        axis: Axis::with(told.need(finish)),
        rows: Rows {
            g: &g,
            more: bare.map(|k| log.kind(k)),
        },
        bare,
        path: members(path),
        totals: &spent.totals,
    };
    drawing.laid_out()
}
