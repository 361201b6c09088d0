// The rows: one for each core, type under type, and where a stretch is shown that has no core, one more for its type.
ghost use Rattle.std.specs.Prelude.{◌≤◌, ◌<◌};

use chart_page::called::Titles;
use chart_page::{axis, element};
use graph::Graph;
use say::out;

const HIGH: u64 = 20;

// Between two types.
const GAP: u64 = 8;

// A bar leaves a margin of its row free, above and below.
pub(crate) const MARGIN: u64 = 2;

pub(crate) const BAR: u64 = 16;

// How far below its row's top a name stands.
pub(crate) const NAME: u64 = 14;

// How many letters of a type's name have room.
const LETTERS: usize = 19;

// The graph whose cores the rows are for, and the type that has one row more, if any: that of the stretch without a core that is shown.
#[derive(Clone, Copy)]
pub(crate) struct Rows<'a> {
    pub g: &'a Graph,
    pub more: Option<usize>,
}

// How many cores type k has.
pub(crate) fn cores(g: &Graph, k: usize) -> u64
    ensures { result ≤ 255 }
{
    if k < 10 { g.cores[k] as u64 } else { 0 }
}

impl Rows<'_> {
    // How many rows type k has.
    fn count(self, k: usize) -> u64
        ensures { result ≤ 256 }
    {
        let cores = cores(self.g, k);
        if self.more == Some(k) {
            cores + 1
        } else {
            cores
        }
    }

    // How many rows stand above those of type k.
    fn above(self, k: usize) -> u64
        ensures { result ≤ 2560 }
    {
        let mut rows = 0;
        for i in 0..k.min(10) {
            rows += self.count(i);
        }
        rows
    }

    // Where row j of type k begins, from the top of the first.
    pub(crate) fn top(self, k: usize, j: u64) -> u64
        ensures { result < 57000 }
    {
        HIGH * self.above(k) + GAP * (k % 11) as u64 + HIGH * (j % 256)
    }

    // How high all rows are. Below those of the last type is no gap.
    pub(crate) fn height(self) -> u64
        ensures { result < 57000 }
    {
        self.top(self.g.kinds, 0).saturating_sub(GAP)
    }

    // What stands to the left of row j of type k.
    fn name(self, titles: Titles, k: usize, j: u64) -> bool {
        if j < cores(self.g, k) {
            return titles.kind(k).cut(LETTERS) & out::field(j);
        }
        out::text(b"no core")
    }

    fn row(self, titles: Titles, k: usize, j: u64) -> bool {
        let y = axis::TOP + self.top(k, j);
        let area = element::rect(
            b"<rect class=\"row\"",
            axis::LEFT,
            y + 1,
            axis::WIDE,
            HIGH - 2,
        ) & element::end();
        let begun = element::text(b"<text class=\"end\"", axis::LEFT - 8, y + NAME);
        area & begun & self.name(titles, k, j) & element::text_end()
    }

    fn kind(self, titles: Titles, k: usize) -> bool {
        let mut written = true;
        for j in 0..self.count(k) {
            written &= self.row(titles, k, j);
        }
        written
    }

    pub(crate) fn all(self, titles: Titles) -> bool {
        let mut written = true;
        for k in 0..self.g.kinds {
            written &= self.kind(titles, k);
        }
        written
    }
}
