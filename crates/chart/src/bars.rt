// The bars, in the order in which they end, and the names that have room in them.
ghost use Rattle.std.specs.Prelude.{◌<◌};

use crate::stretch::Stretch;
use crate::{Drawing, core_rows, stretch};
use chart_page::{axis, element};
use say::out;

fn shape(before: &[u8], s: Stretch, y: u64) -> bool
    requires { y < 60000 }
{
    element::bar(before, s.from, y, s.to, y + core_rows::BAR)
}

// What it is a bar of, for whoever reads the picture by a program.
fn data(s: Stretch) -> bool {
    let stage = element::attribute(b" data-stage=\"", s.stage as u64);
    let kind = element::attribute(b" data-type=\"", s.kind as u64);
    stage & kind & element::attribute(b" data-core=\"", s.core) & out::text(b">")
}

fn run(s: Stretch) -> bool {
    let from = out::text(b": from") & out::field(s.from);
    from & out::text(b" to") & out::field(s.to)
}

// How many letters have room from one place to another: ten of them are 62 wide.
fn letters(left: u64, right: u64) -> usize
    requires { (left < 4294967476) × (right < 4294967476) }
{
    (right.saturating_sub(left + 4) * 10 / 62) as usize
}

impl Drawing<'_> {
    // Whether the refusal is about the stretch.
    fn is_wrong(&self, s: Stretch) -> bool {
        match self.told.refusal {
            None => false,
            Some(r) => match r.number {
                19 | 20 => s.start == r.place as usize,
                21 => s.stage == r.place as usize,
                _ => false,
            },
        }
    }

    // A stretch has a row where it has a core. Of those that have none one is shown, in the row that its type has more.
    fn has_row(&self, s: Stretch) -> bool {
        (s.core < core_rows::cores(self.log.g, s.kind)) | (self.bare == Some(s.start))
    }

    fn total(&self, v: usize) -> u64 {
        if v < 128 { self.totals[v] as u64 } else { 0 }
    }

    fn wcet(&self, v: usize) -> u64 {
        if v < 128 {
            self.log.g.wcet[v] as u64
        } else {
            0
        }
    }

    fn coloured(&self, s: Stretch, y: u64) -> bool
        requires { y < 60000 }
    {
        if self.is_wrong(s) {
            return shape(b"<polygon class=\"wrong\"", s, y);
        }
        if vset::test(self.path, s.stage % 128) {
            return shape(b"<polygon class=\"path\"", s, y);
        }
        shape(b"<polygon class=\"stage\"", s, y)
    }

    fn core(&self, s: Stretch) -> bool {
        if s.core < core_rows::cores(self.log.g, s.kind) {
            return out::field(s.core);
        }
        out::text(b" without a core")
    }

    // What a reader is shown who points at it.
    fn title(&self, s: Stretch) -> bool {
        let stage = out::text(b"<title>") & self.titles.stage(s.stage).whole() & out::text(b" on ");
        let core = self.titles.kind(s.kind).whole() & self.core(s) & run(s);
        let total = out::text(b", time") & out::field(self.total(s.stage));
        let wcet = out::text(b", WCET") & out::field(self.wcet(s.stage));
        stage & core & total & wcet & out::text(b"</title></polygon>\n")
    }

    fn bar(&self, s: Stretch, y: u64) -> bool
        requires { y < 57000 }
    {
        self.coloured(s, y + core_rows::MARGIN) & data(s) & self.title(s)
    }

    fn name(&self, s: Stretch, y: u64) -> bool
        requires { y < 57000 }
    {
        let left = self.axis.place(s.from);
        let room = letters(left, self.axis.place(s.to));
        let called = self.titles.stage(s.stage);
        if !called.fits(room) {
            return true;
        }
        let begun = element::text(
            b"<text class=\"name\"",
            left + 3,
            axis::TOP + y + core_rows::NAME,
        );
        begun & called.cut(room) & element::text_end()
    }

    // Hands on each stretch that has a row, with the row's top: the records in their order, of which a start is kept until the stage's stop.
    fn each<F: Fn(Stretch, u64) -> bool>(&self, draw: F) -> bool
        requires { (s : _) (y : _) → y < 57000 → F.pre draw s y }
    {
        let log = self.log;
        let mut started = [0usize; 128];
        let mut written = true;
        for k in 0..log.log.len() / 8 {
            let v = stretch::stage(log.log, k);
            if formed::starts(log.log, k) {
                started[v] = k;
            } else {
                let s = log.between(started[v], k);
                if self.has_row(s) {
                    written &= draw(s, self.rows.top(s.kind, s.core));
                }
            }
        }
        written
    }

    pub(crate) fn bars(&self) -> bool {
        self.each(|s, y| self.bar(s, y))
    }

    pub(crate) fn names(&self) -> bool {
        self.each(|s, y| self.name(s, y))
    }
}
