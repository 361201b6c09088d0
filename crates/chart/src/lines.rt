// The lines at an instant, the finish, the bounds, or where a log is refused, and their labels above the rows: each line rises to its own label.
use crate::{Drawing, stretch};
use chart_page::{axis, element};
use graph::Refusal;
use say::out;

// A line: how it begins, so far above the rows; its label, so far down the page; and its instant.
#[derive(Clone, Copy)]
struct Line<'a> {
    before: &'a [u8],
    up: u64,
    words: &'a [u8],
    y: u64,
    instant: u64,
}

// The instant at which a log is refused: that of the record, or the one named.
fn refused_at(log: &[u8], r: Refusal) -> u64 {
    if r.number == 22 {
        return r.place as u64;
    }
    stretch::instant(log, r.place as usize)
}

impl Drawing<'_> {
    // Hands on each line. Where a stage ran too long there is none.
    fn each_line<F: Fn(Line) -> bool>(&self, draw: F) -> bool
        requires { F.IsAlwaysCallable draw }
    {
        if let Some(r) = self.told.refusal {
            return (r.number == 21)
                || draw(Line {
                    before: b"<polyline class=\"new\"",
                    up: 14,
                    words: b"refused at",
                    y: axis::TOP - 6,
                    instant: refused_at(self.log.log, r),
                });
        }
        let finish = draw(Line {
            before: b"<polyline class=\"finish\"",
            up: 14,
            words: b"finish",
            y: axis::TOP - 6,
            instant: self.finish,
        });
        let second = match self.told.second {
            None => true,
            Some(instant) => draw(Line {
                before: b"<polyline class=\"second\"",
                up: 28,
                words: b"NEW-B-2",
                y: axis::TOP - 20,
                instant,
            }),
        };
        let new = draw(Line {
            before: b"<polyline class=\"new\"",
            up: 42,
            words: b"NEW-B-1",
            y: axis::TOP - 34,
            instant: self.told.new,
        });
        finish & second & new
    }

    pub(crate) fn lines(&self) -> bool {
        let height = self.rows.height();
        self.each_line(|line| element::risen(line.before, line.instant, line.up, height))
    }

    fn label(&self, line: Line) -> bool {
        let x = self.axis.place(line.instant) - 5;
        let begun = element::text(b"<text class=\"end\"", x, line.y);
        begun & out::text(line.words) & out::field(line.instant) & element::text_end()
    }

    pub(crate) fn labels(&self) -> bool {
        self.each_line(|line| self.label(line))
    }
}
