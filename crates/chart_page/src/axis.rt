// The axis: how many ticks a picture spans, where an instant stands on the page, the lines of the grid, and the picture within the page whose x is an instant.
ghost use Rattle.std.specs.Prelude.{◌+◌, ◌≤◌, ◌<◌};

use crate::element;
use crate::element::attribute;
use say::out;

// Where the rows stand on the page, and how wide they are.
pub const LEFT: u64 = 180;

pub const TOP: u64 = 104;

pub const WIDE: u64 = 1000;

// From one line of the grid to the next: the least of 1, 2, 5, 10, 20, 50 and so on of which ten are enough.
fn step(need: u64) -> u64
    requires { need < 17179869184 }
    ensures { (0 < result) × (result ≤ need + 5) }
{
    let mut m = 1u64;
    while 50 * m < need {
        m = 10 * m;
    }
    if need <= 10 * m {
        return m;
    }
    if need <= 20 * m { 2 * m } else { 5 * m }
}

fn numbered(x: u64, y: u64, instant: u64) -> bool {
    let begun = element::text(b"<text class=\"mid\"", x, y);
    begun & out::number(instant) & element::text_end()
}

// So many ticks from left to right: one at least, and no more than instants of 32 bits need.
#[derive(Clone, Copy)]
pub struct Axis {
    span: u64,
    ghost spans: { (0 < span) × (span < 8589934600) },
}

impl Axis {
    // As many ticks as are needed, and on to the next line of the grid. No instant has more than 32 bits.
    pub fn with(need: u64) -> Self {
        let least = need % 4294967296;
        Axis {
            span: least.max(1).next_multiple_of(step(least)),
        }
    }

    // Where an instant stands on the page.
    pub fn place(self, instant: u64) -> u64
        ensures { (180 ≤ result) × (result < 4294967476) }
    {
        LEFT + instant % 4294967296 * WIDE / self.span % 4294967296
    }

    // A line of the grid, and its instant below.
    fn upright(self, instant: u64, bottom: u64) -> bool
        requires { bottom < 65536 }
    {
        let x = self.place(instant);
        let line = element::line(b"<line class=\"grid\"", x, TOP, x, bottom + 4);
        line & numbered(x, bottom + 18, instant)
    }

    // The grid of a picture whose rows end at the bottom.
    pub fn grid(self, bottom: u64) -> bool
        requires { bottom < 65536 }
    {
        let mut written = true;
        for instant in (0..=self.span).step_by(step(self.span) as usize) {
            written &= self.upright(instant, bottom);
        }
        written & element::words(b"<text class=\"end\"", 140, bottom + 18, b"ticks")
    }

    fn view(self, height: u64) -> bool {
        out::text(b" viewBox=\"0 0 ") & out::number(self.span) & attribute(b" ", height)
    }

    // The picture within the page begins: ticks from left to right, and rows of so much height.
    pub fn begin(self, height: u64) -> bool {
        let place = element::rect(b"<svg", LEFT, TOP, WIDE, height) & self.view(height);
        place & out::text(b" preserveAspectRatio=\"none\" overflow=\"visible\">\n")
    }
}
