// A line of numbers.
ghost use Rattle.std.specs.Prelude.{List, [], ◌∷◌, ◌++◌, ℕ, ◌≤◌, ◌<◌, length};
ghost use Rattle.stg.specs.Rows.{Holds, Taken, Lined};

use stg_scan::Token;
use vset::Vset;

// The numbers of a line: how many, the first three, and the others as a set.
#[derive(Clone, Copy)]
pub struct Row {
    pub many: usize,
    pub number: u64,
    pub time: u64,
    pub count: u64,
    pub before: Vset,
}

// A line of numbers, and the place of the next line.
#[derive(Clone, Copy)]
pub struct Line {
    pub row: Row,
    pub next: usize,
}

fn start() -> Row
    ensures { (n : ℕ) → Holds n [] result }
{
    Row {
        many: 0,
        number: 0,
        time: 0,
        count: 0,
        before: vset::none(),
    }
}

// One predecessor more; none where it is above n + 1, or one of the row already.
fn with_before(row: Row, x: u64, n: u64) -> Option<Row>
    requires { (n ≤ 126) × (row.many < 65536) × (3 ≤ row.many) }
    ensures { (xs : List ℕ) → Holds n xs row → Taken n (xs ++ (x ∷ [])) result }
{
    if n + 1 < x {
        return None;
    }
    let u = x as usize;
    if vset::test(row.before, u) {
        return None;
    }
    Some(Row {
        many: row.many + 1,
        before: vset::with(row.before, u),
        ..row
    })
}

// One number more.
fn take(row: Row, x: u64, n: u64) -> Option<Row>
    requires { (n ≤ 126) × (row.many < 65536) }
    ensures { (xs : List ℕ) → Holds n xs row → Taken n (xs ++ (x ∷ [])) result }
{
    match row.many {
        0 => Some(Row {
            many: 1,
            number: x,
            ..row
        }),
        1 => Some(Row {
            many: 2,
            time: x,
            ..row
        }),
        2 => Some(Row {
            many: 3,
            count: x,
            ..row
        }),
        _ => with_before(row, x, n),
    }
}

// The line that begins at `at`, if it has numbers alone, and lawful predecessors.
pub(crate) fn row_at(text: &[u8], at: usize, n: u64) -> Option<Line>
    requires { (at ≤ length text.now) × (length text.now ≤ 65536) × (n ≤ 126) }
    ensures { Lined text.now at n result }
{
    let mut i = at;
    let mut row = start();
    loop {
        match stg_scan::next(text, i)? {
            Token::End(next) => return Some(Line { row, next }),
            Token::Number(x, e) => {
                row = take(row, x, n)?;
                i = e;
            }
        }
    }
}
