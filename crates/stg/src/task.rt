// The lines of the count and of a task.
ghost use Rattle.std.specs.Prelude.{◌≡◌, List, ℕ, ◌≤◌, min, length};
ghost use Rattle.stg_text.specs.Layout as layout;
ghost use Rattle.stg.specs.Rows.{Holds, Tasked, counts};

use crate::row;
use crate::row::{Line, Row};
use vset::Vset;

// A task's time and predecessors, and the place of the next line.
#[derive(Clone, Copy)]
pub struct Task {
    pub time: u32,
    pub before: Vset,
    pub next: usize,
}

// Whether the numbers are one, from 1 to 126.
pub(crate) fn count_fits(row: Row) -> bool
    ensures { (n : ℕ) (xs : List ℕ) → Holds n xs row → result ≡ counts xs }
{
    (row.many == 1) & ((1 <= row.number) & (row.number <= 126))
}

// Whether the numbers are those of task v.
fn task_fits(row: Row, n: u64, v: u64) -> bool
    requires { n ≤ 126 }
    ensures { (xs : List ℕ) → Holds n xs row → result ≡ layout.task n v xs }
{
    if row.many < 3 {
        return false;
    }
    let others = (row.many - 3) as u64;
    (row.number == v) & ((!((v == 0) | (v == n + 1)) | (row.time == 0)) & (others == row.count))
}

// A time as 32 bits hold it, at most.
fn capped(time: u64) -> u32
    ensures { result ≡ min time 4294967295 }
{
    time.min(4294967295) as u32
}

// Task v, if it is that of the line that begins at `at`.
pub(crate) fn task_at(text: &[u8], at: usize, n: u64, v: u64) -> Option<Task>
    requires { (at ≤ length text.now) × (length text.now ≤ 65536) × (n ≤ 126) }
    ensures { Tasked text.now at n v result }
{
    let Line { row, next } = row::row_at(text, at, n)?;
    if !task_fits(row, n, v) {
        return None;
    }
    Some(Task {
        time: capped(row.time),
        before: row.before,
        next,
    })
}
