// A text, line by line, up to the first line at fault.
ghost use Rattle.std.specs.Prelude.{◌≡◌, ◌+◌, ◌≤◌, length};
ghost use Rattle.stg_text.specs.Layout as layout;
ghost use Rattle.stg.specs.Lines.{Reached, Blank, TasksRead, CommentsRead, CountRead, LaidOut};

use crate::row::Line;
use crate::{after, comment, row, task};

// The first line at fault.
#[derive(Clone, Copy)]
pub struct Fault {
    pub line: usize,
}

// The lines of the tasks, which begin at `at`: their times, and who comes after whom. Hands back the place past them.
fn tasks_at(
    text: &[u8],
    at: usize,
    n: usize,
    wcets: &mut [u32; 128],
    after: &mut [[u64; 2]; 128],
) -> Result<usize, Fault>
    requires text_len_bound { (length text.now ≤ 65536) × (n ≤ 126) × (layout.tasks text.now ≡ n) × Reached text.now 1 at }
    requires blank { Blank wcets.old after.old }
    ensures { TasksRead text.now n result wcets.new after.new }
{
    let mut i = at;
    for v in 0..n + 2 {
        let task = task::task_at(text, i, n as u64, v as u64).ok_or(Fault { line: v + 1 })?;
        wcets[v] = task.time;
        after::spread(after, task.before, v);
        i = task.next;
    }
    Ok(i)
}

// The lines to skip: line `line` begins at `at`, and is the first after the tasks.
fn comments_at(text: &[u8], at: usize, line: usize) -> Result<(), Fault>
    requires { (length text.now ≤ 65536) × (layout.tasks text.now + 3 ≤ line) × Reached text.now line at }
    ensures { CommentsRead text.now result }
{
    let mut i = at;
    let mut k = line;
    while i < text.len() {
        i = comment::comment_at(text, i).ok_or(Fault { line: k })?;
        k += 1;
    }
    Ok(())
}

// The task count, and the place of the next line.
#[derive(Clone, Copy)]
pub struct Count {
    pub tasks: usize,
    pub next: usize,
}

// Line 0, if it is a task count.
fn count_at(text: &[u8]) -> Option<Count>
    requires { length text.now ≤ 65536 }
    ensures { CountRead text.now result }
{
    let Line { row, next } = row::row_at(text, 0, 0)?;
    if !task::count_fits(row) {
        return None;
    }
    Some(Count {
        tasks: row.number as usize,
        next,
    })
}

// All lines: the tasks' times, and who comes after whom. Hands back how many tasks there are beside the entry and the exit.
pub(crate) fn lay_out(
    text: &[u8],
    wcets: &mut [u32; 128],
    after: &mut [[u64; 2]; 128],
) -> Result<usize, Fault>
    requires text_len_bound { length text.now ≤ 65536 }
    requires blank { Blank wcets.old after.old }
    ensures { LaidOut text.now result wcets.new after.new }
{
    let count = count_at(text).ok_or(Fault { line: 0 })?;
    let n = count.tasks;
    let at = tasks_at(text, count.next, n, wcets, after)?;
    comments_at(text, at, n + 3)?;
    Ok(n)
}
