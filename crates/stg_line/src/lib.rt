// One line of a text: how long it is, and its bytes in a lent room.
#![tactic(auto)]

ghost use Rattle.std.specs.Prelude.{◌≡◌, [], ◌∷◌, ◌+◌, ◌≤◌, ◌<◌, length};
ghost use Rattle.std.proofs.lemmas.List.Edits.{sets};
ghost use Rattle.vset.specs.Members.{is_in};
ghost use Rattle.stg_text.specs.Canonical.{line_of};
ghost use Rattle.stg_line.specs.Laid.{task_text};

mod members; // members.rt: the members of a set
mod number; // number.rt: a number in decimal

use vset::Vset;

pub fn count_length(n: usize) -> usize
    requires { n < 1000 }
    ensures { result ≡ length (line_of (n ∷ [])) }
{
    number::width(n) + 1
}

// Line 0: the task count.
pub fn put_count(out: &mut [u8], n: usize) -> usize
    requires { (n < 1000) × (length (line_of (n ∷ [])) ≤ length out.old) }
    ensures { (result ≡ length (line_of (n ∷ []))) × (out.new ≡ sets out.old 0 (line_of (n ∷ []))) }
{
    let end = number::put(out, 0, n);
    out[end] = 10;
    end + 1
}

pub fn task_length(v: usize, time: usize, before: Vset) -> usize
    requires { (v < 1000) × (time < 10000000) }
    ensures { (result ≡ length (task_text v time (is_in before))) × (result ≤ 600) }
{
    let count = vset::size(before) as usize;
    let numbers = number::width(v) + number::width(time) + number::width(count);
    numbers + members::members_length(before) + 3
}

// The line of task v: its number, its time, how many predecessors, and these.
pub fn put_task(out: &mut [u8], at: usize, v: usize, time: usize, before: Vset) -> usize
    requires { (v < 1000) × (time < 10000000) × (at + length (task_text v time (is_in before)) ≤ length out.old) }
    ensures { (result ≡ at + length (task_text v time (is_in before))) × (out.new ≡ sets out.old at (task_text v time (is_in before))) }
{
    let count = vset::size(before) as usize;
    let a = number::put(out, at, v);
    let b = number::put_field(out, a, time);
    let c = number::put_field(out, b, count);
    let d = members::put_members(out, c, before);
    out[d] = 10;
    d + 1
}
