// Who comes after each task: a table with a set of tasks for each. A line has a task's predecessors, and the edges go by the task that they
// lead from.
ghost use Rattle.std.specs.Prelude.{◌<◌, ◌≡◌, length};
ghost use Rattle.vset.specs.Members.{is_in};
ghost use Rattle.stg.specs.After.{Spread};

use vset::Vset;

// Task v comes after each member of the set.
pub(crate) fn spread(after: &mut [[u64; 2]; 128], set: Vset, v: usize)
    requires { (v < 128) × (length after.old ≡ 128) }
    ensures { Spread after.old (is_in set) v after.new }
{
    let mut rest = set;
    while !vset::is_empty(rest) {
        let next = vset::next(rest);
        sets::join(after, next.v, v);
        rest = next.rest;
    }
}
