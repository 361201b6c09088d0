// The members of a set, ascending, each with a blank before it.
ghost use Rattle.std.specs.Prelude.{◌≡◌, ◌+◌, ◌≤◌, length};
ghost use Rattle.std.proofs.lemmas.List.Edits.{sets};
ghost use Rattle.vset.specs.Members.{is_in};
ghost use Rattle.model.specs.Places.{that};
ghost use Rattle.stg_line.specs.Laid.{tailed};

use crate::number;
use vset::Vset;

pub(crate) fn members_length(set: Vset) -> usize
    ensures { (result ≡ length (tailed (that (is_in set) 128))) × (result ≤ 512) }
{
    let mut rest = set;
    let mut sum = 0usize;
    while !vset::is_empty(rest) {
        let next = vset::next(rest);
        let one = number::width(next.v);
        sum = sum + one + 1;
        rest = next.rest;
    }
    sum
}

pub(crate) fn put_members(out: &mut [u8], at: usize, set: Vset) -> usize
    requires { at + length (tailed (that (is_in set) 128)) ≤ length out.old }
    ensures { (result ≡ at + length (tailed (that (is_in set) 128))) × (out.new ≡ sets out.old at (tailed (that (is_in set) 128))) }
{
    let mut rest = set;
    let mut i = at;
    while !vset::is_empty(rest) {
        let next = vset::next(rest);
        let more = number::put_field(out, i, next.v);
        i = more;
        rest = next.rest;
    }
    i
}
