// Which vertices have ticks left.
#![tactic(auto)]

ghost use Rattle.vset.specs.Members.{Members};
ghost use Rattle.ready.specs.Ready.{some_left};

use vset::Vset;

pub fn busy(left: [u32; 128]) -> Vset
    ensures { Members result (some_left left) }
{
    let mut got = vset::none();
    for (v, ticks) in left.iter().enumerate() {
        got = vset::with_if(got, v, 0 < *ticks);
    }
    got
}
