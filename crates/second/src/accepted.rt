// The second bound of an accepted graph, as it was laid.
ghost use Rattle.std.specs.Prelude.{◌≡◌, ℕ, ◌≤◌, ◌<◌, get_or};
ghost use Rattle.model.specs.Places.{padded};
ghost use Rattle.graph.specs.Model.{as_model};
ghost use Rattle.reader.specs.Laid.{Usable};
ghost use Rattle.rows.specs.Rows.{Kin};
ghost use Rattle.second.specs.Seconded.{seconded};
ghost use Rattle.second.specs.Answers.{SecondIn};
ghost use Rattle.second.specs.Shares.{share_by};

use graph::Refusal;
use reader::Laid;
use units::Parts;

// The share of a tick that a core of each kind is.
fn shares(cores: &[u8; 10], kinds: usize) -> [u64; 10]
    requires kinds_bound { kinds ≤ 10 }
    requires by_index { (s : ℕ) → s < kinds → 0 < get_or cores.now s 0 }
    ensures { result ≡ padded 10 (share_by cores.now) kinds }
{
    let mut list = [0u64; 10];
    for (s, many) in cores[..kinds].iter().enumerate() {
        list[s] = Parts::share(*many).0;
    }
    list
}

pub(crate) fn second_of(laid: &Laid, anc: &[[u64; 2]; 128]) -> Result<Parts, Refusal>
    requires usable { Usable laid.now }
    requires kin { Kin laid.now.graph laid.now.pred anc.now }
    ensures { SecondIn (as_model laid.now.graph) (seconded result) }
{
    let g = &laid.graph;
    let n = g.n;
    let led = rows::led(&laid.pred, n);
    let ways = ways::table(&g.edge, &laid.starts, &laid.order, n);
    let count = ways::whole(&led, &ways, n);
    if 4096 < count {
        return Err(Refusal::whole(17));
    }
    let mut beside = [[0u64; 2]; 128];
    parallel::beside(
        &g.kind,
        &g.edge,
        &laid.starts,
        &laid.order,
        *anc,
        n,
        &mut beside,
    );
    let share = shares(&g.cores, g.kinds);
    let parts = visit::largest(
        &g.edge,
        &laid.starts,
        &ways,
        &led,
        &beside,
        &g.kind,
        &g.wcet,
        &share,
        n,
        count as u64,
    );
    Ok(Parts(parts))
}
