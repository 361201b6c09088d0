// NEW-B-2, the second bound: for each complete path the WCETs along it, and for each type its share of those of the vertices parallel to the path;
// the largest of these. A graph of more than 4,096 complete paths has none. The entry takes the file's bytes.
#![tactic(auto)]

ghost use Rattle.graph.specs.Model.{AcceptedGraph, as_model};
ghost use Rattle.second.specs.Seconded.{seconded};
ghost use Rattle.second.specs.Answers.{SecondIn, SecondOf};

use graph::{Graph, Refusal};
use reader::Laid;
use units::Parts;

mod accepted; // accepted.rt: the second bound of an accepted graph

pub fn second(file: &[u8]) -> Result<Parts, Refusal>
    ensures { SecondOf file.now (seconded result) }
{
    let mut laid = Laid::blank();
    let mut anc = [[0u64; 2]; 128];
    reader::take_kin(file, &mut laid, &mut anc)?;
    accepted::second_of(&laid, &anc)
}

// ---- of a graph that was read already

pub fn of_graph(g: Graph) -> Result<Parts, Refusal>
    requires { AcceptedGraph g }
    ensures { SecondIn (as_model g) (seconded result) }
{
    let mut laid = Laid::blank();
    let mut anc = [[0u64; 2]; 128];
    reader::along_rows(g, &mut laid);
    rows::ancestors(&laid.order, g.n, &laid.pred, &mut anc);
    accepted::second_of(&laid, &anc)
}
