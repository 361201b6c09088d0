// What a rewrite would gain: for each vertex NEW-B-1 less NEW-B-1 of the same graph with that vertex's WCET set to 0. The two entries take the
// file's bytes; one of them first alters one WCET.
#![tactic(auto)]

ghost use Rattle.graph.specs.Model.{AcceptedGraph, as_model};
ghost use Rattle.gaining.specs.Gaining.{GainsIn};
ghost use Rattle.gains.specs.Answers.{GainsOf, AlteredOf};

use graph::{Graph, Refusal};
use reader::Laid;

mod accepted; // accepted.rt: the gains of an accepted graph

// The gains of all vertices, into the list that the caller lends: so many, in its first places.
pub fn gains(file: &[u8], out: &mut [u64]) -> Result<usize, Refusal>
    ensures { GainsOf file.now out.old result out.new }
{
    let mut laid = Laid::blank();
    reader::take_rows(file, &mut laid)?;
    accepted::gains_of(&laid, out)
}

// The same, with the WCET of one vertex altered first: both bounds are those of the altered graph.
pub fn gains_altered(file: &[u8], vertex: u32, time: u32, out: &mut [u64]) -> Result<usize, Refusal>
    ensures { AlteredOf file.now vertex time out.old result out.new }
{
    let mut laid = Laid::blank();
    reader::take_rows(file, &mut laid)?;
    accepted::altered_of(&laid, vertex, time, out)
}

// ---- of a graph that was read already

pub fn table(g: Graph) -> [u64; 128]
    requires { AcceptedGraph g }
    ensures { GainsIn (as_model g) result }
{
    let mut laid = Laid::blank();
    reader::along_rows(g, &mut laid);
    accepted::table_of(&laid)
}
