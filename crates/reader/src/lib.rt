// The reader: a file's graph, or the lowest number that says no with its first place.
#![tactic(auto)]

ghost use Rattle.std.specs.Prelude.{◌≡◌, ◌≤◌, length, Ok};
ghost use Rattle.graph.specs.Answer.{Answer, answered, taken};
ghost use Rattle.graph.specs.Judge.{judge_from, read_of};
ghost use Rattle.graph.specs.Model.{AcceptedGraph};
ghost use Rattle.records.specs.declared.Counts.{Counts};
ghost use Rattle.reader.specs.Steps.{Faultless, Tested, Edged};
ghost use Rattle.sets.specs.Sets.{empty};
ghost use Rattle.reader.specs.Laid.{Blank, LaidOut, TakenInto, RowsInto, KinInto};

mod lists; // lists.rt: the lists of a file
mod numbers; // numbers.rt: the lowest number up to 10 that applies

use graph::{Graph, Refusal};
use records::Counts;

// A graph that was read, with what was found of its edges on the way: where each vertex's edges begin, an order of the vertices along the
// edges, and each vertex's predecessors as rows. An entry has one on its stack and lends it to the layers below, so that nothing is copied
// from call to call and nothing is found twice.
#[derive(Drop)]
pub struct Laid {
    pub graph: Graph,
    pub starts: [u16; 129],
    pub order: [u8; 128],
    pub pred: [[u64; 2]; 128],
}

impl Laid {
    // Before anything stands in it.
    pub fn blank() -> Laid
        ensures { Blank result }
    {
        Laid {
            graph: Graph {
                kinds: 0,
                n: 0,
                edges: 0,
                cores: [0; 10],
                kind: [0; 128],
                wcet: [0; 128],
                edge: [0; 1024],
            },
            starts: [0; 129],
            order: [0; 128],
            pred: [[0; 2]; 128],
        }
    }
}

// The last number, 11, is said of the graph and not of records: of the edges, as they are listed.
fn holds_cycle(file: &[u8], c: Counts, laid: &mut Laid) -> bool
    requires faultless { Faultless file.now c }
    requires blank { Blank laid.old }
    ensures { Tested file.now result laid.new }
{
    lists::edge_of(file, c.kinds + c.n, c.edges, &mut laid.graph.edge);
    laid.starts = starts::starts(&laid.graph.edge, c.edges);
    rows::predecessors(&laid.graph.edge, c.edges, &mut laid.pred);
    cycle::cyclic(
        &laid.graph.edge,
        &laid.starts,
        &laid.pred,
        c.n,
        c.edges,
        &mut laid.order,
    )
}

// The answer of the numbers from 2 on, and where none applies the counts.
fn take_edges(file: &[u8], laid: &mut Laid) -> Result<Counts, Refusal>
    requires file_len_bound { length file.now ≤ 9320 }
    requires blank { Blank laid.old }
    ensures answer { answered result ≡ judge_from 2 file.now }
    ensures edged { (c : Counts) → result ≡ Ok c → Edged file.now c laid.new }
{
    let c = numbers::lowest(file)?;
    if holds_cycle(file, c, laid) {
        return Err(Refusal::whole(11));
    }
    Ok(c)
}

// The answer of the numbers from 2 on, for whoever makes a file and asks before handing it over.
pub fn judge(file: &[u8]) -> Result<(), Refusal>
    requires { length file.now ≤ 9320 }
    ensures { result ≡ judge_from 2 file.now }
{
    let mut laid = Laid::blank();
    take_edges(file, &mut laid)?;
    Ok(())
}

// The graph of a file, laid where it is lent, for our own layers. Where number 1 applies, nothing else is looked at.
pub fn take_rows(file: &[u8], laid: &mut Laid) -> Result<(), Refusal>
    requires { Blank laid.old }
    ensures taken_into { TakenInto file.now result laid.new }
    ensures rows_into { RowsInto file.now laid.new.pred }
{
    if rules::wrong_length(file) {
        return Err(Refusal::whole(1));
    }
    let c = take_edges(file, laid)?;
    lists::column_of(file, 0, c.kinds, &mut laid.graph.cores);
    lists::column_of(file, c.kinds, c.n, &mut laid.graph.kind);
    lists::wcet_of(file, c.kinds, c.n, &mut laid.graph.wcet);
    laid.graph.kinds = c.kinds;
    laid.graph.n = c.n;
    laid.graph.edges = c.edges;
    Ok(())
}

// The same with the table of each vertex's ancestors. Whoever does not ask for the ancestors does not wait for them.
pub fn take_kin(file: &[u8], laid: &mut Laid, anc: &mut [[u64; 2]; 128]) -> Result<(), Refusal>
    requires blank { Blank laid.old }
    requires anc_value { anc.old ≡ empty }
    ensures taken_into { TakenInto file.now result laid.new }
    ensures kin_into { KinInto file.now laid.new.pred anc.new }
{
    take_rows(file, laid)?;
    rows::ancestors(&laid.order, laid.graph.n, &laid.pred, anc);
    Ok(())
}

// The graph of a file, or the number that says no and its place.
pub fn read(file: &[u8]) -> Result<Graph, Refusal>
    ensures { taken result ≡ read_of file.now }
{
    let mut laid = Laid::blank();
    take_rows(file, &mut laid)?;
    Ok(laid.graph)
}

// Of a graph that was read already, for layers that are handed one: where each vertex's edges begin, each vertex's predecessors, and an order
// along the edges are found again.
pub fn along_rows(g: Graph, laid: &mut Laid)
    requires accepted_graph { AcceptedGraph g }
    requires pred_value { laid.old.pred ≡ empty }
    ensures { LaidOut g laid.new }
{
    laid.starts = starts::starts(&g.edge, g.edges);
    rows::predecessors(&g.edge, g.edges, &mut laid.pred);
    laid.order = [0; 128];
    cycle::cyclic(
        &g.edge,
        &laid.starts,
        &laid.pred,
        g.n,
        g.edges,
        &mut laid.order,
    );
    laid.graph = g;
}
