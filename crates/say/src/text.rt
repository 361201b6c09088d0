// The board text of a graph. Where it has no names, types are called t0, t1, .. and stages s0, s1, ..
use crate::{names, out};
use board::Names;
use graph::Graph;

fn kinds(t: &[u8], of: Names, g: Graph) -> bool {
    let mut written = true;
    for (k, &cores) in g.cores.iter().enumerate().take(g.kinds) {
        let name = out::text(b"cores ") & names::name(names::of_kind(t, of, k), b"t", k);
        written &= name & out::field(u64::from(cores)) & out::end();
    }
    written
}

fn from(edge: u16) -> usize {
    usize::from(edge / 256)
}

fn to(edge: u16) -> usize {
    usize::from(edge % 256)
}

fn wait(t: &[u8], of: Names, u: usize) -> bool {
    out::text(b" ") & names::name(names::of_stage(t, of, u), b"s", u)
}

// The stages that an edge leads from to v.
fn waits(t: &[u8], of: Names, edge: &[u16; 1024], n: usize, v: usize) -> bool {
    let mut written = true;
    for &edge in edge.iter().take(n) {
        if to(edge) == v {
            written &= wait(t, of, from(edge));
        }
    }
    written
}

fn stage(t: &[u8], of: Names, g: Graph, v: usize) -> bool {
    if v >= 128 {
        return true;
    }
    let kind = usize::from(g.kind[v]);
    let wcet = u64::from(g.wcet[v]);
    let name = names::name(names::of_stage(t, of, v), b"s", v) & out::text(b" ");
    let own = name & names::name(names::of_kind(t, of, kind), b"t", kind) & out::field(wcet);
    own & waits(t, of, &g.edge, g.edges, v) & out::end()
}

pub fn lines(t: &[u8], of: Names, g: Graph) -> bool {
    let mut written = kinds(t, of, g);
    for v in 0..g.n.min(128) {
        written &= stage(t, of, g, v);
    }
    written
}
