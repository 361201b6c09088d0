// The sheet of a file, written to standard output. Only programs are above it.
#![tactic(auto)]

ghost use Rattle.std.specs.Prelude.{◌≡◌, ◌≤◌};
ghost use Rattle.graph.specs.Judge.{read_of};
ghost use Rattle.graph.specs.Model.{AcceptedGraph};

use graph::{Graph, Refusal};

fn word(w: &[u8]) {
    io::write_all(1, w);
}

fn number(n: u64) {
    io::print_decimal(1, n);
}

// A name and one number.
fn line(name: &[u8], n: u64) {
    word(name);
    number(n);
    word(b"\n");
}

fn refusal(r: Refusal) {
    word(b"refused ");
    number(r.number as u64);
    word(b" at ");
    number(r.place as u64);
    word(b"\n");
}

fn counts(g: Graph) {
    word(b"graph ");
    number(g.kinds as u64);
    word(b" ");
    number(g.n as u64);
    word(b" ");
    number(g.edges as u64);
    word(b"\n");
}

fn vertex(v: u8) {
    word(b" ");
    number(u64::from(v));
}

fn vertices(list: &[u8; 128], n: usize)
    requires { n ≤ 128 }
{
    for &v in &list[..n] {
        vertex(v);
    }
}

// No graph has more than 128 vertices, so the room suffices.
fn path(g: Graph)
    requires { AcceptedGraph g }
{
    let mut out = [0u8; 128];
    match bounds::path_into(g, &mut out) {
        Err(r) => refusal(r),
        Ok(n) => {
            word(b"path");
            vertices(&out, n);
            word(b"\n");
        }
    }
}

// NEW-B-2, or that there is none: a graph of more than 4,096 complete paths is no refused one.
fn second_line(g: Graph)
    requires { AcceptedGraph g }
{
    match second::of_graph(g) {
        Ok(parts) => line(b"second ", parts.0),
        Err(_) => word(b"second none\n"),
    }
}

fn figures(g: Graph)
    requires { AcceptedGraph g }
{
    let b = bounds::figures(g);
    line(b"old ", b.old.0);
    line(b"new ", b.new.0);
    second_line(g);
    line(b"ticks ", b.ticks.0);
}

// All vertices, the one whose rewrite would gain most first.
fn by_gain(g: Graph)
    requires { AcceptedGraph g }
{
    let gain = gains::table(g);
    let list = ranks::ranking(&gain, g.n);
    word(b"gains");
    vertices(&list, g.n);
    word(b"\n");
}

// Seven lines for an accepted file, else one that says why it is refused. The file is read and judged once. What is printed is not in the contract, since no contract can
// speak of what a call of the operating system wrote; the answer is.
pub fn sheet(file: &[u8]) -> Result<(), Refusal>
    ensures { result ≡ (read_of file.now).answer }
{
    match reader::read(file) {
        Err(r) => {
            refusal(r);
            Err(r)
        }
        Ok(g) => {
            counts(g);
            figures(g);
            path(g);
            by_gain(g);
            Ok(())
        }
    }
}
