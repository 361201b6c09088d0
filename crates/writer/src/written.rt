// One record, as its 8 bytes.
ghost use Rattle.std.specs.Prelude.{◌≡◌, ◌+◌, ◌≤◌, ◌<◌, length};
ghost use Rattle.writer.specs.Lists.{lists};
ghost use Rattle.writer.specs.Write.{type_record_of, vertex_record_of, edge_record_of};
ghost use Rattle.writer.specs.Image.{record_at_of};

fn type_record(number: u8, cores: u8) -> [u8; 8]
    ensures { result ≡ type_record_of number cores }
{
    [0x54, number, cores, 0, 0, 0, 0, 0]
}

// The WCET's low byte first.
fn vertex_record(number: u8, kind: u8, wcet: u32) -> [u8; 8]
    ensures { result ≡ vertex_record_of number kind wcet }
{
    let [low, second, third, high] = wcet.to_le_bytes();
    [0x56, number, kind, 0, low, second, third, high]
}

// An edge is from * 256 + to.
fn edge_record(edge: u16) -> [u8; 8]
    ensures { result ≡ edge_record_of edge }
{
    let from = (edge / 256) as u8;
    let to = (edge % 256) as u8;
    [0x45, from, to, 0, 0, 0, 0, 0]
}

// Record `k` of the file with the first `a` types and `b` vertices: types stand first, then vertices, then edges.
pub(crate) fn record_at(
    cores: &[u8],
    kinds: &[u8],
    wcets: &[u32],
    edges: &[u16],
    a: usize,
    b: usize,
    k: usize,
) -> [u8; 8]
    requires { (a ≤ length cores.now) × (a ≤ 256) × (b ≤ length kinds.now) × (b ≤ length wcets.now) × (b ≤ 256) × (k < a + b + length edges.now) }
    ensures { (result ≡ record_at_of (lists cores.now kinds.now wcets.now edges.now) a b k) × (length result ≡ 8) }
{
    if k < a {
        return type_record(k as u8, cores[k]);
    }
    let v = k - a;
    if v < b {
        return vertex_record(v as u8, kinds[v], wcets[v]);
    }
    edge_record(edges[v - b])
}
