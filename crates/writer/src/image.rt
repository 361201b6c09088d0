// The file in a table of its own, so that it is judged before a lent byte is touched.
ghost use Rattle.std.specs.Prelude.{◌≡◌, ◌+◌, ◌≤◌, length, replicate};
ghost use Rattle.writer.specs.Lists.{lists};
ghost use Rattle.writer.specs.Image.{record_at_of, imaged};

use super::written::record_at;

// The first `a` types, `b` vertices and `e` edges, record by record, into a table that is zero. There is room for one record more of each
// kind than is allowed.
pub(crate) fn image(
    cores: &[u8],
    kinds: &[u8],
    wcets: &[u32],
    edges: &[u16],
    a: usize,
    b: usize,
    e: usize,
    t: &mut [u8],
)
    requires a_in_bounds { (a ≤ length cores.now) × (a ≤ 11) × (b ≤ length kinds.now) × (b ≤ length wcets.now) × (b ≤ 129) × (e ≤ length edges.now) × (e ≤ 1025) }
    requires t_value { t.old ≡ replicate 9320 0 }
    ensures { (t.new ≡ imaged (record_at_of (lists cores.now kinds.now wcets.now edges.now) a b) (a + b + e)) × (length t.new ≡ 9320) }
{
    for k in 0..a + b + e {
        let r = record_at(cores, kinds, wcets, edges, a, b, k);
        copies::copy(&r, &mut t[8 * k..]);
    }
}
