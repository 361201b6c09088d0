// The edges of one vertex.
ghost use Rattle.std.specs.Prelude.{◌≡◌, ◌<◌};
ghost use Rattle.summary.specs.Row as row;

use starts::to;

pub fn many(start: &[u16; 129], u: usize) -> usize
    requires { row.Span start.now u }
    ensures { result ≡ row.many start.now u }
{
    start[u + 1] as usize - start[u] as usize
}

// Where the k-th of them goes.
pub fn nth(edge: &[u16; 1024], start: &[u16; 129], u: usize, k: usize) -> usize
    requires row { row.Row edge.now start.now u }
    requires k_bound { k < row.many start.now u }
    ensures value { result ≡ row.nth edge.now start.now u k }
    ensures upper_bound { result < 128 }
{
    to(edge[start[u] as usize + k])
}
