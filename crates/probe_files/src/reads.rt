// R: a file, read.
ghost use Rattle.std.specs.Prelude.{◌≤◌};

use graph::Graph;

// The first n places of a list of N, printed as words; whether the others are zero.
fn row<T: Copy + Into<u32>, const N: usize>(list: &[T], n: usize) -> bool
    requires { N ≤ 1024 }
{
    let mut wide = [0u32; N];
    for (word, x) in wide.iter_mut().zip(list) {
        *word = (*x).into();
    }
    let (used, unused) = wide.split_at(n.min(N));
    print::words(used);
    unused.iter().all(|word| *word == 0)
}

fn counts(g: Graph) {
    print::given(b"graph", g.kinds as u64);
    print::field(g.n as u64);
    print::field(g.edges as u64);
}

// The lists, as far as the counts go. Whether every place that they leave unused is zero.
fn laid(g: Graph) -> bool {
    let kinds = row::<u8, 10>(&g.cores, g.kinds);
    let vertices = row::<u8, 128>(&g.kind, g.n) & row::<u32, 128>(&g.wcet, g.n);
    kinds & vertices & row::<u16, 1024>(&g.edge, g.edges)
}

fn clean(on: bool) {
    if on {
        print::text(b" clean\n")
    } else {
        print::text(b" dirty\n")
    }
}

fn answer(file: &[u8]) {
    match reader::read(file) {
        Ok(g) => {
            counts(g);
            clean(laid(g))
        }
        Err(r) => {
            print::refused(r.number, r.place);
            clean(true)
        }
    }
}

// A request holds the file, and nothing else.
fn read_asked(p: &[u8]) -> Option<()> {
    let file = wire::list(p, 0)?;
    if file.end != p.len() {
        return None;
    }
    answer(&p[file.start..file.end]);
    Some(())
}

pub fn read_request(p: &[u8]) {
    read_asked(p).unwrap_or_else(print::bad)
}
