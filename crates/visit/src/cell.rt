// A cell of the path that is walked: five words of a table.
ghost use Rattle.std.specs.Prelude.{◌≡◌, ◌<◌, set};
ghost use Rattle.visit.specs.Cells.{cell_of, cell_words};

use vset::Vset;

// A vertex of the path; the number of the first path that has this beginning; the vertices beside the path up to here, and its value.
#[derive(Clone, Copy)]
pub struct Cell {
    pub v: usize,
    pub base: u64,
    pub beside: Vset,
    pub value: u64,
}

pub(crate) fn at(cells: &[[u64; 5]; 128], i: usize) -> Cell
    requires { i < 128 }
    ensures { result ≡ cell_of cells.now i }
{
    let beside = Vset {
        lo: cells[i][2],
        hi: cells[i][3],
    };
    Cell {
        v: cells[i][0] as usize,
        base: cells[i][1],
        beside,
        value: cells[i][4],
    }
}

pub(crate) fn put(cells: &mut [[u64; 5]; 128], i: usize, c: Cell)
    requires { i < 128 }
    ensures { cells.new ≡ set cells.old i (cell_words c) }
{
    let v = c.v as u64;
    let base = c.base;
    let beside = c.beside;
    let lo = beside.lo;
    let hi = beside.hi;
    let value = c.value;
    cells[i] = [v, base, lo, hi, value];
}
