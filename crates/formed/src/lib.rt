// The records of a log: number 18, and what a log in form says of each vertex, its total and its last record. Records are read as those of
// a graph file.
#![tactic(auto)]

ghost use Rattle.std.specs.Prelude.{◌≡◌, false, not, ◌&&◌, ◌||◌, List, ℕ, ◌+◌, ◌*◌, ◌<◌, ◌≤◌, eqb};
ghost use Rattle.model.specs.Places.{pick};
ghost use Rattle.graph.specs.File.{records};
ghost use Rattle.vset.specs.Members.{is_in, Members};
ghost use Rattle.recorded.specs.Log.{is_start, is_stop, key, fault, wrong_length_of, InForm};
ghost use Rattle.formed.specs.Passing.{fault_by, MetBy, FoundBy, form_of, Clocked, Lasted, SpentBy};

use graph::Refusal;
use vset::Vset;

// What a pass over the records has met: who runs, and the lowest key that the next record may have.
#[derive(Clone, Copy)]
pub struct Met {
    pub on: Vset,
    pub least: usize,
}

// Each vertex's total, and one more than its last record: 0 where it has none. A place and not an Option of it: `Lasted` (specs/Passing) says it
// in numbers, and an Option would double the table.
#[derive(Clone, Copy)]
pub struct Spent {
    pub totals: [u32; 128],
    pub lasts: [u16; 128],
}

pub fn starts(log: &[u8], k: usize) -> bool
    requires { k < records log.now }
    ensures { result ≡ is_start log.now k }
{
    records::byte(log, k, 0) == 0x53
}

fn stops(log: &[u8], k: usize) -> bool
    requires { k < records log.now }
    ensures { result ≡ is_stop log.now k }
{
    records::byte(log, k, 0) == 0x50
}

// The number that records ascend by.
fn key(log: &[u8], k: usize) -> usize
    requires { k < records log.now }
    ensures { (result ≡ key log.now k) × (result < 2199023255552) }
{
    512 * records::word(log, k) + 256 * usize::from(starts(log, k)) + records::byte(log, k, 1)
}

// Vertex `v` starts or stops.
pub fn switched(on: Vset, v: usize, start: bool) -> Vset
    requires { v < 128 }
    ensures { Members result (λ u. pick start (is_in on u || eqb u v) (is_in on u && not (eqb u v))) }
{
    if start {
        vset::with(on, v)
    } else {
        vset::without(on, v)
    }
}

// ---- number 18

fn at_fault(log: &[u8], n: usize, k: usize, on: bool, least: usize) -> bool
    requires { k < records log.now }
    ensures { result ≡ fault_by n log.now k on least }
{
    let start = starts(log, k);
    let stop = stops(log, k);
    !(start | stop)
        | ((n <= records::byte(log, k, 1))
            | (((records::byte(log, k, 2) != 0) | (records::byte(log, k, 3) != 0))
                | ((key(log, k) < least)
                    | ((start & on) | ((stop & !on) | (128000000 < records::word(log, k)))))))
}

// Whether record `k` is at fault, by what a pass has met before it.
fn faulty(log: &[u8], n: usize, k: usize, p: Met) -> bool
    requires { (k < records log.now) × (n ≤ 128) × MetBy log.now k p }
    ensures { result ≡ fault n log.now k }
{
    let v = records::byte(log, k, 1);
    if n <= v {
        return true;
    }
    at_fault(log, n, k, vset::test(p.on, v), p.least)
}

// One record more is passed.
fn pass(log: &[u8], n: usize, k: usize, p: Met) -> Met
    requires { (k < records log.now) × (n ≤ 128) × MetBy log.now k p × (fault n log.now k ≡ false) }
    ensures { MetBy log.now (k + 1) result }
{
    Met {
        on: switched(p.on, records::byte(log, k, 1), starts(log, k)),
        least: key(log, k) + 1,
    }
}

// A pass starts with nobody running, and any key may come.
fn begun() -> Met
    ensures { (l : List ℕ) → MetBy l 0 result }
{
    Met {
        on: vset::none(),
        least: 0,
    }
}

// Who runs at the end; or the first record at fault.
fn first_fault(log: &[u8], n: usize) -> Result<Vset, usize>
    requires { n ≤ 128 }
    ensures { FoundBy n log.now result }
{
    let mut p = begun();
    for k in 0..log.len() / 8 {
        if faulty(log, n, k, p) {
            return Err(k);
        }
        p = pass(log, n, k, p);
    }
    Ok(p.on)
}

fn wrong_length(log: &[u8]) -> bool
    ensures { result ≡ wrong_length_of log.now }
{
    (log.len() % 8 != 0) | (65536 < log.len())
}

pub fn judge(log: &[u8], n: usize) -> Result<(), Refusal>
    requires { n ≤ 128 }
    ensures { result ≡ form_of n log.now }
{
    if wrong_length(log) {
        return Err(Refusal::whole(18));
    }
    match first_fault(log, n) {
        Err(first) => {
            Err(Refusal {
                number: 18,
                place: first as u32,
            })
        }
        Ok(on) => {
            if !vset::is_empty(on) {
                return Err(Refusal::whole(18));
            }
            Ok(())
        }
    }
}

// ---- totals, and last records

// One record more. The cell of a vertex that doesn't run has the ticks that it ran, that of one that runs its start less those: at a start
// and at a stop alike the new cell is the instant less the old one.
fn turn(log: &[u8], n: usize, k: usize, cells: &mut [u32; 128], lasts: &mut [u16; 128])
    requires k_bound { (k < records log.now) × (n ≤ 128) × InForm n log.now }
    requires clocked { Clocked n log.now k cells.old }
    requires lasted { Lasted log.now k lasts.old }
    ensures clocked_2 { Clocked n log.now (k + 1) cells.new }
    ensures lasted_2 { Lasted log.now (k + 1) lasts.new }
{
    let v = records::byte(log, k, 1);
    let t = records::word(log, k) as u32;
    cells[v] = t - cells[v];
    lasts[v] = (k + 1) as u16;
}

pub fn add_up(log: &[u8], n: usize) -> Spent
    requires { (n ≤ 128) × InForm n log.now }
    ensures { SpentBy n log.now result }
{
    let mut totals = [0u32; 128];
    let mut lasts = [0u16; 128];
    for k in 0..log.len() / 8 {
        turn(log, n, k, &mut totals, &mut lasts);
    }
    Spent { totals, lasts }
}
