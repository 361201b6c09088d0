// Standard Task Graph text: the reader.
#![tactic(auto)]

ghost use Rattle.std.specs.Prelude.{◌≡◌, ◌≤◌, length, replicate};
ghost use Rattle.stg_text.specs.Answers.{read_stg_of, read_room};
ghost use Rattle.stg.specs.Lines.{Gathered};

mod after;
mod comment;
mod edges;
mod lines;
mod row;
mod task;

use crate::lines::Fault;
use graph::Refusal;

// How many tasks a text has beside the entry and the exit, and how many edges.
#[derive(Clone, Copy)]
pub struct Found {
    pub n: usize,
    pub edges: usize,
}

// The times and the edges of a text. Who comes after whom is known here alone, and the function stands by itself on the stack, so that its table of
// 2 KB is gone when the file is made.
#[inline(never)]
fn listed(text: &[u8], wcets: &mut [u32; 128], list: &mut [u16; 1025]) -> Result<Found, Fault>
    requires text_len_bound { length text.now ≤ 65536 }
    requires wcets_value { (wcets.old ≡ replicate 128 0) × (list.old ≡ replicate 1025 0) }
    ensures { Gathered text.now result wcets.new list.new }
{
    let mut after = [[0u64; 2]; 128];
    let n = lines::lay_out(text, wcets, &mut after)?;
    let edges = edges::all_edges(&after, n, list);
    Ok(Found { n, edges })
}

// Reads a text with the lent cores and kinds, and writes the record file that it gives to the front of `out`. The text is read and its
// lists are made before a lent byte is touched; the rest is the record file's writer's.
pub fn read(text: &[u8], cores: &[u8], kinds: &[u8], out: &mut [u8]) -> Result<usize, Refusal>
    ensures { (result ≡ read_stg_of text.now cores.now kinds.now (length out.old)) × (out.new ≡ read_room text.now cores.now kinds.now out.old) }
{
    if 65536 < text.len() {
        return Err(Refusal::whole(23));
    }
    let mut wcets = [0u32; 128];
    let mut list = [0u16; 1025];
    match listed(text, &mut wcets, &mut list) {
        Err(fault) => {
            Err(Refusal {
                number: 23,
                place: fault.line as u32,
            })
        }
        Ok(found) => {
            writer::write(
                cores,
                kinds,
                &wcets[..found.n + 2],
                &list[..found.edges],
                out,
            )
        }
    }
}
