// The writer of the graph file: from a graph's lists to its bytes.
#![tactic(auto)]

ghost use Rattle.std.specs.Prelude.{◌≡◌, ◌≤◌, length};
ghost use Rattle.graph.specs.Judge.{judge_from};
ghost use Rattle.graph.specs.Answer.{Accepted};
ghost use Rattle.writer.specs.Lists.{lists};
ghost use Rattle.writer.specs.Write.{wrote_by, wrote_of, room_by, room_after};

mod image;
mod written;

use graph::Refusal;

// Copies an accepted file where there is room for it.
fn copied(file: &[u8], out: &mut [u8]) -> Result<usize, Refusal>
    ensures { (result ≡ wrote_by Accepted (length file.now) (length out.old)) × (out.new ≡ room_by result file.now out.old) }
{
    let size = file.len();
    if out.len() < size {
        return Err(Refusal::whole(15));
    }
    copies::copy(file, out);
    Ok(size)
}

// Copies a file that no number from 2 on refuses. The numbers 2 and 3 cannot apply to a file that is made record by record, so that the
// answer is that of the numbers from 4 on.
fn judged(file: &[u8], out: &mut [u8]) -> Result<usize, Refusal>
    requires { length file.now ≤ 9320 }
    ensures { (result ≡ wrote_by (judge_from 2 file.now) (length file.now) (length out.old)) × (out.new ≡ room_by result file.now out.old) }
{
    reader::judge(file)?;
    copied(file, out)
}

// Writes the file of a graph's lists to the front of `out`. One record more of each kind than is allowed tells that there are
// too many, so no more are looked at; and the file is made and judged before a lent byte is touched.
pub fn write(
    cores: &[u8],
    kinds: &[u8],
    wcets: &[u32],
    edges: &[u16],
    out: &mut [u8],
) -> Result<usize, Refusal>
    ensures { (result ≡ wrote_of (lists cores.now kinds.now wcets.now edges.now) (length out.old)) × (out.new ≡ room_after (lists cores.now kinds.now wcets.now edges.now) out.old) }
{
    if kinds.len() != wcets.len() {
        return Err(Refusal::whole(13));
    }
    let a = cores.len().min(11);
    let b = kinds.len().min(129);
    let e = edges.len().min(1025);
    let mut t = [0u8; 9320];
    image::image(cores, kinds, wcets, edges, a, b, e, &mut t);
    let size = 8 * (a + b + e);
    judged(&t[..size], out)
}
