// Standard Task Graph text: the writer.
#![tactic(auto)]

ghost use Rattle.std.specs.Prelude.{◌≡◌, length};
ghost use Rattle.reader.specs.Laid.{Usable};
ghost use Rattle.writer.specs.Write.{room_by};
ghost use Rattle.stg_text.specs.Canonical.{text_of};
ghost use Rattle.stg_text.specs.Answers.{write_of, write_stg_of, write_room};

mod before; // before.rt: who is a predecessor
mod ends; // ends.rt: whether there are other ends than the first vertex and the last
mod text; // text.rt: the text, and its length

use graph::Refusal;
use reader::Laid;

// The text of an accepted graph. Its length is known before a lent byte is touched, so that the text goes straight into the lent room.
fn written(laid: &Laid, out: &mut [u8]) -> Result<usize, Refusal>
    requires { Usable laid.now }
    ensures { (result ≡ write_of laid.now.graph (length out.old)) × (out.new ≡ room_by result (text_of laid.now.graph) out.old) }
{
    let g = &laid.graph;
    let some = before::leading(&g.edge, g.edges);
    if ends::other_ends(g.n, &laid.pred, some, &g.wcet) {
        return Err(Refusal::whole(24));
    }
    let size = text::text_length(g.n, &laid.pred, &g.wcet);
    if out.len() < size {
        return Err(Refusal::whole(15));
    }
    text::put_text(out, g.n, &laid.pred, &g.wcet);
    Ok(size)
}

// Writes the text of a graph file to the front of `out`.
pub fn write(file: &[u8], out: &mut [u8]) -> Result<usize, Refusal>
    ensures { (result ≡ write_stg_of file.now (length out.old)) × (out.new ≡ write_room file.now out.old) }
{
    let mut laid = Laid::blank();
    reader::take_rows(file, &mut laid)?;
    written(&laid, out)
}
