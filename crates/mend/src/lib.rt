// Mends a hand-edited file, and lists what was done.
#![tactic(auto)]

ghost use Rattle.std.specs.Prelude.{◌≡◌, ◌*◌, ◌≤◌, length};
ghost use Rattle.graph.specs.File.{records};
ghost use Rattle.graph.specs.Answer as answers;
ghost use Rattle.mends.specs.Answers.{Mendable, mend_of, file_after, list_after_of};
ghost use Rattle.mend.specs.Filling.{Filled, Answered};

mod judge;
mod lay;
mod note;

use graph::Refusal;
use mends::Sizes;

// Mends a file into buffers that are long enough. The tables stand here, and are lent.
fn fill(file: &[u8], out: &mut [u8], list: &mut [u8]) -> Sizes
    requires { Mendable file.now × (length file.now ≤ length out.old) × (16 * records file.now ≤ length list.old) }
    ensures { Filled file.now out.old list.old result out.new list.new }
{
    let mut t = [0u64; 1024];
    let mut before = [0u16; 1024];
    let mut marks = [0u8; 1162];
    mend_keys::mark(file, &mut t, &mut marks);
    mend_keys::lower_of(&t, &mut before);
    let n = lay::lay(file, &t, &before, &marks, out);
    let size = note::note_all(file, &t, &before, &marks, list);
    Sizes {
        file: 8 * n,
        list: size,
    }
}

// Mends a file that none of 1, 2 and 3 applies to.
fn mend_into(file: &[u8], out: &mut [u8], list: &mut [u8]) -> Result<Sizes, Refusal>
    requires { Mendable file.now }
    ensures { Answered answers.Accepted file.now out.old list.old result out.new list.new }
{
    let m = file.len() / 8;
    if (out.len() < file.len()) | (list.len() < 16 * m) {
        return Err(Refusal::whole(15));
    }
    Ok(fill(file, out, list))
}

// Writes the mended file to the front of `out`, and what was done to the front of `list`.
pub fn mend(file: &[u8], out: &mut [u8], list: &mut [u8]) -> Result<Sizes, Refusal>
    ensures { (result ≡ mend_of file.now (length out.old) (length list.old)) × (out.new ≡ file_after file.now out.old list.old) × (list.new ≡ list_after_of file.now out.old list.old) }
{
    judge::judge(file)?;
    mend_into(file, out, list)
}
