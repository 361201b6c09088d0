// How many cores are enough: the smallest number of cores of one type, from 1 to 16, with which NEW-B-1's whole ticks are at or below a limit, all
// else as declared. The entry takes the file's bytes.
#![tactic(auto)]

ghost use Rattle.enough.specs.Fewest.{fewest};
ghost use Rattle.enough.specs.Answers.{EnoughOf};

use graph::Refusal;
use reader::Laid;

mod accepted; // accepted.rt: of an accepted graph

// The smallest number of cores that is enough.
pub fn enough(file: &[u8], kind: u32, limit: u32) -> Result<u8, Refusal>
    ensures { EnoughOf file.now kind limit (fewest result) }
{
    let mut laid = Laid::blank();
    reader::take_rows(file, &mut laid)?;
    accepted::fewest_of(&laid, kind, limit)
}
