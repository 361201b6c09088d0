// A list of numbers of a byte, parted by commas, as an argument has it.
ghost use Rattle.std.specs.Prelude.{◌≤◌};

use faults::Wrong;
use input::word;
use texts::Sought;

// What is wrong with the piece of an argument from a place up to another.
#[derive(Clone, Copy)]
pub(crate) struct Piece {
    what: Wrong,
    start: usize,
    end: usize,
}

impl Piece {
    // It as it is said of an argument that `plan help` calls so.
    pub(crate) fn said(self, called: &[u8], argument: &[u8]) -> bool {
        let piece = texts::part(argument, self.start, self.end);
        reasons::fault::said_argument(called, self.what, piece)
    }
}

// Where the piece that begins at the place ends.
fn until_comma(w: &[u8], at: usize) -> usize
    ensures { at ≤ result }
{
    let rest = texts::part(w, at, w.len());
    match rest.iter().position(|b| *b == b',') {
        Some(n) => at.saturating_add(n),
        None => w.len().max(at),
    }
}

fn number(piece: &[u8]) -> Result<u8, Wrong> {
    u8::try_from(word::number(piece)?).map_err(|_| Wrong::Large)
}

// How many numbers it has, which are laid in the list. An argument has 4,096 bytes at most, and each number takes one and a comma.
pub(crate) fn listed(w: &[u8], list: &mut [u8; 2048]) -> Result<usize, Piece> {
    let mut at = 0usize;
    for (i, place) in list.iter_mut().enumerate() {
        let end = until_comma(w, at);
        match number(texts::part(w, at, end)) {
            Ok(n) => *place = n,
            Err(what) => {
                return Err(Piece {
                    what,
                    start: at,
                    end,
                });
            }
        }
        if end >= w.len() {
            return Ok(i + 1);
        }
        at = end + 1;
    }
    Ok(2048)
}

// How many tasks a text has that begins with this count, entry and exit among them; 128 at the most. In a text outside the layout it doesn't matter.
pub(crate) fn tasks(text: &[u8]) -> usize {
    let first = texts::until(text, 0, Sought::Word);
    match texts::number(text, first) {
        Ok(n) if n < 126 => (n + 2) as usize,
        _ => 128,
    }
}
