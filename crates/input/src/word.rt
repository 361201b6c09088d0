// An argument as it stands: one word, a number of 32 bits, or the name or number of something that a board text names.

use faults::Wrong;
use texts::Sought;

// Whether it is one word, or nothing: only such a one can be a name or a number.
pub fn is_one(w: &[u8]) -> bool {
    texts::until(w, 0, Sought::End) == w.len()
}

// It as a number, or what is wrong with it as one.
pub fn number(w: &[u8]) -> Result<u32, Wrong> {
    if !is_one(w) {
        return Err(Wrong::NoNumber);
    }
    Ok(texts::number(w, 0)?)
}

// Which of the n names that stand at these places of the text it is.
fn called(t: &[u8], places: &[usize], n: usize, w: &[u8]) -> Option<usize> {
    if !is_one(w) {
        return None;
    }
    texts::find(t, places, n, w, 0)
}

// What it names: the one that is called so, else the one of this number. Whether the graph has it is for the planner to say: a word that could be a name, and
// is none of the board text's, is one past the last.
pub fn named(t: &[u8], places: &[usize], n: usize, w: &[u8]) -> Result<u32, Wrong> {
    if let Some(i) = called(t, places, n, w) {
        return Ok((i % 4294967296) as u32);
    }
    match number(w) {
        Err(Wrong::NoNumber) if n > 0 => Ok((n % 4294967296) as u32),
        meant => meant,
    }
}
