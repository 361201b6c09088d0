// The lines of a board text (docs/BOARD.md): where each type's and each stage's name stands, and the first thing wrong with them; and what the
// lines say of each type and stage.
#![tactic(auto)]

ghost use Rattle.std.specs.Prelude.{◌≡◌, ◌<◌, length};
ghost use Rattle.model.specs.Places.{table};
ghost use Rattle.board.specs.Lists.{as_number_of, cores_at_of, kind_at, wcet_at_of};
ghost use Rattle.board.specs.Board.{nameless, with_kind_of, with_stage_of, kind_line_of, stage_line_of, flawed_by, worded_line_of, lines_up_to, board_of};

use faults::{Fault, Wrong};
use texts::{NumberError, Sought};

// So many types and stages, and where in the text each one's name starts and ends. A graph file has no names: 0 of both. The places stand apart from the ends, since a name is looked up in a list of places alone (`which_name`).
#[derive(Clone, Copy)]
pub struct Names {
    pub kinds: usize,
    pub stages: usize,
    pub kind: [usize; 10],
    pub kind_end: [usize; 10],
    pub stage: [usize; 128],
    pub stage_end: [usize; 128],
}

// The names of a graph file, which has none.
pub fn nameless() -> Names
    ensures { result ≡ nameless }
{
    Names {
        kinds: 0,
        stages: 0,
        kind: [0; 10],
        kind_end: [0; 10],
        stage: [0; 128],
        stage_end: [0; 128],
    }
}

// What is wrong with a text, and the names that were found before it: those of the lines above, and of the line itself a type or stage whose name is
// in order.
#[derive(Clone, Copy)]
pub struct Flawed {
    pub fault: Fault,
    pub names: Names,
}

// One type more, whose name stands from a place up to another.
#[tactic(auto, unfolding(crate::specs::Board::with_kind_of))]
fn with_kind(names: &mut Names, at: usize, end: usize)
    requires { names.old.kinds < 10 }
    ensures { names.new ≡ with_kind_of names.old at end }
{
    let k = names.kinds;
    names.kind[k] = at;
    names.kind_end[k] = end;
    names.kinds = k + 1;
}

#[tactic(auto, unfolding(crate::specs::Board::with_stage_of))]
fn with_stage(names: &mut Names, at: usize, end: usize)
    requires { names.old.stages < 128 }
    ensures { names.new ≡ with_stage_of names.old at end }
{
    let v = names.stages;
    names.stage[v] = at;
    names.stage_end[v] = end;
    names.stages = v + 1;
}

// A line `cores NAME NUMBER`, whose first word stands at the place.
#[tactic(auto, unfolding(crate::specs::Board::kind_line_of))]
fn kind_line(t: &[u8], names: &mut Names, at: usize) -> Result<(), Fault>
    ensures { flawed_by names.new result ≡ kind_line_of t.now names.old at }
{
    let name = texts::after(t, at);
    if !texts::is_word(t, name) {
        return Err(Fault {
            what: Wrong::Missing,
            at,
        });
    }
    faults::of_name(t, name, &names.kind, names.kinds, Wrong::KindTwice)?;
    if names.kinds >= 10 {
        return Err(Fault {
            what: Wrong::KindMany,
            at: name,
        });
    }
    with_kind(names, name, texts::until(t, name, Sought::End));
    faults::of_number_alone(t, name, 255)?;
    Ok(())
}

// A line `NAME TYPE WCET [WAITS-FOR..]`, whose first word stands at the place.
#[tactic(auto, unfolding(crate::specs::Board::stage_line_of))]
fn stage_line(t: &[u8], names: &mut Names, at: usize) -> Result<(), Fault>
    ensures { flawed_by names.new result ≡ stage_line_of t.now names.old at }
{
    faults::of_name(t, at, &names.stage, names.stages, Wrong::StageTwice)?;
    if names.stages >= 128 {
        return Err(Fault {
            what: Wrong::StageMany,
            at,
        });
    }
    with_stage(names, at, texts::until(t, at, Sought::End));
    faults::of_stage(t, at)?;
    Ok(())
}

// The names of the line whose first word stands at the place, laid beside those that were found before. They are lent: handed on by value they
// would be moved for each line, 2 KB.
fn line(t: &[u8], names: &mut Names, first: usize) -> Result<(), Fault>
    ensures { flawed_by names.new result ≡ worded_line_of t.now names.old first }
{
    if texts::word_is(t, first, b"cores") {
        kind_line(t, names, first)
    } else {
        stage_line(t, names, first)
    }
}

// The names of the lines, or the first fault and the names up to it.
fn lines(t: &[u8]) -> Result<Names, Flawed>
    ensures { result ≡ lines_up_to t.now (length t.now) }
{
    let mut names = nameless();
    let mut at = 0;
    while at < t.len() {
        let first = texts::until(t, at, Sought::Word);
        if texts::is_word(t, first) {
            if let Err(fault) = line(t, &mut names, first) {
                return Err(Flawed { fault, names });
            }
        }
        at = texts::next(t, at);
    }
    Ok(names)
}

// The names of the types and stages of a text, or the first thing wrong with it but for the types and stages that its stages name, and the names
// found before that.
#[tactic(auto, unfolding(crate::specs::Board::board_of))]
pub fn read(t: &[u8]) -> Result<Names, Flawed>
    ensures { result ≡ board_of t.now }
{
    match faults::of_text(t) {
        Ok(()) => lines(t),
        Err(fault) => Err(Flawed {
            fault,
            names: nameless(),
        }),
    }
}

// A number of a text without a fault. What else is given for none, 1, and for one that is too large, 0, is asked for in no such text.
fn as_number(said: Result<u32, NumberError>) -> u32
    ensures { result ≡ as_number_of said }
{
    match said {
        Ok(n) => n,
        Err(NumberError::TooLarge) => 0,
        Err(NumberError::NotDigits) => 1,
    }
}

// How many cores type k has.
fn cores_at(t: &[u8], names: Names, k: usize) -> u8
    requires { k < 10 }
    ensures { result ≡ cores_at_of t.now names k }
{
    let kind = names.kind;
    if k < names.kinds {
        return (as_number(texts::number(t, texts::after(t, kind[k]))) % 256) as u8;
    }
    0
}

// The cores of each type, of a text without a fault.
pub fn cores(t: &[u8], names: Names) -> [u8; 10]
    ensures { result ≡ table (cores_at_of t.now names) 10 }
{
    let mut list = [0u8; 10];
    for (k, n) in list.iter_mut().enumerate() {
        *n = cores_at(t, names, k);
    }
    list
}

// The type of stage v; so many as there are types where none has the name.
fn kind_at(t: &[u8], names: Names, v: usize) -> u8
    requires { v < 128 }
    ensures { result ≡ kind_at t.now names v }
{
    let kind = names.kind;
    let stage = names.stage;
    if v < names.stages {
        let at = texts::after(t, stage[v]);
        let found = texts::find(t, &kind, names.kinds, t, at);
        return (found.unwrap_or(names.kinds) % 256) as u8;
    }
    0
}

// The type of each stage.
pub fn kinds(t: &[u8], names: Names) -> [u8; 128]
    ensures { result ≡ table (kind_at t.now names) 128 }
{
    let mut list = [0u8; 128];
    for (v, k) in list.iter_mut().enumerate() {
        *k = kind_at(t, names, v);
    }
    list
}

// The WCET of stage v.
fn wcet_at(t: &[u8], names: Names, v: usize) -> u32
    requires { v < 128 }
    ensures { result ≡ wcet_at_of t.now names v }
{
    let stage = names.stage;
    if v < names.stages {
        let kind = texts::after(t, stage[v]);
        return as_number(texts::number(t, texts::after(t, kind)));
    }
    0
}

// The WCET of each stage.
pub fn wcets(t: &[u8], names: Names) -> [u32; 128]
    ensures { result ≡ table (wcet_at_of t.now names) 128 }
{
    let mut list = [0u32; 128];
    for (v, ticks) in list.iter_mut().enumerate() {
        *ticks = wcet_at(t, names, v);
    }
    list
}
