// What a text gets wrong (docs/BOARD.md), and the tests for a text as such, its numbers and its names.
#![tactic(auto)]

ghost use Rattle.std.specs.Prelude.{◌≡◌, ◌-◌, ltb};
ghost use Rattle.texts.specs.declared.Sought.TheVariants.{Line};
ghost use Rattle.texts.specs.Text.{until};
ghost use Rattle.faults.specs.Faults.{wrong_number, line_fault, text_fault, number_fault, name_fault, alone_fault, stage_fault};

use texts::{NumberError, Sought};

// What is wrong.
#[derive(Clone, Copy, Debug, PartialEq, Eq)]
pub enum Wrong {
    TextLong,
    Strange,
    LineLong,
    NameLong,
    KindTwice,
    StageTwice,
    KindMany,
    StageMany,
    Missing,
    Extra,
    NoNumber,
    Large,
    NoKind,
    NoStage,
    WaitTwice,
    WaitMany,
    TimeTwice,
    Cores,
    Wcet,
    Itself,
    Cycle,
    Time,
    KindsNone,
    StagesNone,
    Absent,
}

impl From<NumberError> for Wrong {
    ghost from_gives = { λ e w. w ≡ wrong_number e };

    fn from(e: NumberError) -> Wrong {
        match e {
            NumberError::NotDigits => Wrong::NoNumber,
            NumberError::TooLarge => Wrong::Large,
        }
    }
}

// What is wrong, and the place in the text of the word that it is about.
#[derive(Clone, Copy, Debug, PartialEq, Eq)]
pub struct Fault {
    pub what: Wrong,
    pub at: usize,
}

// Whether a line that begins at the place is too long.
fn is_long(t: &[u8], at: usize) -> bool
    ensures { result ≡ ltb 4096 (until Line t.now at - at) }
{
    texts::until(t, at, Sought::Line) - at > 4096
}

fn of_lines(t: &[u8]) -> Result<(), Fault>
    ensures { result ≡ line_fault t.now }
{
    let mut at = 0;
    while at < t.len() {
        if is_long(t, at) {
            return Err(Fault {
                what: Wrong::LineLong,
                at,
            });
        }
        at = texts::next(t, at);
    }
    Ok(())
}

// What is wrong with a text as such: its length, its bytes, its lines' lengths.
#[tactic(auto, unfolding(crate::specs::Faults::text_fault))]
pub fn of_text(t: &[u8]) -> Result<(), Fault>
    ensures { result ≡ text_fault t.now }
{
    if t.len() > 65536 {
        return Err(Fault {
            what: Wrong::TextLong,
            at: 65536,
        });
    }
    let strange = texts::until(t, 0, Sought::Strange);
    if strange < t.len() {
        return Err(Fault {
            what: Wrong::Strange,
            at: strange,
        });
    }
    of_lines(t)
}

// The word at the place as a number; what is wrong with it where it is none, or above the most. A number that 32 bits don't hold is above each most
// that they hold, and within each that they don't: then 4,294,967,295 stands for it, the largest that they hold.
pub fn of_number(t: &[u8], at: usize, most: u64) -> Result<u32, Fault>
    ensures { result ≡ number_fault t.now at most }
{
    match texts::number(t, at) {
        Ok(n) => {
            if u64::from(n) > most {
                return Err(Fault {
                    what: Wrong::Large,
                    at,
                });
            }
            Ok(n)
        }
        Err(NumberError::TooLarge) if most > 4294967295 => Ok(4294967295),
        Err(e) => Err(Fault {
            what: Wrong::from(e),
            at,
        }),
    }
}

// What is wrong with the word at the place as a new name beside the first n of a list. `twice` is what is wrong with a name that is there.
#[tactic(auto, unfolding(crate::specs::Faults::name_fault))]
pub fn of_name(t: &[u8], at: usize, names: &[usize], n: usize, twice: Wrong) -> Result<(), Fault>
    ensures { result ≡ name_fault t.now at names.now n twice }
{
    if texts::until(t, at, Sought::End) - at > 64 {
        return Err(Fault {
            what: Wrong::NameLong,
            at,
        });
    }
    match texts::find(t, names, n, t, at) {
        Some(_) => Err(Fault { what: twice, at }),
        None => Ok(()),
    }
}

// The number of at most so much that follows the word at the place, as `of_number` says it; what is wrong where none does, or something else too.
#[tactic(auto, unfolding(crate::specs::Faults::alone_fault))]
pub fn of_number_alone(t: &[u8], at: usize, most: u64) -> Result<u32, Fault>
    ensures { result ≡ alone_fault t.now at most }
{
    let number = texts::after(t, at);
    if !texts::is_word(t, number) {
        return Err(Fault {
            what: Wrong::Missing,
            at,
        });
    }
    let n = of_number(t, number, most)?;
    let more = texts::after(t, number);
    if texts::is_word(t, more) {
        return Err(Fault {
            what: Wrong::Extra,
            at: more,
        });
    }
    Ok(n)
}

// The WCET that follows the name of a stage, behind its type; what is wrong where they don't. What it waits for is looked at later.
#[tactic(auto, unfolding(crate::specs::Faults::stage_fault))]
pub fn of_stage(t: &[u8], at: usize) -> Result<u32, Fault>
    ensures { result ≡ stage_fault t.now at }
{
    let kind = texts::after(t, at);
    if !texts::is_word(t, kind) {
        return Err(Fault {
            what: Wrong::Missing,
            at,
        });
    }
    let wcet = texts::after(t, kind);
    if !texts::is_word(t, wcet) {
        return Err(Fault {
            what: Wrong::Missing,
            at: kind,
        });
    }
    of_number(t, wcet, 4294967295)
}
