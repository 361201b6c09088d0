// What a text gets wrong: the file, the line, the word. Of a board text it may be asked for as JSON (docs/JSON.md).
use board::Names;
use faults::{Fault, Wrong};
use quoted::json::name;
use say::json::member;
use say::{names, out};
use std::rt::Env;
use texts::{Sought, part};

// What is said, with `*` where the word stands.
fn row(what: Wrong) -> &'static [u8] {
    match what {
        Wrong::TextLong => b"the text has more than 65536 bytes",
        Wrong::Strange => b"* is a byte that is no text",
        Wrong::LineLong => b"the line has more than 4096 bytes",
        Wrong::NameLong => b"the name * has more than 64 bytes",
        Wrong::KindTwice => b"a second type is called *",
        Wrong::StageTwice => b"a second stage is called *",
        Wrong::KindMany => b"type * is one too many: 10 are the most",
        Wrong::StageMany => b"stage * is one too many: 128 are the most",
        Wrong::Missing => b"a word is missing after *",
        Wrong::Extra => b"* is one word too many",
        Wrong::NoNumber => b"* is no number",
        Wrong::Large => b"* is too large a number",
        Wrong::NoKind => b"no type is called *",
        Wrong::NoStage => b"no stage is called *",
        Wrong::WaitTwice => b"* is waited for twice",
        Wrong::WaitMany => b"* is one wait too many: 1024 are the most",
        Wrong::TimeTwice => b"a second time for *",
        Wrong::Cores => b"type * has not 1 to 16 cores",
        Wrong::Wcet => b"stage * has a WCET above 1000000",
        Wrong::Itself => b"stage * waits for itself",
        Wrong::Cycle => b"stage * waits for itself by way of others",
        Wrong::Time => b"* is above the WCET of its stage",
        Wrong::KindsNone => b"no type is declared",
        Wrong::StagesNone => b"no stage is declared",
        Wrong::Absent => b"the graph has no stage *",
    }
}

// Where the word stands in a row.
fn mark(row: &[u8]) -> Option<usize> {
    row.iter().position(|b| *b == b'*')
}

// A row, with a word in quotes where it has its mark.
fn worded(row: &[u8], word: &[u8]) -> bool {
    let Some(mark) = mark(row) else {
        return out::text(row) & out::end();
    };
    let before = out::text(part(row, 0, mark)) & out::text(b"\"") & out::text(word);
    let after = out::text(b"\"") & out::text(part(row, mark.saturating_add(1), row.len()));
    before & after & out::end()
}

// A row as it stands, and the word, which is null where the row has no mark.
fn as_json(row: &[u8], word: &[u8]) -> bool {
    let says = out::text(b", \"says\": ") & name(row) & out::text(b", \"word\": ");
    match mark(row) {
        Some(_) => says & name(word) & out::text(b"}}\n"),
        None => says & out::text(b"null}}\n"),
    }
}

// What is wrong, about a word.
fn saying(what: Wrong, word: &[u8], json: bool) -> bool {
    let row = row(what);
    if json {
        as_json(row, word)
    } else {
        worded(row, word)
    }
}

// The number of the line that a place of a text is in, from 1.
fn line(t: &[u8], at: usize) -> u64 {
    let breaks = t.iter().take(at).filter(|b| **b == b'\n').count();
    1 + breaks as u64
}

// The text that argument k names, and the line of a place in it.
fn placed(rt: &impl Env, k: usize, t: &[u8], at: usize) -> bool {
    let first = out::argument(rt, k) & out::text(b": line ") & out::number(line(t, at));
    first & out::text(b": ")
}

// What the text that argument k names gets wrong at a place of it, about a word.
fn told(
    rt: &impl Env,
    k: usize,
    t: &[u8],
    what: Wrong,
    at: usize,
    word: &[u8],
    json: bool,
) -> bool {
    if json {
        let first = member(b"{\"fault\": {\"line\": ", line(t, at));
        return first & saying(what, word, true);
    }
    placed(rt, k, t, at) & saying(what, word, false)
}

// The same with the word from a place to another.
pub fn said(rt: &impl Env, k: usize, t: &[u8], what: Wrong, at: usize, end: usize) -> bool {
    told(rt, k, t, what, at, part(t, at, end), false)
}

// The same of a fault that was found in a board text, as JSON or not: the word ends where it does.
pub fn of_board(rt: &impl Env, k: usize, t: &[u8], f: Fault, json: bool) -> bool {
    if f.what == Wrong::Strange {
        return told_byte(rt, k, t, f.what, f.at, json);
    }
    let end = texts::until(t, f.at, Sought::End);
    told(rt, k, t, f.what, f.at, part(t, f.at, end), json)
}

// The same in another text.
pub fn of_text(rt: &impl Env, k: usize, t: &[u8], f: Fault) -> bool {
    of_board(rt, k, t, f, false)
}

// The same with the number of the byte at the place.
fn told_byte(rt: &impl Env, k: usize, t: &[u8], what: Wrong, at: usize, json: bool) -> bool {
    let mut digits = [0u8; 20];
    let byte = t.get(at).copied().unwrap_or(0);
    let n = io::decimal(u64::from(byte), &mut digits);
    told(rt, k, t, what, at, &digits[..n], json)
}

// The same with the name of a type, or of a stage.
pub fn said_kind(rt: &impl Env, k: usize, t: &[u8], of: Names, what: Wrong, i: usize) -> bool {
    let at = of.kind.get(i).copied().unwrap_or(0);
    told(rt, k, t, what, at, names::of_kind(t, of, i), false)
}

pub fn said_stage(rt: &impl Env, k: usize, t: &[u8], of: Names, what: Wrong, v: usize) -> bool {
    let at = of.stage.get(v).copied().unwrap_or(0);
    told(rt, k, t, what, at, names::of_stage(t, of, v), false)
}

// What is wrong with the argument that `plan help` calls so, which has the word.
pub fn said_argument(called: &[u8], what: Wrong, word: &[u8]) -> bool {
    out::text(called) & out::text(b": ") & saying(what, word, false)
}

// A text of times, named by argument k, that has another number of them than the graph has stages.
pub fn counted(rt: &impl Env, k: usize, times: usize, stages: usize) -> bool {
    let first = out::argument(rt, k) & out::text(b":") & out::field(times as u64);
    first & out::text(b" times for") & out::field(stages as u64) & out::text(b" stages\n")
}
