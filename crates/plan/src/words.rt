// The words of the command: a line for each by how many arguments it takes in `meant` and in `answered`, and one in `say::help`.
ghost use Rattle.graph.specs.Model.{AcceptedGraph};

use board::Names;
use graph::{Graph, Refusal};
use input::Failure;
use std::env::FillError;
use std::rt::{Env, Files};

// What is asked of an accepted file.
#[derive(Clone, Copy, Debug, PartialEq, Eq)]
enum Asked {
    Sheet,
    Run,
    RunTimed,
    Graph,
    Text,
    Gains,
    GainsAltered,
    Late,
    Replay,
    Log,
    LogTimed,
    ToStg,
    Compare,
    Enough,
    Json,
    Chart,
    ChartGiven,
    Dot,
}

#[derive(Clone, Copy, Debug, PartialEq, Eq)]
enum Word {
    Help,
    Version,
    FromStg,
    Mend,
    // What is asked, and the argument that names the file.
    Of(Asked, usize),
}

// The word where so many arguments stand behind it.
fn meant(word: &[u8], arguments: usize) -> Option<Word> {
    match (arguments, word) {
        (1, b"sheet") => Some(Word::Of(Asked::Sheet, 2)),
        (1, b"json") => Some(Word::Of(Asked::Json, 2)),
        (1, b"graph") => Some(Word::Of(Asked::Graph, 2)),
        (1, b"text") => Some(Word::Of(Asked::Text, 2)),
        (1, b"to-stg") => Some(Word::Of(Asked::ToStg, 2)),
        (1, b"dot") => Some(Word::Of(Asked::Dot, 2)),
        (1, b"run") => Some(Word::Of(Asked::Run, 2)),
        (1, b"log") => Some(Word::Of(Asked::Log, 2)),
        (1, b"chart") => Some(Word::Of(Asked::Chart, 2)),
        (1, b"gains") => Some(Word::Of(Asked::Gains, 2)),
        (2, b"run") => Some(Word::Of(Asked::RunTimed, 2)),
        (2, b"log") => Some(Word::Of(Asked::LogTimed, 2)),
        (2, b"chart") => Some(Word::Of(Asked::ChartGiven, 2)),
        (2, b"replay") => Some(Word::Of(Asked::Replay, 2)),
        (2, b"compare") => Some(Word::Of(Asked::Compare, 2)),
        (2, b"mend") => Some(Word::Mend),
        (3, b"gains") => Some(Word::Of(Asked::GainsAltered, 2)),
        (3, b"late") => Some(Word::Of(Asked::Late, 2)),
        (3, b"enough") => Some(Word::Of(Asked::Enough, 2)),
        (3, b"from-stg") => Some(Word::FromStg),
        _ => None,
    }
}

// A word that stands alone. Any that is none of the command's is a file, but for what looks like an option.
fn alone(name: &[u8]) -> Option<Word> {
    match name {
        b"help" | b"--help" | b"-h" => Some(Word::Help),
        b"version" | b"--version" => Some(Word::Version),
        b"-" => Some(Word::Of(Asked::Sheet, 1)),
        [b'-', ..] => None,
        _ => {
            if (1..4).any(|arguments| meant(name, arguments).is_some()) {
                return None;
            }
            Some(Word::Of(Asked::Sheet, 1))
        }
    }
}

// Which word stands first, where there are as many arguments as it takes, the command's own name among them.
fn first(name: &[u8], n: usize) -> Option<Word> {
    match n {
        2 => alone(name),
        3..=5 => meant(name, n - 2),
        _ => None,
    }
}

// What is said of an accepted file, its graph, and the bytes that gave it.
fn answered(
    rt: &(impl Env + Files + Input),
    asked: Asked,
    t: &[u8],
    names: Names,
    g: Graph,
    file: &[u8],
) -> Result<(), Failure>
    requires { AcceptedGraph g }
{
    match asked {
        Asked::Sheet => answers::sheet::answer(t, names, g),
        Asked::Run => answers_runs::run::full(rt, t, names, g, file),
        Asked::RunTimed => answers_runs::run::timed(rt, t, names, g, file),
        Asked::Graph => answers::text::file(file),
        Asked::Text => answers::text::answer(t, names, g),
        Asked::Gains => answers_gains::full(t, names, g),
        Asked::GainsAltered => answers_gains::altered(rt, t, names, g, file),
        Asked::Late => answers_runs::by_tick::timed(rt, t, names, g, file),
        Asked::Replay => answers_runs::frame::replayed(rt, t, names, g, file),
        Asked::Log => answers_runs::frame::full(rt, t, g, file),
        Asked::LogTimed => answers_runs::frame::timed(rt, t, names, g, file),
        Asked::ToStg => answers_stg::written(file),
        Asked::Compare => answers_compare::answer(rt, t, names, g),
        Asked::Enough => answers_enough::fewest(rt, t, names, file),
        Asked::Json => answers_json::answer(t, names, g),
        Asked::Chart => answers_chart::full(rt, t, names, g, file),
        Asked::ChartGiven => answers_chart::given(rt, t, names, g, file),
        Asked::Dot => answers_dot::answer(t, names, g),
    }
}

// A refusal, as the word has its answers. Of two files it is said which one is refused.
fn refused(rt: &impl Env, asked: Asked, r: Refusal) -> Failure {
    match asked {
        Asked::Compare => answers_compare::refused(rt, answers_compare::FIRST, r),
        Asked::Json => input::no(say::json::refused(r)),
        _ => input::no(say::out::refused(r)),
    }
}

// What is said of a file. The one place that calls the reader, but for the second of two files: a file is read and judged once, and refused here or not at all.
fn taken(
    rt: &(impl Env + Files + Input),
    asked: Asked,
    t: &[u8],
    names: Names,
    file: &[u8],
) -> Result<(), Failure> {
    match reader::read(file) {
        Err(r) => Err(refused(rt, asked, r)),
        Ok(g) => answered(rt, asked, t, names, g, file),
    }
}

// What is said of the bytes that argument k names.
fn judged(
    rt: &(impl Env + Files + Input),
    asked: Asked,
    k: usize,
    t: &[u8],
) -> Result<(), Failure> {
    let mut room = [0u8; 9304];
    let made = input::given::file(rt, k, t, asked == Asked::Json, &mut room)?;
    let names = made.names;
    taken(rt, asked, t, names, texts::part(&room, 0, made.n))
}

// What is said of what argument k names.
fn read(rt: &(impl Env + Files + Input), asked: Asked, k: usize) -> Result<(), Failure> {
    let mut space = [0u8; 65537];
    let n = input::read(rt, k, &mut space)?;
    judged(rt, asked, k, texts::part(&space, 0, n))
}

// What is wrong where arguments 2 and 3 are both standard input.
fn both_standard(asked: Asked) -> Option<&'static [u8]> {
    match asked {
        Asked::RunTimed | Asked::Late | Asked::Replay | Asked::LogTimed | Asked::ChartGiven => {
            Some(b"standard input can't be the graph and what goes with it")
        }
        Asked::Compare => Some(b"standard input can't be both files"),
        _ => None,
    }
}

fn of_file(rt: &(impl Env + Files + Input), asked: Asked, k: usize) -> Result<(), Failure> {
    if let Some(wrong) = both_standard(asked) {
        if input::is_standard(rt, 2) & input::is_standard(rt, 3) {
            return Err(input::wrong(wrong));
        }
    }
    read(rt, asked, k)
}

fn done(rt: &(impl Env + Files + Input), word: Option<Word>) -> Result<(), Failure> {
    match word {
        None => Err(input::wrong(b"not a word of the command, or not so many words")),
        Some(Word::Help) => input::answer(say::help::page()),
        Some(Word::Version) => input::answer(say::help::version()),
        Some(Word::FromStg) => answers_stg::read(rt),
        Some(Word::Mend) => answers_mend::answer(rt),
        Some(Word::Of(asked, k)) => of_file(rt, asked, k),
    }
}

// How many arguments there are, the command's own name among them.
fn count(rt: &impl Env) -> usize {
    let mut space = [0u8; 1];
    let is_missing = |&k: &usize| matches!(rt.arg(k, &mut space), Err(FillError::NotPresent));
    (0..usize::MAX).find(is_missing).unwrap_or(usize::MAX)
}

pub(crate) fn answer(rt: &(impl Env + Files + Input)) -> Result<(), Failure> {
    let n = count(rt);
    let mut space = io::buffer();
    match rt.arg(1, &mut space) {
        Ok(long) => done(rt, first(&space[..long], n)),
        Err(_) => done(rt, first(b"", n)),
    }
}
