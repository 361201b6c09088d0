// What the colours and the lines mean.
ghost use Rattle.std.specs.Prelude.{◌<◌};

use crate::Told;
use chart_page::element;

fn words(x: u64, y: u64, words: &[u8]) -> bool
    requires { (x < 1220) × (y < 65536) }
{
    element::words(b"<text", x + 30, y + 10, words)
}

fn colour(before: &[u8], x: u64, y: u64, meaning: &[u8]) -> bool
    requires { (x < 1220) × (y < 65536) }
{
    element::rect(before, x, y, 24, 12) & element::end() & words(x, y, meaning)
}

fn stroke(before: &[u8], x: u64, y: u64, meaning: &[u8]) -> bool
    requires { (x < 1220) × (y < 65536) }
{
    element::line(before, x, y + 6, x + 24, y + 6) & words(x, y, meaning)
}

fn bounds_of(told: Told, y: u64) -> bool
    requires { y < 65536 }
{
    let finish = stroke(b"<line class=\"finish\"", 540, y, b"finish");
    let new = stroke(b"<line class=\"new\"", 640, y, b"NEW-B-1, whole ticks");
    if told.second.is_none() {
        return finish & new;
    }
    finish & new & stroke(b"<line class=\"second\"", 820, y, b"NEW-B-2, whole ticks")
}

fn said(told: Told, y: u64) -> bool
    requires { y < 65536 }
{
    match told.refusal {
        None => bounds_of(told, y),
        Some(r) => match r.number {
            22 => stroke(b"<line class=\"new\"", 540, y, b"where it is refused"),
            _ => colour(b"<rect class=\"wrong\"", 540, y, b"what is refused"),
        },
    }
}

pub(crate) fn all(told: Told, y: u64) -> bool
    requires { y < 65536 }
{
    let path = colour(
        b"<rect class=\"path\"",
        180,
        y,
        b"a stage of the bound's path",
    );
    let stage = colour(b"<rect class=\"stage\"", 400, y, b"another stage");
    path & stage & said(told, y)
}
