// The lowest number from 2 to 10 that applies, with the first record that it holds for.
ghost use Rattle.std.specs.Prelude.{◌≡◌, ◌<◌, ◌≤◌, length};
ghost use Rattle.model.specs.Places.{first};
ghost use Rattle.graph.specs.File.{records};
ghost use Rattle.graph.specs.Rules.{per_record_of, places};
ghost use Rattle.graph.specs.Judge.{place_of};
ghost use Rattle.records.specs.Passing.{Counted};
ghost use Rattle.rules.specs.Rows.{of_record};
ghost use Rattle.reader.specs.Steps.{lowest_in_of, Found};

use graph::Refusal;
use records::{Counts, pass, start};
use rules::{counts_fail, record_fails};

// Whether a number is tested for each record, and not for place 0 alone.
fn per_record(number: u32) -> bool
    ensures { result ≡ per_record_of number }
{
    matches!(number, 2 | 3 | 5 | 7 | 9 | 10)
}

// How many places a number is tested for.
fn span(file: &[u8], number: u32) -> usize
    ensures { result ≡ places file.now number }
{
    if per_record(number) {
        file.len() / 8
    } else {
        1
    }
}

// The first record that is at fault, or as many as there are.
fn scan(file: &[u8], number: u32, c: Counts) -> usize
    requires { Counted file.now c }
    ensures { result ≡ first (of_record file.now number) (records file.now) }
{
    let m = file.len() / 8;
    let mut p = start();
    for k in 0..m {
        if record_fails(file, number, k, p, c) {
            return k;
        }
        p = pass(file, k, p);
    }
    m
}

// The first place that a number holds for, or as many as there are.
fn place(file: &[u8], number: u32, c: Counts) -> usize
    requires { Counted file.now c × (2 ≤ number) × (number < 11) }
    ensures { result ≡ place_of file.now number }
{
    if per_record(number) {
        return scan(file, number, c);
    }
    if counts_fail(number, c) { 0 } else { 1 }
}

// The lowest number from 2 to 10 that applies, with its place. The numbers are tested in order.
fn by_number(file: &[u8], c: Counts) -> Result<(), Refusal>
    requires { Counted file.now c × (length file.now ≤ 9320) }
    ensures { result ≡ lowest_in_of file.now }
{
    for number in 2..11 {
        let at = place(file, number, c);
        if at < span(file, number) {
            return Err(Refusal {
                number,
                place: at as u32,
            });
        }
    }
    Ok(())
}

// How many records there are of each kind, where none of these numbers applies. A file as it should be is passed once. Only where that does
// not reach the end are the numbers tested, one after another.
pub(crate) fn lowest(file: &[u8]) -> Result<Counts, Refusal>
    requires { length file.now ≤ 9320 }
    ensures { Found file.now result }
{
    let plain = plain::counts(file);
    if plain::whole(file, plain) {
        return Ok(plain);
    }
    let counts = records::count_all(file);
    by_number(file, counts)?;
    Ok(counts)
}
