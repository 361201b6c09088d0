// The numbers 1, 2 for an unknown kind only, and 3.
ghost use Rattle.std.specs.Prelude.{◌≡◌, ◌≤◌, ◌<◌, MatchOption};
ghost use Rattle.model.specs.Places.{first};
ghost use Rattle.graph.specs.File.{records};
ghost use Rattle.graph.specs.Rules.{rule3};
ghost use Rattle.graph.specs.Answer as answers;
ghost use Rattle.mends.specs.Answers.{unknown, judge_mend};

use graph::Refusal;

// The first record of no known kind.
fn first_unknown(file: &[u8]) -> Option<usize>
    ensures { MatchOption result (first (unknown file.now) (records file.now) ≡ records file.now) (λ k. (first (unknown file.now) (records file.now) ≡ k) × (k < records file.now)) }
{
    for k in 0..file.len() / 8 {
        if records::order_of(file, k) == 3 {
            return Some(k);
        }
    }
    None
}

// The first record of a lower order than one before it. Until then each order is the latest.
fn first_late(file: &[u8]) -> Option<usize>
    ensures { MatchOption result (first (rule3 file.now) (records file.now) ≡ records file.now) (λ k. (first (rule3 file.now) (records file.now) ≡ k) × (k < records file.now)) }
{
    let mut latest = 0;
    for k in 0..file.len() / 8 {
        let order = records::order_of(file, k);
        if order < latest {
            return Some(k);
        }
        latest = order;
    }
    None
}

fn refused(number: u32, place: usize) -> Result<(), Refusal>
    requires { place ≤ 1162 }
    ensures { result ≡ answers.Refused (record { number = number; place = place }) }
{
    Err(Refusal {
        number,
        place: place as u32,
    })
}

pub(crate) fn judge(file: &[u8]) -> Result<(), Refusal>
    ensures { result ≡ judge_mend file.now }
{
    if rules::wrong_length(file) {
        return Err(Refusal::whole(1));
    }
    if let Some(k) = first_unknown(file) {
        return refused(2, k);
    }
    if let Some(k) = first_late(file) {
        return refused(3, k);
    }
    Ok(())
}
