// Lines, words and numbers of a text. A place is an index into it; past its end a text goes on with line feeds.
#![tactic(auto)]

ghost use Rattle.std.specs.Prelude.{◌≡◌, not};
ghost use Rattle.std.specs.List.{list_all};
ghost use Rattle.texts.specs.Text.{byte_at, is_blank, ends, stops, until, line_after, part_of, word_at, word_after, same, is_named_of, which_name, is_digit, grown, number_of, below};

// What a search stops at.
#[derive(Clone, Copy, Debug, PartialEq, Eq)]
pub enum Sought {
    // A line feed.
    Line,
    // Anything but a blank.
    Word,
    // What ends a word.
    End,
    // A byte that is no text.
    Strange,
    // A byte 0.
    Zero,
}

// Why a word is no number of 32 bits: it has no digits or more than digits, or it is too large a number.
#[derive(Clone, Copy, Debug, PartialEq, Eq)]
pub enum NumberError {
    NotDigits,
    TooLarge,
}

fn blank(b: u8) -> bool
    ensures { result ≡ is_blank b }
{
    (b == b' ') | (b == b'\t') | (b == b'\r')
}

fn stop(b: u8, what: Sought) -> bool
    ensures { result ≡ stops what b }
{
    match what {
        Sought::Line => b == b'\n',
        Sought::Word => !blank(b),
        Sought::End => blank(b) | (b == b'\n') | (b == b'#'),
        Sought::Strange => ((b < 32) & !blank(b) & (b != b'\n')) | (b == 127),
        Sought::Zero => b == 0,
    }
}

fn byte(t: &[u8], at: usize) -> u8
    ensures { result ≡ byte_at t.now at }
{
    t.get(at).copied().unwrap_or(b'\n')
}

// The first place from `at` on that the search stops at; the text's end where there is none.
pub fn until(t: &[u8], at: usize, what: Sought) -> usize
    ensures { result ≡ until what t.now at }
{
    for i in at..t.len() {
        if stop(t[i], what) {
            return i;
        }
    }
    at.max(t.len())
}

// The bytes from a place up to another; none where the text does not have them.
pub fn part(t: &[u8], start: usize, end: usize) -> &[u8]
    ensures { result.now ≡ part_of t.now start end }
{
    t.get(start..end).unwrap_or(&t[..0])
}

// Whether a word stands at the place.
pub fn is_word(t: &[u8], at: usize) -> bool
    ensures { result ≡ not (ends (byte_at t.now at)) }
{
    !stop(byte(t, at), Sought::End)
}

// The word that stands at the place.
fn word(t: &[u8], at: usize) -> &[u8]
    ensures { result.now ≡ word_at t.now at }
{
    part(t, at, until(t, at, Sought::End))
}

// Where the line's next word begins, after the one at the place; no word stands there where the line has no other.
pub fn after(t: &[u8], at: usize) -> usize
    ensures { result ≡ word_after t.now at }
{
    until(t, until(t, at, Sought::End), Sought::Word)
}

// Where the line after that of the place begins.
pub fn next(t: &[u8], at: usize) -> usize
    ensures { result ≡ line_after t.now at }
{
    let end = until(t, at, Sought::Line);
    if end < t.len() { end + 1 } else { t.len() }
}

pub fn equal(a: &[u8], b: &[u8]) -> bool
    ensures { result ≡ same a.now b.now }
{
    a == b
}

// Whether the word at the place is w.
pub fn word_is(t: &[u8], at: usize, w: &[u8]) -> bool
    ensures { result ≡ same (word_at t.now at) w.now }
{
    equal(word(t, at), w)
}

// Whether name k of the list is the word.
fn is_named(t: &[u8], names: &[usize], k: usize, w: &[u8]) -> bool
    ensures { result ≡ is_named_of t.now names.now w.now k }
{
    match names.get(k) {
        Some(&at) => equal(word(t, at), w),
        None => false,
    }
}

// Which of the first n names is the word.
fn which(t: &[u8], names: &[usize], n: usize, w: &[u8]) -> Option<usize>
    ensures { result ≡ below n (which_name t.now names.now n w.now) }
{
    for k in 0..n {
        if is_named(t, names, k, w) {
            return Some(k);
        }
    }
    None
}

// Which of the first n names, which stand in the text t at the places of the list, is the word at the place of the text u.
pub fn find(t: &[u8], names: &[usize], n: usize, u: &[u8], at: usize) -> Option<usize>
    ensures { result ≡ below n (which_name t.now names.now n (word_at u.now at)) }
{
    which(t, names, n, word(u, at))
}

// A number with one digit more, where it is one of 32 bits.
fn longer(n: u32, digit: u8) -> Option<u32>
    ensures { result ≡ grown n digit }
{
    n.checked_mul(10)?
        .checked_add(u32::from(digit.saturating_sub(b'0')))
}

fn is_digits(w: &[u8]) -> bool
    ensures { result ≡ list_all is_digit w.now }
{
    w.iter().all(|b| b.is_ascii_digit())
}

// The decimal number that a word is.
fn value(w: &[u8]) -> Result<u32, NumberError>
    ensures { result ≡ number_of w.now }
{
    if w.is_empty() | !is_digits(w) {
        return Err(NumberError::NotDigits);
    }
    let mut n = 0u32;
    for b in w {
        let Some(more) = longer(n, *b) else {
            return Err(NumberError::TooLarge);
        };
        n = more;
    }
    Ok(n)
}

// The same of the word at the place.
pub fn number(t: &[u8], at: usize) -> Result<u32, NumberError>
    ensures { result ≡ number_of (word_at t.now at) }
{
    value(word(t, at))
}
