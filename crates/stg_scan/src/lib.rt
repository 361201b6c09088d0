// A Standard Task Graph text, field by field.
#![tactic(auto)]

ghost use Rattle.std.specs.Prelude.{◌≡◌, ◌≤◌, ◌<◌, length, drop, IfSome};
ghost use Rattle.stg_text.specs.Fields as fields;
ghost use Rattle.stg_scan.specs.Scan as scans;

// What comes first: the line's end, and the place past it; or a number, and the place past it.
#[derive(Clone, Copy)]
pub enum Token {
    End(usize),
    Number(u64, usize),
}

fn blank(c: u8) -> bool
    ensures { result ≡ fields.blank c }
{
    (c == b' ') | (c == b'\t')
}

fn feed(c: u8) -> bool
    ensures { result ≡ fields.feed c }
{
    c == b'\n'
}

fn parts(c: u8) -> bool
    ensures { result ≡ scans.parts c }
{
    blank(c) | feed(c)
}

fn digit(c: u8) -> bool
    ensures { result ≡ fields.digit c }
{
    (b'0' <= c) & (c <= b'9')
}

// The first place from `at` on that has no blank and no tab, or the end.
pub fn skip(text: &[u8], at: usize) -> usize
    requires { at ≤ length text.now }
    ensures { (result ≡ scans.skip_at at (drop at text.now)) × (at ≤ result) × (result ≤ length text.now) }
{
    for i in at..text.len() {
        if !blank(text[i]) {
            return i;
        }
    }
    text.len()
}

// The first place from `at` on that has a line feed.
pub fn feed_at(text: &[u8], at: usize) -> Option<usize>
    requires { at ≤ length text.now }
    ensures { (result ≡ scans.feed_at_of at (drop at text.now)) × IfSome result (λ i. (at ≤ i) × (i < length text.now)) }
{
    for i in at..text.len() {
        if feed(text[i]) {
            return Some(i);
        }
    }
    None
}

// The number that begins at `at`. Ten digits are enough: an eleventh is a fault, so that no number wraps.
fn number(text: &[u8], at: usize) -> Option<Token>
    requires { at ≤ length text.now }
    ensures { result ≡ scans.scan at 0 0 (drop at text.now) }
{
    let mut x = 0;
    for i in at..text.len() {
        let c = text[i];
        if parts(c) {
            return Some(Token::Number(x, i));
        }
        let k = i - at;
        if !(digit(c) & (k < 10)) {
            return None;
        }
        x = 10 * x + u64::from(c - b'0');
    }
    Some(Token::Number(x, text.len()))
}

// What comes first from `at` on, after any blanks and tabs; or nothing that the layout has.
pub fn next(text: &[u8], at: usize) -> Option<Token>
    requires { at ≤ length text.now }
    ensures { result ≡ scans.token_at text.now at }
{
    let p = skip(text, at);
    if p == text.len() {
        return None;
    }
    if feed(text[p]) {
        return Some(Token::End(p + 1));
    }
    number(text, p)
}
