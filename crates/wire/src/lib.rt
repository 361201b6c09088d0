// A request cut into what it holds: lists (4 bytes of the length in bytes, then the bytes) and numbers (8 bytes), low byte first.
#![tactic(auto)]

ghost use Rattle.std.specs.Prelude.{◌≡◌, ◌+◌, ◌-◌, ◌*◌, ◌≤◌, IfSome, length};
ghost use Rattle.wire.specs.Payload.{two_bytes, four_bytes, list_at, number_at, Within, laid_in, laid_over};

// Before a call each byte of a lent list is A5 hex, so an untouched place shows 165, one of 32 bits 2779096485, and one of 64 bits
// 11936128518282651045.
pub const PRESET: u8 = 0xA5;

pub const PRESET_WORD: u32 = 0xA5A5A5A5;

pub const PRESET_LONG: u64 = 0xA5A5A5A5A5A5A5A5;

// Where the bytes of a list stand in the payload.
#[derive(Clone, Copy)]
pub struct Part {
    pub start: usize,
    pub end: usize,
}

// A number, and where it ends in the payload.
#[derive(Clone, Copy)]
pub struct Eight {
    pub value: u64,
    pub end: usize,
}

fn half(p: &[u8], at: usize) -> u16
    requires { at + 2 ≤ length p.now }
    ensures { result ≡ two_bytes p.now at }
{
    u16::from_le_bytes([p[at], p[at + 1]])
}

fn word(p: &[u8], at: usize) -> u32
    requires { at + 4 ≤ length p.now }
    ensures { result ≡ four_bytes p.now at }
{
    u32::from_le_bytes([p[at], p[at + 1], p[at + 2], p[at + 3]])
}

// How many bytes stand from a place on.
fn rest(p: &[u8], at: usize) -> usize
    ensures { result ≡ length p.now - at }
{
    p.len().saturating_sub(at)
}

// The length of a request's payload: bytes 1 to 4 of its head.
pub fn payload(head: [u8; 5]) -> u64
    ensures { result ≡ four_bytes head 1 }
{
    word(&head, 1) as u64
}

// The list that begins at a place of the payload, if the payload has one there.
pub fn list(p: &[u8], at: usize) -> Option<Part>
    ensures within { IfSome result (λ part. Within part p.now) }
    ensures value { result ≡ list_at p.now at }
{
    let left = rest(p, at);
    if 4 <= left {
        let long = word(p, at) as usize;
        if long <= left - 4 {
            let start = at + 4;
            return Some(Part {
                start,
                end: start + long,
            });
        }
    }
    None
}

// The number that begins at a place of the payload, if the payload has one there.
pub fn number(p: &[u8], at: usize) -> Option<Eight>
    ensures { result ≡ number_at p.now at }
{
    if rest(p, at) < 8 {
        return None;
    }
    Some(Eight {
        value: word(p, at) as u64 + 4294967296 * word(p, at + 4) as u64,
        end: at + 8,
    })
}

// Lays the numbers of 4 bytes over the list's first places, as many as it has; how many they are.
pub fn words(p: &[u8], list: &mut [u32]) -> usize
    ensures value { result ≡ laid_in 4 p.now list.old }
    ensures list_after { list.new ≡ laid_over (λ i. four_bytes p.now (4 * i)) (laid_in 4 p.now list.old) list.old }
{
    let n = (p.len() / 4).min(list.len());
    for i in 0..n {
        list[i] = word(p, 4 * i);
    }
    n
}

// The same with numbers of 2 bytes. One function for both would take what reads a number as a closure, and say more of it in its contract than the loop has lines.
pub fn halves(p: &[u8], list: &mut [u16]) -> usize
    ensures value { result ≡ laid_in 2 p.now list.old }
    ensures list_after { list.new ≡ laid_over (λ i. two_bytes p.now (2 * i)) (laid_in 2 p.now list.old) list.old }
{
    let n = (p.len() / 2).min(list.len());
    for i in 0..n {
        list[i] = half(p, 2 * i);
    }
    n
}
