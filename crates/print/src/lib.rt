// Lines of numbers to standard output. No contract can speak of what a call of the operating system wrote: what is printed is compared
// with what it should be by the tests. A list goes by way of a buffer that is written when it is full, so that it is one call.

#![tactic(auto)]

ghost use Rattle.std.specs.Prelude.{◌≡◌, ◌≤◌, ◌<◌};

pub fn text(word: &[u8]) {
    io::write_all(1, word);
}

// What is to be written: the first bytes of a buffer, which is written when it is full.
#[derive(Drop)]
struct Buffered<const N: usize> {
    bytes: [u8; N],
    filled: usize,
    ghost within: { filled ≤ N },
}

impl<const N: usize> Buffered<N> {
    fn new() -> Self {
        Buffered {
            bytes: [0; N],
            filled: 0,
        }
    }

    // Writes what the buffer holds.
    fn flush(&mut self)
        ensures { self.new.filled ≡ 0 }
    {
        io::write_all(1, &self.bytes[..self.filled]);
        self.filled = 0;
    }

    // Room for a byte.
    fn make_room(&mut self)
        requires { 0 < N }
        ensures { self.new.filled < N }
    {
        if self.filled == N {
            self.flush();
        }
    }

    fn put(&mut self, b: u8)
        requires { 0 < N }
    {
        self.make_room();
        self.bytes[self.filled] = b;
        self.filled += 1;
    }

    // A blank and a number.
    fn field(&mut self, n: u64)
        requires { 0 < N }
    {
        let mut digits = [0u8; 20];
        let k = io::decimal(n, &mut digits);
        self.put(b' ');
        for b in &digits[..k] {
            self.put(*b);
        }
    }
}

// A blank and a number.
pub fn field(n: u64) {
    let mut out = Buffered::<32>::new();
    out.field(n);
    out.flush();
}

// A word, a blank and a number.
pub fn given(word: &[u8], n: u64) {
    text(word);
    field(n);
}

// `refused`, the number, `at`, the place.
pub fn refused(number: u32, place: u32) {
    given(b"refused", number as u64);
    given(b" at", place as u64);
}

// The numbers of a list, each with a blank before it.
fn fields<T: Copy + Into<u64>>(list: &[T]) {
    let mut out = Buffered::<4096>::new();
    for x in list {
        out.field((*x).into());
    }
    out.flush();
}

// A function for each width: the theorems on one outcome, which docs/TIGHT.md names, are about functions without type parameters.
pub fn bytes(list: &[u8]) {
    fields(list);
}

pub fn words(list: &[u32]) {
    fields(list);
}

// ` :`, all the places that were lent, and the line's end.
fn lent<T: Copy + Into<u64>>(lent: &[T]) {
    text(b" :");
    fields(lent);
    text(b"\n");
}

pub fn lent_bytes(list: &[u8]) {
    lent(list);
}

pub fn lent_words(list: &[u32]) {
    lent(list);
}

pub fn lent_longs(list: &[u64]) {
    lent(list);
}

// The answer to what is no request.
pub fn bad() {
    text(b"bad request\n");
}
