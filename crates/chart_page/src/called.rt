// What a stage or a type is called in a picture: by its name, or by a letter and its number where it has none.
use board::Names;
use quoted::xml;
use say::names;

#[derive(Clone, Copy)]
pub struct Called<'a> {
    name: &'a [u8],
    letter: u8,
    number: usize,
}

// A text, and where the names stand in it.
#[derive(Clone, Copy)]
pub struct Titles<'a> {
    pub text: &'a [u8],
    pub names: &'a Names,
}

impl<'a> Titles<'a> {
    pub fn stage(self, v: usize) -> Called<'a> {
        Called {
            name: names::of_stage(self.text, *self.names, v),
            letter: b's',
            number: v,
        }
    }

    pub fn kind(self, k: usize) -> Called<'a> {
        Called {
            name: names::of_kind(self.text, *self.names, k),
            letter: b't',
            number: k,
        }
    }
}

impl Called<'_> {
    // Hands the bytes of it on.
    fn told<F: FnOnce(&[u8]) -> bool>(self, to: F) -> bool
        requires { F.IsAlwaysCallable to }
    {
        if !self.name.is_empty() {
            return to(self.name);
        }
        let mut digits = [0u8; 20];
        let n = io::decimal(self.number as u64, &mut digits);
        let mut label = [self.letter; 21];
        label[1..=n].copy_from_slice(&digits[..n]);
        to(&label[..=n])
    }

    pub fn whole(self) -> bool {
        self.told(xml::text)
    }

    // As much of it as has room in so many letters.
    pub fn cut(self, room: usize) -> bool {
        self.told(|name| xml::cut(name, room))
    }

    // Whether any of it has room.
    pub fn fits(self, room: usize) -> bool {
        self.told(|name| xml::fits(name, room))
    }
}
