// The stretch that is shown though it has no core.
use crate::core_rows::cores;
use crate::stretch::Log;
use graph::Refusal;

impl Log<'_> {
    // Whether the stage of record k, of type `kind`, has none there: the list names one past the last then.
    fn is_bare(self, k: usize, kind: usize) -> bool {
        self.core(k) >= cores(self.g, kind)
    }

    // The first record of a type at which a stage has none.
    fn first_bare(self, kind: usize) -> Option<usize> {
        (0..self.log.len() / 8).find(|k| (self.kind(*k) == kind) & self.is_bare(*k, kind))
    }

    // Its start, of a log that is refused for a start: that one, where it has no core. Where 20 is said of a stage that goes on from a core of its own, it is
    // another of its type that has none.
    pub(crate) fn bare(self, r: Refusal) -> Option<usize> {
        if !matches!(r.number, 19 | 20) {
            return None;
        }
        let place = r.place as usize;
        let kind = self.kind(place);
        if self.is_bare(place, kind) {
            return Some(place);
        }
        if r.number == 20 {
            return self.first_bare(kind);
        }
        None
    }
}
