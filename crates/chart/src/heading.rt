// The two lines at the top: what the picture is of, with its finish and the bounds, or what a log is refused for.
use crate::{Drawing, Origin, Told, stretch};
use chart_page::element;
use graph::Refusal;
use say::out;

fn first() -> bool {
    element::text(b"<text class=\"heading\"", 20, 28)
}

fn second() -> bool {
    element::text(b"<text", 20, 48)
}

fn title(origin: Origin) -> bool {
    match origin {
        Origin::Run => out::text(b"A run, each stage at its WCET"),
        Origin::Timed => out::text(b"A run at the times given"),
        Origin::Frame => out::text(b"A recorded frame"),
    }
}

fn bounds_of(told: Told) -> bool {
    let new = out::text(b"any work-conserving schedule, any times up to the WCETs: finished by")
        & out::field(told.new)
        & out::text(b" (NEW-B-1)");
    match told.second {
        Some(second) => new & out::text(b", by") & out::field(second) & out::text(b" (NEW-B-2)"),
        None => new,
    }
}

impl Drawing<'_> {
    fn accepted(&self) -> bool {
        let line = first() & title(self.told.origin) & out::text(b": finished at");
        let finish = out::field(self.finish) & element::text_end();
        line & finish & second() & bounds_of(self.told) & element::text_end()
    }

    fn started(&self, k: usize) -> bool {
        let log = self.log.log;
        let stage = self.titles.stage(stretch::stage(log, k)).whole();
        stage & out::text(b" starts at") & out::field(stretch::instant(log, k))
    }

    // Who breaks the rule, and when.
    fn subject(&self, r: Refusal) -> bool {
        match r.number {
            21 => self.titles.stage(r.place as usize).whole(),
            22 => out::text(b"at") & out::field(r.place as u64),
            _ => self.started(r.place as usize),
        }
    }

    fn refused(&self, r: Refusal) -> bool {
        let line = first() & out::text(b"refused") & out::field(r.number as u64);
        let place = out::text(b" at") & out::field(r.place as u64) & element::text_end();
        let rule = second() & self.subject(r) & reasons::log::rule(r.number);
        line & place & rule & element::text_end()
    }

    pub(crate) fn heading(&self) -> bool {
        match self.told.refusal {
            Some(r) => self.refused(r),
            None => self.accepted(),
        }
    }
}
