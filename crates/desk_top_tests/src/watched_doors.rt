use crate::notes::{Notes, Sign};
use crate::watched_line::WatchedLine;
use desk_edge::{Doors, Failed};

/// Doors whose first connection waits for one sign, and each later one for another.
#[derive(Drop)]
pub(crate) struct WatchedDoors<'a, D> {
    doors: D,
    notes: &'a Notes,
    first: Sign,
    later: Sign,
}

impl<'a, D: Doors> WatchedDoors<'a, D> {
    pub(crate) fn new(doors: D, notes: &'a Notes, first: Sign, later: Sign) -> WatchedDoors<'a, D> {
        WatchedDoors {
            doors,
            notes,
            first,
            later,
        }
    }
}

impl<'a, D: Doors> Doors for WatchedDoors<'a, D> {
    type Line = WatchedLine<'a, D::Line>;

    ghost faults = { λ watched. D.faults watched.doors };

    ghost taken = { λ watched. D.taken watched.doors };

    ghost is_closed = { λ watched. D.is_closed watched.doors };

    ghost NeverFails = { D.NeverFails };

    ghost NeverCloses = { D.NeverCloses };

    fn listen(&mut self, port: u16) -> Result<(), Failed> {
        self.doors.listen(port)
    }

    fn next(&mut self) -> Result<Option<WatchedLine<'a, D::Line>>, Failed> {
        let sign = if self.doors.taken() == 0 {
            self.first
        } else {
            self.later
        };
        match self.doors.next() {
            Ok(Some(link)) => Ok(Some(WatchedLine::new(link, self.notes, sign))),
            Ok(None) => Ok(None),
            Err(failed) => Err(failed),
        }
    }

    fn faults(&self) -> u64 {
        self.doors.faults()
    }

    fn taken(&self) -> u64 {
        self.doors.taken()
    }

    fn closed(&self) -> bool {
        self.doors.closed()
    }
}
