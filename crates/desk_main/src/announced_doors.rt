use desk_edge::{Doors, Failed};
use std::io::Write;

/// Doors that say on standard error that they are open, and where, or that they can't be opened.
#[derive(Drop)]
pub struct AnnouncedDoors<D> {
    rt: HostRuntime,
    doors: D,
}

impl<D: Doors> AnnouncedDoors<D> {
    /// These doors, of which nothing was said yet.
    pub fn new(rt: HostRuntime, doors: D) -> AnnouncedDoors<D> {
        AnnouncedDoors { rt, doors }
    }
}

impl<D: Doors> Doors for AnnouncedDoors<D> {
    type Line = D::Line;

    ghost faults = { λ announced. D.faults announced.doors };

    ghost taken = { λ announced. D.taken announced.doors };

    ghost is_closed = { λ announced. D.is_closed announced.doors };

    ghost NeverFails = { D.NeverFails };

    ghost NeverCloses = { D.NeverCloses };

    fn listen(&mut self, port: u16) -> Result<(), Failed> {
        let opened = self.doors.listen(port);
        // What can't be said changes nothing.
        let _said = match opened {
            Ok(()) => eprintln!(self.rt; "desk: serving at http://127.0.0.1:{port}"),
            Err(_) => eprintln!(self.rt;
                "desk: the port {port} can't be opened; another program may have it"
            ),
        };
        opened
    }

    fn next(&mut self) -> Result<Option<D::Line>, Failed> {
        self.doors.next()
    }

    fn faults(&self) -> u64 {
        self.doors.faults()
    }

    fn taken(&self) -> u64 {
        self.doors.taken()
    }

    fn closed(&self) -> bool {
        self.doors.closed()
    }
}
