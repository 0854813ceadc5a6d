ghost use Rattle.std.specs.Prelude.{◌≡◌, ◌||◌, false, true};

use desk_edge::{Doors, Failed};

/// Lent doors that count as closed once so many more lines were asked for than they may give.
#[derive(Drop)]
pub(crate) struct LimitedDoors<'a, D> {
    doors: &'a mut D,
    /// How many lines may still be given, where that is limited.
    left: Option<u64>,
    is_over: bool,
}

impl<'a, D: Doors> LimitedDoors<'a, D> {
    /// These doors, which may give so many lines more, or any number.
    pub(crate) fn new(doors: &'a mut D, left: Option<u64>) -> LimitedDoors<'a, D> {
        LimitedDoors {
            doors,
            left,
            is_over: false,
        }
    }
}

impl<D: Doors> Doors for LimitedDoors<'_, D> {
    ghost use Rattle.std.specs.Prelude.{◌||◌};

    type Line = D::Line;

    ghost faults = { λ limited. D.faults limited.doors.now };

    ghost taken = { λ limited. D.taken limited.doors.now };

    ghost is_closed = { λ limited. limited.is_over || D.is_closed limited.doors.now };

    ghost NeverFails = { D.NeverFails };

    ghost NeverCloses = { ⊥ };

    fn listen(&mut self, port: u16) -> Result<(), Failed> {
        self.doors.listen(port)
    }

    fn next(&mut self) -> Result<Option<D::Line>, Failed> {
        if self.is_over || self.left == Some(0) {
            self.is_over = true;
            return Ok(None);
        }
        match self.doors.next() {
            Ok(Some(line)) => {
                self.left = self.left.map(|left| left.saturating_sub(1));
                Ok(Some(line))
            }
            other => other,
        }
    }

    fn faults(&self) -> u64 {
        self.doors.faults()
    }

    fn taken(&self) -> u64 {
        self.doors.taken()
    }

    fn closed(&self) -> bool {
        self.is_over || self.doors.closed()
    }
}
