ghost use Rattle.std.specs.Prelude.{◌≡◌, ℕ, ◌↔◌, Bool, false, true, IfOk, IsNone, IsOk, IsErr};
ghost use Rattle.desk_edge.specs.Doors.{AreLinesCounted};
ghost use Rattle.desk_edge.specs.Faults.{CountsFaults};

use crate::failed::Failed;
use crate::link::Link;
use std::marker::Send;

/// Where connections come in, one after the other, such as a port of this machine.
///
/// Doors count their faults and the lines that they gave, and tell whether they are closed, by calls and to contracts alike. Doors
/// behind a lock are known by their type alone; so a type may promise that none of its values ever fails, or that none is ever closed.
pub trait Doors {
    /// A connection that came in.
    type Line: Link + Send + Drop;

    // How many faults were counted so far. The count never falls.
    ghost faults: { Self → ℕ };

    // How many lines were given so far, up to the last value of the count.
    ghost taken: { Self → ℕ };

    // Whether the doors are closed.
    ghost is_closed: { Self → Bool };

    // That no call of any doors of this type ever fails.
    ghost NeverFails: { Type 0 };

    // That no doors of this type are ever closed.
    ghost NeverCloses: { Type 0 };

    /// Opens the doors at this port.
    ///
    /// `Failed` comes exactly where a fault was counted in this call.
    fn listen(&mut self, port: u16) -> Result<(), Failed>
        ensures taken_stays { taken self.new ≡ taken self.old }
        ensures closed_stays { is_closed self.new ≡ is_closed self.old }
        ensures faults { CountsFaults (IsErr result) (faults self.old) (faults self.new) }
        ensures never_fails { NeverFails → IsOk result };

    /// The next connection, for which the call may wait, or none where the doors are closed. Closed doors stay closed.
    ///
    /// `Failed` comes exactly where a fault was counted in this call. Doors that are open may give further lines after it.
    fn next(&mut self) -> Result<Option<Self::Line>, Failed>
        ensures counts { AreLinesCounted result (taken self.old) (taken self.new) }
        ensures ended { IfOk result (λ given. IsNone given ↔ (is_closed self.new ≡ true)) }
        ensures closed_stays { is_closed self.old ≡ true → is_closed self.new ≡ true }
        ensures faults { CountsFaults (IsErr result) (faults self.old) (faults self.new) }
        ensures never_fails { NeverFails → IsOk result }
        ensures never_closes { NeverCloses → is_closed self.new ≡ false };

    /// How many faults were counted so far, up to the last value of the count. It takes no memory.
    fn faults(&self) -> u64
        ensures { result ≡ faults self.now };

    /// How many lines were given so far, up to the last value of the count. It takes no memory.
    fn taken(&self) -> u64
        ensures { result ≡ taken self.now };

    /// Whether the doors are closed. It takes no memory.
    fn closed(&self) -> bool
        ensures told { result ≡ is_closed self.now }
        ensures never_closes { NeverCloses → result ≡ false };
}

/// Doors that are lent are doors: their counts, their lines and their promises are those of the ones that are lent.
impl<D: Doors> Doors for &mut D {
    type Line = D::Line;

    ghost faults = { λ doors. D.faults doors.now };

    ghost taken = { λ doors. D.taken doors.now };

    ghost is_closed = { λ doors. D.is_closed doors.now };

    ghost NeverFails = { D.NeverFails };

    ghost NeverCloses = { D.NeverCloses };

    fn listen(&mut self, port: u16) -> Result<(), Failed> {
        (**self).listen(port)
    }

    fn next(&mut self) -> Result<Option<D::Line>, Failed> {
        (**self).next()
    }

    fn faults(&self) -> u64 {
        (**self).faults()
    }

    fn taken(&self) -> u64 {
        (**self).taken()
    }

    fn closed(&self) -> bool {
        (**self).closed()
    }
}
