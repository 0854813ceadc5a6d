ghost use Rattle.std.specs.Prelude.{◌≡◌, ◌≢◌, ◌⊎◌, ℕ, ◌<◌, ◌≤◌, List, Err, IfErr, IfOk, OnOk};
ghost use Rattle.desk_clerk.specs.Clerk.{tables_of};
ghost use Rattle.desk_clerk.specs.Opening.{IsOpenedAs};
ghost use Rattle.desk_edge.specs.Content.{IsSame};
ghost use Rattle.desk_edge.specs.Faults.{Rose};
ghost use Rattle.desk_top.specs.Answer.{Answers, answer_of_opening, answer_to_damage, answer_to_store_fault, answer_without_memory, status_code};
ghost use Rattle.desk_top.specs.Console.{console_step};
ghost use Rattle.desk_top.specs.Store.{IsKept, OnStore, WasNotBegun, shelf_step};

use crate::status::Status;
use crate::tell::{answer_no_memory, answer_store_fault, tell};
use desk_clerk::{OpenFault, StoredDesk};
use desk_edge::{KeepFault, Keeper, Link, Shelf};
use desk_text::{Bytes, OutOfMemory, push_u128};
use std::alloc::Global;

/// Opens the desk of the store of this name, and reads nothing from the console.
///
/// Where it isn't opened, the line that tells why is written, the store is given back, and that line's status is the fault: 4 the
/// store refused a call, 5 its records aren't those of sound tables, 8 there was no memory.
pub fn open_desk<L: Link, S: Shelf>(
    alloc: Global,
    name: &[u8],
    console: &mut L,
    shelf: &mut S,
) -> Result<StoredDesk<S::Store>, Status>
    ensures lent { OnOk result (S.IsLent shelf.new name.now) }
    ensures told { IfOk result (λ desk. S.Store.Keeper.Tells desk.keeper → S.Tells shelf.old name.now) }
    ensures opened { IfOk result (λ desk. S.Store.Keeper.Tells desk.keeper → IsOpenedAs (S.content shelf.old name.now) (tables_of desk)) }
    ensures fresh { IfOk result (λ desk. S.Store.Keeper.faults desk.keeper ≡ 0) }
    ensures counted { OnOk result (S.faults shelf.new ≡ S.faults shelf.old) }
    ensures untouched { OnOk result (console.new ≡ console.old) }
    ensures unopened { IfErr result (λ status. OnStore (shelf_step S.Tells S.content S.count S.faults shelf.old shelf.new) WasNotBegun name.now (status_code status)
        (console_step L.unread L.written L.faults console.old console.new)) }
    ensures others { (other : List ℕ) → other ≢ name.now → IsKept (shelf_step S.Tells S.content S.count S.faults shelf.old shelf.new) other }
    ensures status { IfErr result (λ status. (status ≢ Status.Done) × (status ≢ Status.BadWords) × (status ≢ Status.ConsoleFault)) }
    ensures never_falls { L.faults console.old ≤ L.faults console.new }
{
    let store = match open_store(alloc, name, console, shelf) {
        Ok(store) => store,
        Err(status) => return Err(status),
    };
    match open_keeper(alloc, store, console) {
        Ok(desk) => Ok(desk),
        Err((status, store)) => {
            shelf.close_store(name, store);
            Err(status)
        }
    }
}

/// Opens the store of this name, and reads nothing from the console. Where it isn't opened, the line that tells why is written, and
/// its status is the fault: 4 the store refused a call, 8 there was no memory.
pub fn open_store<L: Link, S: Shelf>(
    alloc: Global,
    name: &[u8],
    console: &mut L,
    shelf: &mut S,
) -> Result<S::Store, Status>
    ensures lent { OnOk result (S.IsLent shelf.new name.now) }
    ensures told { IfOk result (λ store. S.Store.Keeper.Tells store → S.Tells shelf.old name.now) }
    ensures same { IfOk result (λ store. S.Store.Keeper.Tells store → IsSame (S.content shelf.old name.now) (S.Store.Keeper.content store)) }
    ensures fresh { IfOk result (λ store. S.Store.Keeper.faults store ≡ 0) }
    ensures counted { OnOk result (S.faults shelf.new ≡ S.faults shelf.old) }
    ensures untouched { OnOk result (console.new ≡ console.old) }
    ensures status { IfErr result (λ status. (status ≡ Status.StoreFault) ⊎ (status ≡ Status.OutOfMemory)) }
    ensures failed { IfErr result (λ status. status ≡ Status.StoreFault → Rose (S.faults shelf.old) (S.faults shelf.new)) }
    ensures store_line { IfErr result (λ status. status ≡ Status.StoreFault → Answers answer_to_store_fault (status_code status)
        (L.written console.old) (L.written console.new) (Rose (L.faults console.old) (L.faults console.new))) }
    ensures memory_line { IfErr result (λ status. status ≡ Status.OutOfMemory → Answers answer_without_memory (status_code status)
        (L.written console.old) (L.written console.new) (Rose (L.faults console.old) (L.faults console.new))) }
    ensures others { (other : List ℕ) → IsKept (shelf_step S.Tells S.content S.count S.faults shelf.old shelf.new) other }
    ensures input_stays { L.unread console.new ≡ L.unread console.old }
    ensures never_falls { L.faults console.old ≤ L.faults console.new }
{
    match shelf.open_store(alloc, name) {
        Ok(store) => Ok(store),
        Err(KeepFault::Failed) => Err(answer_store_fault(console)),
        Err(KeepFault::OutOfMemory) => Err(answer_no_memory(console)),
    }
}

/// Opens the desk that the keeper keeps. Where it isn't opened, the line that tells why is written, and its status and the keeper are
/// the fault.
pub fn open_keeper<L: Link, K: Keeper>(
    alloc: Global,
    keeper: K,
    console: &mut L,
) -> Result<StoredDesk<K>, (Status, K)>
    requires { K.faults keeper ≡ 0 }
    ensures told { IfOk result (λ desk. K.Tells desk.keeper → K.Tells keeper) }
    ensures opened { IfOk result (λ desk. K.Tells desk.keeper → IsOpenedAs (K.content keeper) (tables_of desk)) }
    ensures counted { IfOk result (λ desk. K.faults desk.keeper ≡ 0) }
    ensures untouched { OnOk result (console.new ≡ console.old) }
    ensures handed_back { IfErr result (λ refused. K.Tells refused.1 → K.Tells keeper × IsSame (K.content keeper) (K.content refused.1)) }
    ensures unopened { IfErr result (λ refused. WasNotBegun (K.Tells refused.1) (K.content keeper) (K.content refused.1) (K.faults refused.1) (status_code refused.0)
        (console_step L.unread L.written L.faults console.old console.new)) }
    ensures status { IfErr result (λ refused. (refused.0 ≢ Status.Done) × (refused.0 ≢ Status.BadWords) × (refused.0 ≢ Status.ConsoleFault)) }
    ensures never_falls { L.faults console.old ≤ L.faults console.new }
{
    match StoredDesk::open(alloc, keeper) {
        Ok(desk) => Ok(desk),
        Err(refused) => Err((
            answer_unopened(alloc, &refused.fault, console),
            refused.keeper,
        )),
    }
}

/// Writes why no desk was opened.
fn answer_unopened<L: Link>(alloc: Global, fault: &OpenFault, console: &mut L) -> Status
    ensures status { (status_code result ≡ status_code (answer_of_opening fault.now).status) ⊎ (status_code result ≡ status_code Status.OutOfMemory) }
    ensures answer { Answers (answer_of_opening fault.now) (status_code result)
        (L.written console.old) (L.written console.new) (Rose (L.faults console.old) (L.faults console.new)) }
    ensures input_stays { L.unread console.new ≡ L.unread console.old }
    ensures never_falls { L.faults console.old ≤ L.faults console.new }
{
    match fault {
        OpenFault::KeeperFault => answer_store_fault(console),
        OpenFault::Damaged { kind, code } => answer_damage(alloc, *kind, code.as_slice(), console),
        OpenFault::OutOfMemory => answer_no_memory(console),
    }
}

/// Writes by which key a store is damaged.
fn answer_damage<L: Link>(alloc: Global, kind: u8, code: &[u8], console: &mut L) -> Status
    ensures status { (result ≡ Status.Damaged) ⊎ (result ≡ Status.OutOfMemory) }
    ensures answer { Answers (answer_to_damage kind code.now) (status_code result)
        (L.written console.old) (L.written console.new) (Rose (L.faults console.old) (L.faults console.new)) }
    ensures input_stays { L.unread console.new ≡ L.unread console.old }
    ensures never_falls { L.faults console.old ≤ L.faults console.new }
{
    match damage_line(alloc, kind, code) {
        Ok(line) => tell(console, Status::Damaged, line.as_slice()),
        Err(_) => answer_no_memory(console),
    }
}

/// The line that names a key by which a store is damaged.
fn damage_line(alloc: Global, kind: u8, code: &[u8]) -> Result<Bytes, OutOfMemory>
    ensures { IfOk result (λ line. line ≡ (answer_to_damage kind code.now).text) }
{
    let mut line = Bytes::start(alloc);
    line.push_all(b"desk: damaged ")?;
    push_u128(&mut line, u128::from(kind))?;
    line.push_all(b" ")?;
    line.push_all(code)?;
    line.push_all(b"\n")?;
    Ok(line)
}
