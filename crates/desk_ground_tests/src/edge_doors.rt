use desk_edge::{Doors, Failed, Link, ListDoors, MemoryLink};
use desk_testing::{bytes, expect_eq};
use desk_text::OutOfMemory;
use std::alloc::Global;
use std::test::Fail;

// The steps are written for any doors, and take them, so that the proof of a test doesn't carry what doors are made of.

/// A call that is made of doors.
#[derive(Clone, Copy)]
enum Call {
    Listen,
    Next,
}

/// A call, its answer by the first byte of the line that is given, and what the doors tell after it: how many faults, how many lines were
/// taken, and whether they are closed.
type Step = (Call, Result<Option<u8>, Failed>, (u64, u64, bool));

/// The first byte that the line gives.
fn first_byte<L: Link + Drop>(line: L) -> u8 {
    let mut line = line;
    let mut buffer = [0; 1];
    match line.read(&mut buffer) {
        Ok(1) => buffer[0],
        _ => b'?',
    }
}

fn answer<D: Doors>(doors: &mut D, call: Call) -> Result<Option<u8>, Failed> {
    match call {
        Call::Listen => {
            doors.listen(7000)?;
            Ok(None)
        }
        Call::Next => match doors.next()? {
            Some(line) => Ok(Some(first_byte(line))),
            None => Ok(None),
        },
    }
}

fn told<D: Doors>(doors: &D) -> (u64, u64, bool) {
    (doors.faults(), doors.taken(), doors.closed())
}

/// Fails unless each of the calls, made one after the other, is answered so, and leaves the doors so.
fn goes<D: Doors>(doors: &mut D, steps: &[Step]) -> Result<(), Fail> {
    for (place, (call, answered, after)) in steps.iter().enumerate() {
        let found = answer(doors, *call);
        expect_eq(&(place, found, told(doors)), &(place, *answered, *after))?;
    }
    Ok(())
}

/// Doors with three lines, whose first bytes are `a`, `b` and `c`, that fail on these calls.
fn three_lines(alloc: Global, failing: &[u64]) -> Result<ListDoors, OutOfMemory> {
    let mut lines = Vec::new(alloc);
    for text in ["a", "b", "c"] {
        let input = bytes(alloc, text)?;
        lines.push(MemoryLink::new(alloc, input, 1, 0, Vec::new(alloc))?)?;
    }
    Ok(ListDoors::new(lines, failing.to_vec(alloc)?))
}

const IN_ORDER: [Step; 6] = [
    (Call::Listen, Ok(None), (0, 0, false)),
    (Call::Next, Ok(Some(b'a')), (0, 1, false)),
    (Call::Next, Ok(Some(b'b')), (0, 2, false)),
    (Call::Next, Ok(Some(b'c')), (0, 3, false)),
    (Call::Next, Ok(None), (0, 3, true)),
    (Call::Next, Ok(None), (0, 3, true)),
];

#[test]
fn doors_in_memory_give_their_lines_in_order_and_are_closed_for_good(
    rt: HostRuntime,
) -> Result<(), Fail> {
    let mut doors = three_lines(rt.alloc(), &[])?;
    goes(&mut doors, &IN_ORDER)
}

/// The first, the third, the sixth and the eighth call fail.
const FAILING: [Step; 9] = [
    (Call::Listen, Err(Failed), (1, 0, false)),
    (Call::Next, Ok(Some(b'a')), (1, 1, false)),
    (Call::Next, Err(Failed), (2, 1, false)),
    (Call::Listen, Ok(None), (2, 1, false)),
    (Call::Next, Ok(Some(b'b')), (2, 2, false)),
    (Call::Next, Err(Failed), (3, 2, false)),
    (Call::Next, Ok(Some(b'c')), (3, 3, false)),
    (Call::Next, Err(Failed), (4, 3, false)),
    (Call::Next, Ok(None), (4, 3, true)),
];

#[test]
fn doors_in_memory_fail_on_their_numbered_calls_and_lose_no_line(
    rt: HostRuntime,
) -> Result<(), Fail> {
    let mut doors = three_lines(rt.alloc(), &[8, 1, 6, 3])?;
    goes(&mut doors, &FAILING)
}

/// The fifth call fails, where the doors are closed.
const CLOSED: [Step; 6] = [
    (Call::Next, Ok(Some(b'a')), (0, 1, false)),
    (Call::Next, Ok(Some(b'b')), (0, 2, false)),
    (Call::Next, Ok(Some(b'c')), (0, 3, false)),
    (Call::Next, Ok(None), (0, 3, true)),
    (Call::Next, Err(Failed), (1, 3, true)),
    (Call::Listen, Ok(None), (1, 3, true)),
];

#[test]
fn closed_doors_in_memory_stay_closed_over_a_fault_and_a_call_to_listen(
    rt: HostRuntime,
) -> Result<(), Fail> {
    let mut doors = three_lines(rt.alloc(), &[5])?;
    goes(&mut doors, &CLOSED)
}

/// Fails unless doors that are owned go so.
fn go<D: Doors + Drop>(doors: D, steps: &[Step]) -> Result<(), Fail> {
    let mut doors = doors;
    goes(&mut doors, steps)
}

/// Fails unless the first two lines are taken of the doors as they are lent, and the third of the doors themselves.
fn goes_on_after_the_loan<D: Doors>(doors: &mut D) -> Result<(), Fail> {
    go(&mut *doors, &CLOSED[..2])?;
    expect_eq(&told(doors), &(0, 2, false))?;
    goes(doors, &CLOSED[2..])
}

#[test]
fn doors_that_are_lent_are_doors(rt: HostRuntime) -> Result<(), Fail> {
    let mut doors = three_lines(rt.alloc(), &[5])?;
    goes_on_after_the_loan(&mut doors)
}
