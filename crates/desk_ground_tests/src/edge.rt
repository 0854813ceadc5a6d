ghost use Rattle.std.specs.Prelude.{◌≡◌, ◌<◌, ◌≤◌, ◌++◌, length, IfOk, Some};

use desk_edge::{Failed, Link, MemoryLink, ReadFault, StdLink, read_up_to, write_all};
use desk_testing::{check, expect_eq, shows};
use desk_text::Bytes;
use std::alloc::Global;
use std::io;
use std::io::{Read, Write};
use std::test::Fail;

fn link(
    alloc: Global,
    input: &[u8],
    piece: usize,
    room: usize,
    failing: &[u64],
) -> Result<MemoryLink, Fail>
    requires { 1 ≤ piece }
{
    let input = Bytes::from(input.to_vec(alloc)?);
    Ok(MemoryLink::new(alloc, input, piece, room, failing.to_vec(alloc)?)?)
}

/// The bytes that are written, or none where one byte is read, and the link's answer.
type Call = (Option<&'static [u8]>, Result<usize, Failed>);

/// Writes the bytes, or reads one byte where there are none.
fn call<L: Link>(link: &mut L, piece: Option<&[u8]>) -> Result<usize, Failed> {
    match piece {
        Some(piece) => link.write(piece),
        None => link.read(&mut [0; 1]),
    }
}

/// The place of the first of the calls, made one after the other, that is answered otherwise.
fn first_wrong_call<L: Link>(link: &mut L, calls: &[Call]) -> Option<usize> {
    for (place, (piece, answer)) in calls.iter().enumerate() {
        if call(link, *piece) != *answer {
            return Some(place);
        }
    }
    None
}

/// The calls of a link that gives bytes one by one, has room for two, and fails on the second and the fourth call.
const CALLS: [Call; 7] = [
    (None, Ok(1)),
    (None, Err(Failed)),
    (Some(b"x"), Ok(1)),
    (Some(b"y"), Err(Failed)),
    (Some(b"yz"), Ok(1)),
    (Some(b"z"), Err(Failed)),
    (None, Ok(1)),
];

/// Fails unless the calls are answered so, and two bytes are written.
fn fails_on_two_calls(link: &mut MemoryLink) -> Result<(), Fail> {
    expect_eq(&first_wrong_call(link, &CALLS), &None)?;
    expect_eq(&link.written(), &b"xy".as_slice())
}

#[test]
fn a_link_in_memory_fails_on_its_numbered_calls_and_on_no_other(
    rt: HostRuntime,
) -> Result<(), Fail> {
    let mut link = link(rt.alloc(), b"abc", 1, 2, &[2, 4])?;
    fails_on_two_calls(&mut link)
}

/// A text, the limit, and what is read of it.
type Limited = (&'static str, u16, &'static str);

const LIMITED: [Limited; 6] = [
    ("", 0, ""),
    ("a", 0, "a"),
    ("ab", 0, "a"),
    ("abc", 3, "abc"),
    ("abcd", 3, "abcd"),
    ("abcde", 3, "abcd"),
];

/// Fails unless this is read of a link that gives the text in pieces of this size.
fn reads_by<L: Link>(link: &mut L, alloc: Global, row: &Limited, piece: usize) -> Result<(), Fail> {
    let (text, limit, read) = *row;
    let bytes = read_up_to(alloc, link, usize::from(limit))
        .ok()
        .ok_or("a fault")?;
    expect_eq(
        &(text, limit, piece, bytes.as_slice()),
        &(text, limit, piece, read.as_bytes()),
    )
}

/// Fails unless each of the texts is read up to its limit in pieces of this size.
fn stops_by(alloc: Global, piece: usize) -> Result<(), Fail>
    requires { 1 ≤ piece }
{
    for row in &LIMITED {
        let mut link = link(alloc, row.0.as_bytes(), piece, 0, &[])?;
        reads_by(&mut link, alloc, row, piece)?;
    }
    Ok(())
}

#[test]
fn reading_stops_with_the_byte_after_the_limit(rt: HostRuntime) -> Result<(), Fail> {
    stops_by(rt.alloc(), 1)?;
    stops_by(rt.alloc(), 3)?;
    stops_by(rt.alloc(), 100)
}

/// Fails unless the third read of a link, which is refused, ends the reading.
fn ends_reading(alloc: Global) -> Result<(), Fail> {
    let mut link = link(alloc, b"abc", 1, 0, &[3])?;
    let fault = read_up_to(alloc, &mut link, 8).err();
    expect_eq(&fault, &Some(ReadFault::Failed))
}

/// Fails unless writing three bytes ends so, and fills the room.
fn ends_writing(alloc: Global, room: usize, written: Result<(), Failed>) -> Result<(), Fail> {
    let mut link = link(alloc, b"", 1, room, &[])?;
    let found = write_all(&mut link, b"abc");
    expect_eq(&(found, link.written().len()), &(written, room))
}

#[test]
fn a_fault_ends_reading_and_writing(rt: HostRuntime) -> Result<(), Fail> {
    ends_reading(rt.alloc())?;
    ends_writing(rt.alloc(), 2, Err(Failed))?;
    ends_writing(rt.alloc(), 3, Ok(()))
}

// Refuses its first call, and takes or gives a byte at each further one.
#[derive(Drop)]
struct Flaky {
    refused: bool,
    byte: u8,
}

impl Read for Flaky {
    fn read(&mut self, buf: &mut [u8]) -> io::Result<usize> {
        if !self.refused {
            self.refused = true;
            return Err(io::Error::from(io::ErrorKind::Other));
        }
        match buf.first_mut() {
            Some(first) => {
                *first = self.byte;
                Ok(1)
            }
            None => Ok(0),
        }
    }
}

impl Write for Flaky {
    fn write(&mut self, buf: &[u8]) -> io::Result<usize> {
        match buf.first() {
            Some(first) if self.refused => {
                self.byte = *first;
                Ok(1)
            }
            _ => {
                self.refused = true;
                Ok(0)
            }
        }
    }

    fn flush(&mut self) -> io::Result<()> {
        Ok(())
    }
}

fn new_flaky() -> Flaky {
    Flaky {
        refused: false,
        byte: b'q',
    }
}

/// Fails unless the first read is refused, and the second one gives a byte.
fn hands_on_reads<L: Link>(link: &mut L) -> Result<(), Fail> {
    let mut buffer = [0; 2];
    expect_eq(&link.read(&mut buffer), &Err(Failed))?;
    expect_eq(&link.read(&mut buffer), &Ok(1))?;
    expect_eq(&buffer.as_slice(), &b"q\0".as_slice())
}

#[test]
fn a_link_over_std_hands_on_what_its_reader_and_writer_do(rt: HostRuntime) -> Result<(), Fail> {
    let mut link = StdLink::new(new_flaky(), new_flaky());
    hands_on_reads(&mut link)?;
    let calls = [
        (Some(b"ab".as_slice()), Err(Failed)),
        (Some(b"ab"), Ok(1)),
        (Some(b""), Ok(0)),
    ];
    expect_eq(&first_wrong_call(&mut link, &calls), &None)
}

/// A link over a slice tells the slice as unread, so this contract holds.
fn read_slice(alloc: Global, text: &[u8]) -> Result<Bytes, ReadFault>
    requires { length text.now < usize.MAX }
    ensures { IfOk result (λ bytes. bytes ≡ text.now) }
{
    let mut link = StdLink::new(text, io::sink());
    read_up_to(alloc, &mut link, text.len())
}

/// A link over a vector tells the vector as written, so this contract holds.
fn write_vector(output: Vec<u8>, text: &[u8]) -> Result<StdLink<io::Empty, Vec<u8>>, Failed>
    ensures { IfOk result (λ link.
        ⟦<StdLink<io::Empty, Vec<u8>> as Link>⟧.written link ≡ Some (output.items ++ text.now)) }
{
    let mut link = StdLink::new(io::empty(), output);
    write_all(&mut link, text)?;
    Ok(link)
}

/// Fails unless a slice is read as it is.
fn reads_a_slice(alloc: Global) -> Result<(), Fail> {
    let text = read_slice(alloc, b"text").ok().ok_or("a fault")?;
    expect_eq(&text.as_slice(), &b"text".as_slice())
}

#[test]
fn a_link_over_std_tells_what_its_reader_and_writer_tell(rt: HostRuntime) -> Result<(), Fail> {
    reads_a_slice(rt.alloc())?;
    let output = b"an ".as_slice().to_vec(rt.alloc())?;
    check(
        write_vector(output, b"answer").is_ok(),
        "a vector refuses a write",
    )
}

#[test]
fn a_failed_call_is_told(rt: HostRuntime) -> Result<(), Fail> {
    shows(rt.alloc(), &Failed, "the call failed")
}
