//! The header lines that the desk acts on. It ignores all others.

ghost use Rattle.std.specs.Prelude.{◌≡◌, length, map, reverse, codes, All};
ghost use Rattle.std.specs.List.{list_any};
ghost use Rattle.std.specs.Str.{str_eq_ignore_ascii_case};
ghost use Rattle.httparse.specs.Grammar.{skip_ows, trim_ows};
ghost use Rattle.httparse.specs.Spans.{header_bytes, IsHeaderWithin};
ghost use Rattle.desk_http.specs.Lines.{is_named, number_written, bounded_length, body_length, lists_close, line_values};

use crate::limits::BODY_BYTES;
use crate::method::Method;
use httparse::is_space_or_tab;
use httparse::spans::HeaderSpan;
use std::marker::Model;

/// What a head says of the length of its body.
#[derive(Clone, Copy, Debug)]
pub(crate) enum BodyLength {
    Missing,
    TooLong,
    Known(usize),
}

/// The header lines of a head, as the parser found them. A contract sees their names and values.
#[derive(Drop)]
pub(crate) struct HeadLines<'a> {
    front: &'a [u8],
    spans: &'a [HeaderSpan],
}

impl<'a> Model for HeadLines<'a> {
    ghost use Rattle.std.specs.Prelude.{ℕ, List, map, length, All};
    ghost use Rattle.httparse.specs.Spans.{header_bytes, IsHeaderWithin};

    ghost Value = { List (List ℕ × List ℕ) };

    ghost view = { λ a. map (header_bytes a.front.now) a.spans.now };

    ghost invariant = { λ a. All (IsHeaderWithin (length a.front.now)) a.spans.now };
}

impl<'a> HeadLines<'a> {
    pub(crate) fn new(front: &'a [u8], spans: &'a [HeaderSpan]) -> HeadLines<'a>
        requires { All (IsHeaderWithin (length front.now)) spans.now }
        ensures { result ≡ map (header_bytes front.now) spans.now }
    {
        HeadLines { front, spans }
    }

    /// Whether a line has the name, in any case.
    fn has(&self, name: &[u8]) -> bool
        ensures { result ≡ list_any (is_named name.now) self.now }
    {
        for line in self.spans {
            if is_word(line.name.of(self.front), name) {
                return true;
            }
        }
        false
    }

    /// How long the body is.
    pub(crate) fn body_length(&self, method: Method) -> BodyLength
        ensures { result ≡ body_length method self.now }
    {
        if self.has(b"transfer-encoding") {
            return BodyLength::Missing;
        }
        let mut stated = None;
        for line in self.spans {
            if is_word(line.name.of(self.front), b"content-length") {
                if stated.is_some() {
                    return BodyLength::Missing;
                }
                stated = Some(line.value.of(self.front));
            }
        }
        match stated {
            Some(value) => read_length(value),
            None if method == Method::Post => BodyLength::Missing,
            None => BodyLength::Known(0),
        }
    }

    /// Whether a `Connection` line lists `close`.
    pub(crate) fn lists_close(&self) -> bool
        ensures { result ≡ list_any lists_close (line_values (codes "connection") self.now) }
    {
        for line in self.spans {
            if is_word(line.name.of(self.front), b"connection")
                && lists_close(line.value.of(self.front))
            {
                return true;
            }
        }
        false
    }
}

/// The length that a value states. Digits past the bound are read to their end and not kept.
fn read_length(value: &[u8]) -> BodyLength
    ensures { result ≡ bounded_length (number_written value.now) }
{
    if value.is_empty() {
        return BodyLength::Missing;
    }
    let mut length = 0;
    for digit in value {
        if !digit.is_ascii_digit() {
            return BodyLength::Missing;
        }
        length = (length * 10 + usize::from(*digit - b'0')).min(BODY_BYTES + 1);
    }
    if length > BODY_BYTES {
        return BodyLength::TooLong;
    }
    BodyLength::Known(length)
}

/// Whether an item of the value is `close`, in any case.
fn lists_close(value: &[u8]) -> bool
    ensures { result ≡ lists_close value.now }
{
    value
        .split(|b| *b == b',')
        .any(|item| is_word(trim_blanks(item), b"close"))
}

/// Whether the bytes are the word, in any case.
fn is_word(bytes: &[u8], word: &[u8]) -> bool
    ensures { result ≡ str_eq_ignore_ascii_case bytes.now word.now }
{
    bytes.eq_ignore_ascii_case(word)
}

/// The bytes without the spaces and tabs at both ends.
fn trim_blanks(bytes: &[u8]) -> &[u8]
    ensures { result.now ≡ trim_ows bytes.now }
{
    trim_end(trim_start(bytes))
}

fn trim_start(mut bytes: &[u8]) -> &[u8]
    ensures { result.now ≡ skip_ows bytes.now }
{
    while let [first, rest @ ..] = bytes
        && is_space_or_tab(*first)
    {
        bytes = rest;
    }
    bytes
}

fn trim_end(mut bytes: &[u8]) -> &[u8]
    ensures { result.now ≡ reverse (skip_ows (reverse bytes.now)) }
{
    while let [rest @ .., last] = bytes
        && is_space_or_tab(*last)
    {
        bytes = rest;
    }
    bytes
}
