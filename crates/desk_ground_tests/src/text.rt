use desk_testing::{check, expect_eq, shows};
use desk_text::{
    Bytes, Cas, CasFault, Code, CodeFault, Day, DayFault, ExemptionNumber, Name, NameFault,
    NumberFault, OutOfMemory, push_u128, read_u32, read_u64,
};
use std::alloc::{AllocError, Global};
use std::fmt::Display;
use std::test::Fail;

/// Fails unless the value is displayed as this text, and has these bytes, which are those of the text.
fn is_spelt<T: Display>(alloc: Global, value: &T, bytes: &[u8], text: &str) -> Result<(), Fail> {
    shows(alloc, value, text)?;
    expect_eq(&bytes, &text.as_bytes())
}

/// A letter more than a code may have.
const FORTY_ONE: &str = "aaaaaaaaaaaaaaaaaaaaaaaaaaaaaaaaaaaaaaaaa";

/// Texts, and what keeps each from being a code.
const CODES: [(&str, Option<CodeFault>); 16] = [
    ("", Some(CodeFault::Empty)),
    (FORTY_ONE, Some(CodeFault::TooLong)),
    ("a b", Some(CodeFault::BadByte { at: 1 })),
    ("6(c)", Some(CodeFault::BadByte { at: 1 })),
    ("a b c", Some(CodeFault::BadByte { at: 1 })),
    ("a,", Some(CodeFault::BadByte { at: 1 })),
    ("a/", Some(CodeFault::BadByte { at: 1 })),
    ("a:", Some(CodeFault::BadByte { at: 1 })),
    ("a@", Some(CodeFault::BadByte { at: 1 })),
    ("a[", Some(CodeFault::BadByte { at: 1 })),
    ("a`", Some(CodeFault::BadByte { at: 1 })),
    ("a{", Some(CodeFault::BadByte { at: 1 })),
    ("é", Some(CodeFault::BadByte { at: 0 })),
    (
        "aaaaaaaaaaaaaaaaaaaaaaaaaaaaaaaaaaaaaaa/",
        Some(CodeFault::BadByte { at: 39 }),
    ),
    ("aaaaaaaaaaaaaaaaaaaaaaaaaaaaaaaaaaaaaaaa", None),
    ("AZaz09._-", None),
];

/// The first text that is read as a code otherwise.
fn first_wrong_code<'a>(rows: &[(&'a str, Option<CodeFault>)]) -> Option<&'a str> {
    for (text, fault) in rows {
        if Code::read(text.as_bytes()).err() != *fault {
            return Some(text);
        }
    }
    None
}

#[test]
fn codes_have_their_alphabet_and_length(rt: HostRuntime) -> Result<(), Fail> {
    expect_eq(&first_wrong_code(&CODES), &None)?;
    let code = Code::read(b"chromium-vi")?;
    is_spelt(rt.alloc(), &code, code.as_bytes(), "chromium-vi")
}

/// Whether the first code is before the second.
fn is_before(first: &str, second: &str) -> Result<bool, CodeFault> {
    let before = Code::read(first.as_bytes())?;
    let after = Code::read(second.as_bytes())?;
    Ok(before < after && before != after)
}

/// The first pair of codes of which the first is not before the second.
fn first_out_of_order<'a>(
    pairs: &[(&'a str, &'a str)],
) -> Result<Option<(&'a str, &'a str)>, CodeFault> {
    for (first, second) in pairs {
        if !is_before(first, second)? {
            return Ok(Some((first, second)));
        }
    }
    Ok(None)
}

#[test]
fn codes_are_ordered_by_their_bytes() -> Result<(), Fail> {
    let pairs = [
        ("A", "a"),
        ("a", "ab"),
        ("a-b", "a.b"),
        ("Z9", "a"),
        ("10", "9"),
    ];
    expect_eq(&first_out_of_order(&pairs), &Ok(None))
}

/// The first text that is read as an exemption's number otherwise.
fn first_wrong_number<'a>(rows: &[(&'a str, Option<CodeFault>)]) -> Option<&'a str> {
    for (text, fault) in rows {
        if ExemptionNumber::read(text.as_bytes()).err() != *fault {
            return Some(text);
        }
    }
    None
}

/// Texts, and what keeps each from being an exemption's number.
const EXEMPTION_NUMBERS: [(&str, Option<CodeFault>); 6] = [
    ("", Some(CodeFault::Empty)),
    ("123456789012345678901", Some(CodeFault::TooLong)),
    ("6[c]", Some(CodeFault::BadByte { at: 1 })),
    ("6'", Some(CodeFault::BadByte { at: 1 })),
    ("6*", Some(CodeFault::BadByte { at: 1 })),
    ("12345678901234567890", None),
];

#[test]
fn exemption_numbers_may_have_brackets(rt: HostRuntime) -> Result<(), Fail> {
    expect_eq(&first_wrong_number(&EXEMPTION_NUMBERS), &None)?;
    let number = ExemptionNumber::read(b"6(c)-I")?;
    is_spelt(rt.alloc(), &number, number.as_bytes(), "6(c)-I")
}

/// A beginning of so many letters, and the rest.
fn long_name(alloc: Global, letters: usize, rest: &[u8]) -> Result<Vec<u8>, AllocError> {
    let mut bytes = vec![in alloc; b'a'; letters]?;
    bytes.extend_from_slice(rest)?;
    Ok(bytes)
}

/// The place of the first name that is read otherwise, where each has so many letters and a rest.
fn first_wrong_long_name(
    alloc: Global,
    rows: &[(usize, &[u8], Option<NameFault>)],
) -> Result<Option<usize>, AllocError> {
    for (place, (letters, rest, fault)) in rows.iter().enumerate() {
        let name = long_name(alloc, *letters, rest)?;
        if Name::read(alloc, name.as_slice()).err() != *fault {
            return Ok(Some(place));
        }
    }
    Ok(None)
}

#[test]
fn names_have_200_bytes_at_most(rt: HostRuntime) -> Result<(), Fail> {
    let rows = [
        (200, b"".as_slice(), None),
        (198, b"\xc3\xa9", None),
        (201, b"", Some(NameFault::TooLong)),
        (199, b"\xc3\xa9", Some(NameFault::TooLong)),
        (200, b"\n", Some(NameFault::TooLong)),
        (199, b"\xc3", Some(NameFault::BadText)),
        (199, b"\n", Some(NameFault::BadText)),
    ];
    expect_eq(&first_wrong_long_name(rt.alloc(), &rows), &Ok(None))
}

/// The first bytes that are read as a name otherwise.
fn first_wrong_name<'a>(alloc: Global, rows: &[(&'a [u8], Option<NameFault>)]) -> Option<&'a [u8]> {
    for (bytes, fault) in rows {
        if Name::read(alloc, bytes).err() != *fault {
            return Some(bytes);
        }
    }
    None
}

/// Bytes, and what keeps each from being a name.
const NAMES: [(&[u8], Option<NameFault>); 14] = [
    (b"", Some(NameFault::Empty)),
    (b"\x00", Some(NameFault::BadText)),
    (b"a\x09", Some(NameFault::BadText)),
    (b"a\x1f", Some(NameFault::BadText)),
    (b"a\x7f", Some(NameFault::BadText)),
    (b"a\xc2\x80", Some(NameFault::BadText)),
    (b"a\xc2\x85", Some(NameFault::BadText)),
    (b"a\xc2\x9f", Some(NameFault::BadText)),
    (b"a\xc2", Some(NameFault::BadText)),
    (b"a\xc0\x80", Some(NameFault::BadText)),
    (b"a\xed\xa0\x80", Some(NameFault::BadText)),
    (b" ~", None),
    (b"a\xc2\xa0", None),
    (b"a\xf0\x9f\x98\x80", None),
];

/// Fails unless the name is this text, and a clone is the same name.
fn has_text(alloc: Global, name: &Name, text: &str) -> Result<(), Fail> {
    is_spelt(alloc, name, name.as_bytes(), text)?;
    expect_eq(&name.as_str(), &text)?;
    check(name.clone()? == *name, "a clone differs")
}

#[test]
fn names_are_texts_without_control_characters(rt: HostRuntime) -> Result<(), Fail> {
    expect_eq(&first_wrong_name(rt.alloc(), &NAMES), &None)?;
    let name = Name::read(rt.alloc(), "Löt-Paste".as_bytes())?;
    has_text(rt.alloc(), &name, "Löt-Paste")
}

/// The first text that is read as a CAS number otherwise.
fn first_wrong_cas<'a>(rows: &[(&'a str, Option<CasFault>)]) -> Option<&'a str> {
    for (text, fault) in rows {
        if Cas::read(text.as_bytes()).err() != *fault {
            return Some(text);
        }
    }
    None
}

/// Texts, and what keeps each from being a CAS number.
const CAS_NUMBERS: [(&str, Option<CasFault>); 14] = [
    ("117-81-7", None),
    ("7439-92-1", None),
    ("7732-18-5", None),
    ("85-68-7", None),
    ("1234567-89-5", None),
    ("1234567-89-6", Some(CasFault::CheckDigit)),
    ("117-81-8", Some(CasFault::CheckDigit)),
    ("171-81-7", Some(CasFault::CheckDigit)),
    ("1-81-7", Some(CasFault::Shape)),
    ("12345678-90-1", Some(CasFault::Shape)),
    ("117-81-", Some(CasFault::Shape)),
    ("117-81-77", Some(CasFault::Shape)),
    ("a17-81-7", Some(CasFault::Shape)),
    ("117/81/7", Some(CasFault::Shape)),
];

#[test]
fn cas_numbers_end_in_their_check_digit(rt: HostRuntime) -> Result<(), Fail> {
    expect_eq(&first_wrong_cas(&CAS_NUMBERS), &None)?;
    let number = Cas::read(b"117-81-7")?;
    is_spelt(rt.alloc(), &number, number.as_bytes(), "117-81-7")
}

/// Texts, and what keeps each from being a day.
const DAYS: [(&str, Option<DayFault>); 18] = [
    ("2024-02-29", None),
    ("2000-01-01", None),
    ("2000-02-29", None),
    ("2099-12-31", None),
    ("2023-02-29", Some(DayFault::NoSuchDay)),
    ("1900-02-29", Some(DayFault::NoSuchDay)),
    ("2100-02-29", Some(DayFault::NoSuchDay)),
    ("2024-01-00", Some(DayFault::NoSuchDay)),
    ("2024-12-32", Some(DayFault::NoSuchDay)),
    ("2024-13-01", Some(DayFault::NoSuchDay)),
    ("2024-00-01", Some(DayFault::NoSuchDay)),
    ("2024-04-31", Some(DayFault::NoSuchDay)),
    ("1999-12-31", Some(DayFault::OutOfProfile)),
    ("2100-01-01", Some(DayFault::OutOfProfile)),
    ("0000-01-01", Some(DayFault::OutOfProfile)),
    ("2024-1-23", Some(DayFault::Shape)),
    ("2024/01/23", Some(DayFault::Shape)),
    ("2024-01-230", Some(DayFault::Shape)),
];

/// The first text that is read as a day otherwise.
fn first_wrong_day<'a>(rows: &[(&'a str, Option<DayFault>)]) -> Option<&'a str> {
    for (text, fault) in rows {
        if Day::read(text.as_bytes()).err() != *fault {
            return Some(text);
        }
    }
    None
}

/// Fails unless the day is 9 February 2024, and is displayed so.
fn is_the_ninth(alloc: Global, day: Day) -> Result<(), Fail> {
    expect_eq(&day, &Day::new(2024, 2, 9))?;
    expect_eq(&(day.year(), day.month(), day.day()), &(2024, 2, 9))?;
    is_spelt(alloc, &day, day.to_text().as_slice(), "2024-02-09")
}

#[test]
fn days_are_those_of_the_calendar(rt: HostRuntime) -> Result<(), Fail> {
    expect_eq(&first_wrong_day(&DAYS), &None)?;
    let day = Day::read(b"2024-02-09")?;
    is_the_ninth(rt.alloc(), day)?;
    let is_between = Day::new(2023, 12, 31) < day && day < Day::new(2024, 3, 1);
    check(is_between, "days are out of order")
}

/// The first day on which a question may be asked otherwise.
fn first_wrong_askable<'a>(rows: &[(&'a str, bool)]) -> Result<Option<&'a str>, DayFault> {
    for (day, askable) in rows {
        if Day::read(day.as_bytes())?.is_askable() != *askable {
            return Ok(Some(day));
        }
    }
    Ok(None)
}

#[test]
fn questions_may_be_asked_from_22_july_2014() -> Result<(), Fail> {
    let rows = [
        ("2014-07-21", false),
        ("2014-07-22", true),
        ("2013-12-31", false),
        ("2015-01-01", true),
    ];
    expect_eq(&first_wrong_askable(&rows), &Ok(None))
}

/// Days, and the day six months after each.
const SIX_MONTHS: [(&str, Option<&str>); 9] = [
    ("2024-01-23", Some("2024-07-23")),
    ("2024-08-31", Some("2025-02-28")),
    ("2023-08-31", Some("2024-02-29")),
    ("2023-08-29", Some("2024-02-29")),
    ("2024-07-31", Some("2025-01-31")),
    ("2024-12-31", Some("2025-06-30")),
    ("2099-06-30", Some("2099-12-30")),
    ("2099-07-01", None),
    ("2099-12-31", None),
];

/// A day that may be absent.
fn read_day(text: Option<&str>) -> Result<Option<Day>, DayFault> {
    match text {
        Some(text) => Ok(Some(Day::read(text.as_bytes())?)),
        None => Ok(None),
    }
}

/// The first day of which another day is six months later.
fn first_wrong_six_months<'a>(
    rows: &[(&'a str, Option<&str>)],
) -> Result<Option<&'a str>, DayFault> {
    for (day, later) in rows {
        if Day::read(day.as_bytes())?.six_months() != read_day(*later)? {
            return Ok(Some(day));
        }
    }
    Ok(None)
}

#[test]
fn six_months_later_is_the_same_day_or_the_last_of_the_month() -> Result<(), Fail> {
    expect_eq(&first_wrong_six_months(&SIX_MONTHS), &Ok(None))
}

/// The first text that is read as a number of 32 bits otherwise.
fn first_wrong_u32<'a>(rows: &[(&'a str, Result<u32, NumberFault>)]) -> Option<&'a str> {
    for (text, number) in rows {
        if read_u32(text.as_bytes()) != *number {
            return Some(text);
        }
    }
    None
}

/// The first text that is read as a number of 64 bits otherwise.
fn first_wrong_u64<'a>(rows: &[(&'a str, Result<u64, NumberFault>)]) -> Option<&'a str> {
    for (text, number) in rows {
        if read_u64(text.as_bytes()) != *number {
            return Some(text);
        }
    }
    None
}

/// Texts, and the number of 32 bits that each is.
const NUMBERS_OF_32_BITS: [(&str, Result<u32, NumberFault>); 9] = [
    ("4294967295", Ok(4294967295)),
    ("4294967296", Err(NumberFault::TooBig)),
    ("18446744073709551616", Err(NumberFault::TooBig)),
    ("0", Ok(0)),
    ("007", Err(NumberFault::Shape)),
    ("00", Err(NumberFault::Shape)),
    ("", Err(NumberFault::Shape)),
    ("+5", Err(NumberFault::Shape)),
    ("5a", Err(NumberFault::Shape)),
];

/// Texts, and the number of 64 bits that each is.
const NUMBERS_OF_64_BITS: [(&str, Result<u64, NumberFault>); 5] = [
    ("18446744073709551615", Ok(u64::MAX)),
    ("18446744073709551616", Err(NumberFault::TooBig)),
    ("100000000000000000000000000000", Err(NumberFault::TooBig)),
    ("0018446744073709551616", Err(NumberFault::Shape)),
    ("10", Ok(10)),
];

#[test]
fn numbers_have_one_spelling_and_fit_their_type() -> Result<(), Fail> {
    expect_eq(&first_wrong_u32(&NUMBERS_OF_32_BITS), &None)?;
    expect_eq(&first_wrong_u64(&NUMBERS_OF_64_BITS), &None)
}

/// A unit, and two numbers with a blank before each.
fn two_numbers(alloc: Global, first: u128, second: u128) -> Result<Bytes, Fail> {
    let mut out = Bytes::start(alloc);
    out.push_all(b"ppm ")?;
    push_u128(&mut out, first)?;
    out.push_all(b" ")?;
    push_u128(&mut out, second)?;
    Ok(out)
}

#[test]
fn numbers_are_appended_in_decimal(rt: HostRuntime) -> Result<(), Fail> {
    let out = two_numbers(rt.alloc(), 0, u128::MAX)?;
    let want = b"ppm 0 340282366920938463463374607431768211455".as_slice();
    check(out.as_slice() == want, "a number is spelt otherwise")?;
    let length = Bytes::from(out.into_vec()).as_slice().len();
    check(length == 45, "a list of bytes has another length")
}

/// Twice as many letters, and the greatest number.
fn twice_and_a_number(alloc: Global, letters: usize) -> Result<Bytes, Fail> {
    let long = vec![in alloc; b'x'; letters]?;
    let mut out = Bytes::start(alloc);
    out.push_all(&long)?;
    out.push_all(&long)?;
    push_u128(&mut out, u128::MAX)?;
    Ok(out)
}

/// Fails unless the bytes are so many, and a copy is the same.
fn is_copied(alloc: Global, out: &Bytes, len: usize) -> Result<(), Fail> {
    expect_eq(&out.len(), &len)?;
    check(out.copied(alloc)? == *out, "a copy differs")
}

/// Fails unless a name of so many letters is cloned whole.
fn is_cloned(alloc: Global, letters: usize) -> Result<(), Fail> {
    let name = Name::read(alloc, &long_name(alloc, letters, b"")?)?;
    expect_eq(&name.clone()?.as_bytes().len(), &letters)
}

#[test]
fn what_takes_memory_takes_it_for_long_texts(rt: HostRuntime) -> Result<(), Fail> {
    let out = twice_and_a_number(rt.alloc(), 70_000)?;
    is_copied(rt.alloc(), &out, 140_039)?;
    is_cloned(rt.alloc(), 200)
}

/// Whether a copy of the bytes, which are some, is the same.
fn has_a_copy(alloc: Global, bytes: &Bytes) -> Result<bool, OutOfMemory> {
    let copy = bytes.copied(alloc)?;
    Ok(copy == *bytes && copy.len() == bytes.as_slice().len() && !copy.is_empty())
}

/// Whether the bytes of the first text are before those of the second, of which a copy is the same.
fn are_in_order(alloc: Global, first: &str, second: &str) -> Result<bool, OutOfMemory> {
    let first = Bytes::from(first.as_bytes().to_vec(alloc)?);
    let second = Bytes::from(second.as_bytes().to_vec(alloc)?);
    Ok(first < second && first != second && has_a_copy(alloc, &second)?)
}

/// The first pair of texts of which the first is not before the second.
fn first_wrong_pair<'a>(
    alloc: Global,
    pairs: &[(&'a str, &'a str)],
) -> Result<Option<(&'a str, &'a str)>, OutOfMemory> {
    for (first, second) in pairs {
        if !are_in_order(alloc, first, second)? {
            return Ok(Some((first, second)));
        }
    }
    Ok(None)
}

#[test]
fn bytes_are_ordered_as_texts_are(rt: HostRuntime) -> Result<(), Fail> {
    let pairs = [("", "a"), ("a", "ab"), ("ab", "b"), ("Z", "a")];
    expect_eq(&first_wrong_pair(rt.alloc(), &pairs), &Ok(None))
}

/// Fails unless the faults of codes and names have their words.
fn faults_of_words_are_told(alloc: Global) -> Result<(), Fail> {
    shows(alloc, &CodeFault::Empty, "no byte")?;
    shows(alloc, &CodeFault::TooLong, "too many bytes")?;
    let words = "a byte that may not stand there, at 3";
    shows(alloc, &CodeFault::BadByte { at: 3 }, words)?;
    shows(alloc, &NameFault::Empty, "no byte")?;
    shows(alloc, &NameFault::TooLong, "more than 200 bytes")?;
    let words = "not UTF-8, or a control character";
    shows(alloc, &NameFault::BadText, words)?;
    shows(alloc, &NameFault::OutOfMemory, "out of memory")
}

/// Fails unless the faults of CAS numbers, days and numbers have their words.
fn faults_of_numbers_are_told(alloc: Global) -> Result<(), Fail> {
    shows(alloc, &CasFault::Shape, "not the form of a CAS number")?;
    shows(alloc, &CasFault::CheckDigit, "a wrong check digit")?;
    shows(alloc, &DayFault::Shape, "not a day as YYYY-MM-DD")?;
    shows(alloc, &DayFault::NoSuchDay, "no such day")?;
    let words = "a day before 2000-01-01 or after 2099-12-31";
    shows(alloc, &DayFault::OutOfProfile, words)?;
    shows(alloc, &NumberFault::Shape, "not a number")?;
    shows(alloc, &NumberFault::TooBig, "too big a number")
}

#[test]
fn faults_of_texts_are_told(rt: HostRuntime) -> Result<(), Fail> {
    faults_of_words_are_told(rt.alloc())?;
    faults_of_numbers_are_told(rt.alloc())
}
