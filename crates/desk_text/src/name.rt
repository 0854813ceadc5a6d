ghost use Rattle.std.specs.Prelude.{◌≡◌, ◌≢◌, Some, IfSome, is_some};
ghost use Rattle.std.proofs.Common.{rules};
ghost use Rattle.std.specs.Char.{is_control};
ghost use Rattle.std.specs.Cmp.Lexicographic.{slice_cmp};
ghost use Rattle.std.specs.Cmp.Rules.{comparing};
ghost use Rattle.std.specs.List.{list_any};
ghost use Rattle.std.specs.Ordering.{nat_cmp, eq_by_cmp};
ghost use Rattle.std.specs.Str.{chars};
ghost use Rattle.desk_text.specs.Name.{is_name_text};

use std::alloc::{AllocError, Global};
use std::error::Error;
use std::marker::Model;
use std::{fmt, str};

/// The greatest number of bytes in a name.
pub const NAME_LIMIT: usize = 200;

/// A name as people read it: 1 to 200 bytes of UTF-8 without control characters (U+0000 to U+001F and U+007F to
/// U+009F).
#[derive(Drop)]
pub struct Name {
    text: String,
}

impl Model for Name {
    ghost use Rattle.std.specs.Prelude.{◌≡◌, List, ℕ, Ok};
    ghost use Rattle.std.specs.String.{string_bytes};
    ghost use Rattle.desk_text.specs.Name.{name_of};

    ghost Value = { List ℕ };

    ghost view = { λ n. string_bytes n.text };

    ghost invariant = { λ n. name_of (string_bytes n.text) ≡ Ok (string_bytes n.text) };
}

/// Why bytes are no name, or couldn't be kept as one.
#[derive(Clone, Copy, Debug, PartialEq, Eq)]
pub enum NameFault {
    /// There is no byte.
    Empty,
    /// There are more than 200 bytes.
    TooLong,
    /// The bytes aren't UTF-8, or hold a control character.
    BadText,
    /// No memory was left for the name.
    OutOfMemory,
}

impl Name {
    ghost use Rattle.desk_text.specs.Name.{name_of};

    /// The name that these bytes spell. The faults are tried in the order in which `NameFault` lists them, so that
    /// memory is wanting only for bytes that are a name.
    #[tactic(auto, unfolding(crate::specs::Name::name_of))]
    pub fn read(alloc: Global, bytes: &[u8]) -> Result<Name, NameFault>
        ensures name { result ≢ Err NameFault.OutOfMemory → result ≡ name_of bytes.now }
        ensures memory { result ≡ Err NameFault.OutOfMemory → name_of bytes.now ≡ Ok bytes.now }
    {
        if bytes.is_empty() {
            return Err(NameFault::Empty);
        }
        if bytes.len() > NAME_LIMIT {
            return Err(NameFault::TooLong);
        }
        let Some(text) = name_text(bytes) else {
            return Err(NameFault::BadText);
        };
        Ok(Name {
            text: String::from_str(alloc, text)?,
        })
    }

    /// The bytes of the name.
    pub fn as_bytes(&self) -> &[u8]
        ensures value { result.now ≡ self.now }
        ensures form { name_of self.now ≡ Ok self.now }
    {
        self.text.as_bytes()
    }

    /// The name as a text.
    pub fn as_str(&self) -> &str
        ensures { result.now ≡ self.now }
    {
        self.text.as_str()
    }
}

/// The bytes as a text, where they are one without control characters.
fn name_text(bytes: &[u8]) -> Option<&str>
    ensures text { IfSome result (λ text. text.now ≡ bytes.now) }
    ensures found { is_some result ≡ is_name_text bytes.now }
{
    match str::from_utf8(bytes) {
        Ok(text) if !has_control(text) => Some(text),
        _ => None,
    }
}

/// Whether the text has a control character.
fn has_control(text: &str) -> bool
    ensures { result ≡ list_any is_control (chars text.now) }
{
    text.chars().any(|c| c.is_control())
}

impl Clone for Name {
    ghost is_clone = { λ name copy. copy ≡ name };

    fn clone(&self) -> Result<Name, AllocError> {
        Ok(Name {
            text: self.text.clone()?,
        })
    }
}

impl PartialEq for Name {
    ghost eq = { eq_by_cmp (slice_cmp nat_cmp) };

    ghost laws = { Prim.search (comparing, rules) };

    fn eq(&self, other: &Name) -> bool {
        self.as_bytes().cmp(&other.as_bytes()).is_eq()
    }
}

impl Eq for Name {
    ghost laws = { Prim.search (comparing, rules) };
}

impl fmt::Display for Name {
    ghost output = { λ name. Some name };

    fn fmt<W: fmt::Write>(&self, f: &mut fmt::Formatter<W>) -> fmt::Result {
        f.write_str(self.as_str())
    }
}

impl fmt::Debug for Name {
    fn fmt<W: fmt::Write>(&self, f: &mut fmt::Formatter<W>) -> fmt::Result {
        f.write_str(self.as_str())
    }
}

impl From<AllocError> for NameFault {
    ghost use Rattle.std.specs.Prelude.{◌≡◌};
    ghost use Rattle.desk_text.specs.declared.name.NameFault.TheVariants.{OutOfMemory};

    ghost from_gives = { λ _ e. e ≡ OutOfMemory };

    fn from(_error: AllocError) -> NameFault {
        NameFault::OutOfMemory
    }
}

impl fmt::Display for NameFault {
    ghost use Rattle.std.specs.Prelude.{Some};
    ghost use Rattle.desk_text.specs.Faults.{name_fault_words};

    ghost output = { λ fault. Some (name_fault_words fault) };

    fn fmt<W: fmt::Write>(&self, f: &mut fmt::Formatter<W>) -> fmt::Result {
        f.write_str(match self {
            NameFault::Empty => "no byte",
            NameFault::TooLong => "more than 200 bytes",
            NameFault::BadText => "not UTF-8, or a control character",
            NameFault::OutOfMemory => "out of memory",
        })
    }
}

impl Error for NameFault {}
