ghost use Rattle.std.specs.Prelude.{Some};

use crate::method::Method;
use desk_text::OutOfMemory;
use std::alloc::AllocError;
use std::error::Error;
use std::fmt;

/// A key of a query.
#[derive(Clone, Copy, Debug, PartialEq, Eq)]
pub enum QueryKey {
    /// `kind`, a kind of equipment.
    Kind,
    /// `day`, a day that may be asked about.
    Day,
    /// Any other key.
    Other,
}

/// Why a request asks nothing. The faults are tried in this order.
#[derive(Clone, Copy, Debug, PartialEq, Eq)]
pub enum HttpFault {
    /// 404: there is no such path.
    NoRoute,
    /// 405: the path takes another method.
    WrongMethod {
        /// The method that it takes.
        allow: Method,
    },
    /// 400: a key of the query is absent, stands twice, has a bad value, or is none that the path takes.
    BadQuery {
        /// The first key of the path's that fails; `Other` where none does and there is another key.
        key: QueryKey,
    },
    /// 507: there was no memory to read the query.
    OutOfMemory,
}

/// The key's name, as the reply to a bad query tells it.
impl fmt::Display for QueryKey {
    ghost use Rattle.desk_http.specs.Faults.{key_word};

    ghost output = { λ key. Some (key_word key) };

    fn fmt<W: fmt::Write>(&self, f: &mut fmt::Formatter<W>) -> fmt::Result {
        match self {
            QueryKey::Kind => f.write_str("kind"),
            QueryKey::Day => f.write_str("day"),
            QueryKey::Other => f.write_str("other"),
        }
    }
}

/// The fault's words, as the reply to the request tells them.
impl fmt::Display for HttpFault {
    ghost use Rattle.desk_http.specs.Faults.{http_fault_words};

    ghost output = { λ fault. Some (http_fault_words fault) };

    fn fmt<W: fmt::Write>(&self, f: &mut fmt::Formatter<W>) -> fmt::Result {
        match self {
            HttpFault::NoRoute => f.write_str("no-route"),
            HttpFault::WrongMethod { .. } => f.write_str("wrong-method"),
            HttpFault::BadQuery { key } => write!(f, "bad-query {key}"),
            HttpFault::OutOfMemory => f.write_str("memory"),
        }
    }
}

impl Error for HttpFault {}

impl From<OutOfMemory> for HttpFault {
    ghost use Rattle.std.specs.Prelude.{◌≡◌};
    ghost use Rattle.desk_http.specs.declared.http_fault.HttpFault.TheVariants as fault;

    ghost from_gives = { λ _ e. e ≡ fault.OutOfMemory };

    fn from(_error: OutOfMemory) -> HttpFault {
        HttpFault::OutOfMemory
    }
}

impl From<AllocError> for HttpFault {
    ghost use Rattle.std.specs.Prelude.{◌≡◌};
    ghost use Rattle.desk_http.specs.declared.http_fault.HttpFault.TheVariants as fault;

    ghost from_gives = { λ _ e. e ≡ fault.OutOfMemory };

    fn from(_error: AllocError) -> HttpFault {
        HttpFault::OutOfMemory
    }
}
