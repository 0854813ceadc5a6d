ghost use Rattle.std.specs.Prelude.{◌≡◌, ◌≢◌, ◌++◌, ℕ, List, [], ◌∷◌, Err, IfOk, IsOk};
ghost use Rattle.std.specs.Cow.{cow_str_bytes};
ghost use Rattle.std.specs.Option.{ok_or};
ghost use Rattle.desk_text.specs.Day.{Date};
ghost use Rattle.desk_law.specs.declared.kind.Kind.{Kind};
ghost use Rattle.desk_http.specs.declared.ask.Ask.{Ask};
ghost use Rattle.desk_http.specs.declared.http_fault.HttpFault.TheVariants as fault;
ghost use Rattle.desk_http.specs.declared.http_fault.QueryKey.TheVariants as key;
ghost use Rattle.desk_law.specs.Kind.{kind_of};
ghost use Rattle.desk_http.specs.Endpoints.{row_at};
ghost use Rattle.desk_http.specs.Fields.{IsAsked, IsField, IsQueryOf, by_day, by_kind_and_day, by_nothing, is_absent, key_named, names_of};
ghost use Rattle.desk_text.specs.Forms.{an_askable_day};
ghost use Rattle.desk_http.specs.Query.{ArePlain, Pair, day_in, kind_in, pairs_of};
ghost use Rattle.form_urlencoded.specs.Form.{raw_pairs};
ghost use Rattle.desk_http.specs.Routes.{are_named, asked_at, asked_by};

use crate::ask::Ask;
use crate::endpoint::Endpoint;
use crate::http_fault::{HttpFault, QueryKey};
use desk_law::Kind;
use desk_text::Day;
use form_urlencoded::parse;
use std::alloc::{AllocError, Global};
use std::borrow::CowStr;

/// What the pairs of a query say under one name.
#[derive(Clone, Copy, Debug)]
pub(crate) enum Field<T> {
    /// No pair has the name.
    Absent,
    /// Some pair has it: the value, where it is one pair alone and the value is good.
    Said(Option<T>),
}

impl<T> Field<T> {
    /// Whether no pair has the name.
    fn is_absent(&self) -> bool
        ensures { result ≡ is_absent self.now }
    {
        matches!(self, Field::Absent)
    }
}

/// What a query says under each name that rows of the table of routes take.
#[derive(Clone, Copy, Debug)]
pub(crate) struct Query {
    /// The kind of equipment.
    kind: Field<Kind>,
    /// The day, one that may be asked about.
    day: Field<Day>,
    /// Whether some pair has another name.
    other: bool,
}

impl Query {
    /// A query without pairs.
    fn new() -> Query
        ensures { IsQueryOf result [] }
    {
        Query {
            kind: Field::Absent,
            day: Field::Absent,
            other: false,
        }
    }

    /// Reads the pairs between the `&` of a query. Memory is wanting only where a name or a value has to be decoded.
    pub(crate) fn read(alloc: Global, bytes: &[u8]) -> Result<Query, AllocError>
        ensures value { IfOk result (λ query. IsQueryOf query (pairs_of bytes.now)) }
        ensures memory { ArePlain (raw_pairs bytes.now) → IsOk result }
    {
        let mut query = Query::new();
        for pair in parse(alloc, bytes) {
            query = query.with_pair(pair?);
        }
        Ok(query)
    }

    /// The query with one pair more that was read.
    fn with_pair(self, pair: (CowStr<'_>, CowStr<'_>)) -> Query
        ensures { (pairs : List Pair) → IsQueryOf self pairs
            → IsQueryOf result (pairs ++ (cow_str_bytes pair.entry.0, cow_str_bytes pair.entry.1) ∷ []) }
    {
        let (name, value) = pair;
        self.with(name.as_bytes(), value.as_bytes())
    }

    /// The query with one pair more.
    fn with(self, name: &[u8], value: &[u8]) -> Query
        ensures { (pairs : List Pair) → IsQueryOf self pairs → IsQueryOf result (pairs ++ (name.now, value.now) ∷ []) }
    {
        match key_named(name) {
            QueryKey::Kind => Query {
                kind: kind_with(self.kind, value),
                ..self
            },
            QueryKey::Day => Query {
                day: day_with(self.day, value),
                ..self
            },
            QueryKey::Other => Query {
                other: true,
                ..self
            },
        }
    }

    /// The kind that it names.
    fn kind(&self) -> Result<Kind, HttpFault>
        ensures { (pairs : List Pair) → IsQueryOf self.now pairs → result ≡ ok_or (kind_in pairs) (fault.BadQuery key.Kind) }
    {
        match self.kind {
            Field::Said(Some(kind)) => Ok(kind),
            _ => Err(bad(QueryKey::Kind)),
        }
    }

    /// The day that it names.
    fn day(&self) -> Result<Day, HttpFault>
        ensures { (pairs : List Pair) → IsQueryOf self.now pairs → result ≡ ok_or (day_in pairs) (fault.BadQuery key.Day) }
    {
        match self.day {
            Field::Said(Some(day)) => Ok(day),
            _ => Err(bad(QueryKey::Day)),
        }
    }

    /// Whether it has no other names than these.
    fn has_only(&self, may_have_kind: bool, may_have_day: bool) -> bool
        ensures { (pairs : List Pair) → IsQueryOf self.now pairs → result ≡ are_named (names_of may_have_kind may_have_day) pairs }
    {
        let kind_fits = may_have_kind | self.kind.is_absent();
        let day_fits = may_have_day | self.day.is_absent();
        !self.other & kind_fits & day_fits
    }

    /// Nothing, where the query has no key.
    #[tactic(auto, unfolding(crate::specs::Routes::asked_by))]
    pub(crate) fn nothing(&self) -> Result<(), HttpFault>
        ensures { (pairs : List Pair) → IsQueryOf self.now pairs → (it : Ask) → IsAsked result (λ _. it) (asked_by [] (by_nothing it) pairs) }
    {
        if self.has_only(false, false) {
            Ok(())
        } else {
            Err(bad(QueryKey::Other))
        }
    }

    /// The day of a query whose only key is `day`.
    #[tactic(auto, unfolding(crate::specs::Routes::asked_by))]
    pub(crate) fn day_alone(&self) -> Result<Day, HttpFault>
        ensures { (pairs : List Pair) → IsQueryOf self.now pairs → (next : Date → Ask)
            → IsAsked result next (asked_by [] (by_day next) pairs) }
    {
        let day = self.day()?;
        if self.has_only(false, true) {
            Ok(day)
        } else {
            Err(bad(QueryKey::Other))
        }
    }

    /// The kind and the day of a query whose only keys are `kind` and `day`.
    #[tactic(auto, unfolding(crate::specs::Routes::asked_by))]
    pub(crate) fn kind_and_day(&self) -> Result<(Kind, Day), HttpFault>
        ensures { (pairs : List Pair) → IsQueryOf self.now pairs → (next : Kind → Date → Ask)
            → IsAsked result (λ both. next both.0 both.1) (asked_by [] (by_kind_and_day next) pairs) }
    {
        let kind = self.kind()?;
        let day = self.day()?;
        if self.has_only(true, true) {
            Ok((kind, day))
        } else {
            Err(bad(QueryKey::Other))
        }
    }
}

/// What a row of the table asks with the bytes behind its word and a query.
pub(crate) fn asked(
    alloc: Global,
    endpoint: Endpoint,
    behind: &[u8],
    query: &[u8],
) -> Result<Ask, HttpFault>
    ensures { result ≢ Err fault.OutOfMemory → result ≡ asked_at (row_at endpoint) behind.now (pairs_of query.now) }
{
    match Query::read(alloc, query) {
        Ok(query) => endpoint.ask(behind, &query),
        Err(_) => Err(HttpFault::OutOfMemory),
    }
}

/// The key of this name.
fn key_named(name: &[u8]) -> QueryKey
    ensures { result ≡ key_named name.now }
{
    match name {
        b"kind" => QueryKey::Kind,
        b"day" => QueryKey::Day,
        _ => QueryKey::Other,
    }
}

/// The fault of a query that fails at a key.
fn bad(key: QueryKey) -> HttpFault
    ensures { result ≡ fault.BadQuery key }
{
    HttpFault::BadQuery { key }
}

/// What is said of the kind once a pair with this value has its name.
fn kind_with(field: Field<Kind>, value: &[u8]) -> Field<Kind>
    ensures { (values : List (List ℕ)) → IsField kind_of values field → IsField kind_of (values ++ value.now ∷ []) result }
{
    match field {
        Field::Absent => first_kind(value),
        Field::Said(_) => Field::Said(None),
    }
}

/// What is said of the kind where one pair, with this value, has its name.
fn first_kind(value: &[u8]) -> Field<Kind>
    ensures { IsField kind_of (value.now ∷ []) result }
{
    Field::Said(Kind::read(value))
}

/// What is said of the day once a pair with this value has its name.
fn day_with(field: Field<Day>, value: &[u8]) -> Field<Day>
    ensures { (values : List (List ℕ)) → IsField an_askable_day values field → IsField an_askable_day (values ++ value.now ∷ []) result }
{
    match field {
        Field::Absent => first_day(value),
        Field::Said(_) => Field::Said(None),
    }
}

/// What is said of the day where one pair, with this value, has its name.
fn first_day(value: &[u8]) -> Field<Day>
    ensures { IsField an_askable_day (value.now ∷ []) result }
{
    Field::Said(Day::read_askable(value))
}
