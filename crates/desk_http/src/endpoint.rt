ghost use Rattle.std.specs.Prelude.{◌≡◌, ◌==◌, List, [], drop, is_some, length, if◌then◌else◌, Err, Ok};
ghost use Rattle.std.specs.Option.{ok_or};
ghost use Rattle.desk_http.specs.declared.http_fault.HttpFault.TheVariants as fault;
ghost use Rattle.desk_http.specs.Endpoints.{row_at};
ghost use Rattle.desk_http.specs.Fields.{IsQueryOf, by_nothing};
ghost use Rattle.desk_http.specs.Query.{Pair};
ghost use Rattle.desk_http.specs.Routes.{asked_at, asked_by, code_in, if_year, taken_from_path, year_in};

use crate::ask::Ask;
use crate::http_fault::HttpFault;
use crate::method::Method;
use crate::query::Query;
use desk_model::year_of;
use desk_scratch::Question;
use desk_text::{Code, read_u32};

/// A row of the table of routes.
#[derive(Clone, Copy, Debug, PartialEq, Eq)]
pub(crate) enum Endpoint {
    /// What was declared of a material, and its verdicts.
    Material,
    /// Whether a product is compliant.
    Rohs,
    /// A part's duties to inform.
    Article33,
    /// A year's notifications.
    Article7,
    /// A part.
    Part,
    /// Where a material or a part is used.
    Uses,
    /// The whole desk.
    Summary,
    /// The number of the tables.
    Version,
    /// An edit is sent.
    Edit,
    /// A declaration is sent.
    Declare,
}

impl Endpoint {
    /// Each row once, in the order of the table.
    pub(crate) const ALL: [Endpoint; 10] = [
        Endpoint::Material,
        Endpoint::Rohs,
        Endpoint::Article33,
        Endpoint::Article7,
        Endpoint::Part,
        Endpoint::Uses,
        Endpoint::Summary,
        Endpoint::Version,
        Endpoint::Edit,
        Endpoint::Declare,
    ];

    /// The word that its path begins with.
    #[tactic(auto, unfolding(crate::specs::Endpoints::row_place))]
    pub(crate) fn word(self) -> &'static str
        ensures { result.now ≡ (row_at self).word }
    {
        match self {
            Endpoint::Material => "/material",
            Endpoint::Rohs => "/rohs",
            Endpoint::Article33 => "/article33",
            Endpoint::Article7 => "/article7",
            Endpoint::Part => "/part",
            Endpoint::Uses => "/uses",
            Endpoint::Summary => "/summary",
            Endpoint::Version => "/version",
            Endpoint::Edit => "/edit",
            Endpoint::Declare => "/declare",
        }
    }

    /// The method that it takes.
    #[tactic(auto, unfolding(crate::specs::Endpoints::row_place))]
    pub(crate) fn method(self) -> Method
        ensures { result ≡ (row_at self).method }
    {
        match self {
            Endpoint::Edit | Endpoint::Declare => Method::Post,
            _ => Method::Get,
        }
    }

    /// Whether the bytes behind the word are what the row takes.
    #[tactic(auto, unfolding(crate::specs::Endpoints::row_place))]
    pub(crate) fn takes(self, behind: &[u8]) -> bool
        ensures { result ≡ is_some (taken_from_path (row_at self).path behind.now) }
    {
        match self {
            Endpoint::Material
            | Endpoint::Rohs
            | Endpoint::Article33
            | Endpoint::Part
            | Endpoint::Uses => code_behind(behind).is_ok(),
            Endpoint::Article7 => year_behind(behind).is_ok(),
            Endpoint::Summary | Endpoint::Version | Endpoint::Edit | Endpoint::Declare => {
                behind.is_empty()
            }
        }
    }

    /// What the row asks with the bytes behind its word and a query: that there is no such path, or the first key of the query that
    /// fails.
    #[tactic(auto, unfolding(crate::specs::Endpoints::row_place))]
    pub(crate) fn ask(self, behind: &[u8], query: &Query) -> Result<Ask, HttpFault>
        ensures { (pairs : List Pair) → IsQueryOf query.now pairs → result ≡ asked_at (row_at self) behind.now pairs }
    {
        let question = match self {
            Endpoint::Material => {
                let code = code_behind(behind)?;
                let (kind, day) = query.kind_and_day()?;
                Question::Material { code, kind, day }
            }
            Endpoint::Rohs => Question::Rohs {
                code: code_behind(behind)?,
                day: query.day_alone()?,
            },
            Endpoint::Article33 => Question::Reach33 {
                code: code_behind(behind)?,
                day: query.day_alone()?,
            },
            Endpoint::Article7 => Question::Reach7 {
                year: year_behind(behind)?,
                day: query.day_alone()?,
            },
            Endpoint::Part => {
                let code = code_behind(behind)?;
                query.nothing()?;
                Question::Part { code }
            }
            Endpoint::Uses => {
                let code = code_behind(behind)?;
                query.nothing()?;
                Question::Uses { code }
            }
            Endpoint::Summary => {
                nothing_behind(behind)?;
                let day = query.day_alone()?;
                Question::Summary { day }
            }
            Endpoint::Version => {
                nothing_behind(behind)?;
                query.nothing()?;
                Question::Version
            }
            Endpoint::Edit => return alone(behind, query, Ask::Edit),
            Endpoint::Declare => return alone(behind, query, Ask::Declaration),
        };
        Ok(Ask::Question(question))
    }
}

/// What is asked where nothing is behind the word, and the query has no key.
fn alone(behind: &[u8], query: &Query, ask: Ask) -> Result<Ask, HttpFault>
    ensures { (pairs : List Pair) → IsQueryOf query.now pairs → result ≡ (if length behind.now == 0 then asked_by [] (by_nothing ask) pairs else Err fault.NoRoute) }
{
    nothing_behind(behind)?;
    query.nothing()?;
    Ok(ask)
}

/// That there is no such path, where something is behind the word.
fn nothing_behind(behind: &[u8]) -> Result<(), HttpFault>
    ensures { result ≡ (if length behind.now == 0 then Ok tt else Err fault.NoRoute) }
{
    if behind.is_empty() {
        Ok(())
    } else {
        Err(HttpFault::NoRoute)
    }
}

/// The code behind a slash, or that there is no such path.
fn code_behind(behind: &[u8]) -> Result<Code, HttpFault>
    ensures { result ≡ ok_or (code_in (drop 1 behind.now)) fault.NoRoute }
{
    match Code::read(after_slash(behind)) {
        Ok(code) => Ok(code),
        Err(_) => Err(HttpFault::NoRoute),
    }
}

/// The year behind a slash, one of which shipments are kept, or that there is no such path.
fn year_behind(behind: &[u8]) -> Result<u16, HttpFault>
    ensures { result ≡ ok_or (year_in (drop 1 behind.now)) fault.NoRoute }
{
    match read_u32(after_slash(behind)) {
        Ok(number) => shipment_year(number),
        Err(_) => Err(HttpFault::NoRoute),
    }
}

/// The number, where it is a year of which shipments are kept.
fn shipment_year(number: u32) -> Result<u16, HttpFault>
    ensures { result ≡ ok_or (if_year number) fault.NoRoute }
{
    let Some(year) = year_of(u64::from(number)) else {
        return Err(HttpFault::NoRoute);
    };
    match u16::try_from(year.get()) {
        Ok(year) => Ok(year),
        Err(_) => Err(HttpFault::NoRoute),
    }
}

/// What follows the slash that the bytes begin with, if there is one.
fn after_slash(behind: &[u8]) -> &[u8]
    ensures { result.now ≡ drop 1 behind.now }
{
    behind.get(1..).unwrap_or(behind)
}
