//! What a request asks for.
ghost use Rattle.std.specs.Prelude.{option_map};
ghost use Rattle.convert_posts.specs.ConvertRequests.{asked_in, asked_of, dates_of, flag_of};
ghost use Rattle.convert_posts.specs.ConvertRequests.{place_in, place_of};
ghost use Rattle.http_routes.specs.Queries.{pairs_of as pairs_in};
ghost use Rattle.http_routes.specs.internal.Results.{MatchesExpected};

use crate::row_list::Origin;
use base_types::Text;
use contact_columns::DateOrder;
use http_routes::{NoCommand, RouteFault, has_only_names, number_of, pairs_of, query_value};
use std::alloc::Global;

/// What a request asks for.
#[derive(Drop)]
pub(crate) struct Asked {
    /// Whether the file goes on after the body.
    pub(crate) more: bool,
    /// The number of the first card or row of the body, from 1.
    pub(crate) card: u64,
    /// The number of its first line, from 1.
    pub(crate) line: u64,
    /// What the columns become; empty if nothing is said.
    pub(crate) columns: Text,
    /// The order of day and month in dates, if it is said.
    pub(crate) dates: Option<DateOrder>,
}

impl Asked {
    /// Where the body is in its file.
    pub(crate) fn origin(&self) -> Origin {
        Origin {
            card: self.card,
            line: self.line,
            feeds: 0,
        }
    }
}

/// The names that a query may have.
const NAMES: [&str; 5] = ["card", "columns", "dates", "line", "more"];

/// The value of a flag: `1`, or nothing.
fn flag_of(value: Option<&str>) -> Result<bool, NoCommand>
    ensures { MatchesExpected (flag_of (option_map (λ text. text.now) value.entry)) result }
{
    match value {
        None => Ok(false),
        Some(text) if text == "1" => Ok(true),
        Some(_) => Err(NoCommand::Fault(RouteFault::BadQuery)),
    }
}

/// A number from 1 on; 1 if it isn't said.
fn place_of(number: Option<u64>) -> Result<u64, NoCommand>
    ensures { MatchesExpected (place_of number) result }
{
    match number {
        None => Ok(1),
        Some(0) => Err(NoCommand::Fault(RouteFault::BadQuery)),
        Some(number) => Ok(number),
    }
}

/// The order of day and month: `day` or `month`, or nothing.
fn dates_of(value: Option<&str>) -> Result<Option<DateOrder>, NoCommand>
    ensures { MatchesExpected (dates_of (option_map (λ text. text.now) value.entry)) result }
{
    match value {
        None => Ok(None),
        Some(text) if text == "day" => Ok(Some(DateOrder::DayFirst)),
        Some(text) if text == "month" => Ok(Some(DateOrder::MonthFirst)),
        Some(_) => Err(NoCommand::Fault(RouteFault::BadQuery)),
    }
}

/// The number of the name, from 1 on; 1 if it isn't there.
fn place_in(name: &str, pairs: &[(Text, Text)]) -> Result<u64, NoCommand>
    ensures { MatchesExpected (place_in name.now pairs.now) result }
{
    let number = number_of(name, pairs)?;
    place_of(number)
}

/// What the names and values of a query ask for. `BadQuery` for a wrong value; or out of memory.
fn asked_of(alloc: Global, pairs: &[(Text, Text)]) -> Result<Asked, NoCommand>
    ensures { MatchesExpected (asked_of pairs.now) result }
{
    let more = flag_of(query_value("more", pairs))?;
    let dates = dates_of(query_value("dates", pairs))?;
    let card = place_in("card", pairs)?;
    let line = place_in("line", pairs)?;
    let columns = Text::copy_of(alloc, query_value("columns", pairs).unwrap_or(""))?;
    Ok(Asked {
        more,
        card,
        line,
        columns,
        dates,
    })
}

/// What the query of a request asks for. `BadQuery` for another name, a name twice, and a wrong
/// value; or out of memory.
pub(crate) fn read_asked(alloc: Global, query: &str) -> Result<Asked, NoCommand>
    ensures { MatchesExpected (asked_in (pairs_in query.now)) result }
{
    let pairs = pairs_of(alloc, query.as_bytes())?;
    if !has_only_names(&NAMES, &pairs) {
        return Err(NoCommand::Fault(RouteFault::BadQuery));
    }
    asked_of(alloc, &pairs)
}
