//! Reads a query (URL Standard, section 5: application/x-www-form-urlencoded).
ghost use Rattle.std.specs.Prelude.{◌≡◌, ◌++◌, IfOk, bytes_eq, codes, map, nat_eq, nat_le};
ghost use Rattle.std.specs.Prelude.{option_map};
ghost use Rattle.std.specs.List.{list_all, list_any};
ghost use Rattle.form_urlencoded.specs.Form.{pair_text, raw_pairs};
ghost use Rattle.http_routes.specs.Actions as actions;
ghost use Rattle.http_routes.specs.internal.Results.{MatchesExpected};
ghost use Rattle.http_routes.specs.Queries as queries;

use crate::action::Action;
use crate::fault::RouteFault;
use crate::no_command::NoCommand;
use base_types::{NoMemory, Text};
use csv_cards::Form;
use form_urlencoded::{decode, raw_pairs};
use std::alloc::{AllocError, Global};

/// The decoded text. Octets that aren't UTF-8 become replacement characters.
fn decode_text(alloc: Global, octets: &[u8]) -> Result<Text, NoMemory>
    ensures { IfOk result (λ text. text ≡ queries.decode_text octets.now) }
{
    Ok(Text::new(decode(alloc, octets)?.into_owned(alloc)?))
}

/// The names with their values, still encoded.
fn raw_pairs_of(alloc: Global, query: &[u8]) -> Result<Vec<(&[u8], &[u8])>, AllocError>
    ensures { IfOk result (λ raw. map pair_text raw.items ≡ raw_pairs query.now) }
{
    raw_pairs(query).collect(alloc)
}

/// The names with their values, decoded, in the order of the query. The only `Err` is out of memory.
pub fn pairs_of(alloc: Global, query: &[u8]) -> Result<Vec<(Text, Text)>, NoMemory>
    ensures { IfOk result (λ pairs. pairs.items ≡ queries.pairs_of query.now) }
{
    let raw = raw_pairs_of(alloc, query)?;
    let mut pairs = Vec::with_capacity(alloc, raw.len())?;
    for pair in &raw {
        let name = decode_text(alloc, pair.0)?;
        let value = decode_text(alloc, pair.1)?;
        pairs.push((name, value))?;
    }
    Ok(pairs)
}

/// Whether the name is in the list.
fn is_one_of(name: &str, names: &[&str]) -> bool
    ensures { result ≡ list_any (λ own. bytes_eq name.now own.now) names.now }
{
    names.iter().any(|own| name == *own)
}

/// Whether the name of each pair is in the list.
fn all_known(names: &[&str], pairs: &[(Text, Text)]) -> bool
    ensures { result ≡
        list_all (λ pair. list_any (λ own. bytes_eq pair.0 own.now) names.now) pairs.now }
{
    pairs.iter().all(|pair| is_one_of(pair.0.as_str(), names))
}

/// The number of pairs with the name.
fn count_pairs_named(name: &str, pairs: &[(Text, Text)]) -> usize
    ensures { result ≡ queries.count_pairs_named name.now pairs.now }
{
    pairs.iter().filter(|pair| pair.0.as_str() == name).count()
}

/// Whether no name occurs twice.
fn none_repeated(names: &[&str], pairs: &[(Text, Text)]) -> bool
    ensures { result ≡
        list_all (λ own. nat_le (queries.count_pairs_named own.now pairs.now) 1) names.now }
{
    names.iter().all(|own| count_pairs_named(own, pairs) <= 1)
}

/// Whether each name occurs exactly once.
fn each_once(names: &[&str], pairs: &[(Text, Text)]) -> bool
    ensures { result ≡
        list_all (λ own. nat_eq (queries.count_pairs_named own.now pairs.now) 1) names.now }
{
    names.iter().all(|own| count_pairs_named(own, pairs) == 1)
}

/// The required names of the query.
fn required_names(action: Action) -> &'static [&'static str]
    ensures { map (λ name. name.now) result.now ≡ actions.required_names action }
{
    match action {
        Action::Import => &["key"],
        Action::Forget => &["upto"],
        Action::MoveCard => &["to"],
        Action::CreateBook
        | Action::Books
        | Action::Get
        | Action::Put
        | Action::Remove
        | Action::Report
        | Action::TallyOf
        | Action::Export
        | Action::People => &[],
    }
}

/// The required and the optional names of the query.
fn names_of(action: Action) -> &'static [&'static str]
    ensures { map (λ name. name.now) result.now
        ≡ actions.required_names action ++ actions.optional_names action }
{
    match action {
        Action::Import => &["key"],
        Action::Forget => &["upto"],
        Action::MoveCard => &["to", "version"],
        Action::Report => &["token", "limit"],
        Action::Export => &["form"],
        Action::Put | Action::Remove => &["version"],
        Action::CreateBook | Action::Books | Action::Get | Action::TallyOf | Action::People => &[],
    }
}

/// Whether the pairs have no names but these, and none of them twice.
pub fn has_only_names(names: &[&str], pairs: &[(Text, Text)]) -> bool
    ensures { result ≡ queries.has_only_names (map (λ name. name.now) names.now) pairs.now }
{
    all_known(names, pairs) && none_repeated(names, pairs)
}

/// Whether no name is unknown, repeated or missing.
pub(crate) fn has_valid_names(action: Action, pairs: &[(Text, Text)]) -> bool
    ensures { result ≡ queries.has_valid_names action pairs.now }
{
    let names = names_of(action);
    let required = required_names(action);
    if !all_known(names, pairs) {
        return false;
    }
    if !none_repeated(names, pairs) {
        return false;
    }
    each_once(required, pairs)
}

/// The value of the first pair with the name; `None` if there is none.
pub fn query_value<'a>(name: &str, pairs: &'a [(Text, Text)]) -> Option<&'a str>
    ensures { option_map (λ value. value.now) result ≡ queries.query_value name.now pairs.now }
{
    let mut rest = pairs;
    while let Some((pair, others)) = rest.split_first() {
        if pair.0.as_str() == name {
            return Some(pair.1.as_str());
        }
        rest = others;
    }
    None
}

/// The value of the first pair with the name, or the empty text if there is none.
pub(crate) fn value_or_empty<'a>(name: &str, pairs: &'a [(Text, Text)]) -> &'a str
    ensures { result.now ≡ queries.value_or_empty name.now pairs.now }
{
    match query_value(name, pairs) {
        Some(value) => value,
        None => "",
    }
}

/// Parses 1 to 15 decimal digits; leading zeros are allowed. `BadQuery` for any other text.
pub(crate) fn parse_number(text: &str) -> Result<u64, NoCommand>
    ensures { MatchesExpected (queries.parse_number text.now) result }
{
    if text.is_empty() || text.len() > 15 {
        return Err(NoCommand::Fault(RouteFault::BadQuery));
    }
    if !text.as_bytes().iter().all(|octet| octet.is_ascii_digit()) {
        return Err(NoCommand::Fault(RouteFault::BadQuery));
    }
    match text.parse::<u64>() {
        Ok(number) => Ok(number),
        Err(_) => Err(NoCommand::Fault(RouteFault::BadQuery)),
    }
}

/// The value of the name as a number, or `None` if the name is absent. `BadQuery` if the value
/// isn't a number of 1 to 15 digits.
pub fn number_of(name: &str, pairs: &[(Text, Text)]) -> Result<Option<u64>, NoCommand>
    ensures { MatchesExpected
        (queries.optional_number (queries.query_value name.now pairs.now)) result }
{
    match query_value(name, pairs) {
        Some(value) => Ok(Some(parse_number(value)?)),
        None => Ok(None),
    }
}

/// The value of `form`, which is `cards` or `columns`; `cards` if it is absent. `BadQuery` for
/// another value.
pub(crate) fn export_form_of(pairs: &[(Text, Text)]) -> Result<Form, NoCommand>
    ensures { MatchesExpected
        (queries.export_form (queries.query_value (codes "form") pairs.now)) result }
{
    match query_value("form", pairs) {
        Some(value) if value == "cards" => Ok(Form::Cards),
        Some(value) if value == "columns" => Ok(Form::Columns),
        Some(_) => Err(NoCommand::Fault(RouteFault::BadQuery)),
        None => Ok(Form::Cards),
    }
}
