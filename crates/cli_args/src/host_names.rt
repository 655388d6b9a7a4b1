//! The names by which a server may be reached.
ghost use Rattle.std.specs.Prelude.{◌≡◌, find, map, not, option_copied};
ghost use Rattle.std.specs.List.{list_all};
ghost use Rattle.clap.specs.Words.{found_of, rows_of};
ghost use Rattle.cli_args.specs.HostNames.{first_wrong, is_bracket, is_host_name, is_host_octet};
ghost use Rattle.cli_args.specs.ParsedOrders as parsed;

use clap::ArgMatches;

fn is_bracket(octet: u8) -> bool
    ensures { result ≡ is_bracket octet }
{
    octet == b'[' || octet == b']'
}

fn is_host_octet(octet: u8) -> bool
    ensures { result ≡ is_host_octet octet }
{
    octet.is_ascii_alphanumeric()
        || octet == b'-'
        || octet == b'.'
        || octet == b'_'
        || octet == b':'
        || is_bracket(octet)
        || octet >= 128
}

fn are_host_octets(octets: &[u8]) -> bool
    ensures { result ≡ list_all is_host_octet octets.now }
{
    octets.iter().all(|octet| is_host_octet(*octet))
}

/// Whether the text may be the name of a host or an address, perhaps with a port.
fn is_host_name(text: &str) -> bool
    ensures { result ≡ is_host_name text.now }
{
    text.len() > 0 && are_host_octets(text.as_bytes())
}

fn are_host_names(texts: &[&str]) -> bool
    ensures { result ≡ list_all (λ text. is_host_name text.now) texts.now }
{
    texts.iter().all(|text| is_host_name(*text))
}

/// Whether each text of an option is the name of a host.
pub(crate) fn has_host_names(matches: &ArgMatches<'_>, id: &str) -> bool
    ensures { result ≡ list_all is_host_name
        (parsed.texts_arg id.now (rows_of (found_of matches.now))) }
{
    match matches.get_strs(id) {
        Some(texts) => are_host_names(texts),
        None => true,
    }
}

fn find_wrong<'t, 'a>(texts: &'t [&'a str]) -> Option<&'t &'a str>
    ensures { option_copied result ≡ find (λ text. not (is_host_name text.now)) texts.now }
{
    texts.iter().find(|text| !is_host_name(**text))
}

/// The first of the texts that isn't the name of a host. Empty if each is one.
fn first_wrong<'a>(texts: &[&'a str]) -> &'a str
    ensures { result.now ≡ first_wrong (map (λ text. text.now) texts.now) }
{
    match find_wrong(texts) {
        Some(text) => *text,
        None => "",
    }
}

/// The first text of an option that isn't the name of a host. Empty if each is one.
pub(crate) fn wrong_host_name<'a>(matches: &'a ArgMatches<'_>, id: &str) -> &'a str
    ensures { result.now ≡ first_wrong
        (parsed.texts_arg id.now (rows_of (found_of matches.now))) }
{
    match matches.get_strs(id) {
        Some(texts) => first_wrong(texts),
        None => "",
    }
}
