//! Texts that begin with a given one.
ghost use Rattle.std.specs.Prelude.{◌≡◌, nat_eq};
ghost use Rattle.std.specs.List.{starts_with};
ghost use Rattle.vcard_export.specs.Forms.{without_prefix};

pub(crate) fn begins_with(text: &str, prefix: &str) -> bool
    ensures { result ≡ starts_with nat_eq text.now prefix.now }
{
    text.as_bytes().starts_with(prefix.as_bytes())
}

/// The text without the prefix, if it begins with it.
pub(crate) fn without_prefix<'a>(text: &'a str, prefix: &str) -> &'a str
    ensures { result.now ≡ without_prefix prefix.now text.now }
{
    text.strip_prefix(prefix).unwrap_or(text)
}
