//! Names of columns as the tables have them.

use base_types::{Items, NoMemory, Text};
use std::alloc::Global;

/// The name in lower case, with `ss` for `ß`, which has no capital letter.
pub(crate) fn folded(alloc: Global, name: &str) -> Result<String, NoMemory> {
    let lower = name.to_lowercase(alloc)?;
    let mut text = String::new(alloc);
    for c in lower.as_str().chars() {
        if c == 'ß' {
            text.push_str("ss")?;
        } else {
            text.push(c)?;
        }
    }
    Ok(text)
}

/// Each name in lower case, in their order.
pub(crate) fn folded_names(alloc: Global, names: &[Text]) -> Result<Items<Text>, NoMemory> {
    let mut all = Items::new(alloc);
    for name in names {
        all.push(Text::new(folded(alloc, name.as_str())?))?;
    }
    Ok(all)
}
