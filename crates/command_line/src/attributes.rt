//! The names of the attributes that a route keeps where they are asked for.

use bgp_update::{AttributeSet, KeptAttribute};
use report_request::attribute_name;
use std::alloc::{AllocError, Global};

/// Returns the names, joined by commas.
pub(crate) fn attribute_names(alloc: Global) -> Result<String, AllocError> {
    let mut names = String::new(alloc);
    for attribute in &KeptAttribute::ALL {
        if !names.is_empty() {
            names.push_str(", ")?;
        }
        names.push_str(attribute_name(*attribute))?;
    }
    Ok(names)
}

/// Returns the attribute of a name, if there is one.
fn attribute_of(name: &str) -> Option<KeptAttribute> {
    for attribute in &KeptAttribute::ALL {
        if attribute_name(*attribute) == name {
            return Some(*attribute);
        }
    }
    None
}

/// Adds the attributes of these names, joined by commas, to others; `all` names all of them. Returns the first name
/// that is none of them, if there is one.
pub(crate) fn add_attributes<'a>(
    others: AttributeSet,
    names: &'a str,
) -> Result<AttributeSet, &'a str> {
    let mut asked = others;
    for name in names.split(',') {
        if name == "all" {
            asked = AttributeSet::all();
            continue;
        }
        match attribute_of(name) {
            Some(attribute) => asked = asked.with(attribute),
            None => return Err(name),
        }
    }
    Ok(asked)
}
