//! The names of attributes and of their roots.

ghost use Rattle.std.specs.Prelude.{◌≡◌, IfOk};
ghost use Rattle.std.specs.String.{string_bytes};
ghost use Rattle.cel_value.specs.Texts.{points_of};
ghost use Rattle.cel_types.specs.Attributes.{attribute_named};
ghost use Rattle.cel_types.specs.Names.{is_root, joined_name};

use attributes::{AttrId, attr_named};
use std::alloc::{AllocError, Global};

/// The attribute of a name with a dot.
pub fn attribute_named(name: &str) -> Option<AttrId>
    ensures { result ≡ attribute_named (points_of name.now) }
{
    attr_named(name)
}

/// Whether attributes' names begin with this root.
pub fn is_root(name: &str) -> bool
    ensures { result ≡ is_root (points_of name.now) }
{
    matches!(name, "request" | "source" | "destination" | "connection")
}

/// A root's name and a field's, joined by a dot.
pub fn joined_name(alloc: Global, root: &str, field: &str) -> Result<String, AllocError>
    ensures { IfOk result (λ name. points_of (string_bytes name) ≡ joined_name (points_of root.now) (points_of field.now)) }
{
    let length = root.len().saturating_add(field.len()).saturating_add(1);
    let mut name = String::with_capacity(alloc, length)?;
    name.push_str(root)?;
    name.push_str(".")?;
    name.push_str(field)?;
    Ok(name)
}
