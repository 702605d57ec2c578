//! Finds an attribute name that stands twice in a tag.

ghost use Rattle.std.specs.Prelude.{◌≡◌, [], IfOk};
ghost use Rattle.fcxml_profile.specs.Items.{attributes_at};
ghost use Rattle.fcxml_profile.specs.Standing.{repeated_behind};

use crate::items::attribute_behind_blanks;
use std::alloc::{AllocError, Global};
use std::collections::BTreeSet;

/// The place of the first of the attributes in front whose name stood before.
pub(crate) fn repeated(alloc: Global, size: usize, text: &str) -> Result<Option<u64>, AllocError>
    ensures { IfOk result (λ found. found ≡ repeated_behind [] (attributes_at size text.now).0) }
{
    let mut seen = BTreeSet::new(alloc);
    let mut rest = text;
    while let Some((attribute, after)) = attribute_behind_blanks(size, rest) {
        if !seen.insert(attribute.name.as_str())? {
            return Ok(Some(attribute.place));
        }
        rest = after;
    }
    Ok(None)
}
