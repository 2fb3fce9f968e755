//! The image of a text's code.

ghost use Rattle.std.specs.Prelude.{◌≡◌, ◌<◌, ◌^◌, All, IfOk, map};
ghost use Rattle.fk_compile.specs.Faithful.{in_table};

use fk_layout::Site;
use std::alloc::{AllocError, Global};

/// The table of these sites, in the form that an image has. Fails if there isn't enough memory.
pub(crate) fn site_table(alloc: Global, sites: &[Site]) -> Result<Vec<(u32, u32, u32)>, AllocError>
    ensures { IfOk result (λ table. table.items ≡ map in_table sites.now) }
{
    let mut table = Vec::new(alloc);
    for site in sites {
        table.push((u32::from(site.kind), site.place.line, site.place.column))?;
    }
    Ok(table)
}

/// Words have 32 bits.
pub(crate) fn are_words(words: &[u32])
    ensures { All (λ w. w < 2 ^ 32) words.now }
{
    let _ = words.len();
}
