//! What the default sheet is read as.

ghost use Rattle.std.specs.Prelude.{IfOk};
ghost use Rattle.cascade.specs.Sheets.{IsReadSheet};
ghost use Rattle.sheets.specs.DefaultText as spec;

use crate::default_text::default_text;
use bk_num::name::NoMem;
use cascade::sheet::{Origin, ReadSheet, read_rules};
use css_rules::sheet::read_sheet;
use std::alloc::Global;

/// Reads the default sheet. It is far below the limit of rules, so that only want of memory is in its way.
pub fn default_sheet(alloc: Global) -> Result<ReadSheet, NoMem>
    ensures { IfOk result (λ sheet. IsReadSheet Origin.Default spec.default_text sheet) }
{
    match read_sheet(alloc, default_text()) {
        Ok(sheet) => read_rules(alloc, &sheet, Origin::Default),
        Err(_) => Err(NoMem),
    }
}
