//! Why a region is refused, as text.
ghost use Rattle.std.specs.Prelude.{◌≡◌, IfOk, string_bytes};
ghost use Rattle.nv_top.specs.Endings.{region_line};
ghost use Rattle.nv_top.specs.RegionTexts.{field_text, region_text};

use nv_header::HeadField;
use nv_open::Refusal;
use std::alloc::{AllocError, Global};

/// The line that says why a region is refused.
pub(crate) fn region_line_of(alloc: Global, refusal: &Refusal) -> Result<String, AllocError>
    ensures { IfOk result (λ line. string_bytes line ≡ region_line refusal.now) }
{
    let text = region_text(alloc, refusal)?;
    format!(in alloc; "error region {text}\n")
}

fn region_text(alloc: Global, refusal: &Refusal) -> Result<String, AllocError>
    ensures { IfOk result (λ text. string_bytes text ≡ region_text refusal.now) }
{
    match refusal {
        Refusal::Truncated { found, wanted } => format!(in alloc; "truncated {found} {wanted}"),
        Refusal::BadMagic => String::from_str(alloc, "bad magic"),
        Refusal::BadVersion { found } => format!(in alloc; "bad version {found}"),
        Refusal::BadGeometry { field, found } => {
            let field = field_text(*field);
            format!(in alloc; "bad geometry {field} {found}")
        }
        Refusal::BadName { index } => format!(in alloc; "bad name {index}"),
        Refusal::BadEntry { number } => format!(in alloc; "bad entry {number}"),
        Refusal::TooManyFiles => String::from_str(alloc, "too many files"),
    }
}

fn field_text(field: HeadField) -> &'static str
    ensures { result.now ≡ field_text field }
{
    match field {
        HeadField::Page => "page",
        HeadField::Entries => "entries",
        HeadField::Files => "files",
        HeadField::Tail => "tail",
    }
}
