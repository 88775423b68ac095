//! What words ask of what stands at a path, which may be left out for a list.
ghost use Rattle.std.specs.Prelude.{◌≡◌, Ok, IfOk, IfErr};
ghost use Rattle.image_jobs.specs.InquiryWords.{path_history_spelled, is_view_word, list_spelled, place_by, place_spelled, IsMisspelled};

use crate::failure::Failure;
use crate::path_word::path_of_word;
use crate::view_word::view_of_word;
use fs_types::{Path, View};
use inquiries::Inquiry;
use std::alloc::Global;

/// The inquiry for what is listed: the path may be left out, which is that of the root then.
pub(crate) fn list_inquiry(
    alloc: Global,
    path: Option<&str>,
    view: Option<&str>,
) -> Result<Inquiry, Failure>
    ensures ok { IfOk result (λ inquiry. list_spelled path.entry view.entry ≡ Ok inquiry) }
    ensures err { IfErr result (IsMisspelled (list_spelled path.entry view.entry)) }
{
    match place_of_words(alloc, path, view) {
        Ok((view, path)) => Ok(Inquiry::List { view, path }),
        Err(failure) => Err(failure),
    }
}

/// The view and the path that words spell: the path may be left out, which is that of the root then; a word
/// alone that begins with `@` or `=` is the view.
pub fn place_of_words(
    alloc: Global,
    path: Option<&str>,
    view: Option<&str>,
) -> Result<(View, Path), Failure>
    ensures ok { IfOk result (λ place. place_spelled path.entry view.entry ≡ Ok place) }
    ensures err { IfErr result (IsMisspelled (place_spelled path.entry view.entry)) }
{
    match (path, view) {
        (Some(word), Some(view)) => place_by(alloc, word, Some(view)),
        (Some(word), None) if is_view_word(word) => place_by(alloc, "/", Some(word)),
        (Some(word), None) => place_by(alloc, word, None),
        (None, view) => place_by(alloc, "/", view),
    }
}

/// The inquiry for the history of a path.
pub(crate) fn history_inquiry(alloc: Global, path: &str) -> Result<Inquiry, Failure>
    ensures ok { IfOk result (λ inquiry. path_history_spelled path.now ≡ Ok inquiry) }
    ensures err { IfErr result (IsMisspelled (path_history_spelled path.now)) }
{
    match path_of_word(alloc, path) {
        Ok(path) => Ok(Inquiry::History { path }),
        Err(failure) => Err(failure),
    }
}

/// Whether a word spells a view and no path.
fn is_view_word(word: &str) -> bool
    ensures { result ≡ is_view_word word.now }
{
    matches!(word.as_bytes(), [b'@' | b'=', ..])
}

/// The view and the path that these words spell.
fn place_by(alloc: Global, path: &str, view: Option<&str>) -> Result<(View, Path), Failure>
    ensures ok { IfOk result (λ place. place_by (path.now, view.entry) ≡ Ok place) }
    ensures err { IfErr result (IsMisspelled (place_by (path.now, view.entry))) }
{
    let path = path_of_word(alloc, path)?;
    match view_of_word(alloc, view) {
        Ok(view) => Ok((view, path)),
        Err(failure) => Err(failure),
    }
}
