//! Paths: the names between slashes.

ghost use Rattle.std.specs.Prelude.{◌≡◌, ◌==◌, ◌∷◌, length, option_map, position};
ghost use Rattle.std.specs.List.{list_all, slice_split};
ghost use Rattle.h5_model.specs.Tree.Paths.{is_name, names_of};
ghost use Rattle.h5_query.specs.Names.{parts, parts_left};

use h5_model::is_link_name;

/// The most names of a path.
pub const MAX_DEPTH: usize = 64;

fn are_names(text: &[u8]) -> bool
    ensures { result ≡ list_all is_name (slice_split (λ c. c == 47) text.now) }
{
    text.split(|c| *c == b'/').all(|name| is_link_name(name))
}

fn count_parts(text: &[u8]) -> usize
    ensures { result ≡ length (slice_split (λ c. c == 47) text.now) }
{
    text.split(|c| *c == b'/').count()
}

/// Where the first slash is.
fn slash_at(text: &[u8]) -> Option<usize>
    ensures { result ≡ position (λ c. c == 47) text.now }
{
    text.iter().position(|c| *c == b'/')
}

/// The text up to the first slash, and the text behind that, where there is one.
pub(crate) fn cut(text: &[u8]) -> (&[u8], Option<&[u8]>)
    ensures { parts text.now ≡ result.0.now ∷ parts_left result.1 }
{
    match slash_at(text) {
        Some(end) => (&text[..end], Some(&text[end + 1..])),
        None => (text, None),
    }
}

/// How many names the path has, or `None` where it is no path. `/` has none.
#[tactic(auto, unfolding(h5_model::specs::Tree::Paths::names_of))]
pub(crate) fn count_names(path: &[u8]) -> Option<usize>
    ensures { result ≡ option_map length (names_of path.now) }
{
    if path.is_empty() || path[0] != b'/' {
        return None;
    }
    if path.len() == 1 {
        return Some(0);
    }
    let names = &path[1..];
    if are_names(names) {
        Some(count_parts(names))
    } else {
        None
    }
}
