//! Names of links.

ghost use Rattle.std.specs.Prelude.{◌≡◌, ◌==◌, ◌||◌};
ghost use Rattle.std.specs.List.{list_any};
ghost use Rattle.h5_model.specs.Tree.Paths.{is_name};

fn has_separator(name: &[u8]) -> bool
    ensures { result ≡ list_any (λ c. (c == 0) || (c == 47)) name.now }
{
    name.iter().any(|c| *c == 0 || *c == b'/')
}

/// Whether a link may have this name: it has at least one byte, no zero byte and no `/`, and is not `.` alone.
pub fn is_link_name(name: &[u8]) -> bool
    ensures { result ≡ is_name name.now }
{
    if name.is_empty() || name.len() == 1 && name[0] == b'.' {
        return false;
    }
    !has_separator(name)
}
