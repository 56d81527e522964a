//! Values of a type.

ghost use Rattle.std.specs.Prelude.{◌≡◌};
ghost use Rattle.std.specs.List.{list_all};
ghost use Rattle.h5_model.specs.Format.Fixed.{fits as is_of_type};

use h5_layout::fits;
use h5_model::Fixed;

/// Whether each value is one of the type's.
pub(crate) fn are_of_type(fixed: &Fixed, values: &[i128]) -> bool
    ensures { result ≡ list_all (is_of_type fixed.now) values.now }
{
    values.iter().all(|value| fits(fixed, *value))
}
