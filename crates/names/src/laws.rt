ghost use Rattle.std.specs.Prelude.{◌≡◌, Some};
ghost use Rattle.std.specs.Cmp.{IsTotalOrder};
ghost use Rattle.names.specs.Order.{same_name, name_order};

use crate::name::Name;

/// Names are equal, and ordered, by their bytes, so that they are keys of a map.
pub fn laws()
    ensures equal { ⟦<Name as PartialEq>⟧.eq ≡ same_name }
    ensures ordered { ⟦<Name as Ord>⟧.cmp ≡ name_order }
    ensures partial { (a b : Name) → ⟦<Name as PartialOrd>⟧.partial_cmp a b ≡ Some (name_order a b) }
    ensures total { IsTotalOrder name_order }
{}
