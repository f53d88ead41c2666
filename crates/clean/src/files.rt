ghost use Rattle.std.specs.BTreeMap.{IsOrdered};
ghost use Rattle.std.proofs.Props.{props};
ghost use Rattle.names.specs.Order.{name_order};

use names::Name;
use script::Page;
use std::collections::BTreeMap;

mod methods;

/// The laid files, in memory.
#[derive(Drop)]
pub struct Files {
    map: BTreeMap<Name, Page>,
    ghost lawful: { IsOrdered name_order map } by { Prim.hlevel props },
}
