// Nodes whose firings are all alike, as fission asks for them.

ghost use Rattle.strc_sched_laws.specs.PartsLaws.{StatelessFiltersFireAlike, IdentitiesFireAlike};

/// A filter without state that takes items, starts and keeps its rates: each firing at a whole
/// window leaves the fields that it starts with, writes nothing, and pushes as many items as its
/// work's rate says.
pub fn stateless_filters_fire_alike()
    ensures { StatelessFiltersFireAlike }
{}

/// Each firing of an identity gives the item that it takes, and nothing else.
pub fn identities_fire_alike()
    ensures { IdentitiesFireAlike }
{}
