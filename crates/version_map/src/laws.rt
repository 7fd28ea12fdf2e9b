ghost use Rattle.version_map.specs.Laws.{SetLaw, LastSetLaw, PartsLaw};

/// A set gives its version to the keys of its range, and to no other.
pub fn set_law()
    ensures { SetLaw }
{}

/// A key has the version of the last set whose range holds it.
pub fn last_set_law()
    ensures { LastSetLaw }
{}

/// The parts of a range tile it and tell the version of each of its keys.
pub fn parts_law()
    ensures { PartsLaw }
{}
