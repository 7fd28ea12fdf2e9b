ghost use Rattle.tuple_keys.specs.Order.{OrderLaw};

/// The byte order of spellings is the order of the tuples.
pub fn order_law()
    ensures { OrderLaw }
{}
