ghost use Rattle.std.specs.Prelude.{◌≡◌};
ghost use Rattle.container_view.specs.Property.{property_of};

use fb_bytes::MOST_NUMBER;
use file_names::number_at;

/// The number that a property file holds: in decimal and nothing else, at most 2^62. It takes no
/// memory.
#[tactic(auto, unfolding(crate::specs::Property::property_of))]
pub fn read_property(bytes: &[u8]) -> Option<u64>
    ensures { result ≡ property_of bytes.now }
{
    let (number, rest) = number_at(bytes)?;
    if rest.is_empty() && number <= MOST_NUMBER {
        Some(number)
    } else {
        None
    }
}
