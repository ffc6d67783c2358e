//! The properties of a closure by number.
ghost use Rattle.property_closure.specs.PropertyClosures.{Has};
ghost use Rattle.saturate.specs.Requests.{IsNumbered};
ghost use Rattle.std.specs.Prelude.{◌≡◌, ◌+◌, ◌<◌};

use axioms::PropId;
use normal_forms::PropId2;
use property_closure::PropertyClosure;

/// How many properties and prefixes of chains the closure has.
pub(crate) fn count_properties(closure: &PropertyClosure) -> usize
    ensures { result ≡ closure.now.properties + closure.now.partials }
{
    closure.properties() + closure.partials()
}

/// The property of that number, where the prefixes of chains come behind the properties.
pub(crate) fn property_numbered(closure: &PropertyClosure, number: usize) -> PropId2
    requires { number < closure.now.properties + closure.now.partials }
    ensures has { Has closure.now result }
    ensures numbered { IsNumbered closure.now number result }
{
    let properties = closure.properties();
    closure.partials();
    if number < properties {
        PropId2::Property(PropId(number as u32))
    } else {
        PropId2::Partial((number - properties) as u32)
    }
}
