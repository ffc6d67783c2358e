//! The keys of classes and properties.
ghost use Rattle.std.specs.Prelude.{◌≡◌};
ghost use Rattle.indexes.specs.Keys.{class_key, property_key};

use crate::keys::Key;
use normal_forms::{Class2, PropId2};

pub(crate) fn key_of_class(class: Class2) -> Key
    ensures { result ≡ class_key class }
{
    match class {
        Class2::Expr(id) => Key::Whole(id.0),
        Class2::Partial(number) => Key::Partial(number),
    }
}

pub(crate) fn key_of_property(property: PropId2) -> Key
    ensures { result ≡ property_key property }
{
    match property {
        PropId2::Property(id) => Key::Whole(id.0),
        PropId2::Partial(number) => Key::Partial(number),
    }
}
