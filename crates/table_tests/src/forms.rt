//! The order of properties, and the parts of classes and properties.

use axioms::{ExprId, PropId};
use normal_forms::{Class2, PropId2};
use std::test::Fail;

const ASCENDING: &[PropId2] = &[
    PropId2::Property(PropId(0)),
    PropId2::Property(PropId(7)),
    PropId2::Partial(0),
    PropId2::Partial(3),
];

#[test]
fn properties_come_before_prefixes(rt: HostRuntime) -> Result<(), Fail> {
    for (i, first) in ASCENDING.iter().enumerate() {
        for (j, second) in ASCENDING.iter().enumerate() {
            assert!(rt; first.comes_before(*second) == (i < j), "{i} {j}");
        }
    }
    Ok(())
}

const CLASS: Class2 = Class2::Expr(ExprId(2));

#[test]
fn parts_of_classes_and_properties(rt: HostRuntime) -> Result<(), Fail> {
    assert!(rt; CLASS.parts() == (false, 2));
    assert!(rt; Class2::Partial(3).parts() == (true, 3));
    assert!(rt; Class2::from_parts(false, 2) == CLASS);
    assert!(rt; Class2::from_parts(true, 3) == Class2::Partial(3));
    for property in ASCENDING {
        let (is_partial, number) = property.parts();
        assert!(rt; PropId2::from_parts(is_partial, number) == *property);
    }
    Ok(())
}
