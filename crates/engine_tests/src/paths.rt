//! Paths worked out by hand.
ghost use Rattle.normal_forms.specs.Properties.{IsPropertyFormOf};
ghost use Rattle.std.specs.List.{All};
ghost use Rattle.std.specs.Prelude.{◌^◌, IfOk};

use axioms::{Memory, PropId};
use explain::PropertyPaths;
use indexes::IndexedProblem;
use normal_forms::{ApartLists, Class2, Form, FormList};
use std::alloc::Global;
use std::test::Fail;

const R: PropId = PropId(0);

const S: PropId = PropId(1);

const T: PropId = PropId(2);

const U: PropId = PropId(3);

const THING: Class2 = Class2::Partial(0);

/// `EquivalentObjectProperties(r s) SubObjectPropertyOf(s t)`, behind a form of a class; u stands apart.
const FORMS: &[Form] = &[
    Form::N1(THING, THING),
    Form::N5(R, S),
    Form::N5(S, R),
    Form::N5(S, T),
];

/// The forms, of four properties.
fn forms(alloc: Global) -> Result<FormList, Memory>
    ensures { IfOk result (λ forms. All (IsPropertyFormOf 4 (2 ^ 32)) forms) }
{
    Ok(FormList::of(alloc, FORMS)?)
}

/// The same, found by their properties.
fn problem(alloc: Global) -> Result<IndexedProblem, Memory>
    ensures { IfOk result (λ problem. All (IsPropertyFormOf 4 (2 ^ 32)) problem.forms) }
{
    let forms = forms(alloc)?;
    let apart = ApartLists::new(alloc);
    let problem = IndexedProblem::new(alloc, forms, apart, Vec::new(alloc))?;
    Ok(problem)
}

/// Two properties, and the forms that lead from the first to the second.
const PATHS: &[(PropId, PropId, &[u32])] = &[
    (R, R, &[]),
    (R, S, &[1]),
    (S, R, &[2]),
    (R, T, &[1, 3]),
    (U, U, &[]),
    (PropId(7), PropId(7), &[]),
];

fn has_all_paths(paths: &mut PropertyPaths<'_>) -> Result<bool, Memory> {
    for row in PATHS {
        let (from, to, numbers) = *row;
        let Some(path) = paths.path(from, to)? else {
            return Ok(false);
        };
        if path.as_slice() != numbers {
            return Ok(false);
        }
    }
    Ok(true)
}

#[test]
fn paths_through_a_cycle(rt: HostRuntime) -> Result<(), Fail> {
    let problem = problem(rt.alloc())?;
    let mut paths = PropertyPaths::new(rt.alloc(), 4, &problem)?;
    assert!(rt; has_all_paths(&mut paths)?);
    // and those that are kept
    assert!(rt; has_all_paths(&mut paths)?);
    Ok(())
}

const APART: &[(PropId, PropId)] = &[
    (T, R),
    (T, S),
    (U, R),
    (R, U),
    (R, PropId(7)),
    (PropId(7), R),
];

#[test]
fn no_path(rt: HostRuntime) -> Result<(), Fail> {
    let problem = problem(rt.alloc())?;
    let mut paths = PropertyPaths::new(rt.alloc(), 4, &problem)?;
    for row in APART {
        let (from, to) = *row;
        assert!(rt; paths.path(from, to)?.is_none());
    }
    Ok(())
}
