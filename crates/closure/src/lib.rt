//! The closure of the normal forms.
#![tactic(auto)]

ghost use Rattle.closure.specs.Denotations.{NumbersSayTheClosure, NumbersSayGroups};
ghost use Rattle.closure.specs.Theorems.{ClosureIsClosed, ClosureIsLeast, GroupsHaveLeast, GroupsAreDecided, LinksSuffice, OrderOfDisjointClassesDoesNotMatter};

/// What the closure is: the least set of facts that has what its facts give.
pub fn closure_is_least()
    ensures closed { ClosureIsClosed }
    ensures least { ClosureIsLeast }
{}

/// Where the forms and roots over numbers are those of the ontology, the facts over numbers say exactly the facts of the closure.
pub fn numbers_say_the_closure()
    ensures { NumbersSayTheClosure }
{}

/// Where the forms over numbers are those of the ontology, they make the same individuals one.
pub fn numbers_say_groups()
    ensures { NumbersSayGroups }
{}

/// Individuals that are one form a group, which has a least; two are one exactly where they have the same least.
pub fn groups_have_a_least()
    ensures least { GroupsHaveLeast }
    ensures decided { GroupsAreDecided }
{}

/// What each individual hands on to those that one form makes one with it, it hands on to its whole group.
pub fn links_suffice()
    ensures { LinksSuffice }
{}

/// Of disjoint classes each two are taken once, in the order of the axiom; the other order would add no fact.
pub fn order_of_disjoint_classes_does_not_matter()
    ensures { OrderOfDisjointClassesDoesNotMatter }
{}
