//! A whole conversation, worked out by hand.

use crate::talking::is_talk;
use speech::Ending;
use std::hash::RandomState;
use std::test::Fail;

/// What is asked.
const ASKED: &str = "supers x:A
run
status
supers x:A
subs x:A
instances x:A
supers x:Q
supers
why x:B x:A reached
why x:B x:A all
add 35
SubClassOf(:B :C)
SubClassOf(:C :D)
subs x:D
run
subs x:D
query 2
:B
add 13
SubClassOf(:A
query 29
ObjectSomeValuesFrom(:loc :Q)
write a b c
infer a
write a b
infer
axiom 2
axiom 4
axiom 0
axiom 02
";

/// What is replied.
const REPLIED: &str = "no 2 19
not run to its end
ok 19
facts 8
consistent
ok 26
facts 8 served 8 bytes 42
ok 50
<http://www.w3.org/2002/07/owl#Thing>
<x:A>
<x:B>
ok 46
<http://www.w3.org/2002/07/owl#Nothing>
<x:A>
ok 0
no 2 19
unknown name <x:Q>
no 2 16
unknown command
ok 45
no
domain 1
class <x:B> 0
element 0
others 0
no 2 16
unknown command
ok 0
no 2 19
not run to its end
ok 20
facts 17
consistent
ok 64
<http://www.w3.org/2002/07/owl#Nothing>
<x:A>
<x:B>
<x:C>
<x:D>
ok 144
super <http://www.w3.org/2002/07/owl#Thing>
super <x:B>
super <x:C>
super <x:D>
sub <http://www.w3.org/2002/07/owl#Nothing>
sub <x:A>
sub <x:B>
no 3 14
P2 at byte 13
no 3 28
F8 at byte 21
F8 at byte 26
no 2 26
no files are written here
no 2 26
no files are written here
no 2 16
unknown command
no 2 16
unknown command
ok 24
SubClassOf(<x:B> <x:C>)
no 2 11
no axiom 4
no 2 11
no axiom 0
no 2 16
unknown command
";

/// What is asked about classes that are next to one another: of a document in which A and B are the same and lie below C and D, these
/// below E, and F has no element; and of one in which F has one.
const ASKED_NEXT: &str = "add 116
SubClassOf(:B :A) SubClassOf(:B :C) SubClassOf(:B :D) SubClassOf(:C :E) SubClassOf(:D :E) SubClassOf(:F owl:Nothing)
run
equivalents x:A
parents x:A
parents x:C
children x:C
children x:E
children x:B
parents x:F
equivalents x:F
children http://www.w3.org/2002/07/owl#Thing
parents http://www.w3.org/2002/07/owl#Thing
parents x:Q
add 21
ClassAssertion(:F :a)
children x:C
run
equivalents x:C
parents x:A
children x:C
";

/// What is replied.
const REPLIED_NEXT: &str = "ok 0
ok 20
facts 26
consistent
ok 12
<x:A>
<x:B>
ok 12
<x:C>
<x:D>
ok 6
<x:E>
ok 14
<x:A> = <x:B>
ok 12
<x:C>
<x:D>
ok 48
<http://www.w3.org/2002/07/owl#Nothing> = <x:F>
ok 14
<x:A> = <x:B>
ok 46
<http://www.w3.org/2002/07/owl#Nothing>
<x:F>
ok 6
<x:E>
ok 0
no 2 19
unknown name <x:Q>
ok 0
no 2 19
not run to its end
ok 22
facts 29
inconsistent
ok 114
<http://www.w3.org/2002/07/owl#Nothing>
<http://www.w3.org/2002/07/owl#Thing>
<x:A>
<x:B>
<x:C>
<x:D>
<x:E>
<x:F>
ok 0
ok 0
";

/// What is asked of individuals, as graphs.
const ASKED_GRAPHS: &str = "add 55
ClassAssertion(:A :a) ObjectPropertyAssertion(:r :b :c)
dot-individual x:a x:B
run
dot-individual x:a x:B
dot-individual x:b x:B
dot-individual x:b x:B reached
dot-individual x:A x:B
dot-individual x:a
dot-individual x:a x:B all
";

/// What is replied.
const REPLIED_GRAPHS: &str = "ok 0
no 2 19
not run to its end
ok 20
facts 14
consistent
ok 179
digraph derivation {
  node [shape=box];
  1 [label=\"1. sub individual <x:a> <x:A> by K15 axiom 2\"];
  2 [label=\"2. sub individual <x:a> <x:B> by K4 axiom 1 from 1\"];
  1 -> 2;
}
ok 207
digraph refutation {
  node [shape=ellipse];
  0 [label=\"0\\n<x:A>\\n<x:B>\\nindividual <x:a>\"];
  1 [label=\"1\\nindividual <x:b>\", peripheries=2];
  2 [label=\"2\\nindividual <x:c>\"];
  1 -> 2 [label=\"<x:r>\"];
}
ok 178
digraph refutation {
  node [shape=ellipse];
  label=\"others 1\";
  1 [label=\"1\\nindividual <x:b>\", peripheries=2];
  2 [label=\"2\\nindividual <x:c>\"];
  1 -> 2 [label=\"<x:r>\"];
}
no 2 19
unknown name <x:A>
no 2 16
unknown command
no 2 16
unknown command
";

/// What is asked of individuals and of classes with conditions: of a document in which E is what is in C and in D, and F has no element.
const ASKED_TYPES: &str = "add 116
SubClassOf(:B :C) EquivalentClasses(:E ObjectIntersectionOf(:C :D)) ClassAssertion(:A :a) SubClassOf(:F owl:Nothing)
types x:a
run
unsatisfiable
types x:a
direct-types x:a
types x:A
direct-types x:b
lacks x:A x:E
lacks-individual x:a x:E
lacks x:A x:C
lacks x:A x:D
lacks-individual x:A x:E
types
lacks x:A
unsatisfiable x:A
";

/// What is replied.
const REPLIED_TYPES: &str = "ok 0
no 2 19
not run to its end
ok 20
facts 26
consistent
ok 6
<x:F>
ok 56
<http://www.w3.org/2002/07/owl#Thing>
<x:A>
<x:B>
<x:C>
ok 6
<x:A>
no 2 19
unknown name <x:A>
no 2 19
unknown name <x:b>
ok 30
axiom 3
has <x:C>
lacks <x:D>
ok 30
axiom 3
has <x:C>
lacks <x:D>
ok 4
yes
ok 13
no condition
no 2 19
unknown name <x:A>
no 2 16
unknown command
no 2 16
unknown command
no 2 16
unknown command
";

/// What is asked with words behind it, in their order and out of it.
const ASKED_OPTIONS: &str = "run
why x:A x:B axioms
why x:A x:B short
why x:A x:B axioms short
why x:B x:A reached axioms
why x:B x:A reached axioms short
why x:B x:A reached short
dot x:B x:A short
supers x:A short
parents x:A short
unsatisfiable short
lacks x:A x:B short
axiom 1 short
supers short
why x:A short
why x:A x:B short axioms
why x:A x:B axioms reached
why x:A x:B reached axioms short short
lacks x:A x:B axioms
supers x:A reached
axiom 1 axioms
run short
";

/// What is replied.
const REPLIED_OPTIONS: &str = "ok 19
facts 8
consistent
ok 101
yes
1. sub <x:A> <x:A> by K1
2. sub <x:A> <x:B> by K4 axiom 1 from 1
axiom 1 SubClassOf(<x:A> <x:B>)
ok 57
yes
1. sub :A :A by K1
2. sub :A :B by K4 axiom 1 from 1
ok 83
yes
1. sub :A :A by K1
2. sub :A :B by K4 axiom 1 from 1
axiom 1 SubClassOf(:A :B)
ok 45
no
domain 1
class <x:B> 0
element 0
others 0
ok 42
no
domain 1
class :B 0
element 0
others 0
ok 42
no
domain 1
class :B 0
element 0
others 0
ok 83
digraph refutation {
  node [shape=ellipse];
  0 [label=\"0\\n:B\", peripheries=2];
}
ok 16
owl:Thing
:A
:B
ok 3
:B
ok 0
ok 4
yes
ok 18
SubClassOf(:A :B)
no 2 21
unknown name <short>
no 2 21
unknown name <short>
no 2 16
unknown command
no 2 16
unknown command
no 2 16
unknown command
no 2 16
unknown command
no 2 16
unknown command
no 2 16
unknown command
no 2 16
unknown command
";

#[test]
fn commands_are_answered(rt: HostRuntime) -> Result<(), Fail> {
    let state = RandomState::new(&rt)?;
    assert!(rt; is_talk(rt.alloc(), state, ASKED.as_bytes(), REPLIED, Ending::End));
    Ok(())
}

#[test]
fn next_classes_are_told(rt: HostRuntime) -> Result<(), Fail> {
    let state = RandomState::new(&rt)?;
    assert!(rt;
        is_talk(
            rt.alloc(),
            state,
            ASKED_NEXT.as_bytes(),
            REPLIED_NEXT,
            Ending::End
        )
    );
    Ok(())
}

#[test]
fn graphs_of_individuals_are_told(rt: HostRuntime) -> Result<(), Fail> {
    let state = RandomState::new(&rt)?;
    assert!(rt;
        is_talk(
            rt.alloc(),
            state,
            ASKED_GRAPHS.as_bytes(),
            REPLIED_GRAPHS,
            Ending::End
        )
    );
    Ok(())
}

#[test]
fn types_and_conditions_are_told(rt: HostRuntime) -> Result<(), Fail> {
    let state = RandomState::new(&rt)?;
    assert!(rt;
        is_talk(
            rt.alloc(),
            state,
            ASKED_TYPES.as_bytes(),
            REPLIED_TYPES,
            Ending::End
        )
    );
    Ok(())
}

#[test]
fn options_are_heeded(rt: HostRuntime) -> Result<(), Fail> {
    let state = RandomState::new(&rt)?;
    assert!(rt;
        is_talk(
            rt.alloc(),
            state,
            ASKED_OPTIONS.as_bytes(),
            REPLIED_OPTIONS,
            Ending::End
        )
    );
    Ok(())
}
