//! Uses of each rule over ontologies that have an axiom of each shape between them: some that follow, and some that do not.

use super::ontologies::{each_shape, groups};
use super::{CONTRADICTION, bad_line, has_verdict, with_lines};
use axioms::Ontology;
use cert_check::{Reason, Verdict};
use std::alloc::Global;
use std::process::Abort;
use std::random::RandomSource;
use std::test::Fail;

// In each table a row is a derivation, its lines apart by `;`. Behind `!` all of it follows and shows a contradiction, behind `+` all
// of it follows, so that only a contradiction is missing, behind `-` all but its last line, and behind `1` not even its first line.

/// Rules on what lies in what, from K1 to K7.
const RULES_OF_CLASSES: &str = "+ sub e0 e0 K1
+ sub e2 e2 K1
+ sub e6 e6 K1
- sub e2 e3 K1
- sub e2 e0 K1
- sub i0 e2 K1
- edge e2 p0 e2 K1
- sub e2 e2 K1 a1
- sub e2 e2 K1 1
- sub e2 e2 K1;sub e2 e2 K1 1
+ sub e2 e0 K2
+ sub i1 e0 K2
- sub e2 e2 K2
- sub e2 e1 K2
- sub i0 e2 K2
- sub e2 e0 K2 a1
- edge e2 p0 e0 K2
- sub e2 e2 K1;sub e2 e0 K2 1
+ sub e1 e1 K1;sub e1 e2 K3 1
+ sub e1 e1 K1;sub e1 e7 K3 1
- sub e1 e1 K1;sub e1 e2 K3
- sub e1 e1 K1;sub e1 e2 K3 1 1
- sub e1 e1 K1;sub e1 e2 K3 a1 1
- sub e1 e1 K1;sub e2 e2 K3 1
- sub e1 e1 K1;edge e1 p0 e2 K3 1
- sub e2 e2 K1;sub e2 e3 K3 1
+ sub e2 e2 K1;sub e2 e3 K4 a1 1
+ sub e3 e3 K1;sub e3 e4 K4 a2 1
+ sub e3 e3 K1;sub e3 e3 K4 a2 1
+ sub e4 e4 K1;sub e4 e3 K4 a2 1
- sub e2 e2 K1;sub e2 e3 K4 a1
- sub e2 e2 K1;sub e2 e3 K4 1
- sub e2 e2 K1;sub e2 e3 K4 a1 1 1
- sub e2 e2 K1;sub e2 e3 K4 a3 1
- sub e2 e2 K1;sub e2 e3 K4 a10 1
- sub e2 e2 K1;sub e2 e4 K4 a1 1
- sub e2 e2 K1;sub e2 e4 K4 a2 1
- sub e2 e2 K1;sub e4 e3 K4 a1 1
- sub e3 e3 K1;sub e3 e2 K4 a1 1
- sub e3 e3 K1;sub e3 e2 K4 a2 1
+ sub e2 e2 K1;sub e2 e3 K4 a1 1;sub e2 e5 K5 1 2
- sub e2 e2 K1;sub e2 e3 K4 a1 1;sub e2 e5 K5
- sub e2 e2 K1;sub e2 e3 K4 a1 1;sub e2 e5 K5 1
- sub e2 e2 K1;sub e2 e3 K4 a1 1;sub e2 e5 K5 2 1
- sub e2 e2 K1;sub e2 e3 K4 a1 1;sub e2 e5 K5 1 2 2
- sub e2 e2 K1;sub e2 e3 K4 a1 1;sub e2 e5 K5 a1 1 2
- sub e2 e2 K1;sub e2 e3 K4 a1 1;sub e2 e4 K5 1 2
- sub e2 e2 K1;sub e2 e3 K4 a1 1;sub e2 e6 K5 1 2
- sub e2 e2 K1;sub e2 e3 K4 a1 1;sub e3 e5 K5 1 2
+ sub e5 e5 K1;sub e5 e2 K6 1
+ sub e5 e5 K1;sub e5 e3 K6 1
- sub e5 e5 K1;sub e5 e2 K6
- sub e5 e5 K1;sub e5 e2 K6 1 1
- sub e5 e5 K1;sub e5 e2 K6 a1 1
- sub e5 e5 K1;sub e5 e4 K6 1
- sub e5 e5 K1;sub e5 e5 K6 1
- sub e5 e5 K1;sub e2 e3 K6 1
- sub e6 e6 K1;sub e6 e2 K6 1
+ sub e2 e2 K1;sub e2 e3 K4 a1 1;sub e2 e1 K7 a3 1 2
+ sub e2 e2 K1;sub e2 e3 K4 a1 1;sub e2 e1 K7 a3 2 1
- sub e2 e2 K1;sub e2 e3 K4 a1 1;sub e2 e1 K7 a3 1
- sub e2 e2 K1;sub e2 e3 K4 a1 1;sub e2 e1 K7 a3 1 1
- sub e2 e2 K1;sub e2 e3 K4 a1 1;sub e2 e1 K7 a3 2 2
- sub e2 e2 K1;sub e2 e3 K4 a1 1;sub e2 e1 K7 a3 1 2 2
- sub e2 e2 K1;sub e2 e3 K4 a1 1;sub e2 e1 K7 1 2
- sub e2 e2 K1;sub e2 e3 K4 a1 1;sub e2 e1 K7 a2 1 2
- sub e2 e2 K1;sub e2 e3 K4 a1 1;sub e2 e4 K7 a3 1 2
- sub e2 e2 K1;sub e2 e3 K4 a1 1;sub e3 e1 K7 a3 1 2
- sub e2 e2 K1;sub e3 e3 K1;sub e2 e1 K7 a3 1 2
- sub e2 e2 K1;sub e3 e3 K1;sub e3 e1 K7 a3 1 2";

/// Rules on what leads to what, from K8 to K14: K13 of a chain of three properties, where a plain subproperty is no chain, and
/// then of a transitive property.
const RULES_OF_EDGES: &str = "+ sub e6 e6 K1;edge e6 p0 e2 K8 1
- sub e6 e6 K1;edge e6 p0 e2 K8
- sub e6 e6 K1;edge e6 p0 e2 K8 1 1
- sub e6 e6 K1;edge e6 p0 e2 K8 a9 1
- sub e6 e6 K1;edge e6 p0 e3 K8 1
- sub e6 e6 K1;edge e6 p1 e2 K8 1
- sub e6 e6 K1;edge e6 p0 i0 K8 1
- sub e6 e6 K1;edge e2 p0 e2 K8 1
- sub e5 e5 K1;edge e5 p0 e2 K8 1
+ edge e2 p0 e2 K14 a9;sub e2 e2 K1;sub e2 e6 K9 1 2
- edge e2 p0 e2 K14 a9;sub e2 e2 K1;sub e2 e6 K9 1
- edge e2 p0 e2 K14 a9;sub e2 e2 K1;sub e2 e6 K9 2 1
- edge e2 p0 e2 K14 a9;sub e2 e2 K1;sub e2 e6 K9 1 2 2
- edge e2 p0 e2 K14 a9;sub e2 e2 K1;sub e2 e6 K9 a9 1 2
- edge e2 p0 e2 K14 a9;sub e2 e2 K1;sub e2 e7 K9 1 2
- edge e2 p0 e2 K14 a9;sub e2 e2 K1;sub e2 e5 K9 1 2
- edge e2 p0 e2 K14 a9;sub e2 e2 K1;sub e3 e6 K9 1 2
- edge e5 p0 e5 K14 a9;sub e2 e2 K1;sub e5 e6 K9 1 2
- edge e3 p0 e3 K14 a9;sub e3 e3 K1;sub e3 e6 K9 1 2
- edge e2 p0 e2 K14 a9;edge e2 p1 e2 K12 a4 1;sub e2 e2 K1;sub e2 e6 K9 2 3
+ sub e6 e6 K1;edge e6 p0 e2 K8 1;edge e2 p0 e2 K14 a9;edge e2 p1 e2 K12 a4 3;sub e6 e4 K10 a7 2
+ sub e6 e6 K1;edge e6 p0 e2 K8 1;edge e2 p0 e2 K14 a9;edge e2 p1 e2 K12 a4 3;sub e2 e4 K10 a7 3
- sub e6 e6 K1;edge e6 p0 e2 K8 1;edge e2 p0 e2 K14 a9;edge e2 p1 e2 K12 a4 3;sub e6 e4 K10 a7
- sub e6 e6 K1;edge e6 p0 e2 K8 1;edge e2 p0 e2 K14 a9;edge e2 p1 e2 K12 a4 3;sub e6 e4 K10 a7 2 2
- sub e6 e6 K1;edge e6 p0 e2 K8 1;edge e2 p0 e2 K14 a9;edge e2 p1 e2 K12 a4 3;sub e6 e4 K10 2
- sub e6 e6 K1;edge e6 p0 e2 K8 1;edge e2 p0 e2 K14 a9;edge e2 p1 e2 K12 a4 3;sub e6 e4 K10 a9 2
- sub e6 e6 K1;edge e6 p0 e2 K8 1;edge e2 p0 e2 K14 a9;edge e2 p1 e2 K12 a4 3;sub e6 e4 K10 a7 1
- sub e6 e6 K1;edge e6 p0 e2 K8 1;edge e2 p0 e2 K14 a9;edge e2 p1 e2 K12 a4 3;sub e6 e3 K10 a7 2
- sub e6 e6 K1;edge e6 p0 e2 K8 1;edge e2 p0 e2 K14 a9;edge e2 p1 e2 K12 a4 3;sub e2 e4 K10 a7 2
- sub e6 e6 K1;edge e6 p0 e2 K8 1;edge e2 p0 e2 K14 a9;edge e2 p1 e2 K12 a4 3;sub e2 e4 K10 a7 4
+ sub e7 e7 K1;edge e7 p0 e1 K8 1;sub e1 e1 K1;sub e6 e6 K1;edge e6 p0 e2 K8 4;sub e2 e2 K1;sub e7 e1 K11 2 3
- sub e7 e7 K1;edge e7 p0 e1 K8 1;sub e1 e1 K1;sub e6 e6 K1;edge e6 p0 e2 K8 4;sub e2 e2 K1;sub e7 e1 K11 2
- sub e7 e7 K1;edge e7 p0 e1 K8 1;sub e1 e1 K1;sub e6 e6 K1;edge e6 p0 e2 K8 4;sub e2 e2 K1;sub e7 e1 K11 3 2
- sub e7 e7 K1;edge e7 p0 e1 K8 1;sub e1 e1 K1;sub e6 e6 K1;edge e6 p0 e2 K8 4;sub e2 e2 K1;sub e7 e1 K11 2 3 3
- sub e7 e7 K1;edge e7 p0 e1 K8 1;sub e1 e1 K1;sub e6 e6 K1;edge e6 p0 e2 K8 4;sub e2 e2 K1;sub e7 e1 K11 a9 2 3
- sub e7 e7 K1;edge e7 p0 e1 K8 1;sub e1 e1 K1;sub e6 e6 K1;edge e6 p0 e2 K8 4;sub e2 e2 K1;sub e7 e4 K11 2 3
- sub e7 e7 K1;edge e7 p0 e1 K8 1;sub e1 e1 K1;sub e6 e6 K1;edge e6 p0 e2 K8 4;sub e2 e2 K1;sub e2 e1 K11 2 3
- sub e7 e7 K1;edge e7 p0 e1 K8 1;sub e1 e1 K1;sub e6 e6 K1;edge e6 p0 e2 K8 4;sub e2 e2 K1;sub e6 e1 K11 5 3
- sub e7 e7 K1;edge e7 p0 e1 K8 1;sub e1 e1 K1;sub e6 e6 K1;edge e6 p0 e2 K8 4;sub e2 e2 K1;sub e6 e1 K11 5 6
+ edge e2 p0 e2 K14 a9;edge e2 p1 e2 K12 a4 1;sub e2 e2 K1;edge e2 p1 e2 K12 a4 1
+ edge e2 p0 e2 K14 a9;edge e2 p1 e2 K12 a4 1;sub e2 e2 K1;edge e2 p2 e2 K12 a6 2
+ edge e2 p0 e2 K14 a9;edge e2 p1 e2 K12 a4 1;sub e2 e2 K1;edge e2 p1 e2 K12 a6 2
- edge e2 p0 e2 K14 a9;edge e2 p1 e2 K12 a4 1;sub e2 e2 K1;edge e2 p1 e2 K12 a4
- edge e2 p0 e2 K14 a9;edge e2 p1 e2 K12 a4 1;sub e2 e2 K1;edge e2 p1 e2 K12 a4 1 1
- edge e2 p0 e2 K14 a9;edge e2 p1 e2 K12 a4 1;sub e2 e2 K1;edge e2 p1 e2 K12 1
- edge e2 p0 e2 K14 a9;edge e2 p1 e2 K12 a4 1;sub e2 e2 K1;edge e2 p1 e2 K12 a4 3
- edge e2 p0 e2 K14 a9;edge e2 p1 e2 K12 a4 1;sub e2 e2 K1;edge e2 p1 e2 K12 a5 1
- edge e2 p0 e2 K14 a9;edge e2 p1 e2 K12 a4 1;sub e2 e2 K1;edge e2 p1 e2 K12 a8 1
- edge e2 p0 e2 K14 a9;edge e2 p1 e2 K12 a4 1;sub e2 e2 K1;edge e2 p0 e2 K12 a4 2
- edge e2 p0 e2 K14 a9;edge e2 p1 e2 K12 a4 1;sub e2 e2 K1;edge e2 p2 e2 K12 a4 1
- edge e2 p0 e2 K14 a9;edge e2 p1 e2 K12 a4 1;sub e2 e2 K1;edge e2 p2 e2 K12 a6 1
- edge e2 p0 e2 K14 a9;edge e2 p1 e2 K12 a4 1;sub e2 e2 K1;edge e2 p0 e2 K12 a6 2
- edge e2 p0 e2 K14 a9;edge e2 p1 e2 K12 a4 1;sub e2 e2 K1;edge e3 p1 e2 K12 a4 1
- edge e2 p0 e2 K14 a9;edge e2 p1 e2 K12 a4 1;sub e2 e2 K1;edge e2 p1 e3 K12 a4 1
+ edge e2 p0 e2 K14 a9;edge e2 p1 e2 K12 a4 1;edge e2 p2 e2 K12 a6 2;edge e3 p0 e3 K14 a9;edge e2 p1 e2 K13 a5 1 2 3
- edge e2 p0 e2 K14 a9;edge e2 p1 e2 K12 a4 1;edge e2 p2 e2 K12 a6 2;edge e3 p0 e3 K14 a9;edge e2 p1 e2 K13 a5 1 2
- edge e2 p0 e2 K14 a9;edge e2 p1 e2 K12 a4 1;edge e2 p2 e2 K12 a6 2;edge e3 p0 e3 K14 a9;edge e2 p1 e2 K13 a5 2 3
- edge e2 p0 e2 K14 a9;edge e2 p1 e2 K12 a4 1;edge e2 p2 e2 K12 a6 2;edge e3 p0 e3 K14 a9;edge e2 p1 e2 K13 a5 2 1 3
- edge e2 p0 e2 K14 a9;edge e2 p1 e2 K12 a4 1;edge e2 p2 e2 K12 a6 2;edge e3 p0 e3 K14 a9;edge e2 p1 e2 K13 a5 1 2 3 3
- edge e2 p0 e2 K14 a9;edge e2 p1 e2 K12 a4 1;edge e2 p2 e2 K12 a6 2;edge e3 p0 e3 K14 a9;edge e2 p1 e2 K13 1 2 3
- edge e2 p0 e2 K14 a9;edge e2 p1 e2 K12 a4 1;edge e2 p2 e2 K12 a6 2;edge e3 p0 e3 K14 a9;edge e2 p1 e2 K13 a6 1 2 3
- edge e2 p0 e2 K14 a9;edge e2 p1 e2 K12 a4 1;edge e2 p2 e2 K12 a6 2;edge e3 p0 e3 K14 a9;edge e2 p2 e2 K13 a5 1 2 3
- edge e2 p0 e2 K14 a9;edge e2 p1 e2 K12 a4 1;edge e2 p2 e2 K12 a6 2;edge e3 p0 e3 K14 a9;edge e3 p1 e2 K13 a5 4 2 3
- edge e2 p0 e2 K14 a9;edge e2 p1 e2 K12 a4 1;edge e2 p2 e2 K12 a6 2;edge e3 p0 e3 K14 a9;edge e3 p1 e2 K13 a5 1 2 3
- edge e2 p0 e2 K14 a9;edge e2 p1 e2 K12 a4 1;edge e2 p2 e2 K12 a6 2;edge e3 p0 e3 K14 a9;edge e2 p1 e3 K13 a5 1 2 3
- edge e2 p0 e2 K14 a9;edge e2 p1 e2 K12 a4 1;edge e2 p2 e2 K12 a6 2;edge e3 p0 e3 K14 a9;edge e2 p1 e2 K13 a4 1
+ sub e6 e6 K1;edge e6 p0 e2 K8 1;edge e2 p0 e2 K14 a9;edge e2 p1 e2 K12 a4 3;edge e6 p0 e2 K13 a8 2 3
+ sub e6 e6 K1;edge e6 p0 e2 K8 1;edge e2 p0 e2 K14 a9;edge e2 p1 e2 K12 a4 3;edge e2 p0 e2 K13 a8 3 3
- sub e6 e6 K1;edge e6 p0 e2 K8 1;edge e2 p0 e2 K14 a9;edge e2 p1 e2 K12 a4 3;edge e6 p0 e2 K13 a8 2
- sub e6 e6 K1;edge e6 p0 e2 K8 1;edge e2 p0 e2 K14 a9;edge e2 p1 e2 K12 a4 3;edge e6 p0 e2 K13 a8 3 2
- sub e6 e6 K1;edge e6 p0 e2 K8 1;edge e2 p0 e2 K14 a9;edge e2 p1 e2 K12 a4 3;edge e6 p0 e2 K13 a8 2 3 3
- sub e6 e6 K1;edge e6 p0 e2 K8 1;edge e2 p0 e2 K14 a9;edge e2 p1 e2 K12 a4 3;edge e6 p0 e2 K13 2 3
- sub e6 e6 K1;edge e6 p0 e2 K8 1;edge e2 p0 e2 K14 a9;edge e2 p1 e2 K12 a4 3;edge e6 p0 e2 K13 a9 2 3
- sub e6 e6 K1;edge e6 p0 e2 K8 1;edge e2 p0 e2 K14 a9;edge e2 p1 e2 K12 a4 3;edge e6 p0 e2 K13 a8 2 4
- sub e6 e6 K1;edge e6 p0 e2 K8 1;edge e2 p0 e2 K14 a9;edge e2 p1 e2 K12 a4 3;edge e6 p1 e2 K13 a8 2 3
- sub e6 e6 K1;edge e6 p0 e2 K8 1;edge e2 p0 e2 K14 a9;edge e2 p1 e2 K12 a4 3;edge e6 p0 e6 K13 a8 2 3
+ edge e2 p0 e2 K14 a9
+ edge i1 p0 i1 K14 a9
- edge e2 p0 e2 K14
- edge e2 p0 e2 K14 a8
- edge e2 p1 e2 K14 a9
- edge e2 p0 e3 K14 a9
- edge i0 p0 i1 K14 a9
- sub e2 e2 K14 a9
- edge e2 p0 e2 K14 a9;edge e2 p0 e2 K14 a9 1";

/// Rules on individuals, K15 and K16.
const RULES_OF_INDIVIDUALS: &str = "+ sub i0 e2 K15 a10
- sub i0 e2 K15
- sub i0 e2 K15 a11
- sub i0 e2 K15 a1
- sub i1 e2 K15 a10
- sub i0 e3 K15 a10
- sub e0 e2 K15 a10
- sub i0 e2 K15 a10;sub i0 e2 K15 a10 1
+ edge i0 p0 i1 K16 a11
- edge i0 p0 i1 K16
- edge i0 p0 i1 K16 a10
- edge i1 p0 i0 K16 a11
- edge i0 p1 i1 K16 a11
- edge i0 p0 i0 K16 a11
- edge e0 p0 i1 K16 a11
- edge i0 p0 e1 K16 a11
- edge i0 p0 i1 K16 a11;edge i0 p0 i1 K16 a11 1";

/// Rules on individuals that are one, on such as differ and on pairs that are denied, from K17 to K20, where the ontology has no
/// axiom of one of these kinds, so that nothing follows by these rules, whatever the axiom and the premises.
const RULES_WITHOUT_GROUPS: &str = "- same i0 i1 K17
- same i0 i0 K17
- same i0 i1 K17 a2
- same i0 i1 K17 a3
- same i0 i1 K17 a6
- same i0 i1 K17 a10
- same i0 i1 K17 a11
- sub i0 e2 K15 a10;same i0 i1 K17 a11 1
- same i0 i1 K18
- same i0 i1 K18 1 1
- sub i0 e2 K15 a10;same i0 i0 K18 1 1
- sub i0 e2 K15 a10;same i0 i1 K18 1 1
- edge i0 p0 i1 K16 a11;same i0 i1 K18 1 1
- edge i0 p0 i1 K16 a11;same i0 i1 K18 a11 1 1
- sub i0 e2 K15 a10;sub i1 e2 K19 1
- sub i0 e2 K15 a10;sub i0 e2 K19 1 1
- sub i0 e2 K15 a10;sub i1 e2 K19 1 1
- sub i0 e2 K15 a10;edge i0 p0 i1 K16 a11;sub i1 e2 K19 2 1
- sub i0 e2 K15 a10;edge i0 p0 i1 K16 a11;sub i1 e2 K19 1 2
- edge i0 p0 i1 K16 a11;edge i0 p0 i1 K19 1 1
- edge i0 p0 i1 K16 a11;edge i1 p0 i1 K19 1 1
- edge i0 p0 i1 K16 a11;edge i0 p0 i0 K19 1 1
- sub i0 e1 K20
- sub i0 e1 K20 a11
- sub i0 e2 K15 a10;sub i0 e1 K20 a3 1
- edge i0 p0 i1 K16 a11;sub i0 e1 K20 1
- edge i0 p0 i1 K16 a11;sub i0 e1 K20 a11 1
- edge i0 p0 i1 K16 a11;sub i1 e1 K20 a11 1
- same i0 i0 K1
- same i0 i0 K2
- sub e1 e1 K1;same i0 i1 K3 1
- sub i0 e2 K15 a10;same i0 i1 K4 a1 1
- same i0 i0 K5
- same i0 i0 K14 a9
- same i0 i1 K15 a10
- same i0 i1 K16 a11
1 same i0 i1 K17 a11;same i0 i1 K17 a11
1 same i0 i1 K17 a11;sub i0 e1 K20 a3 1
1 same i0 i1 K17 a11;same i1 i0 K17 a11;same i0 i0 K18 1 2
1 same i0 i1 K17 a11;same i1 i1 K17 a11;same i0 i1 K18 2 1
1 same i1 i0 K17 a11;sub i0 e2 K15 a10;sub i1 e2 K19 1 2
1 same i1 i0 K17 a11;sub i0 e2 K15 a10;sub i1 e2 K19 2 1
1 same i1 i0 K17 a11;edge i0 p0 i1 K16 a11;edge i1 p0 i1 K19 1 2
1 same i1 i0 K17 a11;edge i0 p0 i1 K16 a11;edge i1 p0 i1 K19 2 1";

/// The same rules where the ontology has axioms of these kinds: K17 and K18.
const RULES_OF_ONE_ELEMENT: &str = "+ same i0 i1 K17 a1
+ same i1 i0 K17 a1
+ same i2 i0 K17 a1
- same i0 i0 K17 a1
- same i0 i3 K17 a1
- same i3 i1 K17 a2
- same i0 i1 K17 a2
- same i0 i2 K17 a4
- same i0 i1 K17
- same i0 i1 K17 a1;same i0 i2 K17 a1 1
- sub i0 e2 K17 a1
- edge i0 p0 i1 K17 a1
+ same i0 i1 K17 a1;same i1 i2 K17 a1;same i0 i2 K18 1 2
+ same i0 i1 K17 a1;same i1 i0 K17 a1;same i0 i0 K18 1 2
- same i0 i1 K17 a1;same i1 i2 K17 a1;same i0 i2 K18 2 1
- same i0 i1 K17 a1;same i1 i2 K17 a1;same i2 i0 K18 1 2
- same i0 i1 K17 a1;same i2 i1 K17 a1;same i0 i1 K18 1 2
- same i0 i1 K17 a1;same i2 i1 K17 a1;same i0 i2 K18 1 2
- same i0 i1 K17 a1;same i1 i2 K17 a1;same i0 i2 K18
- same i0 i1 K17 a1;same i1 i2 K17 a1;same i0 i1 K18 1
- same i0 i1 K17 a1;same i1 i2 K17 a1;same i0 i2 K18 1 2 2
- same i0 i1 K17 a1;same i1 i2 K17 a1;same i0 i2 K18 a1 1 2
- same i2 i0 K17 a1;edge i0 p0 i2 K16 a4;same i2 i2 K18 1 2";

/// .. K19: in a class, at a source, at a target, and at one end alone.
const RULES_OF_MOVES: &str = "+ sub i2 e2 K15 a5;same i0 i2 K17 a1;sub i0 e2 K19 2 1
- sub i2 e2 K15 a5;same i0 i2 K17 a1;sub i0 e2 K19 1 2
- sub i2 e2 K15 a5;same i2 i0 K17 a1;sub i0 e2 K19 2 1
- sub i2 e2 K15 a5;same i0 i2 K17 a1;sub i0 e0 K19 2 1
- sub i2 e2 K15 a5;same i0 i2 K17 a1;sub i1 e2 K19 2 1
- sub i2 e2 K15 a5;same i0 i2 K17 a1;sub i2 e2 K19 2 1
- sub i2 e2 K15 a5;same i0 i2 K17 a1;sub i0 e2 K19 2
- sub i2 e2 K15 a5;same i0 i2 K17 a1;sub i0 e2 K19 2 1 1
- sub i2 e2 K15 a5;same i0 i2 K17 a1;sub i0 e2 K19 a1 2 1
- sub i1 e0 K2;same i0 i2 K17 a1;sub i0 e0 K19 2 1
+ edge i0 p0 i2 K16 a4;same i1 i0 K17 a1;edge i1 p0 i2 K19 2 1
+ edge i0 p0 i2 K16 a4;same i1 i2 K17 a1;edge i0 p0 i1 K19 2 1
- edge i0 p0 i2 K16 a4;same i1 i0 K17 a1;edge i1 p0 i2 K19 1 2
- edge i0 p0 i2 K16 a4;same i0 i1 K17 a1;edge i1 p0 i2 K19 2 1
- edge i0 p0 i2 K16 a4;same i2 i1 K17 a1;edge i0 p0 i1 K19 2 1
- edge i0 p0 i2 K16 a4;same i1 i0 K17 a1;edge i0 p0 i2 K19 2 1
- edge i0 p0 i2 K16 a4;same i1 i0 K17 a1;edge i1 p0 i1 K19 2 1
- edge i0 p0 i2 K16 a4;same i1 i2 K17 a1;edge i1 p0 i1 K19 2 1
- edge i0 p0 i2 K16 a4;same i1 i0 K17 a1;edge i1 p1 i2 K19 2 1
- edge i0 p0 i2 K16 a4;same i1 i2 K17 a1;edge i0 p1 i1 K19 2 1
- edge i0 p0 i2 K16 a4;same i1 i0 K17 a1;edge i1 p0 i2 K19 a1 2 1
- edge i0 p0 i2 K16 a4;same i1 i0 K17 a1;edge i1 p0 i2 K19 1
- edge i0 p0 i2 K16 a4;same i1 i0 K17 a1;sub i1 e0 K19 2 1
+ edge i0 p0 i2 K16 a4;same i2 i0 K17 a1;edge i2 p0 i2 K19 2 1;same i0 i2 K17 a1;edge i2 p0 i0 K19 4 3
- edge i0 p0 i2 K16 a4;same i2 i0 K17 a1;edge i2 p0 i2 K19 2 1;same i0 i2 K17 a1;edge i0 p0 i0 K19 4 3
- same i0 i1 K17 a1;same i1 i2 K17 a1;same i0 i2 K19 1 2";

/// .. K20: of two that differ, and of a pair that is denied.
const RULES_OF_DIFFERENCE: &str = "! same i0 i1 K17 a1;sub i0 e1 K20 a2 1
! same i1 i0 K17 a1;sub i1 e1 K20 a2 1
- same i0 i1 K17 a1;sub i1 e1 K20 a2 1
- same i0 i2 K17 a1;sub i0 e1 K20 a2 1
- same i0 i1 K17 a1;same i1 i0 K17 a1;same i0 i0 K18 1 2;sub i0 e1 K20 a2 3
- same i0 i1 K17 a1;sub i0 e2 K20 a2 1
- same i0 i1 K17 a1;sub i0 e1 K20 a1 1
- same i0 i1 K17 a1;sub i0 e1 K20 a3 1
- same i0 i1 K17 a1;sub i0 e1 K20 1
- same i0 i1 K17 a1;sub i0 e1 K20 a2
- same i0 i1 K17 a1;sub i0 e1 K20 a2 1 1
- same i0 i1 K17 a1;edge i0 p0 i1 K20 a2 1
! edge i0 p0 i2 K16 a4;same i1 i2 K17 a1;edge i0 p0 i1 K19 2 1;sub i0 e1 K20 a3 3
- edge i0 p0 i2 K16 a4;same i1 i2 K17 a1;edge i0 p0 i1 K19 2 1;sub i1 e1 K20 a3 3
- edge i0 p0 i2 K16 a4;same i1 i2 K17 a1;edge i0 p0 i1 K19 2 1;sub i0 e2 K20 a3 3
- edge i0 p0 i2 K16 a4;same i1 i2 K17 a1;edge i0 p0 i1 K19 2 1;sub i0 e1 K20 a2 3
- edge i0 p0 i2 K16 a4;same i1 i2 K17 a1;edge i0 p0 i1 K19 2 1;sub i0 e1 K20 3
- edge i0 p0 i2 K16 a4;same i1 i2 K17 a1;edge i0 p0 i1 K19 2 1;sub i0 e1 K20 a3 1
- edge i0 p0 i2 K16 a4;same i1 i2 K17 a1;edge i0 p0 i1 K19 2 1;edge i0 p1 i1 K12 a6 3;sub i0 e1 K20 a3 4
- edge i0 p0 i2 K16 a4;same i2 i0 K17 a1;edge i2 p0 i2 K19 2 1;same i1 i2 K17 a1;edge i1 p0 i2 K19 4 3;same i0 i2 K17 a1;edge i1 p0 i0 K19 6 5;sub i1 e1 K20 a3 7
- sub i0 e1 K20 a3";

/// The verdict that the sign of a row asks for.
fn expected(sign: &str, lines: &str) -> Verdict {
    if sign == "!" {
        return Verdict::Accepted;
    }
    if sign == "+" {
        return Verdict::Rejected(Reason::NoContradiction);
    }
    if sign == "1" {
        return bad_line(1);
    }
    bad_line(lines.split(';').count())
}

/// Whether the row's derivation has the verdict of its sign.
fn is_judged(alloc: Global, ontology: &Ontology, row: &str) -> bool {
    let Some((sign, lines)) = row.split_once(" ") else {
        return false;
    };
    match with_lines(alloc, "elcert 1 inconsistent\n", lines, "\nend\n") {
        Ok(certificate) => has_verdict(
            alloc,
            ontology,
            CONTRADICTION,
            &certificate,
            expected(sign, lines),
        ),
        Err(_) => false,
    }
}

fn are_judged<R: AllocGlobal + Abort>(rt: &R, ontology: &Ontology, rows: &str) {
    for row in rows.split('\n') {
        assert!(rt; is_judged(rt.alloc(), ontology, row), "{row}");
    }
}

/// Each row of the table has the verdict of its sign.
fn judge<R: AllocGlobal + Abort + RandomSource>(rt: &R, rows: &str) -> Result<(), Fail> {
    let ontology = each_shape(rt)?;
    are_judged(rt, &ontology, rows);
    Ok(())
}

/// .. where individuals are one.
fn judge_groups<R: AllocGlobal + Abort + RandomSource>(rt: &R, rows: &str) -> Result<(), Fail> {
    let ontology = groups(rt)?;
    are_judged(rt, &ontology, rows);
    Ok(())
}

#[test]
fn uses_of_rules_of_classes(rt: HostRuntime) -> Result<(), Fail> {
    judge(&rt, RULES_OF_CLASSES)
}

#[test]
fn uses_of_rules_of_edges(rt: HostRuntime) -> Result<(), Fail> {
    judge(&rt, RULES_OF_EDGES)
}

#[test]
fn uses_of_rules_of_individuals(rt: HostRuntime) -> Result<(), Fail> {
    judge(&rt, RULES_OF_INDIVIDUALS)
}

#[test]
fn uses_of_rules_without_groups(rt: HostRuntime) -> Result<(), Fail> {
    judge(&rt, RULES_WITHOUT_GROUPS)
}

#[test]
fn uses_of_rules_of_one_element(rt: HostRuntime) -> Result<(), Fail> {
    judge_groups(&rt, RULES_OF_ONE_ELEMENT)
}

#[test]
fn uses_of_rules_of_moves(rt: HostRuntime) -> Result<(), Fail> {
    judge_groups(&rt, RULES_OF_MOVES)
}

#[test]
fn uses_of_rules_of_difference(rt: HostRuntime) -> Result<(), Fail> {
    judge_groups(&rt, RULES_OF_DIFFERENCE)
}
