//! The first properties, classes and contexts, by their numbers.

use axioms::{ExprId, IndId, PropId};
use facts::Context;
use normal_forms::{Class2, PropId2};

pub(crate) const R: PropId = PropId(0);

pub(crate) const S: PropId = PropId(1);

pub(crate) const T: PropId = PropId(2);

pub(crate) const U: PropId = PropId(3);

pub(crate) const EDGES_R: PropId2 = PropId2::Property(R);

pub(crate) const EDGES_S: PropId2 = PropId2::Property(S);

pub(crate) const EDGES_T: PropId2 = PropId2::Property(T);

pub(crate) const EDGES_U: PropId2 = PropId2::Property(U);

/// The first prefix of a chain.
pub(crate) const EDGES_P: PropId2 = PropId2::Partial(0);

pub(crate) const C0: Class2 = Class2::Expr(ExprId(0));

pub(crate) const C1: Class2 = Class2::Expr(ExprId(1));

pub(crate) const C2: Class2 = Class2::Expr(ExprId(2));

pub(crate) const C3: Class2 = Class2::Expr(ExprId(3));

pub(crate) const C4: Class2 = Class2::Expr(ExprId(4));

pub(crate) const C5: Class2 = Class2::Expr(ExprId(5));

pub(crate) const C6: Class2 = Class2::Expr(ExprId(6));

pub(crate) const C7: Class2 = Class2::Expr(ExprId(7));

pub(crate) const C8: Class2 = Class2::Expr(ExprId(8));

/// The first prefix of an intersection.
pub(crate) const P: Class2 = Class2::Partial(0);

pub(crate) const IN0: Context = Context::Expr(ExprId(0));

pub(crate) const IN1: Context = Context::Expr(ExprId(1));

pub(crate) const IN2: Context = Context::Expr(ExprId(2));

pub(crate) const IN3: Context = Context::Expr(ExprId(3));

pub(crate) const IN4: Context = Context::Expr(ExprId(4));

pub(crate) const IN5: Context = Context::Expr(ExprId(5));

pub(crate) const IN6: Context = Context::Expr(ExprId(6));

pub(crate) const IN7: Context = Context::Expr(ExprId(7));

pub(crate) const IND0: Context = Context::Individual(IndId(0));

pub(crate) const IND1: Context = Context::Individual(IndId(1));

pub(crate) const IND2: Context = Context::Individual(IndId(2));

pub(crate) const IND3: Context = Context::Individual(IndId(3));

pub(crate) const IND4: Context = Context::Individual(IndId(4));
