//! Normal forms of an ontology that grows at its end, and of further expressions.
ghost use Rattle.std.specs.Prelude.{◌≡◌, ℕ, [], ◌↔◌, ◌<◌, ◌≤◌, IfOk, IsTrue, OnErr, OnOk, length, Contains};
ghost use Rattle.axioms.specs.Growth.{Numbers};
ghost use Rattle.axioms.specs.View.{expr_numbers};
ghost use Rattle.normalise.specs.Additions.{joined};
ghost use Rattle.normalise.specs.Growth.{AreNormalAgain, AreNoted, Grown, IsNormalFor, MakesMore};
ghost use Rattle.normalise.specs.Named.{AreNamedBelowMarks};

use crate::made::Made;
use crate::marks::{Marked, Side};
use crate::new_marks::{Change, numbers_of};
use crate::normal::Normal;
use crate::occurring::occurring_again;
use axioms::{ExprId, Memory, Ontology};
use number_sets::Row;
use std::alloc::Global;
use std::hash::RandomState;

fn is_among(asked: &[ExprId], expr: ExprId) -> bool
    ensures { IsTrue result ↔ Contains (expr_numbers asked.now) expr.0 }
{
    for other in asked {
        if *other == expr {
            return true;
        }
    }
    false
}

// The same expressions.
fn copied(alloc: Global, asked: &[ExprId]) -> Result<Vec<ExprId>, Memory>
    ensures { IfOk result (λ v. v.items ≡ asked.now) }
{
    let mut all = Vec::new(alloc);
    all.extend_from_slice(asked)?;
    Ok(all)
}

// The same expressions, and this one behind them, where it is not among them.
fn with_asked(alloc: Global, asked: &[ExprId], expr: ExprId) -> Result<Vec<ExprId>, Memory>
    ensures { IfOk result (λ v. (n : ℕ) × Numbers (expr_numbers asked.now) expr.0 (expr_numbers v.items) n) }
{
    let mut all = copied(alloc, asked)?;
    if is_among(asked, expr) {
        return Ok(all);
    }
    all.push(expr)?;
    Ok(all)
}

/// What is added to forms: further ones, all fresh names, and what takes the place of all else.
#[derive(Drop)]
pub(crate) struct More {
    pub(crate) made: Made,
    pub(crate) asked: Vec<ExprId>,
    pub(crate) right: Row,
    pub(crate) left: Row,
}

impl Normal {
    // The forms of the axioms after `from`, and of what is marked and was not before.
    fn made_again(
        &self,
        ontology: &Ontology,
        from: usize,
        right: &Marked,
        left: &Marked,
    ) -> Result<Made, Memory>
        requires within { from ≤ length ontology.now.axioms }
        requires right { AreNoted self.now.right right.now }
        requires left { AreNoted self.now.left left.now }
        ensures { IfOk result (MakesMore ontology.now from self.now right.now.marks left.now.marks) }
    {
        ontology.well_formed();
        let numbers = numbers_of(self.alloc, &right.noted, &left.noted)?;
        let mut made = self.made.begun(self.alloc)?;
        made.state_all(ontology.axioms(), from)?;
        let right = Change {
            marks: &right.marks,
            before: &self.right,
        };
        let left = Change {
            marks: &left.marks,
            before: &self.left,
        };
        made.express_all(ontology, &numbers, right, left)?;
        Ok(made)
    }

    // What is added where the ontology has grown after axiom `from`, and all of these are asked about.
    fn more(&self, ontology: &Ontology, from: usize, asked: Vec<ExprId>) -> Result<More, Memory>
        requires { from ≤ length ontology.now.axioms }
        ensures asked { IfOk result (λ m. m.asked.items ≡ asked.items) }
        ensures kept { IfOk result (λ m. Grown self.now (joined self.now m)) }
        ensures forms { IfOk result (λ m. ((e : ℕ) → Contains self.now.asked e → Contains (expr_numbers asked.items) e) →
            AreNormalAgain ontology.now from self.now (joined self.now m)) }
        ensures named { IfOk result (λ m. AreNamedBelowMarks (joined self.now m)) }
    {
        ontology.well_formed();
        let right = occurring_again(self.alloc, ontology, from, &self.right, &asked, Side::Right)?;
        let left = occurring_again(self.alloc, ontology, from, &self.left, &asked, Side::Left)?;
        let made = self.made_again(ontology, from, &right, &left)?;
        Ok(More {
            made,
            asked,
            right: right.marks,
            left: left.marks,
        })
    }

    // These forms, and what is added to them.
    fn joined(&self, more: More) -> Result<Normal, Memory>
        requires { AreNamedBelowMarks (joined self.now more) }
        ensures { IfOk result (λ n. n ≡ joined self.now more) }
    {
        let More {
            made,
            asked,
            right,
            left,
        } = more;
        let made = self.made.joined(self.alloc, made)?;
        Ok(Normal {
            alloc: self.alloc,
            made,
            asked,
            right,
            left,
        })
    }

    /// These forms and those of the axioms after `from`, and of what occurs in them and did not before, as a new value. The ontology is
    /// that of these forms, grown at the end after axiom `from`. Forms and fresh names keep their numbers.
    ///
    /// # Errors
    ///
    /// `Memory` where memory was refused, or there are 2^32 - 1 fresh names of a kind.
    pub fn grown(&self, ontology: &Ontology, from: usize) -> Result<Normal, Memory>
        requires { from ≤ length ontology.now.axioms }
        ensures forms { IfOk result (AreNormalAgain ontology.now from self.now) }
        ensures asked { IfOk result (λ n. n.asked ≡ self.now.asked) }
        ensures kept { IfOk result (Grown self.now) }
    {
        let asked = copied(self.alloc, &self.asked)?;
        let more = self.more(ontology, from, asked)?;
        self.joined(more)
    }

    /// These forms, those of the axioms after `from` and of what occurs in them and did not before, and those of an expression that is
    /// asked about, as one that occurs right and left, as a new value. The ontology is that of these forms, grown at the end after axiom
    /// `from`. Forms and fresh names keep their numbers.
    ///
    /// # Errors
    ///
    /// `Memory` where memory was refused, or there are 2^32 - 1 fresh names of a kind.
    pub fn grown_with(
        &self,
        ontology: &Ontology,
        from: usize,
        expr: ExprId,
    ) -> Result<Normal, Memory>
        requires { from ≤ length ontology.now.axioms }
        ensures forms { IfOk result (AreNormalAgain ontology.now from self.now) }
        ensures asked { IfOk result (λ n. (m : ℕ) × Numbers self.now.asked expr.0 n.asked m) }
        ensures kept { IfOk result (Grown self.now) }
    {
        let asked = with_asked(self.alloc, &self.asked, expr)?;
        let more = self.more(ontology, from, asked)?;
        self.joined(more)
    }

    /// Adds the forms of the axioms after `from`, and of what occurs in them and did not before. The ontology is that of these forms,
    /// grown at the end after axiom `from`. Forms and fresh names keep their numbers.
    ///
    /// # Errors
    ///
    /// `Memory` where memory was refused, or there are 2^32 - 1 fresh names of a kind. Then nothing changes.
    pub fn extend(&mut self, ontology: &Ontology, from: usize) -> Result<(), Memory>
        requires { from ≤ length ontology.now.axioms }
        ensures ok { OnOk result (AreNormalAgain ontology.now from self.old self.new) }
        ensures asked { self.new.asked ≡ self.old.asked }
        ensures kept { Grown self.old self.new }
        ensures err { OnErr result (self.new ≡ self.old) }
    {
        *self = self.grown(ontology, from)?;
        Ok(())
    }

    /// Adds the forms of an expression that is asked about, as one that occurs right and left. The ontology is that of these forms, which
    /// may have further expressions. Forms and fresh names keep their numbers.
    ///
    /// # Errors
    ///
    /// `Memory` where memory was refused, or there are 2^32 - 1 fresh names of a kind. Then nothing changes.
    pub fn ask(&mut self, ontology: &Ontology, expr: ExprId) -> Result<(), Memory>
        ensures ok { OnOk result (AreNormalAgain ontology.now (length ontology.now.axioms) self.old self.new) }
        ensures asked { OnOk result ((n : ℕ) × Numbers self.old.asked expr.0 self.new.asked n) }
        ensures kept { Grown self.old self.new }
        ensures err { OnErr result (self.new ≡ self.old) }
    {
        *self = self.grown_with(ontology, ontology.axioms().len(), expr)?;
        Ok(())
    }
}

/// The normal forms of the ontology.
///
/// # Errors
///
/// `Memory` where memory was refused, or there are 2^32 - 1 fresh names of a kind.
pub fn normalise(alloc: Global, state: RandomState, ontology: &Ontology) -> Result<Normal, Memory>
    ensures forms { IfOk result (λ n. IsNormalFor ontology.now n) }
    ensures asked { IfOk result (λ n. n.asked ≡ []) }
{
    let mut normal = Normal::empty(alloc, state)?;
    normal.extend(ontology, 0)?;
    Ok(normal)
}
