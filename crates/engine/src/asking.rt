//! Saturations over which an expression is asked about.
ghost use Rattle.axioms.specs.Growth.{Numbers};
ghost use Rattle.engine.specs.Saturations.{IsFinished, IsSound, KeepsFacts};
ghost use Rattle.normalise.specs.Growth.{Grows};
ghost use Rattle.normalise.specs.Roots.{KeepsNames};
ghost use Rattle.std.specs.Prelude.{◌<◌, ℕ, IfOk, length};

use crate::saturation::Saturation;
use axioms::{ExprId, Memory, Ontology};
use facts::Context;
use normalise::roots_from;
use work_list::ByContext;

impl Saturation {
    /// A saturation of an ontology that has grown, with an expression that is asked about: its forms are there, as of one that occurs
    /// right and left, and it is a context. Nothing is run. Each fact stays at its place, and those that a new form or a new list of
    /// disjoint classes asks for are pending again. This one, all of whose facts are served, stays as it is.
    ///
    /// # Errors
    ///
    /// `Memory` where memory was refused, or there would be 2^32 forms or facts or 2^32 - 1 fresh names of a kind.
    pub fn asked(&self, old: &Ontology, new: &Ontology, expr: ExprId) -> Result<Saturation, Memory>
        requires sound { IsSound old.now self.now }
        requires grows { Grows old.now new.now (length old.now.axioms) }
        requires names { KeepsNames old.now new.now }
        requires there { expr.0 < length new.now.nodes }
        requires finished { IsFinished self.now }
        ensures sound { IfOk result (IsSound new.now) }
        ensures asked { IfOk result (λ s. (n : ℕ) × Numbers self.now.normal.asked expr.0 s.normal.asked n) }
        ensures kept { IfOk result (KeepsFacts self.now) }
    {
        old.well_formed();
        self.state.well_formed();
        let normal = self
            .normal
            .grown_with(new, old.axioms().len(), expr)?
            .share();
        let (classes, individuals) = (old.classes().len(), old.individuals().len());
        let mut roots = roots_from(self.alloc, new, classes, individuals)?;
        roots.push(Context::Expr(expr))?;
        let from = self.normal.forms().len();
        let list = ByContext::new(self.alloc);
        let state = self
            .state
            .grown(list, normal.forms(), from, normal.apart(), &roots)?;
        Ok(Saturation {
            alloc: self.alloc,
            normal,
            state,
        })
    }
}
