//! What gave a form, as it is kept.
ghost use Rattle.normal_forms.specs.StoredForms.{HasLargeNumber, origin_of};
ghost use Rattle.std.specs.Prelude.{◌≡◌, IfSome, IsNone};

use crate::forms::Origin;
use axioms::ExprId;

/// What gave a form, in 8 bytes: a number, and whether it is that of an expression.
#[derive(Clone, Copy)]
pub struct StoredOrigin {
    is_expression: bool,
    number: u32,
}

impl StoredOrigin {
    /// The origin, to be kept, or none for an axiom whose number is 2^32 or more.
    pub fn new(origin: Origin) -> Option<StoredOrigin>
        ensures some { IfSome result (λ o. origin_of o ≡ origin) }
        ensures none { IsNone result → HasLargeNumber origin }
    {
        let (is_expression, number) = match origin {
            Origin::Axiom(number) => (false, u32::try_from(number).ok()?),
            Origin::Expr(ExprId(number)) => (true, number),
        };
        Some(StoredOrigin {
            is_expression,
            number,
        })
    }

    /// The origin.
    pub fn get(&self) -> Origin
        ensures { result ≡ origin_of self.now }
    {
        if self.is_expression {
            Origin::Expr(ExprId(self.number))
        } else {
            Origin::Axiom(self.number as usize)
        }
    }
}
