//! What stands in lists.
ghost use Rattle.std.specs.Prelude.{◌≡◌, ℕ};

use axioms::{ExprId, PropId};

/// What stands in lists and is told apart by its number.
pub trait Member: Copy + Drop {
    ghost number: { Self → ℕ };

    fn number(self) -> u32
        ensures { result ≡ number self };
}

impl Member for ExprId {
    ghost number = { λ e. e.0 };

    fn number(self) -> u32 {
        let ExprId(number) = self;
        number
    }
}

impl Member for PropId {
    ghost number = { λ p. p.0 };

    fn number(self) -> u32 {
        let PropId(number) = self;
        number
    }
}
