//! Which classes lists of disjoint classes put apart from one.
ghost use Rattle.std.specs.Prelude.{◌≡◌, IfSome, false, true};
ghost use Rattle.normal_forms.specs.declared.forms.Class2.{Class2 as Class3};
ghost use Rattle.indexes.specs.Apart.{HasClass, IsApart};

use crate::disjoint::{Beside, Disjointness};
use crate::keys::Key;
use crate::named::key_of_class;
use normal_forms::Class2;

/// The classes that stand beside a class in lists of disjoint classes.
#[derive(Clone, Copy)]
pub struct Apart<'a> {
    pub(crate) lists: &'a Disjointness,
    /// The key of the class.
    pub(crate) key: Key,
}

impl<'a> Apart<'a> {
    /// Whether there are none.
    pub fn is_empty(&self) -> bool
        ensures { result ≡ true → (class : Class3) → IsApart self.now class → ⊥ }
    {
        !self.lists.has(self.key)
    }

    /// Whether that class is one.
    pub fn has(&self, class: Class2) -> bool
        ensures yes { result ≡ true → IsApart self.now class }
        ensures no { result ≡ false → IsApart self.now class → ⊥ }
    {
        let other = key_of_class(class);
        self.lists.list_of(self.key, other).is_some()
            || self.lists.list_of(other, self.key).is_some()
    }

    /// All of them, if the class is in one list, and if they are at most so many.
    pub fn few(&self, most: usize) -> Option<Beside<'a>>
        ensures all { IfSome result (λ beside. (class : Class3) → IsApart self.now class → HasClass beside class) }
        ensures only { IfSome result (λ beside. (class : Class3) → HasClass beside class → IsApart self.now class) }
    {
        self.lists.beside(self.key, most)
    }
}
