//! Lists in ascending order.
ghost use Rattle.std.specs.List.{AllPairs};
ghost use Rattle.std.specs.Prelude.{◌↔◌, ◌≡◌, Contains, true};
ghost use Rattle.std.specs.declared.cmp.Ordering.TheVariants.{Less};

/// Sorts the list, and leaves of equal items one. Takes no memory.
pub fn sort_ascending<T: Ord + Copy>(list: &mut Vec<T>)
    requires { (x y : T) → T.eq x y ≡ true → x ≡ y }
    ensures ascending { AllPairs (λ x y. T.cmp x y ≡ Less) list.new.items }
    ensures same { (x : T) → Contains list.new.items x ↔ Contains list.old.items x }
{
    list.sort_unstable();
    list.dedup();
}
