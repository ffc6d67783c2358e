//! Axioms on individuals, over the elements that are listed for them.
ghost use Rattle.axioms.specs.View.{ind_numbers};
ghost use Rattle.listed_model.specs.Listing.{HaveOneElement, HaveTwoElements, element_of};
ghost use Rattle.std.specs.Prelude.{◌<◌, ◌≡◌, ◌↔◌, All, AllPairs, IsTrue, length};

use axioms::IndId;
use number_sets::EpochSet;

/// The element of the individual, which is in the list.
pub(crate) fn element_at(elements: &[u32], individual: IndId) -> u32
    requires { individual.0 < length elements.now }
    ensures { result ≡ element_of elements.now individual.0 }
{
    elements[individual.index()]
}

/// Whether the individuals have one element.
pub(crate) fn have_one_element(elements: &[u32], individuals: &[IndId]) -> bool
    requires { All (λ a. a < length elements.now) (ind_numbers individuals.now) }
    ensures { IsTrue result ↔ AllPairs (HaveOneElement elements.now) (ind_numbers individuals.now) }
{
    let Some(first) = individuals.first() else {
        return true;
    };
    let element = element_at(elements, *first);
    for individual in individuals {
        if element_at(elements, *individual) != element {
            return false;
        }
    }
    true
}

/// Whether each of the individuals has an element that none of the others has. The set is room to work in.
pub(crate) fn have_own_elements(elements: &[u32], met: &mut EpochSet, individuals: &[IndId]) -> bool
    requires there { All (λ a. a < length elements.now) (ind_numbers individuals.now) }
    requires room { All (λ x. x < length met.old) elements.now }
    ensures len { length met.new ≡ length met.old }
    ensures own { IsTrue result ↔ AllPairs (HaveTwoElements elements.now) (ind_numbers individuals.now) }
{
    met.clear();
    for individual in individuals {
        let element = element_at(elements, *individual) as usize;
        if met.contains(element) {
            return false;
        }
        met.put(element);
    }
    true
}
