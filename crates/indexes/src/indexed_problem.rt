//! A problem whose forms are found by key.
ghost use Rattle.std.specs.Prelude.{◌≡◌, ◌<◌, ◌↔◌, ◌⊎◌, ◌++◌, [], ℕ, Contains, IfOk, IfSome, IsNone, false, length, slice_get, take, true};
ghost use Rattle.axioms.specs.declared.ids.ExprId.{ExprId as ExprId2};
ghost use Rattle.normal_forms.specs.declared.forms.Class2.{Class2 as Class3};
ghost use Rattle.normal_forms.specs.declared.forms.Class2.TheVariants as classes;
ghost use Rattle.indexes.specs.declared.keys.Key.{Key as Key2};
ghost use Rattle.indexes.specs.declared.keys.Key.TheVariants as keys;
ghost use Rattle.indexes.specs.Keys.{class_key, property_key, individual_key, by_kind, by_alone, by_first, by_second, by_filler, by_chain, by_end, by_plain, by_linked_first, by_linked_second, by_denied, by_restricted, by_target};
ghost use Rattle.facts.specs.Closure.{AreDisjointAt};
ghost use Rattle.indexes.specs.Apart.{AreApart, IsApart, IsInList};
ghost use Rattle.indexes.specs.FormsUnderKeys.{IsUnder};
ghost use Rattle.indexes.specs.ListedForms.{AreLedBy};

use crate::apart::Apart;
use crate::disjoint::Disjointness;
use crate::form_index::listed;
use crate::form_lists::FormLists;
use crate::grown_index::listed_more;
use crate::keys::Key;
use crate::led_forms::LedForms;
use crate::listed_forms::ListedForm;
use crate::lists::is_used;
use crate::named::{key_of_class, key_of_property};
use crate::overlap::common;
use crate::roles::ByRole;
use crate::seconds::with_second;
use axioms::IndId;
use facts::Context;
use normal_forms::{ApartLists, Class2, Form, FormList, PropId2, SharedList};
use std::alloc::{AllocError, Global};
use std::marker::Model;

/// Normal forms, found by their classes and properties, and the contexts that are there from the start.
pub struct IndexedProblem {
    alloc: Global,
    forms: FormList,
    apart: ApartLists,
    roots: SharedList<Context>,
    disjoint: Disjointness,
    index: ByRole<FormLists>,
    /// The forms that are listed by the class that they need alone.
    alone: LedForms,
    /// The restrictions that are listed by their fillers.
    fillers: LedForms,
}

/// All intersections that have a class, by the numbers of their forms, and the classes that lists of disjoint classes put apart from it.
#[derive(Clone, Copy)]
pub struct FewIntersections<'a> {
    /// Those of that first class.
    pub first: &'a [u32],
    /// Those of that second class.
    pub second: &'a [u32],
    /// The classes that stand with it in lists of disjoint classes.
    pub apart: Apart<'a>,
}

// A value is let go by one call, where each way out would else let each field go.
impl Drop for IndexedProblem {
    fn drop(self) {
        let IndexedProblem {
            alloc: _,
            forms: _,
            apart: _,
            roots: _,
            disjoint: _,
            index: _,
            alone: _,
            fillers: _,
        } = self;
    }
}

impl Model for IndexedProblem {
    ghost use Rattle.facts.specs.Closure.{Problem};
    ghost use Rattle.indexes.specs.FormIndex.{IsIndexed};

    ghost Value = { Problem };

    ghost view = { λ p. record { forms = p.forms; apart = p.apart; roots = p.roots.items } };

    ghost invariant = { λ p. IsIndexed p.forms p.apart.classes p.disjoint p.index p.alone p.fillers };
}

/// Up to how many further forms there may be beside lists that copies share; then all are listed anew. It decides nothing.
const FEW_FORMS: usize = 128;

/// The problem of these forms, lists and roots, with all forms listed by key. Fails where memory is refused, and where there are 2^32 forms,
/// lists or members of lists.
fn listed_anew(
    alloc: Global,
    forms: FormList,
    apart: ApartLists,
    roots: SharedList<Context>,
) -> Result<IndexedProblem, AllocError>
    ensures forms { IfOk result (λ p. p.forms ≡ forms) }
    ensures apart { IfOk result (λ p. p.apart ≡ apart) }
    ensures roots { IfOk result (λ p. p.roots ≡ roots.items) }
{
    if forms.len() > u32::MAX as usize {
        return Err(AllocError);
    }
    let disjoint = Disjointness::of(alloc, &apart.classes)?;
    let index = listed(alloc, &forms)?;
    let alone = LedForms::of(alloc, &forms, &index.alone)?;
    let fillers = LedForms::of(alloc, &forms, &index.fillers)?;
    Ok(IndexedProblem {
        alloc,
        forms,
        apart,
        roots,
        disjoint,
        index,
        alone,
        fillers,
    })
}

impl IndexedProblem {
    /// The problem of these forms, which begin with its own, and lists, with these contexts behind its own; the problem itself stays. The
    /// memory of a list of forms that is shared already is shared, and so are its own contexts, and, while few forms have been added, the
    /// lists by key. Fails where memory is refused, and where there are 2^32 forms, lists or members of lists, or 2^64 contexts.
    pub fn continued(
        &self,
        forms: &FormList,
        apart: &ApartLists,
        roots: &[Context],
    ) -> Result<Self, AllocError>
        requires { take (length self.now.forms) forms.now ≡ self.now.forms }
        ensures forms { IfOk result (λ p. p.forms ≡ forms.now) }
        ensures apart { IfOk result (λ p. p.apart ≡ apart.now) }
        ensures roots { IfOk result (λ p. p.roots ≡ self.now.roots ++ roots.now) }
    {
        let from = self.forms.len();
        let forms = forms.copy()?;
        let apart = apart.copy(self.alloc)?;
        let roots = self.roots.with_more(roots)?.share();
        if forms.len().saturating_sub(self.alone.end) > FEW_FORMS
            || forms.len() > u32::MAX as usize
        {
            return listed_anew(self.alloc, forms, apart, roots);
        }
        let disjoint = Disjointness::of(self.alloc, &apart.classes)?;
        let index = listed_more(self.alloc, &self.index, &forms, from)?;
        let alone = self.alone.again(self.alloc, &forms, &index.alone)?;
        let fillers = self.fillers.again(self.alloc, &forms, &index.fillers)?;
        Ok(IndexedProblem {
            alloc: self.alloc,
            forms,
            apart,
            roots,
            disjoint,
            index,
            alone,
            fillers,
        })
    }

    /// The problem of these forms, lists and roots. Fails where memory is refused, and where there are 2^32 forms, lists or members of
    /// lists.
    pub fn new(
        alloc: Global,
        forms: FormList,
        apart: ApartLists,
        roots: Vec<Context>,
    ) -> Result<Self, AllocError>
        ensures forms { IfOk result (λ p. p.forms ≡ forms) }
        ensures apart { IfOk result (λ p. p.apart ≡ apart) }
        ensures roots { IfOk result (λ p. p.roots ≡ roots.items) }
    {
        listed_anew(alloc, forms, apart, SharedList::of(roots).share())
    }

    /// The forms.
    pub fn forms(&self) -> &FormList
        ensures { result.now ≡ self.now.forms }
    {
        &self.forms
    }

    /// The lists of what is apart.
    pub fn apart(&self) -> &ApartLists
        ensures { result.now ≡ self.now.apart }
    {
        &self.apart
    }

    /// The form of that number, if there is one.
    #[inline(always)]
    pub fn form(&self, number: u32) -> Option<Form>
        ensures { result ≡ slice_get self.now.forms number }
    {
        self.forms.get(number as usize)
    }

    /// The contexts that are there from the start.
    pub fn roots(&self) -> &SharedList<Context>
        ensures { result.now.items ≡ self.now.roots }
    {
        &self.roots
    }

    /// The forms that give a fact from none.
    pub fn given(&self) -> &[u32]
        ensures { (n : ℕ) → Contains result.now n ↔ IsUnder by_kind self.now.forms (keys.Whole 0) n }
    {
        self.index.kinds.of(Key::Whole(0))
    }

    /// The forms that make a property reflexive.
    pub fn reflexive(&self) -> &[u32]
        ensures { (n : ℕ) → Contains result.now n ↔ IsUnder by_kind self.now.forms (keys.Whole 1) n }
    {
        self.index.kinds.of(Key::Whole(1))
    }

    /// The forms that need that class alone.
    pub fn alone(&self, class: Class2) -> &[u32]
        ensures { (n : ℕ) → Contains result.now n ↔ IsUnder by_alone self.now.forms (class_key class) n }
    {
        self.index.alone.of(key_of_class(class))
    }

    /// The forms that need that class alone, with what they lead to: in the order of their numbers, as `alone` lists them.
    #[inline(always)]
    pub fn led_alone(&self, class: Class2) -> &[ListedForm]
        ensures { AreLedBy by_alone self.now.forms (class_key class) result.now }
    {
        let key = key_of_class(class);
        if self.index.alone.is_past(key) {
            return &[];
        }
        self.alone.at(&self.index.alone, key)
    }

    /// Whether an intersection has that first class.
    pub fn begins_intersection(&self, class: Class2) -> bool
        ensures some { result ≡ true → (n : ℕ) × IsUnder by_first self.now.forms (class_key class) n }
        ensures none { result ≡ false → (n : ℕ) → IsUnder by_first self.now.forms (class_key class) n → ⊥ }
    {
        is_used(self.index.first.of(key_of_class(class)))
    }

    /// Whether an intersection has that second class.
    pub fn ends_intersection(&self, class: Class2) -> bool
        ensures some { result ≡ true → (n : ℕ) × IsUnder by_second self.now.forms (class_key class) n }
        ensures none { result ≡ false → (n : ℕ) → IsUnder by_second self.now.forms (class_key class) n → ⊥ }
    {
        is_used(self.index.second.of(key_of_class(class)))
    }

    /// Whether a list of disjoint classes has the class.
    pub fn is_in_list(&self, class: Class2) -> bool
        ensures yes { result ≡ true → IsInList self.now class }
        ensures no { result ≡ false → IsInList self.now class → ⊥ }
    {
        self.disjoint.has(key_of_class(class))
    }

    /// The number of a list of disjoint classes that has the two, the first at an earlier place, if there is one.
    pub fn disjoint_list(&self, first: Class2, second: Class2) -> Option<u32>
        ensures some { IfSome result (λ l. AreDisjointAt self.now l first second) }
        ensures none { IsNone result → (l : ℕ) → AreDisjointAt self.now l first second → ⊥ }
    {
        self.disjoint
            .list_of(key_of_class(first), key_of_class(second))
    }

    /// The intersections of that class, if at most so many, and the classes that are apart from it.
    pub fn few_intersections(&self, class: Class2, most: usize) -> Option<FewIntersections<'_>>
        ensures first { IfSome result (λ few. (n : ℕ) → Contains few.first.now n ↔ IsUnder by_first self.now.forms (class_key class) n) }
        ensures second { IfSome result (λ few. (n : ℕ) → Contains few.second.now n ↔ IsUnder by_second self.now.forms (class_key class) n) }
        ensures apart { IfSome result (λ few. (b : Class3) → IsApart few.apart b ↔ AreApart self.now class b) }
    {
        let key = key_of_class(class);
        let first = self.index.first.of(key);
        let second = self.index.second.of(key);
        if first.len().saturating_add(second.len()) > most {
            return None;
        }
        let lists = &self.disjoint;
        let apart = Apart { lists, key };
        Some(FewIntersections {
            first,
            second,
            apart,
        })
    }

    /// Intersections of that first class, or of that second class, with all that have both: none where those of one of the two classes end
    /// before those of the other begin, else those of the class that fewer have.
    pub fn intersections(&self, first: Class2, second: Class2) -> &[u32]
        ensures all { (n : ℕ) → IsUnder by_first self.now.forms (class_key first) n → IsUnder by_second self.now.forms (class_key second) n → Contains result.now n }
        ensures only { (n : ℕ) → Contains result.now n → IsUnder by_first self.now.forms (class_key first) n ⊎ IsUnder by_second self.now.forms (class_key second) n }
    {
        let first = key_of_class(first);
        let second = key_of_class(second);
        common(self.index.first.of(first), self.index.second.of(second))
    }

    /// The restrictions that need that class at the target of an edge.
    pub fn with_filler(&self, class: Class2) -> &[u32]
        ensures { (n : ℕ) → Contains result.now n ↔ IsUnder by_filler self.now.forms (class_key class) n }
    {
        self.index.fillers.of(key_of_class(class))
    }

    /// The restrictions that need that class at the target of an edge, with what they lead to: in the order in which `with_filler` lists
    /// them.
    #[inline(always)]
    pub fn led_by_filler(&self, class: Class2) -> &[ListedForm]
        ensures { AreLedBy by_filler self.now.forms (class_key class) result.now }
    {
        let key = key_of_class(class);
        if self.index.fillers.is_past(key) {
            return &[];
        }
        self.fillers.at(&self.index.fillers, key)
    }

    /// The restrictions of that property that need that class at the target of an edge.
    pub fn restrictions(&self, property: PropId2, filler: Class2) -> &[u32]
        ensures { (n : ℕ) → Contains result.now n ↔ (IsUnder by_filler self.now.forms (class_key filler) n × IsUnder by_restricted self.now.forms (property_key property) n) }
    {
        let listed = self.index.fillers.of(key_of_class(filler));
        with_second(&self.forms, listed, key_of_property(property))
    }

    /// A number above that of each expression that is a filler.
    pub fn fillers_end(&self) -> usize
        ensures { (e : ExprId2) (n : ℕ) → IsUnder by_filler self.now.forms (class_key (classes.Expr e)) n → e.0 < result }
    {
        self.index.fillers.end()
    }

    /// The chains that begin with that property.
    pub fn chains_from(&self, property: PropId2) -> &[u32]
        ensures { (n : ℕ) → Contains result.now n ↔ IsUnder by_chain self.now.forms (property_key property) n }
    {
        self.index.chains.of(key_of_property(property))
    }

    /// The chains that end with that property.
    pub fn chains_to(&self, property: PropId2) -> &[u32]
        ensures { (n : ℕ) → Contains result.now n ↔ IsUnder by_end self.now.forms (property_key property) n }
    {
        self.index.ends.of(key_of_property(property))
    }

    /// The chains of these two properties, in this order.
    pub fn chains(&self, first: PropId2, second: PropId2) -> &[u32]
        ensures { (n : ℕ) → Contains result.now n ↔ (IsUnder by_chain self.now.forms (property_key first) n × IsUnder by_end self.now.forms (property_key second) n) }
    {
        let listed = self.index.chains.of(key_of_property(first));
        with_second(&self.forms, listed, key_of_property(second))
    }

    /// The forms that put that property below another, and no chain.
    pub fn plain_from(&self, property: PropId2) -> &[u32]
        ensures { (n : ℕ) → Contains result.now n ↔ IsUnder by_plain self.now.forms (property_key property) n }
    {
        self.index.plain.of(key_of_property(property))
    }

    /// Whether some form makes two individuals one. It looks at no form.
    pub fn has_links(&self) -> bool
        ensures { (result ≡ false) ↔ ((k : Key2) (n : ℕ) → IsUnder by_linked_first self.now.forms k n → ⊥) }
    {
        !self.index.linked_first.is_empty()
    }

    /// The forms that make that individual, as their first, one with another.
    pub fn linked_first(&self, individual: IndId) -> &[u32]
        ensures { (n : ℕ) → Contains result.now n ↔ IsUnder by_linked_first self.now.forms (individual_key individual) n }
    {
        self.index.linked_first.of(Key::Whole(individual.0))
    }

    /// The forms that make that individual, as their second, one with another.
    pub fn linked_second(&self, individual: IndId) -> &[u32]
        ensures { (n : ℕ) → Contains result.now n ↔ IsUnder by_linked_second self.now.forms (individual_key individual) n }
    {
        self.index.linked_second.of(Key::Whole(individual.0))
    }

    /// The forms that deny a pair of these individuals, in this order.
    pub fn denied_between(&self, source: IndId, target: IndId) -> &[u32]
        ensures { (n : ℕ) → Contains result.now n ↔ (IsUnder by_denied self.now.forms (individual_key source) n × IsUnder by_target self.now.forms (individual_key target) n) }
    {
        let listed = self.index.denied.of(Key::Whole(source.0));
        with_second(&self.forms, listed, Key::Whole(target.0))
    }
}
