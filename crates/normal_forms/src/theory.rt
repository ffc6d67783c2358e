//! What is proved of the forms.
ghost use Rattle.normal_forms.specs.Theorems.{FormsAreGiven, SidesAreReached, PropertyFormsSuffice};

/// The forms of the definition are those that an axiom, an expression that occurs right or one that occurs left gives.
pub fn forms_are_given()
    ensures forms { FormsAreGiven }
    ensures sides { SidesAreReached }
{}

/// Which properties lie below which, which are reflexive and which chains there are is said by the forms of properties alone.
pub fn property_forms_suffice()
    ensures { PropertyFormsSuffice }
{}
