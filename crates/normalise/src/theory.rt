//! What is proved of the forms that are listed.
ghost use Rattle.normalise.specs.Growth.{NormalFormsAreListed, PropertyFormsAreNamed};

/// Where the forms are normal for an ontology, each is a form of the definition, and each form of the definition is there. This runs
/// nothing.
pub fn normal_forms_are_listed()
    ensures { NormalFormsAreListed }
{}

/// Where the forms are normal for an ontology, those of properties name properties of the ontology and fresh names that are there. This
/// runs nothing.
pub fn property_forms_are_named()
    ensures { PropertyFormsAreNamed }
{}
