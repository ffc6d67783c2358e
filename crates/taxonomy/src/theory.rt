//! What the texts depend on, and the texts of small ontologies.
ghost use Rattle.taxonomy.specs.Examples.{ChainIntoDefinition, Cycle, Individuals, OneSubclass, UnsatisfiableClass};
ghost use Rattle.taxonomy.specs.Theorems.{InstancesByRelations, TaxonomyByRelation};

/// Relations that agree on named classes have the same texts.
pub fn texts_of_relations()
    ensures taxonomy { TaxonomyByRelation }
    ensures instances { InstancesByRelations }
    ensures one_subclass { OneSubclass }
    ensures cycle { Cycle }
    ensures unsatisfiable_class { UnsatisfiableClass }
    ensures chain_into_definition { ChainIntoDefinition }
    ensures individuals { Individuals }
{}
