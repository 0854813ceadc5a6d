//! Laws of the definitions in `specs/`, each proved as the contract of a function that does nothing.

ghost use Rattle.desk_scratch.specs.Laws.{CompliantMeans};

/// An answer ends with the line `compliant` exactly where the verdict is a breach for no rule on any material that the product
/// reaches, or that the question is about; and each breach of a product is told with the chain that leads to it.
pub fn compliant_means()
    ensures { CompliantMeans }
{}
