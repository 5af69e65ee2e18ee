ghost use Rattle.carton_catalogue.specs.declared.catalogue.Catalogue.{Catalogue};
ghost use Rattle.carton_catalogue.specs.CatalogueRules.{IsCatalogue};
ghost use Rattle.carton_catalogue.specs.CatalogueSpelling.{IsReadOfItsSpelling};

/// The canonical spelling of a catalogue that keeps its rules reads back as that catalogue.
pub fn each_catalogue_is_read_of_its_spelling()
    ensures { (c : Catalogue) → IsCatalogue c → IsReadOfItsSpelling c }
{}
