// What holds of the search for a standing read of a day.
ghost use Rattle.reads.specs.Examples.{SearchExamples};
ghost use Rattle.reads.specs.Search.{SearchHolds};

// A search that ends early answers what one of the whole journal would.
pub fn search_holds()
    ensures { SearchHolds }
{}

// Examples of what its definitions mean.
pub fn search_examples()
    ensures { SearchExamples }
{}
