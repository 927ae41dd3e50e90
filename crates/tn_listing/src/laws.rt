// What is promised of outputs, beside the contracts of what makes them.
ghost use Rattle.tn_listing.specs.Outputs.{OutputHasTheListings};

/// An output is at least as long as the lines of all sessions together.
pub fn an_output_has_the_listings()
    ensures { OutputHasTheListings }
{}
