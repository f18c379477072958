//! Laws of runs of generated calls.
ghost use Rattle.nv_trace.specs.Shape.{IsWellFormed};
ghost use Rattle.nv_load.specs.Generated.{GeneratedTracesAreSound, declared};
ghost use Rattle.nv_load.specs.Summaries.{FreshSummariesAreOfTheLoad};

/// From a blank region and an empty file the summary of a run is told by the load alone, whatever the order in which its threads came.
pub fn fresh_summaries_are_of_the_load()
    ensures { FreshSummariesAreOfTheLoad }
{}

/// The trace of a load is one that a reader may have made, with its calls or before them: it has its form, and no two calls of one line. They are 800,064 calls at most.
pub fn generated_traces_are_sound()
    ensures declared { IsWellFormed declared }
    ensures generated { GeneratedTracesAreSound }
{}
