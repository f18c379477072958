//! Laws of benches.
ghost use Rattle.nv_bench.specs.Laws.{PowerLeavesAnImage};

/// A power failure leaves one of the images of each device, whatever the pick, and all of them quiet.
pub fn power_leaves_an_image()
    ensures { PowerLeavesAnImage }
{}
