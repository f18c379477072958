//! A law of the shapes of what cells keep.
ghost use Rattle.nv_core.specs.invariant.Shapes.{CellsKeepShapes};

/// Each cell keeps after a run a value of the shape that it had at opening, whatever the devices tell: a part, a store, or a place for
/// a buffer, which has at least a page where there is one. So it is because what a read fetches of a page is never shorter.
pub fn cells_keep_their_shapes()
    ensures { CellsKeepShapes }
{}
