//! The view of a seat, for clauses alone.
ghost use Rattle.nv_table.specs.state.Views.{PassView};

use std::marker::{Model, PhantomData};

/// What a seat of the table knows. No code makes one: it is read by contracts alone.
pub struct View {
    marker: PhantomData<()>,
    ghost seen: { PassView },
}

impl Model for View {
    ghost use base.Fml.{ftrue};
    ghost use Rattle.nv_table.specs.state.Views.{PassView};

    ghost Value = { PassView };

    ghost view = { λ v. v.seen };

    ghost also_owns = { λ _. ftrue };
}
