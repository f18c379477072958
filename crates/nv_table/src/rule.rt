//! The table's invariant: its words, the values at home and what its seats see show a state that a run of the core leads to.
ghost use Rattle.nv_table.specs.state.Keys.{opened_of};
ghost use Rattle.nv_table.specs.invariant.TableInvariant.{TableInvariant};
ghost use Rattle.nv_table.specs.state.Views.{first_view};

use crate::{Layout, Shown, View};
use atomic_table::TableRule;
use std::marker::PhantomData;
use std::snapshot::Snapshot;

/// What a mount is made of: its sizes, the next number of its log, the lengths of its files, and what its slots hold.
pub struct Opening<S> {
    pub layout: Layout,
    pub next: u64,
    pub lengths: Vec<u64>,
    pub slots: Vec<S>,
}

/// The rule.
pub struct TableInvariantRule<S> {
    marker: PhantomData<S>,
}

impl<S: Shown> TableRule<S, View, Snapshot<Opening<S>>> for TableInvariantRule<S> {
    ghost holds = { λ key. TableInvariant S.shown (opened_of S.shown key.value) };

    ghost first = { λ key. first_view (opened_of S.shown key.value) };
}
