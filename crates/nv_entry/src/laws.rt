//! Laws of groups.
ghost use Rattle.nv_entry.specs.Commits.{GroupsAreAtomic, GroupsStayOpen, GroupsStoreNothingElse, GroupsBecomeWhole, GroupsAreLoaded, GroupsEndQuiet, GroupsEndReady};
ghost use Rattle.nv_entry.specs.OneAnswer.{WholeIsNotBad, IsBadOnce};

/// What the steps of a group make of its parts, for whatever makes them: after each step the group is there as a whole or
/// not at all and nothing else is stored, and after the last it is there, and the parts are quiet and ready for other entries. The clauses of
/// [`commit_group`](crate::commit_group) say this of its calls.
pub fn groups_follow_steps()
    ensures atomic { GroupsAreAtomic }
    ensures stay { GroupsStayOpen }
    ensures only { GroupsStoreNothingElse }
    ensures whole { GroupsBecomeWhole }
    ensures loaded { GroupsAreLoaded }
    ensures quiet { GroupsEndQuiet }
    ensures ready { GroupsEndReady }
{}

/// A check of a group has one answer: a whole group has no bad number, and no group has two first ones. So the answers of
/// [`check_group`](crate::check_group) come exactly where they are stated.
pub fn a_group_has_one_answer()
    ensures whole { WholeIsNotBad }
    ensures bad { IsBadOnce }
{}
