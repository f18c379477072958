//! Laws of headers.
ghost use Rattle.nv_header.specs.Laws.{StandsForItsStores, EmptyLogRecoversNothing, LinesMakeParts, TailIsOldOrNew, TailIsMoved, TailEndsQuiet};
ghost use Rattle.nv_header.specs.Migrations.{EitherVersionSaysTheSame, EitherVersionIsRead};
ghost use Rattle.nv_header.specs.Refusals.{ReadIsNotRefused, IsRefusedOnce};
ghost use Rattle.nv_header.specs.Unread.{HeadIsNotUnread, IsUnreadOnce};

/// A header has one answer: one that can be read is refused for none of its words, and one that can't be read is
/// refused for one reason: as one of a given version, and as one of whatever version. So the refusals of `read_head` and
/// `read_head_of` come exactly where they are stated, but that a fault, or want of memory, may come in their place.
pub fn a_header_has_one_answer()
    ensures read { ReadIsNotRefused }
    ensures refused { IsRefusedOnce }
    ensures not_unread { HeadIsNotUnread }
    ensures unread { IsUnreadOnce }
{}

/// Whatever [`migrate`](crate::migrate) came to, and whatever a power failure leaves of it: what [`read_head`](crate::read_head)
/// says of the header's part then has the sizes, the names and the tail of before, and no refusal but a fault or want of
/// memory comes in its place.
pub fn a_migrated_header_says_the_same()
    ensures said { EitherVersionSaysTheSame }
    ensures read { EitherVersionIsRead }
{}

/// What a region with an empty log stands for: the bytes of its stores, and so does a blank one. So [`format`](crate::format),
/// [`add_file`](crate::add_file) and [`migrate`](crate::migrate) change no file at any moment, whatever a power failure leaves.
pub fn an_empty_region_stands_for_its_stores()
    ensures files { StandsForItsStores }
    ensures recovered { EmptyLogRecoversNothing }
{}

/// Parts that pass [`check_lines`](crate::check_lines), with room for 15 stores in each line, are those of a region.
pub fn needed_lines_make_parts()
    ensures { LinesMakeParts }
{}

/// What the steps that move the tail make of the header's part, for whatever makes them. The clauses of
/// [`move_tail`](crate::move_tail) say this of its calls.
pub fn the_tail_follows_steps()
    ensures moments { TailIsOldOrNew }
    ensures moved { TailIsMoved }
    ensures quiet { TailEndsQuiet }
{}
