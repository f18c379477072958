//! Laws of device calls: those of a commit, and those that move the header's tail.
ghost use Rattle.nv_pages.specs.DeviceCalls.{TailCallsAreDue};
ghost use Rattle.nv_pages.specs.CommitCalls.{CommitsAreDue};

/// What a commit tells of its calls, part by part, are the device calls of a pass that is about to commit: they are due one after another, and behind them the
/// pass may pledge its first page, or set STOP.
pub fn commits_are_due()
    ensures { CommitsAreDue }
{}

/// What a move of the header's tail tells of its calls are the device calls of a cleaner that is about to move it: they are due one after another, and behind them
/// the cleaner frees its first entry, or sets STOP.
pub fn tail_calls_are_due()
    ensures { TailCallsAreDue }
{}
