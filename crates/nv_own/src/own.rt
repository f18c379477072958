//! A mount that nobody shares.
ghost use Rattle.std.specs.Prelude.{◌≡◌, IfOk, OnErr};
ghost use Rattle.nv_table.specs.state.SlotValues.{part_value, slot_value, store_value};
ghost use Rattle.nv_table.specs.state.Views.{made_of};
ghost use Rattle.nv_mirror.specs.Answers.{refusal_in_answer};
ghost use Rattle.nv_mirror.specs.PassSteps.{is_fault};
ghost use Rattle.nv_calls.specs.histories.Faults.{OpensBy, open_writes};
ghost use Rattle.nv_clean.specs.Alone.{IsAnsweredAlone};
ghost use Rattle.nv_session.specs.Calls.{HasCleanedAll, HasRead, HasRetired, HasWritten};
ghost use Rattle.nv_own.specs.Owned.{HasBytes, HasEnded, HasPut, TellsFiles, Told, files_of};

use nv_bench::Bench;
use nv_calls::{Done, Refusal, faults_open_writes};
use nv_clean::{CleanRefusal, Cleaned};
use nv_core::runs_are_sound;
use nv_plain::history_goes_on;
use nv_runner::open_answers_are_faults;
use nv_session::FirstSession;
use std::marker::Model;
use std::sync::Wait;

/// The files of a mount that nobody shares: the first session of a mount by which no other was made. Contracts see the session; its files
/// are those after its calls (`files_of`), and change by its writes alone.
pub struct OwnFiles<T: Bench> {
    first: FirstSession<T>,
}

impl<T: Bench> Model for OwnFiles<T> {
    ghost use Rattle.nv_session.specs.Sessions.{FirstState};
    ghost use Rattle.nv_own.specs.Owned.{IsOwn};

    ghost Value = { FirstState };

    ghost view = { λ s. s.first };

    ghost invariant = { λ s. IsOwn s.first };
}

impl<T: Bench> OwnFiles<T> {
    /// Takes the first session of a mount over, by which no other was made.
    pub fn new(first: FirstSession<T>) -> OwnFiles<T>
        requires alone { made_of first.pass.view ≡ 0 }
        ensures first { result ≡ first }
        ensures files { TellsFiles first }
    {
        first.is_alone();
        OwnFiles { first }
    }

    /// Reads from the file of a descriptor (POSIX.1-2017, pread): the bytes from the offset `at` on, as many as `buf` has, or fewer where
    /// the file ends before, come to the front of `buf`; the answer tells how many they are. Refused as `FirstSession::read`. It takes no memory.
    pub fn read<R: Wait>(
        &mut self,
        rt: &R,
        fd: u64,
        at: u64,
        buf: &mut [u8],
    ) -> Result<Done, Refusal>
        ensures bench { self.new.bench ≡ self.old.bench }
        ensures mount { self.new.mount ≡ self.old.mount }
        ensures call { HasRead self.old.mount fd at buf.new self.old.pass self.new.pass result }
        ensures files { files_of self.new ≡ files_of self.old }
        ensures read { IfOk result (λ done. Told self.old.mount.board.opened → HasBytes self.old.mount.fds (files_of self.old) fd at buf.new done) }
        ensures opens { open_writes self.new.pass ≡ open_writes self.old.pass }
    {
        runs_are_sound();
        history_goes_on();
        faults_open_writes();
        self.first.is_alone();
        let result = self.first.read(rt, fd, at, buf);
        self.first.is_alone();
        result
    }

    /// Writes to the file of a descriptor (POSIX.1-2017, pwrite): all of `bytes` stand in the file from the offset `at` on, durable when it
    /// returns. Refused as `FirstSession::write`, and then the files are as they were. It takes no memory.
    pub fn write<R: Wait>(
        &mut self,
        rt: &R,
        fd: u64,
        at: u64,
        bytes: &[u8],
    ) -> Result<Done, Refusal>
        ensures bench { self.new.bench ≡ self.old.bench }
        ensures mount { self.new.mount ≡ self.old.mount }
        ensures call { HasWritten self.old.mount fd at bytes.now self.old.pass self.new.pass result }
        ensures written { IfOk result (λ done. HasPut self.old.mount.fds fd at bytes.now (files_of self.old) (files_of self.new)) }
        ensures kept { OnErr result (files_of self.new ≡ files_of self.old) }
        ensures opens { OpensBy (is_fault (refusal_in_answer result)) self.old.mount.fds fd at bytes.now self.old.pass self.new.pass }
    {
        runs_are_sound();
        history_goes_on();
        faults_open_writes();
        self.first.is_alone();
        let result = self.first.write(rt, fd, at, bytes);
        self.first.is_alone();
        result
    }

    /// Carries entries of the log to the stores, as `FirstSession::clean`. The files are as they were.
    pub fn clean(&mut self, most: u64) -> Result<Cleaned, CleanRefusal>
        ensures bench { self.new.bench ≡ self.old.bench }
        ensures mount { self.new.mount ≡ self.old.mount }
        ensures call { HasRetired most self.old.pass self.new.pass result }
        ensures alone { IsAnsweredAlone self.old.pass.view self.new.pass.view result }
        ensures files { files_of self.new ≡ files_of self.old }
        ensures opens { open_writes self.new.pass ≡ open_writes self.old.pass }
    {
        self.first.is_alone();
        let result = self.first.clean(most);
        self.first.is_alone();
        result
    }

    /// Carries all of the log to the stores, as `FirstSession::clean_all`. The files are as they were.
    pub fn clean_all<R: Wait>(&mut self, rt: &R, most: u64) -> Result<(), CleanRefusal>
        ensures bench { self.new.bench ≡ self.old.bench }
        ensures mount { self.new.mount ≡ self.old.mount }
        ensures call { HasCleanedAll most self.old.pass self.new.pass result }
        ensures files { files_of self.new ≡ files_of self.old }
        ensures opens { open_writes self.new.pass ≡ open_writes self.old.pass }
    {
        self.first.is_alone();
        let result = self.first.clean_all(rt, most);
        self.first.is_alone();
        result
    }

    /// Ends the mount, and gives parts and stores back to their bench, which comes out. Where the devices told, whatever a power failure
    /// leaves of them recovers to the files, and then those of the writes that device faults ended which it keeps, each whole. Takes no memory.
    pub fn close(self) -> T
        ensures { HasEnded record {
          part_device = T.Part.device;
          part_history = T.Part.history;
          part_faults = T.Part.fault_count;
          part_value = part_value T.Part.device T.Part.history T.Part.fault_count T.Part.room;
          store_device = T.Store.device;
          store_history = T.Store.history;
          store_faults = T.Store.fault_count;
          store_value = store_value T.Store.device T.Store.history T.Store.fault_count;
          shown = slot_value (part_value T.Part.device T.Part.history T.Part.fault_count T.Part.room) (store_value T.Store.device T.Store.history T.Store.fault_count);
        } self (T.state result) }
    {
        runs_are_sound();
        open_answers_are_faults();
        let OwnFiles { first } = self;
        first.is_alone();
        first.close()
    }
}
