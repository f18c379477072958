//! Trusted edge: a bench over the files of a folder.
ghost use Rattle.std.specs.Prelude.{◌≡◌, ◌+◌, List, length, map, sum_by, true, false, None, IfOk, OnOk, OnErr};
ghost use Rattle.nv_plain.specs.Faults.{Rose};
ghost use Rattle.nv_store.specs.FileStore.{store_faults};
ghost use Rattle.nv_bench.specs.Benches.{with_faults, store_lent};
ghost use Rattle.nv_pmem.specs.FilePart.{part_faults};
ghost use Rattle.nv_bench.specs.FolderBench.{folder_named, folder_state, folder_whole, is_read_only, new_folder};
ghost use Rattle.nv_bench.specs.declared.bench.BenchError.TheVariants.{Failed, NoMemory as NoRoom};

use crate::file_ids::FileIds;
use crate::folder_parts::{
    are_blank, faults_of_parts, faults_of_stores, is_there, lock_folder, make_folder, open_parts,
    parts_there, share_folder,
};
use crate::{Bench, BenchError};
use nv_plain::NoMemory;
use nv_pmem::{FilePart, Geometry, Pick};
use nv_store::FileStore;
use std::alloc::Global;
use std::fs::{self, File};
use std::io;
use std::rt::Files;

/// Files of a folder: the parts of the region are `region/part-0`, `region/part-1` and so on in it, and a
/// store is the file of its name in `files`. It tells nothing, and can't lose power. While its region is lent
/// no other bench can open it, but that those which are read-only can be open together. What was stored in a
/// part and not flushed and fenced isn't in its file, so it is gone when the part has come back.
#[derive(Drop)]
pub struct FolderBench<R> {
    rt: R,
    alloc: Global,
    folder: String,
    region: String,
    files: String,
    is_read_only: bool,
    is_open: bool,
    // The region's folder, locked while the region is lent. None where a look found no such folder.
    lock: Option<File>,
    // The names of the stores that are lent.
    lent: Vec<String>,
    // The files of the parts and stores that are lent.
    ids: FileIds,
    faults: u64,
}

// Opens the store of this path, and notes which file it is, where there is one.
fn open_path<R: Files<File = File>>(
    rt: &R,
    ids: &mut FileIds,
    path: &str,
    is_read_only: bool,
) -> Result<FileStore<File>, BenchError>
    ensures { IfOk result (λ store. store_faults store ≡ 0) }
{
    if !is_read_only {
        let store = FileStore::open(rt, path)?;
        ids.note(rt, path)?;
        return Ok(store);
    }
    let store = FileStore::read_only(rt, path)?;
    if is_there(rt, path)? {
        ids.note(rt, path)?;
    }
    Ok(store)
}

// A region that is open: its folder's lock, its parts, and which files these are.
struct Opened<R> {
    lock: Option<File>,
    parts: Vec<FilePart<R>>,
    ids: FileIds,
}

impl<R: Files<File = File> + Copy> FolderBench<R> {
    /// A bench over a folder. It opens nothing yet.
    pub fn new(rt: R, alloc: Global, folder: &str) -> Result<Self, NoMemory>
        ensures new { IfOk result (λ bench. folder_state bench ≡ new_folder) }
        ensures writable { IfOk result (λ bench. is_read_only bench ≡ false) }
    {
        Self::over(rt, alloc, folder, false)
    }

    /// A bench over a folder that is to be looked at. It needs no right to write, and makes, writes and syncs
    /// nothing: what isn't there is lent as a region of no part and as stores that are empty, and of what it
    /// shows a power failure may leave less. Its lock keeps out those that write, and only while its region
    /// is lent. A region that would have to be made is refused, and so are a fence behind a flush and a write
    /// to a store.
    pub fn read_only(rt: R, alloc: Global, folder: &str) -> Result<Self, NoMemory>
        ensures new { IfOk result (λ bench. folder_state bench ≡ new_folder) }
        ensures read_only { IfOk result (λ bench. is_read_only bench ≡ true) }
    {
        Self::over(rt, alloc, folder, true)
    }

    fn over(rt: R, alloc: Global, folder: &str, looks: bool) -> Result<Self, NoMemory>
        ensures new { IfOk result (λ bench. folder_state bench ≡ new_folder) }
        ensures kind { IfOk result (λ bench. is_read_only bench ≡ looks) }
    {
        Ok(FolderBench {
            rt,
            alloc,
            folder: String::from_str(alloc, folder)?,
            region: format!(in alloc; "{folder}/region")?,
            files: format!(in alloc; "{folder}/files")?,
            is_read_only: looks,
            is_open: false,
            lock: None,
            lent: Vec::new(alloc),
            ids: FileIds::new(alloc),
            faults: 0,
        })
    }

    // Makes the two folders where they are missing, durable with their entries, and locks that of the region.
    fn lock(&self) -> io::Result<File> {
        let folder = File::open(&self.rt, self.folder.as_str())?;
        make_folder(&self.rt, self.region.as_str())?;
        make_folder(&self.rt, self.files.as_str())?;
        folder.sync_all()?;
        lock_folder(&self.rt, self.region.as_str())
    }

    // Locks the region's folder, and opens its parts.
    fn open_all(&self, want: Option<Geometry>) -> Result<Opened<R>, BenchError>
        ensures { IfOk result (λ opened. sum_by part_faults opened.parts.items ≡ 0) }
    {
        if self.is_read_only {
            return self.open_to_look(want);
        }
        let lock = Some(self.lock()?);
        let (parts, ids) = open_parts(self.rt, self.alloc, self.region.as_str(), want)?;
        Ok(Opened { lock, parts, ids })
    }

    // The same where nothing is to be made: a region without its folder has no part, and needs no lock. Refused
    // where parts are wanted that aren't there.
    fn open_to_look(&self, want: Option<Geometry>) -> Result<Opened<R>, BenchError>
        ensures { IfOk result (λ opened. sum_by part_faults opened.parts.items ≡ 0) }
    {
        fs::metadata(&self.rt, self.folder.as_str())?;
        let lock = share_folder(&self.rt, self.region.as_str())?;
        let mut ids = FileIds::new(self.alloc);
        let parts = match lock {
            Some(_) => parts_there(self.rt, self.alloc, self.region.as_str(), true, &mut ids)?,
            None => Vec::new(self.alloc),
        };
        if want.is_some() && are_blank(&parts) {
            return Err(BenchError::Failed);
        }
        Ok(Opened { lock, parts, ids })
    }

    // Lends the store of a name.
    fn lend(&mut self, name: &str) -> Result<FileStore<File>, BenchError>
        ensures lent { OnOk result (folder_state self.new ≡ store_lent name.now (folder_state self.old)) }
        ensures faults { IfOk result (λ store. store_faults store ≡ 0) }
        ensures kept { OnErr result (folder_state self.new ≡ folder_state self.old) }
        ensures kind { is_read_only self.new ≡ is_read_only self.old }
    {
        let lent = String::from_str(self.alloc, name)?;
        let files = self.files.as_str();
        let path = format!(in self.alloc; "{files}/{name}")?;
        self.lent.reserve(1)?;
        let store = open_path(&self.rt, &mut self.ids, path.as_str(), self.is_read_only)?;
        self.lent.push_reserved(lent);
        Ok(store)
    }

    // Counts an opening that failed.
    fn refuse(&mut self, error: BenchError) -> BenchError
        ensures error { result ≡ error }
        ensures failed { error ≡ Failed → Rose (folder_state self.old).faults (folder_state self.new).faults }
        ensures kept { folder_state self.new ≡ with_faults (folder_state self.new).faults (folder_state self.old) }
        ensures memory { error ≡ NoRoom → folder_state self.new ≡ folder_state self.old }
        ensures kind { is_read_only self.new ≡ is_read_only self.old }
    {
        if matches!(error, BenchError::Failed) {
            self.faults = self.faults.saturating_add(1);
        }
        error
    }
}

impl<R: Files<File = File> + Copy + Drop + Send> Bench for FolderBench<R> {
    ghost use Rattle.std.specs.Prelude.{[], All, Err, IfSome};
    ghost use Rattle.nv_plain.specs.Faults.{saturated};
    ghost use Rattle.nv_pmem.specs.FilePart.{part_history, part_faults, part_room};
    ghost use Rattle.nv_pmem.specs.Part.{Part as PartState};
    ghost use Rattle.nv_pmem.specs.RowStates.{AreNow, IsNow};
    ghost use Rattle.nv_store.specs.FileStore.{store_history};
    ghost use Rattle.nv_store.specs.Store.{Store as StoreState};
    ghost use Rattle.nv_bench.specs.Benches.{region_lent, told_back, taken_back};
    ghost use Rattle.nv_bench.specs.Holding.{store_of};
    ghost use Rattle.nv_bench.specs.Opening.{IsFreshWhereQuiet, opened};

    type Part = FilePart<R>;

    type Store = FileStore<File>;

    ghost can_lose_power = { false };

    ghost state = { folder_state };

    fn images() -> bool {
        false
    }

    fn open_region(&mut self, want: Option<Geometry>) -> Result<Vec<FilePart<R>>, BenchError>
        ensures lent { OnOk result (folder_state self.new ≡ with_faults (folder_state self.new).faults (region_lent (folder_state self.old))) }
        ensures told { IfOk result (λ parts. IfSome (folder_state self.old).told (λ holding.
            AreNow (map part_history parts.items) (opened want holding.parts))) }
        ensures untold { IfOk result (λ parts. (folder_state self.old).told ≡ None → All (λ part. part_history part ≡ []) parts.items) }
        ensures fresh { IfOk result (λ parts. All (λ part. IsFreshWhereQuiet (part_history part) (part_room part)) parts.items) }
        ensures counts { IfOk result (λ parts.
            (folder_state self.old).faults ≡ saturated ((folder_state self.new).faults + sum_by part_faults parts.items)) }
        ensures failed { result ≡ Err Failed → Rose (folder_state self.old).faults (folder_state self.new).faults }
        ensures kept { OnErr result (folder_state self.new ≡ with_faults (folder_state self.new).faults (folder_state self.old)) }
        ensures memory { result ≡ Err NoRoom → folder_state self.new ≡ folder_state self.old }
        ensures kind { is_read_only self.new ≡ is_read_only self.old }
    {
        match self.open_all(want) {
            Ok(Opened { lock, parts, ids }) => {
                self.lock = lock;
                self.ids = ids;
                self.is_open = true;
                Ok(parts)
            }
            Err(error) => Err(self.refuse(error)),
        }
    }

    fn open_store(&mut self, name: &str) -> Result<FileStore<File>, BenchError>
        ensures lent { OnOk result (folder_state self.new ≡ with_faults (folder_state self.new).faults (store_lent name.now (folder_state self.old))) }
        ensures told { IfOk result (λ store. IfSome (folder_state self.old).told (λ holding.
            IsNow (store_history store) (store_of name.now holding.stores))) }
        ensures untold { IfOk result (λ store. (folder_state self.old).told ≡ None → store_history store ≡ []) }
        ensures counts { IfOk result (λ store.
            (folder_state self.old).faults ≡ saturated ((folder_state self.new).faults + store_faults store)) }
        ensures failed { result ≡ Err Failed → Rose (folder_state self.old).faults (folder_state self.new).faults }
        ensures kept { OnErr result (folder_state self.new ≡ with_faults (folder_state self.new).faults (folder_state self.old)) }
        ensures memory { result ≡ Err NoRoom → folder_state self.new ≡ folder_state self.old }
        ensures kind { is_read_only self.new ≡ is_read_only self.old }
    {
        match self.lend(name) {
            Ok(store) => Ok(store),
            Err(error) => Err(self.refuse(error)),
        }
    }

    /// Files can't be armed: this does nothing.
    fn arm(&mut self, _k: u64)
        ensures kept { folder_state self.new ≡ folder_state self.old }
        ensures kind { is_read_only self.new ≡ is_read_only self.old }
    {}

    fn give_back(&mut self, parts: Vec<FilePart<R>>, stores: Vec<FileStore<File>>)
        requires open { (folder_state self.old).is_open ≡ true }
        requires stores { length stores.items ≡ length (folder_state self.old).lent }
        ensures taken { folder_state self.new ≡ taken_back (folder_state self.new).told
            (sum_by part_faults parts.items + sum_by store_faults stores.items) (folder_state self.old) }
        ensures told { (now : List PartState) (held : List StoreState)
            → AreNow (map part_history parts.items) now → AreNow (map store_history stores.items) held
            → (folder_state self.new).told ≡ told_back now held (folder_state self.old) }
        ensures untold { (folder_state self.old).told ≡ None → (folder_state self.new).told ≡ None }
        ensures kind { is_read_only self.new ≡ is_read_only self.old }
    {
        self.faults = self
            .faults
            .saturating_add(faults_of_parts(&parts))
            .saturating_add(faults_of_stores(&stores));
        drop(parts);
        drop(stores);
        self.lent.clear();
        self.ids = FileIds::new(self.alloc);
        self.is_open = false;
        self.lock = None;
    }

    /// Files can't be made to lose power: this does nothing.
    fn power(&mut self, _pick: Pick) -> Result<(), NoMemory>
        ensures kept { folder_state self.new ≡ folder_state self.old }
        ensures kind { is_read_only self.new ≡ is_read_only self.old }
    {
        Ok(())
    }

    fn faults(&self) -> u64 {
        self.faults
    }

    ghost whole = { folder_whole };

    ghost named = { folder_named };
}
