//! How the words and slots of a mount are numbered.
ghost use Rattle.nv_table.specs.state.Limits.{MountIsWithinLimits};

/// STOP: 0, or 1 after a device fault.
pub const STOP: u64 = 0;
/// ORDER: how many calls have their place in the history.
pub const ORDER: u64 = 1;
/// HEAD: the next number of the log, counted in entries.
pub const HEAD: u64 = 2;
/// TAIL: the first number of the log that is not retired.
pub const TAIL: u64 = 3;
/// HAND: which buffer the next try of a search looks at, modulo the buffers.
pub const HAND: u64 = 4;
/// CLEANER: the lock of the cleaner's batch, 0 or 1.
pub const CLEANER: u64 = 5;
/// HEADER: the lock of the header's part, 0 or 1.
pub const HEADER: u64 = 6;
// The first word of the files, behind the single words.
const FILES: u64 = 7;

/// The sizes of a mount. Its words come in this order: seven single ones, three of each file, one of each entry, one of each buffer, and
/// three of each page.
#[derive(Clone, Copy, Debug, PartialEq, Eq)]
pub struct Layout {
    /// Bytes of a page: 64 to 4,096, a multiple of 64.
    pub page: u64,
    /// Files: up to 64.
    pub files: u64,
    /// Pages of a file: 1 to 1,024.
    pub pages: u64,
    /// Entries of the log: 2 to 1,024.
    pub entries: u64,
    /// Buffers: up to one for each page of all files.
    pub buffers: u64,
    pub ghost limits: { MountIsWithinLimits record { page = page; files = files; pages = pages; entries = entries; buffers = buffers } },
}

impl Layout {
    ghost use Rattle.std.specs.Prelude.{◌≡◌, ◌<◌, ◌*◌};
    ghost use Rattle.nv_core.specs.state.Words.{SIZE, LENGTH, STORE, ENTRY, HINT, PAGE, CLEANUP, DIRTY, place};
    ghost use Rattle.nv_table.specs.state.Keys.{sizes_of};
    ghost use Rattle.nv_table.specs.state.Layout.{word_of_place, slot_of_cell, word_total, slot_total};

    /// A page of `page` bytes, `files` files of `pages` pages each, `entries` entries of the log, and `buffers` buffers of a page.
    pub fn new(page: u64, files: u64, pages: u64, entries: u64, buffers: u64) -> Layout
        requires limits { MountIsWithinLimits record { page = page; files = files; pages = pages; entries = entries; buffers = buffers } }
        ensures { sizes_of result ≡ record { page = page; files = files; pages = pages; entries = entries; buffers = buffers } }
    {
        Layout {
            page,
            files,
            pages,
            entries,
            buffers,
        }
    }

    /// The place of the word SIZE of a file, which counts from 0.
    pub fn size(&self, file: u64) -> u64
        requires there { file < self.now.files }
        ensures { result ≡ place (sizes_of self.now) (SIZE file) }
    {
        FILES + 3 * file
    }

    /// The place of the word LENGTH of a file.
    pub fn length(&self, file: u64) -> u64
        requires there { file < self.now.files }
        ensures { result ≡ place (sizes_of self.now) (LENGTH file) }
    {
        FILES + 3 * file + 1
    }

    /// The place of the word STORE of a file.
    pub fn store(&self, file: u64) -> u64
        requires there { file < self.now.files }
        ensures { result ≡ place (sizes_of self.now) (STORE file) }
    {
        FILES + 3 * file + 2
    }

    /// The place of the word ENTRY of an entry, by its place in the ring of the log, which counts from 0.
    pub fn entry(&self, entry: u64) -> u64
        requires there { entry < self.now.entries }
        ensures { result ≡ place (sizes_of self.now) (ENTRY entry) }
    {
        self.first_entry() + entry
    }

    /// The place of the word HINT of a buffer, which counts from 0.
    pub fn hint(&self, buffer: u64) -> u64
        requires there { buffer < self.now.buffers }
        ensures { result ≡ place (sizes_of self.now) (HINT buffer) }
    {
        self.first_hint() + buffer
    }

    /// The place of the word PAGE of a page, by its number of all pages, which counts from 0.
    pub fn page_lock(&self, page: u64) -> u64
        requires there { page < self.now.files * self.now.pages }
        ensures { result ≡ place (sizes_of self.now) (PAGE page) }
    {
        self.first_page() + 3 * page
    }

    /// The place of the word CLEANUP of a page.
    pub fn cleanup(&self, page: u64) -> u64
        requires there { page < self.now.files * self.now.pages }
        ensures { result ≡ place (sizes_of self.now) (CLEANUP page) }
    {
        self.first_page() + 3 * page + 1
    }

    /// The place of the word DIRTY of a page.
    pub fn dirty(&self, page: u64) -> u64
        requires there { page < self.now.files * self.now.pages }
        ensures { result ≡ place (sizes_of self.now) (DIRTY page) }
    {
        self.first_page() + 3 * page + 2
    }

    /// How many words there are.
    pub fn words(&self) -> u64
        ensures { result ≡ word_total (sizes_of self.now) }
    {
        self.first_page() + 3 * self.page_total()
    }

    /// How many slots there are: one for the header's part, and one for each entry's part, each store and each page's buffer.
    pub fn slots(&self) -> u64
        ensures { result ≡ slot_total (sizes_of self.now) }
    {
        1 + self.entries + self.files + self.page_total()
    }

    /// The slot of the cell at a place, if that cell keeps something.
    pub fn slot(&self, word: u64) -> Option<usize>
        ensures { result ≡ slot_of_cell (sizes_of self.now) (word_of_place (sizes_of self.now) word) }
    {
        if word < FILES {
            return (word == HEADER).then_some(0);
        }
        if word < self.first_entry() {
            // The last of a file's three words is its STORE.
            let of_files = word - FILES;
            return (of_files % 3 == 2).then_some((1 + self.entries + of_files / 3) as usize);
        }
        if word < self.first_hint() {
            return Some((1 + (word - self.first_entry())) as usize);
        }
        let first_page = self.first_page();
        if word < first_page {
            return None;
        }
        // The first of a page's three words is its PAGE.
        let of_pages = word - first_page;
        (of_pages % 3 == 0).then_some((1 + self.entries + self.files + of_pages / 3) as usize)
    }

    fn page_total(&self) -> u64
        ensures { result ≡ self.now.files * self.now.pages }
    {
        self.files * self.pages
    }

    fn first_entry(&self) -> u64
        ensures { result ≡ place (sizes_of self.now) (ENTRY 0) }
    {
        FILES + 3 * self.files
    }

    fn first_hint(&self) -> u64
        ensures { result ≡ place (sizes_of self.now) (HINT 0) }
    {
        self.first_entry() + self.entries
    }

    fn first_page(&self) -> u64
        ensures { result ≡ place (sizes_of self.now) (PAGE 0) }
    {
        self.first_hint() + self.buffers
    }
}
