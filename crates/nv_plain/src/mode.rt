//! What a descriptor was opened for.
ghost use Rattle.std.specs.Prelude.{◌≡◌};
ghost use Rattle.nv_plain.specs.Modes.{can_read, can_write};

/// What a descriptor was opened for (POSIX.1-2017, open: `O_RDONLY`, `O_WRONLY`, `O_RDWR`).
#[derive(Clone, Copy, Debug, PartialEq, Eq)]
pub enum Mode {
    /// Reading alone.
    R,
    /// Writing alone.
    W,
    /// Both.
    Rw,
}

impl Mode {
    /// Whether a descriptor of this mode may be read (POSIX.1-2017, read: `EBADF`).
    pub fn can_read(self) -> bool
        ensures { result ≡ can_read self }
    {
        matches!(self, Mode::R | Mode::Rw)
    }

    /// Whether a descriptor of this mode may be written (POSIX.1-2017, write: `EBADF`).
    pub fn can_write(self) -> bool
        ensures { result ≡ can_write self }
    {
        matches!(self, Mode::W | Mode::Rw)
    }
}
