//! Which bytes may name a file.
ghost use Rattle.std.specs.Prelude.{◌≡◌};
ghost use Rattle.std.specs.List.{list_all};
ghost use Rattle.nv_plain.specs.Names.{is_name, is_name_byte};

/// Whether these bytes may name a file: 1 to `most` of `a-z 0-9 _ . -`, the first of them not a dot. Takes no memory.
pub fn is_file_name(name: &[u8], most: u64) -> bool
    ensures { result ≡ is_name most name.now }
{
    let len = name.len() as u64;
    1 <= len && len <= most && name[0] != b'.' && are_name_bytes(name)
}

fn are_name_bytes(name: &[u8]) -> bool
    ensures { result ≡ list_all is_name_byte name.now }
{
    name.iter().all(|byte| is_allowed(*byte))
}

fn is_allowed(byte: u8) -> bool
    ensures { result ≡ is_name_byte byte }
{
    matches!(byte, b'a'..=b'z' | b'0'..=b'9' | b'_' | b'.' | b'-')
}
