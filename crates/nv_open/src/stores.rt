//! The stores of some names are opened.
ghost use Rattle.std.specs.Prelude.{◌≡◌, ◌++◌, true, IfErr, IsTrue, OnOk};
ghost use Rattle.nv_plain.specs.Layouts.{mount_layout};
ghost use Rattle.nv_plain.specs.Names.{is_name};
ghost use Rattle.nv_header.specs.FileNames.{AreFileNames};
ghost use Rattle.nv_open.specs.Lending.{AreOpened, AreBegun};

use nv_bench::{Bench, BenchError};
use nv_header::Names;
use nv_plain::Bytes;

/// Opens the stores of these names, and puts them behind those that are there. After an error those that were opened are.
pub(crate) fn open_stores<T: Bench>(
    bench: &mut T,
    names: &Names,
    stores: &mut Vec<T::Store>,
) -> Result<(), BenchError>
    requires open { (T.state bench.old).is_open ≡ true }
    requires names { AreFileNames mount_layout ((T.state bench.old).lent ++ names.now) }
    ensures opened { OnOk result (AreOpened T.Store.history T.Store.fault_count names.now (T.state bench.new).faults
        (T.state bench.old) (T.state bench.new) stores.old.items stores.new.items) }
    ensures begun { IfErr result (AreBegun T.Store.history T.Store.fault_count names.now
        (T.state bench.old) (T.state bench.new) stores.old.items stores.new.items) }
{
    let Ok(()) = stores.reserve(names.len()) else {
        return Err(BenchError::NoMemory);
    };
    for name in names.as_slice() {
        let store = bench.open_store(text_of(name))?;
        stores.push_reserved(store);
    }
    Ok(())
}

// A name as a text.
fn text_of(name: &Bytes) -> &str
    requires { IsTrue (is_name mount_layout.name_limit name.now) }
    ensures { result.now ≡ name.now }
{
    let Ok(text) = str::from_utf8(name.as_slice()) else {
        return "";
    };
    text
}
