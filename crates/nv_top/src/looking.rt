//! A look at the region of a bench, and its report.
ghost use Rattle.std.specs.Prelude.{◌≡◌, [], Err, IfOk, IfSome};
ghost use Rattle.nv_top.specs.Commands.{HasLooked, IsLookedAt, IsNotShown};
ghost use Rattle.nv_top.specs.Ready.{IsAtHome};
ghost use Rattle.nv_top.specs.Stops.{CountHasCause};
ghost use Rattle.nv_top.specs.declared.ending.Stop.TheVariants as stops;

use crate::ending::Stop;
use nv_bench::Bench;
use nv_open::{look_at_files, look_at_region};
use std::alloc::Global;

/// Looks at the region of a bench, and at its files where these are asked for. The text that shows it.
pub(crate) fn look<T: Bench>(alloc: Global, bench: &mut T, files: bool) -> Result<Vec<u8>, Stop>
    requires at_home { IsAtHome (T.state bench.old) }
    ensures left { IsLookedAt files (T.state bench.old) (T.state bench.new) }
    ensures shown { IfOk result (λ text. IfSome (T.state bench.old).told (λ holding. HasLooked files holding text.items)) }
    ensures refused { (why : _) → result ≡ Err (stops.Region why) → IfSome (T.state bench.old).told (λ holding. IsNotShown files holding why) }
    ensures cause { CountHasCause (T.state bench.old).faults (T.state bench.new).faults result }
{
    let text = if files {
        look_at_files(alloc, bench)?
    } else {
        look_at_region(alloc, bench)?
    };
    Ok(text.into_vec())
}
