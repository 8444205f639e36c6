//! Listing parts of a module.
ghost use Rattle.std.specs.Prelude.{◌≡◌, ◌-◌, ◌<◌, ◌^◌, false, OnOk, OnErr};
ghost use Rattle.std.specs.Io.KnownBytes.{Appends};
ghost use Rattle.std.specs.List.{flat_map, list_any};
ghost use Rattle.wk_bytes.specs.Taken.{TakesFront};
ghost use Rattle.wk_list.specs.Listing.{listing, lists_bodies};
ghost use Rattle.wk_list.specs.Taken.{failed_after};

use std::alloc::Global;
use wk_bytes::Out;
use wk_list::{ListFault, Part, Shape, Summary, list, list_summary};

/// Lists these parts of a module, one behind the other.
///
/// # Errors
///
/// `Write` only where the [`Out`] failed in this call, and else `Memory` where a growth was refused. After either a beginning of the
/// parts was taken.
pub fn list_parts<S: Shape, X: Out>(
    alloc: Global,
    shape: &S,
    parts: &[Part],
    out: &mut X,
) -> Result<(), ListFault>
    requires { X.failed out.old < 2 ^ 64 - 1 }
    ensures ok { OnOk result
        (Appends (X.taken out.old) (X.taken out.new)
        (flat_map (listing (S.seen shape.now)) parts.now)) }
    ensures err { OnErr result
        (TakesFront (X.taken out.old) (X.taken out.new)
        (flat_map (listing (S.seen shape.now)) parts.now)) }
    ensures failures { X.failed out.new ≡ failed_after (X.failed out.old) result }
{
    for part in parts {
        list(alloc, shape, *part, out)?;
    }
    Ok(())
}

/// Whether one of the parts tells what stands in bodies, so that the module has to be read with them.
pub fn list_bodies(parts: &[Part]) -> bool
    ensures { result ≡ list_any lists_bodies parts.now }
{
    parts.iter().any(|part| part.lists_bodies())
}

/// Lists these parts of a module whose bodies were not kept, one behind the other, as [`list_parts`] does of the whole module. None
/// of them is [`Code`](Part::Code) or [`Uses`](Part::Uses), which tell of bodies.
///
/// # Errors
///
/// `Write` only where the [`Out`] failed in this call, and else `Memory` where a growth was refused. After either a beginning of the
/// parts was taken.
pub fn list_summary_parts<X: Out>(
    alloc: Global,
    summary: &Summary<'_>,
    parts: &[Part],
    out: &mut X,
) -> Result<(), ListFault>
    requires room { X.failed out.old < 2 ^ 64 - 1 }
    requires parts { list_any lists_bodies parts.now ≡ false }
    ensures ok { OnOk result
        (Appends (X.taken out.old) (X.taken out.new) (flat_map (listing summary.now) parts.now)) }
    ensures err { OnErr result
        (TakesFront (X.taken out.old) (X.taken out.new)
        (flat_map (listing summary.now) parts.now)) }
    ensures failures { X.failed out.new ≡ failed_after (X.failed out.old) result }
{
    for part in parts {
        list_summary(alloc, summary, *part, out)?;
    }
    Ok(())
}
