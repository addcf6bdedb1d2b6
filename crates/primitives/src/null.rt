//! Contents octets of a NULL (X.690 8.8).

ghost use Rattle.std.specs.Prelude.{◌↔◌, IsSome, IsOk, OnOk};
ghost use Rattle.octets.specs.Front.{Appends};
ghost use Rattle.primitives.specs.Null.{IsNull};

use octets::NoMemory;

/// Whether there are no contents octets, as NULL has (X.690 8.8.2). Takes no memory.
pub fn read_null(contents: &[u8]) -> Option<()>
    ensures { IsSome result ↔ IsNull contents.now }
{
    if contents.is_empty() { Some(()) } else { None }
}

/// Appends the contents octets of a NULL: none, so nothing changes and no memory is taken.
pub fn put_null(out: &mut Vec<u8>) -> Result<(), NoMemory>
    ensures appended { OnOk result (Appends IsNull out.old.items out.new.items) }
    ensures always { IsOk result }
{
    let _ = out;
    Ok(())
}
