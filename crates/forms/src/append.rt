ghost use Rattle.std.specs.Prelude.{◌≡◌, ◌++◌};
ghost use Rattle.words.specs.Faults.{Done};

use words::Fault;

// Appends bytes.
pub fn append_bytes(bytes: &[u8], out: &mut Vec<u8>) -> Result<(), Fault>
    ensures { Done result (out.new.items ≡ out.old.items ++ bytes.now) }
{
    out.extend_from_slice(bytes)?;
    Ok(())
}
