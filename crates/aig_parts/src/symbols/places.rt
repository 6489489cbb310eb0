//! Names that lie one after another in one list of bytes.
ghost use Rattle.std.specs.Prelude.{◌≡◌, ◌++◌, ◌≤◌, length, slice_range, IfOk, OnOk, OnErr};

use std::alloc::AllocError;

/// Where a name begins in the list of bytes, and where it ends. Names take less than 4 GB together, so that an entry
/// takes 16 bytes.
#[derive(Clone, Copy, Debug)]
pub(crate) struct Place {
    start: u32,
    end: u32,
}

/// Puts a name after the others. Where memory is refused, or the names would take 4 GB, nothing changes.
pub(crate) fn put_name(text: &mut Vec<u8>, name: &[u8]) -> Result<Place, AllocError>
    ensures place { IfOk result (λ p. (p.start ≡ length text.old.items) × (p.end ≡ length text.new.items)) }
    ensures ok { OnOk result (text.new.items ≡ text.old.items ++ name.now) }
    ensures err { OnErr result (text.new.items ≡ text.old.items) }
{
    if text.len().saturating_add(name.len()) > u32::MAX as usize {
        return Err(AllocError);
    }
    text.extend_from_slice(name)?;
    let end = text.len();
    Ok(Place {
        start: (end - name.len()) as u32,
        end: end as u32,
    })
}

/// The name that stands there.
pub(crate) fn name_at(text: &[u8], place: Place) -> &[u8]
    requires ordered { place.start ≤ place.end }
    requires within { place.end ≤ length text.now }
    ensures { result.now ≡ slice_range text.now place.start place.end }
{
    &text[place.start as usize..place.end as usize]
}
