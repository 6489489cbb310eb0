//! The version of the library.
ghost use Rattle.std.specs.Prelude.{◌≡◌, ◌≢◌, ◌<◌, ◌≤◌, codes, length, take};

use crate::answer::answer;

/// Writes the version, as `AIG_VERSION` of the header that belongs to this library. It takes no memory.
#[unsafe(no_mangle)]
pub extern "C" fn aig_version(room: &mut [u8], written: &mut usize) -> u8
    ensures done { result ≡ 0 → take written.new room.new ≡ codes "0.4.0" }
    ensures no_room { result ≡ 2 → length room.old < length (codes "0.4.0") }
    ensures inside { result ≤ 1 → written.new ≤ length room.old }
    ensures kept { 1 < result → (room.new ≡ room.old) × (written.new ≡ written.old) }
    ensures statuses { (result ≢ 1) × (result ≤ 3) }
{
    answer(b"0.4.0", room, written)
}
