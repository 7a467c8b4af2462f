// The slots of a version array: 512 of 8 bytes (SDM volume 3D, "Version Array").
ghost use Rattle.std.specs.Prelude.{◌≡◌, ℕ, ◌+◌, ◌*◌, ◌<◌, ◌≤◌, false, ◌==◌, length};
ghost use Rattle.std.specs.Option.{option_map};
ghost use Rattle.ak_model.specs.Flat.FlatRuns.{overwrite};
ghost use Rattle.ak_model.specs.Flat.Instructions.{le_bytes, number_at};
ghost use Rattle.ak_sealed.specs.SealedPages.{version, handle_in, number_of};

use ak_core::{Handle, PAGE_SIZE};

/// The slots of a version array.
pub const SLOTS: u16 = 512;

/// The bytes of a slot.
const SLOT_SIZE: usize = 8;

/// The number of the handle whose version is in a slot of a version array, or None where the slot is empty. Past the last slot each is.
pub fn slot(va: &[u8; PAGE_SIZE], i: u16) -> Option<u64>
    ensures { result ≡ handle_in (number_at va.now (8 * i) 8) }
{
    if i >= SLOTS {
        return None;
    }
    let start = usize::from(i) * SLOT_SIZE;
    let mut version = [0; SLOT_SIZE];
    version.copy_from_slice(&va[start..start + SLOT_SIZE]);
    u64::from_le_bytes(version).checked_sub(1)
}

/// Puts the version of a handle into a slot of a version array, or empties it. Its 8 bytes change and no others, and none where
/// there is no such slot.
pub fn set_slot(va: &mut [u8; PAGE_SIZE], i: u16, handle: Option<Handle>)
    ensures bytes { i < 512 → va.new ≡ overwrite va.old (8 * i) (le_bytes 8 (version (number_of handle))) }
    ensures slot { i < 512 → number_at va.new (8 * i) 8 ≡ version (number_of handle) }
    ensures others { (j : ℕ) → (j == i) ≡ false → number_at va.new (8 * j) 8 ≡ number_at va.old (8 * j) 8 }
    ensures outside { 512 ≤ i → va.new ≡ va.old }
    ensures length { length va.new ≡ length va.old }
{
    if i >= SLOTS {
        return;
    }
    let start = usize::from(i) * SLOT_SIZE;
    let version = match handle {
        Some(handle) => u64::from(handle.0) + 1,
        None => 0,
    };
    va[start..start + SLOT_SIZE].copy_from_slice(&version.to_le_bytes());
}
