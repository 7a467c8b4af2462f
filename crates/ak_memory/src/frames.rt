// The bytes of frames, and bytes that are put into frames.
ghost use Rattle.std.specs.Prelude.{◌≡◌, ◌<◌, ◌≤◌, ◌+◌, true, length, slice_set};
ghost use Rattle.ak_core.specs.Mem.{put_at};
ghost use Rattle.ak_epcm.specs.Entries.{entry_at, is_of_page};
ghost use Rattle.ak_encls.specs.Enclave.{frame_at};

use ak_core::{Frame, PAGE_SIZE};
use ak_encls::Encls;

/// The bytes of a frame.
pub(crate) fn bytes_in(encls: &Encls, f: Frame) -> &[u8]
    requires { f.0 < length encls.now.entries }
    ensures bytes { result.now ≡ frame_at encls.now.frames f.0 }
    ensures whole { length (frame_at encls.now.frames f.0) ≡ PAGE_SIZE }
{
    all_bytes(encls.frame(f))
}

/// Puts a byte into a frame that holds a page of the enclave.
pub(crate) fn put_byte(encls: &mut Encls, f: Frame, offset: usize, value: u8)
    requires page { is_of_page (entry_at encls.old.entries f.0) ≡ true }
    requires offset { offset < 4096 }
    ensures within { f.0 < length encls.old.frames }
    ensures whole { length (frame_at encls.old.frames f.0) ≡ PAGE_SIZE }
    ensures frames { encls.new ≡ record encls.old { frames = slice_set encls.old.frames f.0 (slice_set (frame_at encls.old.frames f.0) offset value) } }
{
    set_byte(encls.frame_mut(f), offset, value);
}

/// Puts bytes into a frame that holds a page of the enclave.
pub(crate) fn put_bytes(encls: &mut Encls, f: Frame, start: usize, from: &[u8])
    requires page { is_of_page (entry_at encls.old.entries f.0) ≡ true }
    requires inside { start + length from.now ≤ 4096 }
    ensures within { f.0 < length encls.old.frames }
    ensures whole { length (frame_at encls.old.frames f.0) ≡ PAGE_SIZE }
    ensures frames { encls.new ≡ record encls.old { frames = slice_set encls.old.frames f.0 (put_at (frame_at encls.old.frames f.0) start from.now) } }
{
    set_bytes(encls.frame_mut(f), start, from);
}

/// Puts 4096 bytes into a frame that holds a page of the enclave.
pub(crate) fn put_page(encls: &mut Encls, f: Frame, from: &[u8])
    requires page { is_of_page (entry_at encls.old.entries f.0) ≡ true }
    requires length { length from.now ≡ 4096 }
    ensures within { f.0 < length encls.old.frames }
    ensures whole { length (frame_at encls.old.frames f.0) ≡ PAGE_SIZE }
    ensures frames { encls.new ≡ record encls.old { frames = slice_set encls.old.frames f.0 from.now } }
{
    set_page(encls.frame_mut(f), from);
}

/// The bytes of a page.
#[inline(always)]
fn all_bytes(page: &[u8; PAGE_SIZE]) -> &[u8]
    ensures page { result.now ≡ page.now }
    ensures whole { length page.now ≡ PAGE_SIZE }
{
    page
}

/// Puts a byte into a page.
#[inline(always)]
fn set_byte(page: &mut [u8; PAGE_SIZE], offset: usize, value: u8)
    requires { offset < 4096 }
    ensures page { page.new ≡ slice_set page.old offset value }
    ensures whole { length page.old ≡ PAGE_SIZE }
{
    page[offset] = value;
}

/// Puts bytes into a page.
#[inline(always)]
fn set_bytes(page: &mut [u8; PAGE_SIZE], start: usize, from: &[u8])
    requires { start + length from.now ≤ 4096 }
    ensures page { page.new ≡ put_at page.old start from.now }
    ensures whole { length page.old ≡ PAGE_SIZE }
{
    page[start..start + from.len()].copy_from_slice(from);
}

/// Puts 4096 bytes in place of those of a page.
#[inline(always)]
fn set_page(page: &mut [u8; PAGE_SIZE], from: &[u8])
    requires { length from.now ≡ 4096 }
    ensures page { page.new ≡ from.now }
    ensures whole { length page.old ≡ PAGE_SIZE }
{
    page.copy_from_slice(from);
}
