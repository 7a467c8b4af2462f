// The build of an enclave, in the order in which its pages are measured: those of the program, and then the runtime's six.
ghost use Rattle.std.specs.Prelude.{◌≡◌, ◌+◌, ◌^◌, ◌<◌, ◌≤◌, true, length, IfOk, OnOk};
ghost use Rattle.ak_epcm.specs.Entries.{is_addressed};
ghost use Rattle.ak_encls.specs.Building.{IsNotSealed, HasOnlyCycled};
ghost use Rattle.ak_encls_tests.specs.Built.{AreSealedBelow};

use ak_core::{Frame, PAGE_SIZE, Page, PageType, Perm};
use ak_encls::{Encls, InitFault};
use ak_measure::Signers;
use std::alloc::Global;
use std::test::Fail;

/// What the pages of an enclave hold.
#[derive(Clone, Copy)]
pub enum Image {
    /// Each byte of a page is the page's number and one. The program's pages are `r`, `rw` and `rx` in turns.
    Numbered,
    /// One page of the program, which calls out twice.
    Calling,
}

/// The program of the image that calls out: it shows 7, and ends.
const CALLS: [u8; 66] = [
    0x48, 0xb8, 4, 0, 0, 0, 0, 0, 0, 0, 0x48, 0xbf, 1, 0, 0, 0, 0, 0, 0, 0, 0x48, 0xbe, 7, 0, 0, 0,
    0, 0, 0, 0, 0x0f, 0x01, 0xd7, 0x48, 0xb8, 4, 0, 0, 0, 0, 0, 0, 0, 0x48, 0xbf, 0, 0, 0, 0, 0, 0,
    0, 0, 0x48, 0xbe, 0, 0, 0, 0, 0, 0, 0, 0, 0x0f, 0x01, 0xd7,
];

/// The bytes of its pages that are not zero, after the program's: those of the TCS, and of CODE.
fn calling_bytes(p: Page) -> [u8; PAGE_SIZE] {
    let mut bytes = [0; PAGE_SIZE];
    match p {
        Page(0) => bytes[..66].copy_from_slice(&CALLS),
        Page(1) => {
            bytes[17] = 0x20;
            bytes[28] = 3;
            bytes[33] = 0x60;
        }
        Page(6) => {
            bytes[1026] = 2;
            bytes[3072] = 1;
        }
        _ => {}
    }
    bytes
}

impl Image {
    /// The size of the enclave in bytes.
    fn size(self) -> u64 {
        match self {
            Image::Numbered => 131_072,
            Image::Calling => 32_768,
        }
    }

    /// The bytes of a page.
    fn bytes(self, p: Page) -> [u8; PAGE_SIZE] {
        match self {
            Image::Numbered => [(p.0 % 255) as u8 + 1; PAGE_SIZE],
            Image::Calling => calling_bytes(p),
        }
    }

    /// The permission of a page of the program.
    fn perm(self, p: Page) -> Perm {
        match (self, p.0 % 3) {
            (Image::Numbered, 0) => Perm::R,
            (Image::Numbered, 1) => Perm::Rw,
            _ => Perm::Rx,
        }
    }
}

/// The type of the runtime's i-th page: the TCS comes first.
fn runtime_type(i: u32) -> PageType
    ensures { is_addressed result ≡ true }
{
    match i {
        0 => PageType::Tcs,
        _ => PageType::Reg,
    }
}

/// Its permission: CODE is the last of the six.
fn runtime_perm(i: u32) -> Perm {
    match i {
        5 => Perm::Rx,
        _ => Perm::Rw,
    }
}

/// Adds a page in a frame that is free, where no frame has the page.
fn add(
    encls: &mut Encls,
    f: Frame,
    p: Page,
    kind: PageType,
    perm: Perm,
    bytes: &[u8; PAGE_SIZE],
) -> Result<(), &'static str>
    requires within { f.0 < length encls.old.entries }
    requires kind { is_addressed kind ≡ true }
    requires not_sealed { IsNotSealed encls.old.handles p.0 }
    ensures frames { length encls.new.entries ≡ length encls.old.entries }
    ensures handles { encls.new.handles ≡ encls.old.handles }
{
    if encls.epcm().entry(f).valid {
        return Err("the frame is in use");
    }
    match encls.epcm().frame_of(p) {
        Some(_) => Err("a frame has the page"),
        None => {
            encls.add_page(f, p, kind, perm, bytes);
            Ok(())
        }
    }
}

/// Adds a page of the program, through frame 8, into the slot of frame 1 that has its number.
fn add_sealed(
    encls: &mut Encls,
    p: Page,
    perm: Perm,
    bytes: &[u8; PAGE_SIZE],
) -> Result<(), &'static str>
    requires within { 8 < length encls.old.entries }
    requires page { p.0 < 16 }
    requires sealed { AreSealedBelow encls.old.handles p.0 }
    requires spare { 0 < encls.old.handles.spare }
    requires unentered { HasOnlyCycled encls.old.track }
    requires cycles { encls.old.track.cycles < 2 ^ 63 }
    ensures frames { length encls.new.entries ≡ length encls.old.entries }
    ensures given { OnOk result (length encls.new.handles.sealed_pages ≡ length encls.old.handles.sealed_pages + 1) }
    ensures sealed { OnOk result (AreSealedBelow encls.new.handles (p.0 + 1)) }
    ensures spare { OnOk result (encls.new.handles.spare + 1 ≡ encls.old.handles.spare) }
    ensures unentered { OnOk result (HasOnlyCycled encls.new.track) }
    ensures cycles { OnOk result (encls.new.track.cycles ≡ encls.old.track.cycles + 1) }
{
    let va = encls.epcm().entry(Frame(1));
    if !va.valid || va.kind != PageType::Va {
        return Err("there is no VA page");
    }
    if encls.epcm().entry(Frame(8)).valid {
        return Err("the frame is in use");
    }
    match encls.epcm().frame_of(p) {
        Some(_) => Err("a frame has the page"),
        None => {
            encls.add_sealed_page(Frame(8), p, perm, bytes, Frame(1), p.0 as u16);
            Ok(())
        }
    }
}

/// Adds the pages of the program, each of which is written out at once, under the handle and into the slot of its number.
fn add_program(encls: &mut Encls, image: Image, pages: u32) -> Result<(), &'static str>
    requires within { 8 < length encls.old.entries }
    requires pages { pages ≤ 16 }
    requires none { length encls.old.handles.sealed_pages ≡ 0 }
    requires sealed { AreSealedBelow encls.old.handles 0 }
    requires spare { pages ≤ encls.old.handles.spare }
    requires unentered { HasOnlyCycled encls.old.track }
    requires cycles { encls.old.track.cycles ≡ 0 }
    ensures frames { OnOk result (length encls.new.entries ≡ length encls.old.entries) }
    ensures given { OnOk result (length encls.new.handles.sealed_pages ≡ pages) }
    ensures sealed { OnOk result (AreSealedBelow encls.new.handles pages) }
{
    for p in 0..pages {
        let page = Page(p);
        add_sealed(encls, page, image.perm(page), &image.bytes(page))?;
    }
    Ok(())
}

/// Adds the six pages of the runtime, in frames 2 to 7.
fn add_runtime(encls: &mut Encls, image: Image, pages: u32) -> Result<(), &'static str>
    requires within { 8 < length encls.old.entries }
    requires pages { pages ≤ 16 }
    requires sealed { AreSealedBelow encls.old.handles pages }
    ensures frames { OnOk result (length encls.new.entries ≡ length encls.old.entries) }
    ensures handles { OnOk result (encls.new.handles ≡ encls.old.handles) }
{
    for i in 0..6 {
        let page = Page(pages + i);
        let bytes = image.bytes(page);
        add(
            encls,
            Frame(2 + i),
            page,
            runtime_type(i),
            runtime_perm(i),
            &bytes,
        )?;
    }
    Ok(())
}

/// The enclave as the build leaves it: the SECS in frame 0, a VA page in frame 1, the runtime's pages in frames 2 to 7, and the
/// program's written out. Frames 8 and above are free.
pub fn build(alloc: Global, image: Image, pages: u32, frames: u32, lps: u8) -> Result<Encls, Fail>
    ensures { IfOk result (λ encls. length encls.handles.sealed_pages ≤ 16) }
{
    if pages > 16 || frames < 9 || lps > 4 {
        return Err(Fail::new("no such build"));
    }
    let mut encls = Encls::ecreate(alloc, image.size(), frames, lps)?;
    encls.reserve(pages)?;
    encls.add_va(Frame(1));
    add_program(&mut encls, image, pages)?;
    add_runtime(&mut encls, image, pages)?;
    Ok(encls)
}

/// Signers of SHA-256 of the 36,352 bytes of the calling image's blocks, by Python's hashlib, and of another digest.
const SIGNERS: &[u8] =
    b"lab = ['81f1c6072e43803617cc2c3f80323b5ae505ee1cec1d94374ef6c34e6da9f718']\nother = ['0000000000000000000000000000000000000000000000000000000000000000']\n";

#[test]
fn the_measurement_is_signed(rt: HostRuntime) -> Result<(), Fail> {
    let encls = build(rt.alloc(), Image::Calling, 1, 9, 1)?;
    let signers = Signers::read(rt.alloc(), SIGNERS)?;
    assert_eq!(rt; encls.einit(&signers, "lab"), Ok(()));
    assert_eq!(rt;
        encls.einit(&signers, "other"),
        Err(InitFault::MeasurementNotSigned)
    );
    assert_eq!(rt;
        encls.einit(&signers, "nobody"),
        Err(InitFault::UnknownSigner)
    );
    Ok(())
}
