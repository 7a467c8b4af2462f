// Images built with signers of them and of others.
ghost use Rattle.std.specs.Prelude.{◌≤◌};

use ak_build::build;
use ak_core::{Answer, BuildFault, Frame, Handle, Move, Page, PageType};
use ak_image::Image;
use ak_measure::Signers;
use std::alloc::Global;
use std::process::Abort;
use std::test::Fail;

/// Two names of one cluster, and a third page.
const THREE: &str = "version = 1
base = 0x10000000
entry = 4097
budget = 3
signer = 'lab'
[[page]]
perms = 'rx'
cluster = 'one'
bytes = '00aAfF'
[[page]]
perms = 'r'
cluster = 'two'
bytes = ''
[[page]]
perms = 'rw'
cluster = 'one'
bytes = '01'
";

/// Its measurement by another program, which packs the blocks and hashes them.
const SIGNED: &str = "lab = ['3b09f6a9e55acc86f839e12f3543982c864ca51fe657de406039aee680155b60']";

/// Another digest.
const OTHER: &str = "lab = ['0000000000000000000000000000000000000000000000000000000000000000']";

/// The image is not built, for this reason.
fn is_refused(
    rt: &impl Abort,
    alloc: Global,
    image: &Image,
    signers: &str,
    fault: BuildFault,
) -> Result<(), Fail> {
    let signers = Signers::read(alloc, signers.as_bytes())?;
    match build(alloc, image, &signers, 9, 1) {
        Ok(_) => Err(Fail::new("it is built")),
        Err(found) => {
            assert_eq!(rt; found, fault);
            Ok(())
        }
    }
}

#[test]
fn only_signed_images_are_built(rt: HostRuntime) -> Result<(), Fail> {
    let alloc = rt.alloc();
    let image = Image::read(alloc, THREE.as_bytes())?;
    is_refused(&rt, alloc, &image, "", BuildFault::UnknownSigner)?;
    is_refused(&rt, alloc, &image, "bal = []", BuildFault::UnknownSigner)?;
    is_refused(
        &rt,
        alloc,
        &image,
        "lab = []",
        BuildFault::MeasurementNotSigned,
    )?;
    is_refused(&rt, alloc, &image, OTHER, BuildFault::MeasurementNotSigned)
}

/// The enclave is built in so many frames for so many processors. What its frames hold, and that its pages can be loaded.
fn is_built(rt: &impl Abort, alloc: Global, frames: u32, lps: u8) -> Result<(), Fail>
    requires some_frames { 9 ≤ frames }
    requires few_frames { frames ≤ 8192 }
    requires some_lp { 1 ≤ lps }
    requires few_lps { lps ≤ 4 }
{
    let image = Image::read(alloc, THREE.as_bytes())?;
    let signers = Signers::read(alloc, SIGNED.as_bytes())?;
    let mut built = match build(alloc, &image, &signers, frames, lps) {
        Ok(built) => built,
        Err(fault) => return Err(fault.into()),
    };
    for (frame, kind, page) in [
        (0, PageType::Secs, 0),
        (1, PageType::Va, 0),
        (2, PageType::Tcs, 3),
        (3, PageType::Reg, 4),
        (7, PageType::Reg, 8),
    ] {
        let entry = built.encls.epcm().entry(Frame(frame));
        assert!(rt; entry.valid && !entry.blocked, "frame {frame}");
        assert_eq!(rt; entry.kind, kind, "frame {frame}");
        assert_eq!(rt; entry.page.0, page, "frame {frame}");
    }
    for frame in [8, frames - 1, frames] {
        assert!(rt;
            !built.encls.epcm().entry(Frame(frame)).valid,
            "frame {frame}"
        );
    }
    for (page, slot, answer) in [
        (1, 0, Answer::MacFail),
        (0, 1, Answer::MacFail),
        (0, 3, Answer::SlotEmpty),
        (0, 0, Answer::Ok),
    ] {
        let load = Move::Eldu(Frame(8), Handle(0), Page(page), Frame(1), slot);
        assert_eq!(rt; built.encls.leaf(&load), answer, "page {page} slot {slot}");
    }
    assert_eq!(rt; built.encls.epcm().entry(Frame(8)).page.0, 0);
    Ok(())
}

#[test]
fn builds_in_few_and_in_many_frames(rt: HostRuntime) -> Result<(), Fail> {
    is_built(&rt, rt.alloc(), 9, 1)?;
    is_built(&rt, rt.alloc(), 8192, 4)
}
