// What an image becomes: its layout, and measurements by another program.
use crate::spelling::{document, push_page};
use ak_core::Perm;
use ak_image::Image;
use std::alloc::Global;
use std::process::Abort;
use std::test::Fail;

/// Two names of one cluster, and a third page.
const THREE: &str = "version = 1
base = 0x10000000
entry = 4097
budget = 3
signer = 'lab'
[[page]]
perms = 'rx'
cluster = 'one'
bytes = '00aAfF'
[[page]]
perms = 'r'
cluster = 'two'
bytes = ''
[[page]]
perms = 'rw'
cluster = \"o\\u006ee\"
bytes = '01'
";

#[test]
fn layouts(rt: HostRuntime) -> Result<(), Fail> {
    let alloc = rt.alloc();
    let image = Image::read(alloc, THREE.as_bytes())?;
    let Ok(layout) = image.layout(alloc, 11, 1) else {
        return Err(Fail::new("no layout"));
    };
    assert_eq!(rt; layout.perms(), [Perm::Rx, Perm::R, Perm::Rw].as_slice());
    assert_eq!(rt; layout.cluster_of(), [0, 1, 0].as_slice());
    Ok(())
}

/// The image has this measurement by another program, which packs the blocks and hashes them.
fn measure(rt: &impl Abort, alloc: Global, text: &str, wanted: &str) -> Result<(), Fail> {
    let image = Image::read(alloc, text.as_bytes())?;
    let digest = hex::encode(alloc, image.digest())?;
    assert_eq!(rt; digest.as_str(), wanted);
    Ok(())
}

/// The bytes of a program that calls twice.
const CALLS: &str =
    "48b8040000000000000048bf010000000000000048be07000000000000000f01d748b8040000000000000048bf000000000000000048be00000000000000000f01d7";

#[test]
fn measurements(rt: HostRuntime) -> Result<(), Fail> {
    let alloc = rt.alloc();
    let mut one = document(alloc, "1 268435456 0 1")?;
    push_page(&mut one, "rx", CALLS, 'a')?;
    measure(
        &rt,
        alloc,
        one.as_str(),
        "81f1c6072e43803617cc2c3f80323b5ae505ee1cec1d94374ef6c34e6da9f718",
    )?;
    measure(
        &rt,
        alloc,
        THREE,
        "3b09f6a9e55acc86f839e12f3543982c864ca51fe657de406039aee680155b60",
    )
}
