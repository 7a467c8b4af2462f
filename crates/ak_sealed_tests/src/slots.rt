// Handles in the slots of a version array.
use ak_core::{Handle, PAGE_SIZE};
use ak_sealed::{set_slot, slot};
use std::test::Fail;

#[test]
fn slots_hold_versions(rt: HostRuntime) -> Result<(), Fail> {
    let mut va = [0; PAGE_SIZE];
    // the slot, the handle, and the bytes of the slot
    let cases = [
        (0, Some(Handle(0)), Some(0), [1, 0, 0, 0, 0, 0, 0, 0]),
        (1, Some(Handle(255)), Some(255), [0, 1, 0, 0, 0, 0, 0, 0]),
        (
            511,
            Some(Handle(4294967295)),
            Some(4294967295),
            [0, 0, 0, 0, 1, 0, 0, 0],
        ),
        (1, None, None, [0, 0, 0, 0, 0, 0, 0, 0]),
    ];
    for (i, handle, number, bytes) in cases {
        set_slot(&mut va, i, handle);
        assert_eq!(rt; slot(&va, i), number, "slot {i}");
        let start = usize::from(i) * 8;
        assert!(rt;
            va.get(start..start + 8) == Some(&bytes[..]),
            "bytes of slot {i}"
        );
    }
    set_slot(&mut va, 512, Some(Handle(7)));
    let whole = [
        (0, Some(0)),
        (1, None),
        (2, None),
        (510, None),
        (511, Some(4294967295)),
        (512, None),
        (65535, None),
    ];
    for (i, number) in whole {
        assert_eq!(rt; slot(&va, i), number, "slot {i} at the end");
    }
    Ok(())
}
