// Pages that are sealed, found, copied out and discarded.
use ak_core::{Entry, Handle, PAGE_SIZE, Page, PageType};
use ak_sealed::Sealed;
use std::test::Fail;

const REGULAR: Entry = Entry {
    valid: true,
    kind: PageType::Reg,
    page: Page(5),
    r: true,
    w: true,
    x: false,
    blocked: true,
};

const TCS: Entry = Entry {
    kind: PageType::Tcs,
    page: Page(7),
    r: false,
    w: false,
    ..REGULAR
};

/// The entry as a load gives it.
fn loaded(entry: Entry) -> Entry {
    Entry {
        blocked: false,
        ..entry
    }
}

#[test]
fn pages_are_kept_until_they_are_discarded(rt: HostRuntime) -> Result<(), Fail> {
    let mut sealed = Sealed::new(rt.alloc());
    for number in [0, 1, 4294967295] {
        assert_eq!(rt;
            sealed.find(Handle(number)),
            None,
            "handle {number} of none"
        );
    }
    assert!(rt; !sealed.discard(Handle(0)), "handle 0 of none");
    sealed.reserve(3)?;
    let first = sealed.put(REGULAR, &[1; PAGE_SIZE]);
    let second = sealed.put(TCS, &[2; PAGE_SIZE]);
    assert_eq!(rt; (first, second), (Handle(0), Handle(1)));
    assert_eq!(rt; sealed.find(first), Some(loaded(REGULAR)));
    assert_eq!(rt; sealed.find(second), Some(loaded(TCS)));
    let mut bytes = [0; PAGE_SIZE];
    sealed.copy_out(first, &mut bytes);
    assert!(rt; bytes == [1; PAGE_SIZE], "bytes of the first");
    sealed.copy_out(second, &mut bytes);
    assert!(rt; bytes == [2; PAGE_SIZE], "bytes of the second");
    // a number that was discarded is not given again
    assert!(rt; sealed.discard(second));
    assert!(rt; !sealed.discard(second));
    let third = sealed.put(REGULAR, &[3; PAGE_SIZE]);
    assert_eq!(rt; third, Handle(2));
    assert_eq!(rt; sealed.find(first), Some(loaded(REGULAR)));
    assert_eq!(rt; sealed.find(second), None);
    assert_eq!(rt; sealed.find(third), Some(loaded(REGULAR)));
    assert_eq!(rt; sealed.find(Handle(3)), None);
    Ok(())
}
