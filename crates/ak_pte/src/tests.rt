// A page that was set, and the pages beside it.

use crate::{PageTable, Pte};
use ak_core::{Flags, Frame, Page};
use std::test::Fail;

const NO_FLAGS: Flags = Flags {
    p: false,
    w: false,
    x: false,
    a: false,
    d: false,
};

const UNMAPPED: Pte = Pte {
    frame: Frame(0),
    flags: NO_FLAGS,
};

#[test]
fn a_new_table_maps_nothing(rt: HostRuntime) -> Result<(), Fail> {
    let table = PageTable::new(rt.alloc(), 3)?;
    assert_eq!(rt; table.get(Page(0)), UNMAPPED);
    assert_eq!(rt; table.get(Page(1)), UNMAPPED);
    assert_eq!(rt; table.get(Page(2)), UNMAPPED);
    Ok(())
}

#[test]
fn a_page_is_as_last_set_and_the_others_stay(rt: HostRuntime) -> Result<(), Fail> {
    let mut table = PageTable::new(rt.alloc(), 3)?;
    let first = Pte {
        frame: Frame(7),
        flags: Flags {
            p: true,
            ..NO_FLAGS
        },
    };
    let second = Pte {
        frame: Frame(4294967295),
        flags: Flags {
            d: true,
            ..NO_FLAGS
        },
    };
    table.set(Page(1), first);
    assert_eq!(rt; table.get(Page(1)), first);
    table.set(Page(1), second);
    table.set(Page(2), first);
    assert_eq!(rt; table.get(Page(0)), UNMAPPED);
    assert_eq!(rt; table.get(Page(1)), second);
    assert_eq!(rt; table.get(Page(2)), first);
    Ok(())
}
