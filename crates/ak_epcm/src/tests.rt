// Frames that are filled, blocked and released.
ghost use Rattle.std.specs.Prelude.{◌≡◌, ◌<◌, length};

use crate::Epcm;
use ak_core::{Entry, Frame, Page, PageType};
use std::test::Fail;

const REGULAR: Entry = Entry {
    valid: true,
    kind: PageType::Reg,
    page: Page(5),
    r: true,
    w: true,
    x: false,
    blocked: false,
};

const TCS: Entry = Entry {
    kind: PageType::Tcs,
    page: Page(7),
    r: false,
    w: false,
    ..REGULAR
};

const VERSIONS: Entry = Entry {
    kind: PageType::Va,
    page: Page(6),
    ..TCS
};

const FREE: Entry = Entry {
    valid: false,
    kind: PageType::Secs,
    page: Page(0),
    r: false,
    w: false,
    x: false,
    blocked: false,
};

// Sets a frame's entry, where the frame is free and no frame has the page.
fn put(epcm: &mut Epcm, f: Frame, e: Entry) -> Result<(), &'static str>
    requires { f.0 < length epcm.old }
    ensures { length epcm.new ≡ length epcm.old }
{
    if epcm.entry(f).valid {
        return Err("the frame is in use");
    }
    match epcm.frame_of(e.page) {
        Some(_) => Err("the page is in a frame"),
        None => {
            epcm.set(f, e);
            Ok(())
        }
    }
}

#[test]
fn a_new_epcm_is_free(rt: HostRuntime) -> Result<(), Fail> {
    let epcm = Epcm::new(rt.alloc(), 4)?;
    for f in [0, 3, 4, 4294967295] {
        assert_eq!(rt; epcm.entry(Frame(f)), FREE, "frame {f}");
    }
    for p in [0, 1, 4294967295] {
        assert_eq!(rt; epcm.frame_of(Page(p)), None, "page {p}");
    }
    Ok(())
}

#[test]
fn a_page_is_found_until_it_is_released(rt: HostRuntime) -> Result<(), Fail> {
    let mut epcm = Epcm::new(rt.alloc(), 4)?;
    put(&mut epcm, Frame(2), REGULAR)?;
    assert_eq!(rt; epcm.entry(Frame(2)), REGULAR);
    assert_eq!(rt; epcm.frame_of(Page(5)), Some(Frame(2)));
    assert_eq!(rt; epcm.frame_of(Page(2)), None);
    assert!(rt; epcm.entry(Frame(2)).valid);
    epcm.block(Frame(2));
    let blocked = Entry {
        blocked: true,
        ..REGULAR
    };
    assert_eq!(rt; epcm.entry(Frame(2)), blocked);
    assert_eq!(rt; epcm.entry(Frame(1)), FREE);
    assert_eq!(rt; epcm.frame_of(Page(5)), Some(Frame(2)));
    assert!(rt; epcm.entry(Frame(2)).valid);
    epcm.release(Frame(2));
    assert_eq!(rt; epcm.entry(Frame(2)), FREE);
    assert_eq!(rt; epcm.frame_of(Page(5)), None);
    Ok(())
}

#[test]
fn only_pages_with_an_address_are_found(rt: HostRuntime) -> Result<(), Fail> {
    let mut epcm = Epcm::new(rt.alloc(), 4)?;
    put(&mut epcm, Frame(3), TCS)?;
    put(&mut epcm, Frame(0), VERSIONS)?;
    put(&mut epcm, Frame(1), FREE)?;
    put(&mut epcm, Frame(1), REGULAR)?;
    assert_eq!(rt; epcm.frame_of(Page(7)), Some(Frame(3)));
    assert_eq!(rt; epcm.frame_of(Page(0)), None);
    assert_eq!(rt; epcm.frame_of(Page(5)), Some(Frame(1)));
    assert_eq!(rt; epcm.frame_of(Page(6)), None);
    assert_eq!(rt; epcm.entry(Frame(0)), VERSIONS);
    Ok(())
}
