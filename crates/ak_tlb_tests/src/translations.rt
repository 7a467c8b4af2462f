// Translations that are overwritten, dropped and flushed.
use ak_core::{Frame, Kind, Page};
use ak_tlb::Tlb;

// The frame in which a read of the page is cached: each bit of its number is the other one.
fn frame_of(p: u32) -> Frame {
    Frame(!p)
}

// Caches a read of the page.
fn fill_read(tlb: &mut Tlb, p: u32) {
    tlb.fill(Page(p), Kind::Read, frame_of(p));
}

// The read is there, as `fill_read` cached it.
fn is_read(tlb: &Tlb, p: u32) -> bool {
    tlb.find(Page(p), Kind::Read) == Some(frame_of(p))
}

// The number of the frame that is found.
fn found(tlb: &Tlb, p: u32, k: Kind) -> Option<u32> {
    match tlb.find(Page(p), k) {
        Some(frame) => Some(frame.0),
        None => None,
    }
}

#[test]
fn one_access_at_a_time(rt: HostRuntime) {
    let mut tlb = Tlb::new();
    // What is cached, and after it the frames of a read, a write and a fetch of page 5, and of a read of page 4.
    let fills = [
        (5, Kind::Read, 9, [Some(9), None, None, None]),
        (5, Kind::Read, 10, [Some(10), None, None, None]),
        (5, Kind::Write, 10, [Some(10), Some(10), None, None]),
        (4, Kind::Exec, 11, [Some(10), Some(10), None, None]),
        (5, Kind::Exec, 12, [Some(10), Some(10), Some(12), None]),
        (
            4,
            Kind::Read,
            4294967295,
            [Some(10), Some(10), Some(12), Some(4294967295)],
        ),
        (
            5,
            Kind::Write,
            0,
            [Some(10), Some(0), Some(12), Some(4294967295)],
        ),
    ];
    for (p, k, f, frames) in fills {
        tlb.fill(Page(p), k, Frame(f));
        let now = [
            found(&tlb, 5, Kind::Read),
            found(&tlb, 5, Kind::Write),
            found(&tlb, 5, Kind::Exec),
            found(&tlb, 4, Kind::Read),
        ];
        assert_eq!(rt; now, frames, "after frame {f}");
    }
}

#[test]
fn the_65th(rt: HostRuntime) {
    let mut tlb = Tlb::new();
    for p in 0..64 {
        fill_read(&mut tlb, p);
    }
    // One that is there takes no place more.
    tlb.fill(Page(0), Kind::Read, Frame(1));
    tlb.fill(Page(10), Kind::Read, Frame(2));
    assert_eq!(rt; tlb.find(Page(0), Kind::Read), Some(Frame(1)));
    assert_eq!(rt; tlb.find(Page(10), Kind::Read), Some(Frame(2)));
    assert!(rt; is_read(&tlb, 1));
    // The one that came first goes, though it was overwritten since.
    fill_read(&mut tlb, 64);
    assert_eq!(rt; tlb.find(Page(0), Kind::Read), None);
    assert_eq!(rt; tlb.find(Page(10), Kind::Read), Some(Frame(2)));
    for p in [1, 2, 9, 11, 62, 63, 64] {
        assert!(rt; is_read(&tlb, p), "page {p}");
    }
    fill_read(&mut tlb, 0);
    assert!(rt; is_read(&tlb, 0));
    assert!(rt; !is_read(&tlb, 1));
    assert!(rt; is_read(&tlb, 2));
}

#[test]
fn five_of_one_remainder_and_a_flush(rt: HostRuntime) {
    let mut tlb = Tlb::new();
    let pages = [0, 16, 32, 48, 64];
    for p in pages {
        assert!(rt; !is_read(&tlb, p), "page {p} at first");
        fill_read(&mut tlb, p);
    }
    for p in pages {
        assert!(rt; is_read(&tlb, p), "page {p}");
    }
    tlb.flush();
    for p in pages {
        assert_eq!(rt;
            tlb.find(Page(p), Kind::Read),
            None,
            "page {p} after the flush"
        );
    }
    fill_read(&mut tlb, 0);
    assert!(rt; is_read(&tlb, 0));
    assert!(rt; !is_read(&tlb, 16));
}
