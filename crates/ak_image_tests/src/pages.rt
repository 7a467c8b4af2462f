// The texts of a page: its permission and its bytes.
use crate::spelling::{document, push_page, read};
use std::alloc::Global;
use std::process::Abort;
use std::test::Fail;

/// Reading a document of one page tells this fault, or none.
fn read_page(
    rt: &impl Abort,
    alloc: Global,
    perms: &str,
    bytes: &str,
    wanted: &str,
) -> Result<(), Fail> {
    let mut text = document(alloc, "1 0 0 1")?;
    push_page(&mut text, perms, bytes, 'a')?;
    read(rt, alloc, text.as_str(), wanted)
}

/// A page's permission and bytes, and the fault.
const PAGES: &str = "\
rw,eeeeAfF0,None
rw,ee 00,Some(PageBytes(Page(0)))
rw,0x00,Some(PageBytes(Page(0)))
rw,:0,Some(PageBytes(Page(0)))
rw,G0,Some(PageBytes(Page(0)))
rw,0g,Some(PageBytes(Page(0)))
rwx,,Some(PagePerm(Page(0)))
wx,e,Some(PagePerm(Page(0)))
R,,Some(PagePerm(Page(0)))
r ,,Some(PagePerm(Page(0)))
,,Some(PagePerm(Page(0)))";

#[test]
fn texts_of_a_page(rt: HostRuntime) -> Result<(), Fail> {
    let alloc = rt.alloc();
    for case in PAGES.lines() {
        let Some((page, wanted)) = case.rsplit_once(',') else {
            return Err(Fail::new("no fault"));
        };
        let Some((perms, bytes)) = page.split_once(',') else {
            return Err(Fail::new("no bytes"));
        };
        read_page(&rt, alloc, perms, bytes, wanted)?;
    }
    Ok(())
}

#[test]
fn longest_page(rt: HostRuntime) -> Result<(), Fail> {
    let alloc = rt.alloc();
    let mut digits = String::new(alloc);
    for _ in 0..8192 {
        digits.push_str("e")?;
    }
    read_page(&rt, alloc, "rx", digits.as_str(), "None")?;
    digits.push_str("e")?;
    read_page(
        &rt,
        alloc,
        "rx",
        digits.as_str(),
        "Some(PageBytes(Page(0)))",
    )?;
    digits.push_str("e")?;
    read_page(
        &rt,
        alloc,
        "rx",
        digits.as_str(),
        "Some(PageBytes(Page(0)))",
    )
}
