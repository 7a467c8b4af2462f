// What documents come to: the limits of their numbers, the order of the refusals, and what TOML lets in.
use crate::spelling::{document, push_page, read};
use std::alloc::Global;
use std::process::Abort;
use std::test::Fail;

/// Version, base, entry, budget, the cluster of each page, and the fault. Pages are empty, but one of the cluster `?` has half a
/// byte, and one of `!` an unknown permission. Two pages and six more have a size of 32768, seven and six one of 65536.
const NUMBERS: &str = "\
1 0x10000000 0 1 a None
1 0 4095 512 a None
1 140737488322560 0 1 a None
2 4096 0 1 a Some(Version)
-1 0 0 1 a Some(Version)
1.0 4096 0 1 a Some(WrongType)
'2' 0 0 1 a Some(WrongType)
1 140737488326656 0 1 a Some(BaseAlign)
1 140737488355328 0 1 a Some(BaseAlign)
1 -32768 0 1 a Some(BaseAlign)
1 0x10001000 0 1 a Some(BaseAlign)
1 32768 0 2 ab None
1 32768 0 6 abcbdee Some(BaseAlign)
1 9223372036854775808 0 1 a Some(NotToml)
1 0 0 1 ?!! Some(PagePerm(Page(1)))
1 0 -1 1 a?? Some(PageBytes(Page(1)))
1 0 -1 1 a Some(Entry)
1 0 4096 0 a Some(Entry)
1 0 8191 2 ab None
1 0 28671 6 abcbdee None
1 0 28672 6 abcbdee Some(Entry)
1 0 0 1 ab Some(Budget)
1 0 0 513 a Some(Budget)
1 0 0 -1 a Some(Budget)
1 0 0 6 abcbdee None
1 0 0 5 abcbdee Some(Budget)";

/// Adds a page of each cluster.
fn push_pages(text: &mut String, clusters: &str) -> Result<(), Fail> {
    for cluster in clusters.chars() {
        let perms = if cluster == '!' { "w" } else { "rx" };
        let bytes = if cluster == '?' { "0" } else { "" };
        push_page(text, perms, bytes, cluster)?;
    }
    Ok(())
}

#[test]
fn numbers(rt: HostRuntime) -> Result<(), Fail> {
    let alloc = rt.alloc();
    for case in NUMBERS.lines() {
        let Some((values, wanted)) = case.rsplit_once(' ') else {
            return Err(Fail::new("no fault"));
        };
        let Some((numbers, clusters)) = values.rsplit_once(' ') else {
            return Err(Fail::new("no clusters"));
        };
        let mut text = document(alloc, numbers)?;
        push_pages(&mut text, clusters)?;
        read(&rt, alloc, text.as_str(), wanted)?;
    }
    Ok(())
}

/// The fault, and the first lines of a document, at which its numbers follow.
const DOCUMENTS: &str = "\
None: page = [{bytes = '', cluster = 'a', perms = 'r'}]|\
None: \u{feff}# A page.\r\npage = [{bytes = '', # None.\r\n cluster = 'a', perms = 'r'}]\r|\
Some(NotToml): page = {|\
Some(NotToml): x = 1\npage = {|\
Some(NotToml): version = 1|\
Some(UnknownKey): x = 1|\
Some(UnknownKey): page = [1, {x = 1}]|\
Some(WrongType): page = {x = 1}|\
Some(MissingKey): |\
Some(MissingKey): page = [1, {perms = 'r', bytes = ''}]|\
Some(WrongType): page = 1|\
Some(WrongType): page = [1]|\
Some(WrongType): page = [[]]|\
Some(UnknownKey): [[page]]|\
Some(WrongType): page = [{bytes = '', cluster = 1, perms = 'w'}]";

#[test]
fn documents(rt: HostRuntime) -> Result<(), Fail> {
    let alloc = rt.alloc();
    let numbers = document(alloc, "1 0 0 1")?;
    for case in DOCUMENTS.split('|') {
        let Some((wanted, start)) = case.split_once(": ") else {
            return Err(Fail::new("no fault"));
        };
        let text = format!(in alloc; "{start}\n{numbers}")?;
        read(&rt, alloc, text.as_str(), wanted)?;
    }
    Ok(())
}

/// Reading a document of so many pages of one byte, each in a cluster of its own, tells this fault, or none.
fn read_many(
    rt: &impl Abort,
    alloc: Global,
    numbers: &str,
    count: u32,
    perms: &str,
    wanted: &str,
) -> Result<(), Fail> {
    let mut text = document(alloc, numbers)?;
    for page in 0..count {
        let cluster = char::from_u32(page.saturating_add(256)).unwrap_or('a');
        push_page(&mut text, perms, "7f", cluster)?;
    }
    read(rt, alloc, text.as_str(), wanted)
}

#[test]
fn counts(rt: HostRuntime) -> Result<(), Fail> {
    let alloc = rt.alloc();
    read_many(&rt, alloc, "1 0x10000000 0 4", 512, "rw", "None")?;
    read_many(&rt, alloc, "1 0 0 4", 512, "w", "Some(PagePerm(Page(0)))")?;
    read_many(&rt, alloc, "1 0 0 4", 513, "w", "Some(PageCount)")?;
    read_many(&rt, alloc, "1 4096 0 4", 513, "w", "Some(BaseAlign)")
}
