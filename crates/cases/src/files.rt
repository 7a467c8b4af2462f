// The files that each case has: images and signers from the tables, and an empty script.
use ak_core::OutOfMemory;
use ak_outside::{Files, FilesFault, MemFiles, RealFiles};
use anyhow::{Context, Result, bail};
use std::alloc::Global;

/// The most bytes of a table.
const TABLE_LIMIT: usize = 1 << 20;

/// The text of this file.
pub fn read_text(rt: &HostRuntime, name: &str) -> Result<String> {
    let mut files = RealFiles::new(rt);
    match files.read(rt.alloc(), name, TABLE_LIMIT) {
        Ok(bytes) => {
            let text = str::from_utf8(&bytes)?;
            let text = String::from_str(rt.alloc(), text)?;
            Ok(text)
        }
        Err(FilesFault::Failed) => bail!("{name} is not read"),
        Err(FilesFault::TooLong) => bail!("{name} is too long"),
        Err(FilesFault::OutOfMemory) => bail!("out of memory"),
    }
}

/// The bytes of this file of a case.
pub fn read_held(alloc: Global, files: &mut MemFiles, name: &str) -> Result<Vec<u8>> {
    match files.read(alloc, name, TABLE_LIMIT) {
        Ok(bytes) => Ok(bytes),
        Err(_) => bail!("{name} is not read"),
    }
}

/// What was done, where there was memory for it.
pub fn held(done: Result<(), OutOfMemory>) -> Result<()> {
    match done {
        Ok(()) => Ok(()),
        Err(OutOfMemory) => bail!("out of memory"),
    }
}

/// The documents that the cases name, as the two tables of them tell.
///
/// The images stand at 0x10000000 and are signed by `lab`: a line has the name, the budget, the entry and the pages. A page is its
/// permissions, its cluster and its bytes; a number with an asterisk before it is how many such pages there are, a number with a point
/// before the bytes how many zeros. Of the other files a piece has the name, and its bytes from the next line on.
#[derive(Drop)]
pub struct Documents {
    images: String,
    files: String,
}

impl Documents {
    /// Reads the two tables.
    pub fn read(rt: &HostRuntime) -> Result<Documents> {
        Ok(Documents {
            images: read_text(rt, "images.txt")?,
            files: read_text(rt, "files.txt")?,
        })
    }

    /// Puts those of this name.
    pub fn put(&self, alloc: Global, files: &mut MemFiles, name: &str) -> Result<()> {
        for file in self.files.split("\n---\n") {
            if let Some((first, text)) = file.split_once('\n') {
                if first == name {
                    held(files.put(name, text.as_bytes()))?;
                }
            }
        }
        for line in self.images.lines() {
            if let Some((first, rest)) = line.split_once(' ') {
                if first == name {
                    put_image(alloc, files, name, rest)?;
                }
            }
        }
        Ok(())
    }
}

/// Puts the image that the rest of its line tells.
fn put_image(alloc: Global, files: &mut MemFiles, name: &str, rest: &str) -> Result<()> {
    let mut words = rest.split(' ');
    let (Some(budget), Some(entry)) = (words.next(), words.next()) else {
        bail!("an image without a head");
    };
    let mut document = format!(in alloc;
        "version = 1\nbase = 0x1000_0000\nentry = {entry}\nbudget = {budget}\nsigner = 'lab'\n"
    )?;
    for pages in words {
        push_pages(alloc, &mut document, pages)?;
    }
    held(files.put(name, document.as_bytes()))
}

/// Writes a page of a document, so many times as it says.
fn push_pages(alloc: Global, document: &mut String, pages: &str) -> Result<()> {
    let (count, page) = match pages.split_once('*') {
        Some((count, page)) => (count.parse::<u32>()?, page),
        None => (1, pages),
    };
    let Some((perms, rest)) = page.split_once(':') else {
        bail!("a page without permissions");
    };
    let (cluster, bytes) = rest.split_once(':').context("a page without a cluster")?;
    let (zeros, digits) = match bytes.split_once('.') {
        Some((zeros, digits)) => (zeros.parse::<u32>()?, digits),
        None => (0, bytes),
    };
    let head = format!(in alloc;
        "\n[[page]]\nperms = '{perms}'\ncluster = '{cluster}'\nbytes = '"
    )?;
    for _ in 0..count {
        document.push_str(&head)?;
        for _ in 0..zeros {
            document.push_str("00")?;
        }
        document.push_str(digits)?;
        document.push_str("'\n")?;
    }
    Ok(())
}
