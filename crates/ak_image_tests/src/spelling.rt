// Documents of images, and what reading one tells.
use ak_image::Image;
use std::alloc::Global;
use std::fmt::Write;
use std::process::Abort;
use std::test::Fail;

/// A document of these four numbers, without pages.
pub fn document(alloc: Global, numbers: &str) -> Result<String, Fail> {
    let mut text = String::new(alloc);
    let mut words = numbers.split(' ');
    for key in ["version", "base", "entry", "budget"] {
        writeln!(text, "{key} = {}", words.next().unwrap_or(""))?;
    }
    text.push_str("signer = \"lab\"\n")?;
    Ok(text)
}

/// Adds a page.
pub fn push_page(text: &mut String, perms: &str, bytes: &str, cluster: char) -> Result<(), Fail> {
    writeln!(
        text,
        "[[page]]\nperms = '{perms}'\nbytes = '{bytes}'\ncluster = '{cluster}'"
    )?;
    Ok(())
}

/// Reading the document tells this fault, or none.
pub fn read(rt: &impl Abort, alloc: Global, text: &str, wanted: &str) -> Result<(), Fail> {
    let fault = Image::read(alloc, text.as_bytes()).err();
    let told = format!(in alloc; "{fault:?}")?;
    assert_eq!(rt; told.as_str(), wanted, "{text}");
    Ok(())
}
