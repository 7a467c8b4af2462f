// The page table at the end of the build.
ghost use Rattle.std.specs.Prelude.{◌≡◌, ◌<◌, ◌+◌, IfOk};
ghost use Rattle.ak_model.specs.Paging.Pages.{flags_for, pages};
ghost use Rattle.ak_walk.specs.Mappings.{mapping_of};
ghost use Rattle.ak_build.specs.Mapping.{MapsEach, MapsFirst};
ghost use Rattle.ak_build.specs.Runtime.{runtime_perm};

use crate::runtime::{flags_for, runtime_perm};
use ak_core::{
    Frame, Layout, OutOfMemory, Page, RUNTIME_FRAME, RUNTIME_PAGES, all_pages, tcs_page,
};
use ak_pte::{PageTable, Pte};
use std::alloc::Global;

/// The page table: each page of the runtime is mapped to its frame, and no page of the program is mapped.
pub(crate) fn built_table(alloc: Global, layout: &Layout) -> Result<PageTable, OutOfMemory>
    ensures { IfOk result (λ table. MapsEach layout.now table) }
{
    let pages = layout.perms().len() as u32;
    let mut table = PageTable::new(alloc, all_pages(pages))?;
    for i in 0..RUNTIME_PAGES {
        table.set(Page(tcs_page(pages) + i), runtime_entry(i));
    }
    Ok(table)
}

// The entry that maps a page of the runtime.
fn runtime_entry(i: u32) -> Pte
    requires { i < 6 }
    ensures { mapping_of result ≡ record { frame = 2 + i; flags = flags_for (runtime_perm i) } }
{
    Pte {
        frame: Frame(RUNTIME_FRAME + i),
        flags: flags_for(runtime_perm(i)),
    }
}
