// The pages of the runtime. They follow those of the program, whose number is `pages`. (SDM volume 3D, "Thread Control
// Structure", "State Save Area"; STATE and CODE are this project's own.)
ghost use Rattle.std.specs.Prelude.{◌≡◌, ◌<◌, ◌≤◌, ◌+◌};

/// The number of saved-state areas.
pub const SSA_AREAS: u32 = 3;

/// How many pages the runtime has: the TCS, the saved-state areas, STATE and CODE.
pub const RUNTIME_PAGES: u32 = SSA_AREAS + 3;

/// The frame of the runtime's first page at the build. Before it are those of the SECS and of a VA page.
pub const RUNTIME_FRAME: u32 = 2;

/// The frame after those of the runtime's pages: the first that is free at the build.
pub const PROGRAM_FRAME: u32 = RUNTIME_FRAME + RUNTIME_PAGES;

/// The TCS page.
pub fn tcs_page(pages: u32) -> u32
    ensures { result ≡ pages }
{
    pages
}

/// A saved-state area.
pub fn ssa_page(pages: u32, area: u32) -> u32
    requires few { pages ≤ 512 }
    requires area { area < SSA_AREAS }
    ensures { result ≡ pages + 1 + area }
{
    tcs_page(pages) + 1 + area
}

/// The page STATE.
pub fn state_page(pages: u32) -> u32
    requires { pages ≤ 512 }
    ensures { result ≡ pages + 4 }
{
    tcs_page(pages) + 1 + SSA_AREAS
}

/// The page CODE.
pub fn code_page(pages: u32) -> u32
    requires { pages ≤ 512 }
    ensures { result ≡ pages + 5 }
{
    state_page(pages) + 1
}

/// How many pages there are in all.
pub fn all_pages(pages: u32) -> u32
    requires { pages ≤ 512 }
    ensures { result ≡ pages + 6 }
{
    pages + RUNTIME_PAGES
}
