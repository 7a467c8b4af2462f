// What the walks of a turn cache.
ghost use Rattle.std.specs.Prelude.{◌≡◌, ◌++◌, true, List};
ghost use Rattle.std.specs.List.{list_all};
ghost use Rattle.ak_core.specs.declared.page.Entry.{Entry as TheEntry};
ghost use Rattle.ak_tlb.specs.Fills.{Fill, HoldsFills};
ghost use Rattle.ak_memory.specs.Granting.{NamesPages};
ghost use Rattle.ak_memory.specs.Spots.{fills_after, spot_fills, spot_names_page};

use crate::spot::Spot;
use ak_tlb::Tlb;

/// Caches what walks found of these accesses, in their order.
pub(crate) fn fill_walked(tlb: &mut Tlb, spots: &[Spot])
    ensures holds { (fills : List Fill) → HoldsFills tlb.old fills → HoldsFills tlb.new (spot_fills spots.now ++ fills) }
    ensures named { (entries : List TheEntry) → list_all (spot_names_page entries) spots.now ≡ true → NamesPages entries tlb.old
        → NamesPages entries tlb.new }
{
    for spot in spots {
        fill_if_walked(tlb, spot);
    }
}

/// Caches what a walk found of an access, if a walk did.
fn fill_if_walked(tlb: &mut Tlb, spot: &Spot)
    ensures holds { (fills : List Fill) → HoldsFills tlb.old fills → HoldsFills tlb.new (fills_after spot.now fills) }
    ensures named { (entries : List TheEntry) → spot_names_page entries spot.now ≡ true → NamesPages entries tlb.old → NamesPages entries tlb.new }
{
    if spot.by_walk {
        tlb.fill(spot.access.page, spot.access.kind, spot.frame);
    }
}
