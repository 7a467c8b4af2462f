// Laws on pages, frames, handles, tracking and walks, for any history.
ghost use Rattle.ak_core.specs.Mem.{Access};
ghost use Rattle.ak_core.specs.declared.event.Event.{Event};
ghost use Rattle.ak_core.specs.declared.moves.Answer.{Answer};
ghost use Rattle.ak_core.specs.declared.moves.Move.{Move};
ghost use Rattle.ak_core.specs.declared.page.Kind.{Kind};
ghost use Rattle.ak_model.specs.Control.{Control, answer, control_after, is_leaf, leaf_row, trace};
ghost use Rattle.ak_model.specs.Kernels.{is_done, is_mapped};
ghost use Rattle.ak_model.specs.Laws.{AllWait, Descend, IsEtrackAt, IsIncomplete, IsOwnAccess, IsPresent, IsTracked, KeepsOpen, concerns};
ghost use Rattle.ak_model.specs.Misses.{reached_since};
ghost use Rattle.ak_model.specs.Paging.{History, InFrame, InHandle, PageFrame, Pair, Unchanged, access_walkable, blocked_at, change, change_of, cycles, discarded, given, held, incomplete, is_over, live, page_of, pages, permits, place, pte, since, slot, tcs_page, tcs_walkable, tracked, view_of, walkable};
ghost use Rattle.ak_model.specs.Stops.{lost_at};
ghost use Rattle.std.specs.List.{list_any};
ghost use Rattle.std.specs.Prelude.{List, None, Some, drop, false, length, nat_lt, take_while, true, ℕ, ◌<◌, ◌==◌, ◌↔◌, ◌∷◌, ◌≡◌, ◌≤◌};
ghost use Rattle.ak_core.specs.Layout;

/// A move that was not done changes nothing: no scan of the history sees it, and the control state stays.
pub fn refusals_change_nothing()
    ensures history { (m : Move) (a : Answer) → is_done a ≡ false → change m a ≡ Unchanged }
    ensures control { (layout : Layout.Layout) (past : History) (control : Control) (m : Move) (a : Answer)
        → is_done a ≡ false → control_after layout past control m a ≡ control }
{}

/// A page is in a frame exactly where its place says so, and a sealed place names a handle of that page, which was given and not
/// discarded; a slot's handle was given; one that is not discarded is its page's newest copy; and no handle stands in two slots.
pub fn one_copy()
    ensures framed { (layout : Layout.Layout) (tape : List Event) (moves : List Move) (p f : ℕ)
        → (place layout (trace layout tape moves).past p ≡ InFrame f) ↔ (held layout (trace layout tape moves).past f ≡ PageFrame p) }
    ensures sealed { (layout : Layout.Layout) (tape : List Event) (moves : List Move) (p k : ℕ)
        → place layout (trace layout tape moves).past p ≡ InHandle k → page_of layout (trace layout tape moves).past k ≡ p }
    ensures live { (layout : Layout.Layout) (tape : List Event) (moves : List Move) (p k : ℕ)
        → place layout (trace layout tape moves).past p ≡ InHandle k → live layout (trace layout tape moves).past k ≡ true }
    ensures given { (layout : Layout.Layout) (tape : List Event) (moves : List Move) (va i k : ℕ)
        → slot layout (trace layout tape moves).past va i ≡ Some k → k < given layout (trace layout tape moves).past }
    ensures newest { (layout : Layout.Layout) (tape : List Event) (moves : List Move) (va i k : ℕ)
        → slot layout (trace layout tape moves).past va i ≡ Some k → discarded (trace layout tape moves).past k ≡ false
        → place layout (trace layout tape moves).past (page_of layout (trace layout tape moves).past k) ≡ InHandle k }
    ensures one_slot { (layout : Layout.Layout) (tape : List Event) (moves : List Move) (va i va' i' k : ℕ)
        → slot layout (trace layout tape moves).past va i ≡ Some k → slot layout (trace layout tape moves).past va' i' ≡ Some k
        → (va ≡ va') × (i ≡ i') }
{}

/// Each tracking cycle waits for just those processors that were inside before it and have not left since.
pub fn cycles_wait()
    ensures { (layout : Layout.Layout) (past : History) → AllWait layout past (cycles layout past) }
{}

/// A frame is tracked exactly where an ETRACK that was done stands after its block and each processor that was inside before that
/// ETRACK has left since. The last cycle is incomplete exactly where the last ETRACK that was done waits for a processor. Each
/// ETRACK that was done has a cycle at its place, and no other place has one.
pub fn tracked_since()
    ensures tracked { (layout : Layout.Layout) (past : History) (f : ℕ) → (tracked layout past f ≡ true) ↔ IsTracked layout past f }
    ensures incomplete { (layout : Layout.Layout) (past : History) → (incomplete layout past ≡ true) ↔ IsIncomplete layout past }
    ensures cycle { (layout : Layout.Layout) (past : History) (place : ℕ)
        → (list_any (λ cycle. cycle.at == place) (cycles layout past) ≡ true) ↔ IsEtrackAt past place }
{}

/// The places of the cycles strictly descend, the newest at most at the place of the newest move. So a frame is tracked exactly
/// where, of the cycles since its block, which come first, one is over.
pub fn cycles_descend()
    ensures descend { (layout : Layout.Layout) (past : History) → Descend (length past) (cycles layout past) }
    ensures since { (layout : Layout.Layout) (past : History) (f place : ℕ) → blocked_at past f ≡ Some place
        → tracked layout past f ≡ list_any is_over (take_while (λ cycle. nat_lt place cycle.at) (cycles layout past)) }
{}

/// A page that is mapped for all that it allows is walkable for each access that it permits.
pub fn mapped_is_walkable()
    ensures { (layout : Layout.Layout) (past : History) (p : ℕ) (kind : Kind)
        → is_mapped layout past p ≡ true → permits layout p kind ≡ true → walkable layout past p kind ≡ true }
{}

/// A change makes or unmakes no page walkable but its own, and the pages that its frame held or holds.
pub fn unconcerned_walks_stay()
    ensures page { (layout : Layout.Layout) (past : History) (p : ℕ) (pair : Pair) (kind : Kind)
        → concerns (held layout past) (change_of pair) p ≡ false → walkable layout (pair ∷ past) p kind ≡ walkable layout past p kind }
    ensures tcs { (layout : Layout.Layout) (past : History) (pair : Pair)
        → concerns (held layout past) (change_of pair) (tcs_page layout) ≡ false → tcs_walkable layout (pair ∷ past) ≡ tcs_walkable layout past }
{}

/// From the place where an access was lost on, no walk finds it; and there is such a place where one ever found it.
pub fn lost_since()
    ensures since { (layout : Layout.Layout) (t : Access) (past : History) → access_walkable layout past t ≡ false
        → (d : ℕ) → lost_at layout past t ≤ length (drop d past) → access_walkable layout (drop d past) t ≡ false }
    ensures some { (layout : Layout.Layout) (t : Access) (past : History) → access_walkable layout past t ≡ false
        → (d : ℕ) → access_walkable layout (drop d past) t ≡ true → 1 ≤ lost_at layout past t }
{}

/// A move is to blame where no walk finds an access of the runtime's own.
pub fn some_move_lost()
    ensures { (layout : Layout.Layout) (past : History) (t : Access) → IsOwnAccess layout t
        → access_walkable layout past t ≡ false → 1 ≤ lost_at layout past t }
{}

/// A page that a frame held unblocked at some moment since the entering of a processor that is still inside, it holds still. So
/// do the frames in which walks found pages since then, and each page that was reached is in a frame.
pub fn page_stays()
    ensures held { (layout : Layout.Layout) (tape : List Event) (moves : List Move) (lp entered f p d : ℕ)
        → since (trace layout tape moves).past lp ≡ Some entered → entered ≤ length (drop d (trace layout tape moves).past)
        → held layout (drop d (trace layout tape moves).past) f ≡ PageFrame p
        → blocked_at (drop d (trace layout tape moves).past) f ≡ None
        → held layout (trace layout tape moves).past f ≡ PageFrame p }
    ensures walked { (layout : Layout.Layout) (tape : List Event) (moves : List Move) (lp entered : ℕ)
        → since (trace layout tape moves).past lp ≡ Some entered
        → (t : Access) (d : ℕ) → entered ≤ length (drop d (trace layout tape moves).past)
        → access_walkable layout (drop d (trace layout tape moves).past) t ≡ true
        → held layout (trace layout tape moves).past (pte layout (drop d (trace layout tape moves).past) t.page.0).frame ≡ PageFrame t.page.0 }
    ensures tcs { (layout : Layout.Layout) (tape : List Event) (moves : List Move) (lp entered : ℕ)
        → since (trace layout tape moves).past lp ≡ Some entered
        → (d : ℕ) → entered ≤ length (drop d (trace layout tape moves).past)
        → tcs_walkable layout (drop d (trace layout tape moves).past) ≡ true
        → held layout (trace layout tape moves).past (pte layout (drop d (trace layout tape moves).past) (tcs_page layout)).frame ≡ PageFrame (tcs_page layout) }
    ensures reached { (layout : Layout.Layout) (tape : List Event) (moves : List Move) (lp entered : ℕ)
        → since (trace layout tape moves).past lp ≡ Some entered
        → (t : Access) → reached_since layout entered (trace layout tape moves).past t ≡ true
        → (f : ℕ) × (held layout (trace layout tape moves).past f ≡ PageFrame t.page.0) }
{}

/// No move of a trace takes a frame that has been open since the entering of a processor that is inside; and where one processor at
/// most is inside, no leaf does, by its row.
pub fn leaves_keep_open()
    ensures always { (layout : Layout.Layout) (tape : List Event) (moves : List Move) (m : Move)
        → KeepsOpen layout (trace layout tape moves).past (change m (answer layout (trace layout tape moves).past (trace layout tape moves).control m)) }
    ensures leaf { (layout : Layout.Layout) (past : History) (control : Control)
        → IsPresent layout (record { past = past; control = control })
        → (m : Move) (a : Answer) → is_leaf m ≡ true → leaf_row (view_of layout past) m ≡ a → KeepsOpen layout past (change m a) }
{}
