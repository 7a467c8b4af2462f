// Laws on the clusters that are in.
ghost use Rattle.ak_core.specs.Layout.{IsValid};
ghost use Rattle.ak_core.specs.declared.event.Event.{Event};
ghost use Rattle.ak_model.specs.Clusters.{after_miss, drops, queue_after, total_size};
ghost use Rattle.ak_model.specs.Laws.{AreOut, MissesFit, QueueFits, missed_on};
ghost use Rattle.ak_model.specs.Paging.{pages, pages_of};
ghost use Rattle.std.specs.Prelude.{List, [], drop, length, sum, ℕ, ◌++◌, ◌+◌, ◌∷◌, ◌≡◌, ◌≤◌};
ghost use Rattle.ak_core.specs.Layout;

/// The fewest clusters leave the queue so that the rest fits the budget with the one that was missed.
pub fn fewest_drops()
    ensures fit { (layout : Layout.Layout) (c : ℕ) (queue : List ℕ) → Layout.size_of layout.cluster_of c ≤ layout.budget
        → total_size layout (drop (drops layout queue c) queue) + Layout.size_of layout.cluster_of c ≤ layout.budget }
    ensures least { (layout : Layout.Layout) (c : ℕ) (queue : List ℕ) (d : ℕ)
        → total_size layout (drop d queue) + Layout.size_of layout.cluster_of c ≤ layout.budget → drops layout queue c ≤ d }
{}

/// One more miss changes the queue by that miss alone.
pub fn one_more_miss()
    ensures { (layout : Layout.Layout) (misses : List ℕ) (c : ℕ)
        → queue_after layout (misses ++ c ∷ []) ≡ after_miss layout (queue_after layout misses) c }
{}

/// In a valid layout, where each missed cluster is one of the layout that is out by those before it, the clusters that are in
/// are different ones of the layout that fit the budget together; so it is after the misses of a tape that fit.
pub fn queue_fits()
    ensures missed { (layout : Layout.Layout) (misses : List ℕ)
        → Layout.IsValid layout → AreOut layout [] misses
        → QueueFits layout (queue_after layout misses) }
    ensures taped { (layout : Layout.Layout) (tape : List Event)
        → Layout.IsValid layout → MissesFit layout [] tape
        → QueueFits layout (queue_after layout (missed_on tape)) }
{}

/// In a valid layout the size of a cluster is the number of its pages, and the sizes of all clusters add up to the number of
/// the program's pages.
pub fn sizes()
    ensures each { (layout : Layout.Layout) (c : ℕ) → Layout.IsValid layout → Layout.size_of layout.cluster_of c ≡ length (pages_of layout c) }
    ensures all { (layout : Layout.Layout) → Layout.IsValid layout → sum (Layout.sizes layout.clusters layout.cluster_of) ≡ pages layout }
{}
