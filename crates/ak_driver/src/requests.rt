// The clusters that are in, and the request that is open.
ghost use Rattle.std.specs.Prelude.{◌≡◌, ◌≤◌, [], length, drop, take};
ghost use Rattle.ak_core.specs.declared.moves.Exit.TheVariants.{Ask, Ready};
ghost use Rattle.ak_model.specs.Kernels.Counted.{service};
ghost use Rattle.ak_driver.specs.NotedRequests.{AreRequests, clusters_in, note_after, note_by, request_note};

use crate::changes::Change;
use ak_core::Exit;
use arrayvec::ArrayVec;

/// The most clusters that an enclave has.
const MAX_CLUSTERS: usize = 512;

/// The clusters that are in, and those that were dropped for the cluster that is asked for.
#[derive(Drop)]
pub(crate) struct Requests {
    // Those that were dropped stand in front of those that are in.
    clusters: ArrayVec<u32, MAX_CLUSTERS>,
    dropped: usize,
    asked: Option<u32>,
}

impl Requests {
    /// As the build leaves them: no cluster is in, and none is asked for.
    pub fn new() -> Requests
        ensures { AreRequests (request_note result) (service []) }
    {
        Requests {
            clusters: ArrayVec::new(),
            dropped: 0,
            asked: None,
        }
    }

    /// One more change is told. There is room for 512 clusters.
    pub fn note(&mut self, change: &Change)
        ensures { length (clusters_in (note_after change.now (request_note self.old))) ≤ 512
            → request_note self.new ≡ note_after change.now (request_note self.old) }
    {
        if let Change::Exits(_, exit) = *change {
            match exit {
                Exit::Ask(d, c) => self.ask(d, c),
                Exit::Ready => self.serve(),
                _ => {}
            }
        }
    }

    /// The cluster that is asked for.
    pub fn asked(&self) -> Option<u32>
        ensures { result ≡ self.now.asked }
    {
        self.asked
    }

    /// The clusters that were dropped for it.
    pub fn dropped(&self) -> &[u32]
        ensures { result.now ≡ take self.now.dropped self.now.clusters.items }
    {
        let clusters = self.clusters.as_slice();
        &clusters[..self.dropped.min(clusters.len())]
    }

    // So many clusters are dropped, and one is asked for.
    fn ask(&mut self, d: u32, c: u32)
        ensures { request_note self.new ≡ note_by (Ask d c) (request_note self.old) }
    {
        self.forget();
        self.dropped = self.clusters.len().min(d as usize);
        self.asked = Some(c);
    }

    // The cluster that was asked for is in.
    fn serve(&mut self)
        ensures { length (clusters_in (note_by Ready (request_note self.old))) ≤ 512 → request_note self.new ≡ note_by Ready (request_note self.old) }
    {
        if let Some(c) = self.asked {
            self.forget();
            let _ = self.clusters.try_push(c);
            self.asked = None;
        }
    }

    // The dropped clusters are forgotten.
    fn forget(&mut self)
        ensures clusters { self.new.clusters.items ≡ drop self.old.dropped self.old.clusters.items }
        ensures dropped { self.new.dropped ≡ 0 }
        ensures asked { self.new.asked ≡ self.old.asked }
    {
        let count = self.dropped.min(self.clusters.len());
        for _forgotten in 0..count {
            self.clusters.remove(0);
        }
        self.dropped = 0;
    }
}
