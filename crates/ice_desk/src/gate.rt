//! Gates: what each worker passes after each claim of a net. The flow's own gate does nothing; the one for
//! tests makes two workers meet, which shows that they ran at once.
use ice_base::NetNo;
use std::sync::atomic::{AtomicU64, Ordering};

/// What a worker passes after each claim. A gate has no say in what the workers do with their claims.
pub trait Gate {
    /// Called by the worker of this number, from 0, after it has claimed this net.
    fn pass(&self, worker: u32, net: NetNo);
}

/// The gate that does nothing.
#[derive(Clone, Copy)]
pub struct OpenGate;

impl Gate for OpenGate {
    fn pass(&self, _worker: u32, _net: NetNo) {}
}

/// How many turns a worker waits at a [`MeetGate`] before it goes on alone.
const MOST_TURNS: u32 = 200_000_000;

/// A gate for tests. At it each worker waits after its first claim until two workers have claimed, for
/// at most 200,000,000 turns. Workers are told apart by their numbers, which are below 64.
///
/// Its words are shared, so a contract can say nothing of them: any other thread may change them.
#[derive(Drop)]
pub struct MeetGate {
    /// Bit `worker` is set once that worker has claimed.
    claimed: AtomicU64,
    /// 1 once a worker that waited saw another one's claim.
    met: AtomicU64,
    /// How often the gate was passed.
    passes: AtomicU64,
}

impl MeetGate {
    /// A gate that no worker has passed.
    pub fn new() -> MeetGate {
        MeetGate {
            claimed: AtomicU64::new(0),
            met: AtomicU64::new(0),
            passes: AtomicU64::new(0),
        }
    }

    /// Whether two workers met: one of them waited here while the other one claimed for the first time.
    /// Where a single thread plays both workers they never meet.
    pub fn met(&self) -> bool {
        self.met.load(Ordering::SeqCst) != 0
    }

    /// How often the gate was passed, by all workers together.
    pub fn passes(&self) -> u64 {
        self.passes.load(Ordering::SeqCst)
    }

    /// Waits until other claims than these are there, and notes that workers met.
    fn wait_for_another(&self, claims: u64) {
        for _ in 0..MOST_TURNS {
            if self.claimed.load(Ordering::SeqCst) != claims {
                self.met.store(1, Ordering::SeqCst);
                return;
            }
        }
    }
}

impl Gate for MeetGate {
    fn pass(&self, worker: u32, _net: NetNo) {
        self.passes.fetch_add(1, Ordering::SeqCst);
        let mine = 1u64 << (worker % 64);
        // Who finds no claim is the first. Any other worker finds two that have claimed, itself among
        // them, or its own claim, and goes on at once.
        if self.claimed.fetch_or(mine, Ordering::SeqCst) == 0 {
            self.wait_for_another(mine);
        }
    }
}
