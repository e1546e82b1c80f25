//! Histories are raised by the counts, block by block, by workers in threads.
ghost use Rattle.std.specs.Prelude.{◌≡◌, ◌+◌, ◌-◌, ◌<◌, ◌≤◌, [], ℕ, length, slice_index, All, IfOk, OnOk, vec_len};
ghost use Rattle.ice_core.specs.Congestion.{next_history};
ghost use Rattle.ice_words_histories.specs.Grips.{IsHandOf};
ghost use Rattle.ice_words_histories.specs.Rule.{AreHistories};
ghost use Rattle.ice_negotiate_round.specs.Raising.{AreJoined, HasFinished, IsIdle, history_main};

use ice_base::{NoMemory, WireNo};
use ice_words::Counts;
use ice_words_histories::{Histories, HistoryHand, HistoryWords};
use ice_worker::raise_blocks;
use ice_worker_raise::laws::histories_are_raised_by_overuse;
use std::alloc::Global;
use std::thread;
use std::thread::Threads;

// Fewer wires than this are raised in one thread, as starting another one takes longer.
const WIRES_OF_THREAD: usize = 65_536;

// So many hands, split off the main one.
fn hands_of(
    alloc: Global,
    words: &HistoryWords,
    main: &mut HistoryHand,
    workers: u32,
) -> Result<Vec<HistoryHand>, NoMemory>
    requires of { IsHandOf words.now main.old }
    requires main { main.old.view ≡ history_main words.now.histories 0 0 [] }
    requires few { workers ≤ 8 }
    ensures of { IsHandOf words.now main.new }
    ensures main { IfOk result (λ hands.
        main.new.view ≡ history_main words.now.histories workers workers []) }
    ensures many { IfOk result (λ hands. vec_len hands ≡ workers) }
    ensures hands { IfOk result (λ hands. All (IsIdle words.now) hands.items) }
{
    let mut hands = Vec::with_capacity(alloc, workers as usize)?;
    for _worker in 0..workers {
        hands.push(words.split(main))?;
    }
    Ok(hands)
}

// One worker's blocks.
fn raise_some(words: &HistoryWords, counts: &Counts, hand: &mut HistoryHand)
    requires hand { IsIdle words.now hand.old }
    requires wires { length counts.now.opened ≡ length words.now.histories }
    ensures { HasFinished words.now counts.now.closed hand.new }
{
    raise_blocks(words, hand, counts);
}

// In how many threads so many hands raise so many wires.
fn threads_of(hands: usize, wires: usize) -> usize
    requires { 1 ≤ hands }
    ensures { 0 < result }
{
    if wires < WIRES_OF_THREAD { 1 } else { hands }
}

// All workers' blocks, each in a thread of its own where there are many wires.
fn raise_all<R: Threads + Sync>(
    rt: &R,
    words: &HistoryWords,
    counts: &Counts,
    hands: &mut [HistoryHand],
)
    requires some_of { 1 ≤ length hands.old }
    requires hands { All (IsIdle words.now) hands.old }
    requires wires { length counts.now.opened ≡ length words.now.histories }
    ensures { (length hands.new ≡ length hands.old)
        × All (HasFinished words.now counts.now.closed) hands.new }
{
    let threads = threads_of(hands.len(), counts.all().len());
    thread::for_each_mut(
        rt,
        hands,
        threads,
        &|_i: usize, hand: &mut HistoryHand|
            requires { IsIdle words.now hand.now
                × (length counts.now.opened ≡ length words.now.histories) }
            ensures { HasFinished words.entry.now counts.entry.now.closed hand.exit.now }
        { raise_some(words, counts, hand) },
    );
}

// The hands when all workers have raised their blocks.
fn all_raised<R: Threads + Sync>(
    rt: &R,
    words: &HistoryWords,
    counts: &Counts,
    mut hands: Vec<HistoryHand>,
) -> Vec<HistoryHand>
    requires some_of { 1 ≤ vec_len hands }
    requires hands { All (IsIdle words.now) hands.items }
    requires wires { length counts.now.opened ≡ length words.now.histories }
    ensures many { vec_len result ≡ vec_len hands }
    ensures hands { All (HasFinished words.now counts.now.closed) result.items }
{
    raise_all(rt, words, counts, &mut hands);
    hands
}

// Takes in all hands.
fn gather(
    words: &HistoryWords,
    counts: &Counts,
    main: &mut HistoryHand,
    mut hands: Vec<HistoryHand>,
)
    requires of { IsHandOf words.now main.old }
    requires main { main.old.view
        ≡ history_main words.now.histories (vec_len hands) (vec_len hands) [] }
    requires hands { All (HasFinished words.now counts.now.closed) hands.items }
    ensures of { IsHandOf words.now main.new }
    ensures joined { AreJoined words.now.histories counts.now.closed (vec_len hands) 0
        (vec_len hands) main.new.view }
{
    let _counts = counts;
    while let Some(hand) = hands.pop() {
        words.join(main, hand);
    }
}

// The histories when all blocks are raised.
fn raised<R: Threads + Sync>(
    rt: &R,
    alloc: Global,
    history: &[u64],
    counts: &Counts,
    workers: u32,
) -> Result<Histories, NoMemory>
    requires histories { AreHistories history.now }
    requires wires { length counts.now.opened ≡ length history.now }
    requires workers { (1 ≤ workers) × (workers ≤ 8) }
    ensures long { IfOk result (λ histories. length histories ≡ length history.now) }
    ensures each { IfOk result (λ histories. (w : ℕ) → w < length history.now
        → slice_index histories w
        ≡ slice_index history.now w + (slice_index counts.now.closed w - 1)) }
{
    histories_are_raised_by_overuse();
    let (words, mut main) = HistoryWords::start(alloc, history)?;
    let hands = hands_of(alloc, &words, &mut main, workers)?;
    let hands = all_raised(rt, &words, counts, hands);
    gather(&words, counts, &mut main, hands);
    Ok(words.close(main))
}

/// Raises the history of each wire by the number of nets that hold it beyond one, where the counts are those of a round. From 1 to 8 workers do it, each in a
/// thread where there are many wires, and claim blocks of wires from shared words. Each history is below 2^32, there are fewer than 2^32, and the counts are of as many wires. It answers
/// `NoMemory` where it finds no memory for the words.
pub fn raise<R: Threads + Sync>(
    rt: &R,
    alloc: Global,
    history: &mut [u64],
    counts: &Counts,
    workers: u32,
) -> Result<(), NoMemory>
    requires histories { AreHistories history.old }
    requires wires { (length counts.now.opened ≡ length history.old)
        × (length counts.now.closed ≡ length history.old) }
    requires workers { (1 ≤ workers) × (workers ≤ 8) }
    ensures { OnOk result (history.new ≡ next_history history.old counts.now.closed) }
{
    let histories = raised(rt, alloc, history, counts, workers)?;
    for w in 0..history.len() {
        history[w] = histories.of(WireNo(w as u32));
    }
    Ok(())
}
