//! A block of histories that one hand claims and raises: what it looks at is exact, for it and, once it is joined, for the main hand.
ghost use Rattle.std.specs.Prelude.{◌≡◌, [], ◌∷◌, length, IfOk};
ghost use Rattle.ice_words_histories.specs.Blocks.{first_view, no_part};
ghost use Rattle.ice_words_histories.specs.Grips.{IsHandOf};
ghost use Rattle.ice_tests_rounds.specs.OneBlock.{HasRaised, three_histories};

use ice_base::{NoMemory, WireNo};
use ice_words_histories::{Histories, HistoryHand, HistoryWords};
use std::alloc::Global;
use std::process::Abort;

// The wire whose history is raised.
const RAISED: WireNo = WireNo(1);

// Words for the histories of three wires, which make one block.
fn start(alloc: Global) -> Result<(HistoryWords, HistoryHand), NoMemory>
    ensures of { IfOk result (λ r. IsHandOf r.0 r.1) }
    ensures view { IfOk result (λ r. r.1.view ≡ first_view three_histories) }
{
    HistoryWords::start(alloc, &[0, 5, 7])
}

// Claims the block, raises one wire of it by 2, and fails unless that is seen at once.
fn raise(rt: &impl Abort, words: &HistoryWords, hand: &mut HistoryHand)
    requires of { IsHandOf words.now hand.old }
    requires histories { hand.old.view.histories ≡ three_histories }
    requires fresh { hand.old.view.parts ≡ no_part ∷ [] }
    ensures of { IsHandOf words.now hand.new }
    ensures raised { HasRaised hand.old.view hand.new.view }
{
    let Some(block) = words.claim_block(hand) else {
        panic!(rt; "no block is left");
    };
    assert!(rt; block == 0, "{block}");
    words.bump(hand, RAISED, 2);
    let found = words.look(hand, RAISED);
    assert!(rt; found == 7, "{found}");
}

// Fails unless these are the histories of the wires, as the hand sees them.
fn expect_seen(rt: &impl Abort, words: &HistoryWords, hand: &mut HistoryHand, wanted: [u64; 3])
    requires of { IsHandOf words.now hand.old }
    requires wires { length hand.old.view.histories ≡ 3 }
    ensures { hand.new ≡ hand.old }
{
    let found = [
        words.look(hand, WireNo(0)),
        words.look(hand, RAISED),
        words.look(hand, WireNo(2)),
    ];
    assert!(rt; found == wanted, "{found:?}");
}

// Fails unless these are the histories of the wires at the end.
fn expect_closed(rt: &impl Abort, histories: &Histories, wanted: [u64; 3])
    requires { length histories.now ≡ 3 }
{
    let found = [
        histories.of(WireNo(0)),
        histories.of(RAISED),
        histories.of(WireNo(2)),
    ];
    assert!(rt; found == wanted, "{found:?}");
}

// One hand that was split off raises the block, and the main hand takes it in.
fn expect_raised(rt: &impl Abort, alloc: Global) -> Result<(), NoMemory> {
    let (words, mut hand) = start(alloc)?;
    let mut other = words.split(&mut hand);
    raise(rt, &words, &mut other);
    words.join(&mut hand, other);
    expect_seen(rt, &words, &mut hand, [0, 7, 7]);
    let histories = words.close(hand);
    expect_closed(rt, &histories, [0, 7, 7]);
    Ok(())
}

#[test]
fn a_raised_block_is_seen_by_its_hand_and_then_by_the_main_one(
    rt: HostRuntime,
) -> Result<(), NoMemory> {
    expect_raised(&rt, rt.alloc())
}
