//! Two nets on one wire: each hand does one of the two tasks.
ghost use Rattle.std.specs.Prelude.{◌≡◌, ◌+◌, [], ◌∷◌, length, IfOk};
ghost use Rattle.ice_words.specs.Grips.{IsHandOf};
ghost use Rattle.ice_words.specs.Views.{no_part, first_view};

use ice_base::{NetNo, NoMemory, WireNo};
use ice_core::Task;
use ice_words::{Counts, Hand, Words};
use std::alloc::Global;
use std::process::Abort;

// A task without an old route.
fn bare_task(alloc: Global, net: u32) -> Task
    ensures { result.old.items ≡ [] }
{
    Task {
        net: NetNo(net),
        root: WireNo(net),
        sinks: Vec::new(alloc),
        old: Vec::new(alloc),
    }
}

// Words for two tasks on three wires that nobody holds.
fn start(alloc: Global) -> Result<(Words, Hand), NoMemory>
    ensures of { IfOk result (λ r. IsHandOf r.0 r.1) }
    ensures view { IfOk result (λ r. r.1.view ≡ first_view ([] ∷ [] ∷ []) (0 ∷ 0 ∷ 0 ∷ [])) }
{
    let tasks = [bare_task(alloc, 0), bare_task(alloc, 1)];
    Words::start(alloc, 3, &tasks, &[0, 0, 0])
}

// Claims a task, holds wire 2 for it, and fails unless the count is then this.
fn expect_held(rt: &impl Abort, words: &Words, hand: &mut Hand, count: u32)
    requires of { IsHandOf words.now hand.old }
    requires fresh { hand.old.view.parts ≡ no_part ∷ [] }
    requires olds { hand.old.view.olds ≡ [] ∷ [] ∷ [] }
    requires counts { length hand.old.view.counts ≡ 3 }
    ensures of { IsHandOf words.now hand.new }
    ensures standing { (hand.new.view.main ≡ hand.old.view.main)
        × (hand.new.view.worker ≡ hand.old.view.worker) × (hand.new.view.out ≡ hand.old.view.out) }
    ensures posted { (hand.new.view.up ≡ 0) × (hand.new.view.down ≡ 0) }
{
    let Some(task) = words.claim(hand) else {
        panic!(rt; "no task is left");
    };
    words.hold(hand, task, WireNo(2));
    let found = words.look(hand, WireNo(2));
    assert!(rt; found == count, "{found}");
    words.post(hand);
}

// Fails unless wire 2 is held twice, and the others by nobody.
fn expect_closed(rt: &impl Abort, counts: &Counts)
    requires { length counts.now.opened ≡ 3 }
{
    assert!(rt; counts.of(WireNo(0)) == 0 && counts.of(WireNo(2)) == 2);
    let (up, down) = counts.posted();
    assert!(rt; up == 1 && down == 0, "{up} {down}");
    let over = counts.over();
    assert!(rt; over == 1, "{over}");
}

// Both tasks, each by a hand of its own.
fn expect_two(rt: &impl Abort, alloc: Global) -> Result<(), NoMemory> {
    let (words, mut hand) = start(alloc)?;
    let mut other = words.split(&mut hand);
    expect_held(rt, &words, &mut other, 1);
    expect_held(rt, &words, &mut hand, 2);
    words.join(&mut hand, other);
    let counts = words.close(hand);
    expect_closed(rt, &counts);
    let tally = counts.tally();
    assert!(rt; tally.claims() == 2 && tally.releases() == 0 && tally.holds() == 2);
    let wire = (tally.opened(WireNo(2)), tally.closed(WireNo(2)));
    assert!(rt; wire == (0, 2), "{wire:?}");
    Ok(())
}

#[test]
fn a_wire_is_held_twice_and_read_back(rt: HostRuntime) -> Result<(), NoMemory> {
    expect_two(&rt, rt.alloc())
}
