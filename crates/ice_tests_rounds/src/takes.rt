//! Two nets that want one wire: one takes it and gives it back, and then the other one has it.
ghost use Rattle.std.specs.Prelude.{◌≡◌, ◌<◌, [], ◌∷◌, length, IfOk};
ghost use Rattle.ice_claim.specs.Claims.{first_view, no_part};
ghost use Rattle.ice_claim.specs.Grips.{IsPassOf};
ghost use Rattle.ice_tests_rounds.specs.TwoNets.{two_nets, HasTaken, StandsAs, Wants};

use ice_base::{NoMemory, WireNo};
use ice_claim::{ClaimTable, Pass, Takes};
use std::alloc::Global;
use std::process::Abort;

// The wire that both nets want.
const SHARED: WireNo = WireNo(2);

// A table of two nets on three wires.
fn start(alloc: Global) -> Result<(ClaimTable, Pass), NoMemory>
    ensures board { IfOk result (λ r. (r.0.wires ≡ 3) × (r.0.lists ≡ two_nets)) }
    ensures of { IfOk result (λ r. IsPassOf r.0 r.1) }
    ensures view { IfOk result (λ r. r.1.view ≡ first_view two_nets) }
{
    let one = Vec::from_slice(alloc, &[WireNo(0), SHARED])?;
    let other = Vec::from_slice(alloc, &[WireNo(1), SHARED])?;
    ClaimTable::start(alloc, 3, &[one, other])
}

// Claims a net, which is there.
fn claim(rt: &impl Abort, table: &ClaimTable, pass: &mut Pass) -> u32
    requires of { IsPassOf table.now pass.old }
    requires lists { table.now.lists ≡ two_nets }
    requires fresh { pass.old.view.parts ≡ no_part ∷ [] }
    ensures of { IsPassOf table.now pass.new }
    ensures net { result < 2 }
    ensures wants { Wants result pass.new.view }
    ensures stands { StandsAs pass.old.view pass.new.view }
{
    let Some(net) = table.claim(pass) else {
        panic!(rt; "no net is left");
    };
    net
}

// Takes the shared wire for the net, which is free.
fn take(rt: &impl Abort, table: &ClaimTable, pass: &mut Pass, net: u32)
    requires of { IsPassOf table.now pass.old }
    requires lists { table.now.lists ≡ two_nets }
    requires net { net < 2 }
    requires wants { Wants net pass.old.view }
    ensures of { IsPassOf table.now pass.new }
    ensures taken { HasTaken net pass.new.view }
    ensures stands { StandsAs pass.old.view pass.new.view }
{
    let taken = table.take(pass, net, SHARED);
    assert!(rt; taken, "the wire is taken");
}

// Finds it taken.
fn lose(rt: &impl Abort, table: &ClaimTable, pass: &mut Pass, net: u32)
    requires of { IsPassOf table.now pass.old }
    requires lists { table.now.lists ≡ two_nets }
    requires net { net < 2 }
    requires wants { Wants net pass.old.view }
    ensures of { IsPassOf table.now pass.new }
    ensures wants { Wants net pass.new.view }
    ensures stands { StandsAs pass.old.view pass.new.view }
{
    let taken = table.take(pass, net, SHARED);
    assert!(rt; !taken, "the wire is free");
}

// Gives it back.
fn give(table: &ClaimTable, pass: &mut Pass, net: u32)
    requires of { IsPassOf table.now pass.old }
    requires taken { HasTaken net pass.old.view }
    ensures of { IsPassOf table.now pass.new }
    ensures stands { StandsAs pass.old.view pass.new.view }
{
    table.give(pass, net, SHARED);
}

// Fails unless the shared wire is taken, or free.
fn expect_taken(rt: &impl Abort, table: &ClaimTable, pass: &mut Pass, wanted: bool)
    requires of { IsPassOf table.now pass.old }
    requires wires { table.now.wires ≡ 3 }
    ensures { pass.new ≡ pass.old }
{
    let taken = table.look(pass, SHARED);
    assert!(rt; taken == wanted, "{taken}");
}

// One pass takes the wire and gives it back, and the other loses it and takes it then.
fn take_in_turn(rt: &impl Abort, table: &ClaimTable, one: &mut Pass, other: &mut Pass)
    requires of { IsPassOf table.now one.old × IsPassOf table.now other.old }
    requires wires { table.now.wires ≡ 3 }
    requires lists { table.now.lists ≡ two_nets }
    requires fresh { (one.old.view.parts ≡ no_part ∷ []) × (other.old.view.parts ≡ no_part ∷ []) }
    ensures of { IsPassOf table.now one.new × IsPassOf table.now other.new }
    ensures stands { StandsAs one.old.view one.new.view × StandsAs other.old.view other.new.view }
{
    let first = claim(rt, table, one);
    take(rt, table, one, first);
    let second = claim(rt, table, other);
    lose(rt, table, other, second);
    expect_taken(rt, table, other, true);
    give(table, one, first);
    expect_taken(rt, table, one, false);
    take(rt, table, other, second);
}

// Fails unless the shared wire alone is taken at the end.
fn expect_closed(rt: &impl Abort, takes: &Takes)
    requires { length takes.now ≡ 3 }
{
    let taken = (
        takes.taken(WireNo(0)),
        takes.taken(WireNo(1)),
        takes.taken(SHARED),
    );
    assert!(rt; taken == (false, false, true), "{taken:?}");
}

// Both nets, each by a pass of its own.
fn expect_exchange(rt: &impl Abort, alloc: Global) -> Result<(), NoMemory> {
    let (table, mut one) = start(alloc)?;
    let mut other = table.split(&mut one);
    take_in_turn(rt, &table, &mut one, &mut other);
    table.join(&mut one, other);
    let takes = table.close(one);
    expect_closed(rt, &takes);
    Ok(())
}

#[test]
fn a_wire_is_taken_by_one_and_then_by_the_other(rt: HostRuntime) -> Result<(), NoMemory> {
    expect_exchange(&rt, rt.alloc())
}
