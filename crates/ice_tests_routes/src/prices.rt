//! Prices, histories, holders and movers of a few wires and nets.
ghost use Rattle.std.specs.Prelude.{◌≡◌};
ghost use Rattle.ice_core.specs.Congestion.{ArePrices};

use crate::claims::expect_that;
use ice_base::{NetNo, WireNo};
use ice_core::{Prices, holders, movers, raise};
use ice_graph::Tree;
use std::alloc::Global;
use std::process::Abort;

// Fails unless the wires have these prices.
fn expect_prices(rt: &impl Abort, prices: &Prices, wanted: &[u64])
    requires { ArePrices prices.now }
{
    let mut wire: u32 = 0;
    for price in wanted {
        expect_that(rt, (wire as usize) < prices.history.len(), b"wires");
        expect_that(rt, prices.of(WireNo(wire)) == *price, b"price");
        wire = wire.saturating_add(1);
    }
}

fn prices_rise_with_history_and_others(rt: &impl Abort, alloc: Global) {
    let prices = Prices {
        round: 3,
        history: vec![in alloc; 0, 3, 4128705].expect(rt, "memory"),
        others: vec![in alloc; 2, 0, 5].expect(rt, "memory"),
    };
    expect_prices(rt, &prices, &[5, 4, 45415766]);
}

fn prices_rise_with_rounds(rt: &impl Abort, alloc: Global) {
    let mut prices = Prices {
        round: 1,
        history: vec![in alloc; 1, 0, 1].expect(rt, "memory"),
        others: vec![in alloc; 1, 1, 0].expect(rt, "memory"),
    };
    expect_prices(rt, &prices, &[2, 1, 2]);
    prices.round = 2;
    expect_prices(rt, &prices, &[4, 2, 2]);
}

fn the_highest_price_is_known(rt: &impl Abort, alloc: Global) {
    let prices = Prices {
        round: 64,
        history: vec![in alloc; 4128705].expect(rt, "memory"),
        others: vec![in alloc; 65535].expect(rt, "memory"),
    };
    expect_prices(rt, &prices, &[17046213234436]);
}

fn history_rises_with_holders(rt: &impl Abort) {
    let mut history = [0, 2, 5];
    raise(&mut history, &[0, 3, 1]);
    expect_that(rt, history == [0, 4, 5], b"history");
}

// A tree of these wires.
fn tree(rt: &impl Abort, alloc: Global, wires: &[WireNo]) -> Tree
    ensures { result.wires.items ≡ wires.now }
{
    Tree {
        wires: Vec::from_slice(alloc, wires).expect(rt, "memory"),
        rows: Vec::new(alloc),
    }
}

fn holders_are_counted(rt: &impl Abort, alloc: Global) {
    let trees = [
        tree(rt, alloc, &[WireNo(0), WireNo(2)]),
        tree(rt, alloc, &[WireNo(2), WireNo(2)]),
    ];
    let counts = holders(alloc, 4, &trees).expect(rt, "memory");
    expect_that(rt, counts.as_slice() == [1, 0, 2, 0].as_slice(), b"counts");
}

fn the_first_of_a_pair_moves(rt: &impl Abort, alloc: Global) {
    let pair = [tree(rt, alloc, &[WireNo(0)]), tree(rt, alloc, &[WireNo(0)])];
    let nets = movers(alloc, 1, &[2], &pair).expect(rt, "memory");
    expect_that(rt, nets.as_slice() == [NetNo(0)].as_slice(), b"nets");
}

#[test]
fn prices_and_movers_follow_the_rule(rt: HostRuntime) {
    prices_rise_with_history_and_others(&rt, rt.alloc());
    prices_rise_with_rounds(&rt, rt.alloc());
    the_highest_price_is_known(&rt, rt.alloc());
    history_rises_with_holders(&rt);
    holders_are_counted(&rt, rt.alloc());
    the_first_of_a_pair_moves(&rt, rt.alloc());
}
