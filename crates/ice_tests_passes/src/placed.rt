//! Pads, places and nets, as they are said.
use crate::text::Text;
use ice_base::{Sink, TileAt};
use ice_chip::Pad;
use ice_core::Net;
use ice_pads::Pads;

fn say_port(text: &mut Text, number: usize, pad: Pad, pullup: bool) {
    text.count(b"port ", number);
    text.count(b" pad ", pad.tile.x);
    text.count(b" ", pad.tile.y);
    text.count(b" ", pad.pio);
    text.count(b" pullup ", u8::from(pullup));
    text.say(b"\n");
}

fn say_global(text: &mut Text, number: usize, global: u8) {
    text.count(b"global ", number);
    text.count(b" is ", global);
    text.say(b"\n");
}

/// The pad and the pull-up of each port, and the number of each global.
pub fn say_pads(text: &mut Text, pads: &Pads) {
    for (number, (pad, pullup)) in pads.ports().iter().zip(pads.pullups()).enumerate() {
        say_port(text, number, *pad, *pullup);
    }
    for (number, global) in pads.globals().iter().enumerate() {
        say_global(text, number, *global);
    }
}

fn say_place(text: &mut Text, number: usize, tile: TileAt) {
    text.count(b"place ", number);
    text.count(b" at ", tile.x);
    text.count(b" ", tile.y);
    text.say(b"\n");
}

/// The tile of each cluster.
pub fn say_places(text: &mut Text, tiles: &[TileAt]) {
    for (number, tile) in tiles.iter().enumerate() {
        say_place(text, number, *tile);
    }
}

// The targets of a sink, with a stroke between them.
fn say_sink(text: &mut Text, sink: &Sink) {
    for (place, target) in sink.targets().iter().enumerate() {
        text.count(if place == 0 { b" " } else { b"|" }, target.0);
    }
}

fn say_net(text: &mut Text, net: &Net) {
    text.count(b"net ", net.net.0);
    text.count(b" root ", net.root.0);
    text.say(b" sinks");
    for sink in net.sinks.as_slice() {
        say_sink(text, sink);
    }
    text.say(b"\n");
}

/// The root and the sinks of each net.
pub fn say_nets(text: &mut Text, nets: &[Net]) {
    for net in nets {
        say_net(text, net);
    }
}
