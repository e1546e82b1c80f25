//! Packed designs and their clusters, as they are said.
use crate::text::Text;
use ice_cells::{Cluster, Control, Design, DesignPad, LogicCell, Root, Run};
use ice_net::Reset;

fn say_root(text: &mut Text, root: Option<Root>) {
    match root {
        None => text.say(b" -"),
        Some(Root::PadIn(number)) => text.count(b" pad:", number),
        Some(Root::CellOut(number)) => text.count(b" cell:", number),
        Some(Root::GlobalOut(number)) => text.count(b" global:", number),
        Some(Root::CarryOut(number)) => text.count(b" carry:", number),
    }
}

fn say_control(text: &mut Text, control: Control) {
    say_root(text, control.clock);
    text.say(if control.falling {
        b" falling"
    } else {
        b" rising"
    });
    say_root(text, control.enable);
    say_root(text, control.reset);
}

// Whether a flip-flop is set to 1, and whether it is at once.
fn reset_words(reset: Reset) -> &'static [u8] {
    match reset {
        Reset::Nothing | Reset::SyncReset => b" set 0 async 0",
        Reset::AsyncReset => b" set 0 async 1",
        Reset::SyncSet => b" set 1 async 0",
        Reset::AsyncSet => b" set 1 async 1",
    }
}

fn say_flop(text: &mut Text, flop: Option<(Control, Reset)>) {
    if let Some((control, reset)) = flop {
        text.say(b" flop");
        say_control(text, control);
        text.say(reset_words(reset));
    }
}

fn say_ins(text: &mut Text, ins: &[Option<Root>]) {
    for root in ins {
        say_root(text, *root);
    }
}

fn say_cell(text: &mut Text, number: usize, cell: &LogicCell) {
    text.count(b"cell ", number);
    text.show(format_args!(" table {:016b} ins", cell.table));
    say_ins(text, &cell.ins);
    text.say(if cell.carry { b" carry" } else { b"" });
    text.say(if cell.carry_to_in3 { b" in3" } else { b"" });
    say_flop(text, cell.flop);
    text.say(b"\n");
}

fn say_cells(text: &mut Text, cells: &[LogicCell]) {
    for (number, cell) in cells.iter().enumerate() {
        say_cell(text, number, cell);
    }
}

fn say_run(text: &mut Text, number: usize, run: &Run) {
    text.count(b"run ", number);
    text.count(b" set ", u8::from(run.set));
    text.say(b" cells");
    for cell in run.cells.as_slice() {
        text.count(b" ", *cell);
    }
    text.say(b"\n");
}

fn say_runs(text: &mut Text, runs: &[Run]) {
    for (number, run) in runs.iter().enumerate() {
        say_run(text, number, run);
    }
}

fn say_pad(text: &mut Text, pad: &DesignPad) {
    text.count(b"pad ", pad.port);
    text.show(format_args!(" type {:06b}", pad.pin_type));
    text.count(b" pullup ", u8::from(pad.pullup));
    text.say(b" drive");
    say_root(text, pad.drive);
    text.say(b" enable");
    say_root(text, pad.enable);
    text.count(b" reads ", u8::from(pad.reads));
    text.say(b"\n");
}

fn say_pads(text: &mut Text, pads: &[DesignPad]) {
    for pad in pads {
        say_pad(text, pad);
    }
}

fn say_global(text: &mut Text, number: usize, root: Option<Root>) {
    text.count(b"global ", number);
    text.say(b" reads");
    say_root(text, root);
    text.say(b"\n");
}

fn say_globals(text: &mut Text, globals: &[Option<Root>]) {
    for (number, root) in globals.iter().enumerate() {
        say_global(text, number, *root);
    }
}

fn say_counts(text: &mut Text, design: &Design) {
    text.count(b"cells ", design.cells().len());
    text.count(b" runs ", design.runs().len());
    text.count(b" pads ", design.pads().len());
    text.count(b" globals ", design.globals().len());
    text.say(b"\n");
}

/// The counts of a design, its cells, runs, pads and globals, each in order.
pub fn say_design(text: &mut Text, design: &Design) {
    say_counts(text, design);
    say_cells(text, design.cells());
    say_runs(text, design.runs());
    say_pads(text, design.pads());
    say_globals(text, design.globals());
}

fn say_slots(text: &mut Text, slots: &[Option<u32>]) {
    for slot in slots {
        match slot {
            None => text.say(b" -"),
            Some(cell) => text.count(b" ", *cell),
        }
    }
}

fn say_chunk(text: &mut Text, run: Option<(u32, u32)>) {
    match run {
        None => text.say(b" run -"),
        Some((run, chunk)) => {
            text.count(b" run ", run);
            text.count(b".", chunk);
        }
    }
}

fn say_cluster(text: &mut Text, number: usize, cluster: &Cluster) {
    text.count(b"cluster ", number);
    say_chunk(text, cluster.run);
    text.say(b" cells");
    say_slots(text, cluster.cells.as_slice());
    text.say(b" control");
    match cluster.control {
        None => text.say(b" -"),
        Some(control) => say_control(text, control),
    }
    text.say(b"\n");
}

/// The clusters of a design, in order.
pub fn say_clusters(text: &mut Text, clusters: &[Cluster]) {
    for (number, cluster) in clusters.iter().enumerate() {
        say_cluster(text, number, cluster);
    }
}
