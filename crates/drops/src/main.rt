// The supply drops while the board is saving: what does the circuit read when it returns? Each field of a bench trace is stopped after every number of its words.
#![tactic(auto)]

use asking::{Asked, parse};
use fields::length_of;
use images::Checkpoint;
use keeping::{drafted, keep};
use report::{print_field, try_stops};
use rules::Geometry;
use std::io::{Stdin, Stdout};
use std::ops::ControlFlow;
use stops::{Panel, Plan, act, stores_words};
use streams::read_full;
use trace::Bench;
use trace::turns::words_of;

mod images;
mod keeping;
mod report;
mod stops;

fn first_panel() -> Panel {
    let bench = Bench::new();
    Panel {
        arrays: bench.arrays,
        controller: bench.controller,
        allowance: bench.allowance,
        sizes: Geometry {
            blocks: 0,
            slots: 0,
        },
        saved: None,
        draft: Checkpoint {
            image: [0u8; 4096],
            registers: None,
        },
        tried: 0,
        wrong: 0,
    }
}

// An allowance is used by the next field that can store words, accepted or not.
fn allowance_after(asked: Asked, allowance: Option<u16>) -> Option<u16> {
    if stores_words(asked) {
        return None;
    }
    match asked {
        Asked::Allow(p) => Some(p),
        _ => allowance,
    }
}

// The field itself, as the bench runs it.
fn carry(panel: &mut Panel, asked: Asked, value: &[u8]) {
    let controller = panel.controller;
    let allowance = panel.allowance;
    let done = act(
        &mut panel.arrays,
        controller,
        asked,
        value,
        words_of(allowance),
    );
    panel.controller = done.answer.controller;
    panel.allowance = allowance_after(asked, allowance);
    keep(panel, asked, done);
}

// A field: its stops, each on a copy, then its own call on the board.
fn answered(out: Stdout, panel: &mut Panel, field: u64, asked: Asked, value: &[u8]) {
    let plan = Plan::of(panel, asked, value);
    let draft = drafted(panel, plan);
    panel.draft = draft;
    print_field(out, field, plan);
    let wrong = try_stops(out, panel, plan, value);
    panel.tried = panel.tried.wrapping_add(plan.stops() as u64);
    panel.wrong = panel.wrong.wrapping_add(wrong);
    carry(panel, asked, value);
}

// The run goes on after a text that can't be written, here as in `report`.
fn bad(out: Stdout, field: u64) -> ControlFlow<()> {
    let _ = println!(out; "bad {field}");
    ControlFlow::Break(())
}

// The field with its head read. A length over 67 is wrong for every tag, and such a value isn't read.
fn valued(
    input: Stdin,
    out: Stdout,
    panel: &mut Panel,
    field: u64,
    tag: u8,
    len: usize,
) -> ControlFlow<()> {
    let mut value = [0u8; 67];
    if value.len() < len {
        return bad(out, field);
    }
    if read_full(input, &mut value[..len]) != len {
        return bad(out, field);
    }
    let value = &value[..len];
    let asked = parse(tag, value);
    if asked == Asked::Bad {
        return bad(out, field);
    }
    answered(out, panel, field, asked, value);
    ControlFlow::Continue(())
}

// One field of the trace; tells whether the run goes on. The end of the input between fields ends it quietly, inside a field with `bad`.
fn one(input: Stdin, out: Stdout, panel: &mut Panel, field: u64) -> ControlFlow<()> {
    let mut head = [0u8; 3];
    match read_full(input, &mut head) {
        0 => ControlFlow::Break(()),
        3 => {
            let [tag, high, low] = head;
            valued(input, out, panel, field, tag, length_of(high, low))
        }
        _ => bad(out, field),
    }
}

fn main(rt: HostRuntime) {
    let input = rt.stdin();
    let out = rt.stdout();
    let mut panel = first_panel();
    // A count, since a loop has to be proved to end.
    for field in 1..=u64::MAX {
        if one(input, out, &mut panel, field).is_break() {
            break;
        }
    }
    let tried = panel.tried;
    let wrong = panel.wrong;
    let _ = println!(out; "{tried} stops tried, {wrong} deviate from the expected");
}
