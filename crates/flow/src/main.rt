// flow [--device NAME [--p3 N]] IMAGE ADDRESS: the flow of the handler at an address in Graphviz's DOT. The image is seen through the window of P3.
// The words are judged from the left: the device and P3, the image, whether P3 may stand, the address, and that there are no more.
#![tactic(auto)]

mod help;

ghost use Rattle.std.specs.Prelude.{◌≡◌, ◌<◌, ◌≤◌, length};
ghost use Rattle.numbers.specs.Sizes.{addresses};
ghost use Rattle.numbers.specs.ComesBack.{value_at};
ghost use Rattle.graph.specs.Laid.{places};
ghost use Rattle.bound.specs.Answer.{paper_of};

use crate::help::MANUAL;
use bound::Refused;
use bound_calls::{CallNode, node_at};
use bound_numbered::explore;
use device::Device;
use device::image::Window;
use graph::PLACES;
use numbers::ADDRESSES;
use program::arguments::{is_given, no_word};
use program::help::answer;
use program::image::{address_at, chosen_window, open_window, room};
use program::streams::{Failure, show};
use routines_bound::{Greatest, Unbounded};
use text::Text;
use text_bounder::{address_in, bound_at, cycles_at, summary};
use text_flow::{Look, Taken, arrows, box_line};

// The longest path there can be has 65,535 places: N is at most that, and each of them takes a cycle or more.
const LAST_STEP: usize = 65534;

const MOST_BYTES: usize = 131070;

// By address whether N's path comes to it, and which of its arrows it takes from there.
type Path = [Option<Taken>; 8192];

// What an image has from an address on: by place, whether a path comes to it.
#[derive(Clone, Copy)]
struct Explored<'a> {
    device: Device,
    window: Window<'a>,
    map: &'a [u16],
    ghost by_place: { length map.now ≡ places },
}

impl Explored<'_> {
    // The node of an address that was explored, SF unknown before SF known: what follows the one follows the other too.
    fn node(self, at: u16) -> Option<CallNode>
        requires { at < addresses }
    {
        let unknown = 2 * usize::from(at);
        let v = [unknown, unknown + 1]
            .into_iter()
            .find(|v| self.map[*v] != 0)?;
        Some(node_at(self.device, self.window.bytes, self.window.p3, v))
    }
}

// Which of a node's arrows are the way to an address. Of a call both are.
fn arrows_to(x: CallNode, to: u16) -> Taken {
    let on = x.next / 2 == to;
    Taken {
        next: x.kind == 3 || on,
        other: x.kind == 3 || !on,
    }
}

// Marks the step of N's path from an address to another.
fn mark_step(explored: Explored, taken: &mut Path, at: u16, to: u16)
    requires { at < addresses }
{
    if let Some(x) = explored.node(at) {
        let i = usize::from(at);
        let now = arrows_to(x, to);
        let before = taken[i].unwrap_or(now);
        taken[i] = Some(Taken {
            next: before.next || now.next,
            other: before.other || now.other,
        });
    }
}

// N's path ends where its cycles come to N.
fn mark_path(explored: Explored, path: &[u8], most: usize, taken: &mut Path)
    requires { length path.now ≡ 131070 }
{
    let mut total = 0;
    for i in 0..LAST_STEP {
        if most <= total {
            break;
        }
        let at = address_in(path, i);
        total += cycles_at(explored.window, at) as usize;
        mark_step(explored, taken, at, address_in(path, i + 1));
    }
}

// Red is where nothing goes on, and the address that a refusal names.
fn look_of(x: CallNode, is_named: bool, is_on_path: bool) -> Look {
    if x.kind == 0 || is_named {
        Look::Red
    } else if is_on_path {
        Look::Bold
    } else {
        Look::Plain
    }
}

// The lines of an address that was explored.
fn draw_place(
    explored: Explored,
    taken: Option<Taken>,
    is_named: bool,
    at: u16,
) -> Result<(), Failure>
    requires { at < addresses }
{
    let Some(x) = explored.node(at) else {
        return Ok(());
    };
    let neither = Taken {
        next: false,
        other: false,
    };
    let mut out = Text::<156>::new();
    box_line(
        &mut out,
        explored.window,
        at,
        look_of(x, is_named, taken.is_some()),
    );
    arrows(&mut out, at, x, taken.unwrap_or(neither));
    show(out.as_slice())
}

// The address that a refusal names.
fn named_by(answer: Result<Greatest, Refused>) -> Option<usize> {
    match answer {
        Err(
            Refused::Unbounded(
                Unbounded::Recursion(at) | Unbounded::Excluded(at) | Unbounded::Repeats(at),
            ),
        ) => Some(at),
        _ => None,
    }
}

// The answer as a comment, and what holds for all boxes.
fn show_head(answer: Result<Greatest, Refused>) -> Result<(), Failure>
    requires { value_at (paper_of answer) 0 < 131072 }
{
    let mut out = Text::<75>::new();
    out.put_text(b"// ");
    summary(&mut out, answer);
    out.put_text(b"\ndigraph flow {\n  node [shape=box fontname=monospace];\n");
    show(out.as_slice())
}

fn draw(explored: Explored, answer: Result<Greatest, Refused>, path: &[u8]) -> Result<(), Failure>
    requires { length path.now ≡ 131070 }
{
    let mut taken = [None; 8192];
    if let Ok(greatest) = answer {
        mark_path(explored, path, greatest.cycles, &mut taken);
    }
    let named = named_by(answer);
    for at in 0..ADDRESSES {
        let i = usize::from(at);
        draw_place(explored, taken[i], named == Some(i), at)?;
    }
    show(b"}\n")
}

fn draw_at(device: Device, window: Window, at: u16) -> Result<(), Failure>
    requires { at < addresses }
{
    let mut path = [0u8; MOST_BYTES];
    let mut deep = [0u8; MOST_BYTES];
    let answer = bound_at(
        device,
        window.bytes,
        window.p3,
        at.into(),
        &mut path,
        &mut deep,
    );
    show_head(answer)?;
    let mut map = [0u16; PLACES];
    let mut words = [0u64; PLACES];
    explore(
        device,
        window.bytes,
        window.p3,
        at.into(),
        &mut map,
        &mut words,
    );
    let explored = Explored {
        device,
        window,
        map: &map,
    };
    draw(explored, answer, &path)
}

fn run(rt: &HostRuntime) -> Result<(), Failure> {
    let c = chosen_window(rt)?;
    let mut file = room();
    let window = open_window(rt, c, MANUAL.usage, &mut file)?;
    let word = usize::from(c.before) + 2;
    if !is_given(rt, word) {
        return Err(Failure::Usage);
    }
    let at = address_at(rt, word)?;
    no_word(rt, word + 1)?;
    draw_at(c.device, window, at)
}

fn main(rt: HostRuntime) {
    answer(&rt, &MANUAL, run)
}
