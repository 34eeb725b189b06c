// The lines of the program flow, in Graphviz's DOT, as characters at the end of a text.
#![tactic(auto)]

ghost use Rattle.std.specs.Prelude.{◌≡◌, ◌++◌, ◌+◌, ◌*◌, ◌%◌, ◌<◌, ◌≤◌, length};
ghost use Rattle.numbers.specs.Sizes.{addresses};
ghost use Rattle.device.specs.Device.{rom_of};
ghost use Rattle.text_flow.specs.Drawing.{look_text, box_line_of, stroke_text, arrow_line_of, solid_of, second_arrow, arrows_of};

use bound_calls::CallNode;
use device::image::Window;
use text::Text;
use text_lister::line::columns;

#[derive(Clone, Copy)]
pub enum Look {
    Plain,
    Bold,
    Red,
}

#[derive(Clone, Copy)]
pub struct Stroke {
    pub dashed: bool,
    pub bold: bool,
}

// Which of a place's two arrows N's path takes.
#[derive(Clone, Copy)]
pub struct Taken {
    pub next: bool,
    pub other: bool,
}

// At most 11 characters.
fn look_text(look: Look) -> &'static [u8]
    ensures text { result.now ≡ look_text look }
    ensures upper_bound { length result.now ≤ 11 }
{
    match look {
        Look::Plain => b"",
        Look::Bold => b" style=bold",
        Look::Red => b" color=red",
    }
}

// The box of an address: at most 68 characters.
pub fn box_line<const N: usize>(out: &mut Text<N>, window: Window, at: u16, look: Look)
    requires { (at < addresses) × (length out.old + 72 ≤ N) }
    ensures text { out.new ≡ out.old ++ box_line_of (rom_of window.entry.bytes.now window.entry.p3) at look }
    ensures upper_bound { length out.new ≤ length out.old + 68 }
{
    out.put_text(b"  \"");
    out.number(16, 4, u32::from(at));
    out.put_text(b"\" [label=\"");
    columns(out, window, at);
    out.put(b'"');
    out.put_text(look_text(look));
    out.put_text(b"];\n");
}

// At most 22 characters.
fn stroke_text(stroke: Stroke) -> &'static [u8]
    ensures text { result.now ≡ stroke_text stroke }
    ensures upper_bound { length result.now ≤ 22 }
{
    match (stroke.dashed, stroke.bold) {
        (false, false) => b"",
        (false, true) => b" [style=bold]",
        (true, false) => b" [style=dashed]",
        (true, true) => b" [style=\"dashed,bold\"]",
    }
}

// An arrow between two addresses: at most 42 characters.
fn arrow_line<const N: usize>(out: &mut Text<N>, at: u16, to: u16, stroke: Stroke)
    requires { length out.old + 42 ≤ N }
    ensures text { out.new ≡ out.old ++ arrow_line_of at to stroke }
    ensures upper_bound { length out.new ≤ length out.old + 42 }
{
    out.put_text(b"  \"");
    out.number(16, 4, u32::from(at));
    out.put_text(b"\" -> \"");
    out.number(16, 4, u32::from(to));
    out.put(b'"');
    out.put_text(stroke_text(stroke));
    out.put_text(b";\n");
}

fn solid(bold: bool) -> Stroke
    ensures { result ≡ solid_of bold }
{
    Stroke {
        dashed: false,
        bold,
    }
}

// The arrow to the target, where the next instruction is another.
#[tactic(auto, unfolding(crate::specs::Drawing::second_arrow))]
fn target_arrow<const N: usize>(out: &mut Text<N>, at: u16, x: CallNode, bold: bool)
    requires { length out.old + 42 ≤ N }
    ensures text { out.new ≡ out.old ++ second_arrow at x bold }
    ensures upper_bound { length out.new ≤ length out.old + 42 }
{
    if x.next != x.other {
        arrow_line(out, at, x.other / 2, solid(bold));
    }
}

// The arrows of a place: at most 84 characters.
#[tactic(auto, unfolding(crate::specs::Drawing::arrows_of))]
pub fn arrows<const N: usize>(out: &mut Text<N>, at: u16, x: CallNode, taken: Taken)
    requires { length out.old + 84 ≤ N }
    ensures text { out.new ≡ out.old ++ arrows_of at x taken }
    ensures upper_bound { length out.new ≤ length out.old + 84 }
{
    match x.kind {
        1 => {
            arrow_line(out, at, x.next / 2, solid(taken.next));
            target_arrow(out, at, x, taken.other);
        }
        3 => {
            let called = Stroke {
                dashed: true,
                bold: taken.other,
            };
            arrow_line(out, at, x.entry, called);
            arrow_line(out, at, x.next / 2, solid(taken.next));
        }
        _ => {}
    }
}
