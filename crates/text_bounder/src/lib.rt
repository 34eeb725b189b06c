// What the bounder says, as characters at the end of a text.
#![tactic(auto)]

ghost use Rattle.std.specs.Prelude.{◌≡◌, ◌++◌, ◌+◌, ◌*◌, ◌%◌, ◌<◌, ◌≤◌, length, Err, IfOk};
ghost use Rattle.numbers.specs.Sizes.{addresses};
ghost use Rattle.numbers.specs.ComesBack.{value_at};
ghost use Rattle.device.specs.Device.{rom_of};
ghost use Rattle.routines.specs.Calling as calling;
ghost use Rattle.reader.specs.Answer.{p3_given};
ghost use Rattle.bound_calls.specs.CallAnswer.{CallAnswer};
ghost use Rattle.bound.specs.Answer.{paper_of};
ghost use Rattle.text_bounder.specs.Report.{cycles_text, depth_text, summary_of, answer_text, entry_line_of, path_line_of, cycles_at};

use bound::{Refused, bound};
use device::Device;
use device::image::Window;
use notation::sources::source_name;
use numbers::ADDRESSES;
use routines_bound::{Greatest, Unbounded};
use text::Text;
use text_lister::line::{columns, decoded_at};

// The bound that is told, and how large its numbers can be.
pub fn bound_at(
    d: Device,
    image: &[u8],
    p3: u8,
    at: u32,
    path: &mut [u8],
    deep: &mut [u8],
) -> Result<Greatest, Refused>
    ensures answer { CallAnswer d image.now (p3_given d p3) at path.old path.new deep.old deep.new (paper_of result) }
    ensures value { (value_at (paper_of result) 0 < 131072) × (value_at (paper_of result) 1 < 65536) }
    ensures bounds { IfOk result (λ greatest. (greatest.cycles < 65536) × (greatest.depth < 65536)) }
{
    bound(d, image, p3.into(), at, path, deep)
}

// A refusal, and an address in four digits or the bytes of a path in decimal: at most 17 characters.
#[tactic(auto, using(text::proofs::digits::Numbers::places_of_six))]
fn refused_text<const N: usize>(out: &mut Text<N>, refused: Refused)
    requires { (value_at (paper_of (Err refused)) 0 < 131072) × (length out.old + 17 ≤ N) }
    ensures text { out.new ≡ out.old ++ summary_of (Err refused) }
    ensures upper_bound { length out.new ≤ length out.old + 17 }
{
    out.refused(refused.into());
    match refused {
        Refused::Unbounded(
            Unbounded::Recursion(address)
            | Unbounded::Excluded(address)
            | Unbounded::Repeats(address),
        ) => {
            out.put(b' ');
            out.number(16, 4, address as u32);
        }
        Refused::Unbounded(Unbounded::Short(bytes)) => {
            out.put(b' ');
            out.decimal(bytes as u64);
        }
        _ => {}
    }
}

#[tactic(auto, using(text::proofs::digits::Numbers::places_of_six))]
fn most_cycles<const N: usize>(out: &mut Text<N>, cycles: u64)
    requires { (cycles < 131072) × (length out.old + 8 ≤ N) }
    ensures text { out.new ≡ out.old ++ cycles_text cycles }
    ensures upper_bound { length out.new ≤ length out.old + 8 }
{
    out.put_text(b"N ");
    out.decimal(cycles);
}

// The greatest depth of calls, without the line's end: at most 12 characters.
#[tactic(auto, using(text::proofs::digits::Numbers::places_of_six))]
pub fn most_depth<const N: usize>(out: &mut Text<N>, depth: u64)
    requires { (depth < 131072) × (length out.old + 12 ≤ N) }
    ensures text { out.new ≡ out.old ++ depth_text depth }
    ensures upper_bound { length out.new ≤ length out.old + 12 }
{
    out.put_text(b"depth ");
    out.decimal(depth);
}

// The answer but for its depth, on one line without its end: at most 17 characters.
pub fn summary<const N: usize>(out: &mut Text<N>, answer: Result<Greatest, Refused>)
    requires { (value_at (paper_of answer) 0 < 131072) × (length out.old + 17 ≤ N) }
    ensures text { out.new ≡ out.old ++ summary_of answer }
    ensures upper_bound { length out.new ≤ length out.old + 17 }
{
    match answer {
        Ok(greatest) => most_cycles(out, greatest.cycles as u64),
        Err(refused) => refused_text(out, refused),
    }
}

// An answer on a line of the entries, the depth beside N.
fn answer_text<const N: usize>(out: &mut Text<N>, answer: Result<Greatest, Refused>)
    requires { (value_at (paper_of answer) 0 < 131072) × (value_at (paper_of answer) 1 < 65536) × (length out.old + 30 ≤ N) }
    ensures text { out.new ≡ out.old ++ answer_text answer }
    ensures upper_bound { length out.new ≤ length out.old + 30 }
{
    summary(out, answer);
    if let Ok(greatest) = answer {
        out.put(b' ');
        most_depth(out, greatest.depth as u64);
    }
}

// The five interrupt entries: the address of each, and the latch of its source.
pub const ENTRIES: [(u32, u8); 5] = [(0x002, 5), (0x006, 3), (0x008, 2), (0x00A, 1), (0x00C, 0)];

// A line of the entries: the address, the source of its latch, and the answer.
pub fn entry_line<const N: usize>(
    out: &mut Text<N>,
    d: Device,
    at: u32,
    latch: u8,
    answer: Result<Greatest, Refused>,
)
    requires { (value_at (paper_of answer) 0 < 131072) × (value_at (paper_of answer) 1 < 65536) × (length out.old + 41 ≤ N) }
    ensures text { out.new ≡ out.old ++ entry_line_of d at latch answer }
    ensures upper_bound { length out.new ≤ length out.old + 41 }
{
    out.number(16, 4, at);
    out.put(b' ');
    out.put_text(source_name(d, latch));
    out.put(b' ');
    answer_text(out, answer);
    out.put(b'\n');
}

// A line of a path, with its end: at most 43 characters. What is counted along N's path is its cycles, along depth's the calls that are open.
pub fn path_line<const N: usize>(out: &mut Text<N>, window: Window, at: u16, counted: u32)
    requires { (at < addresses) × (counted < 100000) × (length out.old + 43 ≤ N) }
    ensures text { out.new ≡ out.old ++ path_line_of (rom_of window.entry.bytes.now window.entry.p3) at counted }
    ensures upper_bound { length out.new ≤ length out.old + 43 }
{
    columns(out, window, at);
    out.put(b' ');
    let mut shown: Text<5> = Text::new();
    shown.decimal(u64::from(counted));
    out.blanks(5 - shown.len());
    out.put_text(shown.as_slice());
    out.put(b'\n');
}

// The cycles of the row at an address, 0 where there is none.
pub fn cycles_at(window: Window, at: u16) -> u32
    requires { at < addresses }
    ensures { (result ≡ cycles_at (rom_of window.entry.bytes.now window.entry.p3) at) × (result ≤ 3) }
{
    match decoded_at(window, at) {
        Ok(row) => u32::from(row.cycles),
        Err(_) => 0,
    }
}

// The address of a place of a path, which has room for the longest.
pub fn address_in(path: &[u8], i: usize) -> u16
    requires { (length path.now ≡ 131070) × (i < 65535) }
    ensures { result < addresses }
{
    u16::from_le_bytes([path[2 * i], path[2 * i + 1]]) % ADDRESSES
}

// The calls that are open after a place of this kind in the flow with calls.
#[tactic(auto, unfolding(routines::specs::Calling::opened))]
pub fn opened(kind: u8, before: u32) -> u32
    requires { before < 65536 }
    ensures { (result ≡ calling.opened kind before) × (result ≤ before + 1) }
{
    match kind {
        3 => before + 1,
        4 => before.saturating_sub(1),
        _ => before,
    }
}
