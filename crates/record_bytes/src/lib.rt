// The record as 416 bytes, and back. The layout loses nothing: proofs/Tells.antt, `one_record`.
#![tactic(auto)]

ghost use Rattle.std.specs.Prelude.{◌≡◌, [], ◌∷◌, ◌+◌, ◌/◌, ◌%◌, ◌<◌, ◌≤◌, MatchOption, length, take, drop};
ghost use Rattle.bits.specs.Bits.{bit_of};
ghost use Rattle.record_bytes.specs.Layout.{head_size, record_size, two, four, mode_number, nibbles_of, others_of, head_of, Holds};
ghost use Rattle.record_bytes.specs.Unpacked.{FlagsFit, RegistersAt, InterruptsAt, TimersAt, PortsAt, Unpacks};

use frame::Pins;
use numbers::RAM_NIBBLES;
use ports::{Mode, Ports};
use record::{Core, Interrupts, Machine, Pointers, Ram, Registers, Timers};

// How many bytes a record takes.
pub const RECORD_BYTES: usize = 416;

// How many of them come before RAM.
const HEAD_BYTES: usize = 44;

#[tactic(auto, unfolding(crate::specs::Layout::mode_number))]
fn mode_number(mode: Mode) -> u8
    ensures { result ≡ mode_number mode }
{
    match mode {
        Mode::Running => 0,
        Mode::Sleep => 1,
        Mode::Hold => 2,
    }
}

// Bytes 0 to 15.
#[tactic(auto, unfolding(crate::specs::Layout::latch_bytes, crate::specs::Layout::nibbles_of))]
fn nibbles_of(m: Core) -> [u8; 16]
    ensures { result ≡ nibbles_of m }
{
    [
        m.regs.acc,
        m.regs.hr,
        m.regs.lr,
        m.ptrs.sp,
        m.ints.mask,
        m.ports.p4,
        m.ports.p8,
        m.ports.p9,
        m.ports.p16,
        m.ports.p23,
        m.ports.p24,
        m.ports.p25,
        m.ports.p27,
        m.ports.p28,
        m.ports.p29,
        m.ports.p30,
    ]
}

// Bytes 16 to 43.
#[tactic(auto, unfolding(crate::specs::Layout::two, crate::specs::Layout::four, crate::specs::Layout::others_of))]
fn others_of(m: Core) -> [u8; 28]
    ensures { result ≡ others_of m }
{
    let [pc_low, pc_high] = m.pc.to_le_bytes();
    let [dp_low, dp_high] = m.ptrs.dp.to_le_bytes();
    let [ta_low, ta_high] = m.timers.ta.to_le_bytes();
    let [tb_low, tb_high] = m.timers.tb.to_le_bytes();
    let [base_0, base_1, base_2, base_3] = m.timers.base.to_le_bytes();
    [
        pc_low,
        pc_high,
        dp_low,
        dp_high,
        ta_low,
        ta_high,
        tb_low,
        tb_high,
        u8::from(m.regs.cf),
        u8::from(m.regs.zf),
        u8::from(m.regs.sf),
        u8::from(m.ints.ei),
        m.ints.il,
        base_0,
        base_1,
        base_2,
        base_3,
        m.pins.p0,
        m.pins.p8,
        m.pins.p4,
        mode_number(m.mode),
        u8::from(m.mark),
        m.ints.due,
        m.ports.p3,
        m.ports.p5,
        m.ports.p6,
        m.ports.p17,
        m.pins.speech,
    ]
}

// The record's bytes in a buffer of its size.
pub fn pack(m: Machine, out: &mut [u8])
    requires { length out.old ≡ record_size }
    ensures { Holds out.new m }
{
    let (nibbles, rest) = out.split_at_mut(16);
    let (others, ram) = rest.split_at_mut(28);
    nibbles.copy_from_slice(&nibbles_of(m.core));
    others.copy_from_slice(&others_of(m.core));
    ram.copy_from_slice(&m.ram);
}

#[tactic(auto, unfolding(crate::specs::Layout::two))]
fn from_two(a: u8, b: u8) -> u16
    ensures { two result ≡ a ∷ b ∷ [] }
{
    u16::from_le_bytes([a, b])
}

#[tactic(auto, unfolding(crate::specs::Layout::two, crate::specs::Layout::four))]
fn from_four(a: u8, b: u8, c: u8, d: u8) -> u32
    ensures { four result ≡ a ∷ b ∷ c ∷ d ∷ [] }
{
    u32::from_le_bytes([a, b, c, d])
}

fn flag(b: u8) -> Option<bool>
    ensures { MatchOption result (2 ≤ b) (λ f. bit_of f ≡ b) }
{
    match b {
        0 => Some(false),
        1 => Some(true),
        _ => None,
    }
}

#[tactic(auto, unfolding(crate::specs::Layout::mode_number))]
fn mode_of(b: u8) -> Option<Mode>
    ensures { MatchOption result (3 ≤ b) (λ mode. mode_number mode ≡ b) }
{
    match b {
        0 => Some(Mode::Running),
        1 => Some(Mode::Sleep),
        2 => Some(Mode::Hold),
        _ => None,
    }
}

fn ports_of(head: &[u8; HEAD_BYTES]) -> Ports
    requires { length head.now ≡ head_size }
    ensures { PortsAt head.now result }
{
    Ports {
        p3: head[39],
        p4: head[5],
        p5: head[40],
        p6: head[41],
        p8: head[6],
        p9: head[7],
        p16: head[8],
        p17: head[42],
        p23: head[9],
        p24: head[10],
        p25: head[11],
        p27: head[12],
        p28: head[13],
        p29: head[14],
        p30: head[15],
    }
}

fn registers_of(head: &[u8; HEAD_BYTES]) -> Option<Registers>
    ensures { MatchOption result (FlagsFit head.now → ⊥) (RegistersAt head.now) }
{
    Some(Registers {
        acc: head[0],
        hr: head[1],
        lr: head[2],
        cf: flag(head[24])?,
        zf: flag(head[25])?,
        sf: flag(head[26])?,
    })
}

// The due source as its byte has it: whether it agrees with latches and mask is judged with the record.
fn interrupts_at(head: &[u8; HEAD_BYTES]) -> Option<Interrupts>
    ensures { MatchOption result (FlagsFit head.now → ⊥) (InterruptsAt head.now) }
{
    Some(Interrupts {
        ei: flag(head[27])?,
        il: head[28],
        mask: head[4],
        due: head[38],
    })
}

fn timers_of(head: &[u8; HEAD_BYTES]) -> Timers
    ensures { TimersAt head.now result }
{
    Timers {
        base: from_four(head[29], head[30], head[31], head[32]),
        ta: from_two(head[20], head[21]),
        tb: from_two(head[22], head[23]),
    }
}

fn core_of(head: &[u8; HEAD_BYTES]) -> Option<Core>
    requires { length head.now ≡ head_size }
    ensures { MatchOption result (FlagsFit head.now → ⊥) (λ m. head.now ≡ head_of m) }
{
    Some(Core {
        regs: registers_of(head)?,
        pc: from_two(head[16], head[17]),
        ptrs: Pointers {
            sp: head[3],
            dp: from_two(head[18], head[19]),
        },
        ints: interrupts_at(head)?,
        timers: timers_of(head),
        ports: ports_of(head),
        pins: Pins {
            p0: head[33],
            p8: head[34],
            p4: head[35],
            speech: head[43],
        },
        mode: mode_of(head[36])?,
        mark: flag(head[37])?,
    })
}

fn head_at(bytes: &[u8]) -> [u8; HEAD_BYTES]
    requires { length bytes.now ≡ record_size }
    ensures { result ≡ take head_size bytes.now }
{
    let mut head = [0u8; HEAD_BYTES];
    head.copy_from_slice(&bytes[..HEAD_BYTES]);
    head
}

fn ram_at(bytes: &[u8]) -> Ram
    requires { length bytes.now ≡ record_size }
    ensures { result ≡ drop head_size bytes.now }
{
    let mut ram = [0u8; RAM_NIBBLES];
    ram.copy_from_slice(&bytes[HEAD_BYTES..]);
    ram
}

// The record that a buffer holds. A buffer of another length, a flag over 1 and a mode over 2 are no record.
pub fn unpack(bytes: &[u8]) -> Option<Machine>
    ensures { Unpacks bytes.now result }
{
    if bytes.len() != RECORD_BYTES {
        return None;
    }
    Some(Machine {
        core: core_of(&head_at(bytes))?,
        ram: ram_at(bytes),
    })
}
