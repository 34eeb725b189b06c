// The numbers of the rows, by their mnemonics, in the sheet's order and sections.

// (1) Data Transfer
pub const LDA: u8 = 1;

pub const LDAM: u8 = 2;

pub const LDAX: u8 = 3;

pub const LDAXI: u8 = 4;

pub const LDH: u8 = 5;

pub const LDHL: u8 = 6;

pub const LDIA: u8 = 7;

pub const LDL: u8 = 8;

pub const STA: u8 = 9;

pub const STAM: u8 = 10;

pub const STAMD: u8 = 11;

pub const STAMI: u8 = 12;

pub const STD: u8 = 13;

pub const STDMI: u8 = 14;

pub const THA: u8 = 15;

pub const TLA: u8 = 16;

// (2) Rotate
pub const RLCA: u8 = 17;

pub const RRCA: u8 = 18;

// (3) Arithmetic operation
pub const ADCAM: u8 = 19;

pub const ADD: u8 = 20;

pub const ADDA: u8 = 21;

pub const ADDAM: u8 = 22;

pub const ADDH: u8 = 23;

pub const ADDL: u8 = 24;

pub const ADDM: u8 = 25;

pub const DECA: u8 = 26;

pub const DECL: u8 = 27;

pub const DECM: u8 = 28;

pub const INCA: u8 = 29;

pub const INCL: u8 = 30;

pub const INCM: u8 = 31;

pub const SUBA: u8 = 32;

pub const SBCAM: u8 = 33;

pub const SUBM: u8 = 34;

// (4) Logical operation
pub const ANDA: u8 = 35;

pub const ANDAM: u8 = 36;

pub const ANDM: u8 = 37;

pub const ORA: u8 = 38;

pub const ORAM: u8 = 39;

pub const ORM: u8 = 40;

pub const XORAM: u8 = 41;

// (5) Exchange
pub const EXA: u8 = 42;

pub const EXAH: u8 = 43;

pub const EXAL: u8 = 44;

pub const EXAM: u8 = 45;

pub const EXHL: u8 = 46;

// (6) Branch
pub const SBR: u8 = 47;

pub const LBR: u8 = 48;

pub const SLBR: u8 = 49;

// (7) Compare
pub const CMP: u8 = 50;

pub const CPMA: u8 = 51;

pub const CMPAM: u8 = 52;

pub const CMPH: u8 = 53;

pub const CMPIA: u8 = 54;

pub const CMPL: u8 = 55;

// (8) Bit manipulation
pub const CLM: u8 = 56;

pub const CLP: u8 = 57;

pub const CLPL: u8 = 58;

pub const CLR: u8 = 59;

pub const SEM: u8 = 60;

pub const SEP: u8 = 61;

pub const SEPL: u8 = 62;

pub const SET: u8 = 63;

pub const TF: u8 = 64;

pub const TFA: u8 = 65;

pub const TFM: u8 = 66;

pub const TFP: u8 = 67;

pub const TFPL: u8 = 68;

pub const TT: u8 = 69;

pub const TTP: u8 = 70;

// (9) Subroutine
pub const LCALL: u8 = 71;

pub const SCALL: u8 = 72;

pub const RET: u8 = 73;

// (10) Input/output
pub const INA: u8 = 74;

pub const INM: u8 = 75;

pub const OUT: u8 = 76;

pub const OUTA: u8 = 77;

pub const OUTM: u8 = 78;

// (11) Flag manipulation
pub const TFCFC: u8 = 79;

pub const TTCFS: u8 = 80;

pub const TZS: u8 = 81;

// (12) Interrupt control
pub const CIL: u8 = 82;

pub const DICIL: u8 = 83;

pub const EICIL: u8 = 84;

pub const EXAE: u8 = 85;

pub const RTI: u8 = 86;

// (13) CPU control
pub const NOP: u8 = 87;

// (14) Timer/Counter & Data pointer & Stack pointer control
pub const LDADPL: u8 = 88;

pub const LDADPM: u8 = 89;

pub const LDADPH: u8 = 90;

pub const LDASP: u8 = 91;

pub const LDATAL: u8 = 92;

pub const LDATAM: u8 = 93;

pub const LDATAH: u8 = 94;

pub const LDATBL: u8 = 95;

pub const LDATBM: u8 = 96;

pub const LDATBH: u8 = 97;

pub const STADPL: u8 = 98;

pub const STADPM: u8 = 99;

pub const STADPH: u8 = 100;

pub const STASP: u8 = 101;

pub const STATAL: u8 = 102;

pub const STATAM: u8 = 103;

pub const STATAH: u8 = 104;

pub const STATBL: u8 = 105;

pub const STATBM: u8 = 106;

pub const STATBH: u8 = 107;
