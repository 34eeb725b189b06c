// A line of the sheet's instruction table as characters, and the section in which it stands.
#![tactic(auto)]

ghost use Rattle.std.specs.Prelude.{◌≡◌, ◌≤◌, length};
ghost use Rattle.sheet_text.specs.Lines.{sheet_text, section_of};

// The table's lines in its order, each at its row's number, and the headings of its sections.
const TEXTS: [&[u8]; 122] = [
    b"",
    b"LDA x | 0110 1010 xxxx xxxx | Acc <- RAM[x] | 2 | 2 | - Z 1",
    b"LDAM | 0101 1010 | Acc <- RAM[HL] | 1 | 1 | - Z 1",
    b"LDAX | 0110 0101 | Acc <- ROM[DP]L | 1 | 2 | - Z 1",
    b"LDAXI | 0110 0111 | Acc <- ROM[DP]H, DP + 1 | 1 | 2 | - Z 1",
    b"LDH #k | 1001 kkkk | HR <- k | 1 | 1 | - - 1",
    b"LDHL x | 0100 1110 xxxx xx00 | LR <- RAM[x], HR <- RAM[x+1] | 2 | 2 | - - 1",
    b"LDIA #k | 1101 kkkk | Acc <- k | 1 | 1 | - Z 1",
    b"LDL #k | 1000 kkkk | LR <- k | 1 | 1 | - - 1",
    b"STA x | 0110 1001 xxxx xxxx | RAM[x] <- Acc | 2 | 2 | - - 1",
    b"STAM | 0101 1001 | RAM[HL] <- Acc | 1 | 1 | - - 1",
    b"STAMD | 0111 1101 | RAM[HL] <- Acc, LR <- LR - 1 | 1 | 1 | - Z C",
    b"STAMI | 0111 1111 | RAM[HL] <- Acc, LR <- LR + 1 | 1 | 1 | - Z C'",
    b"STD #k,y | 0100 1000 kkkk yyyy | RAM[y] <- k | 2 | 2 | - - 1",
    b"STDMI #k | 1010 kkkk | RAM[HL] <- k, LR <- LR + 1 | 1 | 1 | - Z C'",
    b"THA | 0111 0110 | Acc <- HR | 1 | 1 | - Z 1",
    b"TLA | 0111 0100 | Acc <- LR | 1 | 1 | - Z 1",
    b"RLCA | 0101 0000 | <- CF <- Acc <- | 1 | 1 | C Z C'",
    b"RRCA | 0101 0001 | -> CF -> Acc -> | 1 | 1 | C Z C'",
    b"ADCAM | 0111 0000 | Acc <- Acc + RAM[HL] + CF | 1 | 1 | C Z C'",
    b"ADD #k,y | 0100 1001 kkkk yyyy | RAM[y] <- RAM[y] + k | 2 | 2 | - Z C'",
    b"ADDA #k | 0110 1110 0101 kkkk | Acc <- Acc + k | 2 | 2 | - Z C'",
    b"ADDAM | 0111 0001 | Acc <- Acc + RAM[HL] | 1 | 1 | - Z C'",
    b"ADDH #k | 0110 1110 1001 kkkk | HR <- HR + k | 2 | 2 | - Z C'",
    b"ADDL #k | 0110 1110 0001 kkkk | LR <- LR + k | 2 | 2 | - Z C'",
    b"ADDM #k | 0110 1110 1101 kkkk | RAM[HL] <- RAM[HL] + k | 2 | 2 | - Z C'",
    b"DECA | 0101 1100 | Acc <- Acc - 1 | 1 | 1 | - Z C",
    b"DECL | 0111 1100 | LR <- LR - 1 | 1 | 1 | - Z C",
    b"DECM | 0101 1101 | RAM[HL] <- RAM[HL] - 1 | 1 | 1 | - Z C",
    b"INCA | 0101 1110 | Acc <- Acc + 1 | 1 | 1 | - Z C'",
    b"INCL | 0111 1110 | LR <- LR + 1 | 1 | 1 | - Z C'",
    b"INCM | 0101 1111 | RAM[HL] <- RAM[HL] + 1 | 1 | 1 | - Z C'",
    b"SUBA #k | 0110 1110 0111 kkkk | Acc <- k - Acc | 2 | 2 | - Z C",
    b"SBCAM | 0111 0010 | Acc <- RAM[HL] - Acc - CF' | 1 | 1 | C Z C",
    b"SUBM #k | 0110 1110 1111 kkkk | RAM[HL] <- k - RAM[HL] | 2 | 2 | - Z C",
    b"ANDA #k | 0110 1110 0110 kkkk | Acc <- Acc & k | 2 | 2 | - Z Z'",
    b"ANDAM | 0111 1011 | Acc <- Acc & RAM[HL] | 1 | 1 | - Z Z'",
    b"ANDM #k | 0110 1110 1110 kkkk | RAM[HL] <- RAM[HL] & k | 2 | 2 | - Z Z'",
    b"ORA #k | 0110 1110 0100 kkkk | Acc <- Acc or k | 2 | 2 | - Z Z'",
    b"ORAM | 0111 1000 | Acc <- Acc or RAM[HL] | 1 | 1 | - Z Z'",
    b"ORM #k | 0110 1110 1100 kkkk | RAM[HL] <- RAM[HL] or k | 2 | 2 | - Z Z'",
    b"XORAM | 0111 1001 | Acc <- Acc xor RAM[HL] | 1 | 1 | - Z Z'",
    b"EXA x | 0110 1000 xxxx xxxx | Acc <-> RAM[x] | 2 | 2 | - Z 1",
    b"EXAH | 0110 0110 | Acc <-> HR | 1 | 2 | - Z 1",
    b"EXAL | 0110 0100 | Acc <-> LR | 1 | 2 | - Z 1",
    b"EXAM | 0101 1000 | Acc <-> RAM[HL] | 1 | 1 | - Z 1",
    b"EXHL x | 0100 1100 xxxx xx00 | LR <-> RAM[x], HR <-> RAM[x+1] | 2 | 2 | - - 1",
    b"SBR a | 00aa aaaa | if SF = 1 then PC <- PC12-6.a5-0 else null | 1 | 1 | - - 1",
    b"LBR a | 1100 aaaa aaaa aaaa | if SF = 1 then PC <- a else null | 2 | 2 | - - 1",
    b"SLBR a | 0101 0101 1100 aaaa aaaa aaaa or 0101 0111 1100 aaaa aaaa aaaa | if SF = 1 then PC <- a else null | 3 | 3 | - - 1",
    b"CMP #k,y | 0100 1011 kkkk yyyy | k - RAM[y] | 2 | 2 | C Z Z'",
    b"CPMA x | 0110 1011 xxxx xxxx | RAM[x] - Acc | 2 | 2 | C Z Z'",
    b"CMPAM | 0111 0011 | RAM[HL] - Acc | 1 | 1 | C Z Z'",
    b"CMPH #k | 0110 1110 1011 kkkk | k - HR | 2 | 2 | - Z C",
    b"CMPIA #k | 1011 kkkk | k - Acc | 1 | 1 | C Z Z'",
    b"CMPL #k | 0110 1110 0011 kkkk | k - LR | 2 | 2 | - Z C",
    b"CLM b | 1111 00bb | RAM[HL] bit b <- 0 | 1 | 1 | - - 1",
    b"CLP p,b | 0110 1101 11bb pppp | PORT[p] bit b <- 0 | 2 | 2 | - - 1",
    b"CLPL | 0110 0000 | PORT[LR3-2+4] bit LR1-0 <- 0 | 1 | 2 | - - 1",
    b"CLR y,b | 0110 1100 11bb yyyy | RAM[y] bit b <- 0 | 2 | 2 | - - 1",
    b"SEM b | 1111 01bb | RAM[HL] bit b <- 1 | 1 | 1 | - - 1",
    b"SEP p,b | 0110 1101 01bb pppp | PORT[p] bit b <- 1 | 2 | 2 | - - 1",
    b"SEPL | 0110 0010 | PORT[LR3-2+4] bit LR1-0 <- 1 | 1 | 2 | - - 1",
    b"SET y,b | 0110 1100 01bb yyyy | RAM[y] bit b <- 1 | 2 | 2 | - - 1",
    b"TF y,b | 0110 1100 00bb yyyy | SF <- RAM[y] bit b' | 2 | 2 | - - *",
    b"TFA b | 1111 10bb | SF <- Acc bit b' | 1 | 1 | - - *",
    b"TFM b | 1111 11bb | SF <- RAM[HL] bit b' | 1 | 1 | - - *",
    b"TFP p,b | 0110 1101 00bb pppp | SF <- PORT[p] bit b' | 2 | 2 | - - *",
    b"TFPL | 0110 0001 | SF <- PORT[LR3-2+4] bit LR1-0' | 1 | 2 | - - *",
    b"TT y,b | 0110 1100 10bb yyyy | SF <- RAM[y] bit b | 2 | 2 | - - *",
    b"TTP p,b | 0110 1101 10bb pppp | SF <- PORT[p] bit b | 2 | 2 | - - *",
    b"LCALL a | 0100 0aaa aaaa aaaa | STACK[SP] <- PC, SP <- SP - 1, PC <- a | 2 | 2 | - - -",
    b"SCALL a | 1110 nnnn | STACK[SP] <- PC, SP <- SP - 1, PC <- a, a = 8n + 6 (n = 1 to 15), 0086h (n = 0) | 1 | 2 | - - -",
    b"RET | 0100 1111 | SP <- SP + 1, PC <- STACK[SP] | 1 | 2 | - - -",
    b"INA p | 0110 1111 0100 pppp | Acc <- PORT[p] | 2 | 2 | - Z Z'",
    b"INM p | 0110 1111 1100 pppp | RAM[HL] <- PORT[p] | 2 | 2 | - - Z'",
    b"OUT #k,p | 0100 1010 kkkk pppp | PORT[p] <- k | 2 | 2 | - - 1",
    b"OUTA p | 0110 1111 000p pppp | PORT[p] <- Acc | 2 | 2 | - - 1",
    b"OUTM p | 0110 1111 100p pppp | PORT[p] <- RAM[HL] | 2 | 2 | - - 1",
    b"TFCFC | 0101 0011 | SF <- CF' | 1 | 1 | 0 - *",
    b"TTCFS | 0101 0010 | SF <- CF | 1 | 1 | 1 - *",
    b"TZS | 0101 1011 | SF <- ZF | 1 | 1 | - - *",
    b"CIL r | 0110 0011 11rr rrrr | IL <- IL & r | 2 | 2 | - - 1",
    b"DICIL r | 0110 0011 10rr rrrr | EIF <- 0, IL <- IL & r | 2 | 2 | - - 1",
    b"EICIL r | 0110 0011 01rr rrrr | EIF <- 1, IL <- IL & r | 2 | 2 | - - 1",
    b"EXAE | 0111 0101 | MASK <-> Acc | 1 | 1 | - - 1",
    b"RTI | 0100 1101 | SP <- SP + 1, FLAG.PC <- STACK[SP], EIF <- 1 | 1 | 2 | * * *",
    b"NOP | 0101 0110 | no operation | 1 | 1 | - - -",
    b"LDADPL | 0110 1010 1111 1100 | Acc <- [DP]L | 2 | 2 | - Z 1",
    b"LDADPM | 0110 1010 1111 1101 | Acc <- [DP]M | 2 | 2 | - Z 1",
    b"LDADPH | 0110 1010 1111 1110 | Acc <- [DP]H | 2 | 2 | - Z 1",
    b"LDASP | 0110 1010 1111 1111 | Acc <- SP | 2 | 2 | - Z 1",
    b"LDATAL | 0110 1010 1111 0100 | Acc <- [TA]L | 2 | 2 | - Z 1",
    b"LDATAM | 0110 1010 1111 0101 | Acc <- [TA]M | 2 | 2 | - Z 1",
    b"LDATAH | 0110 1010 1111 0110 | Acc <- [TA]H | 2 | 2 | - Z 1",
    b"LDATBL | 0110 1010 1111 1000 | Acc <- [TB]L | 2 | 2 | - Z 1",
    b"LDATBM | 0110 1010 1111 1001 | Acc <- [TB]M | 2 | 2 | - Z 1",
    b"LDATBH | 0110 1010 1111 1010 | Acc <- [TB]H | 2 | 2 | - Z 1",
    b"STADPL | 0110 1001 1111 1100 | [DP]L <- Acc | 2 | 2 | - - 1",
    b"STADPM | 0110 1001 1111 1101 | [DP]M <- Acc | 2 | 2 | - - 1",
    b"STADPH | 0110 1001 1111 1110 | [DP]H <- Acc | 2 | 2 | - - 1",
    b"STASP | 0110 1001 1111 1111 | SP <- Acc | 2 | 2 | - - 1",
    b"STATAL | 0110 1001 1111 0100 | [TA]L <- Acc | 2 | 2 | - - 1",
    b"STATAM | 0110 1001 1111 0101 | [TA]M <- Acc | 2 | 2 | - - 1",
    b"STATAH | 0110 1001 1111 0110 | [TA]H <- Acc | 2 | 2 | - - 1",
    b"STATBL | 0110 1001 1111 1000 | [TB]L <- Acc | 2 | 2 | - - 1",
    b"STATBM | 0110 1001 1111 1001 | [TB]M <- Acc | 2 | 2 | - - 1",
    b"STATBH | 0110 1001 1111 1010 | [TB]H <- Acc | 2 | 2 | - - 1",
    b"(1) Data Transfer",
    b"(2) Rotate",
    b"(3) Arithmetic operation",
    b"(4) Logical operation",
    b"(5) Exchange",
    b"(6) Branch",
    b"(7) Compare",
    b"(8) Bit manipulation",
    b"(9) Subroutine",
    b"(10) Input/output",
    b"(11) Flag manipulation",
    b"(12) Interrupt control",
    b"(13) CPU control",
    b"(14) Timer/Counter & Data pointer & Stack pointer control",
];

// The line of a row; or, as 107 and its number, the heading of a section. None has more than 122 characters.
pub fn sheet_text(n: u8) -> &'static [u8]
    ensures text { result.now ≡ sheet_text n }
    ensures upper_bound { length result.now ≤ 128 }
{
    if n <= 121 { TEXTS[n as usize] } else { b"" }
}

// The section of each row number.
const SECTIONS: [u8; 108] = [
    0, 1, 1, 1, 1, 1, 1, 1, 1, 1, 1, 1, 1, 1, 1, 1, 1, 2, 2, 3, 3, 3, 3, 3, 3, 3, 3, 3, 3, 3, 3, 3,
    3, 3, 3, 4, 4, 4, 4, 4, 4, 4, 5, 5, 5, 5, 5, 6, 6, 6, 7, 7, 7, 7, 7, 7, 8, 8, 8, 8, 8, 8, 8, 8,
    8, 8, 8, 8, 8, 8, 8, 9, 9, 9, 10, 10, 10, 10, 10, 11, 11, 11, 12, 12, 12, 12, 12, 13, 14, 14,
    14, 14, 14, 14, 14, 14, 14, 14, 14, 14, 14, 14, 14, 14, 14, 14, 14, 14,
];

// The section in which a row stands, 0 of a number that is no row's.
pub fn section_of(row: u8) -> u8
    ensures { (result ≡ section_of row) × (result ≤ 14) }
{
    if row <= 107 {
        SECTIONS[row as usize]
    } else {
        0
    }
}
