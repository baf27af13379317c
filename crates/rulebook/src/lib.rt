// The table of rules as the code holds it. `rules` Table is the same table to be read; a computed test holds the two together.
#![tactic(auto)]

mod equations;

ghost use Rattle.std.specs.Prelude.{◌≡◌, ◌/◌, drop};
ghost use Rattle.words.specs.Words.{overlaid};
ghost use Rattle.rulebook.specs.Code.Rows.{family_of, row_of, row_line, words_in};

use crate::equations::{WORDS_FROM_0, WORDS_FROM_50, WORDS_FROM_100, WORDS_FROM_150};
use words::copy_words;

// What a number stands for: no rule, an equation, or a rule of one of seven families. `NoRule` and no `Option<Row>`: the table has a line for each number, so that no rule's too has a row.
#[derive(Clone, Copy)]
pub enum Family {
    NoRule,
    Equation,
    Spread,
    Remove,
    Absorb,
    Merge,
    Collect,
    Swap,
    Distribute,
}

// What a rule is: its family, and what the family asks (`row_for` of specs/Code/Rows has the list). The four stay numbers and no variant's fields: each is a digit or two of the line in
// `ROWS`, and `row_of` reads all rows in one way.
#[derive(Clone, Copy)]
pub struct Row {
    pub family: Family,
    pub a: u16,
    pub b: u16,
    pub c: u16,
    pub d: u16,
}

// The row of each number from 0 to 191 in hexadecimal digits: one for the family, two for a, one for b, two each for c and d. A number that is no rule's has 0. No array of `Row`: five
// named fields for each of 192 numbers read no plainer than eight digits, and a row takes ten bytes where its digits take four.
static ROWS: [u32; 192] = [
    0x00000000, // 0
    0x50000000, // 1 FLATTEN
    0x10020100, // 2 ADDSID
    0x10320100, // 3 MULSID
    0x30750000, // 4 ADDS0
    0x40000000, // 5 MULS0
    0x30860000, // 6 MULS1
    0x20820707, // 7 MULS2
    0x00000000, // 8
    0x00000000, // 9
    0x10620100, // 10 CONJ0
    0x10920100, // 11 CONJ1
    0x20900707, // 12 CONJ2
    0x20900808, // 13 CONJ3
    0x10c30100, // 14 CONJ4
    0x11040300, // 15 CONJ5
    0x11740500, // 16 CONJ6
    0x00000000, // 17
    0x00000000, // 18
    0x00000000, // 19
    0x12040100, // 20 DOT0
    0x12540100, // 21 DOT1
    0x12a50500, // 22 DOT2
    0x13450500, // 23 DOT3
    0x20b01407, // 24 DOT4
    0x20b11407, // 25 DOT5
    0x13e50300, // 26 DOT6
    0x14680900, // 27 DOT7
    0x15780900, // 28 DOT8
    0x16870700, // 29 DOT9
    0x17650500, // 30 DOT10
    0x180a0b00, // 31 DOT11
    0x19590900, // 32 DOT12
    0x1a730100, // 33 DELTA0
    0x1ab70700, // 34 DELTA1
    0x00000000, // 35
    0x00000000, // 36
    0x00000000, // 37
    0x00000000, // 38
    0x00000000, // 39
    0x1b930100, // 40 SCR0
    0x1bd50500, // 41 SCR1
    0x21311414, // 42 SCR2
    0x1c730201, // 43 SCRK0
    0x1cc40200, // 44 SCRK1
    0x1d230202, // 45 SCRB0
    0x1d740200, // 46 SCRB1
    0x1dd30303, // 47 SCRO0
    0x1e350300, // 48 SCRO1
    0x00000000, // 49
    0x10020100, // 50 ADDID
    0x60000000, // 51 ADD0
    0x60010000, // 52 ADD1
    0x60100000, // 53 ADD2
    0x60110000, // 54 ADD3
    0x314c0000, // 55 ADDK0
    0x314d0000, // 56 ADDB0
    0x314e0000, // 57 ADDO0
    0x00000000, // 58
    0x00000000, // 59
    0x10330100, // 60 ADJ0
    0x10740500, // 61 ADJ1
    0x21201414, // 62 ADJ2
    0x11040500, // 63 ADJ3
    0x11930200, // 64 ADJK0
    0x11e30200, // 65 ADJK1
    0x12340500, // 66 ADJK2
    0x12c30200, // 67 ADJB0
    0x13130200, // 68 ADJB1
    0x13640500, // 69 ADJB2
    0x13f40300, // 70 ADJO0
    0x14630200, // 71 ADJO1
    0x14b40500, // 72 ADJO2
    0x15440500, // 73 ADJO3
    0x00000000, // 74
    0x00000000, // 75
    0x00000000, // 76
    0x00000000, // 77
    0x00000000, // 78
    0x00000000, // 79
    0x15d50500, // 80 TSR0
    0x16750500, // 81 TSR1
    0x21501414, // 82 TSR2
    0x21511414, // 83 TSR3
    0x17140400, // 84 TSRK0
    0x17940400, // 85 TSRK1
    0x18150400, // 86 TSRK2
    0x18a40400, // 87 TSRB0
    0x19240400, // 88 TSRB1
    0x19a50400, // 89 TSRB2
    0x1a350700, // 90 TSRO0
    0x1af50700, // 91 TSRO1
    0x1bb50400, // 92 TSRO2
    0x1c470700, // 93 TSRO3
    0x00000000, // 94
    0x00000000, // 95
    0x00000000, // 96
    0x00000000, // 97
    0x00000000, // 98
    0x00000000, // 99
    0x10050200, // 100 MULK0
    0x10740200, // 101 MULK1
    0x10d40100, // 102 MULK2
    0x11250500, // 103 MULK3
    0x11c50500, // 104 MULK4
    0x21601414, // 105 MULK5
    0x21611414, // 106 MULK6
    0x12650500, // 107 MULK7
    0x13050500, // 108 MULK8
    0x13a90900, // 109 MULK9
    0x14c80900, // 110 MULK10
    0x15d70700, // 111 MULK11
    0x00000000, // 112
    0x00000000, // 113
    0x00000000, // 114
    0x00000000, // 115
    0x00000000, // 116
    0x00000000, // 117
    0x00000000, // 118
    0x00000000, // 119
    0x16b50200, // 120 MULB0
    0x17240200, // 121 MULB1
    0x17840100, // 122 MULB2
    0x17d50500, // 123 MULB3
    0x18750500, // 124 MULB4
    0x21701414, // 125 MULB5
    0x21711414, // 126 MULB6
    0x19150500, // 127 MULB7
    0x19b50500, // 128 MULB8
    0x1a590900, // 129 MULB9
    0x1b780900, // 130 MULB10
    0x1c870700, // 131 MULB11
    0x00000000, // 132
    0x00000000, // 133
    0x00000000, // 134
    0x00000000, // 135
    0x00000000, // 136
    0x00000000, // 137
    0x00000000, // 138
    0x00000000, // 139
    0x1d640300, // 140 OUTER0
    0x1dd40300, // 141 OUTER1
    0x1e450500, // 142 OUTER2
    0x1ee50500, // 143 OUTER3
    0x21801414, // 144 OUTER4
    0x21811414, // 145 OUTER5
    0x00000000, // 146
    0x00000000, // 147
    0x00000000, // 148
    0x00000000, // 149
    0x10050300, // 150 MULO0
    0x10850300, // 151 MULO1
    0x11040100, // 152 MULO2
    0x11540100, // 153 MULO3
    0x11a50500, // 154 MULO4
    0x12450500, // 155 MULO5
    0x12e50500, // 156 MULO6
    0x13850500, // 157 MULO7
    0x21901414, // 158 MULO8
    0x21911414, // 159 MULO9
    0x14250500, // 160 MULO10
    0x14c70700, // 161 MULO11
    0x15a90900, // 162 MULO12
    0x00000000, // 163
    0x00000000, // 164
    0x00000000, // 165
    0x00000000, // 166
    0x00000000, // 167
    0x00000000, // 168
    0x00000000, // 169
    0x70000000, // 170 SWAP
    0x00000000, // 171
    0x00000000, // 172
    0x00000000, // 173
    0x00000000, // 174
    0x00000000, // 175
    0x00000000, // 176
    0x00000000, // 177
    0x00000000, // 178
    0x00000000, // 179
    0x16c30100, // 180 SUM0
    0x17070200, // 181 SUM1
    0x80000000, // 182 SUM2
    0x17950104, // 183 SUM3
    0x00000000, // 184
    0x00000000, // 185
    0x00000000, // 186
    0x00000000, // 187
    0x00000000, // 188
    0x00000000, // 189
    0x17f40205, // 190 UNIT0
    0x18540205, // 191 UNIT1
];

// The digits of a rule's row, and 0 for a number that is no rule's.
fn line_of(rule: usize) -> u32
    ensures { result ≡ row_line (row_of rule) }
{
    if rule < ROWS.len() {
        return ROWS[rule];
    }
    0
}

// The family that the first digit of a row stands for. No `TryFrom`: every digit of the table is a family's, or 0.
fn family_of(digit: u32) -> Family
    ensures { result ≡ family_of digit }
{
    match digit {
        1 => Family::Equation,
        2 => Family::Spread,
        3 => Family::Remove,
        4 => Family::Absorb,
        5 => Family::Merge,
        6 => Family::Collect,
        7 => Family::Swap,
        8 => Family::Distribute,
        _ => Family::NoRule,
    }
}

// The row of a rule, and one of no rule and zeros for a number that is no rule's.
pub fn row_of(rule: usize) -> Row
    ensures { result ≡ row_of rule }
{
    let line = line_of(rule);
    Row {
        family: family_of(line / 0x10000000),
        a: (line / 0x100000 % 0x100) as u16,
        b: (line / 0x10000 % 0x10) as u16,
        c: (line / 0x100 % 0x100) as u16,
        d: (line % 0x100) as u16,
    }
}

// Lays words from `from` on over the front of `out`, as many as both have.
fn copy_behind(words: &[u16], from: usize, out: &mut [u16])
    ensures { out.new ≡ overlaid out.old (drop from words.now) }
{
    if from < words.len() {
        copy_words(out, &words[from..]);
    }
}

// The words of the equations of a group, which is a rule's number divided by 50. They are in four arrays, since a row's eight digits have two for the place at which its words begin.
fn words_in(group: usize) -> &'static [u16]
    ensures { result.now ≡ words_in group }
{
    match group {
        0 => &WORDS_FROM_0,
        1 => &WORDS_FROM_50,
        2 => &WORDS_FROM_100,
        3 => &WORDS_FROM_150,
        _ => &[],
    }
}

// Lays the words of the equations of a rule's group from `from` on over the front of `out`, as many as both have. They are copied, though they could be lent, since the contract says
// how `out` ends.
pub fn copy_from(rule: usize, from: usize, out: &mut [u16])
    ensures { out.new ≡ overlaid out.old (drop from (words_in (rule / 50))) }
{
    copy_behind(words_in(rule / 50), from, out);
}
