// The words of each equation's left side, and then of its right side, in document 01's encoding: 0x0701 is 7:1. A hole k is 0xff00 + k, the first and the second
// index of the type of what hole k holds are 0xfe00 + k and 0xfd00 + k. They are in four arrays by the rules' numbers.
pub static WORDS_FROM_0: [u16; 235] = [
    // 2 ADDSID: 7:1 #0 becomes #0
    0x0701, // 2 left 7:1
    0xff00, // 2 left #0
    0xff00, // 2 right #0
    // 3 MULSID: 8:1 #0 becomes #0
    0x0801, // 3 left 8:1
    0xff00, // 3 left #0
    0xff00, // 3 right #0
    // 10 CONJ0: 9 5 becomes 5
    0x0900, // 10 left 9
    0x0500, // 10 left 5
    0x0500, // 10 right 5
    // 11 CONJ1: 9 6 becomes 6
    0x0900, // 11 left 9
    0x0600, // 11 left 6
    0x0600, // 11 right 6
    // 14 CONJ4: 9 9 #0 becomes #0
    0x0900, // 14 left 9
    0x0900, // 14 left 9
    0xff00, // 14 left #0
    0xff00, // 14 right #0
    // 15 CONJ5: 9 10 #0 #1 becomes 10 #0 #1
    0x0900, // 15 left 9
    0x0a00, // 15 left 10
    0xff00, // 15 left #0
    0xff01, // 15 left #1
    0x0a00, // 15 right 10
    0xff00, // 15 right #0
    0xff01, // 15 right #1
    // 16 CONJ6: 9 11 #0 #1 becomes 11 18 #1 18 #0
    0x0900, // 16 left 9
    0x0b00, // 16 left 11
    0xff00, // 16 left #0
    0xff01, // 16 left #1
    0x0b00, // 16 right 11
    0x1200, // 16 right 18
    0xff01, // 16 right #1
    0x1200, // 16 right 18
    0xff00, // 16 right #0
    // 20 DOT0: 11 13 #0 #1 becomes 5
    0x0b00, // 20 left 11
    0x0d00, // 20 left 13
    0xff00, // 20 left #0
    0xff01, // 20 left #1
    0x0500, // 20 right 5
    // 21 DOT1: 11 #0 12 #1 becomes 5
    0x0b00, // 21 left 11
    0xff00, // 21 left #0
    0x0c00, // 21 left 12
    0xff01, // 21 left #1
    0x0500, // 21 right 5
    // 22 DOT2: 11 19 #0 #1 #2 becomes 8:2 #0 11 #1 #2
    0x0b00, // 22 left 11
    0x1300, // 22 left 19
    0xff00, // 22 left #0
    0xff01, // 22 left #1
    0xff02, // 22 left #2
    0x0802, // 22 right 8:2
    0xff00, // 22 right #0
    0x0b00, // 22 right 11
    0xff01, // 22 right #1
    0xff02, // 22 right #2
    // 23 DOT3: 11 #0 19 #1 #2 becomes 8:2 #1 11 #0 #2
    0x0b00, // 23 left 11
    0xff00, // 23 left #0
    0x1300, // 23 left 19
    0xff01, // 23 left #1
    0xff02, // 23 left #2
    0x0802, // 23 right 8:2
    0xff01, // 23 right #1
    0x0b00, // 23 right 11
    0xff00, // 23 right #0
    0xff02, // 23 right #2
    // 26 DOT6: 11 17 #0 16 #1 becomes 10 #0 #1
    0x0b00, // 26 left 11
    0x1100, // 26 left 17
    0xff00, // 26 left #0
    0x1000, // 26 left 16
    0xff01, // 26 left #1
    0x0a00, // 26 right 10
    0xff00, // 26 right #0
    0xff01, // 26 right #1
    // 27 DOT7: 11 21 #0 #1 16 4 #2 #3 becomes 8:2 11 #0 16 #2 11 #1 16 #3
    0x0b00, // 27 left 11
    0x1500, // 27 left 21
    0xff00, // 27 left #0
    0xff01, // 27 left #1
    0x1000, // 27 left 16
    0x0400, // 27 left 4
    0xff02, // 27 left #2
    0xff03, // 27 left #3
    0x0802, // 27 right 8:2
    0x0b00, // 27 right 11
    0xff00, // 27 right #0
    0x1000, // 27 right 16
    0xff02, // 27 right #2
    0x0b00, // 27 right 11
    0xff01, // 27 right #1
    0x1000, // 27 right 16
    0xff03, // 27 right #3
    // 28 DOT8: 11 17 4 #0 #1 21 #2 #3 becomes 8:2 11 17 #0 #2 11 17 #1 #3
    0x0b00, // 28 left 11
    0x1100, // 28 left 17
    0x0400, // 28 left 4
    0xff00, // 28 left #0
    0xff01, // 28 left #1
    0x1500, // 28 left 21
    0xff02, // 28 left #2
    0xff03, // 28 left #3
    0x0802, // 28 right 8:2
    0x0b00, // 28 right 11
    0x1100, // 28 right 17
    0xff00, // 28 right #0
    0xff02, // 28 right #2
    0x0b00, // 28 right 11
    0x1100, // 28 right 17
    0xff01, // 28 right #1
    0xff03, // 28 right #3
    // 29 DOT9: 11 21 #0 #1 21 #2 #3 becomes 8:2 11 #0 #2 11 #1 #3
    0x0b00, // 29 left 11
    0x1500, // 29 left 21
    0xff00, // 29 left #0
    0xff01, // 29 left #1
    0x1500, // 29 left 21
    0xff02, // 29 left #2
    0xff03, // 29 left #3
    0x0802, // 29 right 8:2
    0x0b00, // 29 right 11
    0xff00, // 29 right #0
    0xff02, // 29 right #2
    0x0b00, // 29 right 11
    0xff01, // 29 right #1
    0xff03, // 29 right #3
    // 30 DOT10: 11 23 #0 #1 #2 becomes 11 #0 22 #1 #2
    0x0b00, // 30 left 11
    0x1700, // 30 left 23
    0xff00, // 30 left #0
    0xff01, // 30 left #1
    0xff02, // 30 left #2
    0x0b00, // 30 right 11
    0xff00, // 30 right #0
    0x1600, // 30 right 22
    0xff01, // 30 right #1
    0xff02, // 30 right #2
    // 31 DOT11: 11 17 4 #0 #1 22 21 #2 #3 #4 becomes 11 21 23 17 #0 #2 23 17 #1 #3 #4
    0x0b00, // 31 left 11
    0x1100, // 31 left 17
    0x0400, // 31 left 4
    0xff00, // 31 left #0
    0xff01, // 31 left #1
    0x1600, // 31 left 22
    0x1500, // 31 left 21
    0xff02, // 31 left #2
    0xff03, // 31 left #3
    0xff04, // 31 left #4
    0x0b00, // 31 right 11
    0x1500, // 31 right 21
    0x1700, // 31 right 23
    0x1100, // 31 right 17
    0xff00, // 31 right #0
    0xff02, // 31 right #2
    0x1700, // 31 right 23
    0x1100, // 31 right 17
    0xff01, // 31 right #1
    0xff03, // 31 right #3
    0xff04, // 31 right #4
    // 32 DOT12: 11 21 #0 #1 22 21 #2 #3 #4 becomes 11 21 23 #0 #2 23 #1 #3 #4
    0x0b00, // 32 left 11
    0x1500, // 32 left 21
    0xff00, // 32 left #0
    0xff01, // 32 left #1
    0x1600, // 32 left 22
    0x1500, // 32 left 21
    0xff02, // 32 left #2
    0xff03, // 32 left #3
    0xff04, // 32 left #4
    0x0b00, // 32 right 11
    0x1500, // 32 right 21
    0x1700, // 32 right 23
    0xff00, // 32 right #0
    0xff02, // 32 right #2
    0x1700, // 32 right 23
    0xff01, // 32 right #1
    0xff03, // 32 right #3
    0xff04, // 32 right #4
    // 33 DELTA0: 10 #0 #0 becomes 6
    0x0a00, // 33 left 10
    0xff00, // 33 left #0
    0xff00, // 33 left #0
    0x0600, // 33 right 6
    // 34 DELTA1: 10 4 #0 #1 4 #2 #3 becomes 8:2 10 #0 #2 10 #1 #3
    0x0a00, // 34 left 10
    0x0400, // 34 left 4
    0xff00, // 34 left #0
    0xff01, // 34 left #1
    0x0400, // 34 left 4
    0xff02, // 34 left #2
    0xff03, // 34 left #3
    0x0802, // 34 right 8:2
    0x0a00, // 34 right 10
    0xff00, // 34 right #0
    0xff02, // 34 right #2
    0x0a00, // 34 right 10
    0xff01, // 34 right #1
    0xff03, // 34 right #3
    // 40 SCR0: 19 6 #0 becomes #0
    0x1300, // 40 left 19
    0x0600, // 40 left 6
    0xff00, // 40 left #0
    0xff00, // 40 right #0
    // 41 SCR1: 19 #0 19 #1 #2 becomes 19 8:2 #0 #1 #2
    0x1300, // 41 left 19
    0xff00, // 41 left #0
    0x1300, // 41 left 19
    0xff01, // 41 left #1
    0xff02, // 41 left #2
    0x1300, // 41 right 19
    0x0802, // 41 right 8:2
    0xff00, // 41 right #0
    0xff01, // 41 right #1
    0xff02, // 41 right #2
    // 43 SCRK0: 19 5 #0 becomes 12 first #0
    0x1300, // 43 left 19
    0x0500, // 43 left 5
    0xff00, // 43 left #0
    0x0c00, // 43 right 12
    0xfe00, // 43 right first #0
    // 44 SCRK1: 19 #0 12 #1 becomes 12 #1
    0x1300, // 44 left 19
    0xff00, // 44 left #0
    0x0c00, // 44 left 12
    0xff01, // 44 left #1
    0x0c00, // 44 right 12
    0xff01, // 44 right #1
    // 45 SCRB0: 19 5 #0 becomes 13 first #0
    0x1300, // 45 left 19
    0x0500, // 45 left 5
    0xff00, // 45 left #0
    0x0d00, // 45 right 13
    0xfe00, // 45 right first #0
    // 46 SCRB1: 19 #0 13 #1 becomes 13 #1
    0x1300, // 46 left 19
    0xff00, // 46 left #0
    0x0d00, // 46 left 13
    0xff01, // 46 left #1
    0x0d00, // 46 right 13
    0xff01, // 46 right #1
    // 47 SCRO0: 19 5 #0 becomes 14 first #0 second #0
    0x1300, // 47 left 19
    0x0500, // 47 left 5
    0xff00, // 47 left #0
    0x0e00, // 47 right 14
    0xfe00, // 47 right first #0
    0xfd00, // 47 right second #0
    // 48 SCRO1: 19 #0 14 #1 #2 becomes 14 #1 #2
    0x1300, // 48 left 19
    0xff00, // 48 left #0
    0x0e00, // 48 left 14
    0xff01, // 48 left #1
    0xff02, // 48 left #2
    0x0e00, // 48 right 14
    0xff01, // 48 right #1
    0xff02, // 48 right #2
];

pub static WORDS_FROM_50: [u16; 210] = [
    // 50 ADDID: 20:1 #0 becomes #0
    0x1401, // 50 left 20:1
    0xff00, // 50 left #0
    0xff00, // 50 right #0
    // 60 ADJ0: 18 18 #0 becomes #0
    0x1200, // 60 left 18
    0x1200, // 60 left 18
    0xff00, // 60 left #0
    0xff00, // 60 right #0
    // 61 ADJ1: 18 19 #0 #1 becomes 19 9 #0 18 #1
    0x1200, // 61 left 18
    0x1300, // 61 left 19
    0xff00, // 61 left #0
    0xff01, // 61 left #1
    0x1300, // 61 right 19
    0x0900, // 61 right 9
    0xff00, // 61 right #0
    0x1200, // 61 right 18
    0xff01, // 61 right #1
    // 63 ADJ3: 18 21 #0 #1 becomes 21 18 #0 18 #1
    0x1200, // 63 left 18
    0x1500, // 63 left 21
    0xff00, // 63 left #0
    0xff01, // 63 left #1
    0x1500, // 63 right 21
    0x1200, // 63 right 18
    0xff00, // 63 right #0
    0x1200, // 63 right 18
    0xff01, // 63 right #1
    // 64 ADJK0: 18 13 #0 becomes 12 #0
    0x1200, // 64 left 18
    0x0d00, // 64 left 13
    0xff00, // 64 left #0
    0x0c00, // 64 right 12
    0xff00, // 64 right #0
    // 65 ADJK1: 18 17 #0 becomes 16 #0
    0x1200, // 65 left 18
    0x1100, // 65 left 17
    0xff00, // 65 left #0
    0x1000, // 65 right 16
    0xff00, // 65 right #0
    // 66 ADJK2: 18 23 #0 #1 becomes 22 18 #1 18 #0
    0x1200, // 66 left 18
    0x1700, // 66 left 23
    0xff00, // 66 left #0
    0xff01, // 66 left #1
    0x1600, // 66 right 22
    0x1200, // 66 right 18
    0xff01, // 66 right #1
    0x1200, // 66 right 18
    0xff00, // 66 right #0
    // 67 ADJB0: 18 12 #0 becomes 13 #0
    0x1200, // 67 left 18
    0x0c00, // 67 left 12
    0xff00, // 67 left #0
    0x0d00, // 67 right 13
    0xff00, // 67 right #0
    // 68 ADJB1: 18 16 #0 becomes 17 #0
    0x1200, // 68 left 18
    0x1000, // 68 left 16
    0xff00, // 68 left #0
    0x1100, // 68 right 17
    0xff00, // 68 right #0
    // 69 ADJB2: 18 22 #0 #1 becomes 23 18 #1 18 #0
    0x1200, // 69 left 18
    0x1600, // 69 left 22
    0xff00, // 69 left #0
    0xff01, // 69 left #1
    0x1700, // 69 right 23
    0x1200, // 69 right 18
    0xff01, // 69 right #1
    0x1200, // 69 right 18
    0xff00, // 69 right #0
    // 70 ADJO0: 18 14 #0 #1 becomes 14 #1 #0
    0x1200, // 70 left 18
    0x0e00, // 70 left 14
    0xff00, // 70 left #0
    0xff01, // 70 left #1
    0x0e00, // 70 right 14
    0xff01, // 70 right #1
    0xff00, // 70 right #0
    // 71 ADJO1: 18 15 #0 becomes 15 #0
    0x1200, // 71 left 18
    0x0f00, // 71 left 15
    0xff00, // 71 left #0
    0x0f00, // 71 right 15
    0xff00, // 71 right #0
    // 72 ADJO2: 18 24 #0 #1 becomes 24 18 #1 18 #0
    0x1200, // 72 left 18
    0x1800, // 72 left 24
    0xff00, // 72 left #0
    0xff01, // 72 left #1
    0x1800, // 72 right 24
    0x1200, // 72 right 18
    0xff01, // 72 right #1
    0x1200, // 72 right 18
    0xff00, // 72 right #0
    // 73 ADJO3: 18 25 #0 #1 becomes 25 18 #1 18 #0
    0x1200, // 73 left 18
    0x1900, // 73 left 25
    0xff00, // 73 left #0
    0xff01, // 73 left #1
    0x1900, // 73 right 25
    0x1200, // 73 right 18
    0xff01, // 73 right #1
    0x1200, // 73 right 18
    0xff00, // 73 right #0
    // 80 TSR0: 21 19 #0 #1 #2 becomes 19 #0 21 #1 #2
    0x1500, // 80 left 21
    0x1300, // 80 left 19
    0xff00, // 80 left #0
    0xff01, // 80 left #1
    0xff02, // 80 left #2
    0x1300, // 80 right 19
    0xff00, // 80 right #0
    0x1500, // 80 right 21
    0xff01, // 80 right #1
    0xff02, // 80 right #2
    // 81 TSR1: 21 #0 19 #1 #2 becomes 19 #1 21 #0 #2
    0x1500, // 81 left 21
    0xff00, // 81 left #0
    0x1300, // 81 left 19
    0xff01, // 81 left #1
    0xff02, // 81 left #2
    0x1300, // 81 right 19
    0xff01, // 81 right #1
    0x1500, // 81 right 21
    0xff00, // 81 right #0
    0xff02, // 81 right #2
    // 84 TSRK0: 21 12 #0 #1 becomes 12 2 #0 first #1
    0x1500, // 84 left 21
    0x0c00, // 84 left 12
    0xff00, // 84 left #0
    0xff01, // 84 left #1
    0x0c00, // 84 right 12
    0x0200, // 84 right 2
    0xff00, // 84 right #0
    0xfe01, // 84 right first #1
    // 85 TSRK1: 21 #0 12 #1 becomes 12 2 first #0 #1
    0x1500, // 85 left 21
    0xff00, // 85 left #0
    0x0c00, // 85 left 12
    0xff01, // 85 left #1
    0x0c00, // 85 right 12
    0x0200, // 85 right 2
    0xfe00, // 85 right first #0
    0xff01, // 85 right #1
    // 86 TSRK2: 21 16 #0 16 #1 becomes 16 4 #0 #1
    0x1500, // 86 left 21
    0x1000, // 86 left 16
    0xff00, // 86 left #0
    0x1000, // 86 left 16
    0xff01, // 86 left #1
    0x1000, // 86 right 16
    0x0400, // 86 right 4
    0xff00, // 86 right #0
    0xff01, // 86 right #1
    // 87 TSRB0: 21 13 #0 #1 becomes 13 2 #0 first #1
    0x1500, // 87 left 21
    0x0d00, // 87 left 13
    0xff00, // 87 left #0
    0xff01, // 87 left #1
    0x0d00, // 87 right 13
    0x0200, // 87 right 2
    0xff00, // 87 right #0
    0xfe01, // 87 right first #1
    // 88 TSRB1: 21 #0 13 #1 becomes 13 2 first #0 #1
    0x1500, // 88 left 21
    0xff00, // 88 left #0
    0x0d00, // 88 left 13
    0xff01, // 88 left #1
    0x0d00, // 88 right 13
    0x0200, // 88 right 2
    0xfe00, // 88 right first #0
    0xff01, // 88 right #1
    // 89 TSRB2: 21 17 #0 17 #1 becomes 17 4 #0 #1
    0x1500, // 89 left 21
    0x1100, // 89 left 17
    0xff00, // 89 left #0
    0x1100, // 89 left 17
    0xff01, // 89 left #1
    0x1100, // 89 right 17
    0x0400, // 89 right 4
    0xff00, // 89 right #0
    0xff01, // 89 right #1
    // 90 TSRO0: 21 #0 14 #1 #2 becomes 14 2 first #0 #1 2 second #0 #2
    0x1500, // 90 left 21
    0xff00, // 90 left #0
    0x0e00, // 90 left 14
    0xff01, // 90 left #1
    0xff02, // 90 left #2
    0x0e00, // 90 right 14
    0x0200, // 90 right 2
    0xfe00, // 90 right first #0
    0xff01, // 90 right #1
    0x0200, // 90 right 2
    0xfd00, // 90 right second #0
    0xff02, // 90 right #2
    // 91 TSRO1: 21 14 #0 #1 #2 becomes 14 2 #0 first #2 2 #1 second #2
    0x1500, // 91 left 21
    0x0e00, // 91 left 14
    0xff00, // 91 left #0
    0xff01, // 91 left #1
    0xff02, // 91 left #2
    0x0e00, // 91 right 14
    0x0200, // 91 right 2
    0xff00, // 91 right #0
    0xfe02, // 91 right first #2
    0x0200, // 91 right 2
    0xff01, // 91 right #1
    0xfd02, // 91 right second #2
    // 92 TSRO2: 21 15 #0 15 #1 becomes 15 2 #0 #1
    0x1500, // 92 left 21
    0x0f00, // 92 left 15
    0xff00, // 92 left #0
    0x0f00, // 92 left 15
    0xff01, // 92 left #1
    0x0f00, // 92 right 15
    0x0200, // 92 right 2
    0xff00, // 92 right #0
    0xff01, // 92 right #1
    // 93 TSRO3: 21 24 #0 #1 24 #2 #3 becomes 24 21 #0 #2 21 #1 #3
    0x1500, // 93 left 21
    0x1800, // 93 left 24
    0xff00, // 93 left #0
    0xff01, // 93 left #1
    0x1800, // 93 left 24
    0xff02, // 93 left #2
    0xff03, // 93 left #3
    0x1800, // 93 right 24
    0x1500, // 93 right 21
    0xff00, // 93 right #0
    0xff02, // 93 right #2
    0x1500, // 93 right 21
    0xff01, // 93 right #1
    0xff03, // 93 right #3
];

pub static WORDS_FROM_100: [u16; 248] = [
    // 100 MULK0: 22 14 #0 #1 #2 becomes 12 #0
    0x1600, // 100 left 22
    0x0e00, // 100 left 14
    0xff00, // 100 left #0
    0xff01, // 100 left #1
    0xff02, // 100 left #2
    0x0c00, // 100 right 12
    0xff00, // 100 right #0
    // 101 MULK1: 22 #0 12 #1 becomes 12 first #0
    0x1600, // 101 left 22
    0xff00, // 101 left #0
    0x0c00, // 101 left 12
    0xff01, // 101 left #1
    0x0c00, // 101 right 12
    0xfe00, // 101 right first #0
    // 102 MULK2: 22 15 #0 #1 becomes #1
    0x1600, // 102 left 22
    0x0f00, // 102 left 15
    0xff00, // 102 left #0
    0xff01, // 102 left #1
    0xff01, // 102 right #1
    // 103 MULK3: 22 19 #0 #1 #2 becomes 19 #0 22 #1 #2
    0x1600, // 103 left 22
    0x1300, // 103 left 19
    0xff00, // 103 left #0
    0xff01, // 103 left #1
    0xff02, // 103 left #2
    0x1300, // 103 right 19
    0xff00, // 103 right #0
    0x1600, // 103 right 22
    0xff01, // 103 right #1
    0xff02, // 103 right #2
    // 104 MULK4: 22 #0 19 #1 #2 becomes 19 #1 22 #0 #2
    0x1600, // 104 left 22
    0xff00, // 104 left #0
    0x1300, // 104 left 19
    0xff01, // 104 left #1
    0xff02, // 104 left #2
    0x1300, // 104 right 19
    0xff01, // 104 right #1
    0x1600, // 104 right 22
    0xff00, // 104 right #0
    0xff02, // 104 right #2
    // 107 MULK7: 22 24 #0 #1 #2 becomes 19 11 #1 #2 #0
    0x1600, // 107 left 22
    0x1800, // 107 left 24
    0xff00, // 107 left #0
    0xff01, // 107 left #1
    0xff02, // 107 left #2
    0x1300, // 107 right 19
    0x0b00, // 107 right 11
    0xff01, // 107 right #1
    0xff02, // 107 right #2
    0xff00, // 107 right #0
    // 108 MULK8: 22 25 #0 #1 #2 becomes 22 #0 22 #1 #2
    0x1600, // 108 left 22
    0x1900, // 108 left 25
    0xff00, // 108 left #0
    0xff01, // 108 left #1
    0xff02, // 108 left #2
    0x1600, // 108 right 22
    0xff00, // 108 right #0
    0x1600, // 108 right 22
    0xff01, // 108 right #1
    0xff02, // 108 right #2
    // 109 MULK9: 22 21 #0 #1 22 21 #2 #3 #4 becomes 22 21 25 #0 #2 25 #1 #3 #4
    0x1600, // 109 left 22
    0x1500, // 109 left 21
    0xff00, // 109 left #0
    0xff01, // 109 left #1
    0x1600, // 109 left 22
    0x1500, // 109 left 21
    0xff02, // 109 left #2
    0xff03, // 109 left #3
    0xff04, // 109 left #4
    0x1600, // 109 right 22
    0x1500, // 109 right 21
    0x1900, // 109 right 25
    0xff00, // 109 right #0
    0xff02, // 109 right #2
    0x1900, // 109 right 25
    0xff01, // 109 right #1
    0xff03, // 109 right #3
    0xff04, // 109 right #4
    // 110 MULK10: 22 21 #0 #1 16 4 #2 #3 becomes 21 22 #0 16 #2 22 #1 16 #3
    0x1600, // 110 left 22
    0x1500, // 110 left 21
    0xff00, // 110 left #0
    0xff01, // 110 left #1
    0x1000, // 110 left 16
    0x0400, // 110 left 4
    0xff02, // 110 left #2
    0xff03, // 110 left #3
    0x1500, // 110 right 21
    0x1600, // 110 right 22
    0xff00, // 110 right #0
    0x1000, // 110 right 16
    0xff02, // 110 right #2
    0x1600, // 110 right 22
    0xff01, // 110 right #1
    0x1000, // 110 right 16
    0xff03, // 110 right #3
    // 111 MULK11: 22 21 #0 #1 21 #2 #3 becomes 21 22 #0 #2 22 #1 #3
    0x1600, // 111 left 22
    0x1500, // 111 left 21
    0xff00, // 111 left #0
    0xff01, // 111 left #1
    0x1500, // 111 left 21
    0xff02, // 111 left #2
    0xff03, // 111 left #3
    0x1500, // 111 right 21
    0x1600, // 111 right 22
    0xff00, // 111 right #0
    0xff02, // 111 right #2
    0x1600, // 111 right 22
    0xff01, // 111 right #1
    0xff03, // 111 right #3
    // 120 MULB0: 23 #0 14 #1 #2 becomes 13 #2
    0x1700, // 120 left 23
    0xff00, // 120 left #0
    0x0e00, // 120 left 14
    0xff01, // 120 left #1
    0xff02, // 120 left #2
    0x0d00, // 120 right 13
    0xff02, // 120 right #2
    // 121 MULB1: 23 13 #0 #1 becomes 13 second #1
    0x1700, // 121 left 23
    0x0d00, // 121 left 13
    0xff00, // 121 left #0
    0xff01, // 121 left #1
    0x0d00, // 121 right 13
    0xfd01, // 121 right second #1
    // 122 MULB2: 23 #0 15 #1 becomes #0
    0x1700, // 122 left 23
    0xff00, // 122 left #0
    0x0f00, // 122 left 15
    0xff01, // 122 left #1
    0xff00, // 122 right #0
    // 123 MULB3: 23 19 #0 #1 #2 becomes 19 #0 23 #1 #2
    0x1700, // 123 left 23
    0x1300, // 123 left 19
    0xff00, // 123 left #0
    0xff01, // 123 left #1
    0xff02, // 123 left #2
    0x1300, // 123 right 19
    0xff00, // 123 right #0
    0x1700, // 123 right 23
    0xff01, // 123 right #1
    0xff02, // 123 right #2
    // 124 MULB4: 23 #0 19 #1 #2 becomes 19 #1 23 #0 #2
    0x1700, // 124 left 23
    0xff00, // 124 left #0
    0x1300, // 124 left 19
    0xff01, // 124 left #1
    0xff02, // 124 left #2
    0x1300, // 124 right 19
    0xff01, // 124 right #1
    0x1700, // 124 right 23
    0xff00, // 124 right #0
    0xff02, // 124 right #2
    // 127 MULB7: 23 #0 24 #1 #2 becomes 19 11 #0 #1 #2
    0x1700, // 127 left 23
    0xff00, // 127 left #0
    0x1800, // 127 left 24
    0xff01, // 127 left #1
    0xff02, // 127 left #2
    0x1300, // 127 right 19
    0x0b00, // 127 right 11
    0xff00, // 127 right #0
    0xff01, // 127 right #1
    0xff02, // 127 right #2
    // 128 MULB8: 23 #0 25 #1 #2 becomes 23 23 #0 #1 #2
    0x1700, // 128 left 23
    0xff00, // 128 left #0
    0x1900, // 128 left 25
    0xff01, // 128 left #1
    0xff02, // 128 left #2
    0x1700, // 128 right 23
    0x1700, // 128 right 23
    0xff00, // 128 right #0
    0xff01, // 128 right #1
    0xff02, // 128 right #2
    // 129 MULB9: 23 23 #0 21 #1 #2 21 #3 #4 becomes 23 #0 25 21 #1 #2 21 #3 #4
    0x1700, // 129 left 23
    0x1700, // 129 left 23
    0xff00, // 129 left #0
    0x1500, // 129 left 21
    0xff01, // 129 left #1
    0xff02, // 129 left #2
    0x1500, // 129 left 21
    0xff03, // 129 left #3
    0xff04, // 129 left #4
    0x1700, // 129 right 23
    0xff00, // 129 right #0
    0x1900, // 129 right 25
    0x1500, // 129 right 21
    0xff01, // 129 right #1
    0xff02, // 129 right #2
    0x1500, // 129 right 21
    0xff03, // 129 right #3
    0xff04, // 129 right #4
    // 130 MULB10: 23 17 4 #0 #1 21 #2 #3 becomes 21 23 17 #0 #2 23 17 #1 #3
    0x1700, // 130 left 23
    0x1100, // 130 left 17
    0x0400, // 130 left 4
    0xff00, // 130 left #0
    0xff01, // 130 left #1
    0x1500, // 130 left 21
    0xff02, // 130 left #2
    0xff03, // 130 left #3
    0x1500, // 130 right 21
    0x1700, // 130 right 23
    0x1100, // 130 right 17
    0xff00, // 130 right #0
    0xff02, // 130 right #2
    0x1700, // 130 right 23
    0x1100, // 130 right 17
    0xff01, // 130 right #1
    0xff03, // 130 right #3
    // 131 MULB11: 23 21 #0 #1 21 #2 #3 becomes 21 23 #0 #2 23 #1 #3
    0x1700, // 131 left 23
    0x1500, // 131 left 21
    0xff00, // 131 left #0
    0xff01, // 131 left #1
    0x1500, // 131 left 21
    0xff02, // 131 left #2
    0xff03, // 131 left #3
    0x1500, // 131 right 21
    0x1700, // 131 right 23
    0xff00, // 131 right #0
    0xff02, // 131 right #2
    0x1700, // 131 right 23
    0xff01, // 131 right #1
    0xff03, // 131 right #3
    // 140 OUTER0: 24 12 #0 #1 becomes 14 #0 first #1
    0x1800, // 140 left 24
    0x0c00, // 140 left 12
    0xff00, // 140 left #0
    0xff01, // 140 left #1
    0x0e00, // 140 right 14
    0xff00, // 140 right #0
    0xfe01, // 140 right first #1
    // 141 OUTER1: 24 #0 13 #1 becomes 14 first #0 #1
    0x1800, // 141 left 24
    0xff00, // 141 left #0
    0x0d00, // 141 left 13
    0xff01, // 141 left #1
    0x0e00, // 141 right 14
    0xfe00, // 141 right first #0
    0xff01, // 141 right #1
    // 142 OUTER2: 24 19 #0 #1 #2 becomes 19 #0 24 #1 #2
    0x1800, // 142 left 24
    0x1300, // 142 left 19
    0xff00, // 142 left #0
    0xff01, // 142 left #1
    0xff02, // 142 left #2
    0x1300, // 142 right 19
    0xff00, // 142 right #0
    0x1800, // 142 right 24
    0xff01, // 142 right #1
    0xff02, // 142 right #2
    // 143 OUTER3: 24 #0 19 #1 #2 becomes 19 #1 24 #0 #2
    0x1800, // 143 left 24
    0xff00, // 143 left #0
    0x1300, // 143 left 19
    0xff01, // 143 left #1
    0xff02, // 143 left #2
    0x1300, // 143 right 19
    0xff01, // 143 right #1
    0x1800, // 143 right 24
    0xff00, // 143 right #0
    0xff02, // 143 right #2
];

pub static WORDS_FROM_150: [u16; 139] = [
    // 150 MULO0: 25 14 #0 #1 #2 becomes 14 #0 second #2
    0x1900, // 150 left 25
    0x0e00, // 150 left 14
    0xff00, // 150 left #0
    0xff01, // 150 left #1
    0xff02, // 150 left #2
    0x0e00, // 150 right 14
    0xff00, // 150 right #0
    0xfd02, // 150 right second #2
    // 151 MULO1: 25 #0 14 #1 #2 becomes 14 first #0 #2
    0x1900, // 151 left 25
    0xff00, // 151 left #0
    0x0e00, // 151 left 14
    0xff01, // 151 left #1
    0xff02, // 151 left #2
    0x0e00, // 151 right 14
    0xfe00, // 151 right first #0
    0xff02, // 151 right #2
    // 152 MULO2: 25 15 #0 #1 becomes #1
    0x1900, // 152 left 25
    0x0f00, // 152 left 15
    0xff00, // 152 left #0
    0xff01, // 152 left #1
    0xff01, // 152 right #1
    // 153 MULO3: 25 #0 15 #1 becomes #0
    0x1900, // 153 left 25
    0xff00, // 153 left #0
    0x0f00, // 153 left 15
    0xff01, // 153 left #1
    0xff00, // 153 right #0
    // 154 MULO4: 25 24 #0 #1 #2 becomes 24 #0 23 #1 #2
    0x1900, // 154 left 25
    0x1800, // 154 left 24
    0xff00, // 154 left #0
    0xff01, // 154 left #1
    0xff02, // 154 left #2
    0x1800, // 154 right 24
    0xff00, // 154 right #0
    0x1700, // 154 right 23
    0xff01, // 154 right #1
    0xff02, // 154 right #2
    // 155 MULO5: 25 #0 24 #1 #2 becomes 24 22 #0 #1 #2
    0x1900, // 155 left 25
    0xff00, // 155 left #0
    0x1800, // 155 left 24
    0xff01, // 155 left #1
    0xff02, // 155 left #2
    0x1800, // 155 right 24
    0x1600, // 155 right 22
    0xff00, // 155 right #0
    0xff01, // 155 right #1
    0xff02, // 155 right #2
    // 156 MULO6: 25 19 #0 #1 #2 becomes 19 #0 25 #1 #2
    0x1900, // 156 left 25
    0x1300, // 156 left 19
    0xff00, // 156 left #0
    0xff01, // 156 left #1
    0xff02, // 156 left #2
    0x1300, // 156 right 19
    0xff00, // 156 right #0
    0x1900, // 156 right 25
    0xff01, // 156 right #1
    0xff02, // 156 right #2
    // 157 MULO7: 25 #0 19 #1 #2 becomes 19 #1 25 #0 #2
    0x1900, // 157 left 25
    0xff00, // 157 left #0
    0x1300, // 157 left 19
    0xff01, // 157 left #1
    0xff02, // 157 left #2
    0x1300, // 157 right 19
    0xff01, // 157 right #1
    0x1900, // 157 right 25
    0xff00, // 157 right #0
    0xff02, // 157 right #2
    // 160 MULO10: 25 25 #0 #1 #2 becomes 25 #0 25 #1 #2
    0x1900, // 160 left 25
    0x1900, // 160 left 25
    0xff00, // 160 left #0
    0xff01, // 160 left #1
    0xff02, // 160 left #2
    0x1900, // 160 right 25
    0xff00, // 160 right #0
    0x1900, // 160 right 25
    0xff01, // 160 right #1
    0xff02, // 160 right #2
    // 161 MULO11: 25 21 #0 #1 21 #2 #3 becomes 21 25 #0 #2 25 #1 #3
    0x1900, // 161 left 25
    0x1500, // 161 left 21
    0xff00, // 161 left #0
    0xff01, // 161 left #1
    0x1500, // 161 left 21
    0xff02, // 161 left #2
    0xff03, // 161 left #3
    0x1500, // 161 right 21
    0x1900, // 161 right 25
    0xff00, // 161 right #0
    0xff02, // 161 right #2
    0x1900, // 161 right 25
    0xff01, // 161 right #1
    0xff03, // 161 right #3
    // 162 MULO12: 25 21 #0 #1 25 21 #2 #3 #4 becomes 25 21 25 #0 #2 25 #1 #3 #4
    0x1900, // 162 left 25
    0x1500, // 162 left 21
    0xff00, // 162 left #0
    0xff01, // 162 left #1
    0x1900, // 162 left 25
    0x1500, // 162 left 21
    0xff02, // 162 left #2
    0xff03, // 162 left #3
    0xff04, // 162 left #4
    0x1900, // 162 right 25
    0x1500, // 162 right 21
    0x1900, // 162 right 25
    0xff00, // 162 right #0
    0xff02, // 162 right #2
    0x1900, // 162 right 25
    0xff01, // 162 right #1
    0xff03, // 162 right #3
    0xff04, // 162 right #4
    // 180 SUM0: 27 #0 5 becomes 5
    0x1b00, // 180 left 27
    0xff00, // 180 left #0
    0x0500, // 180 left 5
    0x0500, // 180 right 5
    // 181 SUM1: 27 #0 24 16 28:0 17 28:0 becomes 15 #0
    0x1b00, // 181 left 27
    0xff00, // 181 left #0
    0x1800, // 181 left 24
    0x1000, // 181 left 16
    0x1c00, // 181 left 28:0
    0x1100, // 181 left 17
    0x1c00, // 181 left 28:0
    0x0f00, // 181 right 15
    0xff00, // 181 right #0
    // 183 SUM3: 27 #0 10 #1 28:0 becomes 6
    0x1b00, // 183 left 27
    0xff00, // 183 left #0
    0x0a00, // 183 left 10
    0xff01, // 183 left #1
    0x1c00, // 183 left 28:0
    0x0600, // 183 right 6
    // 190 UNIT0: 25 18 #0 #0 becomes 15 and the second index of #0
    0x1900, // 190 left 25
    0x1200, // 190 left 18
    0xff00, // 190 left #0
    0xff00, // 190 left #0
    0x0f00, // 190 right 15
    0xfd00, // 190 right second index of #0
    // 191 UNIT1: 25 #0 18 #0 becomes 15 and the first index of #0
    0x1900, // 191 left 25
    0xff00, // 191 left #0
    0x1200, // 191 left 18
    0xff00, // 191 left #0
    0x0f00, // 191 right 15
    0xfe00, // 191 right first index of #0
];
