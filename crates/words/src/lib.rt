// Runs of words as such: clearing, copying and comparing them.
#![tactic(auto)]

ghost use Rattle.std.specs.Prelude.{◌≡◌, ◌&&◌, [], ◌∷◌, ◌+◌, ◌-◌, min, eqb, length, take, drop, get_or};
ghost use Rattle.words.specs.Words.{cleared, overlaid, agreeing, same_words, laid};

// The word at an offset, and 0 where there is none. No Option: 0 is the word of no head and the length of no run, so that whoever reads it goes on without a test.
pub fn word_at(ws: &[u16], i: usize) -> u16
    ensures { result ≡ get_or ws.now i 0 }
{
    ws.get(i).copied().unwrap_or(0)
}

// Zeros from the offset `at` on; the words below it stay. Not by `fill(0)`, which stores the last word by itself: 6.1 ns where this takes 3.9, for 2 to 8 words.
pub fn clear_from(ws: &mut [u16], at: usize)
    ensures { ws.new ≡ cleared ws.old at }
{
    if at < ws.len() {
        ws[at..].fill_with(|| 0);
    }
}

// The words of a run from `from` on, `n` of them or as many as there are.
pub fn run(ws: &[u16], from: usize, n: usize) -> &[u16]
    ensures { result.now ≡ take n (drop from ws.now) }
{
    let rest = ws.get(from..).unwrap_or(&[]);
    rest.get(..n).unwrap_or(rest)
}

// Copies `src` over the front of `dst`, as many words as both have, and says how many. Not by `copy_from_slice`: where an index has one word, its call makes typing take up to a
// fifth longer (15 sums of 255 kets: 100 µs for 85).
pub fn copy_words(dst: &mut [u16], src: &[u16]) -> usize
    ensures { (result ≡ min (length dst.old) (length src.now)) × (dst.new ≡ overlaid dst.old src.now) }
{
    let n = dst.len().min(src.len());
    for i in 0..n {
        dst[i] = src[i];
    }
    n
}

// The first offset at which two runs differ; the shorter's length where it is a prefix of the other.
pub fn first_difference(a: &[u16], b: &[u16]) -> usize
    ensures { result ≡ agreeing a.now b.now }
{
    a.iter().zip(b).take_while(|(x, y)| x == y).count()
}

// Whether two runs are the same word by word. It looks at all words, so that it is compiled to tests of many at a time: most runs that are compared are short, and the same.
// Not by `==`: it takes 6.8 ns where this takes 4.9, for 2 words that are the same, and 7.5 against 5.9 for 5; nor by `all`, which takes 270 against 26 for 400.
pub fn same(a: &[u16], b: &[u16]) -> bool
    ensures { result ≡ same_words a.now b.now }
{
    if a.len() != b.len() {
        return false;
    }
    let mut alike = true;
    for i in 0..a.len() {
        alike &= a[i] == b[i];
    }
    alike
}

// The three appends answer an end, and one past the slice's for "no room", not an Option: the end is handed on through a chain of appends and tested once, where the chain ends; an Option
// would be asked at each of some thirty calls. `out` and the end go side by side, since the public contracts are an equation for each (`laid`, `Added`).

// Lays `src` over `out` from `at` on and answers the end, where there is room for all of it; else it changes nothing and answers one more than the
// length of `out`, which is no end.
pub fn append(out: &mut [u16], at: usize, src: &[u16]) -> usize
    ensures { (result ≡ min (at + length src.now) (length out.old + 1)) × (out.new ≡ laid out.old at src.now) }
{
    if out.len() < at || out.len() - at < src.len() {
        return out.len() + 1;
    }
    copy_words(&mut out[at..], src);
    at + src.len()
}

// One word, likewise.
pub fn append_word(out: &mut [u16], at: usize, word: u16) -> usize
    ensures { (result ≡ min (at + 1) (length out.old + 1)) × (out.new ≡ laid out.old at (word ∷ [])) }
{
    append(out, at, &[word])
}

// The words of `ws` from `from` up to `to`, likewise; those that `ws` does not have are left out.
pub fn append_run(out: &mut [u16], at: usize, ws: &[u16], from: usize, to: usize) -> usize
    ensures value { result ≡ min (at + length (take (to - from) (drop from ws.now))) (length out.old + 1) }
    ensures out_after { out.new ≡ laid out.old at (take (to - from) (drop from ws.now)) }
{
    append(out, at, run(ws, from, to.saturating_sub(from)))
}

// Puts a word in front of a row, whose words move up by one; the last goes. Not by `rotate_right`: it calls `memmove`, a name that the library for C has had no need of.
fn put_first(row: &mut [u16], word: u16)
    ensures { row.new ≡ take (length row.old) (word ∷ row.old) }
{
    let mut carried = word;
    for i in 0..row.len() {
        let next = row[i];
        row[i] = carried;
        carried = next;
    }
}

// Puts a word at an offset, in front of the `n` words from there on, which move up by one; the word behind them goes. Where there is none behind them it changes nothing.
// It takes the slice and a place, as the appends do: `&mut ws[at..]` at the call would have to show that the place is inside, and here none is refused.
pub fn insert(ws: &mut [u16], at: usize, word: u16, n: usize)
    ensures { ws.new ≡ laid ws.old at (word ∷ take n (drop at ws.old)) }
{
    if n < ws.len().saturating_sub(at) {
        put_first(&mut ws[at..at + n + 1], word);
    }
}
