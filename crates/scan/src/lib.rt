// Check 11: the scan holds each number below its length once.
#![tactic(auto)]

ghost use Rattle.std.specs.Prelude.{◌≡◌, true, ℕ, ◌+◌, ◌*◌, ◌/◌, ◌%◌, ◌<◌, ◌≤◌, length, get_or};
ghost use Rattle.scan.specs.Marks.{Marked, Marks, marked_below, byte_at, bit_at};
ghost use Rattle.scan.specs.Scan.{each_once};

// Marks the numbers met; whether all are below the length. With no early exit and no branch, and the index held to the marks (a power of two of them,
// so by a mask), the loop is unrolled.
fn mark(scan: &[u32], marks: &mut [u8]) -> bool
    requires marks_nonzero { (0 < length marks.old) × (length scan.now ≤ length marks.old) }
    requires by_index { (i : ℕ) → i < length scan.now → get_or marks.old i 0 ≡ 0 }
    ensures { Marked scan.now result (byte_at marks.new) }
{
    let mut bad = 0;
    for &number in scan {
        let x = number as usize;
        bad += usize::from(x >= scan.len());
        marks[x % marks.len()] = 1;
    }
    bad == 0
}

// Whether the first n are marked: by the least of them and with no early exit, so that the loop takes many at a time.
fn all_marked(marks: &[u8], n: usize) -> bool
    requires { n ≤ length marks.now }
    ensures { result ≡ marked_below n (byte_at marks.now) }
{
    let mut least = 1;
    for &mark in &marks[..n] {
        least = mark.min(least);
    }
    least == 1
}

fn marks_all(scan: &[u32], marks: &mut [u8]) -> bool
    requires marks_nonzero { (0 < length marks.old) × (length scan.now ≤ length marks.old) }
    requires by_index { (i : ℕ) → i < length scan.now → get_or marks.old i 0 ≡ 0 }
    ensures { result ≡ each_once scan.now }
{
    mark(scan, marks) && all_marked(marks, scan.len())
}

// The word that has the bit of x, held to n words.
fn word_of(x: usize, n: usize) -> usize
    requires { 0 < n }
    ensures { (result < n) × (result ≡ x / 64 % n) }
{
    x / 64 % n
}

// Marks number k by a bit, 64 in a word; how many of the numbers up to it are not below the length.
fn mark_bit(scan: &[u32], words: &mut [u64], k: usize, bad: usize) -> usize
    requires words_nonzero { (0 < length words.old) × ((length scan.now ≤ 64 * length words.old) × (k < length scan.now)) }
    requires marks { Marks scan.now bad (bit_at words.old) k }
    ensures marks_after { Marks scan.now result (bit_at words.new) (k + 1) }
    ensures words_len_unchanged { length words.new ≡ length words.old }
{
    let x = scan[k] as usize;
    let at = word_of(x, words.len());
    words[at] = words[at] | (1 << (x % 64));
    bad + usize::from(x >= scan.len())
}

fn mark_two(scan: &[u32], words: &mut [u64], k: usize, bad: usize) -> usize
    requires words_nonzero { (0 < length words.old) × ((length scan.now ≤ 64 * length words.old) × (k + 1 < length scan.now)) }
    requires marks { Marks scan.now bad (bit_at words.old) k }
    ensures marks_after { Marks scan.now result (bit_at words.new) (k + 2) }
    ensures words_len_unchanged { length words.new ≡ length words.old }
{
    let so_far = mark_bit(scan, words, k, bad);
    mark_bit(scan, words, k + 1, so_far)
}

fn mark_four(scan: &[u32], words: &mut [u64], k: usize, bad: usize) -> usize
    requires words_nonzero { (0 < length words.old) × ((length scan.now ≤ 64 * length words.old) × (k + 3 < length scan.now)) }
    requires marks { Marks scan.now bad (bit_at words.old) k }
    ensures marks_after { Marks scan.now result (bit_at words.new) (k + 4) }
    ensures words_len_unchanged { length words.new ≡ length words.old }
{
    let so_far = mark_two(scan, words, k, bad);
    mark_two(scan, words, k + 2, so_far)
}

// The same with 64 marks in a word. Four numbers at a time, since a `for` over them all is not unrolled by itself: 65,536 numbers in diagonal or in random order
// take it 86 µs in place of 75.
fn mark_bits(scan: &[u32], words: &mut [u64]) -> bool
    requires words_nonzero { (0 < length words.old) × (length scan.now ≤ 64 * length words.old) }
    requires by_index { (j : ℕ) → j < length words.old → get_or words.old j 0 ≡ 0 }
    ensures marked { Marked scan.now result (bit_at words.new) }
    ensures words_len_unchanged { length words.new ≡ length words.old }
{
    let mut bad = 0;
    let mut k = 0;
    while k < scan.len() {
        if scan.len() - k < 4 {
            bad = mark_bit(scan, words, k, bad);
            k += 1;
        } else {
            bad = mark_four(scan, words, k, bad);
            k += 4;
        }
    }
    bad == 0
}

// Whether the first n words are full.
fn all_full(words: &[u64], n: usize) -> bool
    requires { n ≤ length words.now }
    ensures { result ≡ marked_below (64 * n) (bit_at words.now) }
{
    words[..n].iter().all(|&word| word == u64::MAX)
}

// Whether the first n bits are set, those of whole words being so.
fn rest_set(words: &[u64], n: usize) -> bool
    requires n_bound { n ≤ 64 * length words.now }
    requires words_value { marked_below (64 * (n / 64)) (bit_at words.now) ≡ true }
    ensures { result ≡ marked_below n (bit_at words.now) }
{
    for i in 64 * (n / 64)..n {
        if (words[i / 64] >> (i % 64)) % 2 == 0 {
            return false;
        }
    }
    true
}

// The same of any words: a scan has whole words of bits, so that hardly any is tested by itself.
fn all_set(words: &[u64], n: usize) -> bool
    requires { n ≤ 64 * length words.now }
    ensures { result ≡ marked_below n (bit_at words.now) }
{
    all_full(words, n / 64) && rest_set(words, n)
}

fn bits_all(scan: &[u32], words: &mut [u64]) -> bool
    requires words_nonzero { (0 < length words.old) × (length scan.now ≤ 64 * length words.old) }
    requires by_index { (j : ℕ) → j < length words.old → get_or words.old j 0 ≡ 0 }
    ensures { result ≡ each_once scan.now }
{
    mark_bits(scan, words) && all_set(words, scan.len())
}

fn each_once_by_bytes<const N: usize>(scan: &[u32]) -> bool
    requires some_marks { (0 < N) × (N ≤ 8192) }
    requires enough_marks { length scan.now ≤ N }
    ensures { result ≡ each_once scan.now }
{
    let mut marks = [0u8; N];
    marks_all(scan, &mut marks)
}

fn each_once_by_bits(scan: &[u32]) -> bool
    requires { length scan.now ≤ 65536 }
    ensures { result ≡ each_once scan.now }
{
    let mut words = [0u64; 1024];
    bits_all(scan, &mut words)
}

// A short scan clears few marks. The longest takes bits, since every call pays for the pages of the largest frame.
pub fn each_once(scan: &[u32]) -> bool
    requires { length scan.now ≤ 65536 }
    ensures { result ≡ each_once scan.now }
{
    match scan.len() {
        0..=64 => each_once_by_bytes::<64>(scan),
        65..=1024 => each_once_by_bytes::<1024>(scan),
        1025..=8192 => each_once_by_bytes::<8192>(scan),
        _ => each_once_by_bits(scan),
    }
}
