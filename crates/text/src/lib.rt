// The text of a listing, written into bytes that the caller lends: fixed room with how much of it counts, since there is no heap.
#![tactic(auto)]

ghost use Rattle.std.specs.Prelude.{◌≡◌, ◌+◌, ◌*◌, ◌≤◌, ◌<◌, [], ◌∷◌, length};
ghost use Rattle.wire.specs.Wire.{load_of};
ghost use Rattle.text.specs.Listing.{digit_of, hex_in, decimal_in, bits_text, count_text, bits_texts, refused_line, summary_line, row_line, row_lines, listing, loads, rows_of, WrittenText};

// The text so far: the first `len` of the bytes lent. What stands behind it stays until it is written over.
// Each method adds to it, within the same bytes; each says so, since an invariant speaks of one moment and not of two.
#[derive(Drop)]
pub struct Text<'a> {
    pub bytes: &'a mut [u8],
    pub len: usize,
}

// 0 to 9, then A to F. Digits by hand: `write!` may answer an error, of which its contract says nothing, and no listing may fail.
#[tactic(auto, unfolding(crate::specs::Listing::digit_of))]
fn digit(v: u64) -> u8
    requires { v < 16 }
    ensures { result ≡ digit_of v }
{
    if 9 < v { 55 + v as u8 } else { 48 + v as u8 }
}

impl Text<'_> {
    #[tactic(auto, using(crate::proofs::Lines::byte))]
    fn byte(&mut self, b: u8)
        requires { self.old.len < length self.old.bytes.now }
        ensures same_bytes { self.new.bytes.ghost_name ≡ self.old.bytes.ghost_name }
        ensures written { WrittenText self.old.bytes.now self.old.len (b ∷ []) self.new.bytes.now self.new.len }
    {
        self.bytes[self.len] = b;
        self.len += 1;
    }

    #[tactic(auto, using(crate::proofs::Lines::word_part))]
    fn word(&mut self, word: &[u8])
        requires { self.old.len + length word.now ≤ length self.old.bytes.now }
        ensures same_bytes { self.new.bytes.ghost_name ≡ self.old.bytes.ghost_name }
        ensures written { WrittenText self.old.bytes.now self.old.len word.now self.new.bytes.now self.new.len }
    {
        let end = self.len + word.len();
        self.bytes[self.len..end].copy_from_slice(word);
        self.len = end;
    }

    // The lowest hexadecimal digits of v, as many as there are places: those of v / 16 come before the last.
    // Not one function with `decimal`: these end at the last place, those where nothing is left of v.
    fn hex(&mut self, v: u64, places: usize)
        requires { self.old.len + places ≤ length self.old.bytes.now }
        ensures same_bytes { self.new.bytes.ghost_name ≡ self.old.bytes.ghost_name }
        ensures written { WrittenText self.old.bytes.now self.old.len (hex_in places v) self.new.bytes.now self.new.len }
    {
        if places == 0 {
            return;
        }
        self.hex(v / 16, places - 1);
        self.byte(digit(v % 16));
    }

    // The decimal digits of a v with at most that many places, with no zero in front.
    fn decimal(&mut self, v: u64, places: usize)
        requires { self.old.len + places ≤ length self.old.bytes.now }
        ensures same_bytes { self.new.bytes.ghost_name ≡ self.old.bytes.ghost_name }
        ensures written { WrittenText self.old.bytes.now self.old.len (decimal_in places v) self.new.bytes.now self.new.len }
    {
        if places == 0 {
            return;
        }
        if v < 10 {
            self.byte(digit(v));
            return;
        }
        self.decimal(v / 10, places - 1);
        self.byte(digit(v % 10));
    }

    // A space and 16 hexadecimal digits.
    pub fn bits(&mut self, v: u64)
        requires { self.old.len + 17 ≤ length self.old.bytes.now }
        ensures same_bytes { self.new.bytes.ghost_name ≡ self.old.bytes.ghost_name }
        ensures written { WrittenText self.old.bytes.now self.old.len (bits_text v) self.new.bytes.now self.new.len }
    {
        self.byte(b' ');
        self.hex(v, 16);
    }

    // A space and a number in decimal.
    pub fn count(&mut self, v: u64)
        requires { (self.old.len + 7 ≤ length self.old.bytes.now) × (v < 1000000) }
        ensures same_bytes { self.new.bytes.ghost_name ≡ self.old.bytes.ghost_name }
        ensures written { WrittenText self.old.bytes.now self.old.len (count_text v) self.new.bytes.now self.new.len }
    {
        self.byte(b' ');
        self.decimal(v, 6);
    }

    // The line of a fit: no refusal, bandwidth, AICc, solves.
    #[tactic(auto, using(crate::proofs::Parts::bits_end, crate::proofs::Parts::count_end))]
    pub fn summary(&mut self, summary: &[u8])
        requires { (self.old.len + 47 ≤ length self.old.bytes.now) × (24 ≤ length summary.now) × (load_of summary.now 16 < 1000000) }
        ensures same_bytes { self.new.bytes.ghost_name ≡ self.old.bytes.ghost_name }
        ensures written { WrittenText self.old.bytes.now self.old.len (summary_line (load_of summary.now 0) (load_of summary.now 8) (load_of summary.now 16)) self.new.bytes.now self.new.len }
    {
        self.word(b"fit 0");
        self.bits(wire::load(summary, 0));
        self.bits(wire::load(summary, 8));
        self.count(wire::load(summary, 16));
        self.byte(b'\n');
    }

    // `count` numbers of out, from number `first` on.
    fn numbers(&mut self, out: &[u8], first: usize, count: usize)
        requires { (self.old.len + 17 * count ≤ length self.old.bytes.now) × (8 * (first + count) ≤ length out.now) }
        ensures same_bytes { self.new.bytes.ghost_name ≡ self.old.bytes.ghost_name }
        ensures written { WrittenText self.old.bytes.now self.old.len (bits_texts (loads out.now first count)) self.new.bytes.now self.new.len }
    {
        // An index: number k stands at byte 8 * (first + k), and chunks of out[8 * first..8 * (first + count)] are no plainer.
        for k in 0..count {
            self.bits(wire::load(out, 8 * (first + k)));
        }
    }

    // The line of row i, `width` numbers.
    #[tactic(auto, using(crate::proofs::Parts::count_end, crate::proofs::Parts::numbers_end))]
    pub fn row(&mut self, out: &[u8], i: usize, width: usize)
        requires { (self.old.len + 198 ≤ length self.old.bytes.now) × (width ≤ 11) × (i < 1000000) × (8 * (i * width + width) ≤ length out.now) }
        ensures same_bytes { self.new.bytes.ghost_name ≡ self.old.bytes.ghost_name }
        ensures written { WrittenText self.old.bytes.now self.old.len (row_line i (loads out.now (i * width) width)) self.new.bytes.now self.new.len }
    {
        self.word(b"row");
        self.count(i as u64);
        self.numbers(out, i * width, width);
        self.byte(b'\n');
    }

    // The lines of the first n rows.
    fn rows(&mut self, out: &[u8], n: usize, width: usize)
        requires { (self.old.len + 198 * n ≤ length self.old.bytes.now) × (n ≤ 1000000) × (width ≤ 11) × (8 * (n * width) ≤ length out.now) }
        ensures same_bytes { self.new.bytes.ghost_name ≡ self.old.bytes.ghost_name }
        ensures written { WrittenText self.old.bytes.now self.old.len (row_lines 0 (rows_of out.now width n)) self.new.bytes.now self.new.len }
        ensures short { self.new.len ≤ self.old.len + 198 * n }
    {
        // An index: the line has it, and the numbers of row i begin at i * width.
        for i in 0..n {
            self.row(out, i, width);
        }
    }
}

// A refusal's line; answers where the text ends. By the number: any below 1000000 may be handed over, and a `Refusal` would ask more
// of callers.
#[tactic(auto, using(crate::proofs::Parts::count_end))]
pub fn put_refused(text: &mut [u8], number: u32) -> usize
    requires { (11 ≤ length text.old) × (number < 1000000) }
    ensures { WrittenText text.old 0 (refused_line number) text.new result }
{
    let mut line = Text {
        bytes: text,
        len: 0,
    };
    line.word(b"fit");
    line.count(u64::from(number));
    line.byte(b'\n');
    line.len
}

// The listing of a fit: its line, and one for each row; answers where the text ends.
#[tactic(auto, using(crate::proofs::Parts::summary_end))]
pub fn put_fit(text: &mut [u8], summary: &[u8], out: &[u8], n: usize, width: usize) -> usize
    requires rows_fit { (47 + 198 * n ≤ length text.old) × (n ≤ 1000000) × (width ≤ 11) × (8 * (n * width) ≤ length out.now) }
    requires summary_fits { (24 ≤ length summary.now) × (load_of summary.now 16 < 1000000) }
    ensures { WrittenText text.old 0 (listing (load_of summary.now 0) (load_of summary.now 8) (load_of summary.now 16) (rows_of out.now width n)) text.new result }
{
    let mut lines = Text {
        bytes: text,
        len: 0,
    };
    lines.summary(summary);
    lines.rows(out, n, width);
    lines.len
}
