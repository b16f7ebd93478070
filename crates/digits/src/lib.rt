// Bytes and numbers, laid over a lent slice from an offset on. What lies past the slice's end is dropped; the place goes on behind the
// part all the same, up to the last offset that there is.
#![tactic(auto)]

ghost use Rattle.std.specs.Prelude.{◌≡◌, ◌/◌, ◌%◌, ◌<◌, ◌≤◌, ◌^◌, true, [], ◌∷◌, ◌++◌};
ghost use Rattle.std.specs.Float.Ieee.{to_unsigned};
ghost use Rattle.std.specs.Option.{SomeIff};
ghost use Rattle.digits.specs.Digits.{decimal, hex_digit, hex_digits, is_count, shown, newline, bits_word};
ghost use Rattle.digits.specs.Laid.{Begins, Laid, Lays};

pub const SPACE: u8 = b' ';

pub const NEWLINE: u8 = b'\n';

// A lent slice, and the offset of what is laid next.
// (d) No fmt::Write: what write! promises of the bytes holds only where it answers Ok, and nothing promises that it does.
// (d) An offset beside the slice: it goes on past the end, since a caller wants the whole text's length; the rest alone can't say it.
#[derive(Drop)]
pub struct Page<'a> {
    out: &'a mut [u8],
    at: usize,
}

// `0` to `9`, then `A` to `F`.
fn digit(d: u64) -> u8
    requires { d < 16 }
    ensures { result ≡ hex_digit d }
{
    if d < 10 { 48 + d as u8 } else { 55 + d as u8 }
}

// The number that n's digits before the last make, and the last. Ten and sixteen are spelled out: a division by a known
// number is a multiplication or a shift.
fn cut(base: u64, n: u64) -> (u64, u64)
    requires { 1 < base }
    ensures { (result.0 ≡ n / base) × (result.1 ≡ n % base) × (result.1 < base) }
{
    if base == 10 {
        return (n / 10, n % 10);
    }
    if base == 16 {
        return (n / 16, n % 16);
    }
    (n / base, n % base)
}

// Whole in 0 to 2^53.
#[tactic(auto, unfolding(crate::specs::Digits::is_count))]
fn is_count(x: f64) -> bool
    ensures { result ≡ is_count x }
{
    (0.0 <= x) & (x <= 9007199254740992.0) & (remainder::rem(x, 1.0) == 0.0)
}

// A count as a whole number.
#[tactic(auto, using(crate::proofs::Counts::count_above, crate::proofs::Counts::count_below))]
fn as_count(x: f64) -> Option<u64>
    ensures { SomeIff result (is_count x ≡ true) (to_unsigned 64 x) }
{
    if is_count(x) {
        Some(std::num::truncating_f64_to_u64(x))
    } else {
        None
    }
}

// A byte at an offset; the answer is the offset behind it.
// (b) Here and below a slice and an offset, and not a page: both would be read and written again for each byte, and a card of
// refused circles took 1.4 times as long.
// (c) No `get_mut`: after a write through what it lends of a slice, a proof knows how long the slice is, and not what it holds.
fn lay_byte(out: &mut [u8], at: usize, b: u8) -> usize
    ensures { Laid out.old at (b ∷ []) out.new result }
{
    if at < out.len() {
        out[at] = b;
    }
    at.saturating_add(1)
}

fn lay_bytes(out: &mut [u8], at: usize, text: &[u8]) -> usize
    ensures { Laid out.old at text.now out.new result }
{
    let mut next = at;
    for b in text {
        next = lay_byte(out, next, *b);
    }
    next
}

// The digits of n, the most significant first: at least so many, so `0` is in front of another only where n has fewer.
// (c) The base, only ever 10 or 16, is no const parameter: with one, rattle counts no proof that the inner call has fewer digits to lay.
fn lay_digits(out: &mut [u8], at: usize, base: u64, least: usize, n: u64) -> usize
    requires { (1 < base) × (base ≤ 16) }
    ensures decimal { base ≡ 10 → least ≤ 1 → Laid out.old at (decimal n) out.new result }
    ensures hex { base ≡ 16 → 0 < least → n < 16 ^ least → Laid out.old at (hex_digits least n) out.new result }
{
    if (n < base) & (least < 2) {
        return lay_byte(out, at, digit(n));
    }
    let (before, last) = cut(base, n);
    let next = lay_digits(out, at, base, least.saturating_sub(1), before);
    lay_byte(out, next, digit(last))
}

impl<'a> Page<'a> {
    // A slice from an offset on.
    pub fn new(out: &'a mut [u8], at: usize) -> Page<'a>
        ensures { Begins out.entry at result }
    {
        Page { out, at }
    }

    // The offset behind all that was laid.
    pub fn end(&self) -> usize
        ensures { result ≡ self.now.at }
    {
        self.at
    }

    pub fn put_bytes(&mut self, text: &[u8])
        ensures { Lays self.old text.now self.new }
    {
        let Page { out, at } = self;
        *at = lay_bytes(out, *at, text);
    }

    // A number and a byte after it.
    pub fn put_number(&mut self, n: u64, after: u8)
        ensures { Lays self.old (decimal n ++ (after ∷ [])) self.new }
    {
        let Page { out, at } = self;
        let next = lay_digits(out, *at, 10, 1, n);
        *at = lay_byte(out, next, after);
    }

    // `bits` and 16 hex digits, and a newline.
    fn put_bits(&mut self, n: u64)
        ensures { Lays self.old ((bits_word ++ hex_digits 16 n) ++ newline) self.new }
    {
        let Page { out, at } = self;
        let first = lay_bytes(out, *at, b"bits ");
        let next = lay_digits(out, first, 16, 16, n);
        *at = lay_byte(out, next, NEWLINE);
    }

    // A count in decimal, every other number by its bits; and a newline.
    #[tactic(auto, using(crate::proofs::Counts::shown_count))]
    pub fn put_shown(&mut self, x: f64)
        ensures { Lays self.old (shown x ++ newline) self.new }
    {
        match as_count(x) {
            Some(n) => self.put_number(n, NEWLINE),
            None => self.put_bits(float::to_bits(x)),
        }
    }
}
