//! The numbers of lines that follow one another, each with its text.
ghost use Rattle.std.proofs.Props.{props};
ghost use Rattle.std.specs.Prelude.{decimal, length, ◌*◌, ◌+◌, ◌<◌, ◌^◌, ◌≡◌, ◌≤◌, ◌%◌, IfSome, Some};
ghost use Rattle.verdict.specs.LineNumbers.{worth};
ghost use Rattle.verdict.specs.ReportReading as spec;

use texts::Numeral;

// A text of so many digits leaves a byte of a word free.
const MOST_DIGITS: usize = 7;

// Where the last digit falls from 9 to 0 and the one before it rises by one, a word loses so many times what one is worth in the
// place of the latter: the last digit stands in the next higher byte.
const CARRY: u64 = 9 * 256 - 1;

/// A number and, where it has at most seven digits, its text as the low bytes of a word, so that it is compared at once.
#[derive(Clone, Copy)]
pub struct LineNumber {
    pub number: u64,
    // How many digits there are, or 0 where there are too many.
    len: usize,
    // The digits, the first in the lowest byte; 1 where there are too many.
    word: u64,
    // So many low bytes are 255.
    mask: u64,
    // How often the last digit can rise by one.
    rises: u64,
    ghost spelled: { 0 < len → worth (decimal number) ≡ word } by { Prim.hlevel props },
    ghost long: { 0 < len → length (decimal number) ≡ len } by { Prim.hlevel props },
    ghost unknown: { len ≡ 0 → word ≡ 1 } by { Prim.hlevel props },
    ghost masks: { mask + 1 ≡ 2 ^ (8 * len) } by { Prim.hlevel props },
    ghost few: { len ≤ 7 },
    ghost fits: { number < 2 ^ 64 },
    ghost known: { 0 < rises → 0 < len },
    ghost last: { number % 10 + rises ≤ 9 },
}

impl LineNumber {
    /// This number.
    pub fn of(number: u64) -> LineNumber
        ensures { result.number ≡ number }
    {
        let text = Numeral::of(number);
        let digits = text.as_bytes();
        let len = digits.len();
        if len > MOST_DIGITS {
            return LineNumber {
                number,
                len: 0,
                word: 1,
                mask: 0,
                rises: 0,
            };
        }
        LineNumber {
            number,
            len,
            word: word_of(digits),
            mask: (1 << (8 * len)) - 1,
            rises: 9 - number % 10,
        }
    }

    /// The next number. Mostly the last digit alone rises.
    pub fn next(self) -> LineNumber
        requires { self.number + 1 < 2 ^ 64 }
        ensures { result.number ≡ self.number + 1 }
    {
        let LineNumber {
            number,
            len,
            word,
            mask,
            rises,
        } = self;
        if rises == 0 {
            return self.carried();
        }
        LineNumber {
            number: number + 1,
            len,
            word: word + (mask >> 8) + 1,
            mask,
            rises: rises - 1,
        }
    }

    // The next number where the last digit cannot rise. Mostly it falls from 9 to 0, and the one before it rises.
    fn carried(self) -> LineNumber
        requires { self.number + 1 < 2 ^ 64 }
        ensures { result.number ≡ self.number + 1 }
    {
        let LineNumber {
            number,
            len,
            word,
            mask,
            ..
        } = self;
        if len < 2 || number % 10 != 9 || number % 100 == 99 {
            return LineNumber::of(number + 1);
        }
        LineNumber {
            number: number + 1,
            len,
            word: word - CARRY * ((mask >> 16) + 1),
            mask,
            rises: 9,
        }
    }

    /// The bytes behind its text, where that stands in front. None also from 10,000,000 on, and where fewer than eight bytes are left.
    #[inline(always)]
    pub fn behind(self, bytes: &[u8]) -> Option<&[u8]>
        ensures { IfSome result (λ rest. spec.behind (decimal self.number) bytes.now ≡ Some rest.now) }
    {
        let front = bytes.first_chunk::<8>()?;
        if u64::from_le_bytes(*front) & self.mask == self.word {
            let (_, rest) = bytes.split_at(self.len);
            Some(rest)
        } else {
            None
        }
    }
}

/// The bytes behind a text of at most seven bytes, where it stands in front. None also where fewer than eight bytes are left. It is
/// inlined, so that a text that is known is compared at once.
#[inline(always)]
pub fn behind_short<'a>(bytes: &'a [u8], text: &[u8]) -> Option<&'a [u8]>
    requires { length text.now ≤ 7 }
    ensures { IfSome result (λ rest. spec.behind text.now bytes.now ≡ Some rest.now) }
{
    let front = bytes.first_chunk::<8>()?;
    let mask = (1 << (8 * text.len())) - 1;
    if u64::from_le_bytes(*front) & mask == word_of(text) {
        let (_, rest) = bytes.split_at(text.len());
        Some(rest)
    } else {
        None
    }
}

// At most seven bytes as the low bytes of a word.
#[inline(always)]
fn word_of(bytes: &[u8]) -> u64
    requires { length bytes.now ≤ 7 }
    ensures { result ≡ worth bytes.now }
{
    let mut word = 0;
    let mut at = bytes.len();
    while at > 0 {
        at -= 1;
        word = word * 256 + u64::from(bytes[at]);
    }
    word
}
