// Decimal numbers in a text, and the bytes of a case, whose number stands before them.
ghost use Rattle.std.specs.Prelude.{◌≡◌, ◌+◌, ◌-◌, ◌*◌, ◌%◌, min, ◌≤◌, ◌<◌, length, IfOk};
ghost use Rattle.std.specs.Io.KnownBytes.{Consumes, IsAtEnd};
ghost use Rattle.std.specs.List.{fold};
ghost use Rattle.cases.specs.Cases.{greatest, skipped, digits, number_at, bytes_at, bytes_between};

use input::read_full;
use std::io;
use std::io::Read;

// A reader of the cases in a text, and the position where it stands. The text stays whole beside the position, as `often` asks how far its first number
// goes: so each method says that it does.
#[derive(Drop)]
pub struct Cases<'a> {
    pub text: &'a [u8],
    pub at: usize,
}

// How many bytes stand before the first digit. One function for this and the next would be given the test, and be std's `take_while` again.
fn skipped(text: &[u8]) -> usize
    ensures value { result ≡ skipped text.now }
    ensures within { result ≤ length text.now }
{
    text.iter()
        .take_while(|byte| !byte.is_ascii_digit())
        .count()
}

// How many digits stand in front.
fn digits(text: &[u8]) -> usize
    ensures value { result ≡ digits text.now }
    ensures within { result ≤ length text.now }
{
    text.iter().take_while(|byte| byte.is_ascii_digit()).count()
}

// The number that a text's bytes write, if each is a digit: 0 for none, the greatest u64 where it is larger. std's parse is of a `str`, and refuses both.
fn decimal(digits: &[u8]) -> u64
    ensures { result ≡ min (fold (λ v b. v * 10 + (b - 48)) 0 digits.now) greatest }
{
    digits.iter().fold(
        0,
        |value: u64, digit| value
            .saturating_mul(10)
            .saturating_add(digit.saturating_sub(b'0').into()),
    )
}

impl<'a> Cases<'a> {
    // The cases that an input has, or the first that the buffer has room for.
    pub fn read<R: Read>(input: &mut R, buffer: &'a mut [u8]) -> io::Result<Cases<'a>>
        ensures start { IfOk result (λ cases. cases.at ≡ 0) }
        ensures bytes { IfOk result (λ cases. Consumes (R.remaining input.old) (R.remaining input.new) cases.text.now) }
        ensures end { IfOk result (λ cases. length cases.text.now < length buffer.old → IsAtEnd (R.remaining input.new)) }
    {
        let (count, outcome) = read_full(input, buffer);
        outcome?;
        Ok(Cases {
            text: &buffer[..count],
            at: 0,
        })
    }

    // The first number from here on: the greatest u64 where it is larger.
    #[tactic(auto, using(crate::proofs::Steps::number_steps))]
    pub fn number(&mut self) -> u64
        ensures value { (result, self.new.at) ≡ number_at self.old.text.now self.old.at }
        ensures text { self.new.text ≡ self.old.text }
    {
        let rest = self.text.get(self.at..).unwrap_or(&[]);
        let skipped = skipped(rest);
        let number = &rest[skipped..];
        let digits = digits(number);
        self.at += skipped + digits;
        decimal(&number[..digits])
    }

    // That number, modulo 2^32.
    pub fn number_u32(&mut self) -> u32
        ensures value { result ≡ (number_at self.old.text.now self.old.at).0 % 4294967296 }
        ensures at { self.new.at ≡ (number_at self.old.text.now self.old.at).1 }
        ensures text { self.new.text ≡ self.old.text }
    {
        (self.number() % 4294967296) as u32
    }

    // The number, at most `most`.
    pub fn count(&mut self, most: usize) -> usize
        ensures value { result ≡ min most (number_at self.old.text.now self.old.at).0 }
        ensures at { self.new.at ≡ (number_at self.old.text.now self.old.at).1 }
        ensures text { self.new.text ≡ self.old.text }
    {
        most.min(self.number() as usize)
    }

    // The bytes of a case: the first number from here on says how many follow the byte behind it. The text's end cuts them off.
    #[tactic(auto, unfolding(crate::specs::Cases::bytes_at))]
    pub fn bytes(&mut self) -> &'a [u8]
        ensures value { result.now ≡ bytes_between self.old.text.now (bytes_at self.old.text.now self.old.at) }
        ensures at { self.new.at ≡ (bytes_at self.old.text.now self.old.at).1 }
        ensures text { self.new.text ≡ self.old.text }
    {
        let text = self.text;
        let count = self.number() as usize;
        let start = self.at.saturating_add(1).min(text.len());
        let end = start.saturating_add(count).min(text.len());
        self.at = end;
        &text[start..end]
    }
}
