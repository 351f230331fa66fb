// A number field of fixed width, read column by column from the left and written from the right.
ghost use Rattle.std.specs.Prelude.{◌≡◌, false, ◌≤◌, ◌^◌, ◌<◌, length, get_or, not, eqb, position, IfOk};
ghost use Rattle.line.specs.Field.{space, field_at, symbol_of, justified};
ghost use Rattle.line.specs.Write.{field_bytes, number_put};
ghost use Rattle.line.specs.FieldUse.{used_number, filled_field};
ghost use Rattle.line.specs.Line.{proper};

use crate::Malformed;

// The first column that isn't a space.
pub fn first_filled(columns: &[u8]) -> Option<usize>
    ensures { result ≡ position (λ column. not (eqb column 32)) columns.now }
{
    columns.iter().position(|&column| column != b' ')
}

// The field of columns that don't begin with a space: digits up to its end, with no 0 before others. std's parse takes a plus sign and leading zeros,
// which are refused here. The bound of 18 columns is asked by each function that reads: a type of columns would be made for four fields of `read_line`.
#[tactic(auto, using(crate::proofs::FieldReading::digit_steps), unfolding(crate::specs::Field::field_at))]
pub fn read_digits(digits: &[u8]) -> Result<u64, Malformed>
    requires { (0 < length digits.now) × (length digits.now ≤ 18) × (get_or digits.now 0 0 ≡ space → ⊥) }
    ensures { filled_field result ≡ field_at digits.now 0 (length digits.now) }
{
    match digits {
        [b'0'] => return Ok(0),
        [b'0', ..] => return Err(Malformed),
        _ => {}
    }
    // A loop, as its invariant bounds n: 18 digits fit 64 bits, and a fold's closure doesn't see how many it has passed.
    let mut n = 0;
    for &digit in digits {
        if !digit.is_ascii_digit() {
            return Err(Malformed);
        }
        n = n * 10 + u64::from(digit - b'0');
    }
    Ok(n)
}

// Whether the columns are those of an unused field, which is all spaces. The loop runs to the end whatever it meets, so that the compiler can compare
// several columns at once.
#[tactic(auto, using(crate::proofs::FieldReading::unused_further), unfolding(crate::specs::Field::field_at))]
fn is_unused(columns: &[u8]) -> bool
    ensures { result ≡ proper false (field_at columns.now 0 (length columns.now)) }
{
    let mut unused = true;
    for &column in columns {
        unused &= column == b' ';
    }
    unused
}

// The number of a used field, or 0 of an unused one. Compiled into `read_line`, where the width of each field is known.
#[tactic(auto, using(crate::proofs::FieldReading::filled_first, crate::proofs::FieldReading::filled_nowhere, crate::proofs::FieldBounds::number_below, crate::proofs::FieldBounds::some_below))]
#[inline(always)]
pub fn read_number(columns: &[u8], used: bool) -> Result<u64, Malformed>
    requires { length columns.now ≤ 18 }
    ensures value { result ≡ used_number used (field_at columns.now 0 (length columns.now)) }
    ensures below { IfOk result (λ n. n < 10 ^ length columns.now) }
{
    if used {
        let first = first_filled(columns).ok_or(Malformed)?;
        read_digits(&columns[first..])
    } else if is_unused(columns) {
        Ok(0)
    } else {
        Err(Malformed)
    }
}

// The last digit of m, or a space where m is 0: a column left of the last one.
pub fn symbol(m: u64) -> u8
    ensures { result ≡ symbol_of m }
{
    if m == 0 { b' ' } else { b'0' + (m % 10) as u8 }
}

// Writes n into its columns, right-justified. Of a number that is too wide its last digits stand; std's `{:>width$}` would write it whole.
#[tactic(auto, using(crate::proofs::NumberStores::padded_back, crate::proofs::NumberStores::last_back), unfolding(crate::specs::Field::padded, crate::specs::Field::justified))]
pub fn write_number(columns: &mut [u8], n: u64)
    ensures { columns.new ≡ justified (length columns.old) n }
{
    let width = columns.len();
    if width == 0 {
        return;
    }
    columns[width - 1] = b'0' + (n % 10) as u8;
    // By index: after a loop over `iter_mut().rev()`, or over what `split_last_mut` leaves, no more than the slice's length is known.
    let mut m = n / 10;
    for i in (0..width - 1).rev() {
        columns[i] = symbol(m);
        m /= 10;
    }
}

// A number in `width` columns from a position on; nothing where they are not all in the buffer.
pub fn put_number(buf: &mut [u8], at: usize, width: usize, n: u64)
    ensures { buf.new ≡ number_put buf.old at width n }
{
    if buf.len() < at {
        return;
    }
    if buf.len() - at < width {
        return;
    }
    write_number(&mut buf[at..at + width], n);
}

// Writes a used field's number into its columns, or spaces for an unused one, whose number a writer is given too.
#[tactic(auto, using(crate::proofs::NumberStores::spaces), unfolding(crate::specs::Write::field_bytes))]
pub fn write_field(columns: &mut [u8], used: bool, n: u64)
    ensures { columns.new ≡ field_bytes used (length columns.old) n }
{
    if used {
        write_number(columns, n);
    } else {
        columns.fill(b' ');
    }
}
